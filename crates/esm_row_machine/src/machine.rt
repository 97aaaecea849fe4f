// The stacks of functions under way.
use esm_base::ModuleId;
use esm_values::Value;
use std::alloc::Global;

/// A function under way: how far it is, and how much of each stack is not its own.
#[derive(Clone, Copy)]
pub struct Frame {
    /// Its module.
    pub at: ModuleId,
    /// Its number there.
    pub function: u32,
    /// How many operations of its row are left.
    pub left: usize,
    /// How many values of names stand below its own.
    pub names: usize,
    /// How many operands stand below its own.
    pub operands: usize,
    /// How many handlers stand below its own.
    pub handlers: usize,
}

/// Where a throw leads to.
#[derive(Clone, Copy)]
pub struct Handler {
    /// How many operations are left there.
    pub left: usize,
    /// How many values of names stay.
    pub names: usize,
}

/// The stacks, which keep their memory from one call to the next.
#[derive(Drop)]
pub struct Machine {
    /// The operands.
    pub operands: Vec<Value>,
    /// The values of names: those of a function stand together, the outermost block's first.
    pub names: Vec<Option<Value>>,
    /// The handlers.
    pub handlers: Vec<Handler>,
    /// The functions that wait for the value of a call.
    pub frames: Vec<Frame>,
}

impl Machine {
    /// With nothing on the stacks. It doesn't allocate.
    pub fn new(alloc: Global) -> Machine {
        Machine {
            operands: Vec::new(alloc),
            names: Vec::new(alloc),
            handlers: Vec::new(alloc),
            frames: Vec::new(alloc),
        }
    }
}
