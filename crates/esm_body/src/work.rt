// What remains of bodies.
use crate::remaining::Remaining;
use crate::slots::Slots;
use esm_base::{ModuleId, Text};
use esm_expr_eval::ExprFrame;
use esm_tree::{StmtId, Tree};
use esm_values::{PromiseId, Value};
use std::sync::Arc;

/// What the value of a statement's expression is for.
#[derive(Clone, Copy)]
pub enum Use {
    /// Nothing.
    Drops,
    /// It sets the name of a binding of this declaration.
    Sets(StmtId, usize),
    /// It sets the binding of `export default`.
    Defaults,
    /// It is assigned by this statement.
    Writes(StmtId),
    /// It is thrown.
    Throws,
    /// It is returned.
    Returns,
    /// It is printed.
    Prints,
    /// It chooses a branch of this statement.
    Chooses(StmtId),
}

/// The expression of a statement under way.
#[derive(Drop)]
pub struct Doing {
    /// What its value is for.
    pub purpose: Use,
    /// Whether its value is awaited.
    pub awaits: bool,
    /// What remains of it.
    pub frame: ExprFrame,
}

/// A part of what remains.
#[derive(Drop)]
pub enum Work {
    /// A statement that hasn't begun.
    Whole(StmtId),
    /// An expression under way.
    Does(Doing),
    /// A value that is there.
    Has(Use, Value),
}

/// Why a level was begun.
#[derive(Clone, Copy)]
pub enum Kind {
    /// It is a block, a handler, or the body of a module.
    Block,
    /// It is the block of this `try`.
    Tries(StmtId),
}

/// A name that a block declares.
#[derive(Drop)]
pub struct Slot {
    /// The name.
    pub name: Text,
    /// Whether it is a constant.
    pub constant: bool,
    /// Its value, where it is set.
    pub value: Option<Value>,
}

/// A block under way: its names, and what remains of it.
#[derive(Drop)]
pub struct Level {
    /// Why it was begun.
    pub kind: Kind,
    /// Its names.
    pub slots: Slots,
    /// What remains, the first last.
    pub work: Remaining,
}

/// A body under way: its levels, the outermost first, which has no names.
#[derive(Drop)]
pub struct Activation {
    /// The module in which it stands written.
    pub at: ModuleId,
    /// The tree of that module.
    pub tree: Arc<Tree>,
    /// The levels.
    pub levels: Vec<Level>,
}

/// A body at its await.
#[derive(Drop)]
pub struct Standing {
    /// The promise that its end settles.
    pub done: PromiseId,
    /// What remains behind the await.
    pub body: Activation,
    /// What the awaited value is for.
    pub purpose: Use,
}
