// What the functions that a body calls run in.
ghost use Rattle.std.specs.Prelude.{◌≡◌, ℕ, None};
ghost use Rattle.esm_row_machine.specs.Tables.{row_in};

use esm_row_machine::{Machine, Rows};
use std::alloc::Global;

/// The stacks of functions under way, and the rows of functions that were made.
#[derive(Drop)]
pub(crate) struct Functions {
    pub(crate) machine: Machine,
    pub(crate) rows: Rows,
}

impl Functions {
    /// Without rows. It doesn't allocate.
    pub(crate) fn new(alloc: Global) -> Functions
        ensures { (m : ℕ) → (k : ℕ) → row_in result.rows m k ≡ None }
    {
        Functions {
            machine: Machine::new(alloc),
            rows: Rows::new(alloc),
        }
    }
}
