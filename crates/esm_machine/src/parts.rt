// The parts of a machine.
use crate::host::BodyHost;
use esm_eval::EvalHost;
use esm_values::Value;
use std::alloc::Global;

/// How far the entry has come.
#[derive(Drop)]
pub(crate) enum EntryState {
    /// Its evaluation hasn't ended.
    Underway,
    /// It was evaluated.
    Ended,
    /// Its load, its linking or its evaluation failed, with this value.
    Failed(Value),
}

/// What turns read and write.
#[derive(Drop)]
pub(crate) struct Parts {
    pub(crate) alloc: Global,
    /// Nodes, promises and bodies.
    pub(crate) host: EvalHost<BodyHost>,
    pub(crate) entry: EntryState,
}
