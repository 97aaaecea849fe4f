//! Promises, their reactions, and the queue of jobs.
#![tactic(auto)]

pub mod laws;
mod promises;
mod reaction;

pub use promises::Promises;
pub use reaction::{Reaction, ReactionKind, Settled};
