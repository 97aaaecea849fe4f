//! The world that a machine stands for, whose modules have ids, and the machine, whose states are worlds.
#![tactic(auto)]

mod by_id;
mod condition;
mod host;
mod jobs;
pub mod laws;
mod linking;
mod loading;
mod machine;
mod module_store;
mod parts;
mod reads;
mod turn;

pub use condition::Condition;
use esm_base::{End, Limit};
pub use machine::Machine;
pub use module_store::ModuleStore;

/// How a turn ends early: by a limit, or because memory ran out.
pub type TurnEnd = End<Limit>;
