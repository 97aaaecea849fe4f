//! Evaluation of modules: its definitions with their laws, its code over single steps, and a walk's steps over real state.
#![tactic(auto)]

mod bodies;
mod desk;
mod ends;
pub mod examples;
mod gather;
mod host;
mod late;
pub mod laws;
mod nodes;
mod passing;
mod stack;
mod walk;

pub use bodies::Bodies;
pub use ends::{Late, fulfilled, rejected};
pub use host::EvalHost;
pub use laws::AnyWorld;
pub use nodes::{Nodes, Phase};
pub use walk::{Cut, Desk, EvalEnd, evaluate};
