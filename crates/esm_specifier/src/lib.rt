//! What a specifier resolves to, by an import map and the URL of the module in which it stands.
#![tactic(auto)]

mod fault;
pub mod laws;
mod lookup;
mod resolving;
mod targets;

pub use fault::{SpecEnd, SpecFault};
pub use resolving::{resolve, resolve_against};
pub use targets::{Targets, targets_of};
