//! The scopes of modules: what they declare, what their imports are bound to, and what was written.
#![tactic(auto)]

mod envs;
mod functions;
mod has_name;
pub mod laws;
mod lookups;
mod makes;
mod name_index;
mod scope;
mod slots;

pub use envs::Envs;
pub use has_name::HasName;
pub use name_index::NameIndex;
pub use scope::{ModuleScope, Read, Target, Wrote};
