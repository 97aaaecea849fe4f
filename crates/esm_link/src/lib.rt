//! Linking of modules: the fault of a module that can't be linked, or its scope.
#![tactic(auto)]

mod bindings;
pub mod examples;
mod fault;
mod graph;
mod indexes;
pub mod laws;
mod namespaces;
mod statuses;
mod walk;

use esm_base::{End, ModuleId, Text};
pub use walk::link;

/// Why a module can't be linked.
#[derive(Clone, Copy, Debug, PartialEq, Eq)]
pub enum LinkKind {
    /// It imports a name that the other module doesn't export.
    K1,
    /// It imports a name that the other module exports in two ways or more.
    K2,
    /// It exports a name of another module that isn't exported there.
    K3,
    /// It exports a name of another module that is exported there in two ways or more.
    K4,
}

/// The fault of a module that can't be linked.
#[derive(Debug, PartialEq, Eq, Drop)]
pub struct LinkFault {
    /// Why.
    pub kind: LinkKind,
    /// The module.
    pub module: ModuleId,
    /// Of an import the name that it wants, of an export the exported name.
    pub name: Text,
    /// The module of the entry's request.
    pub target: ModuleId,
}

/// Why linking ends early.
pub type LinkEnd = End<LinkFault>;
