// What linking keeps of the modules' entries, so that each module's are gone through once.
ghost use Rattle.esm_env.specs.Modules.{Modules};
ghost use Rattle.std.specs.Prelude.{ℕ};
ghost use Rattle.esm_link.specs.Inner.Graph.{AreIndexes};

use crate::namespaces::Namespaces;
use esm_resolve::ExportIndex;
use std::alloc::Global;

/// What modules export, and which namespaces they import.
#[derive(Drop)]
pub struct Indexes {
    /// What modules export, and which bindings were found.
    pub exports: ExportIndex,
    /// Which modules they import as `* as`.
    pub namespaces: Namespaces,
}

impl Indexes {
    /// The indexes of no modules. It doesn't allocate.
    pub fn new(alloc: Global) -> Indexes
        ensures { (g : Modules ℕ) → AreIndexes g result }
    {
        Indexes {
            exports: ExportIndex::new(alloc),
            namespaces: Namespaces::new(alloc),
        }
    }
}
