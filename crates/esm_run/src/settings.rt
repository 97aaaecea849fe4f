// What the calling thread's part of a run is done under.
use esm_fetch::{Bell, Posted};
use esm_import_map::ImportMap;
use esm_module_map::ModuleMap;
use std::alloc::Global;
use std::sync::{Arc, Wait};

/// What the calling thread's part of a run is done under, and only reads. The module map, its bell and the import map are
/// those that the workers have too.
#[derive(Drop)]
pub(crate) struct Settings<'a, R: Wait> {
    /// What threads wait by.
    pub rt: &'a R,
    /// Where memory is taken from.
    pub alloc: Global,
    /// The module map.
    pub modules: &'a ModuleMap<Posted>,
    /// The bell, which is rung behind posts.
    pub bell: &'a Bell,
    /// The import map of the run.
    pub import_map: &'a Arc<ImportMap, Global>,
}
