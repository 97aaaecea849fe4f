// The tables of loading: URLs, pending requests and loads.
use crate::asked_urls::AskedUrls;
use crate::data::Purpose;
use crate::load_record::LoadRecord;
use crate::queues::Queues;
use esm_ast::Tree;
use std::alloc::Global;
use std::sync::Arc;

/// The table of URLs, their pending requests, and the loads. Its modules are the records of a realm.
///
/// ECMA-262, LoadRequestedModules and ContinueDynamicImport, over fetches that end in any order. After a refusal it may
/// be dropped only.
#[derive(Drop)]
pub struct Loads {
    /// The asked URLs.
    pub(crate) urls: AskedUrls,
    /// The pending requests of each URL.
    pub(crate) queues: Queues,
    /// The loads, by number.
    pub(crate) loads: Vec<LoadRecord>,
    /// What each load is for.
    pub(crate) purposes: Vec<Purpose>,
    /// The tree of each module, in order of ids.
    pub(crate) trees: Vec<Arc<Tree>>,
    /// The place of the URL that was fetched last.
    pub(crate) delivered: usize,
    /// How many calls of `import()` were begun.
    pub(crate) import_calls: u64,
    pub(crate) alloc: Global,
}
