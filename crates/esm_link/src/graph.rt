// The records of a realm as a graph of exports.
ghost use Rattle.std.specs.Prelude.{◌≡◌, ◌≤◌, length};
ghost use Rattle.esm_base.specs.declared.limits.TheConstants.{MAX_URLS};
ghost use Rattle.esm_realm.specs.Sound.{records_of};

use esm_ast::{Entries, Tree};
use esm_base::ModuleId;
use esm_realm::Realm;
use esm_resolve::ExportGraph;
use std::sync::Arc;

/// The records of a realm, each with its tree.
#[derive(Drop)]
pub struct RealmGraph<'a> {
    pub(crate) realm: &'a Realm,
    pub(crate) trees: &'a [Arc<Tree>],
    ghost few: { length (records_of realm.now) ≤ MAX_URLS },
}

impl<'a> RealmGraph<'a> {
    /// The graph of a realm's records, with the tree of each by id.
    pub fn new(realm: &'a Realm, trees: &'a [Arc<Tree>]) -> RealmGraph<'a>
        requires { length (records_of realm.now) ≤ MAX_URLS }
        ensures realm { result.realm.now ≡ realm.now }
        ensures trees { result.trees.now ≡ trees.now }
    {
        RealmGraph { realm, trees }
    }
}

impl<'a> ExportGraph for RealmGraph<'a> {
    ghost use Rattle.esm_realm.specs.Sound.{records_of};
    ghost use Rattle.esm_link.specs.Inner.Graph.{graph_of};

    ghost graph = { λ s. graph_of (records_of s.realm.now) };

    fn size(&self) -> u32 {
        self.realm.records.len() as u32
    }

    fn entries(&self, m: ModuleId) -> &Entries {
        &self.realm.records[m.0 as usize].entries
    }

    fn target(&self, m: ModuleId, request: usize) -> ModuleId {
        match self.realm.records[m.0 as usize].loaded.get(request) {
            Some(Some(target)) => *target,
            _ => ModuleId(0),
        }
    }
}
