// What lies outside of bodies: the records of modules, and the loads.
ghost use Rattle.std.specs.Prelude.{◌≡◌, ◌<◌, true, length};
ghost use Rattle.esm_realm.specs.Sound.{records_of};
ghost use Rattle.esm_machine.specs.ModuleStore.{is_whole};

use crate::by_id::{count_of, entries_of, has_module, loaded_of, url_of};
use crate::condition::{Condition, condition_after, stop_after};
use crate::laws::records_show;
use esm_ast::Entries;
use esm_base::ModuleId;
use esm_body::Importer;
use esm_import_map::ImportMap;
use esm_loads::Loads;
use esm_promise::Promises;
use esm_realm::Realm;
use esm_resolve::ExportGraph;
use esm_rewriting::Stop;
use esm_values::{Errors, PromiseId};
use std::alloc::Global;
use std::marker::Model;
use std::sync::Arc;

/// The records of modules, the loads, the import map, and whether each module awaits.
///
/// The loads fit the records as long as nothing was refused. Where a limit has stopped an `import()` or an answer, what was
/// linked is there still; where memory ran out, or a limit has stopped the end of a fetch, nothing is.
#[derive(Drop)]
pub struct ModuleStore {
    pub(crate) realm: Realm,
    pub(crate) loads: Loads,
    pub(crate) import_map: Arc<ImportMap>,
    pub(crate) condition: Condition,
    /// Whether the body of each module awaits, in order of ids: evaluation asks so of each module that it comes to.
    pub(crate) awaiting: Vec<bool>,
}

impl Model for ModuleStore {
    ghost use Rattle.std.specs.Arc.{arc_value};
    ghost use Rattle.std.specs.Coded.{codes};
    ghost use Rattle.esm_tree.specs.Syntax.{coded_parts};
    ghost use Rattle.esm_import_map.specs.ImportMap.{maps_code};
    ghost use Rattle.esm_realm.specs.Sound.{records_of};
    ghost use Rattle.esm_machine.specs.ModuleStore.{Imported, imported};
    ghost use Rattle.esm_machine.specs.Inner.Awaiting.{IsKeptWith};

    ghost Value = { Imported };

    ghost coded = { Prim.hlevel (codes, maps_code, coded_parts) };

    ghost view = { λ i. imported (records_of i.realm) i.loads (arc_value i.import_map) i.condition };

    ghost invariant = { λ i. IsKeptWith (imported (records_of i.realm) i.loads (arc_value i.import_map) i.condition)
        i.awaiting.items };
}

impl ExportGraph for ModuleStore {
    ghost use Rattle.esm_machine.specs.ModuleStore.{graph_of};

    ghost graph = { graph_of };

    fn size(&self) -> u32 {
        match self.condition {
            Condition::Whole => count_of(&self.realm),
            Condition::Stopped(_limit) => count_of(&self.realm),
            Condition::Lost => 0,
        }
    }

    fn entries(&self, m: ModuleId) -> &Entries {
        records_show();
        entries_of(&self.realm, m)
    }

    fn target(&self, m: ModuleId, request: usize) -> ModuleId {
        records_show();
        loaded_of(&self.realm, m, request)
    }
}

impl Importer for ModuleStore {
    ghost use Rattle.esm_machine.specs.Seen.{BeginsById, Fits, Seen, linked, modules};
    ghost use Rattle.esm_machine.specs.ModuleStore.{seen_of, urls_by_id};
    ghost use Rattle.esm_machine.specs.Inner.Importing.{imports_are_there};
    ghost use Rattle.esm_machine.specs.Inner.Lawful.{imports_are_lawful};

    ghost Seen = { Seen };

    ghost seen = { seen_of };

    ghost modules = { modules };

    ghost linked = { linked };

    ghost urls = { urls_by_id };

    ghost fits = { Fits };

    ghost begins = { BeginsById };

    ghost has_linked = { imports_are_there.linked };

    ghost sound = { imports_are_there.sound };

    ghost lawful = { imports_are_lawful };

    fn begin(
        &mut self,
        _alloc: Global,
        promises: &mut Promises,
        errors: &mut Errors,
        referrer: ModuleId,
        specifier: &str,
        promise: PromiseId,
    ) -> Result<(), Stop> {
        esm_loads::laws::only_grows();
        esm_loads::laws::stays_orderly();
        esm_loads::laws::stays_whole();
        if !can_begin(&self.realm, self.condition, referrer) {
            return Err(Stop::Memory);
        }
        match self.loads.import_call(
            &mut self.realm,
            promises,
            errors,
            &self.import_map,
            referrer,
            specifier,
            promise,
        ) {
            Ok(()) => Ok(()),
            Err(end) => {
                self.condition = condition_after(end);
                Err(stop_after(end))
            }
        }
    }

    fn url(&self, m: ModuleId) -> &str {
        records_show();
        url_of(&self.realm, m)
    }
}

/// Whether an `import()` may begin in a module.
fn can_begin(realm: &Realm, condition: Condition, referrer: ModuleId) -> bool
    ensures whole { result ≡ true → is_whole condition ≡ true }
    ensures referrer { result ≡ true → referrer.0 < length (records_of realm.now) }
{
    condition.is_whole() && has_module(realm, referrer)
}
