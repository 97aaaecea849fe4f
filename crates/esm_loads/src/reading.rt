// What the jobs of loads read. ECMA-262, ContinueDynamicImport.
ghost use Rattle.std.specs.Prelude.{◌≡◌, ℕ, List, IfSome, slice_get, true};
ghost use Rattle.esm_import_map.specs.ImportMap.{Maps};
ghost use Rattle.esm_realm.specs.Sound.{RecordParts};
ghost use Rattle.esm_loads.specs.Loading as loading;
ghost use Rattle.esm_loads.specs.LoadsView.{is_unlinked, promise_id};
ghost use Rattle.esm_loads.specs.LoadsAsLoading.{loading_of};
ghost use Rattle.esm_loads.specs.Fits.{FitRecords};
ghost use Rattle.esm_loads.specs.Loaded.{root_url};
ghost use Rattle.esm_loads.specs.Whole.{IsWhole};
ghost use Rattle.esm_loads.specs.Inner.Reading.{complete_by};

use crate::data::{Purpose, Stage};
use crate::loads::Loads;
use esm_base::ModuleId;
use esm_values::PromiseId;

// The place of the root of a load that has ended with all modules loaded.
fn complete_root(loads: &Loads, load: usize) -> Option<usize>
    ensures { result ≡ complete_by (slice_get loads.now.loads.items load) }
{
    if load >= loads.loads.len() {
        return None;
    }
    match loads.loads[load].stage() {
        Stage::Complete(place) => Some(place),
        Stage::Asked => None,
        Stage::Open(_root) => None,
        Stage::Thrown(_cause) => None,
    }
}

/// The root of a load that has ended with all modules loaded.
pub fn root_of_load(loads: &Loads, load: usize) -> Option<ModuleId>
    ensures root { (maps : Maps) (records : List RecordParts) → FitRecords loads.now records
        → IsWhole (loading_of maps loads.now records)
        → loading.root_of_load (loading_of maps loads.now records) load
        ≡ root_url records result }
    ensures loaded { (maps : Maps) (records : List RecordParts) → FitRecords loads.now records
        → IsWhole (loading_of maps loads.now records)
        → IfSome result (λ m. is_unlinked records m.0 ≡ true) }
{
    match complete_root(loads, load) {
        Some(place) => loads.urls.module_at(place),
        None => None,
    }
}

/// The promise of the `import()` that a load is for.
pub fn import_promise(loads: &Loads, load: usize) -> Option<PromiseId>
    ensures { (maps : Maps) (records : List RecordParts)
        → loading.import_promise (loading_of maps loads.now records) load ≡ promise_id result }
{
    if load >= loads.purposes.len() {
        return None;
    }
    match loads.purposes[load] {
        Purpose::ForEntry(_promise) => None,
        Purpose::ForImport(promise, _load) => Some(promise),
    }
}
