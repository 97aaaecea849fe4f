// A load enters a module. ECMA-262, InnerModuleLoading.
ghost use Rattle.std.specs.Prelude.{◌≡◌, Err, OnOk};
ghost use Rattle.esm_base.specs.declared.limits.Limit.{Limit};
ghost use Rattle.esm_base.specs.declared.end.End.TheVariants.{Fault};
ghost use Rattle.esm_realm.specs.Sound.{IsSound, records_of};
ghost use Rattle.std.specs.Prelude.{length};
ghost use Rattle.esm_import_map.specs.ImportMap.{Maps};
ghost use Rattle.esm_loads.specs.Load.{Enters};
ghost use Rattle.esm_loads.specs.LoadsView.{urls_of, url_at};
ghost use Rattle.esm_loads.specs.LoadsAsLoading.{loading_of};
ghost use Rattle.esm_loads.specs.Fits.{AreJoined, HaveRecords, IsModuleAt};
ghost use Rattle.esm_loads.specs.Inner.Steps.{IsLoading, Grown};
ghost use Rattle.esm_loads.specs.Inner.Stops.{StopsIn};
ghost use Rattle.esm_loads.specs.Inner.Targets.{KnowTargets};

use crate::LoadEnd;
use crate::data::{Requester, Stage, TargetState};
use crate::loads::Loads;
use crate::steps::{ask, is_fresh, is_open, set_stage, target_state, visit};
use esm_base::{Memory, ModuleId};
use esm_realm::Realm;

/// A load, which goes on, enters a module. The place of each target that it asks for or enters is kept, and looked up only
/// where it isn't known.
pub fn enter(
    loads: &mut Loads,
    realm: &Realm,
    load: usize,
    place: usize,
    id: ModuleId,
) -> Result<(), LoadEnd>
    requires joined { AreJoined loads.old (length (records_of realm.now)) }
    requires kept { HaveRecords loads.old.urls.slots (records_of realm.now) }
    requires sound { IsSound (records_of realm.now) }
    requires known { KnowTargets loads.old.urls (records_of realm.now) }
    requires module_at { IsModuleAt loads.old.urls.slots place id.0 }
    requires begun { IsLoading loads.old load }
    ensures enters { (maps : Maps) → OnOk result (
        Enters (loading_of maps loads.old (records_of realm.now)) load
        (url_at (urls_of loads.old.urls.slots) place)
        (loading_of maps loads.new (records_of realm.now))
        ) }
    ensures grown { OnOk result (Grown (length (records_of realm.now)) load loads.old loads.new) }
    ensures joined { OnOk result (AreJoined loads.new (length (records_of realm.now))) }
    ensures known { OnOk result (KnowTargets loads.new.urls (records_of realm.now)) }
    ensures limit { (maps : Maps) → StopsIn result
        (loading_of maps loads.new (records_of realm.now))
        (
        Enters (loading_of maps loads.old (records_of realm.now)) load
        (url_at (urls_of loads.old.urls.slots) place)
        ) }
    ensures going { (limit : Limit) → result ≡ Err (Fault limit) → IsLoading loads.new load }
{
    if !is_fresh(loads, realm, load, id) {
        return Ok(());
    }
    match visit(loads, load, id) {
        Ok(()) => {}
        Err(Memory) => return Err(LoadEnd::Memory),
    }
    let targets = realm.records[id.0 as usize].targets.as_slice();
    for request in 0..targets.len() {
        if !is_open(loads, load) {
            return Ok(());
        }
        let target = &targets[request];
        let at = loads.urls.find_target(id, request, target);
        match target_state(loads, at) {
            TargetState::Fetching => {
                let requester = Requester::Module {
                    referrer: place,
                    request,
                };
                match ask(loads, target, at, load, requester) {
                    Ok(asked) => loads.urls.keep(id, request, asked),
                    Err(end) => return Err(end),
                }
            }
            TargetState::Throws(cause) => set_stage(loads, load, Stage::Thrown(cause)),
            TargetState::Module(found, module) => match enter(loads, realm, load, found, module) {
                Ok(()) => loads.urls.keep(id, request, found),
                Err(end) => return Err(end),
            },
        }
    }
    Ok(())
}
