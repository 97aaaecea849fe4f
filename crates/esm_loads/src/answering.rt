// A pending request is answered. ECMA-262, FinishLoadingImportedModule and ContinueModuleLoading.
ghost use Rattle.std.specs.Prelude.{◌≡◌, ◌<◌, length, map, Some, Err, OnOk, slice_get};
ghost use Rattle.esm_base.specs.declared.limits.Limit.{Limit};
ghost use Rattle.esm_base.specs.declared.end.End.TheVariants.{Fault};
ghost use Rattle.esm_realm.specs.Sound.{IsSound, records_of};
ghost use Rattle.esm_import_map.specs.ImportMap.{Maps};
ghost use Rattle.esm_loads.specs.Load.{Enters};
ghost use Rattle.esm_loads.specs.Loading.{Loading, begin as begun, finish as finished};
ghost use Rattle.esm_loads.specs.UrlTable.{TableEntry};
ghost use Rattle.esm_loads.specs.LoadsView.{LoadView, urls_of, url_at, request_of, is_open, before_linking};
ghost use Rattle.esm_loads.specs.LoadsAsLoading.{loading_of};
ghost use Rattle.esm_loads.specs.Fits.{AreJoined, HaveRecords, IsModuleAt};
ghost use Rattle.esm_loads.specs.Loaded.{PastNewStay};
ghost use Rattle.esm_loads.specs.Inner.Steps.{IsLoading, Grown, set_load};
ghost use Rattle.esm_loads.specs.Inner.Flags.{begun_record};
ghost use Rattle.esm_loads.specs.Inner.Stops.{StopsIn};
ghost use Rattle.esm_loads.specs.Inner.Filling.{FillsNew};
ghost use Rattle.esm_loads.specs.Inner.Targets.{KnowTargets};
ghost use Rattle.esm_loads.specs.Inner.Answering.{Reaches, IsAnswered, MayGoOn, StopsAnswer, KeepsUrls};

use crate::LoadEnd;
use crate::data::{Requester, Stage, TargetState, Waiting};
use crate::entering::enter;
use crate::filling::unlink;
use crate::loads::Loads;
use crate::steps::{set_stage, target_state};
use esm_base::ModuleId;
use esm_realm::Realm;

/// A load that goes on and has no pending request ends: those modules that it has visited and that are New become
/// Unlinked.
pub fn finish(loads: &mut Loads, realm: &mut Realm, load: usize)
    requires joined { AreJoined loads.old (length (records_of realm.old)) }
    requires records { HaveRecords loads.old.urls.slots (records_of realm.old) }
    requires sound { IsSound (records_of realm.old) }
    requires known { KnowTargets loads.old.urls (records_of realm.old) }
    requires load { load < length loads.old.loads.items }
    ensures finishes { (maps : Maps) → loading_of maps loads.new (records_of realm.new)
        ≡ finished (loading_of maps loads.old (records_of realm.old)) load }
    ensures joined { AreJoined loads.new (length (records_of realm.old)) }
    ensures known { KnowTargets loads.new.urls (records_of realm.old) }
    ensures same { map before_linking (records_of realm.new)
        ≡ map before_linking (records_of realm.old) }
    ensures stay { PastNewStay (records_of realm.old) (records_of realm.new) }
    ensures kept { KeepsUrls loads.old loads.new }
    ensures fills { FillsNew loads.new.urls.slots (records_of realm.old) (records_of realm.new) }
    ensures sound { IsSound (records_of realm.new) }
{
    match loads.loads[load].open_root() {
        Some(root) => {
            if loads.queues.waits(load) {
                return;
            }
            unlink(&loads.urls, loads.loads[load].visited(), realm);
            set_stage(loads, load, Stage::Complete(root));
        }
        None => {}
    }
}

// The root of a load is there, and it begins.
fn begin(loads: &mut Loads, load: usize, root: usize)
    requires { load < length loads.old.loads.items }
    ensures { (v : LoadView) → slice_get loads.old.loads.items load ≡ Some v
        → loads.new ≡ set_load loads.old load (begun_record root) }
{
    loads.loads[load].begin(root);
}

// A load, which goes on, enters a module, and ends where it has no pending request.
fn reach(
    loads: &mut Loads,
    realm: &mut Realm,
    load: usize,
    place: usize,
    id: ModuleId,
) -> Result<(), LoadEnd>
    requires joined { AreJoined loads.old (length (records_of realm.old)) }
    requires kept { HaveRecords loads.old.urls.slots (records_of realm.old) }
    requires sound { IsSound (records_of realm.old) }
    requires known { KnowTargets loads.old.urls (records_of realm.old) }
    requires module_at { IsModuleAt loads.old.urls.slots place id.0 }
    requires begun { IsLoading loads.old load }
    ensures reaches { (maps : Maps) → OnOk result (
        Reaches (loading_of maps loads.old (records_of realm.old)) load
        (url_at (urls_of loads.old.urls.slots) place)
        (loading_of maps loads.new (records_of realm.new))
        ) }
    ensures joined { OnOk result (AreJoined loads.new (length (records_of realm.old))) }
    ensures known { OnOk result (KnowTargets loads.new.urls (records_of realm.old)) }
    ensures same { map before_linking (records_of realm.new)
        ≡ map before_linking (records_of realm.old) }
    ensures stay { PastNewStay (records_of realm.old) (records_of realm.new) }
    ensures kept { OnOk result (KeepsUrls loads.old loads.new) }
    ensures fills { OnOk result
        (FillsNew loads.new.urls.slots (records_of realm.old) (records_of realm.new)) }
    ensures sound { IsSound (records_of realm.new) }
    ensures limit { (maps : Maps) → StopsIn result
        (loading_of maps loads.new (records_of realm.new))
        (
        Enters (loading_of maps loads.old (records_of realm.old)) load
        (url_at (urls_of loads.old.urls.slots) place)
        ) }
    ensures going { (limit : Limit) → result ≡ Err (Fault limit) → IsLoading loads.new load }
{
    match enter(loads, realm, load, place, id) {
        Ok(()) => {}
        Err(end) => return Err(end),
    }
    finish(loads, realm, load);
    Ok(())
}

// A load begins with its root, which is a module.
fn begin_and_reach(
    loads: &mut Loads,
    realm: &mut Realm,
    load: usize,
    place: usize,
    id: ModuleId,
) -> Result<(), LoadEnd>
    requires joined { AreJoined loads.old (length (records_of realm.old)) }
    requires kept { HaveRecords loads.old.urls.slots (records_of realm.old) }
    requires sound { IsSound (records_of realm.old) }
    requires known { KnowTargets loads.old.urls (records_of realm.old) }
    requires module_at { IsModuleAt loads.old.urls.slots place id.0 }
    requires load { load < length loads.old.loads.items }
    ensures reaches { (maps : Maps) → OnOk result (
        Reaches (begun (loading_of maps loads.old (records_of realm.old)) load
        (url_at (urls_of loads.old.urls.slots) place)) load
        (url_at (urls_of loads.old.urls.slots) place)
        (loading_of maps loads.new (records_of realm.new))
        ) }
    ensures joined { OnOk result (AreJoined loads.new (length (records_of realm.old))) }
    ensures known { OnOk result (KnowTargets loads.new.urls (records_of realm.old)) }
    ensures same { map before_linking (records_of realm.new)
        ≡ map before_linking (records_of realm.old) }
    ensures stay { PastNewStay (records_of realm.old) (records_of realm.new) }
    ensures kept { OnOk result (KeepsUrls loads.old loads.new) }
    ensures fills { OnOk result
        (FillsNew loads.new.urls.slots (records_of realm.old) (records_of realm.new)) }
    ensures sound { IsSound (records_of realm.new) }
    ensures limit { (maps : Maps) → StopsIn result
        (loading_of maps loads.new (records_of realm.new))
        (
        Enters (begun (loading_of maps loads.old (records_of realm.old)) load
        (url_at (urls_of loads.old.urls.slots) place)) load
        (url_at (urls_of loads.old.urls.slots) place)
        ) }
    ensures going { (limit : Limit) → result ≡ Err (Fault limit) → IsLoading loads.new load }
{
    begin(loads, load, place);
    match reach(loads, realm, load, place, id) {
        Ok(()) => Ok(()),
        Err(end) => Err(end),
    }
}

/// Answers a pending request with the entry of the URL at a place, which is fetched. The load goes on, or the request is
/// for its root.
pub fn answer(
    loads: &mut Loads,
    realm: &mut Realm,
    waiting: Waiting,
    place: usize,
) -> Result<(), LoadEnd>
    requires joined { AreJoined loads.old (length (records_of realm.old)) }
    requires kept { HaveRecords loads.old.urls.slots (records_of realm.old) }
    requires sound { IsSound (records_of realm.old) }
    requires known { KnowTargets loads.old.urls (records_of realm.old) }
    requires place { place < length loads.old.urls.slots }
    requires load { waiting.load < length loads.old.loads.items }
    requires going { MayGoOn loads.old waiting }
    ensures answers { (maps : Maps) → OnOk result (
        IsAnswered (loading_of maps loads.old (records_of realm.old))
        (request_of (urls_of loads.old.urls.slots) waiting)
        (url_at (urls_of loads.old.urls.slots) place)
        (loading_of maps loads.new (records_of realm.new))
        ) }
    ensures joined { OnOk result (AreJoined loads.new (length (records_of realm.old))) }
    ensures known { OnOk result (KnowTargets loads.new.urls (records_of realm.old)) }
    ensures same { map before_linking (records_of realm.new)
        ≡ map before_linking (records_of realm.old) }
    ensures stay { PastNewStay (records_of realm.old) (records_of realm.new) }
    ensures kept { OnOk result (KeepsUrls loads.old loads.new) }
    ensures fills { OnOk result
        (FillsNew loads.new.urls.slots (records_of realm.old) (records_of realm.new)) }
    ensures sound { IsSound (records_of realm.new) }
    ensures limit { (maps : Maps) → StopsAnswer result
        (loading_of maps loads.old (records_of realm.old))
        (request_of (urls_of loads.old.urls.slots) waiting)
        (url_at (urls_of loads.old.urls.slots) place)
        (loading_of maps loads.new (records_of realm.new)) }
    ensures going { (limit : Limit) → result ≡ Err (Fault limit)
        → IsLoading loads.new waiting.load }
{
    let load = waiting.load;
    match target_state(loads, Some(place)) {
        TargetState::Fetching => Ok(()),
        TargetState::Throws(cause) => {
            set_stage(loads, load, Stage::Thrown(cause));
            Ok(())
        }
        TargetState::Module(at, id) => match waiting.requester {
            Requester::Root => match begin_and_reach(loads, realm, load, at, id) {
                Ok(()) => Ok(()),
                Err(end) => Err(end),
            },
            Requester::Module { referrer, request } => {
                let _ = (referrer, request);
                match reach(loads, realm, load, at, id) {
                    Ok(()) => Ok(()),
                    Err(end) => Err(end),
                }
            }
        },
    }
}
