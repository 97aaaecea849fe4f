// The next pending request of a fetched URL is answered. ECMA-262, FinishLoadingImportedModule and ContinueDynamicImport.
ghost use Rattle.std.specs.Prelude.{◌≡◌, ◌<◌, ℕ, List, length, None, Some, Ok, Err, IfSome, OnOk, slice_get, map, not, true, false};
ghost use Rattle.esm_base.specs.declared.limits.Limit.{Limit};
ghost use Rattle.esm_base.specs.declared.end.End.TheVariants.{Fault};
ghost use Rattle.esm_base.specs.Urls.{Url};
ghost use Rattle.esm_realm.specs.Sound.{IsSound, RecordParts, records_of};
ghost use Rattle.esm_import_map.specs.ImportMap.{Maps};
ghost use Rattle.esm_values.specs.Errors.{Errors as ErrorList};
ghost use Rattle.esm_loads.specs.UrlTable.{TableEntry};
ghost use Rattle.esm_loads.specs.Loading.{Root};
ghost use Rattle.esm_loads.specs.Host as host;
ghost use Rattle.esm_loads.specs.Host.{Host, Answered};
ghost use Rattle.esm_loads.specs.Arrival.{AnswersNext, next};
ghost use Rattle.esm_loads.specs.LoadsView.{urls_of, url_at, request_of, is_open, before_linking};
ghost use Rattle.esm_loads.specs.LoadsAsLoading.{loading_of, trees_of};
ghost use Rattle.esm_loads.specs.Fits.{AreJoined, FitRecords, HaveRecords};
ghost use Rattle.esm_loads.specs.declared.data.Slot.{Slot};
ghost use Rattle.esm_loads.specs.Hosted.{host_of, StopsHost};
ghost use Rattle.esm_loads.specs.Loaded.{HaveLoaded, PastNewStay};
ghost use Rattle.esm_loads.specs.Whole.{IsWhole};
ghost use Rattle.esm_loads.specs.Inner.Answering.{MayGoOn};
ghost use Rattle.esm_loads.specs.Inner.Filling.{FillsNew};
ghost use Rattle.esm_loads.specs.Inner.Stepping.{Takes, NothingPending, IsBegun, IsSettled, IsAnsweredIn, BeginsBy};

use crate::LoadEnd;
use crate::answering::answer;
use crate::data::{Purpose, Requester, TargetState, UrlState, Waiting};
use crate::loads::Loads;
use crate::settling::{purpose_at, settle_load, without_load};
use crate::steps::{is_open as goes_on, target_state};
use esm_base::Memory;
use esm_promise::{Promises, Reaction, ReactionKind};
use esm_realm::Realm;
use esm_values::Errors;

/// Whether the URL at a place is fetched.
pub fn is_fetched(loads: &Loads, place: usize) -> bool
    requires { place < length loads.now.urls.slots }
    ensures { (s : Slot) → slice_get loads.now.urls.slots place ≡ Some s
        → result ≡ not (is_open s.state) }
{
    match loads.urls.state(place) {
        UrlState::Open => false,
        UrlState::Failed => true,
        UrlState::Broken(_error) => true,
        UrlState::Module(_id) => true,
    }
}

// Takes the first pending request of the URL that was fetched last.
fn take_next(loads: &mut Loads) -> Option<Waiting>
    requires { length loads.old.queues.queues ≡ length loads.old.urls.slots }
    ensures some { IfSome result (λ w. Takes loads.old loads.new w) }
    ensures none { result ≡ None → NothingPending loads.old }
    ensures same { result ≡ None → loads.new ≡ loads.old }
{
    let place = loads.delivered;
    if place >= loads.urls.len() {
        return None;
    }
    if !is_fetched(loads, place) {
        return None;
    }
    match loads.queues.pop(place) {
        Some(waiting) => Some(waiting),
        None => None,
    }
}

// The load of an import() whose root is a module gets a promise of its own.
fn own_load(loads: &mut Loads, promises: &mut Promises, load: usize) -> Result<(), Memory>
    requires { load < length loads.old.purposes.items }
    ensures begins { (named : ℕ → Url) (maps : Maps) (records : List RecordParts)
        (errors : ErrorList) → OnOk result (
        BeginsBy named maps records errors loads.old promises.old loads.new promises.new load None
        ) }
    ensures rest { loads.new ≡ record loads.old { purposes = loads.new.purposes } }
    ensures count { length loads.new.purposes.items ≡ length loads.old.purposes.items }
{
    match without_load(purpose_at(loads, load)) {
        Some(promise) => {
            let reaction = Reaction {
                kind: ReactionKind::Loaded,
                subject: load as u64,
            };
            let own = promises.make_with(loads.alloc, reaction)?;
            loads.purposes[load] = Purpose::ForImport(promise, Some(own));
            Ok(())
        }
        None => Ok(()),
    }
}

// Where a module answers the root of an import(), its load begins, with a promise. The URL at the place is fetched.
fn begin_load(
    loads: &mut Loads,
    promises: &mut Promises,
    load: usize,
    place: usize,
) -> Result<(), Memory>
    requires load { load < length loads.old.purposes.items }
    requires place { place < length loads.old.urls.slots }
    ensures begins { (named : ℕ → Url) (maps : Maps) (records : List RecordParts)
        (errors : ErrorList) → IsBegun named maps records errors loads.old promises.old place load
        result loads.new promises.new }
    ensures rest { loads.new ≡ record loads.old { purposes = loads.new.purposes } }
    ensures count { length loads.new.purposes.items ≡ length loads.old.purposes.items }
{
    match target_state(loads, Some(place)) {
        TargetState::Fetching => Ok(()),
        TargetState::Throws(_cause) => Ok(()),
        TargetState::Module(_at, _id) => match own_load(loads, promises, load) {
            Ok(()) => Ok(()),
            Err(Memory) => Err(Memory),
        },
    }
}

// A pending request that was taken is answered with the entry of the URL at a place, which is fetched.
fn respond_to(
    loads: &mut Loads,
    realm: &mut Realm,
    promises: &mut Promises,
    errors: &mut Errors,
    waiting: Waiting,
    place: usize,
) -> Result<(), LoadEnd>
    requires fits { FitRecords loads.old (records_of realm.old) }
    requires sound { IsSound (records_of realm.old) }
    requires place { place < length loads.old.urls.slots }
    requires load { waiting.load < length loads.old.loads.items }
    requires going { MayGoOn loads.old waiting }
    ensures answered { (named : ℕ → Url) (maps : Maps) → IsSettled named maps
        loads.old promises.old errors.old (records_of realm.old) waiting place
        result loads.new promises.new errors.new (records_of realm.new) }
    ensures fits { OnOk result (FitRecords loads.new (records_of realm.new)) }
    ensures same { map before_linking (records_of realm.new)
        ≡ map before_linking (records_of realm.old) }
    ensures stay { PastNewStay (records_of realm.old) (records_of realm.new) }
    ensures fills { OnOk result
        (FillsNew loads.new.urls.slots (records_of realm.old) (records_of realm.new)) }
    ensures sound { IsSound (records_of realm.new) }
{
    match answer(loads, realm, waiting, place) {
        Ok(()) => {}
        Err(end) => return Err(end),
    }
    match settle_load(loads, promises, errors, waiting.load) {
        Ok(()) => Ok(()),
        Err(Memory) => Err(LoadEnd::Memory),
    }
}

/// A pending request that was taken is answered with the entry of the URL at a place, which is fetched: nothing more is
/// done where its load has ended.
pub fn respond(
    loads: &mut Loads,
    realm: &mut Realm,
    promises: &mut Promises,
    errors: &mut Errors,
    waiting: Waiting,
    place: usize,
) -> Result<(), LoadEnd>
    requires fits { FitRecords loads.old (records_of realm.old) }
    requires sound { IsSound (records_of realm.old) }
    requires place { place < length loads.old.urls.slots }
    requires load { waiting.load < length loads.old.loads.items }
    ensures answered { (named : ℕ → Url) (maps : Maps) → IsAnsweredIn named maps
        loads.old promises.old errors.old (records_of realm.old) waiting place
        result loads.new promises.new errors.new (records_of realm.new) }
    ensures fits { OnOk result (FitRecords loads.new (records_of realm.new)) }
    ensures same { map before_linking (records_of realm.new)
        ≡ map before_linking (records_of realm.old) }
    ensures stay { PastNewStay (records_of realm.old) (records_of realm.new) }
    ensures fills { OnOk result
        (FillsNew loads.new.urls.slots (records_of realm.old) (records_of realm.new)) }
    ensures sound { IsSound (records_of realm.new) }
{
    match waiting.requester {
        Requester::Root => {
            match begin_load(loads, promises, waiting.load, place) {
                Ok(()) => {}
                Err(Memory) => return Err(LoadEnd::Memory),
            }
            match respond_to(loads, realm, promises, errors, waiting, place) {
                Ok(()) => Ok(()),
                Err(end) => Err(end),
            }
        }
        Requester::Module { referrer, request } => {
            let _ = (referrer, request);
            if !goes_on(loads, waiting.load) {
                return Ok(());
            }
            match respond_to(loads, realm, promises, errors, waiting, place) {
                Ok(()) => Ok(()),
                Err(end) => Err(end),
            }
        }
    }
}

/// Answers the first pending request of a fetched URL, in order of asking; false exactly where there is none.
pub fn answer_next(
    loads: &mut Loads,
    realm: &mut Realm,
    promises: &mut Promises,
    errors: &mut Errors,
) -> Result<bool, LoadEnd>
    requires fits { FitRecords loads.old (records_of realm.old) }
    requires sound { IsSound (records_of realm.old) }
    ensures answers { (named : ℕ → Url) (maps : Maps) → result ≡ Ok true → AnswersNext
        (host_of named promises.old errors.old (loading_of maps loads.old (records_of realm.old)))
        (host_of named promises.new errors.new (loading_of maps loads.new (records_of realm.new))) }
    ensures none { (maps : Maps) → result ≡ Ok false
        → next (loading_of maps loads.old (records_of realm.old)) ≡ None }
    ensures unchanged { result ≡ Ok false → (loads.new ≡ loads.old)
        × (promises.new ≡ promises.old) × (errors.new ≡ errors.old)
        × (records_of realm.new ≡ records_of realm.old) }
    ensures limit { (named : ℕ → Url) (maps : Maps) → StopsHost result
        (host_of named promises.new errors.new (loading_of maps loads.new (records_of realm.new)))
        (AnswersNext
        (host_of named promises.old errors.old (loading_of maps loads.old (records_of realm.old)))) }
    ensures fits { OnOk result (FitRecords loads.new (records_of realm.new)) }
    ensures same { map before_linking (records_of realm.new)
        ≡ map before_linking (records_of realm.old) }
    ensures stay { PastNewStay (records_of realm.old) (records_of realm.new) }
    ensures loaded { (maps : Maps) → IsWhole (loading_of maps loads.old (records_of realm.old))
        → HaveLoaded (records_of realm.old) → OnOk result (HaveLoaded (records_of realm.new)) }
    ensures sound { IsSound (records_of realm.new) }
{
    let place = loads.delivered;
    let waiting = match take_next(loads) {
        Some(waiting) => waiting,
        None => return Ok(false),
    };
    match respond(loads, realm, promises, errors, waiting, place) {
        Ok(()) => Ok(true),
        Err(end) => Err(end),
    }
}
