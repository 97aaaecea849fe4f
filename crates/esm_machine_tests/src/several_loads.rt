// Several loads, as `esm_loads` has them: an entry is asked for, whose promise stays pending until it is fetched. It isn't
// there: that is answered once, and rejects the promise.
ghost use Rattle.std.specs.Prelude.{◌≡◌, true, None};
ghost use Rattle.esm_base.specs.Urls.{IsUsable, has};
ghost use Rattle.esm_import_map.specs.ImportMap.{Maps};
ghost use Rattle.esm_loads.specs.Arrival.{next, open_asks};
ghost use Rattle.esm_loads.specs.Fits.{FitRecords, IsFetching};
ghost use Rattle.esm_loads.specs.LoadsAsLoading.{loading_of, no_loading};
ghost use Rattle.esm_realm.specs.Sound.{IsSound, records_of};

use crate::store::MAIN;
use esm_ast::Outcome;
use esm_base::Text;
use esm_import_map::ImportMap;
use esm_loads::{LoadEnd, Loads};
use esm_promise::{Promises, Reaction, ReactionKind, Settled};
use esm_realm::Realm;
use esm_values::{Errors, PromiseId};
use std::alloc::Global;

// Whether the URL alone is asked for, nothing is there, and no load has ended.
fn has_asked(loads: &Loads, url: &Text) -> bool {
    match loads.asks() {
        [asked] => { *asked == *url && loads.trees().is_empty() && loads.root_of_load(0).is_none() }
        _ => false,
    }
}

// Whether the one job is there, and is taken once.
fn has_one_job(promises: &mut Promises) -> bool {
    let first = promises.pop();
    first.is_some() && promises.pop().is_none()
}

// Whether an open ask, at which nothing stands, is answered once, and the one job of the promise of its load is taken once.
fn is_missed_once(
    realm: &mut Realm,
    promises: &mut Promises,
    errors: &mut Errors,
    loads: &mut Loads,
    map: &ImportMap,
    url: &Text,
    promise: PromiseId,
) -> Result<bool, LoadEnd>
    requires fits { FitRecords loads.old (records_of realm.old) }
    requires sound { IsSound (records_of realm.old) }
    requires open { has (open_asks (loading_of map.now loads.old (records_of realm.old)))
        url.now ≡ true }
    requires answered { next (loading_of map.now loads.old (records_of realm.old)) ≡ None }
{
    loads.arrive(realm, errors, map, url, &Outcome::Absent)?;
    let waits = loads.asks().is_empty() && promises.is_pending(promise);
    let first = loads.step(realm, promises, errors)?;
    let second = loads.step(realm, promises, errors)?;
    let rejected = matches!(promises.settled(promise), Some(Settled::Rejected(_)));
    Ok(waits && first && !second && rejected && has_one_job(promises))
}

// Whether the entry at this URL is asked for, nothing is to be done before it is fetched, and it is missed once.
fn waits_for(
    alloc: Global,
    realm: &mut Realm,
    promises: &mut Promises,
    errors: &mut Errors,
    loads: &mut Loads,
    map: &ImportMap,
    url: &Text,
) -> Result<bool, LoadEnd>
    requires nothing { (maps : Maps)
        → loading_of maps loads.old (records_of realm.old) ≡ no_loading maps }
    requires fits { FitRecords loads.old (records_of realm.old) }
    requires sound { IsSound (records_of realm.old) }
    requires usable { IsUsable url.now }
    requires fetching { IsFetching loads.old url.now }
{
    let before = loads.asks().is_empty();
    let reaction = Reaction {
        kind: ReactionKind::EntryLoaded,
        subject: 0,
    };
    let promise = promises.make_with(alloc, reaction)?;
    loads.ask_entry(realm, url, promise)?;
    let asked = before && has_asked(loads, url);
    match loads.step(realm, promises, errors) {
        Ok(true) => Ok(false),
        Ok(false) => {
            let waits = asked && promises.is_pending(promise);
            let missed = is_missed_once(realm, promises, errors, loads, map, url, promise)?;
            Ok(waits && missed)
        }
        Err(end) => Err(end),
    }
}

// Whether an entry is asked for, its promise is pending, and where the entry isn't there the promise is rejected.
fn an_entry_is_waited_for(alloc: Global) -> Result<bool, LoadEnd> {
    let url = Text::copy(alloc, MAIN)?;
    let map = ImportMap::empty(alloc);
    let mut realm = Realm::new(alloc);
    let mut promises = Promises::new(alloc);
    let mut errors = Errors::new(alloc);
    let mut loads = Loads::new(alloc);
    waits_for(
        alloc,
        &mut realm,
        &mut promises,
        &mut errors,
        &mut loads,
        &map,
        &url,
    )
}

#[test]
fn loads_ask_for_their_entry(rt: HostRuntime) {
    assert!(rt; matches!(an_entry_is_waited_for(rt.alloc()), Ok(true)));
}
