// The load of an `import()` asks for its root, or is answered at once. ECMA-262, ContinueDynamicImport.
ghost use Rattle.std.specs.Prelude.{◌≡◌, ◌≤◌, ◌<◌, ◌+◌, ℕ, length, map, None, Err, IfOk, IfSome, OnOk};
ghost use Rattle.esm_base.specs.declared.limits.Limit.{Limit};
ghost use Rattle.esm_base.specs.declared.limits.TheConstants.{MAX_IMPORT_CALLS};
ghost use Rattle.esm_base.specs.declared.end.End.TheVariants as ends;
ghost use Rattle.esm_base.specs.Ends.{Gives};
ghost use Rattle.esm_base.specs.Urls.{Url, IsUsable};
ghost use Rattle.esm_realm.specs.ById.{url_at};
ghost use Rattle.esm_realm.specs.Sound.{IsSound, records_of};
ghost use Rattle.esm_specifier.specs.Resolution.{resolution_of_specifier};
ghost use Rattle.esm_specifier.specs.declared.fault.SpecFault.{SpecFault as WhyUnresolved};
ghost use Rattle.esm_import_map.specs.ImportMap.{Maps};
ghost use Rattle.esm_loads.specs.LoadsView.{before_linking};
ghost use Rattle.esm_loads.specs.LoadsAsLoading.{loading_of};
ghost use Rattle.esm_loads.specs.Fits.{FitRecords, IsFetching};
ghost use Rattle.esm_loads.specs.Hosted.{host_of, IsImport, IsRooted};
ghost use Rattle.esm_loads.specs.UrlTable.{specifier_error};
ghost use Rattle.esm_loads.specs.Loading.{Loading};
ghost use Rattle.esm_loads.specs.Host.{reject_new};
ghost use Rattle.esm_loads.specs.Loaded.{HaveLoaded, PastNewStay};
ghost use Rattle.esm_loads.specs.Whole.{IsWhole};
ghost use Rattle.esm_loads.specs.Inner.Asking.{IsFetchedAs};
ghost use Rattle.esm_loads.specs.Inner.Filling.{FillsNew};

use crate::LoadEnd;
use crate::arriving::unresolved;
use crate::asking::{add_load, ask_root};
use crate::data::{Purpose, Requester, Waiting};
use crate::loads::Loads;
use crate::settling::reject_with;
use crate::stepping::{is_fetched, respond};
use esm_base::{Limit, MAX_IMPORT_CALLS, Memory, ModuleId, Text};
use esm_import_map::ImportMap;
use esm_promise::Promises;
use esm_realm::Realm;
use esm_specifier::{SpecEnd, SpecFault, resolve};
use esm_values::{Errors, FaultKind, PromiseId};
use std::alloc::Global;

// The place of a URL that is fetched; none exactly where it isn't.
fn fetched_place(loads: &Loads, url: &Text) -> Option<usize>
    ensures some { IfSome result (λ k. IsFetchedAs loads.now.urls.slots url.now k) }
    ensures none { result ≡ None → IsFetching loads.now url.now }
{
    match loads.urls.find(url) {
        Some(place) => {
            if is_fetched(loads, place) {
                Some(place)
            } else {
                None
            }
        }
        None => None,
    }
}

/// A load is added for an `import()`, and its root is asked for, or answered at once where its URL is fetched.
pub fn import_url(
    loads: &mut Loads,
    realm: &mut Realm,
    promises: &mut Promises,
    errors: &mut Errors,
    url: &Text,
    promise: PromiseId,
) -> Result<(), LoadEnd>
    requires fits { FitRecords loads.old (records_of realm.old) }
    requires sound { IsSound (records_of realm.old) }
    requires usable { IsUsable url.now }
    ensures rooted { (named : ℕ → Url) (maps : Maps) → IsRooted
        (host_of named promises.old errors.old (loading_of maps loads.old (records_of realm.old)))
        promise.0 url.now result
        (host_of named promises.new errors.new (loading_of maps loads.new (records_of realm.new))) }
    ensures fits { OnOk result (FitRecords loads.new (records_of realm.new)) }
    ensures same { map before_linking (records_of realm.new)
        ≡ map before_linking (records_of realm.old) }
    ensures stay { PastNewStay (records_of realm.old) (records_of realm.new) }
    ensures fills { OnOk result
        (FillsNew loads.new.urls.slots (records_of realm.old) (records_of realm.new)) }
    ensures sound { IsSound (records_of realm.new) }
{
    let load = match add_load(loads, Purpose::ForImport(promise, None)) {
        Ok(load) => load,
        Err(Memory) => return Err(LoadEnd::Memory),
    };
    match fetched_place(loads, url) {
        Some(place) => {
            let waiting = Waiting {
                load,
                requester: Requester::Root,
            };
            match respond(loads, realm, promises, errors, waiting, place) {
                Ok(()) => Ok(()),
                Err(end) => Err(end),
            }
        }
        None => match ask_root(loads, realm, url, load) {
            Ok(()) => Ok(()),
            Err(end) => Err(end),
        },
    }
}

// The URL of a module.
fn url_of(realm: &Realm, m: ModuleId) -> &str
    requires { m.0 < length (records_of realm.now) }
    ensures { result.now ≡ url_at (records_of realm.now) m.0 }
{
    realm.records[m.0 as usize].url.as_str()
}

// The URL to which a specifier resolves in a module.
fn target_of(
    alloc: Global,
    realm: &Realm,
    map: &ImportMap,
    referrer: ModuleId,
    specifier: &str,
) -> Result<Text, SpecEnd>
    requires sound { IsSound (records_of realm.now) }
    requires referrer { referrer.0 < length (records_of realm.now) }
    ensures told { Gives result
        (resolution_of_specifier map.now (url_at (records_of realm.now) referrer.0) specifier.now) }
    ensures usable { IfOk result IsUsable }
{
    resolve(alloc, map, url_of(realm, referrer), specifier)
}

// The promise of an `import()` is rejected with the TypeError of its specifier.
fn refuse(
    alloc: Global,
    promises: &mut Promises,
    errors: &mut Errors,
    referrer: &str,
    specifier: &str,
    fault: SpecFault,
    promise: PromiseId,
) -> Result<(), Memory>
    ensures { (named : ℕ → Url) (l : Loading) → OnOk result (
        host_of named promises.new errors.new l
        ≡ reject_new (host_of named promises.old errors.old l) promise.0
        (specifier_error referrer.now specifier.now fault)
        ) }
{
    let message = unresolved(alloc, referrer, specifier, fault)?;
    let error = errors.make(alloc, FaultKind::TypeError, message.as_str())?;
    reject_with(promises, promise, error);
    Ok(())
}

// The same where resolving ended so: memory may have run out there.
fn refuse_for(
    alloc: Global,
    promises: &mut Promises,
    errors: &mut Errors,
    referrer: &str,
    specifier: &str,
    end: SpecEnd,
    promise: PromiseId,
) -> Result<(), LoadEnd>
    ensures refuses { (named : ℕ → Url) (l : Loading) (f : WhyUnresolved) → end ≡ ends.Fault f
        → OnOk result (
        host_of named promises.new errors.new l
        ≡ reject_new (host_of named promises.old errors.old l) promise.0
        (specifier_error referrer.now specifier.now f)
        ) }
    ensures memory { end ≡ ends.Memory → result ≡ Err ends.Memory }
    ensures limit { (limit : Limit) → result ≡ Err (ends.Fault limit) → ⊥ }
{
    match end {
        SpecEnd::Fault(fault) => {
            match refuse(alloc, promises, errors, referrer, specifier, fault, promise) {
                Ok(()) => Ok(()),
                Err(Memory) => Err(LoadEnd::Memory),
            }
        }
        SpecEnd::Memory => Err(LoadEnd::Memory),
    }
}

// One call more is begun. Limit L4 comes exactly at its number.
fn count_call(loads: &mut Loads) -> Result<(), LoadEnd>
    requires { loads.old.import_calls ≤ MAX_IMPORT_CALLS }
    ensures ok { OnOk result
        (loads.new ≡ record loads.old { import_calls = loads.old.import_calls + 1 }) }
    ensures room { OnOk result (loads.old.import_calls < MAX_IMPORT_CALLS) }
    ensures same { (limit : Limit) → result ≡ Err (ends.Fault limit) → loads.new ≡ loads.old }
    ensures limit { (limit : Limit) → result ≡ Err (ends.Fault limit)
        → (limit ≡ Limit.L4) × (loads.old.import_calls ≡ MAX_IMPORT_CALLS) }
{
    if loads.import_calls >= MAX_IMPORT_CALLS as u64 {
        return Err(LoadEnd::Fault(Limit::L4));
    }
    loads.import_calls += 1;
    Ok(())
}

/// Begins one call of `import()`, whose specifier stands in the module `referrer`. It is counted first. Its promise is
/// rejected at once where the specifier doesn't resolve; else a load is added for it.
pub fn import_call(
    loads: &mut Loads,
    realm: &mut Realm,
    promises: &mut Promises,
    errors: &mut Errors,
    import_map: &ImportMap,
    referrer: ModuleId,
    specifier: &str,
    promise: PromiseId,
) -> Result<(), LoadEnd>
    requires fits { FitRecords loads.old (records_of realm.old) }
    requires sound { IsSound (records_of realm.old) }
    requires referrer { referrer.0 < length (records_of realm.old) }
    ensures imports { (named : ℕ → Url) → IsImport
        (host_of named promises.old errors.old
        (loading_of import_map.now loads.old (records_of realm.old)))
        (url_at (records_of realm.old) referrer.0) specifier.now promise.0 result
        (host_of named promises.new errors.new
        (loading_of import_map.now loads.new (records_of realm.new))) }
    ensures fits { OnOk result (FitRecords loads.new (records_of realm.new)) }
    ensures same { map before_linking (records_of realm.new)
        ≡ map before_linking (records_of realm.old) }
    ensures stay { PastNewStay (records_of realm.old) (records_of realm.new) }
    ensures loaded { IsWhole (loading_of import_map.now loads.old (records_of realm.old))
        → HaveLoaded (records_of realm.old) → OnOk result (HaveLoaded (records_of realm.new)) }
    ensures sound { IsSound (records_of realm.new) }
{
    match count_call(loads) {
        Ok(()) => {}
        Err(end) => return Err(end),
    }
    let alloc = loads.alloc;
    match target_of(alloc, realm, import_map, referrer, specifier) {
        Ok(target) => import_url(loads, realm, promises, errors, &target, promise),
        Err(why) => {
            let url = url_of(realm, referrer);
            refuse_for(alloc, promises, errors, url, specifier, why, promise)
        }
    }
}
