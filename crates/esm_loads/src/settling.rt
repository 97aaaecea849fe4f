// The promises of loads. ECMA-262, ContinueModuleLoading and ContinueDynamicImport; the end of a load settles its promise.
ghost use Rattle.std.specs.Prelude.{◌≡◌, ◌<◌, ◌++◌, codes, ℕ, List, length, Some, None, IfOk, IfSome, OnOk, OnErr, slice_get};
ghost use Rattle.esm_base.specs.Urls.{Url};
ghost use Rattle.esm_realm.specs.Sound.{RecordParts};
ghost use Rattle.esm_import_map.specs.ImportMap.{Maps};
ghost use Rattle.esm_values.specs.Errors as errors_spec;
ghost use Rattle.esm_values.specs.declared.errors.FaultKind.{FaultKind as Kind};
ghost use Rattle.esm_loads.specs.UrlTable.{TableEntry};
ghost use Rattle.esm_loads.specs.Loading.{Loading, Root};
ghost use Rattle.esm_loads.specs.Host as host;
ghost use Rattle.esm_loads.specs.LoadsView.{LoadView, urls_of, url_at, throw_of, purpose_of};
ghost use Rattle.esm_loads.specs.LoadsAsLoading.{loading_of};
ghost use Rattle.esm_loads.specs.Fits.{AreJoined, HaveRecords, IsStageWithin};
ghost use Rattle.esm_loads.specs.Hosted.{host_of};
ghost use Rattle.esm_loads.specs.declared.data.Purpose.{Purpose as PurposeData};
ghost use Rattle.esm_loads.specs.Inner.Settling.{OwnsLoad, promise_in, IsCauseWithin};

use crate::data::{Cause, Purpose, Stage, TargetState};
use crate::loads::Loads;
use crate::steps::target_state;
use esm_base::Memory;
use esm_promise::{Promises, Reaction, ReactionKind, Settled};
use esm_values::{ErrorId, Errors, FaultKind, PromiseId, Value};
use std::alloc::Global;

// The promise that the end of a load settles.
fn promise_of(purpose: Purpose) -> PromiseId
    ensures { result.0 ≡ promise_in purpose }
{
    match purpose {
        Purpose::ForEntry(promise) => promise,
        Purpose::ForImport(promise, load) => match load {
            Some(load) => load,
            None => promise,
        },
    }
}

/// What a load is for.
pub fn purpose_at(loads: &Loads, load: usize) -> Purpose
    requires { load < length loads.now.purposes.items }
    ensures { slice_get loads.now.purposes.items load ≡ Some result }
{
    loads.purposes[load]
}

// How far a load has come.
fn stage_of(loads: &Loads, load: usize) -> Stage
    requires { load < length loads.now.loads.items }
    ensures { (v : LoadView) → slice_get loads.now.loads.items load ≡ Some v → result ≡ v.stage }
{
    loads.loads[load].stage()
}

// A promise is fulfilled with undefined.
fn fulfill(promises: &mut Promises, promise: PromiseId)
    ensures { (named : ℕ → Url) (errors : errors_spec.Errors) (l : Loading)
        → host_of named promises.new errors l
        ≡ host.fulfill (host_of named promises.old errors l) promise.0 }
{
    promises.settle(promise, Settled::Fulfilled(Value::Undefined));
}

/// A promise is rejected with an error value.
pub fn reject_with(promises: &mut Promises, promise: PromiseId, error: ErrorId)
    ensures { (named : ℕ → Url) (errors : errors_spec.Errors) (l : Loading)
        → host_of named promises.new errors l
        ≡ host.reject_with (host_of named promises.old errors l) promise.0 error.0 }
{
    promises.settle(promise, Settled::Rejected(Value::Error(error)));
}

// The TypeError of a URL under which nothing could be fetched.
fn fetch_error(alloc: Global, errors: &mut Errors, url: &str) -> Result<ErrorId, Memory>
    ensures id { IfOk result (λ id. id.0 ≡ errors_spec.next_error errors.old) }
    ensures ok { OnOk result (errors.new ≡ errors_spec.make_error errors.old
        (errors_spec.fault Kind.TypeError (codes "cannot fetch " ++ url.now))) }
{
    let message = format!(in alloc; "cannot fetch {url}")?;
    errors.make(alloc, FaultKind::TypeError, message.as_str())
}

// A promise is rejected for the cause by which its load has ended.
fn reject(
    loads: &Loads,
    promises: &mut Promises,
    errors: &mut Errors,
    promise: PromiseId,
    cause: Cause,
) -> Result<(), Memory>
    requires { IsCauseWithin (length loads.now.urls.slots) cause }
    ensures { (named : ℕ → Url) (l : Loading) → OnOk result (
        host_of named promises.new errors.new l
        ≡ host.reject (host_of named promises.old errors.old l) promise.0
        (throw_of (urls_of loads.now.urls.slots) cause)
        ) }
{
    match cause {
        Cause::Unfetched(place) => {
            let error = fetch_error(loads.alloc, errors, loads.urls.url(place).as_str())?;
            reject_with(promises, promise, error);
        }
        Cause::Kept(error) => reject_with(promises, promise, error),
    }
    Ok(())
}

/// Where a load has ended its promise is settled.
pub fn settle_load(
    loads: &Loads,
    promises: &mut Promises,
    errors: &mut Errors,
    load: usize,
) -> Result<(), Memory>
    requires load { load < length loads.now.loads.items }
    requires purposes { length loads.now.purposes.items ≡ length loads.now.loads.items }
    requires within { (v : LoadView) → slice_get loads.now.loads.items load ≡ Some v
        → IsStageWithin (length loads.now.urls.slots) v.stage }
    ensures { (named : ℕ → Url) (maps : Maps) (records : List RecordParts) → OnOk result (
        host_of named promises.new errors.new (loading_of maps loads.now records)
        ≡ host.settle_load
        (host_of named promises.old errors.old (loading_of maps loads.now records)) load
        ) }
{
    let promise = promise_of(purpose_at(loads, load));
    match stage_of(loads, load) {
        Stage::Asked => Ok(()),
        Stage::Open(_root) => Ok(()),
        Stage::Complete(_root) => {
            fulfill(promises, promise);
            Ok(())
        }
        Stage::Thrown(cause) => match reject(loads, promises, errors, promise, cause) {
            Ok(()) => Ok(()),
            Err(Memory) => Err(Memory),
        },
    }
}

/// The promise of the `import()` that a load is for, where the load has none of its own.
pub fn without_load(purpose: Purpose) -> Option<PromiseId>
    ensures some { IfSome result (λ p. purpose ≡ PurposeData.ForImport p None) }
    ensures none { result ≡ None → OwnsLoad purpose }
{
    match purpose {
        Purpose::ForEntry(_promise) => None,
        Purpose::ForImport(promise, load) => match load {
            Some(_load) => None,
            None => Some(promise),
        },
    }
}
