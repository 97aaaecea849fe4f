// The single steps of a load.
ghost use Rattle.std.specs.Prelude.{◌≡◌, ◌<◌, ◌++◌, [], ◌∷◌, length, Some, None, OnOk, IfOk, IfSome, slice_get, Err, not, ◌||◌};
ghost use Rattle.esm_base.specs.declared.limits.Limit.{Limit};
ghost use Rattle.esm_base.specs.declared.limits.TheConstants.{MAX_URLS};
ghost use Rattle.esm_base.specs.declared.end.End.TheVariants.{Fault};
ghost use Rattle.esm_realm.specs.declared.record.Record.{Record};
ghost use Rattle.esm_loads.specs.LoadsView.{LoadView, urls_of, place_in, is_in, is_past_new};
ghost use Rattle.esm_loads.specs.Inner.Steps.{add_url, with_asked, place_or, add_waiting, set_load, target_at, is_open_stage};

use crate::LoadEnd;
use crate::data::{Cause, Requester, Stage, TargetState, UrlState, Waiting};
use crate::loads::Loads;
use esm_base::{Memory, ModuleId, Text};
use esm_realm::{ModuleStatus, Realm};

/// How the URL at a place stands.
pub fn target_state(loads: &Loads, at: Option<usize>) -> TargetState
    requires { IfSome at (λ k. k < length loads.now.urls.slots) }
    ensures { result ≡ target_at loads.now.urls.slots at }
{
    match at {
        None => TargetState::Fetching,
        Some(place) => match loads.urls.state(place) {
            UrlState::Open => TargetState::Fetching,
            UrlState::Failed => TargetState::Throws(Cause::Unfetched(place)),
            UrlState::Broken(error) => TargetState::Throws(Cause::Kept(error)),
            UrlState::Module(id) => TargetState::Module(place, id),
        },
    }
}

/// Whether a load goes on.
pub fn is_open(loads: &Loads, load: usize) -> bool
    requires { load < length loads.now.loads.items }
    ensures { (v : LoadView) → slice_get loads.now.loads.items load ≡ Some v
        → result ≡ is_open_stage v.stage }
{
    matches!(loads.loads[load].stage(), Stage::Open(_))
}

/// A load visits a module.
pub fn visit(loads: &mut Loads, load: usize, id: ModuleId) -> Result<(), Memory>
    requires { load < length loads.old.loads.items }
    ensures { (v : LoadView) → slice_get loads.old.loads.items load ≡ Some v → OnOk result
        (loads.new ≡ set_load loads.old load (record v { visited = v.visited ++ id.0 ∷ [] })) }
{
    loads.loads[load].visit(id.0)
}

/// A load goes on to a stage.
pub fn set_stage(loads: &mut Loads, load: usize, stage: Stage)
    requires { load < length loads.old.loads.items }
    ensures { (v : LoadView) → slice_get loads.old.loads.items load ≡ Some v
        → loads.new ≡ set_load loads.old load (record v { stage = stage }) }
{
    loads.loads[load].set_stage(stage);
}

// Asks for a URL that wasn't asked for.
fn open(loads: &mut Loads, url: &Text) -> Result<usize, LoadEnd>
    requires { place_in (urls_of loads.old.urls.slots) url.now ≡ None }
    ensures ok { OnOk result (loads.new ≡ add_url loads.old url.now) }
    ensures place { IfOk result (λ k. k ≡ length loads.old.urls.slots) }
    ensures room { OnOk result (length loads.old.urls.slots < MAX_URLS) }
    ensures same { (limit : Limit) → result ≡ Err (Fault limit) → loads.new ≡ loads.old }
    ensures limit { (limit : Limit) → result ≡ Err (Fault limit)
        → (limit ≡ Limit.L1) × (length loads.old.urls.slots ≡ MAX_URLS) }
{
    let place = match loads.urls.open(url) {
        Ok(place) => place,
        Err(end) => return Err(end),
    };
    match loads.queues.add_url() {
        Ok(()) => Ok(place),
        Err(Memory) => Err(LoadEnd::Memory),
    }
}

/// A request asks for a URL, which has this place, and waits for it. It gives the place that the URL has then.
pub fn ask(
    loads: &mut Loads,
    url: &Text,
    at: Option<usize>,
    load: usize,
    requester: Requester,
) -> Result<usize, LoadEnd>
    requires at { place_in (urls_of loads.old.urls.slots) url.now ≡ at }
    requires within { IfSome at (λ k. k < length loads.old.queues.queues) }
    requires load { load < loads.old.queues.loads }
    requires fits { length loads.old.queues.queues ≡ length loads.old.urls.slots }
    ensures asks { OnOk result (loads.new
        ≡ add_waiting (with_asked loads.old url.now at) (place_or loads.old at)
        (record { load = load; requester = requester })) }
    ensures place { IfOk result (λ k. k ≡ place_or loads.old at) }
    ensures room { OnOk result (at ≡ None → length loads.old.urls.slots < MAX_URLS) }
    ensures same { (limit : Limit) → result ≡ Err (Fault limit) → loads.new ≡ loads.old }
    ensures limit { (limit : Limit) → result ≡ Err (Fault limit)
        → (at ≡ None) × (limit ≡ Limit.L1) × (length loads.old.urls.slots ≡ MAX_URLS) }
{
    let place = match at {
        Some(place) => place,
        None => match open(loads, url) {
            Ok(place) => place,
            Err(end) => return Err(end),
        },
    };
    match loads.queues.push(place, Waiting { load, requester }) {
        Ok(()) => Ok(place),
        Err(Memory) => Err(LoadEnd::Memory),
    }
}

/// Whether a module is New, and a load hasn't visited it.
pub fn is_fresh(loads: &Loads, realm: &Realm, load: usize, id: ModuleId) -> bool
    requires load { load < length loads.now.loads.items }
    requires record { id.0 < length realm.now.records.items }
    ensures { (v : LoadView) (r : Record) → slice_get loads.now.loads.items load ≡ Some v
        → slice_get realm.now.records.items id.0 ≡ Some r
        → result ≡ not (is_in v.visited id.0 || is_past_new r.status) }
{
    match realm.records[id.0 as usize].status {
        ModuleStatus::New => !loads.loads[load].has_visited(id.0),
        _ => false,
    }
}
