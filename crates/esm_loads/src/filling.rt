// A module becomes Unlinked where a load ends: its requests have loaded their modules. ECMA-262, [[LoadedModules]].
ghost use Rattle.std.specs.Prelude.{◌≡◌, ◌<◌, ◌||◌, ℕ, length, map, None, Some, IfSome, slice_get, slice_set};
ghost use Rattle.esm_base.specs.Urls.{Url};
ghost use Rattle.esm_realm.specs.Sound.{IsSound, RecordParts, records_of};
ghost use Rattle.esm_realm.specs.declared.record.ModuleStatus.TheVariants as statuses;
ghost use Rattle.esm_loads.specs.LoadsView.{before_linking, id_under, is_in, is_unlinked, place_in, urls_of};
ghost use Rattle.esm_loads.specs.Fits.{AreBelow};
ghost use Rattle.esm_loads.specs.Loaded.{PastNewStay};
ghost use Rattle.esm_loads.specs.Inner.Filling.{AreIdsBelow, Fills, FillsNew, Unlinks, load_at};
ghost use Rattle.esm_loads.specs.Inner.Targets.{IsKept, KnowTargets};

use crate::asked_urls::AskedUrls;
use crate::data::UrlState;
use esm_base::{ModuleId, Text};
use esm_realm::{ModuleStatus, Realm};

// The module under the target of a request.
fn module_under(urls: &AskedUrls, id: ModuleId, request: usize, target: &Text) -> Option<ModuleId>
    requires { (place : ℕ) → IsKept urls.now.starts urls.now.places id.0 request place
        → place_in (urls_of urls.now.slots) target.now ≡ Some place }
    ensures some { IfSome result (λ m. id_under urls.now.slots target.now ≡ Some m.0) }
    ensures none { result ≡ None → id_under urls.now.slots target.now ≡ None }
{
    match urls.find_target(id, request, target) {
        Some(place) => match urls.state(place) {
            UrlState::Open => None,
            UrlState::Failed => None,
            UrlState::Broken(_error) => None,
            UrlState::Module(id) => Some(id),
        },
        None => None,
    }
}

// The target of a request of a module.
fn target_of(realm: &Realm, id: ModuleId, request: usize) -> &Text
    requires request { (r : RecordParts) → slice_get (records_of realm.now) id.0 ≡ Some r
        → request < length r.targets }
    requires id { id.0 < length (records_of realm.now) }
    ensures { (r : RecordParts) → slice_get (records_of realm.now) id.0 ≡ Some r
        → slice_get r.targets request ≡ Some result.now }
{
    &realm.records[id.0 as usize].targets[request]
}

// A request of a module has loaded the module under the URL of its target, where there is one.
fn fill_request(urls: &AskedUrls, realm: &mut Realm, id: ModuleId, request: usize)
    requires sound { IsSound (records_of realm.old) }
    requires below { AreIdsBelow urls.now.slots (length (records_of realm.old)) }
    requires known { KnowTargets urls.now (records_of realm.old) }
    requires id { id.0 < length (records_of realm.old) }
    requires request { (r : RecordParts) → slice_get (records_of realm.old) id.0 ≡ Some r
        → request < length r.targets }
    ensures loads { (r : RecordParts) (u : Url) → slice_get (records_of realm.old) id.0 ≡ Some r
        → slice_get r.targets request ≡ Some u → records_of realm.new
        ≡ slice_set (records_of realm.old) id.0
        (record r { loaded = load_at urls.now.slots u request r.loaded }) }
    ensures sound { IsSound (records_of realm.new) }
{
    let found = module_under(urls, id, request, target_of(realm, id, request));
    match found {
        Some(target) => realm.load_request(id, request, target),
        None => {}
    }
}

/// How many requests the module with this id has.
pub fn requests_of(realm: &Realm, id: usize) -> usize
    requires { id < length (records_of realm.now) }
    ensures { (r : RecordParts) → slice_get (records_of realm.now) id ≡ Some r
        → result ≡ length r.targets }
{
    realm.records[id].targets.len()
}

// The requests of a module have loaded the modules under the URLs of their targets.
fn fill_requests(urls: &AskedUrls, realm: &mut Realm, id: ModuleId)
    requires sound { IsSound (records_of realm.old) }
    requires below { AreIdsBelow urls.now.slots (length (records_of realm.old)) }
    requires known { KnowTargets urls.now (records_of realm.old) }
    requires id { id.0 < length (records_of realm.old) }
    ensures fills { (r : RecordParts) → slice_get (records_of realm.old) id.0 ≡ Some r
        → Fills urls.now.slots (length r.targets) id.0 r
        (records_of realm.old) (records_of realm.new) }
    ensures sound { IsSound (records_of realm.new) }
{
    let many = requests_of(realm, id.0 as usize);
    for request in 0..many {
        fill_request(urls, realm, id, request);
    }
}

// A module is Unlinked.
fn set_unlinked(realm: &mut Realm, id: ModuleId)
    requires sound { IsSound (records_of realm.old) }
    requires id { id.0 < length (records_of realm.old) }
    ensures unlinked { (r : RecordParts) → slice_get (records_of realm.old) id.0 ≡ Some r
        → records_of realm.new ≡ slice_set (records_of realm.old) id.0
        (record r { status = statuses.Unlinked }) }
    ensures sound { IsSound (records_of realm.new) }
{
    realm.records[id.0 as usize].status = ModuleStatus::Unlinked;
}

// How far a module has come.
fn status_of(realm: &Realm, id: ModuleId) -> ModuleStatus
    requires { id.0 < length (records_of realm.now) }
    ensures { (r : RecordParts) → slice_get (records_of realm.now) id.0 ≡ Some r
        → result ≡ r.status }
{
    realm.records[id.0 as usize].status
}

// A New module becomes Unlinked, and its requests have loaded their modules.
fn unlink_one(urls: &AskedUrls, realm: &mut Realm, id: ModuleId)
    requires sound { IsSound (records_of realm.old) }
    requires below { AreIdsBelow urls.now.slots (length (records_of realm.old)) }
    requires known { KnowTargets urls.now (records_of realm.old) }
    requires id { id.0 < length (records_of realm.old) }
    ensures unlinks { (r : RecordParts) → slice_get (records_of realm.old) id.0 ≡ Some r
        → Unlinks urls.now.slots id.0 r (records_of realm.old) (records_of realm.new) }
    ensures sound { IsSound (records_of realm.new) }
{
    match status_of(realm, id) {
        ModuleStatus::New => {
            fill_requests(urls, realm, id);
            set_unlinked(realm, id);
        }
        ModuleStatus::Unlinked => {}
        ModuleStatus::Linking => {}
        ModuleStatus::Linked => {}
    }
}

/// Those of these modules that are New become Unlinked, and their requests have loaded their modules.
pub fn unlink(urls: &AskedUrls, ids: &[u32], realm: &mut Realm)
    requires ids { AreBelow (length (records_of realm.old)) ids.now }
    requires sound { IsSound (records_of realm.old) }
    requires below { AreIdsBelow urls.now.slots (length (records_of realm.old)) }
    requires known { KnowTargets urls.now (records_of realm.old) }
    ensures same { map before_linking (records_of realm.new)
        ≡ map before_linking (records_of realm.old) }
    ensures stay { PastNewStay (records_of realm.old) (records_of realm.new) }
    ensures unlinked { (id : ℕ) → is_unlinked (records_of realm.new) id
        ≡ (is_unlinked (records_of realm.old) id || is_in ids.now id) }
    ensures fills { FillsNew urls.now.slots (records_of realm.old) (records_of realm.new) }
    ensures sound { IsSound (records_of realm.new) }
{
    for i in 0..ids.len() {
        unlink_one(urls, realm, ModuleId(ids[i]));
    }
}
