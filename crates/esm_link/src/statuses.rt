// Statuses and places of the modules of a walk.
ghost use Rattle.std.specs.Prelude.{◌≡◌, ◌<◌, ℕ, cond, nat_eq, map, drop, length, slice_get, Some};
ghost use Rattle.esm_base.specs.Lists.{is_in};
ghost use Rattle.esm_realm.specs.declared.record.ModuleStatus.TheVariants as statuses;
ghost use Rattle.esm_realm.specs.Sound.{records_of};
ghost use Rattle.esm_realm.specs.ById.{status_of, targets_at, without_status, index_of};
ghost use Rattle.esm_link.specs.Inner.Visit.{AreInside};

use esm_realm::{ModuleStatus, Realm};

/// The status of the record with an id.
pub fn status(realm: &Realm, x: usize) -> ModuleStatus
    requires { x < length (records_of realm.now) }
    ensures { result ≡ status_of (records_of realm.now) x }
{
    realm.records[x].status
}

/// The place of a module among the open ones.
pub fn index(realm: &Realm, x: usize) -> usize
    requires { x < length (records_of realm.now) }
    ensures { result ≡ index_of realm.now x }
{
    realm.records[x].index
}

/// How many requests a module has.
pub fn count(realm: &Realm, x: usize) -> usize
    requires { x < length (records_of realm.now) }
    ensures { result ≡ length (targets_at (records_of realm.now) x) }
{
    realm.records[x].loaded.len()
}

/// The module of a request.
pub fn target(realm: &Realm, x: usize, i: usize) -> usize
    requires within { x < length (records_of realm.now) }
    requires request { i < length (targets_at (records_of realm.now) x) }
    ensures { slice_get (targets_at (records_of realm.now) x) i ≡ Some result }
{
    match realm.records[x].loaded[i] {
        Some(target) => target.0 as usize,
        None => 0,
    }
}

/// Opens a module at its place.
pub fn enter(realm: &mut Realm, x: usize, place: usize)
    requires { x < length (records_of realm.old) }
    ensures rest { map without_status (records_of realm.new)
        ≡ map without_status (records_of realm.old) }
    ensures statuses { (y : ℕ) → status_of (records_of realm.new) y
        ≡ cond (nat_eq y x) statuses.Linking (status_of (records_of realm.old) y) }
    ensures places { (y : ℕ) → index_of realm.new y
        ≡ cond (nat_eq y x) place (index_of realm.old y) }
{
    let record = &mut realm.records[x];
    record.status = ModuleStatus::Linking;
    record.index = place;
}

fn set_status(realm: &mut Realm, x: usize, status: ModuleStatus)
    requires { x < length (records_of realm.old) }
    ensures rest { map without_status (records_of realm.new)
        ≡ map without_status (records_of realm.old) }
    ensures statuses { (y : ℕ) → status_of (records_of realm.new) y
        ≡ cond (nat_eq y x) status (status_of (records_of realm.old) y) }
    ensures places { (y : ℕ) → index_of realm.new y ≡ index_of realm.old y }
{
    realm.records[x].status = status;
}

/// Gives the open modules from a place on a status.
pub fn mark_from(realm: &mut Realm, opened: &[usize], place: usize, status: ModuleStatus)
    requires { AreInside (map without_status (records_of realm.old)) opened.now }
    ensures rest { map without_status (records_of realm.new)
        ≡ map without_status (records_of realm.old) }
    ensures statuses { (y : ℕ) → status_of (records_of realm.new) y
        ≡ cond (is_in nat_eq (drop place opened.now) y) status
        (status_of (records_of realm.old) y) }
    ensures places { (y : ℕ) → index_of realm.new y ≡ index_of realm.old y }
{
    for k in place..opened.len() {
        set_status(realm, opened[k], status);
    }
}
