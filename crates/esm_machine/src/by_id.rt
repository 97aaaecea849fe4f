// What is read of the records of modules, by id.
ghost use Rattle.std.specs.Prelude.{◌≡◌, ◌≤◌, ◌<◌, List, map, length, slice_get, true, false, Some, OnOk};
ghost use Rattle.esm_base.specs.declared.limits.TheConstants.{MAX_URLS};
ghost use Rattle.esm_base.specs.Urls.{Url};
ghost use Rattle.esm_realm.specs.ById.{entries_at, loaded_at, url_at};
ghost use Rattle.esm_realm.specs.Sound.{RecordParts, records_of};
ghost use Rattle.esm_loads.specs.Fits.{records_with};
ghost use Rattle.esm_loads.specs.UrlTable.{Found};
ghost use Rattle.esm_machine.specs.ModuleStore.{loaded_or};
ghost use Rattle.esm_machine.specs.Inner.Awaiting.{awaits_of};

use esm_ast::Entries;
use esm_base::{Memory, ModuleId};
use esm_realm::Realm;

/// How many modules there are.
pub fn count_of(realm: &Realm) -> u32
    requires { length (records_of realm.now) ≤ MAX_URLS }
    ensures { result ≡ length (records_of realm.now) }
{
    realm.records.len() as u32
}

/// How many records there are.
pub fn record_count(realm: &Realm) -> usize
    ensures { result ≡ length (records_of realm.now) }
{
    realm.records.len()
}

/// Whether there is a module with this id.
pub fn has_module(realm: &Realm, m: ModuleId) -> bool
    ensures yes { result ≡ true → m.0 < length (records_of realm.now) }
    ensures no { result ≡ false → length (records_of realm.now) ≤ m.0 }
{
    (m.0 as usize) < realm.records.len()
}

/// The entries of a module.
pub fn entries_of(realm: &Realm, m: ModuleId) -> &Entries
    requires { m.0 < length (records_of realm.now) }
    ensures { result.now ≡ entries_at (records_of realm.now) m.0 }
{
    &realm.records[m.0 as usize].entries
}

/// Whether the body of the module with this place awaits.
fn awaits_at(realm: &Realm, at: usize) -> bool
    requires { at < length (records_of realm.now) }
    ensures { result ≡ (entries_at (records_of realm.now) at).awaits }
{
    realm.records[at].entries.awaits()
}

/// Where a module has arrived, whether its body awaits is noted behind the flags of the others.
pub fn note_arrived(realm: &Realm, flags: &mut Vec<bool>) -> Result<(), Memory>
    ensures { (before : List RecordParts) (url : Url) (found : Found)
        → records_of realm.now ≡ records_with before url found
        → flags.old.items ≡ map awaits_of before
        → OnOk result (flags.new.items ≡ map awaits_of (records_of realm.now)) }
{
    let at = flags.len();
    if at >= realm.records.len() {
        return Ok(());
    }
    flags.push(awaits_at(realm, at))?;
    Ok(())
}

/// The flag of a module.
pub fn flag_of(flags: &[bool], m: ModuleId) -> bool
    requires { m.0 < length flags.now }
    ensures { slice_get flags.now m.0 ≡ Some result }
{
    flags[m.0 as usize]
}

/// The module that a request has loaded, or the module itself where it has loaded none.
pub fn loaded_of(realm: &Realm, m: ModuleId, request: usize) -> ModuleId
    requires { m.0 < length (records_of realm.now) }
    ensures { result.0 ≡ loaded_or m.0 (slice_get (loaded_at (records_of realm.now) m.0) request) }
{
    match realm.records[m.0 as usize].loaded.get(request) {
        Some(Some(target)) => *target,
        Some(None) => m,
        None => m,
    }
}

/// How many requests a module has: so many modules it has loaded, or has a place for.
pub fn loaded_count(realm: &Realm, m: ModuleId) -> usize
    requires { m.0 < length (records_of realm.now) }
    ensures { result ≡ length (loaded_at (records_of realm.now) m.0) }
{
    realm.records[m.0 as usize].loaded.len()
}

/// The URL of a module; empty where there is none.
pub fn url_of(realm: &Realm, m: ModuleId) -> &str
    ensures { result.now ≡ url_at (records_of realm.now) m.0 }
{
    if has_module(realm, m) {
        realm.records[m.0 as usize].url.as_str()
    } else {
        ""
    }
}
