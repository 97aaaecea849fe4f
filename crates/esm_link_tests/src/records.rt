// Records that are added, with ample memory: no clause says that it doesn't run out.
ghost use Rattle.std.specs.Prelude.{◌≡◌, []};
ghost use Rattle.esm_realm.specs.Sound.{IsSound, records_of};

use esm_ast::Entries;
use esm_base::{Memory, ModuleId, Text};
use esm_realm::{ModuleStatus, Realm, Record};
use std::alloc::Global;
use std::sync::Arc;

// Whether these are two records of status New.
fn are_new(records: &[Record]) -> bool {
    match records {
        [first, second] => first.status == ModuleStatus::New && second.status == ModuleStatus::New,
        _ => false,
    }
}

// Adds two records without requests; whether their ids count from 0.
fn ids_count_from_zero(alloc: Global, realm: &mut Realm) -> Result<bool, Memory>
    requires none { records_of realm.old ≡ [] }
    requires sound { IsSound (records_of realm.old) }
{
    let main = Text::copy(alloc, "https://a.test/main.js")?;
    let entries = Arc::new(alloc, Entries::empty(alloc))?;
    let first = realm.add(main, entries, Vec::new(alloc))?;
    let other = Text::copy(alloc, "https://a.test/other.js")?;
    let entries = Arc::new(alloc, Entries::empty(alloc))?;
    let second = realm.add(other, entries, Vec::new(alloc))?;
    Ok(first == ModuleId(0) && second == ModuleId(1) && are_new(realm.records.as_slice()))
}

#[test]
fn records_are_added(rt: HostRuntime) -> Result<(), Memory> {
    assert!(rt; ids_count_from_zero(rt.alloc(), &mut Realm::new(rt.alloc()))?);
    Ok(())
}
