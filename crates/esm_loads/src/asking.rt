// A load is added, and asks for its root. ECMA-262, HostLoadImportedModule of an entry and of an `import()`.
ghost use Rattle.std.specs.Prelude.{◌≡◌, ◌<◌, length, Err, IfOk, OnOk, IfSome};
ghost use Rattle.esm_base.specs.declared.limits.Limit.{Limit};
ghost use Rattle.esm_base.specs.declared.end.End.TheVariants.{Fault};
ghost use Rattle.esm_base.specs.Urls.{IsUsable};
ghost use Rattle.esm_import_map.specs.ImportMap.{Maps};
ghost use Rattle.esm_realm.specs.Sound.{records_of};
ghost use Rattle.esm_loads.specs.Loading.{Root};
ghost use Rattle.esm_loads.specs.Loading as loading;
ghost use Rattle.esm_loads.specs.LoadsView.{urls_of, place_in};
ghost use Rattle.esm_loads.specs.LoadsAsLoading.{loading_of};
ghost use Rattle.esm_loads.specs.Fits.{FitRecords, IsFetching};
ghost use Rattle.esm_loads.specs.Hosted.{stopped_by};
ghost use Rattle.esm_loads.specs.Inner.Asking.{AddsLoad};

use crate::LoadEnd;
use crate::data::{Purpose, Requester};
use crate::load_record::LoadRecord;
use crate::loads::Loads;
use crate::steps::ask;
use esm_base::{Memory, Text};
use esm_realm::Realm;

/// Adds a load, whose root isn't there, and gives its number.
pub fn add_load(loads: &mut Loads, purpose: Purpose) -> Result<usize, Memory>
    ensures number { IfOk result (λ s. s ≡ length loads.old.loads.items) }
    ensures adds { OnOk result (AddsLoad loads.old loads.new purpose) }
{
    let load = loads.loads.len();
    loads.queues.add_load()?;
    loads.loads.push(LoadRecord::new(loads.alloc))?;
    loads.purposes.push(purpose)?;
    Ok(load)
}

/// A load asks for its root, whose URL isn't fetched.
pub fn ask_root(loads: &mut Loads, realm: &Realm, url: &Text, load: usize) -> Result<(), LoadEnd>
    requires fits { FitRecords loads.old (records_of realm.now) }
    requires usable { IsUsable url.now }
    requires load { load < length loads.old.loads.items }
    requires fetching { IsFetching loads.old url.now }
    ensures asks { (maps : Maps) → OnOk result (
        loading_of maps loads.new (records_of realm.now)
        ≡ loading.ask (loading_of maps loads.old (records_of realm.now)) url.now (Root load)
        ) }
    ensures fits { OnOk result (FitRecords loads.new (records_of realm.now)) }
    ensures limit { (maps : Maps) (limit : Limit) → result ≡ Err (Fault limit)
        → stopped_by (loading_of maps loads.new (records_of realm.now)) limit
        ≡ loading.ask (loading_of maps loads.old (records_of realm.now)) url.now (Root load) }
{
    let _ = realm;
    let at = loads.urls.find(url);
    match ask(loads, url, at, load, Requester::Root) {
        Ok(_place) => Ok(()),
        Err(end) => Err(end),
    }
}
