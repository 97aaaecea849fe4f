// The calls of several loads.
ghost use Rattle.std.specs.Prelude.{◌≡◌, ◌<◌, ℕ, [], List, length, map, None, Some, Ok, Err, IfOk, IfSome, OnOk, true, false};
ghost use Rattle.esm_base.specs.declared.limits.Limit.{Limit};
ghost use Rattle.esm_base.specs.declared.end.End.TheVariants.{Fault};
ghost use Rattle.esm_base.specs.Urls.{Url, has, IsUsable};
ghost use Rattle.esm_ast.specs.Outcome.{outcome_view};
ghost use Rattle.esm_promise.specs.Code.{Numbered};
ghost use Rattle.esm_import_map.specs.ImportMap.{Maps};
ghost use Rattle.esm_realm.specs.ById.{url_at};
ghost use Rattle.esm_realm.specs.Sound.{IsSound, RecordParts, records_of};
ghost use Rattle.esm_loads.specs.Arrival.{after_fetch, AnswersNext, AreResolved, next, open_asks};
ghost use Rattle.esm_loads.specs.UrlTable.{found};
ghost use Rattle.esm_loads.specs.Loading as loading;
ghost use Rattle.esm_loads.specs.LoadsView.{before_linking, every_form, is_unlinked, promise_id};
ghost use Rattle.esm_loads.specs.LoadsAsLoading.{asks_entry, loading_of, no_loading};
ghost use Rattle.esm_loads.specs.Fits.{FitRecords, IsFetching, records_with};
ghost use Rattle.esm_loads.specs.Hosted.{host_of, IsImport, StopsAt, StopsHost};
ghost use Rattle.esm_loads.specs.Loaded.{HaveLoaded, PastNewStay, root_url};
ghost use Rattle.esm_loads.specs.Whole.{IsWhole};

use crate::LoadEnd;
use crate::arriving::{arrive, resolve_requests};
use crate::asked_urls::AskedUrls;
use crate::asking::{add_load, ask_root};
use crate::data::{NOWHERE, Purpose};
use crate::importing::import_call;
use crate::loads::Loads;
use crate::queues::Queues;
use crate::reading::{import_promise, root_of_load};
use crate::stepping::answer_next;
use esm_ast::{Outcome, Tree};
use esm_base::{Memory, ModuleId, Text};
use esm_import_map::ImportMap;
use esm_promise::Promises;
use esm_realm::Realm;
use esm_specifier::Targets;
use esm_values::{Errors, PromiseId};
use std::alloc::Global;
use std::sync::Arc;

impl Loads {
    /// The loads that have asked for nothing. It takes no memory.
    pub fn new(alloc: Global) -> Loads
        ensures nothing { (maps : Maps) → loading_of maps result [] ≡ no_loading maps }
        ensures fits { FitRecords result [] }
    {
        Loads {
            urls: AskedUrls::new(alloc),
            queues: Queues::new(alloc),
            loads: Vec::new(alloc),
            purposes: Vec::new(alloc),
            trees: Vec::new(alloc),
            delivered: 0,
            import_calls: 0,
            alloc,
        }
    }

    /// Asks for an entry, whose URL isn't fetched, is canonical and at most 8,192 bytes long: a load is added, whose end
    /// settles the promise. Limit L1 comes exactly where more than `MAX_URLS` URLs are asked for.
    ///
    /// HTML, fetch a module script graph.
    pub fn ask_entry(
        &mut self,
        realm: &Realm,
        url: &Text,
        promise: PromiseId,
    ) -> Result<(), LoadEnd>
        requires fits { FitRecords self.old (records_of realm.now) }
        requires usable { IsUsable url.now }
        requires fetching { IsFetching self.old url.now }
        ensures asks { (maps : Maps) → OnOk result (
            loading_of maps self.new (records_of realm.now)
            ≡ asks_entry (loading_of maps self.old (records_of realm.now)) url.now promise.0
            ) }
        ensures fits { OnOk result (FitRecords self.new (records_of realm.now)) }
        ensures limit { (maps : Maps) (limit : Limit) → result ≡ Err (Fault limit)
            → (asks_entry (loading_of maps self.old (records_of realm.now)) url.now
            promise.0).stopped ≡ Some limit }
    {
        let load = match add_load(self, Purpose::ForEntry(promise)) {
            Ok(load) => load,
            Err(Memory) => return Err(LoadEnd::Memory),
        };
        match ask_root(self, realm, url, load) {
            Ok(()) => Ok(()),
            Err(end) => Err(end),
        }
    }

    /// Answers the first pending request of a fetched URL, in order of asking; false exactly where there is none. The end
    /// of its load settles the promise of that load. Limit L1 comes exactly where more than `MAX_URLS` URLs are asked for.
    ///
    /// ECMA-262, FinishLoadingImportedModule and ContinueDynamicImport.
    pub fn step(
        &mut self,
        realm: &mut Realm,
        promises: &mut Promises,
        errors: &mut Errors,
    ) -> Result<bool, LoadEnd>
        requires fits { FitRecords self.old (records_of realm.old) }
        requires sound { IsSound (records_of realm.old) }
        ensures answers { (named : ℕ → Url) (maps : Maps) → result ≡ Ok true → AnswersNext
            (host_of named promises.old errors.old
            (loading_of maps self.old (records_of realm.old)))
            (host_of named promises.new errors.new
            (loading_of maps self.new (records_of realm.new))) }
        ensures none { (maps : Maps) → result ≡ Ok false
            → next (loading_of maps self.old (records_of realm.old)) ≡ None }
        ensures unchanged { result ≡ Ok false → (self.new ≡ self.old)
            × (promises.new ≡ promises.old) × (errors.new ≡ errors.old)
            × (records_of realm.new ≡ records_of realm.old) }
        ensures limit { (named : ℕ → Url) (maps : Maps) → StopsHost result
            (host_of named promises.new errors.new
            (loading_of maps self.new (records_of realm.new)))
            (AnswersNext
            (host_of named promises.old errors.old
            (loading_of maps self.old (records_of realm.old)))) }
        ensures fits { OnOk result (FitRecords self.new (records_of realm.new)) }
        ensures records { map before_linking (records_of realm.new)
            ≡ map before_linking (records_of realm.old) }
        ensures stay { PastNewStay (records_of realm.old) (records_of realm.new) }
        ensures loaded { (maps : Maps) → IsWhole (loading_of maps self.old (records_of realm.old))
            → HaveLoaded (records_of realm.old) → OnOk result (HaveLoaded (records_of realm.new)) }
        ensures sound { IsSound (records_of realm.new) }
    {
        answer_next(self, realm, promises, errors)
    }

    /// Takes what the fetch of a URL has come to, where the URL is asked and not fetched, and no pending request of a
    /// fetched URL is left. Its bytes are counted first: limit L2 comes exactly where more than `MAX_DELIVERED_BYTES` are
    /// delivered. Then it stands under its URL: a module text whose requests all resolve gets its record in the realm.
    ///
    /// HTML, fetch a single module script and create a JavaScript module script.
    pub fn arrive(
        &mut self,
        realm: &mut Realm,
        errors: &mut Errors,
        map: &ImportMap,
        url: &Text,
        outcome: &Outcome,
    ) -> Result<(), LoadEnd>
        requires fits { FitRecords self.old (records_of realm.old) }
        requires sound { IsSound (records_of realm.old) }
        requires open { has (open_asks (loading_of map.now self.old (records_of realm.old)))
            url.now ≡ true }
        requires answered { next (loading_of map.now self.old (records_of realm.old)) ≡ None }
        ensures arrives { (named : ℕ → Url) (promises : Numbered) → OnOk result (
            host_of named promises errors.new
            (loading_of map.now self.new (records_of realm.new))
            ≡ after_fetch (host_of named promises errors.old
            (loading_of map.now self.old (records_of realm.old))) url.now
            (outcome_view outcome.now)
            ) }
        ensures limit { (named : ℕ → Url) (promises : Numbered) → StopsAt result (
            after_fetch (host_of named promises errors.old
            (loading_of map.now self.old (records_of realm.old))) url.now
            (outcome_view outcome.now)
            ) }
        ensures records { OnOk result (
            records_of realm.new ≡ records_with (records_of realm.old) url.now
            (found map.now every_form url.now (outcome_view outcome.now))
            ) }
        ensures loaded { HaveLoaded (records_of realm.old)
            → OnOk result (HaveLoaded (records_of realm.new)) }
        ensures fits { OnOk result (FitRecords self.new (records_of realm.new)) }
        ensures sound { IsSound (records_of realm.new) }
    {
        let Ok(targets) = self.resolve(map, url, outcome) else {
            return Err(LoadEnd::Memory);
        };
        arrive(self, realm, errors, map, url, NOWHERE, outcome, &targets)
    }

    /// What the requests of an outcome at this URL, which may name a module, resolve to under this map.
    pub fn resolve(&self, map: &ImportMap, url: &Text, outcome: &Outcome) -> Result<Targets, Memory>
        requires { IsUsable url.now }
        ensures { IfOk result (AreResolved map.now url.now (outcome_view outcome.now)) }
    {
        resolve_requests(self.alloc, map, url, outcome)
    }

    /// As `arrive`, where the requests are resolved already: these targets are what they resolve to under the map. Who has the
    /// URL's place (`ask_places`) gives it as `near`, so that the URL needn't be looked up; any number may be given.
    pub fn arrive_resolved(
        &mut self,
        realm: &mut Realm,
        errors: &mut Errors,
        map: &ImportMap,
        url: &Text,
        near: usize,
        outcome: &Outcome,
        targets: &Targets,
    ) -> Result<(), LoadEnd>
        requires fits { FitRecords self.old (records_of realm.old) }
        requires sound { IsSound (records_of realm.old) }
        requires open { has (open_asks (loading_of map.now self.old (records_of realm.old)))
            url.now ≡ true }
        requires answered { next (loading_of map.now self.old (records_of realm.old)) ≡ None }
        requires targets { AreResolved map.now url.now (outcome_view outcome.now) targets.now }
        ensures arrives { (named : ℕ → Url) (promises : Numbered) → OnOk result (
            host_of named promises errors.new
            (loading_of map.now self.new (records_of realm.new))
            ≡ after_fetch (host_of named promises errors.old
            (loading_of map.now self.old (records_of realm.old))) url.now
            (outcome_view outcome.now)
            ) }
        ensures limit { (named : ℕ → Url) (promises : Numbered) → StopsAt result (
            after_fetch (host_of named promises errors.old
            (loading_of map.now self.old (records_of realm.old))) url.now
            (outcome_view outcome.now)
            ) }
        ensures records { OnOk result (
            records_of realm.new ≡ records_with (records_of realm.old) url.now
            (found map.now every_form url.now (outcome_view outcome.now))
            ) }
        ensures loaded { HaveLoaded (records_of realm.old)
            → OnOk result (HaveLoaded (records_of realm.new)) }
        ensures fits { OnOk result (FitRecords self.new (records_of realm.new)) }
        ensures sound { IsSound (records_of realm.new) }
    {
        arrive(self, realm, errors, map, url, near, outcome, targets)
    }

    /// Begins a call of `import()`, whose specifier stands in the module `referrer` and whose promise is there. It is
    /// counted first: limit L4 comes exactly where `MAX_IMPORT_CALLS` calls were begun. A specifier that doesn't resolve
    /// rejects the promise with a new TypeError. Else a load is added: its root is asked for, or answered at once where it
    /// is fetched. Limit L1 comes exactly where more than `MAX_URLS` URLs are asked for.
    ///
    /// ECMA-262, EvaluateImportCall and ContinueDynamicImport.
    pub fn import_call(
        &mut self,
        realm: &mut Realm,
        promises: &mut Promises,
        errors: &mut Errors,
        import_map: &ImportMap,
        referrer: ModuleId,
        specifier: &str,
        promise: PromiseId,
    ) -> Result<(), LoadEnd>
        requires fits { FitRecords self.old (records_of realm.old) }
        requires sound { IsSound (records_of realm.old) }
        requires referrer { referrer.0 < length (records_of realm.old) }
        ensures imports { (named : ℕ → Url) → IsImport
            (host_of named promises.old errors.old
            (loading_of import_map.now self.old (records_of realm.old)))
            (url_at (records_of realm.old) referrer.0) specifier.now promise.0 result
            (host_of named promises.new errors.new
            (loading_of import_map.now self.new (records_of realm.new))) }
        ensures fits { OnOk result (FitRecords self.new (records_of realm.new)) }
        ensures records { map before_linking (records_of realm.new)
            ≡ map before_linking (records_of realm.old) }
        ensures stay { PastNewStay (records_of realm.old) (records_of realm.new) }
        ensures loaded { IsWhole (loading_of import_map.now self.old (records_of realm.old))
            → HaveLoaded (records_of realm.old) → OnOk result (HaveLoaded (records_of realm.new)) }
        ensures sound { IsSound (records_of realm.new) }
    {
        import_call(
            self, realm, promises, errors, import_map, referrer, specifier, promise,
        )
    }

    /// The root of a load that has ended with all modules loaded, which isn't New; none of any other load. It takes no
    /// memory.
    pub fn root_of_load(&self, load: usize) -> Option<ModuleId>
        ensures root { (maps : Maps) (records : List RecordParts) → FitRecords self.now records
            → IsWhole (loading_of maps self.now records)
            → loading.root_of_load (loading_of maps self.now records) load
            ≡ root_url records result }
        ensures loaded { (maps : Maps) (records : List RecordParts) → FitRecords self.now records
            → IsWhole (loading_of maps self.now records)
            → IfSome result (λ m. is_unlinked records m.0 ≡ true) }
    {
        root_of_load(self, load)
    }

    /// The promise of the `import()` that a load is for; none of the load of an entry. It takes no memory.
    pub fn import_promise(&self, load: usize) -> Option<PromiseId>
        ensures { (maps : Maps) (records : List RecordParts)
            → loading.import_promise (loading_of maps self.now records) load ≡ promise_id result }
    {
        import_promise(self, load)
    }

    /// The tree of each module, in order of ids. It takes no memory.
    pub fn trees(&self) -> &[Arc<Tree>]
        ensures { result.now ≡ self.now.trees.items }
    {
        self.trees.as_slice()
    }

    /// The URLs that are asked and not fetched, in order of asking. It takes no memory.
    pub fn asks(&self) -> &[Text]
        ensures { (maps : Maps) (records : List RecordParts) → FitRecords self.now records
            → result.now ≡ open_asks (loading_of maps self.now records) }
    {
        self.urls.asks()
    }

    /// The place of each of `asks` in the table of URLs, which `is_open` and `arrive_resolved` look at first. It takes no
    /// memory.
    pub fn ask_places(&self) -> &[usize] {
        self.urls.open_places()
    }

    /// Whether a URL is asked and not fetched. It is looked for at the place `near` first, which may be any number. It takes
    /// no memory.
    pub fn is_open(&self, url: &Text, near: usize) -> bool
        ensures { (maps : Maps) (records : List RecordParts) → FitRecords self.now records
            → result ≡ has (open_asks (loading_of maps self.now records)) url.now }
    {
        self.urls.is_open(url, near)
    }
}
