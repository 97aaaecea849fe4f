// Fetches and answers, as what lies outside of bodies takes them.
ghost use Rattle.std.specs.Prelude.{◌≡◌, ◌<◌, ℕ, List, Bool, true, false, None, Some, IfOk, IfSome, OnOk, Ok, length, All};
ghost use Rattle.std.specs.Arc.{arc_value};
ghost use Rattle.std.specs.Option.{option_map};
ghost use Rattle.esm_base.specs.Lists.{EachOnce};
ghost use Rattle.esm_base.specs.declared.end.End.TheVariants as ends;
ghost use Rattle.esm_base.specs.Urls.{IsUsable, Url, has, same_url};
ghost use Rattle.esm_ast.specs.Outcome.{outcome_view};
ghost use Rattle.esm_promise.specs.Code.{Numbered};
ghost use Rattle.esm_loads.specs.Arrival.{after_fetch, AreResolved, next, open_asks};
ghost use Rattle.esm_loads.specs.Hosted.{host_of};
ghost use Rattle.esm_loads.specs.Loading as loading;
ghost use Rattle.esm_loads.specs.LoadsView.{every_form, promise_id};
ghost use Rattle.esm_loads.specs.UrlTable.{found};
ghost use Rattle.esm_machine.specs.Arrivals.{urls_with};
ghost use Rattle.esm_machine.specs.Calls.{AnswersBy, FetchesBy, KeepsRecords, UnlessLost, condition_fetched, condition_of, opening_seen};
ghost use Rattle.esm_machine.specs.Kept.{IsKept};
ghost use Rattle.esm_machine.specs.ModuleStore.{is_whole, seen_of};
ghost use Rattle.esm_machine.specs.Seen.{names};
ghost use Rattle.esm_machine.specs.declared.condition.Condition.TheVariants as conditions;

use crate::by_id::note_arrived;
use crate::condition::{Condition, condition_after};
use crate::module_store::ModuleStore;
use esm_ast::Outcome;
use esm_base::{Memory, ModuleId, Text};
use esm_import_map::ImportMap;
use esm_loads::{LoadEnd, Loads, NOWHERE};
use esm_promise::Promises;
use esm_realm::Realm;
use esm_specifier::Targets;
use esm_values::{Errors, PromiseId};
use std::alloc::Global;
use std::sync::Arc;

impl ModuleStore {
    /// The entry is asked for, by a load that has the first promise.
    pub fn opening(
        alloc: Global,
        import_map: Arc<ImportMap>,
        entry: &Text,
        promise: PromiseId,
    ) -> Result<ModuleStore, Memory>
        requires usable { IsUsable entry.now }
        requires first { promise.0 ≡ 0 }
        ensures opens { IfOk result (λ i. seen_of i
            ≡ opening_seen (arc_value import_map) entry.now) }
        ensures maps { IfOk result (λ i. i.maps ≡ arc_value import_map) }
        ensures whole { IfOk result (λ i. is_whole i.condition ≡ true) }
    {
        esm_loads::laws::opens_with_entry();
        esm_loads::laws::stays_orderly();
        esm_loads::laws::stays_whole();
        let realm = Realm::new(alloc);
        let mut loads = Loads::new(alloc);
        let awaiting = Vec::new(alloc);
        match loads.ask_entry(&realm, entry, promise) {
            Ok(()) => Ok(ModuleStore {
                realm,
                loads,
                import_map,
                condition: Condition::Whole,
                awaiting,
            }),
            Err(_end) => Err(Memory),
        }
    }

    /// What the requests of an outcome resolve to under the import map, where its URL is an open ask.
    pub(crate) fn resolve(&self, url: &Text, outcome: &Outcome) -> Result<Targets, Memory>
        requires whole { is_whole self.now.condition ≡ true }
        requires open { has (open_asks (seen_of self.now).loading) url.now ≡ true }
        ensures { IfOk result (AreResolved self.now.maps url.now (outcome_view outcome.now)) }
    {
        let _asks = self.asks();
        self.loads.resolve(&self.import_map, url, outcome)
    }

    /// Memory ran out: nothing is known any more.
    fn run_out(&mut self) -> LoadEnd
        ensures end { result ≡ ends.Memory }
        ensures condition { self.new.condition ≡ conditions.Lost }
        ensures maps { self.new.maps ≡ self.old.maps }
    {
        self.condition = Condition::Lost;
        LoadEnd::Memory
    }

    /// A fetch has ended: its bytes are counted, and what it came to stands under the URL.
    ///
    /// HTML, fetch a single module script and create a JavaScript module script.
    pub fn arrive(
        &mut self,
        errors: &mut Errors,
        url: &Text,
        outcome: &Outcome,
    ) -> Result<(), LoadEnd>
        requires whole { is_whole self.old.condition ≡ true }
        requires open { has (open_asks (seen_of self.old).loading) url.now ≡ true }
        requires answered { next (seen_of self.old).loading ≡ None }
        ensures fetches { (named : ℕ → Url) (promises : Numbered) → FetchesBy result
            (after_fetch (host_of named promises errors.old (seen_of self.old).loading) url.now
            (outcome_view outcome.now))
            (host_of named promises errors.new (seen_of self.new).loading) }
        ensures urls { OnOk result ((seen_of self.new).urls ≡ urls_with (seen_of self.old).urls
            url.now (found self.old.maps every_form url.now (outcome_view outcome.now))) }
        ensures linked { OnOk result ((seen_of self.new).linked ≡ (seen_of self.old).linked) }
        ensures condition { self.new.condition ≡ condition_fetched result }
        ensures maps { self.new.maps ≡ self.old.maps }
    {
        let Ok(targets) = self.resolve(url, outcome) else {
            return Err(self.run_out());
        };
        self.arrive_resolved(errors, url, NOWHERE, outcome, &targets)
    }

    /// As `arrive`, where the requests are resolved already: these targets are what they resolve to under the import map. The
    /// URL is looked for at the place `near` first, which may be any number.
    pub fn arrive_resolved(
        &mut self,
        errors: &mut Errors,
        url: &Text,
        near: usize,
        outcome: &Outcome,
        targets: &Targets,
    ) -> Result<(), LoadEnd>
        requires whole { is_whole self.old.condition ≡ true }
        requires open { has (open_asks (seen_of self.old).loading) url.now ≡ true }
        requires answered { next (seen_of self.old).loading ≡ None }
        requires targets { AreResolved self.old.maps url.now (outcome_view outcome.now)
            targets.now }
        ensures fetches { (named : ℕ → Url) (promises : Numbered) → FetchesBy result
            (after_fetch (host_of named promises errors.old (seen_of self.old).loading) url.now
            (outcome_view outcome.now))
            (host_of named promises errors.new (seen_of self.new).loading) }
        ensures urls { OnOk result ((seen_of self.new).urls ≡ urls_with (seen_of self.old).urls
            url.now (found self.old.maps every_form url.now (outcome_view outcome.now))) }
        ensures linked { OnOk result ((seen_of self.new).linked ≡ (seen_of self.old).linked) }
        ensures condition { self.new.condition ≡ condition_fetched result }
        ensures maps { self.new.maps ≡ self.old.maps }
    {
        esm_loads::laws::stays_orderly();
        esm_loads::laws::stays_whole();
        match self.loads.arrive_resolved(
            &mut self.realm,
            errors,
            &self.import_map,
            url,
            near,
            outcome,
            targets,
        ) {
            Ok(()) => match note_arrived(&self.realm, &mut self.awaiting) {
                Ok(()) => Ok(()),
                Err(Memory) => {
                    self.condition = Condition::Lost;
                    Err(LoadEnd::Memory)
                }
            },
            Err(end) => {
                self.condition = Condition::Lost;
                Err(end)
            }
        }
    }

    /// The first pending request of a fetched URL is answered; false exactly where there is none.
    ///
    /// ECMA-262, FinishLoadingImportedModule and ContinueDynamicImport.
    pub fn step(&mut self, promises: &mut Promises, errors: &mut Errors) -> Result<bool, LoadEnd>
        requires whole { is_whole self.old.condition ≡ true }
        ensures answers { (named : ℕ → Url) → AnswersBy result
            (host_of named promises.old errors.old (seen_of self.old).loading)
            (host_of named promises.new errors.new (seen_of self.new).loading) }
        ensures unchanged { result ≡ Ok false → (self.new ≡ self.old)
            × (promises.new ≡ promises.old) × (errors.new ≡ errors.old) }
        ensures modules { UnlessLost self.new.condition
            (KeepsRecords (seen_of self.old) (seen_of self.new)) }
        ensures condition { self.new.condition ≡ condition_of result }
        ensures maps { self.new.maps ≡ self.old.maps }
    {
        esm_loads::laws::only_grows();
        esm_loads::laws::stays_orderly();
        esm_loads::laws::stays_whole();
        match self.loads.step(&mut self.realm, promises, errors) {
            Ok(answered) => Ok(answered),
            Err(end) => {
                self.condition = condition_after(end);
                Err(end)
            }
        }
    }

    /// The root of a load that has ended with all modules loaded, which is loaded with all that it reaches; none of any
    /// other load.
    pub fn root_of_load(&self, load: usize) -> Option<ModuleId>
        requires whole { is_whole self.now.condition ≡ true }
        ensures root { loading.root_of_load (seen_of self.now).loading load
            ≡ option_map (λ m. (names (seen_of self.now)).name m.0) result }
        ensures loaded { IfSome result (λ m. (seen_of self.now).loading.unlinked
            ((names (seen_of self.now)).name m.0) ≡ true) }
    {
        self.loads.root_of_load(load)
    }

    /// The promise of the `import()` that a load is for; none of the load of an entry.
    pub fn import_promise(&self, load: usize) -> Option<PromiseId>
        ensures { loading.import_promise (seen_of self.now).loading load ≡ promise_id result }
    {
        self.loads.import_promise(load)
    }

    /// The URLs that are asked and not fetched, in order of asking, as long as nothing was refused. Each is canonical and at
    /// most 8,192 bytes long.
    pub fn asks(&self) -> &[Text]
        ensures open { is_whole self.now.condition ≡ true
            → result.now ≡ open_asks (seen_of self.now).loading }
        ensures usable { is_whole self.now.condition ≡ true → All IsUsable result.now }
    {
        self.loads.asks()
    }

    /// The place of each of `asks` in the table of URLs.
    pub fn ask_places(&self) -> &[usize] {
        self.loads.ask_places()
    }

    /// Whether a URL is asked and not fetched, as long as nothing was refused. It is looked for at the place `near` first,
    /// which may be any number.
    pub fn is_open(&self, url: &Text, near: usize) -> bool
        ensures { is_whole self.now.condition ≡ true
            → result ≡ has (open_asks (seen_of self.now).loading) url.now }
    {
        self.loads.is_open(url, near)
    }

    /// What holds of the records and the loads is known behind it. It does nothing.
    pub fn known(&self)
        ensures { IsKept self.now }
    {
        let _realm = &self.realm;
    }
}
