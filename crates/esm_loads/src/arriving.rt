// A fetch ends. HTML, "create a JavaScript module script".
ghost use Rattle.std.specs.Prelude.{◌≡◌, ◌≤◌, ◌<◌, ◌+◌, ℕ, List, [], length, map, false, true, Some, None, Ok, Err, IfOk, OnOk, MatchResult, slice_get, slice_index_or};
ghost use Rattle.esm_base.specs.declared.limits.Limit.{Limit};
ghost use Rattle.esm_base.specs.declared.limits.TheConstants.{MAX_DELIVERED_BYTES, MAX_URLS};
ghost use Rattle.esm_base.specs.declared.end.End.TheVariants.{Fault};
ghost use Rattle.esm_base.specs.Urls.{Url, has, IsUsable};
ghost use Rattle.esm_ast.specs.Entries.{requests_of};
ghost use Rattle.esm_ast.specs.Outcome as outcomes;
ghost use Rattle.esm_ast.specs.Outcome.{outcome_view};
ghost use Rattle.esm_ast.specs.Script.{spelled_text};
ghost use Rattle.esm_realm.specs.Laws.{AreDistinct};
ghost use Rattle.esm_realm.specs.Sound.{IsSound, RecordParts, records_of, url_of};
ghost use Rattle.esm_specifier.specs.Targets.{AreTargets, Refusal, targets_view};
ghost use Rattle.esm_values.specs.Errors as errors_spec;
ghost use Rattle.esm_values.specs.declared.errors.FaultKind.{FaultKind as Kind};
ghost use Rattle.esm_promise.specs.Code.{Numbered};
ghost use Rattle.esm_loads.specs.UrlTable as url_table;
ghost use Rattle.esm_loads.specs.UrlTable.{found, told_targets};
ghost use Rattle.esm_loads.specs.Arrival as arrival;
ghost use Rattle.esm_loads.specs.Arrival.{after_fetch, put_found, AreResolved};
ghost use Rattle.esm_loads.specs.LoadsView.{every_form, is_open, tree_items, urls_of};
ghost use Rattle.esm_loads.specs.LoadsAsLoading.{loading_of};
ghost use Rattle.esm_loads.specs.Fits.{FitRecords, HaveTexts, records_with};
ghost use Rattle.esm_loads.specs.Hosted.{host_of, StopsAt};
ghost use Rattle.esm_loads.specs.Loaded.{HaveLoaded};
ghost use Rattle.esm_loads.specs.declared.data.Slot.{Slot};
ghost use Rattle.esm_loads.specs.Inner.Urls.{open_urls, IsOpenAt};
ghost use Rattle.esm_loads.specs.Inner.Targets.{IsOneMore, KnowTargets};
ghost use Rattle.esm_loads.specs.Inner.Arriving.{unresolved_message, Filled, IsOpenSlot, NonePending, settled, stores};

use crate::LoadEnd;
use crate::asked_urls::AskedUrls;
use crate::data::UrlState;
use crate::filling::requests_of;
use crate::loads::Loads;
use esm_ast::{Outcome, Script, Tree};
use esm_base::{Limit, MAX_DELIVERED_BYTES, Memory, Text, TextFault};
use esm_import_map::ImportMap;
use esm_realm::Realm;
use esm_specifier::{SpecFault, Targets, targets_of};
use esm_values::{ErrorId, Errors, FaultKind};
use std::alloc::Global;
use std::sync::Arc;

// How many bytes came.
fn bytes_of(outcome: &Outcome) -> usize
    ensures { result ≡ arrival.bytes_of (outcome_view outcome.now) }
{
    match outcome {
        Outcome::Script(script) => script.bytes().len(),
        Outcome::Broken(broken) => broken.bytes().len(),
        Outcome::Absent | Outcome::Failed => 0,
    }
}

/// The message of the error of a specifier that resolves to no URL.
pub fn unresolved(
    alloc: Global,
    url: &str,
    specifier: &str,
    fault: SpecFault,
) -> Result<Text, Memory>
    ensures { IfOk result
        (λ t. t ≡ unresolved_message url.now specifier.now fault) }
{
    let description = fault.description();
    let text = format!(in alloc; "{url}: specifier {specifier}: {description}")?;
    Ok(Text::from_string(text))
}

/// What the requests of an outcome at this URL resolve to.
pub fn resolve_requests(
    alloc: Global,
    map: &ImportMap,
    url: &Text,
    outcome: &Outcome,
) -> Result<Targets, Memory>
    requires { IsUsable url.now }
    ensures { IfOk result (AreResolved map.now url.now (outcome_view outcome.now)) }
{
    match outcome {
        Outcome::Script(script) => targets_of(alloc, map, url, script.entries().requests()),
        Outcome::Broken(_broken) => Ok(Targets::Found(Vec::new(alloc))),
        Outcome::Absent => Ok(Targets::Found(Vec::new(alloc))),
        Outcome::Failed => Ok(Targets::Found(Vec::new(alloc))),
    }
}

// The same texts once more.
fn copies_of(alloc: Global, texts: &[Text]) -> Result<Vec<Text>, Memory>
    ensures { IfOk result (λ copies. copies.items ≡ texts.now) }
{
    let mut copies = Vec::with_capacity(alloc, texts.len())?;
    for text in texts {
        copies.push(text.clone()?)?;
    }
    Ok(copies)
}

// The specifier of a request.
fn specifier_at(requests: &[Text], place: usize) -> &Text
    requires { place < length requests.now }
    ensures { result.now ≡ slice_index_or requests.now place [] }
{
    &requests[place]
}

// The URLs that were found, once more, or the message of the error of the request that is refused.
fn told(
    alloc: Global,
    url: &Text,
    requests: &[Text],
    targets: &Targets,
) -> Result<Result<Vec<Text>, Text>, Memory>
    requires { (refusal : Refusal) → targets_view targets.now ≡ Err refusal
        → refusal.place < length requests.now }
    ensures { IfOk result (λ told. MatchResult told
        (λ urls. targets_view targets.now ≡ Ok urls.items)
        (λ message. told_targets url.now requests.now (targets_view targets.now)
        ≡ Err (errors_spec.fault Kind.TypeError message))) }
{
    match targets {
        Targets::Found(urls) => Ok(Ok(copies_of(alloc, urls.as_slice())?)),
        Targets::Refused(place, fault) => {
            let specifier = specifier_at(requests, *place);
            Ok(Err(unresolved(alloc, url.as_str(), specifier.as_str(), *fault)?))
        }
    }
}

// Makes the error of a body that is no module text.
fn parse_fault(
    alloc: Global,
    errors: &mut Errors,
    url: &str,
    fault: TextFault,
) -> Result<ErrorId, Memory>
    ensures id { IfOk result (λ id. id.0 ≡ errors_spec.next_error errors.old) }
    ensures ok { OnOk result (errors.new
        ≡ errors_spec.make_error errors.old (url_table.parse_error url.now fault)) }
{
    let description = fault.description();
    let message = format!(in alloc; "{url}: {description}")?;
    errors.make(alloc, FaultKind::SyntaxError, message.as_str())
}

// Adds the record and the tree of a module whose requests all resolve.
fn fill_script(
    trees: &mut Vec<Arc<Tree>>,
    realm: &mut Realm,
    errors: &mut Errors,
    alloc: Global,
    import_map: &ImportMap,
    url: &Text,
    script: &Script,
    targets: &Targets,
) -> Result<UrlState, Memory>
    requires sound { IsSound (records_of realm.old) }
    requires room { length (records_of realm.old) < MAX_URLS }
    requires new { has (map url_of (records_of realm.old)) url.now ≡ false }
    requires usable { IsUsable url.now }
    requires targets { AreTargets import_map.now url.now
        (requests_of (spelled_text script.now).items) targets.now }
    ensures filled { IfOk result (
        Filled import_map.now url.now (outcomes.Script (spelled_text script.now))
        (stores (map tree_items trees.old.items) (records_of realm.old) errors.old)
        (stores (map tree_items trees.new.items) (records_of realm.new) errors.new)
        ) }
    ensures spelled { HaveTexts (map tree_items trees.old.items)
        → OnOk result (HaveTexts (map tree_items trees.new.items)) }
    ensures sound { IsSound (records_of realm.new) }
{
    esm_specifier::laws::targets_are_usable();
    esm_specifier::laws::refusals_are_requests();
    let _spelled = script.tree();
    let entries = script.share_entries()?;
    let found = told(alloc, url, script.entries().requests(), targets)?;
    match found {
        Ok(targets) => {
            trees.push(script.share_tree()?)?;
            let id = realm.add(url.clone()?, entries, targets)?;
            Ok(UrlState::Module(id))
        }
        Err(message) => {
            let error = errors.make(alloc, FaultKind::TypeError, message.as_str())?;
            Ok(UrlState::Broken(error))
        }
    }
}

// The state of a URL whose fetch has come to this outcome.
fn fill(
    trees: &mut Vec<Arc<Tree>>,
    realm: &mut Realm,
    errors: &mut Errors,
    alloc: Global,
    import_map: &ImportMap,
    url: &Text,
    outcome: &Outcome,
    targets: &Targets,
) -> Result<UrlState, Memory>
    requires sound { IsSound (records_of realm.old) }
    requires room { length (records_of realm.old) < MAX_URLS }
    requires new { has (map url_of (records_of realm.old)) url.now ≡ false }
    requires usable { IsUsable url.now }
    requires targets { AreResolved import_map.now url.now (outcome_view outcome.now) targets.now }
    ensures filled { IfOk result (
        Filled import_map.now url.now (outcome_view outcome.now)
        (stores (map tree_items trees.old.items) (records_of realm.old) errors.old)
        (stores (map tree_items trees.new.items) (records_of realm.new) errors.new)
        ) }
    ensures spelled { HaveTexts (map tree_items trees.old.items)
        → OnOk result (HaveTexts (map tree_items trees.new.items)) }
    ensures sound { IsSound (records_of realm.new) }
{
    match outcome {
        Outcome::Script(script) => {
            fill_script(
                trees, realm, errors, alloc, import_map, url, script, targets,
            )
        }
        Outcome::Broken(broken) => {
            let error = parse_fault(alloc, errors, url.as_str(), broken.fault())?;
            Ok(UrlState::Broken(error))
        }
        Outcome::Absent => Ok(UrlState::Failed),
        Outcome::Failed => Ok(UrlState::Failed),
    }
}

// The place of an open ask, which is looked for at the place `near` first.
fn open_place(loads: &Loads, url: &Text, near: usize) -> usize
    requires distinct { AreDistinct (urls_of loads.now.urls.slots) }
    requires open { has (open_urls loads.now.urls.slots) url.now ≡ true }
    ensures { IsOpenSlot loads.now.urls.slots result url.now }
{
    match loads.urls.find_near(url, near) {
        Some(place) => place,
        None => unreachable!(),
    }
}

// The module that has come, where one has, gets places for the targets of its requests.
fn add_places(urls: &mut AskedUrls, realm: &Realm) -> Result<(), Memory>
    ensures known { (before : List RecordParts) → KnowTargets urls.old before
        → IsOneMore before (records_of realm.now)
        → OnOk result (KnowTargets urls.new (records_of realm.now)) }
    ensures rest { OnOk result (urls.new
        ≡ record urls.old { starts = urls.new.starts; places = urls.new.places }) }
{
    let modules = urls.modules();
    if modules >= realm.records.len() {
        return Ok(());
    }
    match urls.add_module(requests_of(realm, modules)) {
        Ok(()) => Ok(()),
        Err(Memory) => Err(Memory),
    }
}

// The URL at a place is fetched, and has this state.
fn settle(loads: &mut Loads, place: usize, state: UrlState)
    requires open { IsOpenAt loads.old.urls.slots place }
    requires fetched { is_open state ≡ false }
    ensures { (s : Slot) → slice_get loads.old.urls.slots place ≡ Some s
        → loads.new ≡ settled loads.old place (record s { state = state }) }
{
    loads.urls.settle(place, state);
    loads.delivered = place;
}

// What a fetch has come to stands in the tables.
fn store(
    loads: &mut Loads,
    realm: &mut Realm,
    errors: &mut Errors,
    map: &ImportMap,
    url: &Text,
    near: usize,
    outcome: &Outcome,
    targets: &Targets,
) -> Result<(), Memory>
    requires fits { FitRecords loads.old (records_of realm.old) }
    requires sound { IsSound (records_of realm.old) }
    requires open { has (open_urls loads.old.urls.slots) url.now ≡ true }
    requires answered { NonePending loads.old }
    requires targets { AreResolved map.now url.now (outcome_view outcome.now) targets.now }
    ensures stored { (named : ℕ → Url) (promises : Numbered) → OnOk result (
        host_of named promises errors.new
        (loading_of map.now loads.new (records_of realm.new))
        ≡ put_found (host_of named promises errors.old
        (loading_of map.now loads.old (records_of realm.old))) url.now
        (found map.now every_form url.now (outcome_view outcome.now))
        ) }
    ensures records { OnOk result (
        records_of realm.new ≡ records_with (records_of realm.old) url.now
        (found map.now every_form url.now (outcome_view outcome.now))
        ) }
    ensures loaded { HaveLoaded (records_of realm.old)
        → OnOk result (HaveLoaded (records_of realm.new)) }
    ensures fits { OnOk result (FitRecords loads.new (records_of realm.new)) }
    ensures sound { IsSound (records_of realm.new) }
{
    let place = open_place(loads, url, near);
    let state = fill(
        &mut loads.trees,
        realm,
        errors,
        loads.alloc,
        map,
        url,
        outcome,
        targets,
    )?;
    add_places(&mut loads.urls, realm)?;
    settle(loads, place, state);
    Ok(())
}

// The bytes of an outcome are counted.
fn count(loads: &mut Loads, bytes: usize) -> Result<(), LoadEnd>
    ensures ok { OnOk result (loads.new
        ≡ record loads.old { urls = record loads.old.urls { bytes = loads.old.urls.bytes + bytes } }) }
    ensures room { OnOk result (loads.old.urls.bytes + bytes ≤ MAX_DELIVERED_BYTES) }
    ensures limit { (limit : Limit) → result ≡ Err (Fault limit)
        → (limit ≡ Limit.L2) × (MAX_DELIVERED_BYTES < loads.old.urls.bytes + bytes) }
{
    match loads.urls.count(bytes) {
        Ok(()) => Ok(()),
        Err(end) => Err(end),
    }
}

/// Takes what the fetch of a URL has come to, whose requests these targets are. The map is what they were resolved by. The URL
/// is looked for at the place `near` first, which may be any number.
pub fn arrive(
    loads: &mut Loads,
    realm: &mut Realm,
    errors: &mut Errors,
    map: &ImportMap,
    url: &Text,
    near: usize,
    outcome: &Outcome,
    targets: &Targets,
) -> Result<(), LoadEnd>
    requires fits { FitRecords loads.old (records_of realm.old) }
    requires sound { IsSound (records_of realm.old) }
    requires open { has (open_urls loads.old.urls.slots) url.now ≡ true }
    requires answered { NonePending loads.old }
    requires targets { AreResolved map.now url.now (outcome_view outcome.now) targets.now }
    ensures arrives { (named : ℕ → Url) (promises : Numbered) → OnOk result (
        host_of named promises errors.new
        (loading_of map.now loads.new (records_of realm.new))
        ≡ after_fetch (host_of named promises errors.old
        (loading_of map.now loads.old (records_of realm.old))) url.now (outcome_view outcome.now)
        ) }
    ensures limit { (named : ℕ → Url) (promises : Numbered) → StopsAt result (
        after_fetch (host_of named promises errors.old
        (loading_of map.now loads.old (records_of realm.old))) url.now (outcome_view outcome.now)
        ) }
    ensures records { OnOk result (
        records_of realm.new ≡ records_with (records_of realm.old) url.now
        (found map.now every_form url.now (outcome_view outcome.now))
        ) }
    ensures loaded { HaveLoaded (records_of realm.old)
        → OnOk result (HaveLoaded (records_of realm.new)) }
    ensures fits { OnOk result (FitRecords loads.new (records_of realm.new)) }
    ensures sound { IsSound (records_of realm.new) }
{
    match count(loads, bytes_of(outcome)) {
        Ok(()) => {}
        Err(end) => return Err(end),
    }
    match store(loads, realm, errors, map, url, near, outcome, targets) {
        Ok(()) => Ok(()),
        Err(Memory) => Err(LoadEnd::Memory),
    }
}
