// The asked URLs, in order of asking. HTML, the module map.
ghost use Rattle.std.specs.Prelude.{◌≡◌, ℕ, ◌<◌, ◌≤◌, ◌+◌, ◌++◌, [], ◌∷◌, length, replicate, None, Some, IfOk, OnOk, Err, true, false, slice_get, slice_set};
ghost use Rattle.std.specs.List.Sorted.{IsNonDecreasing};
ghost use Rattle.esm_base.specs.declared.limits.Limit.{Limit};
ghost use Rattle.esm_base.specs.declared.limits.TheConstants.{MAX_URLS, MAX_DELIVERED_BYTES};
ghost use Rattle.esm_base.specs.declared.end.End.TheVariants.{Fault};
ghost use Rattle.esm_base.specs.Urls.{has, same_url};
ghost use Rattle.esm_loads.specs.LoadsView.{urls_of, place_in, is_open};
ghost use Rattle.esm_loads.specs.Inner.Reading.{module_by};
ghost use Rattle.esm_loads.specs.Inner.Targets.{IsKept, with_place};
ghost use Rattle.esm_loads.specs.Inner.Urls.{no_slots, open_urls, open_slot, Closes, IsOpenAt};

use crate::LoadEnd;
use crate::data::{Slot, UrlState};
use crate::front_vec::FrontVec;
use crate::target_places::TargetPlaces;
use esm_base::{Limit, MAX_DELIVERED_BYTES, MAX_URLS, Memory, ModuleId, Text};
use esm_text_table::TextTable;
use std::alloc::Global;
use std::marker::Model;

/// The URLs that are asked and not fetched, in order of asking, and the places of their slots.
#[derive(Drop)]
pub struct OpenAsks {
    /// The URLs.
    pub urls: FrontVec<Text>,
    /// The place of the slot of each of them. Places rise.
    pub places: FrontVec<usize>,
}

impl OpenAsks {
    /// One more URL is asked, behind all others.
    pub fn open(&mut self, url: Text, place: usize) -> Result<(), Memory>
        ensures urls { OnOk result (self.new.urls ≡ self.old.urls ++ url ∷ []) }
        ensures places { OnOk result (self.new.places ≡ self.old.places ++ place ∷ []) }
    {
        self.urls.push(url)?;
        self.places.push(place)?;
        Ok(())
    }

    /// The URL whose slot has this place is fetched. It is found by a binary search.
    pub fn close(&mut self, place: usize)
        requires rise { IsNonDecreasing self.old.places }
        requires listed { (i : ℕ) × (slice_get self.old.places i ≡ Some place) }
        requires as_many { length self.old.urls ≡ length self.old.places }
        ensures { Closes self.old self.new place }
    {
        match self.places.as_slice().binary_search(&place) {
            Ok(at) => {
                self.places.remove(at);
                self.urls.remove(at);
            }
            Err(_) => unreachable!(),
        }
    }
}

/// The asked URLs, in order of asking, with the state of each.
#[derive(Drop)]
pub struct AskedUrls {
    /// The URLs of the slots, in their order.
    urls: TextTable,
    slots: Vec<Slot>,
    asks: OpenAsks,
    /// The places of the targets of requests.
    targets: TargetPlaces,
    /// How many bytes were delivered.
    bytes: u64,
}

impl Model for AskedUrls {
    ghost use Rattle.std.specs.Coded.{codes};
    ghost use Rattle.esm_loads.specs.Inner.Urls.{UrlsView};

    ghost Value = { UrlsView };

    ghost use Rattle.esm_loads.specs.Inner.UrlIndex.{AreIndexed};

    ghost view = { λ t. record {
      slots = t.slots.items;
      bytes = t.bytes;
      starts = t.targets.starts.items;
      places = t.targets.places.items;
    } };

    ghost invariant = { λ t. AreIndexed t.urls t.slots.items t.asks t.bytes };
}

// Adds an open URL to each list, none of which has it.
fn add(
    urls: &mut TextTable,
    slots: &mut Vec<Slot>,
    asks: &mut OpenAsks,
    url: &Text,
) -> Result<(), Memory>
    requires { has urls.old url.now ≡ false }
    ensures slots { OnOk result (slots.new.items ≡ slots.old.items ++ open_slot url.now ∷ []) }
    ensures asks { OnOk result (asks.new.urls ≡ asks.old.urls ++ url.now ∷ []) }
    ensures places { OnOk result (asks.new.places
        ≡ asks.old.places ++ length slots.old.items ∷ []) }
    ensures urls { OnOk result (urls.new ≡ urls.old ++ url.now ∷ []) }
{
    let place = slots.len();
    let key = url.clone()?;
    let ask = url.clone()?;
    let url = url.clone()?;
    asks.open(ask, place)?;
    slots.push(Slot {
        url,
        state: UrlState::Open,
    })?;
    urls.insert_new(key)
}

// Whether the slot at a place is of this URL.
fn is_of(slots: &[Slot], place: usize, url: &Text) -> bool
    requires { place < length slots.now }
    ensures { (s : Slot) → slice_get slots.now place ≡ Some s → result ≡ same_url s.url url.now }
{
    slots[place].url == *url
}

// Whether a URL stands at a place.
fn is_at(slots: &[Slot], place: usize, url: &Text) -> bool
    ensures { result ≡ true → slice_get (urls_of slots.now) place ≡ Some url.now }
{
    if place >= slots.len() {
        return false;
    }
    is_of(slots, place, url)
}

// Whether the URL of the slot at a place isn't fetched.
fn is_open_at(slots: &[Slot], place: usize) -> bool
    requires { place < length slots.now }
    ensures { (s : Slot) → slice_get slots.now place ≡ Some s → result ≡ is_open s.state }
{
    matches!(slots[place].state, UrlState::Open)
}

impl AskedUrls {
    /// No URL is asked.
    pub fn new(alloc: Global) -> AskedUrls
        ensures { result ≡ no_slots }
    {
        AskedUrls {
            urls: TextTable::new(alloc),
            slots: Vec::new(alloc),
            asks: OpenAsks {
                urls: FrontVec::new(alloc),
                places: FrontVec::new(alloc),
            },
            targets: TargetPlaces::new(alloc),
            bytes: 0,
        }
    }

    /// The URLs that are asked and not fetched, in order of asking.
    pub fn asks(&self) -> &[Text]
        ensures { result.now ≡ open_urls self.now.slots }
    {
        self.asks.urls.as_slice()
    }

    /// The places of the URLs that are asked and not fetched, in order of asking.
    pub fn open_places(&self) -> &[usize] {
        self.asks.places.as_slice()
    }

    /// How many URLs are asked.
    pub fn len(&self) -> usize
        ensures { result ≡ length self.now.slots }
    {
        self.slots.len()
    }

    /// The place of a URL; none where it wasn't asked for.
    pub fn find(&self, url: &Text) -> Option<usize>
        ensures { result ≡ place_in (urls_of self.now.slots) url.now }
    {
        self.urls.find(url)
    }

    /// The same, where the URL was found at the place `near` before, and needn't be looked up again. Any number may be given.
    pub fn find_near(&self, url: &Text, near: usize) -> Option<usize>
        ensures { result ≡ place_in (urls_of self.now.slots) url.now }
    {
        if is_at(self.slots.as_slice(), near, url) {
            Some(near)
        } else {
            self.find(url)
        }
    }

    /// For how many modules the places of targets are kept.
    pub fn modules(&self) -> usize
        ensures { result ≡ length self.now.starts }
    {
        self.targets.starts.len()
    }

    /// One module more, with so many requests, of which no place is known.
    pub fn add_module(&mut self, requests: usize) -> Result<(), Memory>
        ensures { OnOk result (self.new ≡ record self.old {
          starts = self.old.starts ++ length self.old.places ∷ [];
          places = self.old.places ++ replicate requests MAX_URLS;
        }) }
    {
        self.targets.begin(requests)?;
        Ok(())
    }

    /// Keeps the place of the target of a request of a module.
    pub fn keep(&mut self, id: ModuleId, request: usize, place: usize)
        requires { place < MAX_URLS }
        ensures { self.new ≡ record self.old {
          places = with_place self.old.starts self.old.places id.0 request place;
        } }
    {
        self.targets.keep(id, request, place);
    }

    /// The place of the target of a request of a module, which is looked up only where its place isn't known.
    pub fn find_target(&self, id: ModuleId, request: usize, target: &Text) -> Option<usize>
        requires { (place : ℕ) → IsKept self.now.starts self.now.places id.0 request place
            → place_in (urls_of self.now.slots) target.now ≡ Some place }
        ensures { result ≡ place_in (urls_of self.now.slots) target.now }
    {
        match self.targets.place(id, request) {
            Some(place) => Some(place),
            None => self.find(target),
        }
    }

    /// Whether a URL is asked and not fetched. It is looked for as by `find_near`.
    pub fn is_open(&self, url: &Text, near: usize) -> bool
        ensures { result ≡ has (open_urls self.now.slots) url.now }
    {
        match self.find_near(url, near) {
            Some(place) => is_open_at(self.slots.as_slice(), place),
            None => false,
        }
    }

    /// The state of the URL at a place.
    pub fn state(&self, place: usize) -> UrlState
        requires { place < length self.now.slots }
        ensures { (s : Slot) → slice_get self.now.slots place ≡ Some s → result ≡ s.state }
    {
        self.slots[place].state
    }

    /// The module at a place; none where none stands there.
    pub fn module_at(&self, place: usize) -> Option<ModuleId>
        ensures { result ≡ module_by (slice_get self.now.slots place) }
    {
        if place >= self.slots.len() {
            return None;
        }
        match self.slots[place].state {
            UrlState::Open => None,
            UrlState::Failed => None,
            UrlState::Broken(_error) => None,
            UrlState::Module(id) => Some(id),
        }
    }

    /// The URL at a place.
    pub fn url(&self, place: usize) -> &Text
        requires { place < length self.now.slots }
        ensures { (s : Slot) → slice_get self.now.slots place ≡ Some s → result.now ≡ s.url }
    {
        &self.slots[place].url
    }

    /// Asks for a URL that wasn't asked for, behind all others. Limit L1 comes exactly at its number.
    pub fn open(&mut self, url: &Text) -> Result<usize, LoadEnd>
        requires { place_in (urls_of self.old.slots) url.now ≡ None }
        ensures place { IfOk result (λ k. k ≡ length self.old.slots) }
        ensures ok { OnOk result
            (self.new ≡ record self.old { slots = self.old.slots ++ open_slot url.now ∷ [] }) }
        ensures room { OnOk result (length self.old.slots < MAX_URLS) }
        ensures same { (limit : Limit) → result ≡ Err (Fault limit) → self.new ≡ self.old }
        ensures limit { (limit : Limit) → result ≡ Err (Fault limit)
            → (limit ≡ Limit.L1) × (length self.old.slots ≡ MAX_URLS) }
    {
        let place = self.slots.len();
        if place >= MAX_URLS {
            return Err(LoadEnd::Fault(Limit::L1));
        }
        match add(&mut self.urls, &mut self.slots, &mut self.asks, url) {
            Ok(()) => Ok(place),
            Err(Memory) => {
                self.urls.clear();
                self.slots.clear();
                self.asks.urls.clear();
                self.asks.places.clear();
                Err(LoadEnd::Memory)
            }
        }
    }

    /// The fetch of the URL at a place has ended.
    pub fn settle(&mut self, place: usize, state: UrlState)
        requires at { IsOpenAt self.old.slots place }
        requires fetched { is_open state ≡ false }
        ensures { (s : Slot) → slice_get self.old.slots place ≡ Some s → self.new
            ≡ record self.old {
              slots = slice_set self.old.slots place (record s { state = state });
            } }
    {
        self.slots[place].state = state;
        self.asks.close(place);
    }

    /// Counts bytes that were delivered. Limit L2 comes exactly at its number.
    pub fn count(&mut self, bytes: usize) -> Result<(), LoadEnd>
        ensures ok { OnOk result
            (self.new ≡ record self.old { bytes = self.old.bytes + bytes }) }
        ensures room { OnOk result (self.old.bytes + bytes ≤ MAX_DELIVERED_BYTES) }
        ensures limit { (limit : Limit) → result ≡ Err (Fault limit)
            → (limit ≡ Limit.L2) × (MAX_DELIVERED_BYTES < self.old.bytes + bytes) }
    {
        if bytes as u64 > MAX_DELIVERED_BYTES - self.bytes {
            return Err(LoadEnd::Fault(Limit::L2));
        }
        self.bytes += bytes as u64;
        Ok(())
    }
}
