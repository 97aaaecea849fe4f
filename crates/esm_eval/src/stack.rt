// The open modules of a walk.
ghost use Rattle.std.specs.Prelude.{◌≡◌, ◌<◌, ◌^◌, ◌++◌, [], ◌∷◌, ℕ, List, false, nat_eq, length, take, slice_get, Some, OnOk, IfOk};
ghost use Rattle.esm_base.specs.Lists.{is_in};
ghost use Rattle.esm_eval.specs.EndSteps.{Says};
ghost use Rattle.esm_eval.specs.Inner.Stack.{HavePlaces, KeepsPlaces, StandOnce};
ghost use Rattle.esm_eval.specs.Inner.Visit.{IsPlace};

use esm_base::Memory;
use std::alloc::Global;
use std::marker::Model;

/// The open modules of a walk, from the first to the last that was entered. Contracts see them as a list.
#[derive(Drop)]
pub(crate) struct Stack {
    opened: Vec<u32>,
    /// For each id up to the greatest that was open, where its module stands, or stood last; none while few were open.
    places: Vec<usize>,
}

// So many open modules are looked through; once there are more, each has its place in the table. A walk that opens few modules
// amid many has no places for the others.
const FEW: usize = 16;

impl Model for Stack {
    ghost use Rattle.std.specs.Prelude.{ℕ, List};
    ghost use Rattle.esm_eval.specs.Inner.Stack.{KeepsPlaces};

    ghost Value = { List ℕ };

    ghost view = { λ s. s.opened.items };

    ghost invariant = { λ s. KeepsPlaces s.opened.items s.places.items };
}

// Makes room for the place of an id.
fn grow(places: &mut Vec<usize>, id: usize) -> Result<(), Memory>
    requires { id < 2 ^ 32 }
    ensures kept { (opened : List ℕ)
        → HavePlaces opened places.old.items → HavePlaces opened places.new.items }
    ensures room { OnOk result (id < length places.new.items) }
{
    if id < places.len() {
        return Ok(());
    }
    places.resize(id + 1, 0)?;
    Ok(())
}

// An id gets its place in the table, behind those that have theirs.
fn note(places: &mut Vec<usize>, id: u32, place: usize) -> Result<(), Memory>
    ensures { (opened : List ℕ) → HavePlaces opened places.old.items
        → is_in nat_eq opened id ≡ false → place ≡ length opened
        → OnOk result (HavePlaces (opened ++ id ∷ []) places.new.items) }
{
    let id = id as usize;
    grow(places, id)?;
    places[id] = place;
    Ok(())
}

// The places of open modules.
fn places_of(alloc: Global, opened: &[u32]) -> Result<Vec<usize>, Memory>
    requires { StandOnce opened.now }
    ensures { IfOk result (λ places. HavePlaces opened.now places.items) }
{
    let mut places = Vec::new(alloc);
    for i in 0..opened.len() {
        note(&mut places, opened[i], i)?;
    }
    Ok(places)
}

// Makes the table of places, unless it is there.
fn make_places(places: &mut Vec<usize>, opened: &[u32]) -> Result<(), Memory>
    requires { KeepsPlaces opened.now places.old.items }
    ensures made { OnOk result (HavePlaces opened.now places.new.items) }
    ensures kept { KeepsPlaces opened.now places.new.items }
{
    if !places.is_empty() {
        return Ok(());
    }
    let alloc = *places.allocator();
    *places = places_of(alloc, opened)?;
    Ok(())
}

// Opens a module, where the open ones have their places in the table from now on.
fn push_by_places(places: &mut Vec<usize>, opened: &mut Vec<u32>, x: u32) -> Result<(), Memory>
    requires keeps { KeepsPlaces opened.old.items places.old.items }
    requires new { is_in nat_eq opened.old.items x ≡ false }
    ensures kept { KeepsPlaces opened.new.items places.new.items }
    ensures pushes { OnOk result (opened.new.items ≡ opened.old.items ++ x ∷ []) }
{
    make_places(places, opened.as_slice())?;
    let place = opened.len();
    let id = x as usize;
    grow(places, id)?;
    opened.push(x)?;
    places[id] = place;
    Ok(())
}

// The place of a module among the open ones, looked for from the first one on, or how many there are.
fn scan(opened: &[u32], x: u32) -> usize
    ensures { IsPlace opened.now x result }
{
    for i in 0..opened.len() {
        if opened[i] == x {
            return i;
        }
    }
    opened.len()
}

// The place that an id has, if there is one.
fn place_at(places: &[usize], id: usize) -> Option<usize>
    ensures { result ≡ slice_get places.now id }
{
    places.get(id).copied()
}

impl Stack {
    /// Without modules. It doesn't allocate.
    #[tactic(auto, using(crate::proofs::Inner::Stacks::keeps_none))]
    pub(crate) fn new(alloc: Global) -> Stack
        ensures { result ≡ [] }
    {
        Stack {
            opened: Vec::new(alloc),
            places: Vec::new(alloc),
        }
    }

    /// How many modules are open.
    pub(crate) fn len(&self) -> usize
        ensures { result ≡ length self.now }
    {
        self.opened.len()
    }

    /// The open modules, in order.
    pub(crate) fn as_slice(&self) -> &[u32]
        ensures { result.now ≡ self.now }
    {
        self.opened.as_slice()
    }

    /// The place of a module among the open ones, or how many there are where it isn't open.
    pub(crate) fn place_of(&self, x: u32) -> usize
        ensures { IsPlace self.now x result }
    {
        if self.places.is_empty() {
            return scan(self.opened.as_slice(), x);
        }
        match place_at(self.places.as_slice(), x as usize) {
            Some(place) => {
                if self.has_at(place, x) {
                    place
                } else {
                    self.len()
                }
            }
            None => self.len(),
        }
    }

    /// Whether the module stands at this place.
    fn has_at(&self, place: usize, x: u32) -> bool
        ensures { Says result (slice_get self.now place ≡ Some x) }
    {
        if place < self.opened.len() {
            self.opened[place] == x
        } else {
            false
        }
    }

    /// One more module is open.
    pub(crate) fn push(&mut self, x: u32) -> Result<(), Memory>
        requires { is_in nat_eq self.old x ≡ false }
        ensures { OnOk result (self.new ≡ self.old ++ x ∷ []) }
    {
        if self.places.is_empty() && self.opened.len() < FEW {
            self.opened.push(x)?;
            return Ok(());
        }
        push_by_places(&mut self.places, &mut self.opened, x)
    }

    /// The modules from this place on aren't open any more.
    pub(crate) fn truncate(&mut self, place: usize)
        ensures { self.new ≡ take place self.old }
    {
        self.opened.truncate(place);
    }
}
