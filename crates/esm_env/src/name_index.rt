// The places of names, so that a name of a long list is looked up once.
ghost use Rattle.std.specs.Prelude.{◌≡◌, ◌++◌, ◌∷◌, [], ℕ, List, map, length, OnOk, IfOk};
ghost use Rattle.esm_env.specs.NamePlaces.{ArePlaces, IsIndexOf, first_place};

use crate::has_name::HasName;
use esm_base::{Memory, TextMap};
use std::alloc::Global;

/// Up to how many names are looked through one by one.
const FEW: usize = 16;

/// The first place of each name of a list, which stands beside it: of a list with more than sixteen names a finite map,
/// and nothing of a shorter one, which is looked through.
#[derive(Drop)]
pub struct NameIndex {
    /// The places, where they are kept.
    places: Option<TextMap<usize>>,
}

/// The first place of a name, looked for one by one.
fn scan<T: HasName>(list: &[T], wanted: &str) -> Option<usize>
    ensures { result ≡ first_place (map T.own_name list.now) wanted.now }
{
    for at in 0..list.len() {
        if list[at].name() == wanted {
            return Some(at);
        }
    }
    None
}

/// Adds the place of a name, unless the name has one.
fn add_place(
    alloc: Global,
    places: &mut TextMap<usize>,
    name: &str,
    at: usize,
) -> Result<(), Memory>
    ensures { (before : List (List ℕ)) → length before ≡ at → ArePlaces places.old before
        → OnOk result (ArePlaces places.new (before ++ name.now ∷ [])) }
{
    let key = String::from_str(alloc, name)?;
    match places.insert_new(key, at) {
        Ok(_fresh) => Ok(()),
        Err(end) => Err(end),
    }
}

/// The first place of each name.
pub(crate) fn places_of<T: HasName>(alloc: Global, list: &[T]) -> Result<TextMap<usize>, Memory>
    ensures { IfOk result (λ places. ArePlaces places (map T.own_name list.now)) }
{
    let mut places = TextMap::empty(alloc);
    for at in 0..list.len() {
        add_place(alloc, &mut places, list[at].name(), at)?;
    }
    Ok(places)
}

impl NameIndex {
    /// The index that keeps nothing, which is right for each list: all of it is looked through. It doesn't allocate.
    pub fn none() -> NameIndex
        ensures { (names : List (List ℕ)) → IsIndexOf result names }
    {
        NameIndex { places: None }
    }

    /// The index of this list. It answers `Memory` where memory runs out.
    pub fn of<T: HasName>(alloc: Global, list: &[T]) -> Result<NameIndex, Memory>
        ensures { IfOk result (λ index. IsIndexOf index (map T.own_name list.now)) }
    {
        if list.len() <= FEW {
            return Ok(NameIndex { places: None });
        }
        let places = places_of(alloc, list)?;
        Ok(NameIndex {
            places: Some(places),
        })
    }

    /// The first place of a name in the list that this is the index of. It doesn't allocate.
    pub fn place<T: HasName>(&self, list: &[T], wanted: &str) -> Option<usize>
        requires { IsIndexOf self.now (map T.own_name list.now) }
        ensures { result ≡ first_place (map T.own_name list.now) wanted.now }
    {
        match &self.places {
            Some(places) => places.get(wanted).copied(),
            None => scan(list, wanted),
        }
    }
}
