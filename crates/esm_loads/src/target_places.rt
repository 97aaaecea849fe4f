// Where the targets of requests stand among the asked URLs.
ghost use Rattle.std.specs.Prelude.{◌≡◌, ◌≤◌, ◌<◌, ◌+◌, ◌++◌, ℕ, [], ◌∷◌, length, replicate, slice_get, None, Some, IfSome, OnOk};
ghost use Rattle.esm_base.specs.declared.limits.TheConstants.{MAX_URLS};
ghost use Rattle.esm_loads.specs.Inner.Targets.{IsIndex, IsKept, with_place};

use esm_base::{MAX_URLS, Memory, ModuleId};
use std::alloc::Global;

/// For each request of each module the place of its target among the asked URLs, once a load has come to the request and
/// asked for the target or entered its module. So the end of a load, and a later load, needn't look the target up.
#[derive(Drop)]
pub struct TargetPlaces {
    /// For each module, by its id, where the places of its requests begin.
    pub starts: Vec<u32>,
    /// The places, module by module, with `UNKNOWN` for each that isn't known.
    pub places: Vec<u32>,
}

// No URL has this place.
const UNKNOWN: u32 = MAX_URLS as u32;

// So many places more, none of which is known.
fn add_unknown(places: &mut Vec<u32>, many: usize) -> Result<(), Memory>
    ensures { OnOk result (places.new.items ≡ places.old.items ++ replicate many MAX_URLS) }
{
    for added in 0..many {
        let _ = added;
        places.push(UNKNOWN)?;
    }
    Ok(())
}

impl TargetPlaces {
    /// There is no module.
    pub fn new(alloc: Global) -> TargetPlaces
        ensures starts { result.starts.items ≡ [] }
        ensures places { result.places.items ≡ [] }
    {
        TargetPlaces {
            starts: Vec::new(alloc),
            places: Vec::new(alloc),
        }
    }

    /// One module more, with so many requests, of which no place is known.
    pub fn begin(&mut self, requests: usize) -> Result<(), Memory>
        ensures starts { OnOk result (self.new.starts.items
            ≡ self.old.starts.items ++ length self.old.places.items ∷ []) }
        ensures places { OnOk result (self.new.places.items
            ≡ self.old.places.items ++ replicate requests MAX_URLS) }
    {
        // So many requests are in no texts that a run may read.
        let Ok(first) = u32::try_from(self.places.len()) else {
            return Err(Memory);
        };
        self.starts.push(first)?;
        add_unknown(&mut self.places, requests)?;
        Ok(())
    }

    // Where the place of a request stands in the list.
    fn index(&self, id: ModuleId, request: usize) -> Option<usize>
        ensures some { IfSome result
            (IsIndex self.now.starts.items self.now.places.items id.0 request) }
        ensures none { result ≡ None → (first : ℕ)
            → slice_get self.now.starts.items id.0 ≡ Some first
            → length self.now.places.items ≤ first + request }
    {
        let module = id.0 as usize;
        if module >= self.starts.len() {
            return None;
        }
        let first = self.starts[module] as usize;
        let many = self.places.len();
        if first >= many {
            return None;
        }
        if request >= many - first {
            return None;
        }
        Some(first + request)
    }

    /// The place of the target of a request; none where it isn't known.
    pub fn place(&self, id: ModuleId, request: usize) -> Option<usize>
        ensures { IfSome result (IsKept self.now.starts.items self.now.places.items id.0 request) }
    {
        match self.index(id, request) {
            Some(at) => {
                let place = self.places[at];
                if place < UNKNOWN {
                    Some(place as usize)
                } else {
                    None
                }
            }
            None => None,
        }
    }

    /// Keeps the place of the target of a request.
    pub fn keep(&mut self, id: ModuleId, request: usize, place: usize)
        requires { place < MAX_URLS }
        ensures starts { self.new.starts ≡ self.old.starts }
        ensures places { self.new.places.items
            ≡ with_place self.old.starts.items self.old.places.items id.0 request place }
    {
        match self.index(id, request) {
            Some(at) => self.places[at] = place as u32,
            None => {}
        }
    }
}
