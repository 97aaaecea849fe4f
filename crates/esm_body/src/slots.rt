// The names of a block, in order, and where each stands.
ghost use Rattle.std.specs.Prelude.{◌≡◌, ◌<◌, [], length, slice_index_or, IfOk};
ghost use Rattle.esm_env.specs.NamePlaces.{first_place};
ghost use Rattle.esm_body.specs.Inner.SlotPlaces.{names_of, set_slot};
ghost use Rattle.esm_body.specs.declared.work.Slot.{Slot};

use crate::work::Slot;
use esm_base::Memory;
use esm_env::{HasName, NameIndex};
use esm_values::Value;
use std::alloc::Global;
use std::marker::Model;

/// The names of a block, in order. Contracts see the list of them.
#[derive(Drop)]
pub struct Slots {
    list: Vec<Slot>,
    /// The first place of each name.
    places: NameIndex,
}

impl Model for Slots {
    ghost use Rattle.std.specs.Prelude.{List};
    ghost use Rattle.esm_body.specs.declared.work.Slot.{Slot};

    ghost Value = { List Slot };

    ghost use Rattle.esm_env.specs.NamePlaces.{IsIndexOf};
    ghost use Rattle.esm_body.specs.Inner.SlotPlaces.{names_of};

    ghost view = { λ s. s.list.items };

    ghost invariant = { λ s. IsIndexOf s.places (names_of s.list.items) };
}

impl HasName for Slot {
    ghost own_name = { λ s. s.name };

    fn name(&self) -> &str {
        self.name.as_str()
    }
}

/// Sets the value of the name at this place.
fn set_value(list: &mut Vec<Slot>, at: usize, value: Value)
    requires { at < length list.old.items }
    ensures { list.new.items ≡ set_slot list.old.items at value }
{
    list[at].value = Some(value);
}

impl Slots {
    /// No names. It doesn't allocate.
    pub(crate) fn none(alloc: Global) -> Slots
        ensures { result ≡ [] }
    {
        Slots {
            list: Vec::new(alloc),
            places: NameIndex::none(),
        }
    }

    /// These names, with their index. Where memory runs out they are gone.
    pub(crate) fn of(alloc: Global, list: Vec<Slot>) -> Result<Slots, Memory>
        ensures { IfOk result (λ slots. slots ≡ list.items) }
    {
        let places = NameIndex::of(alloc, list.as_slice())?;
        Ok(Slots { list, places })
    }

    /// The first place of a name. It doesn't allocate.
    pub(crate) fn place(&self, name: &str) -> Option<usize>
        ensures { first_place (names_of self.now) name.now ≡ result }
    {
        self.places.place(self.list.as_slice(), name)
    }

    /// The name at this place.
    pub(crate) fn get(&self, at: usize) -> &Slot
        requires { at < length self.now }
        ensures { (d : Slot) → result.now ≡ slice_index_or self.now at d }
    {
        &self.list[at]
    }

    /// Sets the value of the name at this place.
    pub(crate) fn set(&mut self, at: usize, value: Value)
        requires { at < length self.old }
        ensures { self.new ≡ set_slot self.old at value }
    {
        set_value(&mut self.list, at, value)
    }
}
