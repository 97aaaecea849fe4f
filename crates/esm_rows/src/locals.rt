// The names of a block, in order, and where each stands.
ghost use Rattle.std.specs.Prelude.{◌≡◌, ◌<◌, length, slice_index_or, IfOk};
ghost use Rattle.esm_env.specs.NamePlaces.{first_place};
ghost use Rattle.esm_rows.specs.LocalPlaces.{texts_of};
ghost use Rattle.esm_rows.specs.declared.names.Local.{Local};

use crate::names::Local;
use esm_base::Memory;
use esm_env::{HasName, NameIndex};
use std::alloc::Global;
use std::marker::Model;

/// The names of a block, in order. Contracts see the list of them.
#[derive(Drop)]
pub struct Locals {
    list: Vec<Local>,
    /// The first place of each name.
    places: NameIndex,
}

impl Model for Locals {
    ghost use Rattle.std.specs.Prelude.{List};
    ghost use Rattle.esm_rows.specs.declared.names.Local.{Local};

    ghost Value = { List Local };

    ghost use Rattle.esm_env.specs.NamePlaces.{IsIndexOf};
    ghost use Rattle.esm_rows.specs.LocalPlaces.{texts_of};

    ghost view = { λ l. l.list.items };

    ghost invariant = { λ l. IsIndexOf l.places (texts_of l.list.items) };
}

impl HasName for Local {
    ghost own_name = { λ l. l.name };

    fn name(&self) -> &str {
        self.name.as_str()
    }
}

impl Locals {
    /// These names, with their index. Where memory runs out they are gone.
    pub(crate) fn of(alloc: Global, list: Vec<Local>) -> Result<Locals, Memory>
        ensures { IfOk result (λ locals. locals ≡ list.items) }
    {
        let places = NameIndex::of(alloc, list.as_slice())?;
        Ok(Locals { list, places })
    }

    /// How many there are.
    pub(crate) fn len(&self) -> usize
        ensures { result ≡ length self.now }
    {
        self.list.len()
    }

    /// The first place of a name. It doesn't allocate.
    pub(crate) fn place(&self, name: &str) -> Option<usize>
        ensures { result ≡ first_place (texts_of self.now) name.now }
    {
        self.places.place(self.list.as_slice(), name)
    }

    /// The name at this place.
    pub(crate) fn get(&self, at: usize) -> &Local
        requires { at < length self.now }
        ensures { (d : Local) → result.now ≡ slice_index_or self.now at d }
    {
        &self.list[at]
    }
}
