// Names of a scope, read and written.
ghost use Rattle.std.specs.Prelude.{◌≡◌, ◌<◌, ℕ, List, map, length, IfOk};
ghost use Rattle.std.specs.Arc.{arc_value};
ghost use Rattle.esm_env.specs.Calls.{told_read};
ghost use Rattle.esm_env.specs.Cells.{read_cell};
ghost use Rattle.esm_env.specs.Scopes.{IsImport, IsWritten, IsWrittenPlace, StaysOrWrites};
ghost use Rattle.esm_env.specs.NamePlaces.{first_place};
ghost use Rattle.esm_env.specs.OwnNames.{own_names};
ghost use Rattle.esm_env.specs.Placed.{names_of};
ghost use Rattle.esm_env.specs.Slots.{IsPlace, cell_in, slot_in};
ghost use Rattle.esm_env.specs.declared.scope.Wrote.TheVariants as wrote;

use crate::functions::function_places;
use crate::name_index::places_of;
use crate::scope::{ModuleScope, Read, Target, Wrote};
use crate::slots::{Slot, is_set, value_at, write_at};
use esm_base::{Memory, ModuleId, Text};
use esm_tree::Tree;
use esm_values::Value;
use std::alloc::Global;
use std::sync::Arc;

impl ModuleScope {
    /// The scope of a module with these names and imports.
    pub(crate) fn new(
        alloc: Global,
        m: ModuleId,
        tree: Arc<Tree>,
        slots: Vec<Slot>,
        imports: Vec<(Text, Target)>,
    ) -> Result<ModuleScope, Memory>
        requires { map (λ s. s.name) slots.items ≡ own_names (arc_value tree).items }
        ensures slots { IfOk result (λ s. s.slots.items ≡ slots.items) }
        ensures imports { IfOk result (λ s. s.imports.items ≡ imports.items) }
        ensures tree { IfOk result (λ s. s.tree ≡ tree) }
        ensures namespace { IfOk result (λ s. s.namespace ≡ Value.Namespace m) }
    {
        let slot_places = places_of(alloc, slots.as_slice())?;
        let import_places = places_of(alloc, imports.as_slice())?;
        let functions = function_places(alloc, &tree)?;
        let scope = ModuleScope {
            namespace: Value::Namespace(m),
            tree,
            slots,
            imports,
            slot_places,
            import_places,
            functions,
        };
        Ok(scope)
    }

    /// The place of a name that the module itself declares, if it does. It doesn't allocate.
    pub fn place(&self, name: &str) -> Option<usize>
        ensures { IsPlace self.now.slots.items name.now result }
    {
        self.slot_places.get(name).copied()
    }

    /// The import with this name.
    pub(crate) fn import(&self, name: &str) -> Option<&Target>
        ensures { IsImport self.now.imports.items name.now result }
    {
        match self.import_places.get(name) {
            Some(at) => Some(&self.imports[*at].1),
            None => None,
        }
    }

    /// Sets a name that the scope declares.
    pub(crate) fn initialise(&mut self, name: &str, value: Value)
        ensures { StaysOrWrites self.old name.now value wrote.Done self.new }
    {
        match self.place(name) {
            Some(at) => write_at(&mut self.slots, at, value),
            None => (),
        }
    }

    /// Writes a name.
    pub(crate) fn write(&mut self, name: &str, value: Value) -> Wrote
        ensures { IsWritten self.old name.now value result self.new }
    {
        match self.place(name) {
            Some(at) => {
                if !is_set(self.slots.as_slice(), at) {
                    Wrote::Unset
                } else if self.slots[at].constant {
                    Wrote::Constant
                } else {
                    write_at(&mut self.slots, at, value);
                    Wrote::Done
                }
            }
            None => {
                if self.import(name).is_some() {
                    Wrote::Constant
                } else {
                    Wrote::Undeclared
                }
            }
        }
    }

    /// Reads the name at a place.
    pub(crate) fn read_place(&self, place: usize) -> Read<'_>
        ensures { (x : List ℕ) → first_place (names_of self.now) x ≡ Some place
            → told_read result ≡ read_cell (cell_in (slot_in self.now.slots.items x)) }
    {
        let slots = self.slots.as_slice();
        if place < slots.len() {
            match value_at(slots, place) {
                Some(value) => Read::Value(value),
                None => Read::Unset,
            }
        } else {
            Read::Undeclared
        }
    }

    /// The name at a place, or an empty text.
    pub(crate) fn name_at(&self, place: usize) -> &str
        ensures { (x : List ℕ) → first_place (names_of self.now) x ≡ Some place → result.now ≡ x }
    {
        if place < self.slots.len() {
            self.slots[place].name.as_str()
        } else {
            ""
        }
    }

    /// Writes the name at a place.
    pub(crate) fn write_place(&mut self, place: usize, value: Value) -> Wrote
        ensures { IsWrittenPlace self.old place value result self.new }
    {
        if place < self.slots.len() {
            if !is_set(self.slots.as_slice(), place) {
                Wrote::Unset
            } else if self.slots[place].constant {
                Wrote::Constant
            } else {
                write_at(&mut self.slots, place, value);
                Wrote::Done
            }
        } else {
            Wrote::Undeclared
        }
    }
}
