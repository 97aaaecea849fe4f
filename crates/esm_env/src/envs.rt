// The cells of all modules.
ghost use Rattle.std.specs.Prelude.{◌≡◌, ◌<◌, ◌^◌, ℕ, List, [], length, OnOk, OnErr};
ghost use Rattle.std.specs.Arc.{arc_value};
ghost use Rattle.esm_env.specs.Makes.{IsMade, OthersStay};
ghost use Rattle.esm_env.specs.Scopes.{read_in, read_end_in, whole_of, scope_in};
ghost use Rattle.esm_env.specs.Calls.{told_read, read_own, IsScope, IsTarget, IsWrittenIn, IsWrittenAt, IsInitialised, scopes_of};
ghost use Rattle.esm_env.specs.Cells.{read_cell};
ghost use Rattle.esm_env.specs.Placed.{place_of};
ghost use Rattle.esm_env.specs.Slots.{slot_in, cell_in};

use crate::makes::slots_of;
use crate::scope::{ModuleScope, Read, Target, Wrote};
use crate::slots::value_at;
use esm_base::{MAX_URLS, Memory, ModuleId, Text};
use esm_tree::Tree;
use esm_values::Value;
use std::alloc::Global;
use std::sync::Arc;

// Once there are so many scopes, room is taken for all that a run may have, so that the list isn't moved again.
const MANY: usize = 256;

/// The scopes of modules.
#[derive(Drop)]
pub struct Envs {
    scopes: Vec<Option<ModuleScope>>,
}

impl Envs {
    /// Without scopes. It doesn't allocate.
    pub fn new(alloc: Global) -> Envs
        ensures { scopes_of result ≡ [] }
    {
        Envs {
            scopes: Vec::new(alloc),
        }
    }

    /// Makes the scope of a module from its tree. A scope that was left for the module is replaced, and the tree is
    /// kept. Where memory runs out nothing has changed.
    ///
    /// ECMA-262, InitializeEnvironment of a Source Text Module Record.
    pub fn make_module(
        &mut self,
        alloc: Global,
        m: ModuleId,
        tree: Arc<Tree>,
        imports: Vec<(Text, Target)>,
    ) -> Result<(), Memory>
        requires { length (arc_value tree).items < 2 ^ 31 }
        ensures made { OnOk result (IsMade m (arc_value tree) imports.items
            (scope_in (scopes_of self.new) m.0)) }
        ensures others { OthersStay (scopes_of self.old) m.0 (scopes_of self.new) }
        ensures err { OnErr result ((n : ℕ) → scope_in (scopes_of self.new) n
            ≡ scope_in (scopes_of self.old) n) }
    {
        let slots = slots_of(alloc, m, &tree)?;
        let scope = ModuleScope::new(alloc, m, tree, slots, imports)?;
        self.grow(m.0 as usize)?;
        self.scopes[m.0 as usize] = Some(scope);
        Ok(())
    }

    /// Makes room for all scopes at once, where there are many.
    fn make_room(&mut self) -> Result<(), Memory>
        ensures { scopes_of self.new ≡ scopes_of self.old }
    {
        if self.scopes.len() == MANY {
            self.scopes.reserve(MAX_URLS - MANY)?;
        }
        Ok(())
    }

    /// Makes room for the scope at a place.
    fn grow(&mut self, at: usize) -> Result<(), Memory>
        requires { at < 2 ^ 32 }
        ensures room { OnOk result (at < length (scopes_of self.new)) }
        ensures same { (n : ℕ) → scope_in (scopes_of self.new) n ≡ scope_in (scopes_of self.old) n }
    {
        for next in self.scopes.len()..at + 1 {
            let _ = next;
            self.make_room()?;
            self.scopes.push(None)?;
        }
        Ok(())
    }

    /// The scope of a module, if it was made.
    pub fn scope(&self, m: ModuleId) -> Option<&ModuleScope>
        ensures { IsScope (scopes_of self.now) m.0 result }
    {
        let at = m.0 as usize;
        if at < self.scopes.len() {
            match &self.scopes[at] {
                Some(scope) => Some(scope),
                None => None,
            }
        } else {
            None
        }
    }

    /// Reads a name that the module itself declares.
    fn read_own(&self, m: ModuleId, name: &str) -> Read<'_>
        ensures { told_read result ≡ read_own (scopes_of self.now) m.0 name.now }
    {
        match self.scope(m) {
            Some(scope) => read_slot(scope, name),
            None => Read::Undeclared,
        }
    }

    /// Reads a name: of the module, or of where its import is bound. It is undeclared where the module has no scope, or
    /// neither declares nor imports it. It doesn't allocate.
    ///
    /// ECMA-262, GetBindingValue of a Module Environment Record.
    pub fn read(&self, m: ModuleId, name: &str) -> Read<'_>
        ensures { told_read result ≡ read_in (scopes_of self.now) m.0 name.now }
    {
        match self.read_own(m, name) {
            Read::Value(value) => Read::Value(value),
            Read::Unset => Read::Unset,
            Read::Undeclared => match self.import(m, name) {
                Some(Target::Cell(of, local)) => self.read_own(*of, local.as_str()),
                Some(Target::Whole(of)) => self.read_namespace(*of),
                None => Read::Undeclared,
            },
        }
    }

    /// Reads a name of a module at which a resolution ends: its own, or the namespace that it imports as a whole. It
    /// doesn't allocate.
    ///
    /// ECMA-262, ResolvedBinding Records.
    pub fn read_end(&self, m: ModuleId, name: &str) -> Read<'_>
        ensures { told_read result ≡ read_end_in (scopes_of self.now) m.0 name.now }
    {
        match self.read_own(m, name) {
            Read::Value(value) => Read::Value(value),
            Read::Unset => Read::Unset,
            Read::Undeclared => match self.import(m, name) {
                Some(Target::Whole(of)) => self.read_namespace(*of),
                Some(Target::Cell(_, _)) => Read::Undeclared,
                None => Read::Undeclared,
            },
        }
    }

    /// The namespace of a module, as a value.
    fn read_namespace(&self, m: ModuleId) -> Read<'_>
        ensures { told_read result ≡ whole_of (scope_in (scopes_of self.now) m.0) }
    {
        match self.scope(m) {
            Some(scope) => Read::Value(&scope.namespace),
            None => Read::Undeclared,
        }
    }

    /// What the import of the module with this name is bound to.
    fn import(&self, m: ModuleId, name: &str) -> Option<&Target>
        ensures { IsTarget (scopes_of self.now) m.0 name.now result }
    {
        match self.scope(m) {
            Some(scope) => scope.import(name),
            None => None,
        }
    }

    /// Writes a name. Whatever it answers but `Done`, nothing has changed. It doesn't allocate.
    ///
    /// ECMA-262, SetMutableBinding of a Module Environment Record.
    pub fn write(&mut self, m: ModuleId, name: &str, value: Value) -> Wrote
        ensures { IsWrittenIn (scopes_of self.old) m.0 name.now value result (scopes_of self.new) }
    {
        let at = m.0 as usize;
        if at < self.scopes.len() {
            match &mut self.scopes[at] {
                Some(scope) => scope.write(name, value),
                None => Wrote::Undeclared,
            }
        } else {
            Wrote::Undeclared
        }
    }

    /// The place of a name among those that the module itself declares, if it does. It doesn't allocate.
    pub fn place(&self, m: ModuleId, name: &str) -> Option<usize>
        ensures { result ≡ place_of (scopes_of self.now) m.0 name.now }
    {
        match self.scope(m) {
            Some(scope) => scope.place(name),
            None => None,
        }
    }

    /// Reads the name at a place of the module, as `place` gives it; of another place nothing is said. It doesn't allocate.
    pub fn value(&self, m: ModuleId, place: usize) -> Read<'_>
        ensures { (x : List ℕ) → place_of (scopes_of self.now) m.0 x ≡ Some place
            → told_read result ≡ read_in (scopes_of self.now) m.0 x }
    {
        match self.scope(m) {
            Some(scope) => scope.read_place(place),
            None => Read::Undeclared,
        }
    }

    /// The name at a place of the module, as `place` gives it; of another place nothing is said. It doesn't allocate.
    pub fn name_at(&self, m: ModuleId, place: usize) -> &str
        ensures { (x : List ℕ) → place_of (scopes_of self.now) m.0 x ≡ Some place → result.now ≡ x }
    {
        match self.scope(m) {
            Some(scope) => scope.name_at(place),
            None => "",
        }
    }

    /// Writes the name at a place of the module. Where nothing stands there, nothing changes. It doesn't allocate.
    pub fn write_at(&mut self, m: ModuleId, place: usize, value: Value) -> Wrote
        ensures { IsWrittenAt (scopes_of self.old) m.0 place value result (scopes_of self.new) }
    {
        let at = m.0 as usize;
        if at < self.scopes.len() {
            match &mut self.scopes[at] {
                Some(scope) => scope.write_place(place, value),
                None => Wrote::Undeclared,
            }
        } else {
            Wrote::Undeclared
        }
    }

    /// Sets a name that the module itself declares; of another name nothing changes. It doesn't allocate.
    ///
    /// ECMA-262, InitializeBinding of a Declarative Environment Record.
    pub fn initialise(&mut self, m: ModuleId, name: &str, value: Value)
        ensures { IsInitialised (scopes_of self.old) m.0 name.now value (scopes_of self.new) }
    {
        let at = m.0 as usize;
        if at < self.scopes.len() {
            match &mut self.scopes[at] {
                Some(scope) => scope.initialise(name, value),
                None => (),
            }
        }
    }
}

/// Reads a name that the scope declares.
fn read_slot<'a>(scope: &'a ModuleScope, name: &str) -> Read<'a>
    ensures { told_read result ≡ read_cell (cell_in (slot_in scope.now.slots.items name.now)) }
{
    match scope.place(name) {
        Some(at) => match value_at(scope.slots.as_slice(), at) {
            Some(value) => Read::Value(value),
            None => Read::Unset,
        },
        None => Read::Undeclared,
    }
}
