// How far a load has come, and the modules that it has visited.
ghost use Rattle.std.specs.Prelude.{◌≡◌, ◌<◌, ◌++◌, [], ◌∷◌, OnOk, IfOk, List, ℕ, length};
ghost use Rattle.esm_loads.specs.LoadsView.{is_in};
ghost use Rattle.esm_loads.specs.Inner.Flags.{asked_load, begun_record, root_in, AreFlags, HaveFlags};

use crate::data::Stage;
use esm_base::Memory;
use std::alloc::Global;
use std::marker::Model;

/// A load. ECMA-262, GraphLoadingState Records.
#[derive(Drop)]
pub struct LoadRecord {
    stage: Stage,
    /// The ids of the visited modules, in order of visiting.
    visited: Vec<u32>,
    /// For each id up to the greatest visited one, whether it was visited; none while few are visited.
    flags: Vec<bool>,
}

// So many visited modules are looked through; where there are more, each has a flag. A load of few modules amid many has no
// flags for the others.
const FEW: usize = 16;

impl Model for LoadRecord {
    ghost use Rattle.std.specs.Coded.{codes};
    ghost use Rattle.esm_loads.specs.LoadsView.{LoadView};

    ghost Value = { LoadView };

    ghost use Rattle.esm_loads.specs.Inner.Flags.{HaveFlags};

    ghost view = { λ l. record { stage = l.stage; visited = l.visited.items } };

    ghost invariant = { λ l. HaveFlags l.flags.items l.visited.items };
}

// Makes room for the flag of an id.
fn grow(flags: &mut Vec<bool>, id: u32) -> Result<(), Memory>
    ensures flags { (visited : List ℕ)
        → AreFlags flags.old.items visited → AreFlags flags.new.items visited }
    ensures room { OnOk result (id < length flags.new.items) }
{
    let place = id as usize;
    if place < flags.len() {
        return Ok(());
    }
    flags.resize(place + 1, false)?;
    Ok(())
}

// The flag of an id says that it was visited.
fn mark(flags: &mut Vec<bool>, id: u32) -> Result<(), Memory>
    ensures { (visited : List ℕ) → AreFlags flags.old.items visited
        → OnOk result (AreFlags flags.new.items (visited ++ id ∷ [])) }
{
    grow(flags, id)?;
    flags[id as usize] = true;
    Ok(())
}

// The flags of visited ids.
fn flags_of(alloc: Global, visited: &[u32]) -> Result<Vec<bool>, Memory>
    ensures { IfOk result (λ flags. AreFlags flags.items visited.now) }
{
    let mut flags = Vec::new(alloc);
    for i in 0..visited.len() {
        mark(&mut flags, visited[i])?;
    }
    Ok(flags)
}

// Makes the flags of visited ids, unless they are there.
fn make_flags(flags: &mut Vec<bool>, visited: &[u32]) -> Result<(), Memory>
    requires { HaveFlags flags.old.items visited.now }
    ensures flags { OnOk result (AreFlags flags.new.items visited.now) }
    ensures kept { HaveFlags flags.new.items visited.now }
{
    if !flags.is_empty() {
        return Ok(());
    }
    let alloc = *flags.allocator();
    *flags = flags_of(alloc, visited)?;
    Ok(())
}

// Visits an id, where the visited ones have flags from now on.
fn visit_by_flags(flags: &mut Vec<bool>, visited: &mut Vec<u32>, id: u32) -> Result<(), Memory>
    requires { HaveFlags flags.old.items visited.old.items }
    ensures kept { HaveFlags flags.new.items visited.new.items }
    ensures visits { OnOk result (visited.new.items ≡ visited.old.items ++ id ∷ []) }
{
    make_flags(flags, visited.as_slice())?;
    grow(flags, id)?;
    visited.push(id)?;
    flags[id as usize] = true;
    Ok(())
}

impl LoadRecord {
    /// A load whose root was asked for.
    pub fn new(alloc: Global) -> LoadRecord
        ensures { result ≡ asked_load }
    {
        LoadRecord {
            stage: Stage::Asked,
            visited: Vec::new(alloc),
            flags: Vec::new(alloc),
        }
    }

    /// How far the load has come.
    pub fn stage(&self) -> Stage
        ensures { result ≡ self.now.stage }
    {
        self.stage
    }

    /// The place of the root of a load that goes on; none where it doesn't.
    pub fn open_root(&self) -> Option<usize>
        ensures { result ≡ root_in self.now.stage }
    {
        match self.stage {
            Stage::Open(root) => Some(root),
            _ => None,
        }
    }

    /// The ids of the visited modules, in order of visiting.
    pub fn visited(&self) -> &[u32]
        ensures { result.now ≡ self.now.visited }
    {
        self.visited.as_slice()
    }

    /// Goes on to a stage.
    pub fn set_stage(&mut self, stage: Stage)
        ensures { self.new ≡ record self.old { stage = stage } }
    {
        self.stage = stage;
    }

    /// The root, at this place, is there: the load goes on, and has visited nothing.
    pub fn begin(&mut self, root: usize)
        ensures { self.new ≡ begun_record root }
    {
        self.stage = Stage::Open(root);
        self.visited.clear();
        self.flags.clear();
    }

    /// Whether a module was visited.
    pub fn has_visited(&self, id: u32) -> bool
        ensures { result ≡ is_in self.now.visited id }
    {
        if self.flags.is_empty() {
            return self.visited.contains(&id);
        }
        let place = id as usize;
        place < self.flags.len() && self.flags[place]
    }

    /// Visits a module.
    pub fn visit(&mut self, id: u32) -> Result<(), Memory>
        ensures { OnOk result
            (self.new ≡ record self.old { visited = self.old.visited ++ id ∷ [] }) }
    {
        if self.flags.is_empty() && self.visited.len() < FEW {
            self.visited.push(id)?;
            return Ok(());
        }
        visit_by_flags(&mut self.flags, &mut self.visited, id)
    }
}
