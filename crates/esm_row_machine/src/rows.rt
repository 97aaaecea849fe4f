// The rows of functions, made when they are called for the first time.
ghost use Rattle.std.specs.Prelude.{◌≡◌, ℕ, slice_set, Option, OnOk};
ghost use Rattle.esm_row_machine.specs.Tables.{row_in, IsAdded, IsFound, IsFoundIn, IsPut, IsPutIn, NoneNew, NoneNewIn};
ghost use Rattle.esm_row_machine.specs.Calling.{IsMade};

use crate::outside::Outside;
use esm_base::{Memory, ModuleId};
use esm_rows::Row;
use std::alloc::Global;

/// The rows of the functions of a module.
#[derive(Drop)]
pub(crate) struct ModuleRows {
    /// By number, where they were made.
    pub(crate) rows: Vec<Option<Row>>,
}

/// The rows that were made.
#[derive(Drop)]
pub struct Rows {
    /// By module.
    pub(crate) modules: Vec<ModuleRows>,
    pub(crate) alloc: Global,
}

impl Rows {
    /// Without rows. It doesn't allocate.
    pub fn new(alloc: Global) -> Rows
        ensures { (m : ℕ) → (k : ℕ) → row_in result m k ≡ None }
    {
        Rows {
            modules: Vec::new(alloc),
            alloc,
        }
    }

    /// The row of a function, if it was made.
    #[inline(always)]
    pub(crate) fn find(&self, m: ModuleId, function: u32) -> Option<&Row>
        ensures { IsFound self.now m.0 function result }
    {
        let at = m.0 as usize;
        if at < self.modules.len() {
            found(self.modules[at].rows.as_slice(), function)
        } else {
            None
        }
    }

    /// Makes the row of a function, unless it is there.
    pub(crate) fn make<W: Outside>(
        &mut self,
        world: &W,
        m: ModuleId,
        function: u32,
    ) -> Result<(), Memory>
        ensures { OnOk result (IsMade W.state W.modules W.linked W.begins W.ready W.keeps W.owns
            world.now self.old m.0 self.new) }
    {
        let made = self.find(m, function).is_some();
        if made {
            Ok(())
        } else {
            match world.row(m, function) {
                Ok(found) => match found {
                    Some(row) => self.add(m, function, row),
                    None => Err(Memory),
                },
                Err(Memory) => Err(Memory),
            }
        }
    }

    /// Adds a row.
    fn add(&mut self, m: ModuleId, function: u32, row: Row) -> Result<(), Memory>
        ensures { OnOk result (IsAdded self.old m.0 function row self.new) }
    {
        let at = m.0 as usize;
        grow_modules(&mut self.modules, at + 1, self.alloc)?;
        put_in(&mut self.modules, at, function, row)
    }
}

/// The row with this number.
#[inline(always)]
fn found(rows: &[Option<Row>], function: u32) -> Option<&Row>
    ensures { IsFoundIn rows.now function result }
{
    let at = function as usize;
    if at < rows.len() {
        rows[at].as_ref()
    } else {
        None
    }
}

/// There are places for the rows of so many modules.
fn grow_modules(modules: &mut Vec<ModuleRows>, count: usize, alloc: Global) -> Result<(), Memory>
    ensures { OnOk result (NoneNewIn modules.old.items modules.new.items) }
{
    'growing: for grown in modules.len()..count {
        let _ = grown;
        let rows = Vec::new(alloc);
        modules.push(ModuleRows { rows })?;
    }
    Ok(())
}

/// A row of a module is put in its place.
fn put_in(modules: &mut Vec<ModuleRows>, m: usize, function: u32, row: Row) -> Result<(), Memory>
    ensures { OnOk result (IsPutIn modules.old.items m function row modules.new.items) }
{
    if m < modules.len() {
        put(&mut modules[m], function, row)
    } else {
        Err(Memory)
    }
}

/// A row is put in its place.
fn put(module: &mut ModuleRows, function: u32, row: Row) -> Result<(), Memory>
    ensures { OnOk result (IsPut module.old.rows.items function row module.new.rows.items) }
{
    let at = function as usize;
    grow(&mut module.rows, at + 1)?;
    set_row(&mut module.rows, at, row)
}

/// There are so many places for rows.
fn grow(rows: &mut Vec<Option<Row>>, count: usize) -> Result<(), Memory>
    ensures { OnOk result (NoneNew rows.old.items rows.new.items) }
{
    'growing: for grown in rows.len()..count {
        let _ = grown;
        rows.push(None)?;
    }
    Ok(())
}

/// The row at a place is this one.
fn set_row(rows: &mut Vec<Option<Row>>, at: usize, row: Row) -> Result<(), Memory>
    ensures { OnOk result (rows.new.items ≡ slice_set rows.old.items at (Some row)) }
{
    if at < rows.len() {
        rows[at] = Some(row);
        Ok(())
    } else {
        Err(Memory)
    }
}
