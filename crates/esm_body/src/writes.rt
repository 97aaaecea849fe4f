// Names: set by declarations, and written by assignments.
ghost use Rattle.std.specs.Prelude.{◌≡◌, ◌<◌, ◌++◌, length, slice_index_or, IfOk};
ghost use Rattle.esm_env.specs.Calls.{scopes_of};
ghost use Rattle.esm_body.specs.declared.work.Level.{Level};
ghost use Rattle.esm_body.specs.declared.work.Slot.{Slot};
ghost use Rattle.esm_body.specs.Inner.Written as spec;
ghost use Rattle.esm_body.specs.Inner.Written.{LevelSet, SetsName, SetsTo, SlotSet, SlotWritten, Throws, ThrowsNew, TopSet, WritesName, WritesTo};

use crate::importer::Importer;
use crate::inside::Inside;
use crate::names::{find, throw_named};
use crate::work::{Level, Slot};
use esm_base::{Memory, ModuleId};
use esm_env::{Envs, Wrote};
use esm_values::{Errors, FaultKind, Value};
use std::alloc::Global;

/// Sets the value of a name of a level.
fn set_value(level: &mut Level, at: usize, value: Value)
    requires { at < length level.old.slots }
    ensures { SlotSet level.old at value level.new }
{
    level.slots.set(at, value)
}

/// Sets the value of a name of a block.
fn set_slot(levels: &mut Vec<Level>, level: usize, at: usize, value: Value)
    requires level { level < length levels.old.items }
    requires place { (d : Level) → at
        < length (slice_index_or levels.old.items level d).slots }
    ensures { LevelSet levels.old.items level at value levels.new.items }
{
    set_value(&mut levels[level], at, value)
}

/// What a write of a name comes to: that it isn't set yet comes before that it is a constant.
fn slot_wrote(slot: &Slot) -> Wrote
    ensures { result ≡ spec.slot_wrote slot.now }
{
    match &slot.value {
        Some(_) => {
            if slot.constant {
                Wrote::Constant
            } else {
                Wrote::Done
            }
        }
        None => Wrote::Unset,
    }
}

/// What a write of the name at this place of a level comes to.
fn level_wrote(level: &Level, at: usize) -> Wrote
    requires { at < length level.now.slots }
    ensures { (d : Slot) × (result
        ≡ spec.slot_wrote (slice_index_or level.now.slots at d)) }
{
    slot_wrote(level.slots.get(at))
}

/// Writes a name of a block.
fn write_slot(levels: &mut Vec<Level>, level: usize, at: usize, value: Value) -> Wrote
    requires level { level < length levels.old.items }
    requires place { (d : Level) → at
        < length (slice_index_or levels.old.items level d).slots }
    ensures { SlotWritten levels.old.items level at value result levels.new.items }
{
    match level_wrote(&levels[level], at) {
        Wrote::Done => {
            set_slot(levels, level, at, value);
            Wrote::Done
        }
        Wrote::Unset => Wrote::Unset,
        Wrote::Constant => Wrote::Constant,
        Wrote::Undeclared => Wrote::Undeclared,
    }
}

/// Writes a name, in the innermost block that declares it, else in the module.
fn write_to(
    levels: &mut Vec<Level>,
    envs: &mut Envs,
    m: ModuleId,
    name: &str,
    value: Value,
) -> Wrote
    ensures { WritesTo levels.old.items (scopes_of envs.old) m.0 name.now value result
        levels.new.items (scopes_of envs.new) }
{
    match find(levels.as_slice(), name) {
        Some((level, at)) => write_slot(levels, level, at, value),
        None => envs.write(m, name, value),
    }
}

/// Throws a new error whose message is a name and these words.
fn refuse(
    alloc: Global,
    errors: &mut Errors,
    kind: FaultKind,
    name: &str,
    words: &str,
) -> Result<Option<Value>, Memory>
    ensures { IfOk result (λ told. ThrowsNew kind (name.now ++ words.now) errors.old told
        errors.new) }
{
    match throw_named(alloc, errors, kind, name, words) {
        Ok(error) => Ok(Some(error)),
        Err(end) => Err(end),
    }
}

/// What is thrown by a write that came to this.
pub(crate) fn throw_wrote(
    alloc: Global,
    errors: &mut Errors,
    name: &str,
    wrote: Wrote,
) -> Result<Option<Value>, Memory>
    ensures { Throws name.now wrote errors.old result errors.new }
{
    match wrote {
        Wrote::Done => Ok(None),
        Wrote::Unset => {
            let kind = FaultKind::ReferenceError;
            refuse(alloc, errors, kind, name, " is not initialized")
        }
        Wrote::Constant => refuse(alloc, errors, FaultKind::TypeError, name, " is constant"),
        Wrote::Undeclared => {
            let kind = FaultKind::ReferenceError;
            refuse(alloc, errors, kind, name, " is not defined")
        }
    }
}

/// Writes a name, in the innermost block that declares it, else in the module, and gives what is thrown.
///
/// ECMA-262, PutValue and SetMutableBinding.
pub(crate) fn write_name<I: Importer>(
    inside: &mut Inside<'_, I>,
    name: &str,
    value: Value,
) -> Result<Option<Value>, Memory>
    ensures { WritesName I.seen I.modules I.linked I.fits I.begins inside.old name.now value result
        inside.new }
{
    esm_env::laws::writes_right();
    let at = inside.code.at;
    let wrote = write_to(&mut inside.code.levels, inside.envs, at, name, value);
    throw_wrote(inside.alloc, inside.errors, name, wrote)
}

/// Sets a name of this level, if it declares it.
fn set_top(levels: &mut Vec<Level>, level: usize, name: &str, value: Value)
    requires { level < length levels.old.items }
    ensures { TopSet levels.old.items level name.now value levels.new.items }
{
    match levels[level].slots.place(name) {
        Some(at) => set_slot(levels, level, at, value),
        None => {}
    }
}

/// Sets a name that is declared: in the innermost block, or in the module outside of all blocks.
fn set_to(levels: &mut Vec<Level>, envs: &mut Envs, m: ModuleId, name: &str, value: Value)
    ensures { SetsTo levels.old.items (scopes_of envs.old) m.0 name.now value levels.new.items
        (scopes_of envs.new) }
{
    let count = levels.len();
    if count > 1 {
        set_top(levels, count - 1, name, value)
    } else {
        envs.initialise(m, name, value)
    }
}

/// Sets a name that is declared: in the innermost block, or in the module outside of all blocks.
///
/// ECMA-262, InitializeReferencedBinding.
pub(crate) fn set_name<I: Importer>(inside: &mut Inside<'_, I>, name: &str, value: Value)
    ensures { SetsName I.seen I.modules I.linked I.fits I.begins inside.old name.now value
        inside.new }
{
    esm_env::laws::writes_right();
    let at = inside.code.at;
    set_to(&mut inside.code.levels, inside.envs, at, name, value)
}
