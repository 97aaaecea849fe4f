// What the values of statements are for.
ghost use Rattle.std.specs.Prelude.{◌≡◌, ◌+◌, ◌++◌, IfOk, List, OnOk, Option, is_some, replicate, slice_get, slice_set, true};
ghost use Rattle.esm_values.specs.Code.{value_of};
ghost use Rattle.esm_values.specs.declared.value.Value.{Value};
ghost use Rattle.esm_values.specs.Operators as spec;
ghost use Rattle.esm_values.specs.Operators.{look_of};
ghost use Rattle.esm_row_machine.specs.Changes.{Chooses, Gives, Popped, Threw};
ghost use Rattle.esm_row_machine.specs.Naming.{FoundAt, GoesTo, SetsAt, WritesWhere, caught_by};
ghost use Rattle.esm_row_machine.specs.Asking.{HeardWrite, WithName, Wrote};
ghost use Rattle.esm_row_machine.specs.Outside as said;

use crate::machine::Frame;
use crate::outside::Outside;
use crate::reading::throw_named;
use crate::stacks::{begin_names, is_set, place_of, pop, set_at};
use crate::turn::Turn;
use esm_base::Memory;
use esm_rewriting::Stop;
use esm_values::{FaultKind, RcText, Value, is_true};

/// It is thrown.
pub(crate) fn throw_value(operands: &mut Vec<Value>) -> Result<Turn, Stop>
    ensures { Popped operands.old.items (λ vs v r. Threw vs v r operands.new.items) result }
{
    match pop(operands) {
        Ok(value) => Ok(Turn::Throws(value)),
        Err(Memory) => Err(Stop::Memory),
    }
}

/// It is returned.
pub(crate) fn give(operands: &mut Vec<Value>) -> Result<Turn, Stop>
    ensures { Popped operands.old.items (λ vs v r. Gives vs v r operands.new.items) result }
{
    match pop(operands) {
        Ok(value) => Ok(Turn::Returns(value)),
        Err(Memory) => Err(Stop::Memory),
    }
}

/// One of two places.
fn one_of(first: bool, skip: u32, left: usize) -> Result<Turn, Stop>
    ensures { (vs : List Value) → Chooses first vs skip left result vs }
{
    if first {
        Ok(Turn::On(left))
    } else {
        Ok(Turn::On(skip as usize))
    }
}

/// The first of two branches begins, or the second, behind which so many operations are left.
pub(crate) fn choose(operands: &mut Vec<Value>, skip: u32, left: usize) -> Result<Turn, Stop>
    ensures { Popped operands.old.items (λ vs v r. Chooses (spec.is_true (look_of (value_of v))) vs
        skip left r operands.new.items) result }
{
    match pop(operands) {
        Ok(value) => {
            let truth = is_true(&value);
            one_of(truth, skip, left)
        }
        Err(Memory) => Err(Stop::Memory),
    }
}

/// The name of a function at a place is set to this value.
fn set_place(
    names: &mut Vec<Option<Value>>,
    base: usize,
    place: u32,
    value: Value,
) -> Result<(), Memory>
    ensures { OnOk result (names.new.items
        ≡ slice_set names.old.items (base + place) (Some value)) }
{
    let at = place_of(base, place)?;
    set_at(names, at, value)
}

/// A declaration sets its name.
pub(crate) fn set_local(
    operands: &mut Vec<Value>,
    names: &mut Vec<Option<Value>>,
    frame: Frame,
    place: u32,
    left: usize,
) -> Result<Turn, Stop>
    ensures { SetsAt operands.old.items names.old.items (frame.names + place) left result
        operands.new.items names.new.items }
{
    match pop(operands) {
        Ok(value) => match set_place(names, frame.names, place, value) {
            Ok(()) => Ok(Turn::On(left)),
            Err(Memory) => Err(Stop::Memory),
        },
        Err(Memory) => Err(Stop::Memory),
    }
}

/// Whether the name of a function at a place is set.
fn is_set_there(names: &[Option<Value>], frame: Frame, place: u32) -> Result<bool, Memory>
    ensures { IfOk result (λ set. (v : Option Value)
        × (slice_get names.now (frame.names + place) ≡ Some v) × (set ≡ is_some v)) }
{
    let at = place_of(frame.names, place)?;
    is_set(names, at)
}

/// An assignment of a name of the function: that it is unset is told before that it is a constant.
pub(crate) fn write_local<W: Outside>(
    world: &mut W,
    operands: &mut Vec<Value>,
    names: &mut Vec<Option<Value>>,
    frame: Frame,
    place: u32,
    constant: bool,
    name: Option<&RcText>,
    left: usize,
) -> Result<Turn, Stop>
    ensures { FoundAt names.old.items (frame.names + place) (λ v r. WritesWhere W.state W.modules
        W.linked W.begins W.ready W.keeps (is_some v) constant world.old operands.old.items
        names.old.items (frame.names + place) name.entry left r world.new operands.new.items
        names.new.items) result }
{
    match is_set_there(names.as_slice(), frame, place) {
        Ok(set) => {
            if set {
                write_set(world, operands, names, frame, place, constant, name, left)
            } else {
                throw_named(
                    world,
                    FaultKind::ReferenceError,
                    name,
                    " is not initialized",
                )
            }
        }
        Err(Memory) => Err(Stop::Memory),
    }
}

/// The same of one that is set.
fn write_set<W: Outside>(
    world: &mut W,
    operands: &mut Vec<Value>,
    names: &mut Vec<Option<Value>>,
    frame: Frame,
    place: u32,
    constant: bool,
    name: Option<&RcText>,
    left: usize,
) -> Result<Turn, Stop>
    ensures { WritesWhere W.state W.modules W.linked W.begins W.ready W.keeps true constant
        world.old operands.old.items names.old.items (frame.names + place) name.entry left result
        world.new operands.new.items names.new.items }
{
    if constant {
        throw_named(world, FaultKind::TypeError, name, " is constant")
    } else {
        set_local(operands, names, frame, place, left)
    }
}

/// An assignment of another name.
pub(crate) fn write_name<W: Outside>(
    world: &mut W,
    operands: &mut Vec<Value>,
    frame: Frame,
    name: Option<&RcText>,
    left: usize,
) -> Result<Turn, Stop>
    ensures { WithName name.entry (λ x. Popped operands.old.items (λ vs v r. HeardWrite vs
        (λ told. said.Writes W.state W.modules W.linked W.begins W.ready W.keeps world.old
        frame.at.0 x (value_of v) told world.new) left r operands.new.items) result) result }
{
    match name {
        Some(name) => assign(world, operands, frame, name, left),
        None => Err(Stop::Memory),
    }
}

/// An assignment of the name with this text.
fn assign<W: Outside>(
    world: &mut W,
    operands: &mut Vec<Value>,
    frame: Frame,
    name: &RcText,
    left: usize,
) -> Result<Turn, Stop>
    ensures { Popped operands.old.items (λ vs v r. HeardWrite vs (λ told. said.Writes W.state
        W.modules W.linked W.begins W.ready W.keeps world.old frame.at.0 name.now (value_of v) told
        world.new) left r operands.new.items) result }
{
    match pop(operands) {
        Ok(value) => {
            let told = world.write(frame.at, name.as_str(), value);
            wrote(told, left)
        }
        Err(Memory) => Err(Stop::Memory),
    }
}

/// What follows a write.
fn wrote(told: Result<Option<Value>, Stop>, left: usize) -> Result<Turn, Stop>
    ensures { (vs : List Value) → Wrote vs told left result vs }
{
    match told {
        Ok(None) => Ok(Turn::On(left)),
        Ok(Some(error)) => Ok(Turn::Throws(error)),
        Err(stop) => Err(stop),
    }
}

/// A handler begins, with what was thrown on top.
pub(crate) fn begin_handler(
    operands: &mut Vec<Value>,
    names: &mut Vec<Option<Value>>,
    named: bool,
    count: u32,
    left: usize,
) -> Result<Turn, Stop>
    ensures { Popped operands.old.items (λ vs v r. GoesTo left ((operands.new.items ≡ vs)
        × (names.new.items ≡ names.old.items ++ (caught_by named v ++ replicate count None))) r)
        result }
{
    match pop(operands) {
        Ok(value) => match catch(names, named, value, count) {
            Ok(()) => Ok(Turn::On(left)),
            Err(Memory) => Err(Stop::Memory),
        },
        Err(Memory) => Err(Stop::Memory),
    }
}

/// The names of a handler begin, with that of what was thrown before the others, where it is named.
fn catch(
    names: &mut Vec<Option<Value>>,
    named: bool,
    value: Value,
    count: u32,
) -> Result<(), Memory>
    ensures { OnOk result (names.new.items
        ≡ names.old.items ++ (caught_by named value ++ replicate count None)) }
{
    name_caught(names, named, value)?;
    begin_names(names, count)
}

/// What was thrown gets its name, where it has one.
fn name_caught(names: &mut Vec<Option<Value>>, named: bool, value: Value) -> Result<(), Memory>
    ensures { OnOk result (names.new.items ≡ names.old.items ++ caught_by named value) }
{
    if named {
        names.push(Some(value))?;
        Ok(())
    } else {
        Ok(())
    }
}
