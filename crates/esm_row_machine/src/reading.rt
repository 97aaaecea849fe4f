// Values that are put on top: literals, and the values of names.
ghost use Rattle.std.specs.Prelude.{◌≡◌, IfOk, slice_get, Some, ◌+◌};
ghost use Rattle.esm_row_machine.specs.Changes.{IsTextAt, Put, PutText, Took};
ghost use Rattle.esm_row_machine.specs.Naming.{FoundAt, PutsFound, ThrowsNamed};
ghost use Rattle.esm_row_machine.specs.Asking.{Heard, WithName};
ghost use Rattle.esm_row_machine.specs.Outside as said;

use crate::machine::Frame;
use crate::outside::Outside;
use crate::stacks::{place_of, push, value_at};
use crate::turn::Turn;
use esm_base::Memory;
use esm_expr_eval::Out;
use esm_rewriting::Stop;
use esm_rows::Row;
use esm_values::{FaultKind, RcText, Value};

/// The text at a place of a row.
pub(crate) fn text_at(row: &Row, k: u32) -> Option<&RcText>
    ensures { IsTextAt row.now.texts.items k result }
{
    let at = k as usize;
    if at < row.texts.len() {
        Some(&row.texts[at])
    } else {
        None
    }
}

/// A value is put on top.
pub(crate) fn put(operands: &mut Vec<Value>, value: Value, left: usize) -> Result<Turn, Stop>
    ensures { Put operands.old.items value left result operands.new.items }
{
    match push(operands, value) {
        Ok(()) => Ok(Turn::On(left)),
        Err(Memory) => Err(Stop::Memory),
    }
}

/// A text is put on top.
pub(crate) fn put_text(
    operands: &mut Vec<Value>,
    text: Option<&RcText>,
    left: usize,
) -> Result<Turn, Stop>
    ensures { PutText operands.old.items text.entry left result operands.new.items }
{
    match text {
        Some(text) => put_copy(operands, text, left),
        None => Err(Stop::Memory),
    }
}

/// The same text is put on top, shared from now on.
fn put_copy(operands: &mut Vec<Value>, text: &RcText, left: usize) -> Result<Turn, Stop>
    ensures { Put operands.old.items (Value.Text text.now) left result operands.new.items }
{
    match text.clone() {
        Ok(text) => put(operands, Value::Text(text), left),
        Err(_) => Err(Stop::Memory),
    }
}

/// What the world told is put on top, or thrown.
pub(crate) fn take(
    operands: &mut Vec<Value>,
    told: Result<Out, Stop>,
    left: usize,
) -> Result<Turn, Stop>
    ensures { Took operands.old.items told left result operands.new.items }
{
    match told {
        Ok(out) => take_out(operands, out, left),
        Err(stop) => Err(stop),
    }
}

/// A value is put on top, or thrown.
fn take_out(operands: &mut Vec<Value>, told: Out, left: usize) -> Result<Turn, Stop>
    ensures { Took operands.old.items (Ok told) left result operands.new.items }
{
    match told {
        Out::Value(value) => put(operands, value, left),
        Out::Thrown(value) => Ok(Turn::Throws(value)),
    }
}

/// A new error is thrown whose message is a name and these words.
pub(crate) fn throw_named<W: Outside>(
    world: &mut W,
    kind: FaultKind,
    name: Option<&RcText>,
    words: &str,
) -> Result<Turn, Stop>
    ensures { ThrowsNamed W.state W.modules W.linked W.begins W.ready W.keeps world.old kind
        name.entry words.now result world.new }
{
    match name {
        Some(name) => match world.fault_named(kind, name.as_str(), words) {
            Ok(error) => Ok(Turn::Throws(error)),
            Err(stop) => Err(stop),
        },
        None => Err(Stop::Memory),
    }
}

/// The value of the name of a function at a place, where it is set.
fn local_value(names: &[Option<Value>], base: usize, place: u32) -> Result<Option<Value>, Memory>
    ensures { IfOk result (λ v. slice_get names.now (base + place) ≡ Some v) }
{
    let at = place_of(base, place)?;
    value_at(names, at)
}

/// The value of a name is put on top, where it is set.
fn put_found<W: Outside>(
    world: &mut W,
    operands: &mut Vec<Value>,
    found: Option<Value>,
    name: Option<&RcText>,
    left: usize,
) -> Result<Turn, Stop>
    ensures { PutsFound W.state W.modules W.linked W.begins W.ready W.keeps world.old
        operands.old.items found name.entry left result world.new operands.new.items }
{
    match found {
        Some(value) => put(operands, value, left),
        None => throw_named(
            world,
            FaultKind::ReferenceError,
            name,
            " is not initialized",
        ),
    }
}

/// The value of a name of the function is.
pub(crate) fn read_local<W: Outside>(
    world: &mut W,
    operands: &mut Vec<Value>,
    names: &[Option<Value>],
    frame: Frame,
    place: u32,
    name: Option<&RcText>,
    left: usize,
) -> Result<Turn, Stop>
    ensures { FoundAt names.now (frame.names + place) (λ v r. PutsFound W.state W.modules W.linked
        W.begins W.ready W.keeps world.old operands.old.items v name.entry left r world.new
        operands.new.items) result }
{
    match local_value(names, frame.names, place) {
        Ok(found) => put_found(world, operands, found, name, left),
        Err(Memory) => Err(Stop::Memory),
    }
}

/// The value of another name is.
pub(crate) fn read_name<W: Outside>(
    world: &mut W,
    operands: &mut Vec<Value>,
    frame: Frame,
    name: Option<&RcText>,
    left: usize,
) -> Result<Turn, Stop>
    ensures { WithName name.entry (λ x. Heard operands.old.items (λ told. said.Reads W.state
        W.modules W.linked W.begins W.ready W.keeps world.old frame.at.0 x told world.new) left
        result operands.new.items) result }
{
    match name {
        Some(name) => read(world, operands, frame, name, left),
        None => Err(Stop::Memory),
    }
}

/// The value of the name with this text is.
fn read<W: Outside>(
    world: &mut W,
    operands: &mut Vec<Value>,
    frame: Frame,
    name: &RcText,
    left: usize,
) -> Result<Turn, Stop>
    ensures { Heard operands.old.items (λ told. said.Reads W.state W.modules W.linked W.begins
        W.ready W.keeps world.old frame.at.0 name.now told world.new) left result
        operands.new.items }
{
    let told = world.read(frame.at, name.as_str());
    take(operands, told, left)
}
