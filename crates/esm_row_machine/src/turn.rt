// One operation of a row.
ghost use Rattle.std.specs.Prelude.{◌≡◌, ◌+◌, ◌-◌, ◌++◌, ◌∷◌, [], length, replicate, slice_get, take, Some};
ghost use Rattle.esm_row_machine.specs.Naming.{GoesTo, WithoutLast, handler_with};
ghost use Rattle.esm_row_machine.specs.Turns.{TurnsOn};
ghost use Rattle.esm_row_machine.specs.Asking.{HeardValue};
ghost use Rattle.esm_row_machine.specs.Outside as said;

use crate::machine::{Frame, Handler, Machine};
use crate::operators::{
    add, and_also, compare, import, make_error, member, or_else, print, turn_over,
};
use crate::outside::Outside;
use crate::reading::{put, put_text, read_local, read_name, text_at};
use crate::stacks::{begin_names, end_names, pop_handler, push_handler};
use crate::uses::{begin_handler, choose, give, set_local, throw_value, write_local, write_name};
use esm_base::Memory;
use esm_rewriting::Stop;
use esm_rows::{Op, Row};
use esm_values::Value;

/// What an operation comes to.
#[derive(Drop)]
pub(crate) enum Turn {
    /// So many operations are left.
    On(usize),
    /// A function is called with so many arguments, and so many operations are left behind it.
    Calls(u32, usize),
    /// The function returns this value.
    Returns(Value),
    /// This value is thrown.
    Throws(Value),
}

/// A block begins.
fn enter(names: &mut Vec<Option<Value>>, count: u32, left: usize) -> Result<Turn, Stop>
    ensures { GoesTo left (names.new.items ≡ names.old.items ++ replicate count None) result }
{
    match begin_names(names, count) {
        Ok(()) => Ok(Turn::On(left)),
        Err(Memory) => Err(Stop::Memory),
    }
}

/// A block ends.
fn leave(names: &mut Vec<Option<Value>>, count: u32, left: u32) -> Result<Turn, Stop>
    ensures { GoesTo left (names.new.items
        ≡ take (length names.old.items - count) names.old.items) result }
{
    match end_names(names, count) {
        Ok(()) => Ok(Turn::On(left as usize)),
        Err(Memory) => Err(Stop::Memory),
    }
}

/// The block of a `try` begins.
fn enter_try(
    names: &mut Vec<Option<Value>>,
    handlers: &mut Vec<Handler>,
    count: u32,
    handler: u32,
    left: usize,
) -> Result<Turn, Stop>
    ensures { GoesTo left ((names.new.items ≡ names.old.items ++ replicate count None)
        × (handlers.new.items ≡ handlers.old.items
        ++ handler_with handler (length names.old.items) ∷ [])) result }
{
    let handler = Handler {
        left: handler as usize,
        names: names.len(),
    };
    match push_handler(handlers, handler) {
        Ok(()) => enter(names, count, left),
        Err(Memory) => Err(Stop::Memory),
    }
}

/// It ends.
fn leave_try(
    names: &mut Vec<Option<Value>>,
    handlers: &mut Vec<Handler>,
    count: u32,
    left: u32,
) -> Result<Turn, Stop>
    ensures { GoesTo left ((names.new.items
        ≡ take (length names.old.items - count) names.old.items)
        × WithoutLast handlers.old.items handlers.new.items) result }
{
    match pop_handler(handlers) {
        Ok(_handler) => leave(names, count, left),
        Err(Memory) => Err(Stop::Memory),
    }
}

/// The URL of the module is put on top.
fn put_url<W: Outside>(
    world: &W,
    operands: &mut Vec<Value>,
    frame: Frame,
    left: usize,
) -> Result<Turn, Stop>
    ensures { HeardValue operands.old.items (λ told. said.IsUrl W.state W.modules W.linked W.begins
        W.ready W.keeps world.now frame.at.0 told) left result operands.new.items }
{
    match world.url(frame.at) {
        Ok(url) => put(operands, url, left),
        Err(Memory) => Err(Stop::Memory),
    }
}

/// A value is put on top: one that the operation tells, the URL of the module, or the value of a name.
fn put_value<W: Outside>(
    world: &mut W,
    machine: &mut Machine,
    frame: Frame,
    row: &Row,
    op: Op,
    left: usize,
) -> Result<Turn, Stop>
    ensures { slice_get row.now.ops.items left ≡ Some op → TurnsOn W.state W.modules W.linked
        W.begins W.ready W.keeps W.owns world.old machine.old frame (left + 1) row.now result world.new machine.new }
{
    match op {
        Op::Text(k) => put_text(&mut machine.operands, text_at(row, k), left),
        Op::Truth(truth) => put(&mut machine.operands, Value::Bool(truth), left),
        Op::Undefined => put(&mut machine.operands, Value::Undefined, left),
        Op::Url => put_url(world, &mut machine.operands, frame, left),
        Op::Local(place, k) => read_local(
            world,
            &mut machine.operands,
            machine.names.as_slice(),
            frame,
            place,
            text_at(row, k),
            left,
        ),
        Op::Name(k) => read_name(world, &mut machine.operands, frame, text_at(row, k), left),
        _ => Err(Stop::Memory),
    }
}

/// Values are taken from the top, and their truth or sameness tells what follows.
fn decide<W: Outside>(
    _world: &W,
    machine: &mut Machine,
    _frame: Frame,
    _row: &Row,
    op: Op,
    left: usize,
) -> Result<Turn, Stop>
    ensures { slice_get _row.now.ops.items left ≡ Some op → TurnsOn W.state W.modules W.linked
        W.begins W.ready W.keeps W.owns _world.now machine.old _frame (left + 1) _row.now result _world.now machine.new }
{
    match op {
        Op::OrElse(skip) => or_else(&mut machine.operands, skip, left),
        Op::AndAlso(skip) => and_also(&mut machine.operands, skip, left),
        Op::Choose(skip) => choose(&mut machine.operands, skip, left),
        Op::Compare(alike) => compare(&mut machine.operands, alike, left),
        Op::Not => turn_over(&mut machine.operands, left),
        _ => Err(Stop::Memory),
    }
}

/// Values are taken from the top, and what the world makes of them is put there, or thrown.
fn ask<W: Outside>(
    world: &mut W,
    machine: &mut Machine,
    frame: Frame,
    row: &Row,
    op: Op,
    left: usize,
) -> Result<Turn, Stop>
    ensures { slice_get row.now.ops.items left ≡ Some op → TurnsOn W.state W.modules W.linked
        W.begins W.ready W.keeps W.owns world.old machine.old frame (left + 1) row.now result world.new machine.new }
{
    match op {
        Op::Add => add(world, &mut machine.operands, left),
        Op::Member(k) => member(world, &mut machine.operands, text_at(row, k), left),
        Op::Print(count) => print(world, &mut machine.operands, count, left),
        Op::NewError => make_error(world, &mut machine.operands, left),
        Op::Import => import(world, &mut machine.operands, frame, left),
        _ => Err(Stop::Memory),
    }
}

/// The value on top is taken for a name.
fn write<W: Outside>(
    world: &mut W,
    machine: &mut Machine,
    frame: Frame,
    row: &Row,
    op: Op,
    left: usize,
) -> Result<Turn, Stop>
    ensures { slice_get row.now.ops.items left ≡ Some op → TurnsOn W.state W.modules W.linked
        W.begins W.ready W.keeps W.owns world.old machine.old frame (left + 1) row.now result world.new machine.new }
{
    match op {
        Op::SetLocal(place) => set_local(
            &mut machine.operands,
            &mut machine.names,
            frame,
            place,
            left,
        ),
        Op::WriteLocal(place, k) => write_local(
            world,
            &mut machine.operands,
            &mut machine.names,
            frame,
            place,
            false,
            text_at(row, k),
            left,
        ),
        Op::WriteConstant(place, k) => write_local(
            world,
            &mut machine.operands,
            &mut machine.names,
            frame,
            place,
            true,
            text_at(row, k),
            left,
        ),
        Op::WriteName(k) => {
            write_name(world, &mut machine.operands, frame, text_at(row, k), left)
        }
        _ => Err(Stop::Memory),
    }
}

/// A block, a `try` or a handler begins or ends.
fn change_block<W: Outside>(
    _world: &W,
    machine: &mut Machine,
    _frame: Frame,
    _row: &Row,
    op: Op,
    left: usize,
) -> Result<Turn, Stop>
    ensures { slice_get _row.now.ops.items left ≡ Some op → TurnsOn W.state W.modules W.linked
        W.begins W.ready W.keeps W.owns _world.now machine.old _frame (left + 1) _row.now result _world.now machine.new }
{
    match op {
        Op::Enter(count) => enter(&mut machine.names, count, left),
        Op::Leave(count, skip) => leave(&mut machine.names, count, skip),
        Op::Try(count, handler) => enter_try(
            &mut machine.names,
            &mut machine.handlers,
            count,
            handler,
            left,
        ),
        Op::EndTry(count, skip) => leave_try(
            &mut machine.names,
            &mut machine.handlers,
            count,
            skip,
        ),
        Op::Caught(count) => begin_handler(
            &mut machine.operands,
            &mut machine.names,
            true,
            count,
            left,
        ),
        Op::CaughtUnnamed(count) => begin_handler(
            &mut machine.operands,
            &mut machine.names,
            false,
            count,
            left,
        ),
        _ => Err(Stop::Memory),
    }
}

/// One operation, behind which so many are left. Some are done by the loop over rows itself.
pub(crate) fn operate<W: Outside>(
    world: &mut W,
    machine: &mut Machine,
    frame: Frame,
    row: &Row,
    op: Op,
    left: usize,
) -> Result<Turn, Stop>
    ensures { slice_get row.now.ops.items left ≡ Some op → TurnsOn W.state W.modules W.linked
        W.begins W.ready W.keeps W.owns world.old machine.old frame (left + 1) row.now result world.new machine.new }
{
    match op {
        Op::Text(_) | Op::Truth(_) | Op::Undefined | Op::Url | Op::Local(_, _) | Op::Name(_) => {
            put_value(world, machine, frame, row, op, left)
        }
        Op::OrElse(_) | Op::AndAlso(_) | Op::Choose(_) | Op::Compare(_) | Op::Not => {
            decide(world, machine, frame, row, op, left)
        }
        Op::Add | Op::Member(_) | Op::Print(_) | Op::NewError | Op::Import => {
            ask(world, machine, frame, row, op, left)
        }
        Op::SetLocal(_) | Op::WriteLocal(_, _) | Op::WriteConstant(_, _) | Op::WriteName(_) => {
            write(world, machine, frame, row, op, left)
        }
        Op::Enter(_)
        | Op::Leave(_, _)
        | Op::Try(_, _)
        | Op::EndTry(_, _)
        | Op::Caught(_)
        | Op::CaughtUnnamed(_) => change_block(world, machine, frame, row, op, left),
        Op::Call(count) => Ok(Turn::Calls(count, left)),
        Op::Throw => throw_value(&mut machine.operands),
        Op::Return => give(&mut machine.operands),
        Op::End => Ok(Turn::Returns(Value::Undefined)),
        // What the loop over rows does itself.
        Op::Step | Op::Own(_) | Op::Drop => Err(Stop::Memory),
        // What no function does.
        Op::SetName(_) | Op::PrintAwaited | Op::Await => Err(Stop::Memory),
    }
}
