// How the loop over rows reads them, and what it does itself: the value of a name of the module, calls of functions
// whose rows are there, and ends and returns of functions for which others wait. The frame that runs is changed where
// it stands.
ghost use Rattle.std.specs.Prelude.{◌≡◌, ◌<◌, ◌+◌, length, slice_get, Some};
ghost use Rattle.esm_row_machine.specs.Outside as said;
ghost use Rattle.esm_row_machine.specs.Asking.{HeardOrThrown};
ghost use Rattle.esm_row_machine.specs.Turns.{TurnsOn};
ghost use Rattle.esm_row_machine.specs.Shortcuts.{BeginsFrom, CallsFrom, DoneHere, EndsFrom, EntersHere, FoundFrom, GivenHere, IsOnward, IsRowHere, LeadsOn, LeavesFrom, ResumesFrom, ReturnsFrom, at_left};

use crate::calls::{callee, enter, push_frame};
use crate::machine::{Frame, Machine};
use crate::outside::Outside;
use crate::rows::Rows;
use crate::stacks::{keep_handlers, keep_names, pop, push};
use crate::turn::{Turn, operate};
use esm_base::{MAX_CALL_DEPTH, Memory, ModuleId};
use esm_expr_eval::Out;
use esm_rewriting::Stop;
use esm_rows::{Op, Row};
use esm_values::{FuncId, Value};

/// The row of a function, if it was made and has as many operations as are left.
#[inline(always)]
pub(crate) fn row_here(rows: &Rows, frame: Frame) -> Option<&Row>
    ensures { IsRowHere rows.now frame result }
{
    match rows.find(frame.at, frame.function) {
        Some(row) => {
            if frame.left > row.ops.len() {
                return None;
            }
            Some(row)
        }
        None => None,
    }
}

/// The operation at a place of a row.
#[inline(always)]
pub(crate) fn op_at(row: &Row, place: usize) -> Op
    requires { place < length row.now.ops.items }
    ensures { slice_get row.now.ops.items place ≡ Some result }
{
    row.ops[place]
}

/// The operation at a place of its row is done. It leads no further back than it stands.
// Not inlined, so that the loop over rows stays small.
#[inline(never)]
pub(crate) fn operate_at<W: Outside>(
    world: &mut W,
    machine: &mut Machine,
    frame: Frame,
    row: &Row,
    left: usize,
) -> Result<Turn, Stop>
    requires { left < length row.now.ops.items }
    ensures turns { TurnsOn W.state W.modules W.linked W.begins W.ready W.keeps W.owns
        world.old machine.old frame (left + 1) row.now result world.new machine.new }
    ensures leads { LeadsOn left result }
{
    match operate(world, machine, frame, row, op_at(row, left), left) {
        Ok(turn) => onward(turn, left),
        Err(stop) => Err(stop),
    }
}

/// The same turn, where no more operations are left than so many.
#[inline(always)]
fn onward(turn: Turn, left: usize) -> Result<Turn, Stop>
    ensures { IsOnward left turn result }
{
    match turn {
        Turn::On(next) => {
            if next > left {
                return Err(Stop::Memory);
            }
            Ok(Turn::On(next))
        }
        Turn::Calls(arguments, behind) => Ok(Turn::Calls(arguments, behind)),
        Turn::Returns(value) => Ok(Turn::Returns(value)),
        Turn::Throws(value) => Ok(Turn::Throws(value)),
    }
}

/// The value of the name at a place of the module is put on top, or what is thrown is given.
#[inline(always)]
pub(crate) fn put_own<W: Outside>(
    world: &mut W,
    operands: &mut Vec<Value>,
    m: ModuleId,
    place: u32,
) -> Result<Option<Value>, Stop>
    ensures { HeardOrThrown operands.old.items (λ told. said.ReadsPlace W.state W.modules W.linked
        W.begins W.ready W.keeps W.owns world.old m.0 place told world.new) result
        operands.new.items }
{
    match world.read_own(m, place) {
        Ok(out) => match out {
            Out::Value(value) => match push(operands, value) {
                Ok(()) => Ok(None),
                Err(Memory) => Err(Stop::Memory),
            },
            Out::Thrown(error) => Ok(Some(error)),
        },
        Err(stop) => Err(stop),
    }
}

/// A step, a name of the module that is put on top, or a value that goes; what is thrown is given.
#[inline(always)]
pub(crate) fn do_here<W: Outside>(
    world: &mut W,
    machine: &mut Machine,
    m: ModuleId,
    op: Op,
) -> Result<Option<Value>, Stop>
    ensures { DoneHere W.state W.modules W.linked W.begins W.ready W.keeps W.owns world.old
        machine.old m.0 op result world.new machine.new }
{
    match op {
        Op::Step => match world.step() {
            Ok(()) => Ok(None),
            Err(stop) => Err(stop),
        },
        Op::Own(place) => put_own(world, &mut machine.operands, m, place),
        Op::Drop => match pop(&mut machine.operands) {
            Ok(_value) => Ok(None),
            Err(Memory) => Err(Stop::Memory),
        },
        _ => Err(Stop::Memory),
    }
}

/// The function with this row begins where the frame is, whose function waits.
#[inline(always)]
fn enter_here(
    machine: &mut Machine,
    row: &Row,
    frame: &mut Frame,
    function: FuncId,
    arguments: usize,
    left: usize,
) -> Result<(), Stop>
    ensures { EntersHere machine.old row.now (at_left frame.old left) function arguments result
        frame.new machine.new }
{
    match enter(machine, row, function, arguments) {
        Ok(callee) => {
            let caller = Frame { left, ..*frame };
            match push_frame(&mut machine.frames, caller) {
                Ok(()) => {
                    *frame = callee;
                    Ok(())
                }
                Err(Memory) => Err(Stop::Memory),
            }
        }
        Err(Memory) => Err(Stop::Memory),
    }
}

/// The call takes its step, and the function with this row begins.
#[inline(always)]
fn begin_here<'a, W: Outside>(
    world: &mut W,
    machine: &mut Machine,
    row: &'a Row,
    frame: &mut Frame,
    function: FuncId,
    arguments: usize,
    left: usize,
) -> Result<&'a Row, Stop>
    ensures { BeginsFrom W.state W.modules W.linked W.begins W.ready W.keeps W.owns world.old
        machine.old row.now frame.old function arguments left result world.new machine.new
        frame.new }
{
    match world.step() {
        Ok(()) => match enter_here(machine, row, frame, function, arguments, left) {
            Ok(()) => Ok(row),
            Err(stop) => Err(stop),
        },
        Err(stop) => Err(stop),
    }
}

/// This function is called, where its row is there. Else nothing is done.
#[inline(always)]
fn call_found<'a, W: Outside>(
    world: &mut W,
    machine: &mut Machine,
    rows: &'a Rows,
    frame: &mut Frame,
    function: FuncId,
    arguments: u32,
    left: usize,
) -> Result<Option<&'a Row>, Stop>
    ensures { FoundFrom W.state W.modules W.linked W.begins W.ready W.keeps W.owns world.old
        machine.old rows.now frame.old function arguments left result world.new machine.new
        frame.new }
{
    match rows.find(function.module, function.index) {
        Some(row) => match begin_here(
            world,
            machine,
            row,
            frame,
            function,
            arguments as usize,
            left,
        ) {
            Ok(begun) => Ok(Some(begun)),
            Err(stop) => Err(stop),
        },
        None => Ok(None),
    }
}

/// The value below so many arguments is called, where it is a function whose row is there, and fewer functions are
/// active than may be. Else nothing is done.
///
/// ECMA-262, EvaluateCall.
#[inline(always)]
fn call_here<'a, W: Outside>(
    world: &mut W,
    machine: &mut Machine,
    rows: &'a Rows,
    frame: &mut Frame,
    arguments: u32,
    left: usize,
) -> Result<Option<&'a Row>, Stop>
    ensures { CallsFrom W.state W.modules W.linked W.begins W.ready W.keeps W.owns world.old
        machine.old rows.now frame.old arguments left result world.new machine.new frame.new }
{
    if machine.frames.len() + 1 >= MAX_CALL_DEPTH as usize {
        return Ok(None);
    }
    match callee(machine.operands.as_slice(), arguments as usize) {
        Some(function) => call_found(world, machine, rows, frame, function, arguments, left),
        None => Ok(None),
    }
}

/// A value is put on top for the function that waited, which is the one that runs from now on.
#[inline(always)]
fn give_here<'a>(
    operands: &mut Vec<Value>,
    rows: &'a Rows,
    frame: &mut Frame,
    caller: Frame,
    value: Value,
) -> Result<&'a Row, Stop>
    ensures { GivenHere rows.now operands.old.items caller value result frame.new
        operands.new.items }
{
    match push(operands, value) {
        Ok(()) => match row_here(rows, caller) {
            Some(row) => {
                set_frame(frame, caller);
                Ok(row)
            }
            None => Err(Stop::Memory),
        },
        Err(Memory) => Err(Stop::Memory),
    }
}

/// A function is over, and its value is given to the function that waits for it.
#[inline(always)]
fn resume_here<'a, W: Outside>(
    _world: &W,
    machine: &mut Machine,
    rows: &'a Rows,
    frame: &mut Frame,
    value: Value,
) -> Result<&'a Row, Stop>
    ensures { ResumesFrom W.state W.modules W.linked W.begins W.ready W.keeps W.owns
        _world.now machine.old rows.now frame.old value result machine.new frame.new }
{
    keep_names(&mut machine.names, frame.names);
    keep_handlers(&mut machine.handlers, frame.handlers);
    match machine.frames.pop() {
        Some(caller) => give_here(&mut machine.operands, rows, frame, caller, value),
        None => Err(Stop::Memory),
    }
}

/// This function runs from now on. Its fields are set one by one, since what reads them next does so too.
#[inline(always)]
fn set_frame(frame: &mut Frame, to: Frame)
    ensures { frame.new ≡ to }
{
    frame.at = to.at;
    frame.function = to.function;
    frame.left = to.left;
    frame.names = to.names;
    frame.operands = to.operands;
    frame.handlers = to.handlers;
}

/// A function is over, and the value on top is given to the function that waits for it. Where none waits, nothing is
/// done.
#[inline(always)]
fn return_here<'a, W: Outside>(
    world: &W,
    machine: &mut Machine,
    rows: &'a Rows,
    frame: &mut Frame,
) -> Result<Option<&'a Row>, Stop>
    ensures { ReturnsFrom W.state W.modules W.linked W.begins W.ready W.keeps W.owns world.now
        machine.old rows.now frame.old result machine.new frame.new }
{
    if machine.frames.is_empty() {
        return Ok(None);
    }
    match pop(&mut machine.operands) {
        Ok(value) => match resume_here(world, machine, rows, frame, value) {
            Ok(row) => Ok(Some(row)),
            Err(stop) => Err(stop),
        },
        Err(Memory) => Err(Stop::Memory),
    }
}

/// A function is over, and undefined is given to the function that waits for it. Where none waits, nothing is done.
#[inline(always)]
fn end_here<'a, W: Outside>(
    world: &W,
    machine: &mut Machine,
    rows: &'a Rows,
    frame: &mut Frame,
) -> Result<Option<&'a Row>, Stop>
    ensures { EndsFrom W.state W.modules W.linked W.begins W.ready W.keeps W.owns world.now
        machine.old rows.now frame.old result machine.new frame.new }
{
    if machine.frames.is_empty() {
        return Ok(None);
    }
    match resume_here(world, machine, rows, frame, Value::Undefined) {
        Ok(row) => Ok(Some(row)),
        Err(stop) => Err(stop),
    }
}

/// A call, a return or an end: where another function runs from now on, this is its row. Else nothing is done.
#[inline(always)]
pub(crate) fn leave_here<'a, W: Outside>(
    world: &mut W,
    machine: &mut Machine,
    rows: &'a Rows,
    frame: &mut Frame,
    op: Op,
    left: usize,
) -> Result<Option<&'a Row>, Stop>
    ensures { LeavesFrom W.state W.modules W.linked W.begins W.ready W.keeps W.owns world.old
        machine.old rows.now frame.old op left result world.new machine.new frame.new }
{
    match op {
        Op::Call(arguments) => call_here(world, machine, rows, frame, arguments, left),
        Op::Return => return_here(world, machine, rows, frame),
        Op::End => end_here(world, machine, rows, frame),
        _ => Ok(None),
    }
}
