// A function that a body calls runs to its end, with all that it calls.
ghost use Rattle.esm_values.specs.Code.{values_of};
ghost use Rattle.esm_row_machine.specs.Follows.{CalledBy, FollowsTurn, Runs};
ghost use Rattle.esm_row_machine.specs.Shortcuts.{GoesFrom, HasRow};

use crate::calls::{call_value, first};
use crate::ending::give_back;
use crate::machine::{Frame, Machine};
use crate::outside::Outside;
use crate::rows::Rows;
use crate::shortcuts::{do_here, leave_here, op_at, operate_at, row_here};
use crate::throws::throw;
use crate::turn::Turn;
use esm_base::Memory;
use esm_rewriting::Stop;
use esm_rows::{Op, Row};
use esm_values::{FuncId, Value};

/// What follows operations.
#[derive(Drop)]
pub(crate) enum Next {
    /// This function goes on.
    Goes(Frame),
    /// The outermost function gave this value.
    Gave(Value),
    /// It threw this.
    Thrown(Value),
}

/// What a call comes to.
#[derive(Drop)]
pub enum Ending {
    /// The function gives this value.
    Value(Value),
    /// It throws this.
    Thrown(Value),
}

/// Functions run, the one with this row first, up to an operation that leaves its row and that nothing follows in
/// place. What calls are made of is done here, all else by `operate`. The frame tells how many operations were left when
/// it was last changed.
#[inline(always)]
fn turns<'a, W: Outside>(
    world: &mut W,
    machine: &mut Machine,
    rows: &'a Rows,
    start: &'a Row,
    frame: &mut Frame,
) -> Result<Turn, Stop>
    requires { HasRow rows.now frame.old start.now }
    ensures { GoesFrom W.state W.modules W.linked W.begins W.ready W.keeps W.owns
        world.old machine.old rows.now frame.old result world.new machine.new frame.new }
{
    let mut row = start;
    let mut left = frame.left;
    'functions: for _ in 0..u64::MAX {
        'turning: while left > 0 {
            left = left - 1;
            let op = op_at(row, left);
            match op {
                Op::Step | Op::Own(_) | Op::Drop => match do_here(world, machine, frame.at, op) {
                    Ok(thrown) => match thrown {
                        None => continue,
                        Some(error) => return Ok(Turn::Throws(error)),
                    },
                    Err(stop) => return Err(stop),
                },
                Op::Call(_) | Op::Return | Op::End => match leave_here(
                    world, machine, rows, frame, op, left,
                ) {
                    Ok(next) => match next {
                        Some(next) => {
                            row = next;
                            left = frame.left;
                            continue 'functions;
                        }
                        None => return operate_at(world, machine, *frame, row, left),
                    },
                    Err(stop) => return Err(stop),
                },
                _ => match operate_at(world, machine, *frame, row, left) {
                    Ok(told) => match told {
                        Turn::On(next) => left = next,
                        _ => return Ok(told),
                    },
                    Err(stop) => return Err(stop),
                },
            }
        }
        return Err(Stop::Memory);
    }
    Err(Stop::Memory)
}

/// What follows an operation that left its row.
// Not inlined, so that the loop of `run` stays small.
#[inline(never)]
fn follow<W: Outside>(
    world: &mut W,
    machine: &mut Machine,
    rows: &mut Rows,
    frame: Frame,
    turn: Turn,
) -> Result<Next, Stop>
    ensures { FollowsTurn W.state W.modules W.linked W.begins W.ready W.keeps W.owns
        world.old machine.old rows.old frame turn result world.new machine.new rows.new }
{
    match turn {
        Turn::On(left) => Ok(Next::Goes(Frame { left, ..frame })),
        Turn::Calls(arguments, left) => {
            call_value(world, machine, rows, Frame { left, ..frame }, arguments)
        }
        Turn::Returns(value) => give_back(world, machine, frame, value),
        Turn::Throws(value) => throw(world, machine, frame, value),
    }
}

/// Functions run, the one that the frame tells first, up to an operation that leaves its row and that nothing follows
/// in place.
#[inline(always)]
fn go_on<W: Outside>(
    world: &mut W,
    machine: &mut Machine,
    rows: &Rows,
    frame: &mut Frame,
) -> Result<Turn, Stop>
    ensures { GoesFrom W.state W.modules W.linked W.begins W.ready W.keeps W.owns
        world.old machine.old rows.now frame.old result world.new machine.new frame.new }
{
    match row_here(rows, *frame) {
        Some(row) => turns(world, machine, rows, row, frame),
        None => Err(Stop::Memory),
    }
}

/// Functions run, until the outermost one is over.
#[inline(never)]
fn run<W: Outside>(
    world: &mut W,
    machine: &mut Machine,
    rows: &mut Rows,
    frame: Frame,
) -> Result<Ending, Stop>
    ensures { Runs W.state W.modules W.linked W.begins W.ready W.keeps W.owns
        world.old machine.old rows.old frame result world.new rows.new }
{
    let mut here = frame;
    'running: for _ in 0..u64::MAX {
        match go_on(world, machine, rows, &mut here) {
            Ok(turn) => match follow(world, machine, rows, here, turn) {
                Ok(next) => match next {
                    Next::Goes(frame) => here = frame,
                    Next::Gave(value) => return Ok(Ending::Value(value)),
                    Next::Thrown(value) => return Ok(Ending::Thrown(value)),
                },
                Err(stop) => return Err(stop),
            },
            Err(stop) => return Err(stop),
        }
    }
    Err(Stop::Memory)
}

/// The function with this id runs with these values to its end: it gives a value, or throws one. A limit ends it as
/// `Stop::Limit`; where memory runs out nothing is said. What was on the stacks goes; the rows that were made stay.
///
/// ECMA-262, EvaluateCall.
pub fn call<W: Outside>(
    world: &mut W,
    machine: &mut Machine,
    rows: &mut Rows,
    function: FuncId,
    values: Vec<Value>,
) -> Result<Ending, Stop>
    ensures { CalledBy W.state W.modules W.linked W.begins W.ready W.keeps W.owns
        world.old rows.old function (values_of values.items) result world.new rows.new }
{
    match first(world, machine, rows, function, values) {
        Ok(frame) => run(world, machine, rows, frame),
        Err(Memory) => Err(Stop::Memory),
    }
}
