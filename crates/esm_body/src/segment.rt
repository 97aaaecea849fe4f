// A segment of a body: turns until the body ends, a throw leaves it, it stands at an await, or a limit is passed.
ghost use Rattle.std.specs.Prelude.{◌≡◌, length, OnOk};
ghost use Rattle.std.specs.Arc.{arc_value};
ghost use Rattle.esm_body.specs.Inner.Turn.{IsCalling, IsOutcome, MayTurn, Turned};
ghost use Rattle.esm_body.specs.Code.{IsCode};
ghost use Rattle.esm_body.specs.Inner.Running.{Followed, HasRows, IsPlace, MayFollow, MayRun, Ran, RanBehind, Stepped, Went, place_rest};

use crate::functions::Functions;
use crate::importer::Importer;
use crate::inside::Inside;
use crate::turn::{Outcome, advance, throw, turn};
use crate::work::{Doing, Use};
use esm_rewriting::Stop;
use esm_row_machine::Ending;
use esm_values::{FuncId, Value};

/// How a segment ends.
#[derive(Drop)]
pub(crate) enum Ended {
    /// The body is at its end.
    Normal,
    /// This value is thrown, and leaves the body.
    Thrown(Value),
    /// The body stands at an await of this value, which is for this.
    Awaits(Value, Use),
}

/// Where code goes on.
#[derive(Drop)]
pub(crate) enum Place {
    /// With what remains.
    Turn,
    /// With the expression that called a function, which gave this value.
    Gives(Box<Doing>, Value),
    /// With a throw of the function that this expression called.
    Throws(Box<Doing>, Value),
}

/// What follows an outcome.
#[derive(Drop)]
pub(crate) enum Next {
    /// Code goes on.
    Goes(Place),
    /// The segment ends.
    Over(Ended),
}

/// A function runs with these values to its end, and the expression that called it goes on.
fn call<I: Importer>(
    inside: &mut Inside<'_, I>,
    functions: &mut Functions,
    function: FuncId,
    values: Vec<Value>,
    doing: Box<Doing>,
) -> Result<Next, Stop>
    requires code { IsCode inside.old.code.now }
    requires calling { IsCalling (length (arc_value inside.old.code.now.tree).stmts) doing.value }
    requires rows { HasRows I.seen I.modules I.linked I.fits I.begins inside.old
        functions.old.rows }
    requires fits { MayFollow I.seen I.modules I.linked I.fits I.begins inside.old
        (Outcome.Calls function values doing) }
    ensures follows { Followed I.seen I.modules I.linked I.fits I.begins inside.old
        (Outcome.Calls function values doing) result inside.new }
    ensures rows { OnOk result (HasRows I.seen I.modules I.linked I.fits I.begins inside.new
        functions.new.rows) }
{
    match esm_row_machine::call(
        inside,
        &mut functions.machine,
        &mut functions.rows,
        function,
        values,
    ) {
        Ok(Ending::Value(value)) => Ok(Next::Goes(Place::Gives(doing, value))),
        Ok(Ending::Thrown(value)) => Ok(Next::Goes(Place::Throws(doing, value))),
        Err(stop) => Err(stop),
    }
}

/// What follows an outcome.
fn follow<I: Importer>(
    inside: &mut Inside<'_, I>,
    functions: &mut Functions,
    outcome: Outcome,
) -> Result<Next, Stop>
    requires code { IsCode inside.old.code.now }
    requires outcome { IsOutcome (length (arc_value inside.old.code.now.tree).stmts) outcome }
    requires rows { HasRows I.seen I.modules I.linked I.fits I.begins inside.old
        functions.old.rows }
    requires fits { MayFollow I.seen I.modules I.linked I.fits I.begins inside.old outcome }
    ensures follows { Followed I.seen I.modules I.linked I.fits I.begins inside.old outcome result
        inside.new }
    ensures rows { OnOk result (HasRows I.seen I.modules I.linked I.fits I.begins inside.new
        functions.new.rows) }
{
    match outcome {
        Outcome::On => Ok(Next::Goes(Place::Turn)),
        Outcome::Done => Ok(Next::Over(Ended::Normal)),
        Outcome::Returns(_value) => unreachable!(),
        Outcome::Thrown(value) => Ok(Next::Over(Ended::Thrown(value))),
        Outcome::Calls(function, values, doing) => {
            call(inside, functions, function, values, doing)
        }
        Outcome::Waits(value, purpose) => Ok(Next::Over(Ended::Awaits(value, purpose))),
    }
}

/// One turn from here.
fn turn_at<I: Importer>(inside: &mut Inside<'_, I>, place: Place) -> Result<Outcome, Stop>
    requires code { IsCode inside.old.code.now }
    requires place { IsPlace (length (arc_value inside.old.code.now.tree).stmts) place }
    requires fits { MayTurn I.seen I.modules I.linked I.fits I.begins inside.old
        (place_rest inside.old.code.now place) }
    ensures { Turned I.seen I.modules I.linked I.fits I.begins inside.old
        (place_rest inside.old.code.now place) result inside.new }
{
    match place {
        Place::Turn => turn(inside),
        Place::Gives(doing, value) => advance(inside, Box::into_inner(doing), Some(value)),
        Place::Throws(_doing, value) => throw(inside, value),
    }
}

/// One turn from here, and what follows it.
fn go_on<I: Importer>(
    inside: &mut Inside<'_, I>,
    functions: &mut Functions,
    place: Place,
) -> Result<Next, Stop>
    requires code { IsCode inside.old.code.now }
    requires place { IsPlace (length (arc_value inside.old.code.now.tree).stmts) place }
    requires rows { HasRows I.seen I.modules I.linked I.fits I.begins inside.old
        functions.old.rows }
    requires fits { MayRun I.seen I.modules I.linked I.fits I.begins inside.old
        (place_rest inside.old.code.now place) }
    ensures went { Went I.seen I.modules I.linked I.fits I.begins inside.old
        (place_rest inside.old.code.now place) result inside.new }
    ensures rows { OnOk result (HasRows I.seen I.modules I.linked I.fits I.begins inside.new
        functions.new.rows) }
{
    esm_resolve::laws::shared_set();
    match turn_at(inside, place) {
        Ok(Outcome::On) => Ok(Next::Goes(Place::Turn)),
        Ok(outcome) => follow(inside, functions, outcome),
        Err(stop) => Err(stop),
    }
}

/// Turns up to one that took a step, or to the end of the segment.
fn up_to_step<I: Importer>(
    inside: &mut Inside<'_, I>,
    functions: &mut Functions,
    place: Place,
) -> Result<Next, Stop>
    requires code { IsCode inside.old.code.now }
    requires place { IsPlace (length (arc_value inside.old.code.now.tree).stmts) place }
    requires rows { HasRows I.seen I.modules I.linked I.fits I.begins inside.old
        functions.old.rows }
    requires fits { MayRun I.seen I.modules I.linked I.fits I.begins inside.old
        (place_rest inside.old.code.now place) }
    ensures steps { Stepped I.seen I.modules I.linked I.fits I.begins inside.old
        (place_rest inside.old.code.now place) result inside.new }
    ensures rows { OnOk result (HasRows I.seen I.modules I.linked I.fits I.begins inside.new
        functions.new.rows) }
{
    esm_resolve::laws::shared_set();
    let steps = inside.engine.log.steps;
    let mut here = place;
    loop {
        match go_on(inside, functions, here) {
            Ok(next) => match next {
                Next::Goes(on) => {
                    if inside.engine.log.steps > steps {
                        return Ok(Next::Goes(on));
                    }
                    here = on;
                }
                Next::Over(ended) => return Ok(Next::Over(ended)),
            },
            Err(stop) => return Err(stop),
        }
    }
}

/// Turns from here up to the end of the segment.
fn run_from<I: Importer>(
    inside: &mut Inside<'_, I>,
    functions: &mut Functions,
    place: Place,
) -> Result<Ended, Stop>
    requires code { IsCode inside.old.code.now }
    requires place { IsPlace (length (arc_value inside.old.code.now.tree).stmts) place }
    requires rows { HasRows I.seen I.modules I.linked I.fits I.begins inside.old
        functions.old.rows }
    requires fits { MayRun I.seen I.modules I.linked I.fits I.begins inside.old
        (place_rest inside.old.code.now place) }
    ensures { Ran I.seen I.modules I.linked I.fits I.begins inside.old
        (place_rest inside.old.code.now place) result inside.new }
{
    let mut here = place;
    loop {
        match up_to_step(inside, functions, here) {
            Ok(next) => match next {
                Next::Goes(on) => here = on,
                Next::Over(ended) => return Ok(ended),
            },
            Err(stop) => return Err(stop),
        }
    }
}

/// What follows this outcome, up to the end of the segment.
fn run_behind<I: Importer>(
    inside: &mut Inside<'_, I>,
    functions: &mut Functions,
    outcome: Outcome,
) -> Result<Ended, Stop>
    requires code { IsCode inside.old.code.now }
    requires outcome { IsOutcome (length (arc_value inside.old.code.now.tree).stmts) outcome }
    requires rows { HasRows I.seen I.modules I.linked I.fits I.begins inside.old
        functions.old.rows }
    requires fits { MayFollow I.seen I.modules I.linked I.fits I.begins inside.old outcome }
    ensures { RanBehind I.seen I.modules I.linked I.fits I.begins inside.old outcome result
        inside.new }
{
    match follow(inside, functions, outcome) {
        Ok(next) => match next {
            Next::Goes(place) => run_from(inside, functions, place),
            Next::Over(ended) => Ok(ended),
        },
        Err(stop) => Err(stop),
    }
}

/// A segment of a body, from this outcome on.
pub(crate) fn segment<I: Importer>(
    inside: &mut Inside<'_, I>,
    outcome: Outcome,
) -> Result<Ended, Stop>
    requires code { IsCode inside.old.code.now }
    requires outcome { IsOutcome (length (arc_value inside.old.code.now.tree).stmts) outcome }
    requires fits { MayFollow I.seen I.modules I.linked I.fits I.begins inside.old outcome }
    ensures { RanBehind I.seen I.modules I.linked I.fits I.begins inside.old outcome result
        inside.new }
{
    let mut functions = Functions::new(inside.alloc);
    run_behind(inside, &mut functions, outcome)
}
