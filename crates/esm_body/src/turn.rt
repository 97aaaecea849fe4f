// One turn of code under way: a statement begins, an expression is evaluated, or its value is used.
ghost use Rattle.std.specs.Prelude.{◌≡◌, ◌<◌, ◌∷◌, [], length, Result, Ok};
ghost use Rattle.std.specs.Arc.{arc_value};
ghost use Rattle.esm_expr_eval.specs.Machine.{IsGiven, IsSound};
ghost use Rattle.esm_rewriting.specs.Rest.{end};
ghost use Rattle.esm_body.specs.Code.{innermost, IsUse, IsCode};
ghost use Rattle.esm_values.specs.Acts.{Act as act};
ghost use Rattle.esm_values.specs.Code.{value_of};
ghost use Rattle.esm_body.specs.Inner.World.{ActsInside};
ghost use Rattle.esm_body.specs.Inner.Turn.{MayTurn, Threw, Turned, code_rest, doing_given, unbegun, used};

use crate::blocks::{assigned, begin, bound_name, take_next};
use crate::catching::{catch, pop_level};
use crate::importer::Importer;
use crate::inside::Inside;
use crate::starts::choose;
use crate::work::{Doing, Use, Work};
use crate::writes::{set_name, write_name};
use esm_base::Memory;
use esm_expr_eval::{ExprEnd, Move, World};
use esm_rewriting::Stop;
use esm_tree::StmtId;
use esm_values::{FuncId, Value, is_true};

/// What a turn comes to.
#[derive(Drop)]
pub(crate) enum Outcome {
    /// It goes on with what remains.
    On,
    /// Nothing remains.
    Done,
    /// A function returns this value.
    Returns(Value),
    /// This value is thrown, and there is no `try` round it.
    Thrown(Value),
    /// The expression calls this function with these values.
    Calls(FuncId, Vec<Value>, Box<Doing>),
    /// This value is awaited, for this.
    Waits(Value, Use),
}

/// A throw leads to the handler of the innermost `try`, or out.
pub(crate) fn throw<I: Importer>(inside: &mut Inside<'_, I>, thrown: Value) -> Result<Outcome, Stop>
    requires code { IsCode inside.old.code.now }
    ensures { Threw inside.old thrown result inside.new }
{
    let code = &mut *inside.code;
    match catch(inside.alloc, &code.tree, &mut code.levels, thrown) {
        Ok(None) => Ok(Outcome::On),
        Ok(Some(value)) => Ok(Outcome::Thrown(value)),
        Err(Memory) => Err(Stop::Memory),
    }
}

/// A declaration sets its name.
fn set<I: Importer>(
    inside: &mut Inside<'_, I>,
    id: StmtId,
    place: usize,
    value: Value,
) -> Result<Outcome, Stop>
    requires code { IsCode inside.old.code.now }
    requires id { id.0 < length (arc_value inside.old.code.now.tree).stmts }
    requires fits { MayTurn I.seen I.modules I.linked I.fits I.begins inside.old
        (used inside.old.code.now (Use.Sets id place) value) }
    ensures { Turned I.seen I.modules I.linked I.fits I.begins inside.old
        (used inside.old.code.now (Use.Sets id place) value) result inside.new }
{
    match inside.code.tree.clone() {
        Ok(tree) => {
            set_name(inside, bound_name(&tree, id, place), value);
            Ok(Outcome::On)
        }
        Err(_) => Err(Stop::Memory),
    }
}

/// An assignment writes its name, or throws.
fn write<I: Importer>(inside: &mut Inside<'_, I>, id: StmtId, value: Value) -> Result<Outcome, Stop>
    requires code { IsCode inside.old.code.now }
    requires id { id.0 < length (arc_value inside.old.code.now.tree).stmts }
    requires fits { MayTurn I.seen I.modules I.linked I.fits I.begins inside.old
        (used inside.old.code.now (Use.Writes id) value) }
    ensures { Turned I.seen I.modules I.linked I.fits I.begins inside.old
        (used inside.old.code.now (Use.Writes id) value) result inside.new }
{
    match inside.code.tree.clone() {
        Ok(tree) => match write_name(inside, assigned(&tree, id), value) {
            Ok(None) => Ok(Outcome::On),
            Ok(Some(error)) => throw(inside, error),
            Err(Memory) => Err(Stop::Memory),
        },
        Err(_) => Err(Stop::Memory),
    }
}

/// A value that was awaited is printed, behind a step.
fn print_awaited<I: Importer>(inside: &mut Inside<'_, I>, value: Value) -> Result<Outcome, Stop>
    requires code { IsCode inside.old.code.now }
    requires fits { MayTurn I.seen I.modules I.linked I.fits I.begins inside.old
        (used inside.old.code.now Use.Prints value) }
    ensures { Turned I.seen I.modules I.linked I.fits I.begins inside.old
        (used inside.old.code.now Use.Prints value) result inside.new }
{
    match inside.step(1) {
        Ok(()) => match print_one(inside, value) {
            Ok(()) => Ok(Outcome::On),
            Err(stop) => Err(stop),
        },
        Err(stop) => Err(stop),
    }
}

/// A value is printed.
fn print_one<I: Importer>(inside: &mut Inside<'_, I>, value: Value) -> Result<(), Stop>
    ensures { ActsInside I.seen I.modules I.linked I.fits I.begins inside.old
        (act.Print (value_of value ∷ [])) result inside.new }
{
    let mut values = Vec::new(inside.alloc);
    match values.push(value) {
        Ok(()) => inside.print(values),
        Err(_) => Err(Stop::Memory),
    }
}

/// A branch of an `if` begins.
fn branch<I: Importer>(
    inside: &mut Inside<'_, I>,
    id: StmtId,
    value: &Value,
) -> Result<Outcome, Stop>
    requires code { IsCode inside.old.code.now }
    requires id { id.0 < length (arc_value inside.old.code.now.tree).stmts }
    requires fits { MayTurn I.seen I.modules I.linked I.fits I.begins inside.old
        (used inside.old.code.now (Use.Chooses id) value.now) }
    ensures { Turned I.seen I.modules I.linked I.fits I.begins inside.old
        (used inside.old.code.now (Use.Chooses id) value.now) result inside.new }
{
    let truth = is_true(value);
    let code = &mut *inside.code;
    let node = code.tree.stmt(id);
    match choose(inside.alloc, &code.tree, &mut code.levels, id, node, truth) {
        Ok(()) => Ok(Outcome::On),
        Err(Memory) => Err(Stop::Memory),
    }
}

/// A value is used.
pub(crate) fn finish<I: Importer>(
    inside: &mut Inside<'_, I>,
    purpose: Use,
    value: Value,
) -> Result<Outcome, Stop>
    requires code { IsCode inside.old.code.now }
    requires purpose { IsUse (length (arc_value inside.old.code.now.tree).stmts) purpose }
    requires fits { MayTurn I.seen I.modules I.linked I.fits I.begins inside.old
        (used inside.old.code.now purpose value) }
    ensures { Turned I.seen I.modules I.linked I.fits I.begins inside.old
        (used inside.old.code.now purpose value) result inside.new }
{
    match purpose {
        Use::Drops => Ok(Outcome::On),
        Use::Sets(id, place) => set(inside, id, place, value),
        Use::Defaults => {
            set_name(inside, "*default*", value);
            Ok(Outcome::On)
        }
        Use::Writes(id) => write(inside, id, value),
        Use::Throws => throw(inside, value),
        Use::Returns => Ok(Outcome::Returns(value)),
        Use::Prints => print_awaited(inside, value),
        Use::Chooses(id) => branch(inside, id, &value),
    }
}

/// An expression is evaluated, from the value of the call under way, if there is one; its value is used, or awaited.
pub(crate) fn advance<I: Importer>(
    inside: &mut Inside<'_, I>,
    doing: Doing,
    given: Option<Value>,
) -> Result<Outcome, Stop>
    requires code { IsCode inside.old.code.now }
    requires purpose { IsUse (length (arc_value inside.old.code.now.tree).stmts) doing.purpose }
    requires sound { IsSound doing.frame }
    requires given { IsGiven given doing.frame.focus }
    requires fits { MayTurn I.seen I.modules I.linked I.fits I.begins inside.old
        (doing_given inside.old.code.now doing given) }
    ensures { Turned I.seen I.modules I.linked I.fits I.begins inside.old
        (doing_given inside.old.code.now doing given) result inside.new }
{
    esm_resolve::laws::shared_set();
    let mut doing = doing;
    match doing.frame.advance(inside, given) {
        Ok(Move::Value(value)) => {
            if doing.awaits {
                Ok(Outcome::Waits(value, doing.purpose))
            } else {
                finish(inside, doing.purpose, value)
            }
        }
        Ok(Move::Thrown(value)) => throw(inside, value),
        Ok(Move::Call(function, values)) => match Box::new(inside.alloc, doing) {
            Ok(doing) => Ok(Outcome::Calls(function, values, doing)),
            Err(_) => Err(Stop::Memory),
        },
        Err(ExprEnd::Stopped(stop)) => Err(stop),
        Err(ExprEnd::Memory) => Err(Stop::Memory),
    }
}

/// A statement begins, behind its step.
fn begin_statement<I: Importer>(inside: &mut Inside<'_, I>, id: StmtId) -> Result<Outcome, Stop>
    requires code { IsCode inside.old.code.now }
    requires id { id.0 < length (arc_value inside.old.code.now.tree).stmts }
    requires fits { MayTurn I.seen I.modules I.linked I.fits I.begins inside.old
        (unbegun inside.old.code.now id) }
    ensures { Turned I.seen I.modules I.linked I.fits I.begins inside.old
        (unbegun inside.old.code.now id) result inside.new }
{
    match inside.step(1) {
        Ok(()) => {
            let code = &mut *inside.code;
            let node = code.tree.stmt(id);
            match begin(inside.alloc, &code.tree, &mut code.levels, id, node) {
                Ok(()) => Ok(Outcome::On),
                Err(Memory) => Err(Stop::Memory),
            }
        }
        Err(stop) => Err(stop),
    }
}

/// A block at its end is left, if there is one.
fn leave<I: Importer>(inside: &mut Inside<'_, I>) -> Outcome
    requires code { IsCode inside.old.code.now }
    requires ends { innermost (arc_value inside.old.code.now.tree).stmts
        inside.old.code.now.levels.items ≡ end }
    requires fits { MayTurn I.seen I.modules I.linked I.fits I.begins inside.old
        (code_rest inside.old.code.now) }
    ensures { Turned I.seen I.modules I.linked I.fits I.begins inside.old
        (code_rest inside.old.code.now) (Ok result) inside.new }
{
    if inside.code.levels.len() > 1 {
        pop_level(&mut inside.code.levels);
        Outcome::On
    } else {
        Outcome::Done
    }
}

/// One turn.
pub(crate) fn turn<I: Importer>(inside: &mut Inside<'_, I>) -> Result<Outcome, Stop>
    requires code { IsCode inside.old.code.now }
    requires fits { MayTurn I.seen I.modules I.linked I.fits I.begins inside.old
        (code_rest inside.old.code.now) }
    ensures { Turned I.seen I.modules I.linked I.fits I.begins inside.old
        (code_rest inside.old.code.now) result inside.new }
{
    match take_next(&mut inside.code.levels) {
        Some(Work::Whole(id)) => begin_statement(inside, id),
        Some(Work::Does(doing)) => advance(inside, doing, None),
        Some(Work::Has(purpose, value)) => finish(inside, purpose, value),
        None => Ok(leave(inside)),
    }
}
