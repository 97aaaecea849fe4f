// What operators make of values.
ghost use Rattle.std.specs.Prelude.{◌≡◌, Some, None, codes, ◌||◌, []};
ghost use Rattle.esm_expr_eval.specs.Frames.{AnswersPlan, Sees, IsShown, Copied};
ghost use Rattle.esm_values.specs.Operators.{Look, look_of, faults, made, joined, sum, new_error, error_of};
ghost use Rattle.esm_values.specs.Code.{numbered, value_of};

use crate::world::{ExprEnd, Out, World};
use esm_base::MAX_TEXT_BYTES;
use esm_values::{BYTES_PER_STEP, FaultKind, RcText, Value, truth_text};
use std::alloc::Global;

/// The display text of an operand, and whether it is a text.
#[derive(Drop)]
pub struct Shown {
    /// Whether the operand is a text.
    pub is_text: bool,
    /// Its display text.
    pub text: RcText,
}

/// Throws a new error with this message.
pub fn throws<W: World>(
    kind: FaultKind,
    message: &str,
    world: &mut W,
) -> Result<Out, ExprEnd<W::Stop>>
    ensures { AnswersPlan W.url_of W.acts world.old (λ rest. faults numbered kind message.now)
        result world.new }
{
    match world.fault(kind, message) {
        Ok(error) => Ok(Out::Thrown(error)),
        Err(stop) => Err(ExprEnd::Stopped(stop)),
    }
}

/// An operand with this text.
fn copied<S>(alloc: Global, is_text: bool, text: &str) -> Result<Option<Shown>, ExprEnd<S>>
    ensures { Copied is_text text.now result }
{
    match RcText::copy(alloc, text) {
        Ok(text) => Ok(Some(Shown { is_text, text })),
        Err(_) => Err(ExprEnd::Memory),
    }
}

/// An operand of a sum: an error is its display text.
fn see<W: World>(
    alloc: Global,
    value: &Value,
    world: &mut W,
) -> Result<Option<Shown>, ExprEnd<W::Stop>>
    ensures { Sees W.url_of W.acts world.old (value_of value.now) result world.new }
{
    match value {
        Value::Error(_) => match world.display(value) {
            Ok(text) => Ok(Some(Shown {
                is_text: true,
                text,
            })),
            Err(stop) => Err(ExprEnd::Stopped(stop)),
        },
        Value::Text(text) => copied(alloc, true, text.as_str()),
        Value::Undefined => copied(alloc, false, "undefined"),
        Value::Bool(truth) => copied(alloc, false, truth_text(*truth)),
        _ => Ok(None),
    }
}

/// A text of a sum: its length is looked at first, then 64 of its bytes cost a step.
fn make<W: World>(text: RcText, world: &mut W) -> Result<Out, ExprEnd<W::Stop>>
    ensures { AnswersPlan W.url_of W.acts world.old (λ rest. made numbered rest (Some text))
        result world.new }
{
    let len = text.as_str().len();
    if len > MAX_TEXT_BYTES {
        throws(FaultKind::RangeError, "text length", world)
    } else {
        match world.step((len / BYTES_PER_STEP) as u64) {
            Ok(()) => Ok(Out::Value(Value::Text(text))),
            Err(stop) => Err(ExprEnd::Stopped(stop)),
        }
    }
}

fn either(left: bool, right: bool) -> bool
    ensures { result ≡ left || right }
{
    left || right
}

/// The sum of two operands.
fn made_of<W: World>(
    alloc: Global,
    left: Option<Shown>,
    right: Option<Shown>,
    world: &mut W,
) -> Result<Out, ExprEnd<W::Stop>>
    ensures { (l : Look) (m : Look) → IsShown l left → IsShown m right
        → AnswersPlan W.url_of W.acts world.old (λ rest. made numbered rest (joined l m))
        result world.new }
{
    match left {
        None => throws(FaultKind::TypeError, "bad operands", world),
        Some(l) => match right {
            None => throws(FaultKind::TypeError, "bad operands", world),
            Some(r) => {
                if either(l.is_text, r.is_text) {
                    match RcText::join(alloc, l.text.as_str(), r.text.as_str()) {
                        Ok(text) => make(text, world),
                        Err(_) => Err(ExprEnd::Memory),
                    }
                } else {
                    throws(FaultKind::TypeError, "bad operands", world)
                }
            }
        },
    }
}

/// The sum of two values.
pub fn sum_of<W: World>(
    alloc: Global,
    left: &Value,
    right: &Value,
    world: &mut W,
) -> Result<Out, ExprEnd<W::Stop>>
    ensures { AnswersPlan W.url_of W.acts world.old (λ rest. sum numbered (value_of left.now)
        (value_of right.now) rest) result world.new }
{
    match see(alloc, left, world) {
        Err(end) => Err(end),
        Ok(l) => match see(alloc, right, world) {
            Err(end) => Err(end),
            Ok(r) => made_of(alloc, l, r, world),
        },
    }
}

/// A new error with this message.
fn error_with<W: World>(message: &str, world: &mut W) -> Result<Out, ExprEnd<W::Stop>>
    ensures { AnswersPlan W.url_of W.acts world.old (λ rest. new_error numbered rest message.now)
        result world.new }
{
    match world.fault(FaultKind::Error, message) {
        Ok(error) => Ok(Out::Value(error)),
        Err(stop) => Err(ExprEnd::Stopped(stop)),
    }
}

/// `new Error` of a value, behind its step.
pub fn error_from<W: World>(value: &Value, world: &mut W) -> Result<Out, ExprEnd<W::Stop>>
    ensures { AnswersPlan W.url_of W.acts world.old
        (λ rest. error_of numbered rest (value_of value.now) (look_of (value_of value.now)))
        result world.new }
{
    match value {
        Value::Undefined => error_with("", world),
        Value::Bool(truth) => error_with(truth_text(*truth), world),
        Value::Text(text) => error_with(text.as_str(), world),
        Value::Error(_) => match world.display(value) {
            Ok(text) => error_with(text.as_str(), world),
            Err(stop) => Err(ExprEnd::Stopped(stop)),
        },
        Value::Func(_) => throws(FaultKind::TypeError, "cannot convert to text", world),
        Value::Namespace(_) => throws(FaultKind::TypeError, "cannot convert to text", world),
        Value::Promise(_) => throws(FaultKind::TypeError, "cannot convert to text", world),
    }
}
