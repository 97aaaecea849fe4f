// Expressions under way.
ghost use Rattle.std.specs.Prelude.{◌≡◌, ◌++◌, ◌∷◌, [], IsTrue, ◌+◌, ◌<◌, ◌^◌, length};
ghost use Rattle.esm_tree.specs.Flat.{part};
ghost use Rattle.esm_values.specs.Code.{numbered, value_of, values_of};
ghost use Rattle.esm_values.specs.Operators as operators;
ghost use Rattle.esm_expr_eval.specs.Frames.{around, plug, AreFrames, IsFrame, frames_work, frame_work, EndsTurn, Keeps, IsCalled, IsFunction, FollowsPlan, Begins, size};
ghost use Rattle.esm_expr_eval.specs.Rewriting.{printed, error_made, import_begun};
ghost use Rattle.esm_expr_eval.specs.Terms.{term};
ghost use Rattle.esm_expr_eval.specs.Terms.Term.{Val};

use crate::nodes::{argument, comparison, links, operand, part_at};
use crate::sums::{error_from, sum_of};
use crate::world::{ExprEnd, Out, World};
use esm_tree::{ExprId, ExprNode, Link, Tree};
use esm_values::{FaultKind, FuncId, RcText, Value, is_same, is_true};
use std::alloc::Global;

/// An expression under way around its part under way. A place is that of the next part.
#[derive(Drop)]
pub enum Frame {
    /// `||`.
    Or(ExprId, usize),
    /// `&&`.
    And(ExprId, usize),
    /// `===` and `!==`, whose left side is under way.
    Equal(ExprId, usize),
    /// The same, whose right side is under way: whether it is `===`, and the left side.
    Compared(ExprId, usize, bool, Value),
    /// `+`, whose left side is under way.
    Sum(ExprId, usize),
    /// The same, whose right side is under way: with the left side.
    Added(ExprId, usize, Value),
    /// `!`.
    Not,
    /// A head.
    Post(ExprId, usize),
    /// An argument of a call: the place of the call, that of the next argument, the callee and the arguments so far.
    Arguments(ExprId, usize, usize, Value, Vec<Value>),
    /// What is printed, with the values so far.
    Print(ExprId, usize, Vec<Value>),
    /// `new Error`.
    NewError,
    /// `import()`.
    Import,
}

/// The innermost part under way.
#[derive(Drop)]
pub enum Focus {
    /// It begins.
    Begin(ExprId),
    /// It is a value.
    Value(Value),
}

/// How one turn ends.
#[derive(Drop)]
pub enum Next {
    /// Evaluation goes on.
    Focus(Focus),
    /// With the value of the whole.
    Done(Value),
    /// With a throw.
    Thrown(Value),
    /// At a call of this function.
    Call(FuncId, Vec<Value>),
}

/// Pushes a frame, where there is memory.
fn is_pushed(frames: &mut Vec<Frame>, frame: Frame) -> bool
    ensures { IsTrue result → frames.new.items ≡ frames.old.items ++ frame ∷ [] }
{
    frames.push(frame).is_ok()
}

/// Begins a part in a frame.
fn begin_in<S>(frames: &mut Vec<Frame>, frame: Frame, part: ExprId) -> Result<Next, ExprEnd<S>>
    ensures { Begins frames.old.items frame part result frames.new.items }
{
    if is_pushed(frames, frame) {
        Ok(Next::Focus(Focus::Begin(part)))
    } else {
        Err(ExprEnd::Memory)
    }
}

/// Goes on with an `||` behind the value of an operand.
fn or_on<W: World>(
    tree: &Tree,
    frames: &mut Vec<Frame>,
    at: ExprId,
    next: usize,
    value: Value,
) -> Result<Next, ExprEnd<W::Stop>>
    requires at { at.0 < length tree.now.exprs }
    requires frames { AreFrames (length tree.now.exprs) frames.old.items }
    ensures tells { (world : W) → EndsTurn W.url_of W.acts tree.now.exprs world
        (around tree.now.exprs frames.old.items (plug tree.now.exprs (Frame.Or at next)
        (Val (value_of value)))) result world frames.new.items }
    ensures keeps { Keeps tree.now.exprs (frames_work tree.now.exprs frames.old.items + frame_work
        tree.now.exprs (Frame.Or at next)) result frames.new.items }
{
    match operand(tree, at, next) {
        None => Ok(Next::Focus(Focus::Value(value))),
        Some(id) => {
            if is_true(&value) {
                Ok(Next::Focus(Focus::Value(value)))
            } else {
                begin_in(frames, Frame::Or(at, next + 1), id)
            }
        }
    }
}

/// Goes on with an `&&` behind the value of an operand.
fn and_on<W: World>(
    tree: &Tree,
    frames: &mut Vec<Frame>,
    at: ExprId,
    next: usize,
    value: Value,
) -> Result<Next, ExprEnd<W::Stop>>
    requires at { at.0 < length tree.now.exprs }
    requires frames { AreFrames (length tree.now.exprs) frames.old.items }
    ensures tells { (world : W) → EndsTurn W.url_of W.acts tree.now.exprs world
        (around tree.now.exprs frames.old.items (plug tree.now.exprs (Frame.And at next)
        (Val (value_of value)))) result world frames.new.items }
    ensures keeps { Keeps tree.now.exprs (frames_work tree.now.exprs frames.old.items + frame_work
        tree.now.exprs (Frame.And at next)) result frames.new.items }
{
    match operand(tree, at, next) {
        None => Ok(Next::Focus(Focus::Value(value))),
        Some(id) => {
            if is_true(&value) {
                begin_in(frames, Frame::And(at, next + 1), id)
            } else {
                Ok(Next::Focus(Focus::Value(value)))
            }
        }
    }
}

/// Goes on with comparisons behind the value of a left side.
fn equal_on<W: World>(
    tree: &Tree,
    frames: &mut Vec<Frame>,
    at: ExprId,
    next: usize,
    value: Value,
) -> Result<Next, ExprEnd<W::Stop>>
    requires at { at.0 < length tree.now.exprs }
    requires frames { AreFrames (length tree.now.exprs) frames.old.items }
    ensures tells { (world : W) → EndsTurn W.url_of W.acts tree.now.exprs world
        (around tree.now.exprs frames.old.items (plug tree.now.exprs (Frame.Equal at next)
        (Val (value_of value)))) result world frames.new.items }
    ensures keeps { Keeps tree.now.exprs (frames_work tree.now.exprs frames.old.items + frame_work
        tree.now.exprs (Frame.Equal at next)) result frames.new.items }
{
    match comparison(tree, at, next) {
        None => Ok(Next::Focus(Focus::Value(value))),
        Some((alike, id)) => begin_in(frames, Frame::Compared(at, next + 1, alike, value), id),
    }
}

/// `===` where it is true, `!==` where not.
fn compare(alike: bool, same: bool) -> bool
    ensures { result ≡ operators.compare alike same }
{
    if alike { same } else { !same }
}

/// Goes on with comparisons behind the value of a right side.
fn compared_on<W: World>(
    tree: &Tree,
    frames: &mut Vec<Frame>,
    at: ExprId,
    next: usize,
    alike: bool,
    left: Value,
    value: Value,
) -> Result<Next, ExprEnd<W::Stop>>
    requires at { at.0 < length tree.now.exprs }
    requires frames { AreFrames (length tree.now.exprs) frames.old.items }
    ensures tells { (world : W) → EndsTurn W.url_of W.acts tree.now.exprs world
        (around tree.now.exprs frames.old.items (plug tree.now.exprs
        (Frame.Compared at next alike left) (Val (value_of value))))
        result world frames.new.items }
    ensures keeps { Keeps tree.now.exprs (frames_work tree.now.exprs frames.old.items + frame_work
        tree.now.exprs (Frame.Compared at next alike left)) result frames.new.items }
{
    let truth = compare(alike, is_same(&left, &value));
    if is_pushed(frames, Frame::Equal(at, next)) {
        Ok(Next::Focus(Focus::Value(Value::Bool(truth))))
    } else {
        Err(ExprEnd::Memory)
    }
}

/// Goes on with a `+` behind the value of its first operand, or of a sum of those before.
fn sum_on<W: World>(
    tree: &Tree,
    frames: &mut Vec<Frame>,
    at: ExprId,
    next: usize,
    value: Value,
) -> Result<Next, ExprEnd<W::Stop>>
    requires at { at.0 < length tree.now.exprs }
    requires frames { AreFrames (length tree.now.exprs) frames.old.items }
    ensures tells { (world : W) → EndsTurn W.url_of W.acts tree.now.exprs world
        (around tree.now.exprs frames.old.items (plug tree.now.exprs (Frame.Sum at next)
        (Val (value_of value)))) result world frames.new.items }
    ensures keeps { Keeps tree.now.exprs (frames_work tree.now.exprs frames.old.items + frame_work
        tree.now.exprs (Frame.Sum at next)) result frames.new.items }
{
    match operand(tree, at, next) {
        None => Ok(Next::Focus(Focus::Value(value))),
        Some(id) => begin_in(frames, Frame::Added(at, next + 1, value), id),
    }
}

/// Goes on with a `+` behind the value of a further operand.
fn added_on<W: World>(
    alloc: Global,
    tree: &Tree,
    frames: &mut Vec<Frame>,
    at: ExprId,
    next: usize,
    left: Value,
    value: Value,
    world: &mut W,
) -> Result<Next, ExprEnd<W::Stop>>
    requires at { at.0 < length tree.now.exprs }
    requires frames { AreFrames (length tree.now.exprs) frames.old.items }
    ensures tells { EndsTurn W.url_of W.acts tree.now.exprs world.old
        (around tree.now.exprs frames.old.items (plug tree.now.exprs (Frame.Added at next left)
        (Val (value_of value)))) result world.new frames.new.items }
    ensures keeps { Keeps tree.now.exprs (frames_work tree.now.exprs frames.old.items + frame_work
        tree.now.exprs (Frame.Added at next left)) result frames.new.items }
{
    match sum_of(alloc, &left, &value, world) {
        Ok(Out::Value(sum)) => {
            if is_pushed(frames, Frame::Sum(at, next)) {
                Ok(Next::Focus(Focus::Value(sum)))
            } else {
                Err(ExprEnd::Memory)
            }
        }
        Ok(Out::Thrown(error)) => Ok(Next::Thrown(error)),
        Err(end) => Err(end),
    }
}

/// Goes on with members and calls behind the value of their head.
fn post_on<W: World>(
    alloc: Global,
    tree: &Tree,
    frames: &mut Vec<Frame>,
    at: ExprId,
    next: usize,
    value: Value,
    world: &mut W,
) -> Result<Next, ExprEnd<W::Stop>>
    requires at { at.0 < length tree.now.exprs }
    requires frames { AreFrames (length tree.now.exprs) frames.old.items }
    ensures tells { EndsTurn W.url_of W.acts tree.now.exprs world.old
        (around tree.now.exprs frames.old.items (plug tree.now.exprs (Frame.Post at next)
        (Val (value_of value)))) result world.new frames.new.items }
    ensures keeps { Keeps tree.now.exprs (frames_work tree.now.exprs frames.old.items + frame_work
        tree.now.exprs (Frame.Post at next)) result frames.new.items }
{
    let links = links(tree, at);
    if next < links.len() {
        match &links[next] {
            Link::Member(name) => match world.member(value, name.as_str()) {
                Ok(Out::Value(member)) => {
                    if is_pushed(frames, Frame::Post(at, next + 1)) {
                        Ok(Next::Focus(Focus::Value(member)))
                    } else {
                        Err(ExprEnd::Memory)
                    }
                }
                Ok(Out::Thrown(error)) => Ok(Next::Thrown(error)),
                Err(stop) => Err(ExprEnd::Stopped(stop)),
            },
            Link::Call(ids) => match part_at(ids.as_slice(), 0) {
                Some(id) => begin_in(
                    frames,
                    Frame::Arguments(at, next, 1, value, Vec::new(alloc)),
                    id,
                ),
                None => call(frames, at, next, value, Vec::new(alloc), world),
            },
        }
    } else {
        Ok(Next::Focus(Focus::Value(value)))
    }
}

/// Goes on with a call behind the value of an argument.
fn arguments_on<W: World>(
    tree: &Tree,
    frames: &mut Vec<Frame>,
    at: ExprId,
    link: usize,
    next: usize,
    callee: Value,
    values: Vec<Value>,
    value: Value,
    world: &mut W,
) -> Result<Next, ExprEnd<W::Stop>>
    requires at { at.0 < length tree.now.exprs }
    requires room { link + 1 < 2 ^ 64 }
    requires frames { AreFrames (length tree.now.exprs) frames.old.items }
    ensures tells { EndsTurn W.url_of W.acts tree.now.exprs world.old
        (around tree.now.exprs frames.old.items (plug tree.now.exprs
        (Frame.Arguments at link next callee values) (Val (value_of value))))
        result world.new frames.new.items }
    ensures keeps { Keeps tree.now.exprs (frames_work tree.now.exprs frames.old.items + frame_work
        tree.now.exprs (Frame.Arguments at link next callee values)) result frames.new.items }
{
    let mut values = values;
    match values.push(value) {
        Ok(()) => match argument(tree, at, link, next) {
            Some(id) => begin_in(
                frames,
                Frame::Arguments(at, link, next + 1, callee, values),
                id,
            ),
            None => call(frames, at, link, callee, values, world),
        },
        Err(_) => Err(ExprEnd::Memory),
    }
}

/// A call of which callee and arguments are values.
fn call<W: World>(
    frames: &mut Vec<Frame>,
    at: ExprId,
    link: usize,
    callee: Value,
    values: Vec<Value>,
    world: &mut W,
) -> Result<Next, ExprEnd<W::Stop>>
    requires { link + 1 < 2 ^ 64 }
    ensures { IsCalled W.url_of W.acts world.old frames.old.items (Frame.Post at (link + 1))
        (value_of callee) (values_of values.items) result world.new frames.new.items }
{
    match world.step(1) {
        Ok(()) => match function_of(&callee) {
            Some(function) => {
                if is_pushed(frames, Frame::Post(at, link + 1)) {
                    Ok(Next::Call(function, values))
                } else {
                    Err(ExprEnd::Memory)
                }
            }
            None => match world.fault(FaultKind::TypeError, "not a function") {
                Ok(error) => Ok(Next::Thrown(error)),
                Err(stop) => Err(ExprEnd::Stopped(stop)),
            },
        },
        Err(stop) => Err(ExprEnd::Stopped(stop)),
    }
}

/// The function that a value is, if it is one.
fn function_of(value: &Value) -> Option<FuncId>
    ensures { IsFunction (value_of value.now) result }
{
    match value {
        Value::Func(function) => Some(*function),
        Value::Undefined => None,
        Value::Bool(_) => None,
        Value::Text(_) => None,
        Value::Error(_) => None,
        Value::Namespace(_) => None,
        Value::Promise(_) => None,
    }
}

/// Goes on with `print` behind the value of an argument.
fn print_on<W: World>(
    tree: &Tree,
    frames: &mut Vec<Frame>,
    at: ExprId,
    next: usize,
    values: Vec<Value>,
    value: Value,
    world: &mut W,
) -> Result<Next, ExprEnd<W::Stop>>
    requires at { at.0 < length tree.now.exprs }
    requires frames { AreFrames (length tree.now.exprs) frames.old.items }
    ensures tells { EndsTurn W.url_of W.acts tree.now.exprs world.old
        (around tree.now.exprs frames.old.items (plug tree.now.exprs (Frame.Print at next values)
        (Val (value_of value)))) result world.new frames.new.items }
    ensures keeps { Keeps tree.now.exprs (frames_work tree.now.exprs frames.old.items + frame_work
        tree.now.exprs (Frame.Print at next values)) result frames.new.items }
{
    let mut values = values;
    match values.push(value) {
        Ok(()) => match operand(tree, at, next) {
            Some(id) => begin_in(frames, Frame::Print(at, next + 1, values), id),
            None => print(values, world),
        },
        Err(_) => Err(ExprEnd::Memory),
    }
}

/// `print` of values.
fn print<W: World>(values: Vec<Value>, world: &mut W) -> Result<Next, ExprEnd<W::Stop>>
    ensures { FollowsPlan W.url_of W.acts world.old (printed numbered (values_of values.items))
        result world.new }
{
    match world.step(1) {
        Ok(()) => match world.print(values) {
            Ok(()) => Ok(Next::Focus(Focus::Value(Value::Undefined))),
            Err(stop) => Err(ExprEnd::Stopped(stop)),
        },
        Err(stop) => Err(ExprEnd::Stopped(stop)),
    }
}

/// `new Error` of a value.
fn error_on<W: World>(value: &Value, world: &mut W) -> Result<Next, ExprEnd<W::Stop>>
    ensures { FollowsPlan W.url_of W.acts world.old (error_made numbered (value_of value.now))
        result world.new }
{
    match world.step(1) {
        Ok(()) => match error_from(value, world) {
            Ok(Out::Value(error)) => Ok(Next::Focus(Focus::Value(error))),
            Ok(Out::Thrown(error)) => Ok(Next::Thrown(error)),
            Err(end) => Err(end),
        },
        Err(stop) => Err(ExprEnd::Stopped(stop)),
    }
}

/// `import()` of a specifier.
fn import_on<W: World>(value: Value, world: &mut W) -> Result<Next, ExprEnd<W::Stop>>
    ensures { FollowsPlan W.url_of W.acts world.old (import_begun numbered (value_of value))
        result world.new }
{
    match world.step(1) {
        Ok(()) => match world.import(value) {
            Ok(promise) => Ok(Next::Focus(Focus::Value(promise))),
            Err(stop) => Err(ExprEnd::Stopped(stop)),
        },
        Err(stop) => Err(ExprEnd::Stopped(stop)),
    }
}

/// Begins a part.
pub fn begin<W: World>(
    alloc: Global,
    tree: &Tree,
    frames: &mut Vec<Frame>,
    id: ExprId,
    world: &mut W,
) -> Result<Next, ExprEnd<W::Stop>>
    requires id { id.0 < length tree.now.exprs }
    requires frames { AreFrames (length tree.now.exprs) frames.old.items }
    ensures tells { EndsTurn W.url_of W.acts tree.now.exprs world.old
        (around tree.now.exprs frames.old.items (term numbered (part tree.now.exprs id)))
        result world.new frames.new.items }
    ensures keeps { Keeps tree.now.exprs (frames_work tree.now.exprs frames.old.items + size
        (part tree.now.exprs id)) result frames.new.items }
{
    match tree.expr(id) {
        ExprNode::Text(text) => match RcText::copy(alloc, text.as_str()) {
            Ok(text) => Ok(Next::Focus(Focus::Value(Value::Text(text)))),
            Err(_) => Err(ExprEnd::Memory),
        },
        ExprNode::Truth(truth) => Ok(Next::Focus(Focus::Value(Value::Bool(*truth)))),
        ExprNode::Undefined => Ok(Next::Focus(Focus::Value(Value::Undefined))),
        ExprNode::Name(name) => match world.read(name.as_str()) {
            Ok(Out::Value(value)) => Ok(Next::Focus(Focus::Value(value))),
            Ok(Out::Thrown(error)) => Ok(Next::Thrown(error)),
            Err(stop) => Err(ExprEnd::Stopped(stop)),
        },
        ExprNode::Group(inner) => Ok(Next::Focus(Focus::Begin(*inner))),
        ExprNode::Or(first, _) => begin_in(frames, Frame::Or(id, 0), *first),
        ExprNode::And(first, _) => begin_in(frames, Frame::And(id, 0), *first),
        ExprNode::Equal(first, _) => begin_in(frames, Frame::Equal(id, 0), *first),
        ExprNode::Sum(first, _) => begin_in(frames, Frame::Sum(id, 0), *first),
        ExprNode::Not(inner) => begin_in(frames, Frame::Not, *inner),
        ExprNode::Post(head, _) => begin_in(frames, Frame::Post(id, 0), *head),
        ExprNode::Print(ids) => match part_at(ids.as_slice(), 0) {
            Some(first) => begin_in(frames, Frame::Print(id, 1, Vec::new(alloc)), first),
            None => print(Vec::new(alloc), world),
        },
        ExprNode::EmptyError => {
            if is_pushed(frames, Frame::NewError) {
                Ok(Next::Focus(Focus::Value(Value::Undefined)))
            } else {
                Err(ExprEnd::Memory)
            }
        }
        ExprNode::NewError(message) => begin_in(frames, Frame::NewError, *message),
        ExprNode::Import(specifier) => begin_in(frames, Frame::Import, *specifier),
        ExprNode::Url => match RcText::copy(alloc, world.url()) {
            Ok(text) => Ok(Next::Focus(Focus::Value(Value::Text(text)))),
            Err(_) => Err(ExprEnd::Memory),
        },
    }
}

/// Goes on behind the value of the part that a frame is around.
pub fn go_on<W: World>(
    alloc: Global,
    tree: &Tree,
    frames: &mut Vec<Frame>,
    frame: Frame,
    value: Value,
    world: &mut W,
) -> Result<Next, ExprEnd<W::Stop>>
    requires frame { IsFrame (length tree.now.exprs) frame }
    requires frames { AreFrames (length tree.now.exprs) frames.old.items }
    ensures tells { EndsTurn W.url_of W.acts tree.now.exprs world.old
        (around tree.now.exprs frames.old.items (plug tree.now.exprs frame (Val (value_of value))))
        result world.new frames.new.items }
    ensures keeps { Keeps tree.now.exprs (frames_work tree.now.exprs frames.old.items + frame_work
        tree.now.exprs frame) result frames.new.items }
{
    match frame {
        Frame::Or(at, next) => or_on::<W>(tree, frames, at, next, value),
        Frame::And(at, next) => and_on::<W>(tree, frames, at, next, value),
        Frame::Equal(at, next) => equal_on::<W>(tree, frames, at, next, value),
        Frame::Compared(at, next, alike, left) => {
            compared_on::<W>(tree, frames, at, next, alike, left, value)
        }
        Frame::Sum(at, next) => sum_on::<W>(tree, frames, at, next, value),
        Frame::Added(at, next, left) => {
            added_on(alloc, tree, frames, at, next, left, value, world)
        }
        Frame::Not => Ok(Next::Focus(Focus::Value(Value::Bool(!is_true(&value))))),
        Frame::Post(at, next) => post_on(alloc, tree, frames, at, next, value, world),
        Frame::Arguments(at, link, next, callee, values) => {
            arguments_on(tree, frames, at, link, next, callee, values, value, world)
        }
        Frame::Print(at, next, values) => print_on(tree, frames, at, next, values, value, world),
        Frame::NewError => error_on(&value, world),
        Frame::Import => import_on(value, world),
    }
}
