// The evaluation of an expression.
ghost use Rattle.std.specs.Prelude.{◌≡◌, ◌+◌, ◌<◌, length, IfOk, None};
ghost use Rattle.std.specs.Arc.{arc_value};
ghost use Rattle.esm_tree.specs.Flat.{part};
ghost use Rattle.esm_expr_eval.specs.Frames.{around, at_focus, AreFrames, IsFocus, frames_work, focus_work, EndsTurn, Keeps};
ghost use Rattle.esm_expr_eval.specs.Machine.{FramesLeadToMove, KeepsFrames, LeadsToMove, rest_of, IsSound, IsGiven, with_given, StaysSound};
ghost use Rattle.esm_expr_eval.specs.Terms.{term};
ghost use Rattle.esm_values.specs.Code.{numbered};

use crate::frame::{Focus, Frame, Next, begin, go_on};
use crate::world::{ExprEnd, World};
use esm_base::Memory;
use esm_tree::{ExprId, Tree};
use esm_values::{FuncId, Value};
use std::alloc::Global;
use std::sync::Arc;

/// What an expression goes on to.
#[derive(Drop)]
pub enum Move {
    /// To its value.
    Value(Value),
    /// To a throw.
    Thrown(Value),
    /// A call of a function with these values; the next advance is given its value.
    Call(FuncId, Vec<Value>),
}

/// An expression under way: what remains of it, with values in place of what was evaluated.
#[derive(Drop)]
pub struct ExprFrame {
    alloc: Global,
    tree: Arc<Tree>,
    frames: Vec<Frame>,
    focus: Option<Focus>,
}

/// One turn: a part begins, or what is around a value goes on.
fn turn<W: World>(
    alloc: Global,
    tree: &Tree,
    frames: &mut Vec<Frame>,
    focus: Focus,
    world: &mut W,
) -> Result<Next, ExprEnd<W::Stop>>
    requires focus { IsFocus (length tree.now.exprs) focus }
    requires frames { AreFrames (length tree.now.exprs) frames.old.items }
    ensures tells { EndsTurn W.url_of W.acts tree.now.exprs world.old
        (around tree.now.exprs frames.old.items (at_focus tree.now.exprs focus))
        result world.new frames.new.items }
    ensures keeps { Keeps tree.now.exprs (frames_work tree.now.exprs frames.old.items + focus_work
        tree.now.exprs focus) result frames.new.items }
{
    match focus {
        Focus::Begin(id) => begin(alloc, tree, frames, id, world),
        Focus::Value(value) => {
            match frames.pop() {
                Some(frame) => go_on(alloc, tree, frames, frame, value, world),
                None => Ok(Next::Done(value)),
            }
        }
    }
}

/// Turns up to a value, a throw or a call.
fn run<W: World>(
    alloc: Global,
    tree: &Tree,
    frames: &mut Vec<Frame>,
    focus: Focus,
    world: &mut W,
) -> Result<Move, ExprEnd<W::Stop>>
    requires focus { IsFocus (length tree.now.exprs) focus }
    requires frames { AreFrames (length tree.now.exprs) frames.old.items }
    ensures moves { FramesLeadToMove W.url_of W.acts tree.now.exprs world.old
        (around tree.now.exprs frames.old.items (at_focus tree.now.exprs focus))
        result world.new frames.new.items }
    ensures stays { KeepsFrames tree.now.exprs result frames.new.items }
{
    let mut part = focus;
    loop {
        match turn(alloc, tree, frames, part, world) {
            Ok(Next::Focus(next)) => part = next,
            Ok(Next::Done(value)) => return Ok(Move::Value(value)),
            Ok(Next::Thrown(error)) => return Ok(Move::Thrown(error)),
            Ok(Next::Call(function, values)) => return Ok(Move::Call(function, values)),
            Err(end) => return Err(end),
        }
    }
}

impl ExprFrame {
    /// The evaluation of an expression of a tree. It is ready to advance without a value. It takes room as it advances.
    pub fn new(alloc: Global, tree: Arc<Tree>, at: ExprId) -> Result<ExprFrame, Memory>
        requires { at.0 < length (arc_value tree).exprs }
        ensures remains { IfOk result (λ s. IsSound s
            × (rest_of s ≡ term numbered (part (arc_value tree).exprs at))) }
        ensures ready { IfOk result (λ s. IsGiven None s.focus) }
    {
        Ok(ExprFrame {
            alloc,
            tree,
            frames: Vec::new(alloc),
            focus: Some(Focus::Begin(at)),
        })
    }

    /// Goes on: a new expression begins, or the call that the last advance answered has given this value. It goes up to the
    /// next call, the value, a throw, a stop of the world, or want of memory; behind any of these but a call it can't
    /// advance again.
    pub fn advance<W: World>(
        &mut self,
        world: &mut W,
        given: Option<Value>,
    ) -> Result<Move, ExprEnd<W::Stop>>
        requires sound { IsSound self.old }
        requires given { IsGiven given self.old.focus }
        ensures moves { LeadsToMove W.url_of W.acts world.old (with_given given (rest_of self.old))
            result world.new (rest_of self.new) }
        ensures sound { StaysSound result self.new }
    {
        match given {
            Some(value) => run(
                self.alloc,
                &self.tree,
                &mut self.frames,
                Focus::Value(value),
                world,
            ),
            None => match self.focus.take() {
                Some(focus) => run(self.alloc, &self.tree, &mut self.frames, focus, world),
                None => unreachable!(),
            },
        }
    }
}
