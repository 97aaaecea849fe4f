// Expressions over a world in which every name is a function: no clause says that memory doesn't run out.
ghost use Rattle.std.specs.Prelude.{◌≡◌, length, IfOk, IsTrue, None};
ghost use Rattle.std.specs.Arc.{arc_value};
ghost use Rattle.esm_expr_eval.specs.Machine.{IsSound, IsGiven};

use crate::rows::read;
use esm_base::{Memory, ModuleId};
use esm_expr_eval::{ExprEnd, ExprFrame, Move, Out, World};
use esm_tree::{ExprId, Tree};
use esm_values::{ErrorId, FaultKind, FuncId, RcText, Value};
use std::alloc::Global;
use std::sync::Arc;

#[derive(Drop)]
struct Functions {
    alloc: Global,
}

impl World for Functions {
    ghost use Rattle.std.specs.Prelude.{[]};

    type Stop = Memory;

    ghost acts = { λ before call answer after. Unit {0} };

    ghost url_of = { λ world. [] };

    fn read(&mut self, _name: &str) -> Result<Out, Memory> {
        Ok(Out::Value(Value::Func(FuncId {
            module: ModuleId(0),
            index: 0,
        })))
    }

    fn member(&mut self, _of: Value, _name: &str) -> Result<Out, Memory> {
        Ok(Out::Value(Value::Undefined))
    }

    fn display(&mut self, _of: &Value) -> Result<RcText, Memory> {
        RcText::copy(self.alloc, "Error")
    }

    fn print(&mut self, _values: Vec<Value>) -> Result<(), Memory> {
        Ok(())
    }

    fn fault(&mut self, _kind: FaultKind, _message: &str) -> Result<Value, Memory> {
        Ok(Value::Error(ErrorId(0)))
    }

    fn step(&mut self, _n: u64) -> Result<(), Memory> {
        Ok(())
    }

    fn import(&mut self, _of: Value) -> Result<Value, Memory> {
        Ok(Value::Undefined)
    }

    fn url(&self) -> &str {
        ""
    }
}

// Whether a tree has three expressions: the last has the others.
fn has_three(tree: &Tree) -> bool
    ensures { IsTrue result → length tree.now.exprs ≡ 3 }
{
    tree.mark().exprs == 3
}

// The tree of a text with three expressions.
fn three_of(alloc: Global, text: &str) -> Result<Arc<Tree>, Memory>
    ensures { IfOk result (λ t. length (arc_value t).exprs ≡ 3) }
{
    let script = read(alloc, text)?;
    if has_three(script.tree()) {
        let tree = script.share_tree()?;
        Ok(tree)
    } else {
        Err(Memory)
    }
}

fn is_text(value: &Value, text: &str) -> bool {
    match value {
        Value::Text(value) => value.as_str() == text,
        _ => false,
    }
}

// The text of a value to which an expression went on, or in which way it didn't go on to one.
fn has_value(moved: Result<Move, ExprEnd<Memory>>, text: &str) -> bool {
    match moved {
        Ok(Move::Value(value)) => is_text(&value, text),
        _ => false,
    }
}

// Whether the expression goes on to this value.
fn gives(alloc: Global, frame: &mut ExprFrame, text: &str) -> bool
    requires sound { IsSound frame.old }
    requires ready { IsGiven None frame.old.focus }
{
    let mut world = Functions { alloc };
    has_value(frame.advance(&mut world, None), text)
}

// The same of the last of three expressions.
fn last_gives(alloc: Global, tree: Arc<Tree>, text: &str) -> Result<bool, Memory>
    requires { length (arc_value tree).exprs ≡ 3 }
{
    let mut frame = ExprFrame::new(alloc, tree, ExprId(2))?;
    Ok(gives(alloc, &mut frame, text))
}

// Whether the expression stands at a call with this text, and goes on with its value to that value.
fn goes_on(frame: &mut ExprFrame, world: &mut Functions, text: &str) -> Result<bool, Memory>
    requires sound { IsSound frame.old }
    requires ready { IsGiven None frame.old.focus }
{
    match frame.advance(world, None) {
        Ok(Move::Call(_, values)) => {
            if values.len() == 1 && is_text(&values[0], text) {
                let given = Value::Text(RcText::copy(world.alloc, "y")?);
                Ok(has_value(frame.advance(world, Some(given)), "y"))
            } else {
                Ok(false)
            }
        }
        _ => Ok(false),
    }
}

// The same of the last of three expressions.
fn last_goes_on(alloc: Global, tree: Arc<Tree>, text: &str) -> Result<bool, Memory>
    requires { length (arc_value tree).exprs ≡ 3 }
{
    let mut frame = ExprFrame::new(alloc, tree, ExprId(2))?;
    goes_on(&mut frame, &mut Functions { alloc }, text)
}

#[test]
fn expressions_go_on(rt: HostRuntime) -> Result<(), Memory> {
    let alloc = rt.alloc();
    assert!(rt; last_gives(alloc, three_of(alloc, "\"a\" + true;")?, "atrue")?);
    assert!(rt; last_goes_on(alloc, three_of(alloc, "f(\"x\");")?, "x")?);
    Ok(())
}
