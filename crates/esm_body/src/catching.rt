// Levels that end, and throws.
ghost use Rattle.std.specs.Prelude.{◌≡◌, ◌<◌, ℕ, length, List, OnOk, IfOk};
ghost use Rattle.std.specs.Arc.{arc_value};
ghost use Rattle.esm_tree.specs.Syntax.{Stmt};
ghost use Rattle.esm_tree.specs.Flat.{stmt_part, stmt_parts, stmt_of, IsStmtBelow, AllStmtsBelow};
ghost use Rattle.esm_rewriting.specs.Scopes as scopes;
ghost use Rattle.esm_body.specs.Slots.{scope_of_slots};
ghost use Rattle.esm_values.specs.Code.{value_of};
ghost use Rattle.esm_body.specs.Inner.Stack.{handler_of, caught_of, told_name, IsLeft, IsCaught, IsNodeOf, IsHandled};
ghost use Rattle.esm_body.specs.Code.{AreLevels, IsKind};

use crate::blocks::begin_block;
use crate::scopes::add_slot;
use crate::work::{Kind, Level, Slot};
use esm_base::Memory;
use esm_tree::{StmtId, StmtNode, Tree};
use esm_values::Value;
use std::alloc::Global;
use std::sync::Arc;

/// Takes the innermost level off, and tells why it was begun.
pub(crate) fn pop_level(levels: &mut Vec<Level>) -> Kind
    requires { 1 < length levels.old.items }
    ensures left { (stmts : List Stmt) → IsLeft stmts levels.old.items result levels.new.items }
    ensures sound { (n : ℕ) → AreLevels n levels.old.items
        → IsKind n result × AreLevels n levels.new.items }
    ensures fewer { length levels.new.items < length levels.old.items }
{
    match levels.pop() {
        Some(level) => level.kind,
        None => unreachable!(),
    }
}

/// The statements of the handler of a `try`; of another statement none.
fn handler(node: &StmtNode) -> &[StmtId]
    ensures stmts { (exprs : _) (stmts : _) → stmt_parts stmts result.now
        ≡ handler_of (stmt_of exprs stmts node.now) }
    ensures below { (n : ℕ) → IsStmtBelow n node.now → AllStmtsBelow n result.now }
{
    match node {
        StmtNode::Try(parts) => parts.handler.as_slice(),
        StmtNode::TryCatch(parts) => parts.handler.as_slice(),
        StmtNode::Empty => &[],
        StmtNode::Expression(_) => &[],
        StmtNode::Assign(_) => &[],
        StmtNode::Block(_) => &[],
        StmtNode::If(_, _) => &[],
        StmtNode::IfElse(_, _) => &[],
        StmtNode::Throw(_) => &[],
        StmtNode::Return => &[],
        StmtNode::ReturnValue(_) => &[],
        StmtNode::Await(_) => &[],
        StmtNode::PrintAwait(_) => &[],
        StmtNode::Const(_) => &[],
        StmtNode::Let(_) => &[],
        StmtNode::Default(_) => &[],
    }
}

/// The name that the handler of a `try` catches, if it has one.
fn caught_name(node: &StmtNode) -> Option<&str>
    ensures { (exprs : _) (stmts : _) → told_name result
        ≡ caught_of (stmt_of exprs stmts node.now) }
{
    match node {
        StmtNode::TryCatch(parts) => Some(parts.name.as_str()),
        StmtNode::Try(_) => None,
        StmtNode::Empty => None,
        StmtNode::Expression(_) => None,
        StmtNode::Assign(_) => None,
        StmtNode::Block(_) => None,
        StmtNode::If(_, _) => None,
        StmtNode::IfElse(_, _) => None,
        StmtNode::Throw(_) => None,
        StmtNode::Return => None,
        StmtNode::ReturnValue(_) => None,
        StmtNode::Await(_) => None,
        StmtNode::PrintAwait(_) => None,
        StmtNode::Const(_) => None,
        StmtNode::Let(_) => None,
        StmtNode::Default(_) => None,
    }
}

/// The names of a handler before its own: the one that it catches.
fn caught_slots(alloc: Global, name: Option<&str>, thrown: Value) -> Result<Vec<Slot>, Memory>
    ensures { IfOk result (λ slots. scope_of_slots slots.items
        ≡ scopes.caught_name (told_name name.entry) (value_of thrown)) }
{
    let mut slots = Vec::new(alloc);
    match name {
        Some(name) => match add_slot(alloc, &mut slots, name, false, Some(thrown)) {
            Ok(()) => Ok(slots),
            Err(_) => Err(Memory),
        },
        None => Ok(slots),
    }
}

/// Begins the handler of a `try` of this node, whose block threw.
fn handle(
    alloc: Global,
    tree: &Arc<Tree>,
    levels: &mut Vec<Level>,
    id: StmtId,
    node: &StmtNode,
    thrown: Value,
) -> Result<(), Memory>
    requires levels { 0 < length levels.old.items }
    requires id { id.0 < length (arc_value tree.now).stmts }
    requires node { IsNodeOf (arc_value tree.now) id node.now }
    ensures handled { IsHandled (arc_value tree.now).stmts levels.old.items
        (stmt_part (arc_value tree.now).stmts id) (value_of thrown) result levels.new.items }
    ensures sound { AreLevels (length (arc_value tree.now).stmts) levels.old.items
        → OnOk result (AreLevels (length (arc_value tree.now).stmts) levels.new.items
        × (0 < length levels.new.items)) }
{
    match caught_slots(alloc, caught_name(node), thrown) {
        Ok(slots) => begin_block(alloc, tree, levels, Kind::Block, slots, handler(node)),
        Err(Memory) => Err(Memory),
    }
}

/// A throw leads to the handler of the innermost `try`, or out.
pub(crate) fn catch(
    alloc: Global,
    tree: &Arc<Tree>,
    levels: &mut Vec<Level>,
    thrown: Value,
) -> Result<Option<Value>, Memory>
    requires levels { 0 < length levels.old.items }
    requires sound { AreLevels (length (arc_value tree.now).stmts) levels.old.items }
    ensures caught { IsCaught (arc_value tree.now).stmts levels.old.items thrown result
        levels.new.items }
    ensures sound { OnOk result (AreLevels (length (arc_value tree.now).stmts) levels.new.items
        × (0 < length levels.new.items)) }
{
    while levels.len() > 1 {
        match pop_level(levels) {
            Kind::Block => {}
            Kind::Tries(id) => {
                return match handle(alloc, tree, levels, id, tree.stmt(id), thrown) {
                    Ok(()) => Ok(None),
                    Err(Memory) => Err(Memory),
                };
            }
        }
    }
    Ok(Some(thrown))
}
