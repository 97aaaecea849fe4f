// Bodies that start, and branches.
ghost use Rattle.std.specs.Prelude.{◌≡◌, ◌∷◌, ◌<◌, ◌≤◌, ℕ, length, List, IfOk, OnOk, IsTrue};
ghost use Rattle.std.specs.Arc.{arc_value};
ghost use Rattle.esm_tree.specs.Syntax.{Stmt};
ghost use Rattle.esm_tree.specs.Flat.{item_of, item_need, items_of, items_need, stmt_of, stmt_part, AllAtMost, IsStmtBelow};
ghost use Rattle.esm_env.specs.Declarations.{body_of, does};
ghost use Rattle.esm_rewriting.specs.Rest.{end, whole};
ghost use Rattle.esm_body.specs.Inner.Calls.{AddsStatement, AreBelowTold, IsBelowTold, IsBranch, IsOutermost, Remains, begun_branch, stmt_told};
ghost use Rattle.esm_body.specs.Inner.Stack.{Becomes, IsNodeOf};
ghost use Rattle.esm_body.specs.Code.{in_front, innermost, AreLevels, AreWork};

use crate::blocks::{begin_block, is_begun};
use crate::remaining::Remaining;
use crate::slots::Slots;
use crate::work::{Activation, Kind, Level};
use esm_base::{Memory, ModuleId};
use esm_env::ModuleScope;
use esm_tree::{ItemNode, StmtId, StmtNode, Tree};
use std::alloc::Global;
use std::sync::Arc;

/// What an item does where it stands, if it does something.
fn item_statement(item: &ItemNode) -> Option<StmtId>
    ensures does { (stmts : List Stmt) → does (item_of stmts item.now) ≡ stmt_told stmts result }
    ensures below { (n : ℕ) → item_need item.now ≤ n → IsBelowTold n result }
{
    match item {
        ItemNode::ExportStatement(id) => Some(*id),
        ItemNode::Statement(id) => Some(*id),
        ItemNode::ExportFunction(_) => None,
        ItemNode::ExportDefaultFunction(_) => None,
        ItemNode::Function(_) => None,
        ItemNode::ImportEffect(_) => None,
        ItemNode::Import(_) => None,
        ItemNode::ExportAll(_) => None,
        ItemNode::ExportAllAs(_) => None,
        ItemNode::ExportFrom(_) => None,
        ItemNode::ExportList(_) => None,
    }
}

/// Adds a statement, if there is one, where there is memory.
fn is_item_pushed(statements: &mut Vec<StmtId>, statement: Option<StmtId>) -> bool
    ensures { IsTrue result → AddsStatement statements.old.items statement statements.new.items }
{
    match statement {
        Some(id) => statements.push(id).is_ok(),
        None => true,
    }
}

/// The work of a module's body, the first last.
fn body_work(alloc: Global, items: &[ItemNode]) -> Result<Remaining, Memory>
    ensures work { (stmts : List Stmt) → IfOk result (λ work. in_front stmts work end
        ≡ whole (body_of (items_of stmts items.now))) }
    ensures sound { (n : ℕ) → AllAtMost n (items_need items.now)
        → IfOk result (λ work. AreWork n work) }
{
    let mut statements = Vec::new(alloc);
    for place in (0..items.len()).rev() {
        if !is_item_pushed(&mut statements, item_statement(&items[place])) {
            return Err(Memory);
        }
    }
    Ok(Remaining::of(alloc, statements))
}

/// The outermost level: without names, and with this work. Most bodies have no other at their awaits, so there is room for
/// one, and more is taken where a block begins.
fn outermost(alloc: Global, work: Remaining) -> Result<Vec<Level>, Memory>
    ensures { IfOk result (λ levels. IsOutermost work levels.items) }
{
    let mut levels = Vec::with_capacity(alloc, 1)?;
    let level = Level {
        kind: Kind::Block,
        slots: Slots::none(alloc),
        work,
    };
    if is_begun(&mut levels, level) {
        Ok(levels)
    } else {
        Err(Memory)
    }
}

/// The body of a module, from its start.
///
/// ECMA-262, ExecuteModule of a Source Text Module Record.
pub(crate) fn body(alloc: Global, scope: &ModuleScope, at: ModuleId) -> Result<Activation, Memory>
    ensures { IfOk result (Remains (arc_value scope.now.tree) at.0
        (whole (body_of (arc_value scope.now.tree).items))) }
{
    match scope.tree.clone() {
        Ok(tree) => match body_work(alloc, scope.tree.items()) {
            Ok(work) => match outermost(alloc, work) {
                Ok(levels) => Ok(Activation { at, tree, levels }),
                Err(Memory) => Err(Memory),
            },
            Err(Memory) => Err(Memory),
        },
        Err(_) => Err(Memory),
    }
}

/// The statements of the branch of an `if`; of another statement none.
fn branch(node: &StmtNode, truth: bool) -> Option<&[StmtId]>
    ensures branch { (exprs : _) (stmts : _) → IsBranch stmts (stmt_of exprs stmts node.now) truth
        result }
    ensures below { (n : ℕ) → IsStmtBelow n node.now → AreBelowTold n result }
{
    match node {
        StmtNode::If(_, ids) => {
            if truth {
                Some(ids.as_slice())
            } else {
                Some(&[])
            }
        }
        StmtNode::IfElse(_, parts) => {
            if truth {
                Some(parts.body.as_slice())
            } else {
                Some(parts.others.as_slice())
            }
        }
        StmtNode::Empty => None,
        StmtNode::Expression(_) => None,
        StmtNode::Assign(_) => None,
        StmtNode::Block(_) => None,
        StmtNode::Try(_) => None,
        StmtNode::TryCatch(_) => None,
        StmtNode::Throw(_) => None,
        StmtNode::Return => None,
        StmtNode::ReturnValue(_) => None,
        StmtNode::Await(_) => None,
        StmtNode::PrintAwait(_) => None,
        StmtNode::Const(_) => None,
        StmtNode::Let(_) => None,
        StmtNode::Default(_) => None,
    }
}

/// Begins the branch of an `if` of this node.
///
/// ECMA-262, IfStatement.
pub(crate) fn choose(
    alloc: Global,
    tree: &Arc<Tree>,
    levels: &mut Vec<Level>,
    id: StmtId,
    node: &StmtNode,
    truth: bool,
) -> Result<(), Memory>
    requires levels { 0 < length levels.old.items }
    requires id { id.0 < length (arc_value tree.now).stmts }
    requires node { IsNodeOf (arc_value tree.now) id node.now }
    ensures begun { OnOk result (Becomes (arc_value tree.now).stmts levels.old.items
        levels.new.items (begun_branch (stmt_part (arc_value tree.now).stmts id) truth
        (innermost (arc_value tree.now).stmts levels.old.items))) }
    ensures sound { AreLevels (length (arc_value tree.now).stmts) levels.old.items
        → OnOk result (AreLevels (length (arc_value tree.now).stmts) levels.new.items
        × (0 < length levels.new.items)) }
{
    match branch(node, truth) {
        Some(ids) => begin_block(alloc, tree, levels, Kind::Block, Vec::new(alloc), ids),
        None => Ok(()),
    }
}
