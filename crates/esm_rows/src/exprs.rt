// The rows of expressions.
ghost use Rattle.std.specs.Prelude.{◌≡◌, ◌++◌, ◌∷◌, [], List, length, OnOk};
ghost use Rattle.esm_tree.specs.Syntax.{Expr};
ghost use Rattle.esm_tree.specs.Flat.{expr_of, part};
ghost use Rattle.esm_rows.specs.Rows.{Row, expr_row};
ghost use Rattle.esm_rows.specs.Locals.{names_of};
ghost use Rattle.esm_rows.specs.Drafts.{IsDraft, Leads};

use crate::draft::Draft;
use crate::locals::Locals;
use crate::nodes::{expr_at, member_text};
use crate::op::Op;
use crate::tasks::{
    Task, push_and, push_equal, push_or, push_post, push_print, push_sum, push_task, push_then,
};
use esm_base::Memory;
use esm_tree::{ExprId, ExprNode, Tree};
use std::alloc::Global;

/// Puts the operations of a node in front, or puts down its parts. So many operations are there.
fn put_node(
    alloc: Global,
    draft: &mut Draft,
    tasks: &mut Vec<Task>,
    blocks: &[Locals],
    left: u32,
    id: ExprId,
    node: &ExprNode,
) -> Result<(), Memory>
    ensures { (exprs : List Expr) → (made : Row)
        → (leads : Leads (names_of blocks.now) exprs (tasks.old.items ++ Task.Part id ∷ []) draft.old made)
        → part exprs id ≡ expr_of exprs node.now → left ≡ length leads.row
        → OnOk result (Leads (names_of blocks.now) exprs tasks.new.items draft.new made) }
{
    match node {
        ExprNode::Text(text) => draft.put_literal(alloc, text.as_str()),
        ExprNode::Truth(truth) => draft.put(Op::Truth(*truth)),
        ExprNode::Undefined => draft.put(Op::Undefined),
        ExprNode::Name(name) => draft.put_read(alloc, blocks, name.as_str()),
        ExprNode::Group(inner) => push_task(tasks, Task::Part(*inner)),
        ExprNode::Or(first, others) => push_or(tasks, left, *first, others),
        ExprNode::And(first, others) => push_and(tasks, left, *first, others),
        ExprNode::Equal(first, others) => push_equal(tasks, *first, others.as_slice()),
        ExprNode::Sum(first, others) => push_sum(tasks, *first, others),
        ExprNode::Not(inner) => push_then(tasks, *inner, Op::Not),
        ExprNode::Post(head, links) => push_post(tasks, id, *head, links.as_slice()),
        ExprNode::Print(values) => push_print(tasks, values),
        ExprNode::EmptyError => draft.put_empty_error(),
        ExprNode::NewError(message) => push_then(tasks, *message, Op::NewError),
        ExprNode::Import(specifier) => push_then(tasks, *specifier, Op::Import),
        ExprNode::Url => draft.put(Op::Url),
    }
}

/// Puts the operations of an expression in front, or puts down its parts.
fn put_part(
    alloc: Global,
    draft: &mut Draft,
    tasks: &mut Vec<Task>,
    tree: &Tree,
    blocks: &[Locals],
    id: ExprId,
) -> Result<(), Memory>
    ensures { (made : Row) → Leads (names_of blocks.now) tree.now.exprs
        (tasks.old.items ++ Task.Part id ∷ []) draft.old made
        → OnOk result (Leads (names_of blocks.now) tree.now.exprs tasks.new.items draft.new made) }
{
    let left = draft.left()?;
    match expr_at(tree, id) {
        Some(node) => put_node(alloc, draft, tasks, blocks, left, id, node),
        None => draft.put(Op::Undefined),
    }
}

/// Does what is next.
fn do_task(
    alloc: Global,
    draft: &mut Draft,
    tasks: &mut Vec<Task>,
    tree: &Tree,
    blocks: &[Locals],
    task: Task,
) -> Result<(), Memory>
    ensures { (made : Row) → Leads (names_of blocks.now) tree.now.exprs
        (tasks.old.items ++ task ∷ []) draft.old made
        → OnOk result (Leads (names_of blocks.now) tree.now.exprs tasks.new.items draft.new made) }
{
    match task {
        Task::Put(op) => draft.put(op),
        Task::Part(id) => put_part(alloc, draft, tasks, tree, blocks, id),
        Task::Member(id, at) => draft.put_member(alloc, member_text(tree, id, at)),
    }
}

/// Puts the operations of an expression in front.
pub(crate) fn put_expr(
    alloc: Global,
    draft: &mut Draft,
    tree: &Tree,
    blocks: &[Locals],
    id: ExprId,
) -> Result<(), Memory>
    ensures { (c : Row) → IsDraft draft.old c → OnOk result (IsDraft draft.new
        (expr_row (names_of blocks.now) (part tree.now.exprs id) c)) }
{
    let mut tasks = Vec::new(alloc);
    push_task(&mut tasks, Task::Part(id))?;
    for _ in 0..u64::MAX {
        match tasks.pop() {
            Some(task) => do_task(alloc, draft, &mut tasks, tree, blocks, task)?,
            None => return Ok(()),
        }
    }
    Err(Memory)
}
