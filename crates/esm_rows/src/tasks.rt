// What is still to be put in front of a row: the last is next.
ghost use Rattle.std.specs.Prelude.{◌≡◌, ◌++◌, ◌∷◌, [], OnOk, length};
ghost use Rattle.std.specs.List.{flat_map};
ghost use Rattle.esm_rows.specs.Making.{and_tasks, compare_tasks, link_tasks, links_tasks, or_tasks, part_tasks, sum_tasks};

use crate::names::count;
use crate::op::Op;
use esm_base::Memory;
use esm_tree::{ExprId, ExprIds, Link};

/// What is still to be put in front of a row.
#[derive(Clone, Copy)]
pub enum Task {
    /// This operation, which names no text.
    Put(Op),
    /// The operations of an expression.
    Part(ExprId),
    /// The operation of the member with this number behind a head.
    Member(ExprId, usize),
}

/// One task more.
pub(crate) fn push_task(tasks: &mut Vec<Task>, task: Task) -> Result<(), Memory>
    ensures { OnOk result (tasks.new.items ≡ tasks.old.items ++ task ∷ []) }
{
    tasks.push(task)?;
    Ok(())
}

/// Two more.
pub(crate) fn push_both(tasks: &mut Vec<Task>, first: Task, second: Task) -> Result<(), Memory>
    ensures { OnOk result (tasks.new.items ≡ tasks.old.items ++ first ∷ second ∷ []) }
{
    tasks.push(first)?;
    tasks.push(second)?;
    Ok(())
}

/// Expressions one after another.
pub(crate) fn push_parts(tasks: &mut Vec<Task>, ids: &[ExprId]) -> Result<(), Memory>
    ensures { OnOk result (tasks.new.items ≡ tasks.old.items ++ flat_map part_tasks ids.now) }
{
    for id in ids.iter() {
        push_task(tasks, Task::Part(*id))?;
    }
    Ok(())
}

/// The further operands of `||`, behind which so many operations are left.
pub(crate) fn push_ors(tasks: &mut Vec<Task>, left: u32, ids: &[ExprId]) -> Result<(), Memory>
    ensures { OnOk result (tasks.new.items ≡ tasks.old.items ++ flat_map (or_tasks left) ids.now) }
{
    for id in ids.iter() {
        push_both(tasks, Task::Put(Op::OrElse(left)), Task::Part(*id))?;
    }
    Ok(())
}

/// The same of `&&`.
pub(crate) fn push_ands(tasks: &mut Vec<Task>, left: u32, ids: &[ExprId]) -> Result<(), Memory>
    ensures { OnOk result (tasks.new.items ≡ tasks.old.items ++ flat_map (and_tasks left) ids.now) }
{
    for id in ids.iter() {
        push_both(tasks, Task::Put(Op::AndAlso(left)), Task::Part(*id))?;
    }
    Ok(())
}

/// The further operands of `+`.
pub(crate) fn push_sums(tasks: &mut Vec<Task>, ids: &[ExprId]) -> Result<(), Memory>
    ensures { OnOk result (tasks.new.items ≡ tasks.old.items ++ flat_map sum_tasks ids.now) }
{
    for id in ids.iter() {
        push_both(tasks, Task::Part(*id), Task::Put(Op::Add))?;
    }
    Ok(())
}

/// The further operands of `===` and `!==`.
pub(crate) fn push_compared(tasks: &mut Vec<Task>, parts: &[(bool, ExprId)]) -> Result<(), Memory>
    ensures { OnOk result (tasks.new.items ≡ tasks.old.items ++ flat_map compare_tasks parts.now) }
{
    for part in parts.iter() {
        push_both(tasks, Task::Part(part.1), Task::Put(Op::Compare(part.0)))?;
    }
    Ok(())
}

/// An expression, and an operation behind it.
pub(crate) fn push_then(tasks: &mut Vec<Task>, id: ExprId, op: Op) -> Result<(), Memory>
    ensures { OnOk result (tasks.new.items ≡ tasks.old.items ++ Task.Part id ∷ Task.Put op ∷ []) }
{
    push_both(tasks, Task::Part(id), Task::Put(op))
}

/// Operands of `||`.
pub(crate) fn push_or(
    tasks: &mut Vec<Task>,
    left: u32,
    first: ExprId,
    others: &ExprIds,
) -> Result<(), Memory>
    ensures { OnOk result (tasks.new.items ≡ tasks.old.items
        ++ Task.Part first ∷ flat_map (or_tasks left) others.now.items) }
{
    push_task(tasks, Task::Part(first))?;
    push_ors(tasks, left, others.as_slice())
}

/// Operands of `&&`.
pub(crate) fn push_and(
    tasks: &mut Vec<Task>,
    left: u32,
    first: ExprId,
    others: &ExprIds,
) -> Result<(), Memory>
    ensures { OnOk result (tasks.new.items ≡ tasks.old.items
        ++ Task.Part first ∷ flat_map (and_tasks left) others.now.items) }
{
    push_task(tasks, Task::Part(first))?;
    push_ands(tasks, left, others.as_slice())
}

/// Operands of `+`.
pub(crate) fn push_sum(tasks: &mut Vec<Task>, first: ExprId, others: &ExprIds) -> Result<(), Memory>
    ensures { OnOk result (tasks.new.items ≡ tasks.old.items
        ++ Task.Part first ∷ flat_map sum_tasks others.now.items) }
{
    push_task(tasks, Task::Part(first))?;
    push_sums(tasks, others.as_slice())
}

/// Operands of `===` and `!==`.
pub(crate) fn push_equal(
    tasks: &mut Vec<Task>,
    first: ExprId,
    others: &[(bool, ExprId)],
) -> Result<(), Memory>
    ensures { OnOk result (tasks.new.items ≡ tasks.old.items
        ++ Task.Part first ∷ flat_map compare_tasks others.now) }
{
    push_task(tasks, Task::Part(first))?;
    push_compared(tasks, others)
}

/// Arguments, and an operation behind them.
fn push_all(tasks: &mut Vec<Task>, ids: &[ExprId], op: Op) -> Result<(), Memory>
    ensures { OnOk result (tasks.new.items ≡ tasks.old.items
        ++ (flat_map part_tasks ids.now ++ Task.Put op ∷ [])) }
{
    push_parts(tasks, ids)?;
    push_task(tasks, Task::Put(op))
}

/// Printed values.
pub(crate) fn push_print(tasks: &mut Vec<Task>, values: &ExprIds) -> Result<(), Memory>
    ensures { OnOk result (tasks.new.items ≡ tasks.old.items
        ++ (flat_map part_tasks values.now.items
        ++ Task.Put (Op.Print (length values.now.items)) ∷ [])) }
{
    let ids = values.as_slice();
    let many = count(ids.len())?;
    push_all(tasks, ids, Op::Print(many))
}

/// The arguments of a call.
fn push_call(tasks: &mut Vec<Task>, values: &ExprIds) -> Result<(), Memory>
    ensures { OnOk result (tasks.new.items ≡ tasks.old.items
        ++ (flat_map part_tasks values.now.items
        ++ Task.Put (Op.Call (length values.now.items)) ∷ [])) }
{
    let ids = values.as_slice();
    let many = count(ids.len())?;
    push_all(tasks, ids, Op::Call(many))
}

/// The link with this number behind the head of this expression.
fn push_link(tasks: &mut Vec<Task>, id: ExprId, at: usize, link: &Link) -> Result<(), Memory>
    ensures { OnOk result (tasks.new.items ≡ tasks.old.items ++ link_tasks id at link.now) }
{
    match link {
        Link::Member(_) => push_task(tasks, Task::Member(id, at)),
        Link::Call(values) => push_call(tasks, values),
    }
}

/// Links behind the head of this expression.
fn push_links(tasks: &mut Vec<Task>, id: ExprId, links: &[Link]) -> Result<(), Memory>
    ensures { OnOk result (tasks.new.items ≡ tasks.old.items ++ links_tasks id 0 links.now) }
{
    for at in 0..links.len() {
        push_link(tasks, id, at, &links[at])?;
    }
    Ok(())
}

/// A head, and the links behind it.
pub(crate) fn push_post(
    tasks: &mut Vec<Task>,
    id: ExprId,
    head: ExprId,
    links: &[Link],
) -> Result<(), Memory>
    ensures { OnOk result (tasks.new.items ≡ tasks.old.items
        ++ Task.Part head ∷ links_tasks id 0 links.now) }
{
    push_task(tasks, Task::Part(head))?;
    push_links(tasks, id, links)
}
