// What is still to be put in front of a row of statements: the last is next.
ghost use Rattle.std.specs.Prelude.{◌≡◌, ◌++◌, ◌∷◌, [], OnOk};
ghost use Rattle.std.specs.List.{flat_map};
ghost use Rattle.esm_rows.specs.Working.{statement_works};

use crate::op::Op;
use esm_base::Memory;
use esm_tree::{ExprId, StmtId};

/// What is still to be put in front of a row.
#[derive(Clone, Copy)]
pub(crate) enum Work {
    /// This operation, which names no text.
    Put(Op),
    /// The operations of a statement, with its step.
    Statement(StmtId),
    /// The operations of an expression.
    Value(ExprId),
    /// The innermost block ends, which begins with this operation.
    Begin(Op),
    /// The first block of an `if`, in front of the other one, behind which so many operations are left.
    First(StmtId, u32),
    /// The block of a `try`, in front of its handler, behind which so many operations are left.
    Tried(StmtId, u32),
}

/// One work more.
pub(crate) fn push_work(works: &mut Vec<Work>, work: Work) -> Result<(), Memory>
    ensures { OnOk result (works.new.items ≡ works.old.items ++ work ∷ []) }
{
    works.push(work)?;
    Ok(())
}

/// Two more.
pub(crate) fn push_two(works: &mut Vec<Work>, first: Work, second: Work) -> Result<(), Memory>
    ensures { OnOk result (works.new.items ≡ works.old.items ++ first ∷ second ∷ []) }
{
    works.push(first)?;
    works.push(second)?;
    Ok(())
}

/// An `if`, the row of whose other block is there or comes first.
pub(crate) fn push_if(
    works: &mut Vec<Work>,
    id: StmtId,
    value: ExprId,
    left: u32,
) -> Result<(), Memory>
    ensures { OnOk result (works.new.items ≡ works.old.items
        ++ Work.Put Op.Step ∷ Work.Value value ∷ Work.First id left ∷ []) }
{
    push_two(works, Work::Put(Op::Step), Work::Value(value))?;
    push_work(works, Work::First(id, left))
}

/// Statements one after another.
pub(crate) fn push_statements(works: &mut Vec<Work>, ids: &[StmtId]) -> Result<(), Memory>
    ensures { OnOk result (works.new.items ≡ works.old.items ++ flat_map statement_works ids.now) }
{
    for id in ids.iter() {
        push_work(works, Work::Statement(*id))?;
    }
    Ok(())
}
