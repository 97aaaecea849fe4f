// What remains of a level: statements that haven't begun take little room.
ghost use Rattle.std.specs.Prelude.{◌≡◌, ◌++◌, ◌∷◌, [], IsTrue};
ghost use Rattle.esm_body.specs.Inner.Remainders.{IsLast, wholes};

use crate::work::Work;
use esm_tree::StmtId;
use std::alloc::Global;
use std::marker::Model;

/// What remains of a level, the first last. Contracts see the list of it.
#[derive(Drop)]
pub struct Remaining {
    /// Statements that haven't begun, behind all else.
    statements: Vec<StmtId>,
    /// What is in front of them.
    front: Vec<Work>,
}

impl Model for Remaining {
    ghost use Rattle.std.specs.Prelude.{List, ◌++◌};
    ghost use Rattle.esm_body.specs.declared.work.Work.{Work};
    ghost use Rattle.std.specs.Coded.{codes};
    ghost use Rattle.esm_body.specs.contracts.work.Work as work;

    ghost Value = { List Work };

    // How the logic stores the list: plumbing that no clause cites.
    ghost coded = { Prim.hlevel (codes, work.the_row.coded) };

    ghost use Rattle.esm_body.specs.Inner.Remainders.{wholes};

    ghost view = { λ r. wholes r.statements.items ++ r.front.items };
}

/// Takes room for one part where there is room for none: mostly no second stands beside it. Where there is no memory it
/// answers no.
fn has_room(front: &mut Vec<Work>) -> bool
    ensures { front.new.items ≡ front.old.items }
{
    front.capacity() > 0 || front.reserve_exact(1).is_ok()
}

/// Adds a part behind the others, where there is memory.
fn is_put(front: &mut Vec<Work>, one: Work) -> bool
    ensures { IsTrue result → front.new.items ≡ front.old.items ++ one ∷ [] }
{
    has_room(front) && front.push(one).is_ok()
}

/// Takes the last part, if there is one.
fn last_part(front: &mut Vec<Work>) -> Option<Work>
    ensures { IsLast front.old.items result front.new.items }
{
    front.pop()
}

/// Takes the last statement, if there is one.
fn last_statement(statements: &mut Vec<StmtId>) -> Option<Work>
    ensures { IsLast (wholes statements.old.items) result (wholes statements.new.items) }
{
    match statements.pop() {
        Some(id) => Some(Work::Whole(id)),
        None => None,
    }
}

impl Remaining {
    /// These statements, the first last. It doesn't allocate.
    pub(crate) fn of(alloc: Global, statements: Vec<StmtId>) -> Remaining
        ensures { result ≡ wholes statements.items }
    {
        Remaining {
            statements,
            front: Vec::new(alloc),
        }
    }

    /// Adds a part in front, where there is memory. Where there is none it answers no, and nothing
    /// is said of what remains.
    pub(crate) fn is_pushed(&mut self, one: Work) -> bool
        ensures { IsTrue result → self.new ≡ self.old ++ one ∷ [] }
    {
        is_put(&mut self.front, one)
    }

    /// Takes the first part, if there is one.
    pub(crate) fn pop(&mut self) -> Option<Work>
        ensures { IsLast self.old result self.new }
    {
        match last_part(&mut self.front) {
            Some(one) => Some(one),
            None => last_statement(&mut self.statements),
        }
    }
}
