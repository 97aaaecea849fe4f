// Lists of numbers of expressions in nodes.
ghost use Rattle.std.specs.Prelude.{◌≡◌, ◌≤◌, IfOk, length, take};

use crate::ExprId;
use esm_base::Memory;
use std::marker::Model;

// How many numbers lie in the node.
const FEW: usize = 5;

// Where the numbers lie.
#[derive(Drop)]
enum Form {
    // In the node: how many, and the numbers with what is behind them.
    Few(u8, [ExprId; FEW]),
    // In memory of their own.
    Many(Box<Vec<ExprId>>),
}

/// Numbers of expressions, in order. Up to five lie in the node itself and take no memory of their own. Contracts see
/// them as the `items` of a list.
#[derive(Drop)]
pub struct ExprIds {
    form: Form,
}

impl Model for ExprIds {
    ghost use Rattle.esm_tree.specs.ExprIds.{ExprIds as Ids, ids_of, IsForm};

    ghost Value = { Ids };

    ghost view = { λ l. record { items = ids_of l.form } };

    ghost invariant = { λ l. IsForm l.form };
}

// These numbers, with zeros behind them.
fn padded(ids: &[ExprId]) -> [ExprId; FEW]
    requires { length ids.now ≤ 5 }
    ensures { take (length ids.now) result ≡ ids.now }
{
    let mut all = [ExprId(0); FEW];
    all[..ids.len()].copy_from_slice(ids);
    all
}

impl ExprIds {
    /// The numbers of a list, which gives its memory back where they are few.
    pub fn of(list: Vec<ExprId>) -> Result<ExprIds, Memory>
        ensures { IfOk result (λ ids. ids.items ≡ list.items) }
    {
        if list.len() <= FEW {
            return Ok(ExprIds {
                form: Form::Few(list.len() as u8, padded(&list)),
            });
        }
        let list = Box::new(*list.allocator(), list)?;
        Ok(ExprIds {
            form: Form::Many(list),
        })
    }

    /// The numbers. It doesn't allocate.
    pub fn as_slice(&self) -> &[ExprId]
        ensures { result.now ≡ self.now.items }
    {
        match &self.form {
            Form::Few(len, ids) => &ids[..*len as usize],
            Form::Many(list) => list.as_slice(),
        }
    }
}
