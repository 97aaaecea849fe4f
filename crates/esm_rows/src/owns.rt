// Names that a module itself declares are read by their places in it.
ghost use Rattle.std.specs.Prelude.{◌≡◌, ◌<◌, [], List, ℕ, Some, length, slice_get};
ghost use Rattle.esm_env.specs.Declarations.{FunctionCode};
ghost use Rattle.esm_env.specs.NamePlaces.{first_place};
ghost use Rattle.esm_env.specs.Placed.{names_of};
ghost use Rattle.esm_rows.specs.Functions.{IsFirstRow, IsRow};
ghost use Rattle.esm_rows.specs.Making.{IsTold};
ghost use Rattle.esm_rows.specs.Owning.{AreStill, IsStill};
ghost use Rattle.esm_rows.specs.Rows.{Operation as o};

use crate::op::Op;
use crate::row::Row;
use esm_env::ModuleScope;
use esm_values::RcText;

/// The read of a name, whose text stands here, by its place in the module. Where that is too large, by the text.
fn own_place(place: usize, text: u32) -> Op
    ensures { (owns : List (List ℕ)) → (texts : List (List ℕ)) → (x : List ℕ)
        → slice_get texts text ≡ Some x → first_place owns x ≡ Some place
        → IsTold owns texts result (o.Name x) }
{
    match u32::try_from(place) {
        Ok(at) => Op::Own(at),
        Err(_) => Op::Name(text),
    }
}

/// The read of a name, whose text stands here, by its place if the module itself declares it.
fn own_name(scope: &ModuleScope, texts: &[RcText], text: u32) -> Op
    ensures { (x : List ℕ) → slice_get texts.now text ≡ Some x
        → IsTold (names_of scope.now) texts.now result (o.Name x) }
{
    let at = text as usize;
    if at < texts.len() {
        match scope.place(texts[at].as_str()) {
            Some(place) => own_place(place, text),
            None => Op::Name(text),
        }
    } else {
        Op::Name(text)
    }
}

/// An operation that reads a name of the module by its place.
fn own_op(scope: &ModuleScope, texts: &[RcText], op: Op) -> Op
    ensures { IsStill (names_of scope.now) texts.now op result }
{
    match op {
        Op::Name(text) => own_name(scope, texts, text),
        _ => op,
    }
}

/// The operation at a place does.
fn own_at(scope: &ModuleScope, texts: &[RcText], ops: &mut Vec<Op>, at: usize)
    requires { at < length ops.old.items }
    ensures many { length ops.new.items ≡ length ops.old.items }
    ensures told { AreStill (names_of scope.now) texts.now ops.old.items ops.new.items }
{
    let owned = own_op(scope, texts, ops[at]);
    ops[at] = owned;
}

/// All operations do.
fn own_ops(scope: &ModuleScope, texts: &[RcText], ops: &mut Vec<Op>)
    ensures { AreStill (names_of scope.now) texts.now ops.old.items ops.new.items }
{
    for at in 0..ops.len() {
        own_at(scope, texts, ops, at);
    }
}

/// A row that reads names of the module by their places.
fn own_row(scope: &ModuleScope, row: Row) -> Row
    ensures { (f : FunctionCode) → IsRow [] f row → IsRow (names_of scope.now) f result }
{
    let mut ops = row.ops;
    own_ops(scope, row.texts.as_slice(), &mut ops);
    Row {
        ops,
        texts: row.texts,
        parameters: row.parameters,
        names: row.names,
    }
}

/// The same, of the row of a function that may be there.
pub(crate) fn own_first(scope: &ModuleScope, row: Option<Row>) -> Option<Row>
    ensures { (fs : List FunctionCode) → IsFirstRow [] fs row
        → IsFirstRow (names_of scope.now) fs result }
{
    match row {
        Some(row) => Some(own_row(scope, row)),
        None => None,
    }
}
