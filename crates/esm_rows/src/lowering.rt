// Rows are made of functions.
ghost use Rattle.std.specs.Prelude.{◌∷◌, [], List, ℕ, IfOk};
ghost use Rattle.std.specs.Arc.{arc_value};
ghost use Rattle.esm_tree.specs.Flat.{item_of, stmt_parts};
ghost use Rattle.esm_env.specs.Declarations.{function_code, functions_by};
ghost use Rattle.esm_env.specs.OwnNames.{own_names};
ghost use Rattle.esm_rows.specs.Rows.{stmts_row};
ghost use Rattle.esm_rows.specs.Rows.{Operation as o};
ghost use Rattle.esm_rows.specs.Locals.{declared};
ghost use Rattle.esm_rows.specs.Drafts.{IsDraft};
ghost use Rattle.esm_rows.specs.Functions.{IsFirstRow, IsRow, IsRowOf};

use crate::blocks::{add_names, add_parameters, beside, many_in};
use crate::draft::Draft;
use crate::locals::Locals;
use crate::maker::Maker;
use crate::names::count;
use crate::owns::own_first;
use crate::row::Row;
use esm_base::{Memory, Text};
use esm_env::ModuleScope;
use esm_tree::{ItemNode, StmtId, Tree};
use std::alloc::Global;

/// The operations of a body whose names are those of this block.
fn made(alloc: Global, tree: &Tree, block: Locals, body: &[StmtId]) -> Result<Draft, Memory>
    ensures { IfOk result (λ d. IsDraft d (stmts_row (declared block ∷ [])
        (stmt_parts tree.now.stmts body.now) (o.End ∷ []))) }
{
    let mut maker = Maker::of(alloc, block, body)?;
    maker.run(alloc, tree)?;
    Ok(maker.draft)
}

/// The row of a function with these parameters and this body.
fn row_of(alloc: Global, tree: &Tree, parameters: &[Text], body: &[StmtId]) -> Result<Row, Memory>
    ensures { (name : List ℕ) → IfOk result (IsRow []
        (function_code name parameters.now (stmt_parts tree.now.stmts body.now))) }
{
    let mut list = Vec::new(alloc);
    add_parameters(alloc, &mut list, parameters)?;
    add_names(alloc, &mut list, tree, body)?;
    let names = Locals::of(alloc, list)?;
    let all = many_in(&names)?;
    let given = count(parameters.len())?;
    let own = beside(all, given)?;
    let draft = made(alloc, tree, names, body)?;
    Ok(Row {
        ops: draft.ops,
        texts: draft.texts,
        parameters: given,
        names: own,
    })
}

/// The same, of an item that declares a function.
fn function_row(
    alloc: Global,
    tree: &Tree,
    parameters: &[Text],
    body: &[StmtId],
) -> Result<Option<Row>, Memory>
    ensures { (name : List ℕ) → IfOk result (IsFirstRow []
        (function_code name parameters.now (stmt_parts tree.now.stmts body.now) ∷ [])) }
{
    let row = row_of(alloc, tree, parameters, body)?;
    Ok(Some(row))
}

/// The row of the function that an item declares, if it declares one.
fn item_row(alloc: Global, tree: &Tree, item: &ItemNode) -> Result<Option<Row>, Memory>
    ensures { IfOk result (IsFirstRow [] (functions_by (item_of tree.now.stmts item.now))) }
{
    match item {
        ItemNode::ExportFunction(node) => {
            function_row(
                alloc,
                tree,
                node.parameters.as_slice(),
                node.body.as_slice(),
            )
        }
        ItemNode::ExportDefaultFunction(node) => {
            function_row(
                alloc,
                tree,
                node.parameters.as_slice(),
                node.body.as_slice(),
            )
        }
        ItemNode::Function(node) => {
            function_row(
                alloc,
                tree,
                node.parameters.as_slice(),
                node.body.as_slice(),
            )
        }
        ItemNode::ExportStatement(_) => Ok(None),
        ItemNode::Statement(_) => Ok(None),
        ItemNode::ImportEffect(_) => Ok(None),
        ItemNode::Import(_) => Ok(None),
        ItemNode::ExportAll(_) => Ok(None),
        ItemNode::ExportAllAs(_) => Ok(None),
        ItemNode::ExportFrom(_) => Ok(None),
        ItemNode::ExportList(_) => Ok(None),
    }
}

/// The row of the function with this number of a module, if it has one. It answers `Memory` where memory runs out, or
/// where the row would have 2^32 operations, texts or names.
pub fn lower(alloc: Global, scope: &ModuleScope, index: u32) -> Result<Option<Row>, Memory>
    ensures { IfOk result (IsRowOf (own_names (arc_value scope.now.tree).items)
        (arc_value scope.now.tree) index) }
{
    match scope.function(index) {
        Some(item) => {
            let row = item_row(alloc, &scope.tree, item)?;
            Ok(own_first(scope, row))
        }
        None => Ok(None),
    }
}
