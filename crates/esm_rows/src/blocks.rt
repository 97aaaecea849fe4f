// The names of the blocks round a place, as they are entered and left.
ghost use Rattle.std.specs.Prelude.{◌≡◌, ◌+◌, ◌++◌, ◌∷◌, [], List, Some, IfOk, OnOk, length, map};
ghost use Rattle.esm_tree.specs.Syntax.{Expr, Stmt};
ghost use Rattle.esm_tree.specs.Flat.{bindings_of, stmt_of, stmt_parts};
ghost use Rattle.esm_env.specs.Declarations.{declared_by, declared_in, declares};
ghost use Rattle.esm_rows.specs.Rows.{caught_names, parameter};
ghost use Rattle.esm_rows.specs.Locals.{declared, names_of};
ghost use Rattle.esm_rows.specs.Working.{outer};

use crate::locals::Locals;
use crate::names::{Local, count};
use crate::nodes::stmt_at;
use esm_base::{Memory, Text};
use esm_tree::{LexicalBinding, StmtId, StmtNode, Tree};
use esm_values::RcText;
use std::alloc::Global;

/// Adds a name.
fn add_name(alloc: Global, names: &mut Vec<Local>, name: &str, constant: bool) -> Result<(), Memory>
    ensures { OnOk result (declared names.new.items
        ≡ declared names.old.items ++ record { name = name.now; constant = constant } ∷ []) }
{
    let name = RcText::copy(alloc, name)?;
    names.push(Local { name, constant })?;
    Ok(())
}

/// Adds the parameters of a function.
pub(crate) fn add_parameters(
    alloc: Global,
    names: &mut Vec<Local>,
    parameters: &[Text],
) -> Result<(), Memory>
    ensures { OnOk result (declared names.new.items
        ≡ declared names.old.items ++ map parameter parameters.now) }
{
    for name in parameters.iter() {
        add_name(alloc, names, name.as_str(), false)?;
    }
    Ok(())
}

/// Adds the names of bindings.
fn add_bindings(
    alloc: Global,
    names: &mut Vec<Local>,
    constant: bool,
    bindings: &[LexicalBinding],
) -> Result<(), Memory>
    ensures { (exprs : List Expr) → OnOk result (declared names.new.items
        ≡ declared names.old.items ++ declared_by constant (bindings_of exprs bindings.now)) }
{
    for binding in bindings.iter() {
        add_name(alloc, names, binding.name.as_str(), constant)?;
    }
    Ok(())
}

/// Adds the names that a statement declares by itself.
#[tactic(auto, unfolding(esm_base::specs::DefaultExport::star_default))]
fn add_declared(alloc: Global, names: &mut Vec<Local>, stmt: &StmtNode) -> Result<(), Memory>
    ensures { (exprs : List Expr) → (stmts : List Stmt) → OnOk result (declared names.new.items
        ≡ declared names.old.items ++ declares (stmt_of exprs stmts stmt.now)) }
{
    match stmt {
        StmtNode::Const(bindings) => add_bindings(alloc, names, true, bindings.as_slice()),
        StmtNode::Let(bindings) => add_bindings(alloc, names, false, bindings.as_slice()),
        StmtNode::Default(_) => add_name(alloc, names, "*default*", true),
        StmtNode::Empty => Ok(()),
        StmtNode::Expression(_) => Ok(()),
        StmtNode::Assign(_) => Ok(()),
        StmtNode::Block(_) => Ok(()),
        StmtNode::If(_, _) => Ok(()),
        StmtNode::IfElse(_, _) => Ok(()),
        StmtNode::Try(_) => Ok(()),
        StmtNode::TryCatch(_) => Ok(()),
        StmtNode::Throw(_) => Ok(()),
        StmtNode::Return => Ok(()),
        StmtNode::ReturnValue(_) => Ok(()),
        StmtNode::Await(_) => Ok(()),
        StmtNode::PrintAwait(_) => Ok(()),
    }
}

/// Adds the names that the statement with this number declares by itself.
fn add_at(alloc: Global, names: &mut Vec<Local>, tree: &Tree, id: StmtId) -> Result<(), Memory>
    ensures { OnOk result (declared names.new.items
        ≡ declared names.old.items ++ declared_in (stmt_parts tree.now.stmts (id ∷ []))) }
{
    match stmt_at(tree, id) {
        Some(stmt) => add_declared(alloc, names, stmt),
        None => Ok(()),
    }
}

/// Adds the names that statements declare.
pub(crate) fn add_names(
    alloc: Global,
    names: &mut Vec<Local>,
    tree: &Tree,
    ids: &[StmtId],
) -> Result<(), Memory>
    ensures { OnOk result (declared names.new.items
        ≡ declared names.old.items ++ declared_in (stmt_parts tree.now.stmts ids.now)) }
{
    for id in ids.iter() {
        add_at(alloc, names, tree, *id)?;
    }
    Ok(())
}

/// The block of these statements.
pub(crate) fn block_of(alloc: Global, tree: &Tree, ids: &[StmtId]) -> Result<Locals, Memory>
    ensures { IfOk result (λ block. declared block
        ≡ declared_in (stmt_parts tree.now.stmts ids.now)) }
{
    let mut list = Vec::new(alloc);
    add_names(alloc, &mut list, tree, ids)?;
    Locals::of(alloc, list)
}

/// The block of these statements behind the name of what was thrown.
pub(crate) fn catch_block(
    alloc: Global,
    tree: &Tree,
    name: &str,
    ids: &[StmtId],
) -> Result<Locals, Memory>
    ensures { IfOk result (λ block. declared block
        ≡ caught_names (Some name.now) ++ declared_in (stmt_parts tree.now.stmts ids.now)) }
{
    let mut list = Vec::new(alloc);
    add_name(alloc, &mut list, name, false)?;
    add_names(alloc, &mut list, tree, ids)?;
    Locals::of(alloc, list)
}

/// How many names a block has.
pub(crate) fn many_in(names: &Locals) -> Result<u32, Memory>
    ensures { IfOk result (λ n. n ≡ length (declared names.now)) }
{
    count(names.len())
}

/// How many there are beside these.
pub(crate) fn beside(all: u32, these: u32) -> Result<u32, Memory>
    ensures { IfOk result (λ n. these + n ≡ all) }
{
    match all.checked_sub(these) {
        Some(n) => Ok(n),
        None => Err(Memory),
    }
}

/// One block more, inside the others.
pub(crate) fn push_block(blocks: &mut Vec<Locals>, block: Locals) -> Result<(), Memory>
    ensures { OnOk result (names_of blocks.new.items
        ≡ declared block ∷ names_of blocks.old.items) }
{
    blocks.push(block)?;
    Ok(())
}

/// Leaves the innermost block.
pub(crate) fn pop_block(blocks: &mut Vec<Locals>)
    ensures { names_of blocks.new.items ≡ outer (names_of blocks.old.items) }
{
    let _block = blocks.pop();
}
