// The rows of statements without others in them, with their steps.
ghost use Rattle.std.specs.Prelude.{◌∷◌, OnOk};
ghost use Rattle.esm_base.specs.DefaultExport.{star_default};
ghost use Rattle.esm_tree.specs.Syntax as x;
ghost use Rattle.esm_tree.specs.Flat.{bindings_of, init_of, part};
ghost use Rattle.esm_rows.specs.Rows.{Row, Operation, bindings_row, expr_row, found_here, init_row, set_by, stmt_row};
ghost use Rattle.esm_rows.specs.Rows.{Operation as o};
ghost use Rattle.esm_rows.specs.Locals.{names_of};
ghost use Rattle.esm_rows.specs.Drafts.{IsDraft, IsToldIn};

use crate::draft::Draft;
use crate::exprs::put_expr;
use crate::locals::Locals;
use crate::op::Op;
use esm_base::Memory;
use esm_tree::{ExprId, Initializer, LexicalBinding, Tree};
use std::alloc::Global;

/// Puts an awaited expression in front.
fn put_await(
    alloc: Global,
    draft: &mut Draft,
    tree: &Tree,
    blocks: &[Locals],
    id: ExprId,
) -> Result<(), Memory>
    ensures { (c : Row) → IsDraft draft.old c → OnOk result (IsDraft draft.new
        (expr_row (names_of blocks.now) (part tree.now.exprs id) (o.Await ∷ c))) }
{
    draft.put(Op::Await)?;
    put_expr(alloc, draft, tree, blocks, id)
}

/// Puts what a name is set to in front.
fn put_init(
    alloc: Global,
    draft: &mut Draft,
    tree: &Tree,
    blocks: &[Locals],
    init: Initializer,
) -> Result<(), Memory>
    ensures { (c : Row) → IsDraft draft.old c → OnOk result (IsDraft draft.new
        (init_row (names_of blocks.now) (init_of tree.now.exprs init) c)) }
{
    match init {
        Initializer::Absent => draft.put(Op::Undefined),
        Initializer::Plain(id) => put_expr(alloc, draft, tree, blocks, id),
        Initializer::Awaited(id) => put_await(alloc, draft, tree, blocks, id),
    }
}

/// Puts the declaration of a name in front.
fn put_declared(
    alloc: Global,
    draft: &mut Draft,
    tree: &Tree,
    blocks: &[Locals],
    name: &str,
    init: Initializer,
) -> Result<(), Memory>
    ensures { (c : Row) → IsDraft draft.old c → OnOk result (IsDraft draft.new
        (init_row (names_of blocks.now) (init_of tree.now.exprs init)
        (set_by name.now (found_here (names_of blocks.now) name.now) ∷ c))) }
{
    draft.put_set(alloc, blocks, name)?;
    put_init(alloc, draft, tree, blocks, init)
}

/// Puts bindings in front.
fn put_bindings(
    alloc: Global,
    draft: &mut Draft,
    tree: &Tree,
    blocks: &[Locals],
    bindings: &[LexicalBinding],
) -> Result<(), Memory>
    ensures { (c : Row) → IsDraft draft.old c → OnOk result (IsDraft draft.new
        (bindings_row (names_of blocks.now) (bindings_of tree.now.exprs bindings.now) c)) }
{
    for at in (0..bindings.len()).rev() {
        let binding = &bindings[at];
        put_declared(
            alloc,
            draft,
            tree,
            blocks,
            binding.name.as_str(),
            binding.value,
        )?;
    }
    Ok(())
}

/// Puts `const` or `let` in front.
pub(crate) fn put_declaration(
    alloc: Global,
    draft: &mut Draft,
    tree: &Tree,
    blocks: &[Locals],
    bindings: &[LexicalBinding],
) -> Result<(), Memory>
    ensures { (c : Row) → IsDraft draft.old c → OnOk result (IsDraft draft.new (o.Step
        ∷ bindings_row (names_of blocks.now) (bindings_of tree.now.exprs bindings.now) c)) }
{
    put_bindings(alloc, draft, tree, blocks, bindings)?;
    draft.put(Op::Step)
}

/// Puts `export default` before a value in front.
#[tactic(auto, unfolding(esm_base::specs::DefaultExport::star_default))]
pub(crate) fn put_default(
    alloc: Global,
    draft: &mut Draft,
    tree: &Tree,
    blocks: &[Locals],
    init: Initializer,
) -> Result<(), Memory>
    ensures { (c : Row) → IsDraft draft.old c → OnOk result (IsDraft draft.new (o.Step
        ∷ stmt_row (names_of blocks.now) (x.Default (init_of tree.now.exprs init)) c)) }
{
    put_declared(alloc, draft, tree, blocks, "*default*", init)?;
    draft.put(Op::Step)
}

/// Puts an assignment in front.
pub(crate) fn put_assign(
    alloc: Global,
    draft: &mut Draft,
    tree: &Tree,
    blocks: &[Locals],
    name: &str,
    init: Initializer,
) -> Result<(), Memory>
    ensures { (c : Row) → IsDraft draft.old c → OnOk result (IsDraft draft.new (o.Step
        ∷ stmt_row (names_of blocks.now) (x.Assign name.now (init_of tree.now.exprs init)) c)) }
{
    draft.put_write(alloc, blocks, name)?;
    put_init(alloc, draft, tree, blocks, init)?;
    draft.put(Op::Step)
}

/// Puts an expression in front, whose value this operation takes.
pub(crate) fn put_value(
    alloc: Global,
    draft: &mut Draft,
    tree: &Tree,
    blocks: &[Locals],
    id: ExprId,
    last: Op,
) -> Result<(), Memory>
    ensures { (c : Row) → (p : Operation) → IsDraft draft.old c → IsToldIn draft.old last p
        → OnOk result (IsDraft draft.new (o.Step
        ∷ expr_row (names_of blocks.now) (part tree.now.exprs id) (p ∷ c))) }
{
    draft.put(last)?;
    put_expr(alloc, draft, tree, blocks, id)?;
    draft.put(Op::Step)
}

/// Puts an expression that is awaited in front, whose value this operation takes.
pub(crate) fn put_awaited(
    alloc: Global,
    draft: &mut Draft,
    tree: &Tree,
    blocks: &[Locals],
    id: ExprId,
    last: Op,
) -> Result<(), Memory>
    ensures { (c : Row) → (p : Operation) → IsDraft draft.old c → IsToldIn draft.old last p
        → OnOk result (IsDraft draft.new (o.Step
        ∷ expr_row (names_of blocks.now) (part tree.now.exprs id) (o.Await ∷ p ∷ c))) }
{
    draft.put(last)?;
    put_await(alloc, draft, tree, blocks, id)?;
    draft.put(Op::Step)
}

/// Puts `return` without a value in front.
pub(crate) fn put_return(draft: &mut Draft) -> Result<(), Memory>
    ensures { (c : Row) → IsDraft draft.old c → OnOk result (IsDraft draft.new
        (o.Step ∷ o.Undefined ∷ o.Return ∷ c)) }
{
    draft.put(Op::Return)?;
    draft.put(Op::Undefined)?;
    draft.put(Op::Step)
}
