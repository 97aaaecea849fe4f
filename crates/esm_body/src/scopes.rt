// The names of blocks, functions and handlers.
ghost use Rattle.std.specs.Prelude.{◌≡◌, ◌++◌, ◌∷◌, [], ◌<◌, length, OnOk, IfOk};
ghost use Rattle.esm_tree.specs.Flat as flat;
ghost use Rattle.esm_env.specs.Declarations.{declared_by, declares, declared_in};
ghost use Rattle.esm_body.specs.Slots.{unset_slots, slot_with};

use crate::work::Slot;
use esm_base::{Memory, Text};
use esm_tree::{LexicalBinding, StmtId, StmtNode, Tree};
use esm_values::Value;
use std::alloc::Global;

/// Adds a name with a value, or unset.
pub(crate) fn add_slot(
    alloc: Global,
    slots: &mut Vec<Slot>,
    name: &str,
    constant: bool,
    value: Option<Value>,
) -> Result<(), Memory>
    ensures { OnOk result (slots.new.items ≡ slots.old.items
        ++ slot_with name.now constant value ∷ []) }
{
    let name = Text::copy(alloc, name)?;
    slots.push(Slot {
        name,
        constant,
        value,
    })?;
    Ok(())
}

/// Adds the names of bindings.
fn add_bindings(
    alloc: Global,
    slots: &mut Vec<Slot>,
    constant: bool,
    bindings: &[LexicalBinding],
) -> Result<(), Memory>
    ensures { (exprs : _) → OnOk result (slots.new.items ≡ slots.old.items
        ++ unset_slots (declared_by constant (flat.bindings_of exprs bindings.now))) }
{
    for binding in bindings.iter() {
        add_slot(alloc, slots, binding.name.as_str(), constant, None)?;
    }
    Ok(())
}

/// Adds the names that a statement declares by itself.
#[tactic(auto, unfolding(esm_base::specs::DefaultExport::star_default))]
fn add_declared(alloc: Global, slots: &mut Vec<Slot>, stmt: &StmtNode) -> Result<(), Memory>
    ensures { (exprs : _) (stmts : _) → OnOk result (slots.new.items ≡ slots.old.items
        ++ unset_slots (declares (flat.stmt_of exprs stmts stmt.now))) }
{
    match stmt {
        StmtNode::Const(bindings) => add_bindings(alloc, slots, true, bindings.as_slice()),
        StmtNode::Let(bindings) => add_bindings(alloc, slots, false, bindings.as_slice()),
        StmtNode::Default(_) => add_slot(alloc, slots, "*default*", true, None),
        StmtNode::Empty => Ok(()),
        StmtNode::Expression(_) => Ok(()),
        StmtNode::Assign(_) => Ok(()),
        StmtNode::Block(_) => Ok(()),
        StmtNode::If(_, _) => Ok(()),
        StmtNode::IfElse(_, _) => Ok(()),
        StmtNode::Try(_) => Ok(()),
        StmtNode::TryCatch(_) => Ok(()),
        StmtNode::Throw(_) => Ok(()),
        StmtNode::Return => Ok(()),
        StmtNode::ReturnValue(_) => Ok(()),
        StmtNode::Await(_) => Ok(()),
        StmtNode::PrintAwait(_) => Ok(()),
    }
}

/// Adds the names that statements declare by themselves.
pub(crate) fn add_block(
    alloc: Global,
    slots: &mut Vec<Slot>,
    tree: &Tree,
    ids: &[StmtId],
) -> Result<(), Memory>
    requires { flat.AllStmtsBelow (length tree.now.stmts) ids.now }
    ensures { OnOk result (slots.new.items ≡ slots.old.items
        ++ unset_slots (declared_in (flat.stmt_parts tree.now.stmts ids.now))) }
{
    for id in ids.iter() {
        add_declared(alloc, slots, tree.stmt(*id))?;
    }
    Ok(())
}
