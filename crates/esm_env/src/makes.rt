// The slots of a module's names, from its tree.
ghost use Rattle.std.specs.Prelude.{◌≡◌, ◌++◌, ◌∷◌, [], ◌≤◌, ◌<◌, ◌+◌, ◌^◌, length, OnOk, IfOk, None};
ghost use Rattle.esm_tree.specs.Syntax.{nothing};
ghost use Rattle.esm_tree.specs.Flat as flat;
ghost use Rattle.esm_env.specs.Declarations.{declared_by, declares, declared_in, body_of, onto, does};
ghost use Rattle.esm_env.specs.Makes.{unset_slots, function_slots, function_names, names_by, one_name, slots_for};

use crate::slots::Slot;
use esm_base::{Memory, ModuleId, Text};
use esm_tree::{ItemNode, LexicalBinding, StmtNode, Tree};
use esm_values::{FuncId, Value};
use std::alloc::Global;

/// Adds a name that isn't set.
fn add_unset(alloc: Global, slots: &mut Vec<Slot>, name: &str, constant: bool) -> Result<(), Memory>
    ensures { OnOk result (slots.new.items ≡ slots.old.items
        ++ record { name = name.now; constant = constant; function = None; written = None } ∷ []) }
{
    let name = Text::copy(alloc, name)?;
    slots.push(Slot {
        name,
        constant,
        function: None,
        written: None,
    })?;
    Ok(())
}

/// Adds the names of bindings.
fn declare(
    alloc: Global,
    slots: &mut Vec<Slot>,
    constant: bool,
    bindings: &[LexicalBinding],
) -> Result<(), Memory>
    ensures { (exprs : _) → OnOk result (slots.new.items ≡ slots.old.items
        ++ unset_slots (declared_by constant (flat.bindings_of exprs bindings.now))) }
{
    for binding in bindings.iter() {
        add_unset(alloc, slots, binding.name.as_str(), constant)?;
    }
    Ok(())
}

/// Adds the names that a statement declares by itself.
#[tactic(auto, unfolding(esm_base::specs::DefaultExport::star_default))]
fn declare_stmt(alloc: Global, slots: &mut Vec<Slot>, stmt: &StmtNode) -> Result<(), Memory>
    ensures { (exprs : _) (stmts : _) → OnOk result (slots.new.items ≡ slots.old.items
        ++ unset_slots (declares (flat.stmt_of exprs stmts stmt.now))) }
{
    match stmt {
        StmtNode::Const(bindings) => declare(alloc, slots, true, bindings.as_slice()),
        StmtNode::Let(bindings) => declare(alloc, slots, false, bindings.as_slice()),
        StmtNode::Default(_) => add_unset(alloc, slots, "*default*", true),
        StmtNode::Empty => Ok(()),
        StmtNode::Expression(_) => Ok(()),
        StmtNode::Assign(_) => Ok(()),
        StmtNode::Block(_) => Ok(()),
        StmtNode::If(_, _) => Ok(()),
        StmtNode::IfElse(_, _) => Ok(()),
        StmtNode::Try(_) => Ok(()),
        StmtNode::TryCatch(_) => Ok(()),
        StmtNode::Throw(_) => Ok(()),
        StmtNode::Return => Ok(()),
        StmtNode::ReturnValue(_) => Ok(()),
        StmtNode::Await(_) => Ok(()),
        StmtNode::PrintAwait(_) => Ok(()),
    }
}

/// Adds the names that the statement of an item declares by itself.
fn declare_item(
    alloc: Global,
    slots: &mut Vec<Slot>,
    tree: &Tree,
    item: &ItemNode,
) -> Result<(), Memory>
    requires { flat.item_need item.now ≤ length tree.now.stmts }
    ensures { OnOk result (slots.new.items ≡ slots.old.items
        ++ unset_slots (declared_in (onto (does (flat.item_of tree.now.stmts item.now)) nothing))) }
{
    match item {
        ItemNode::ExportStatement(id) => declare_stmt(alloc, slots, tree.stmt(*id)),
        ItemNode::Statement(id) => declare_stmt(alloc, slots, tree.stmt(*id)),
        ItemNode::ImportEffect(_) => Ok(()),
        ItemNode::Import(_) => Ok(()),
        ItemNode::ExportAll(_) => Ok(()),
        ItemNode::ExportAllAs(_) => Ok(()),
        ItemNode::ExportFrom(_) => Ok(()),
        ItemNode::ExportList(_) => Ok(()),
        ItemNode::ExportFunction(_) => Ok(()),
        ItemNode::ExportDefaultFunction(_) => Ok(()),
        ItemNode::Function(_) => Ok(()),
    }
}

/// Adds the names that the statements of a module declare.
fn declare_body(alloc: Global, slots: &mut Vec<Slot>, tree: &Tree) -> Result<(), Memory>
    ensures { OnOk result (slots.new.items ≡ slots.old.items
        ++ unset_slots (declared_in (body_of tree.now.items))) }
{
    let items = tree.items();
    for item in items.iter() {
        declare_item(alloc, slots, tree, item)?;
    }
    Ok(())
}

/// The name of the function that an item declares.
#[tactic(auto, unfolding(esm_base::specs::DefaultExport::star_default, esm_base::specs::DefaultExport::or_star_default))]
fn function_name(item: &ItemNode) -> Option<&str>
    ensures { (stmts : _) → names_by (flat.item_of stmts item.now) ≡ one_name result }
{
    match item {
        ItemNode::ExportFunction(node) => Some(node.name.as_str()),
        ItemNode::ExportDefaultFunction(node) => match &node.name {
            Some(name) => Some(name.as_str()),
            None => Some("*default*"),
        },
        ItemNode::Function(node) => Some(node.name.as_str()),
        ItemNode::ExportStatement(_) => None,
        ItemNode::Statement(_) => None,
        ItemNode::ImportEffect(_) => None,
        ItemNode::Import(_) => None,
        ItemNode::ExportAll(_) => None,
        ItemNode::ExportAllAs(_) => None,
        ItemNode::ExportFrom(_) => None,
        ItemNode::ExportList(_) => None,
    }
}

/// Adds the function that an item declares, and gives the number of the next one.
fn add_function(
    alloc: Global,
    slots: &mut Vec<Slot>,
    m: ModuleId,
    index: u32,
    item: &ItemNode,
) -> Result<u32, Memory>
    requires { index + 1 < 2 ^ 32 }
    ensures added { (stmts : _) → OnOk result (slots.new.items ≡ slots.old.items
        ++ function_slots m index (names_by (flat.item_of stmts item.now))) }
    ensures next { (stmts : _) → IfOk result (λ next. next
        ≡ index + length (names_by (flat.item_of stmts item.now))) }
    ensures room { IfOk result (λ next. next ≤ index + 1) }
{
    match function_name(item) {
        Some(name) => {
            let name = Text::copy(alloc, name)?;
            slots.push(Slot {
                name,
                constant: false,
                function: Some(Value::Func(FuncId { module: m, index })),
                written: None,
            })?;
            Ok(index + 1)
        }
        None => Ok(index),
    }
}

/// Adds the functions of a module.
fn declare_functions(
    alloc: Global,
    slots: &mut Vec<Slot>,
    m: ModuleId,
    tree: &Tree,
) -> Result<(), Memory>
    requires { length tree.now.items < 2 ^ 31 }
    ensures { OnOk result (slots.new.items ≡ slots.old.items
        ++ function_slots m 0 (function_names tree.now.items)) }
{
    let items = tree.items();
    let mut index = 0u32;
    for item in items.iter() {
        index = add_function(alloc, slots, m, index, item)?;
    }
    Ok(())
}

/// The slots of the names of a module.
pub fn slots_of(alloc: Global, m: ModuleId, tree: &Tree) -> Result<Vec<Slot>, Memory>
    requires { length tree.now.items < 2 ^ 31 }
    ensures { IfOk result (λ slots. slots.items ≡ slots_for m tree.now.items) }
{
    let mut slots = Vec::new(alloc);
    declare_body(alloc, &mut slots, tree)?;
    declare_functions(alloc, &mut slots, m, tree)?;
    Ok(slots)
}
