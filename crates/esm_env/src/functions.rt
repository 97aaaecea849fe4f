// Where the functions of a module stand among its items, so that each is found without a search.
ghost use Rattle.std.specs.Prelude.{◌≡◌, ◌∷◌, ◌++◌, IfOk, OnOk, if◌then◌else◌};
ghost use Rattle.std.specs.Arc.{arc_value};
ghost use Rattle.esm_tree.specs.Flat.{item_of};
ghost use Rattle.esm_env.specs.Declarations.{functions_by};
ghost use Rattle.esm_env.specs.FunctionPlaces.{IsFunctionItem, places_from, placed};

use crate::scope::ModuleScope;
use esm_base::Memory;
use esm_tree::{ItemNode, Tree};
use std::alloc::Global;

/// Whether an item declares a function.
fn is_function(item: &ItemNode) -> bool
    ensures { (stmts : _) → (k : _) → (later : _) → placed
        (functions_by (item_of stmts item.now)) k later
        ≡ (if result then k ∷ later else later) }
{
    match item {
        ItemNode::ExportFunction(_) => true,
        ItemNode::ExportDefaultFunction(_) => true,
        ItemNode::Function(_) => true,
        ItemNode::ExportStatement(_) => false,
        ItemNode::Statement(_) => false,
        ItemNode::ImportEffect(_) => false,
        ItemNode::Import(_) => false,
        ItemNode::ExportAll(_) => false,
        ItemNode::ExportAllAs(_) => false,
        ItemNode::ExportFrom(_) => false,
        ItemNode::ExportList(_) => false,
    }
}

/// Adds the place of an item, if it declares a function.
fn add_place(places: &mut Vec<usize>, item: &ItemNode, at: usize) -> Result<(), Memory>
    ensures { (stmts : _) → (later : _) → OnOk result (places.new.items ++ later
        ≡ places.old.items ++ placed (functions_by (item_of stmts item.now)) at later) }
{
    if is_function(item) {
        places.push(at)?;
    }
    Ok(())
}

/// The places of the items that declare a function.
pub(crate) fn function_places(alloc: Global, tree: &Tree) -> Result<Vec<usize>, Memory>
    ensures { IfOk result (λ places. places.items ≡ places_from 0 tree.now.items) }
{
    let items = tree.items();
    let mut places = Vec::new(alloc);
    for at in 0..items.len() {
        add_place(&mut places, &items[at], at)?;
    }
    Ok(places)
}

impl ModuleScope {
    /// The item that declares the function with this number, if there is one. It doesn't allocate.
    pub fn function(&self, index: u32) -> Option<&ItemNode>
        ensures { IsFunctionItem (arc_value self.now.tree) index result }
    {
        let index = index as usize;
        if index < self.functions.len() {
            Some(&self.tree.items()[self.functions[index]])
        } else {
            None
        }
    }
}
