// What a module imports. ECMA-262, ImportEntries.
ghost use Rattle.std.specs.Prelude.{◌≡◌, ◌++◌, List, map, IfOk, OnOk};
ghost use Rattle.esm_tree.specs.Syntax.{Stmt};
ghost use Rattle.esm_tree.specs.Flat.{item_of};
ghost use Rattle.esm_ast.specs.Entries as entries;
ghost use Rattle.esm_ast.specs.Entries.{import_entry, all_imports};

use crate::requests::place_of;
use esm_ast::{ImportBinding, ImportEntry, ItemNode, Tree, Wanted};
use esm_base::Memory;
use esm_text_table::TextTable;
use std::alloc::Global;

// The same, owned.
pub(crate) fn copy_wanted(wanted: &Wanted) -> Result<Wanted, Memory>
    ensures { IfOk result (λ w. w ≡ wanted.now) }
{
    match wanted {
        Wanted::Named(name) => Ok(Wanted::Named(name.clone()?)),
        Wanted::Whole => Ok(Wanted::Whole),
    }
}

// The entry of one imported binding.
fn entry_of(request: usize, binding: &ImportBinding) -> Result<ImportEntry, Memory>
    ensures { IfOk result (λ e. e ≡ import_entry request binding.now) }
{
    let wanted = copy_wanted(&binding.wanted)?;
    let local = binding.local.clone()?;
    Ok(ImportEntry {
        request,
        wanted,
        local,
    })
}

// Adds the bindings that are imported by one request.
fn add_bindings(
    imports: &mut Vec<ImportEntry>,
    request: usize,
    bindings: &[ImportBinding],
) -> Result<(), Memory>
    ensures { OnOk result (imports.new.items
        ≡ imports.old.items ++ map (import_entry request) bindings.now) }
{
    for binding in bindings {
        let entry = entry_of(request, binding)?;
        imports.push(entry)?;
    }
    Ok(())
}

// Adds what an item imports.
fn add_imports(
    imports: &mut Vec<ImportEntry>,
    requests: &TextTable,
    item: &ItemNode,
) -> Result<(), Memory>
    ensures { (stmts : List Stmt)
        → OnOk result (imports.new.items
        ≡ imports.old.items ++ entries.imports_of requests.now (item_of stmts item.now)) }
{
    match item {
        ItemNode::Import(node) => {
            let request = place_of(requests, &node.specifier);
            add_bindings(imports, request, &node.bindings)
        }
        _ => Ok(()),
    }
}

// The imported bindings of a tree, in order.
pub(crate) fn imports_of(
    alloc: Global,
    requests: &TextTable,
    tree: &Tree,
) -> Result<Vec<ImportEntry>, Memory>
    ensures { IfOk result (λ v. v.items ≡ all_imports requests.now tree.now.items) }
{
    let mut imports = Vec::new(alloc);
    for item in tree.items() {
        add_imports(&mut imports, requests, item)?;
    }
    Ok(imports)
}
