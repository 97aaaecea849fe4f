// What a module requests. ECMA-262, ModuleRequests.
ghost use Rattle.std.specs.Prelude.{◌≡◌, List, IfOk, OnOk, option_copied};
ghost use Rattle.esm_tree.specs.Syntax.{Stmt};
ghost use Rattle.esm_tree.specs.Flat.{item_of};
ghost use Rattle.esm_ast.specs.Entries as entries;
ghost use Rattle.esm_ast.specs.Entries.{request_of};

use esm_ast::{ItemNode, Tree};
use esm_base::{Memory, Text};
use esm_text_table::TextTable;
use std::alloc::Global;

// The specifier that an item requests.
fn specifier_of(item: &ItemNode) -> Option<&Text>
    ensures { (stmts : List Stmt) → option_copied result ≡ request_of (item_of stmts item.now) }
{
    match item {
        ItemNode::ImportEffect(specifier) => Some(specifier),
        ItemNode::Import(node) => Some(&node.specifier),
        ItemNode::ExportAll(specifier) => Some(specifier),
        ItemNode::ExportAllAs(node) => Some(&node.specifier),
        ItemNode::ExportFrom(node) => Some(&node.specifier),
        _ => None,
    }
}

// Adds what an item requests, unless it is there.
fn add_request(found: &mut TextTable, item: &ItemNode) -> Result<(), Memory>
    ensures { (stmts : List Stmt)
        → OnOk result (found.new
        ≡ entries.add_request found.old (request_of (item_of stmts item.now))) }
{
    match specifier_of(item) {
        Some(specifier) => {
            found.insert(specifier.clone()?)?;
            Ok(())
        }
        None => Ok(()),
    }
}

// The specifiers that a tree requests, each once, in order of first appearance.
pub(crate) fn requests_of(alloc: Global, tree: &Tree) -> Result<TextTable, Memory>
    ensures { IfOk result (λ s. s ≡ entries.requests_of tree.now.items) }
{
    let mut found = TextTable::new(alloc);
    for item in tree.items() {
        add_request(&mut found, item)?;
    }
    Ok(found)
}

// The place of a request.
pub(crate) fn place_of(requests: &TextTable, specifier: &Text) -> usize
    ensures { result ≡ entries.place_of requests.now specifier.now }
{
    match requests.find(specifier) {
        Some(place) => place,
        None => requests.len(),
    }
}
