// What a module exports. ECMA-262, ExportEntries, and their sorting in ParseModule.
ghost use Rattle.std.specs.Prelude.{◌≡◌, ◌≤◌, ◌<◌, ◌∷◌, [], List, length, map, IfOk, OnOk};
ghost use Rattle.esm_tree.specs.Flat.{stmt_part, item_of, item_need, bindings_of};
ghost use Rattle.esm_tree.specs.Syntax.{Expr};
ghost use Rattle.esm_grammar.specs.Names.{names_of};
ghost use Rattle.esm_ast.specs.declared.entries.ImportEntry.{ImportEntry as Entry};
ghost use Rattle.esm_ast.specs.Entries as entries;
ghost use Rattle.esm_ast.specs.Entries.{default_export, own_export, statement_exports, all_exports, locals_of, indirects_of};
ghost use Rattle.esm_base.specs.DefaultExport.{or_star_default, star_default};
ghost use Rattle.esm_script.specs.Inner.{Adds, IsIndexOf};

use crate::index::ImportIndex;
use crate::listing::Exports;
use crate::requests::place_of;
use esm_ast::{ImportEntry, ItemNode, LexicalBinding, StmtId, StmtNode, Tree};
use esm_base::{Memory, Text};
use esm_text_table::TextTable;
use std::alloc::Global;

// Adds declared names.
fn add_bindings(exports: &mut Exports, bindings: &[LexicalBinding]) -> Result<(), Memory>
    ensures { (exprs : List Expr)
        → OnOk result (Adds exports.old exports.new (map own_export (names_of
        (bindings_of exprs bindings.now)))) }
{
    for binding in bindings {
        exports.add_own(&binding.name)?;
    }
    Ok(())
}

// Adds the exports of a value: `default`, of a binding that no name names.
fn add_value(alloc: Global, exports: &mut Exports) -> Result<(), Memory>
    ensures { OnOk result (Adds exports.old exports.new (default_export star_default ∷ [])) }
{
    let name = Text::copy(alloc, "default")?;
    let local = Text::copy(alloc, "*default*")?;
    exports.add_local(name, local)
}

// Adds what an exported statement exports.
fn add_statement(
    alloc: Global,
    exports: &mut Exports,
    tree: &Tree,
    id: StmtId,
) -> Result<(), Memory>
    requires { id.0 < length tree.now.stmts }
    ensures { OnOk result (Adds exports.old exports.new (statement_exports
        (stmt_part tree.now.stmts id))) }
{
    match tree.stmt(id) {
        StmtNode::Default(_) => add_value(alloc, exports),
        StmtNode::Const(bindings) => add_bindings(exports, bindings),
        StmtNode::Let(bindings) => add_bindings(exports, bindings),
        _ => Ok(()),
    }
}

// Adds a function that is exported as `default`.
fn add_function(alloc: Global, exports: &mut Exports, name: &Option<Text>) -> Result<(), Memory>
    ensures { OnOk result (Adds exports.old exports.new (default_export
        (or_star_default name.now) ∷ [])) }
{
    match name {
        Some(name) => {
            let exported = Text::copy(alloc, "default")?;
            let local = name.clone()?;
            exports.add_local(exported, local)
        }
        None => add_value(alloc, exports),
    }
}

// Adds what an item exports, `export *` aside.
fn add_exports(
    alloc: Global,
    exports: &mut Exports,
    requests: &TextTable,
    index: &ImportIndex,
    tree: &Tree,
    item: &ItemNode,
) -> Result<(), Memory>
    requires { item_need item.now ≤ length tree.now.stmts }
    ensures { (imports : List Entry)
        → IsIndexOf imports index.now
        → OnOk result (Adds exports.old exports.new (entries.exports_of requests.now imports
        (item_of tree.now.stmts item.now))) }
{
    match item {
        ItemNode::ExportAllAs(node) => {
            let request = place_of(requests, &node.specifier);
            exports.add_space(&node.name, request)
        }
        ItemNode::ExportFrom(node) => {
            let request = place_of(requests, &node.specifier);
            exports.add_all_passed(request, &node.list)
        }
        ItemNode::ExportList(specifiers) => exports.add_all_listed(index, specifiers),
        ItemNode::ExportStatement(id) => add_statement(alloc, exports, tree, *id),
        ItemNode::ExportFunction(node) => exports.add_own(&node.name),
        ItemNode::ExportDefaultFunction(node) => add_function(alloc, exports, &node.name),
        _ => Ok(()),
    }
}

// The exported bindings of a tree, in order.
pub(crate) fn exports_of(
    alloc: Global,
    requests: &TextTable,
    imports: &[ImportEntry],
    tree: &Tree,
) -> Result<Exports, Memory>
    ensures locals { IfOk result (λ e. e.locals.items
        ≡ locals_of (all_exports requests.now imports.now tree.now.items)) }
    ensures indirects { IfOk result (λ e. e.indirects.items
        ≡ indirects_of (all_exports requests.now imports.now tree.now.items)) }
{
    let index = ImportIndex::new(alloc, imports)?;
    let mut exports = Exports::new(alloc);
    for item in tree.items() {
        add_exports(alloc, &mut exports, requests, &index, tree, item)?;
    }
    Ok(exports)
}
