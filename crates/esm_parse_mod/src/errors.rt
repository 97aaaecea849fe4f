// Early errors. ECMA-262, Static Semantics: Early Errors of modules, blocks, functions and catch clauses.
ghost use Rattle.std.specs.Prelude.{◌≡◌, ◌<◌, ◌≤◌, ◌++◌, ◌∷◌, [], List, length, map, IfOk, OnOk};
ghost use Rattle.std.specs.List.{list_any};
ghost use Rattle.esm_tree.specs.Syntax.{Stmt};
ghost use Rattle.esm_tree.specs.Flat.{stmt_part, stmt_parts, AllStmtsBelow, item_of, item_need, items_of, items_need, AllAtMost};
ghost use Rattle.esm_grammar.specs.Names.{declared_names};
ghost use Rattle.esm_grammar.specs.EarlyErrors as early;
ghost use Rattle.esm_grammar.specs.EarlyErrors.{block_names, scopes_of, stmt_scopes, item_scopes};
ghost use Rattle.esm_parse_mod.specs.Inner.Names.{texts, binding_names, given, any_clashes, held, IsSetOf, is_unlisted, any_item_wrong};

use esm_base::{Memory, Text};
use esm_tree::{ExportSpecifier, ImportBinding, ItemNode, LexicalBinding, StmtId, StmtNode, Tree};
use std::alloc::Global;
use std::collections::BTreeSet;

// The names as a set, or none where one stands twice.
fn distinct<'a>(alloc: Global, names: &[&'a str]) -> Result<Option<BTreeSet<&'a str>>, Memory>
    ensures { IfOk result (IsSetOf names.now) }
{
    let mut found = BTreeSet::new(alloc);
    for name in names {
        let added = found.insert(*name)?;
        if !added {
            return Ok(None);
        }
    }
    Ok(Some(found))
}

// Whether a name stands twice.
fn repeats(alloc: Global, names: &[&str]) -> Result<bool, Memory>
    ensures { IfOk result (λ b. b ≡ early.has_repeat (texts names.now)) }
{
    let found = distinct(alloc, names)?;
    match found {
        Some(_) => Ok(false),
        None => Ok(true),
    }
}

// Whether a name is in a set.
fn holds<'a>(set: &BTreeSet<&'a str>, name: &'a str) -> bool
    ensures { result ≡ held set.now name.now }
{
    set.contains(&name)
}

fn add_one<'a>(names: &mut Vec<&'a str>, name: &'a str) -> Result<(), Memory>
    ensures { OnOk result (texts names.new.items ≡ texts names.old.items ++ name.now ∷ []) }
{
    names.push(name)?;
    Ok(())
}

fn add_bindings<'a>(names: &mut Vec<&'a str>, bindings: &'a [LexicalBinding]) -> Result<(), Memory>
    ensures { OnOk result (texts names.new.items
        ≡ texts names.old.items ++ binding_names bindings.now) }
{
    for binding in bindings {
        names.push(binding.name.as_str())?;
    }
    Ok(())
}

fn add_texts<'a>(names: &mut Vec<&'a str>, added: &'a [Text]) -> Result<(), Memory>
    ensures { OnOk result (texts names.new.items ≡ texts names.old.items ++ added.now) }
{
    for text in added {
        names.push(text.as_str())?;
    }
    Ok(())
}

// The names that a statement declares.
fn add_declared<'a>(names: &mut Vec<&'a str>, tree: &'a Tree, id: StmtId) -> Result<(), Memory>
    requires { id.0 < length tree.now.stmts }
    ensures { OnOk result (texts names.new.items
        ≡ texts names.old.items ++ declared_names (stmt_part tree.now.stmts id)) }
{
    match tree.stmt(id) {
        StmtNode::Const(bindings) => add_bindings(names, bindings),
        StmtNode::Let(bindings) => add_bindings(names, bindings),
        _ => Ok(()),
    }
}

fn add_all<'a>(names: &mut Vec<&'a str>, tree: &'a Tree, ids: &[StmtId]) -> Result<(), Memory>
    requires { AllStmtsBelow (length tree.now.stmts) ids.now }
    ensures { OnOk result (texts names.new.items
        ≡ texts names.old.items ++ block_names (stmt_parts tree.now.stmts ids.now)) }
{
    for id in ids {
        add_declared(names, tree, *id)?;
    }
    Ok(())
}

// The name that is given with a block's names.
fn names_with<'a>(alloc: Global, with: Option<&'a str>) -> Result<Vec<&'a str>, Memory>
    ensures { IfOk result (λ v. texts v.items ≡ given with.entry) }
{
    let mut names = Vec::new(alloc);
    match with {
        Some(name) => {
            names.push(name)?;
            Ok(names)
        }
        None => Ok(names),
    }
}

// Whether a name is declared twice in a block, or in one inside it, the name that is given with it among them. The
// statements of the block are numbered below a bound.
#[cycle(blocks)]
fn block_errs<'a>(
    alloc: Global,
    tree: &'a Tree,
    below: usize,
    ids: &[StmtId],
    with: Option<&'a str>,
) -> Result<bool, Memory>
    requires bound { below ≤ length tree.now.stmts }
    requires below { AllStmtsBelow below ids.now }
    ensures { IfOk result (λ b. b ≡ any_clashes
        (scopes_of (given with.entry) (stmt_parts tree.now.stmts ids.now))) }
{
    let mut names = names_with(alloc, with)?;
    add_all(&mut names, tree, ids)?;
    let repeated = repeats(alloc, &names)?;
    if repeated {
        return Ok(true);
    }
    for id in ids {
        let clashing = stmt_errs(alloc, tree, *id)?;
        if clashing {
            return Ok(true);
        }
    }
    Ok(false)
}

// Two blocks of one statement.
#[cycle(blocks)]
fn blocks_err<'a>(
    alloc: Global,
    tree: &'a Tree,
    below: usize,
    ids: &[StmtId],
    with: Option<&'a str>,
    others: &[StmtId],
) -> Result<bool, Memory>
    requires bound { below ≤ length tree.now.stmts }
    requires below { AllStmtsBelow below ids.now }
    requires others_below { AllStmtsBelow below others.now }
    ensures { IfOk result (λ b. b ≡ any_clashes
        (scopes_of [] (stmt_parts tree.now.stmts ids.now)
        ++ scopes_of (given with.entry) (stmt_parts tree.now.stmts others.now))) }
{
    let clashing = block_errs(alloc, tree, below, ids, None)?;
    if clashing {
        return Ok(true);
    }
    block_errs(alloc, tree, below, others, with)
}

#[cycle(blocks)]
fn stmt_errs(alloc: Global, tree: &Tree, id: StmtId) -> Result<bool, Memory>
    requires { id.0 < length tree.now.stmts }
    ensures { IfOk result (λ b. b ≡ any_clashes (stmt_scopes (stmt_part tree.now.stmts id))) }
{
    let below = id.0 as usize;
    match tree.stmt(id) {
        StmtNode::Block(ids) => block_errs(alloc, tree, below, ids, None),
        StmtNode::If(_, ids) => block_errs(alloc, tree, below, ids, None),
        StmtNode::IfElse(_, parts) => {
            blocks_err(alloc, tree, below, &parts.body, None, &parts.others)
        }
        StmtNode::Try(parts) => blocks_err(alloc, tree, below, &parts.body, None, &parts.handler),
        StmtNode::TryCatch(parts) => blocks_err(
            alloc,
            tree,
            below,
            &parts.body,
            Some(parts.name.as_str()),
            &parts.handler,
        ),
        _ => Ok(false),
    }
}

fn function_errs(
    alloc: Global,
    tree: &Tree,
    parameters: &[Text],
    ids: &[StmtId],
) -> Result<bool, Memory>
    requires { AllStmtsBelow (length tree.now.stmts) ids.now }
    ensures { IfOk result (λ b. b ≡ any_clashes
        (scopes_of parameters.now (stmt_parts tree.now.stmts ids.now))) }
{
    let mut names = Vec::new(alloc);
    add_texts(&mut names, parameters)?;
    add_all(&mut names, tree, ids)?;
    let repeated = repeats(alloc, &names)?;
    if repeated {
        return Ok(true);
    }
    for id in ids {
        let clashing = stmt_errs(alloc, tree, *id)?;
        if clashing {
            return Ok(true);
        }
    }
    Ok(false)
}

fn item_errs(alloc: Global, tree: &Tree, item: &ItemNode) -> Result<bool, Memory>
    requires { item_need item.now ≤ length tree.now.stmts }
    ensures { IfOk result (λ b. b ≡ any_clashes (item_scopes (item_of tree.now.stmts item.now))) }
{
    match item {
        ItemNode::ExportStatement(id) => stmt_errs(alloc, tree, *id),
        ItemNode::Statement(id) => stmt_errs(alloc, tree, *id),
        ItemNode::ExportFunction(node) => function_errs(alloc, tree, &node.parameters, &node.body),
        ItemNode::ExportDefaultFunction(node) => {
            function_errs(alloc, tree, &node.parameters, &node.body)
        }
        ItemNode::Function(node) => function_errs(alloc, tree, &node.parameters, &node.body),
        _ => Ok(false),
    }
}

fn add_locals<'a>(names: &mut Vec<&'a str>, bindings: &'a [ImportBinding]) -> Result<(), Memory>
    ensures { OnOk result (texts names.new.items
        ≡ texts names.old.items ++ map (λ b. b.local) bindings.now) }
{
    for binding in bindings {
        names.push(binding.local.as_str())?;
    }
    Ok(())
}

fn add_listed<'a>(names: &mut Vec<&'a str>, specifiers: &'a [ExportSpecifier]) -> Result<(), Memory>
    ensures { OnOk result (texts names.new.items
        ≡ texts names.old.items ++ map (λ e. e.exported) specifiers.now) }
{
    for specifier in specifiers {
        names.push(specifier.exported.as_str())?;
    }
    Ok(())
}

fn add_given<'a>(names: &mut Vec<&'a str>, name: &'a Option<Text>) -> Result<(), Memory>
    ensures { OnOk result (texts names.new.items
        ≡ texts names.old.items ++ early.name_list name.now) }
{
    match name {
        Some(text) => add_one(names, text.as_str()),
        None => Ok(()),
    }
}

// What an item declares at the module's top level.
fn add_item_names<'a>(
    names: &mut Vec<&'a str>,
    tree: &'a Tree,
    item: &'a ItemNode,
) -> Result<(), Memory>
    requires { item_need item.now ≤ length tree.now.stmts }
    ensures { OnOk result (texts names.new.items
        ≡ texts names.old.items ++ early.declared_of (item_of tree.now.stmts item.now)) }
{
    match item {
        ItemNode::Import(node) => add_locals(names, &node.bindings),
        ItemNode::ExportStatement(id) => add_declared(names, tree, *id),
        ItemNode::Statement(id) => add_declared(names, tree, *id),
        ItemNode::ExportFunction(node) => add_one(names, node.name.as_str()),
        ItemNode::ExportDefaultFunction(node) => add_given(names, &node.name),
        ItemNode::Function(node) => add_one(names, node.name.as_str()),
        _ => Ok(()),
    }
}

// What `export` before a declaration, or `export default` before a value, exports.
fn add_statement<'a>(names: &mut Vec<&'a str>, tree: &'a Tree, id: StmtId) -> Result<(), Memory>
    requires { id.0 < length tree.now.stmts }
    ensures { OnOk result (texts names.new.items
        ≡ texts names.old.items ++ early.statement_exported (stmt_part tree.now.stmts id)) }
{
    match tree.stmt(id) {
        StmtNode::Default(_) => add_one(names, "default"),
        _ => add_declared(names, tree, id),
    }
}

// What an item exports.
fn add_exported<'a>(
    names: &mut Vec<&'a str>,
    tree: &'a Tree,
    item: &'a ItemNode,
) -> Result<(), Memory>
    requires { item_need item.now ≤ length tree.now.stmts }
    ensures { OnOk result (texts names.new.items
        ≡ texts names.old.items ++ early.exported_of (item_of tree.now.stmts item.now)) }
{
    match item {
        ItemNode::ExportAllAs(node) => add_one(names, node.name.as_str()),
        ItemNode::ExportFrom(node) => add_listed(names, &node.list),
        ItemNode::ExportList(specifiers) => add_listed(names, specifiers),
        ItemNode::ExportStatement(id) => add_statement(names, tree, *id),
        ItemNode::ExportFunction(node) => add_one(names, node.name.as_str()),
        ItemNode::ExportDefaultFunction(_) => add_one(names, "default"),
        _ => Ok(()),
    }
}

// The names that the items export.
fn all_exported<'a>(
    alloc: Global,
    tree: &'a Tree,
    items: &'a [ItemNode],
) -> Result<Vec<&'a str>, Memory>
    requires { AllAtMost (length tree.now.stmts) (items_need items.now) }
    ensures { IfOk result (λ names. texts names.items
        ≡ early.exported_names (items_of tree.now.stmts items.now)) }
{
    let mut names = Vec::new(alloc);
    for item in items {
        add_exported(&mut names, tree, item)?;
    }
    Ok(names)
}

// The names that the items declare at the module's top level.
fn all_declared<'a>(
    alloc: Global,
    tree: &'a Tree,
    items: &'a [ItemNode],
) -> Result<Vec<&'a str>, Memory>
    requires { AllAtMost (length tree.now.stmts) (items_need items.now) }
    ensures { IfOk result (λ names. texts names.items
        ≡ early.module_names (items_of tree.now.stmts items.now)) }
{
    let mut names = Vec::new(alloc);
    for item in items {
        add_item_names(&mut names, tree, item)?;
    }
    Ok(names)
}

// Whether one of these names what is no name, or isn't declared.
fn any_undeclared<'a>(declared: &BTreeSet<&'a str>, specifiers: &'a [ExportSpecifier]) -> bool
    ensures { result ≡ list_any (is_unlisted (held declared.now)) specifiers.now }
{
    for specifier in specifiers {
        if !specifier.is_name {
            return true;
        }
        if !holds(declared, specifier.first.as_str()) {
            return true;
        }
    }
    false
}

// Whether an export list without `from` names what is no name, or isn't declared.
fn lists_wrong<'a>(declared: &BTreeSet<&'a str>, item: &'a ItemNode) -> bool
    ensures { (stmts : List Stmt) → result
        ≡ list_any (is_unlisted (held declared.now)) (early.listed_of (item_of stmts item.now)) }
{
    match item {
        ItemNode::ExportList(specifiers) => any_undeclared(declared, specifiers),
        _ => false,
    }
}

// Whether one of the items lists what isn't declared, or has a scope that clashes.
fn any_wrong<'a>(
    alloc: Global,
    tree: &'a Tree,
    declared: &BTreeSet<&'a str>,
    items: &'a [ItemNode],
) -> Result<bool, Memory>
    requires { AllAtMost (length tree.now.stmts) (items_need items.now) }
    ensures { IfOk result (λ b. b ≡ any_item_wrong (held declared.now)
        (items_of tree.now.stmts items.now)) }
{
    for item in items {
        if lists_wrong(declared, item) {
            return Ok(true);
        }
        let clashing = item_errs(alloc, tree, item)?;
        if clashing {
            return Ok(true);
        }
    }
    Ok(false)
}

/// Whether a module's items have an early error.
pub(crate) fn has_early_error(alloc: Global, tree: &Tree) -> Result<bool, Memory>
    ensures { IfOk result (λ b. b ≡ early.has_early_error tree.now.items) }
{
    let items = tree.items();
    let exported = all_exported(alloc, tree, items)?;
    let exports = distinct(alloc, &exported)?;
    let Some(exports) = exports else {
        return Ok(true);
    };
    if holds(&exports, "then") {
        return Ok(true);
    }
    let names = all_declared(alloc, tree, items)?;
    let declared = distinct(alloc, &names)?;
    let Some(declared) = declared else {
        return Ok(true);
    };
    any_wrong(alloc, tree, &declared, items)
}
