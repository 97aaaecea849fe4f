// Whether a module has top-level await. ECMA-262, Contains, with `await`.
ghost use Rattle.std.specs.Prelude.{◌≡◌, ◌≤◌, ◌<◌, ◌||◌, List, length};
ghost use Rattle.std.specs.List.{list_any};
ghost use Rattle.esm_tree.specs.Syntax.{Expr};
ghost use Rattle.esm_tree.specs.Flat.{init_of, bindings_of, stmt_part, stmt_parts, AllStmtsBelow, item_of, item_need};
ghost use Rattle.esm_ast.specs.Entries as entries;

use esm_ast::{Initializer, ItemNode, LexicalBinding, StmtId, StmtNode, Tree};

// Whether a value is awaited.
fn init_awaits(value: &Initializer) -> bool
    ensures { (exprs : List Expr) → result ≡ entries.init_awaits (init_of exprs value.now) }
{
    match value {
        Initializer::Absent => false,
        Initializer::Plain(_) => false,
        Initializer::Awaited(_) => true,
    }
}

// Whether a value of these bindings is awaited.
fn bindings_await(bindings: &[LexicalBinding]) -> bool
    ensures { (exprs : List Expr) → result
        ≡ entries.bindings_await (bindings_of exprs bindings.now) }
{
    for binding in bindings {
        if init_awaits(&binding.value) {
            return true;
        }
    }
    false
}

// Whether one of these statements awaits, at any depth. They are numbered below a bound.
#[cycle(awaits)]
fn stmts_await(tree: &Tree, below: usize, ids: &[StmtId]) -> bool
    requires bound { below ≤ length tree.now.stmts }
    requires below { AllStmtsBelow below ids.now }
    ensures { result ≡ entries.stmts_await (stmt_parts tree.now.stmts ids.now) }
{
    for id in ids {
        if stmt_awaits(tree, *id) {
            return true;
        }
    }
    false
}

// The same of two lists.
#[cycle(awaits)]
fn either_awaits(tree: &Tree, below: usize, ids: &[StmtId], others: &[StmtId]) -> bool
    requires bound { below ≤ length tree.now.stmts }
    requires below { AllStmtsBelow below ids.now }
    requires others_below { AllStmtsBelow below others.now }
    ensures { result ≡ (entries.stmts_await (stmt_parts tree.now.stmts ids.now)
        || entries.stmts_await (stmt_parts tree.now.stmts others.now)) }
{
    if stmts_await(tree, below, ids) {
        return true;
    }
    stmts_await(tree, below, others)
}

// Whether a statement awaits, at any depth.
#[cycle(awaits)]
fn stmt_awaits(tree: &Tree, id: StmtId) -> bool
    requires { id.0 < length tree.now.stmts }
    ensures { result ≡ entries.stmt_awaits (stmt_part tree.now.stmts id) }
{
    let below = id.0 as usize;
    match tree.stmt(id) {
        StmtNode::Assign(parts) => init_awaits(&parts.value),
        StmtNode::Block(ids) => stmts_await(tree, below, ids),
        StmtNode::If(_, ids) => stmts_await(tree, below, ids),
        StmtNode::IfElse(_, parts) => either_awaits(tree, below, &parts.body, &parts.others),
        StmtNode::Try(parts) => either_awaits(tree, below, &parts.body, &parts.handler),
        StmtNode::TryCatch(parts) => either_awaits(tree, below, &parts.body, &parts.handler),
        StmtNode::Await(_) => true,
        StmtNode::PrintAwait(_) => true,
        StmtNode::Const(bindings) => bindings_await(bindings),
        StmtNode::Let(bindings) => bindings_await(bindings),
        StmtNode::Default(value) => init_awaits(value),
        _ => false,
    }
}

// Whether an item awaits, functions aside.
fn item_awaits(tree: &Tree, item: &ItemNode) -> bool
    requires { item_need item.now ≤ length tree.now.stmts }
    ensures { result ≡ entries.item_awaits (item_of tree.now.stmts item.now) }
{
    match item {
        ItemNode::Statement(id) => stmt_awaits(tree, *id),
        ItemNode::ExportStatement(id) => stmt_awaits(tree, *id),
        _ => false,
    }
}

// Whether a tree has top-level await.
pub(crate) fn has_await(tree: &Tree) -> bool
    ensures { result ≡ list_any entries.item_awaits tree.now.items }
{
    for item in tree.items() {
        if item_awaits(tree, item) {
            return true;
        }
    }
    false
}
