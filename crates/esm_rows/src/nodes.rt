// The nodes of a tree, for every number.
ghost use Rattle.std.specs.Prelude.{◌≡◌, ◌∷◌, List};
ghost use Rattle.esm_tree.specs.Syntax.{Expr, Stmt};
ghost use Rattle.esm_tree.specs.Flat.{expr_of, links, part, stmt_of, stmt_part, stmt_parts};
ghost use Rattle.esm_rows.specs.Making.{link_name, member_name};
ghost use Rattle.esm_rows.specs.Drafts.{IsExprAt, IsStmtAt};
ghost use Rattle.esm_rows.specs.Working.{first_block};

use esm_tree::{ExprId, ExprNode, Link, StmtId, StmtNode, Tree};

/// The node of an expression, if the tree has one with this number.
pub(crate) fn expr_at(tree: &Tree, id: ExprId) -> Option<&ExprNode>
    ensures { IsExprAt tree.now.exprs id result }
{
    if id.0 < tree.mark().exprs {
        Some(tree.expr(id))
    } else {
        None
    }
}

/// The node of a statement, if the tree has one with this number.
pub(crate) fn stmt_at(tree: &Tree, id: StmtId) -> Option<&StmtNode>
    ensures { IsStmtAt tree.now.exprs tree.now.stmts id result }
{
    if id.0 < tree.mark().stmts {
        Some(tree.stmt(id))
    } else {
        None
    }
}

/// The name of a link that is a member.
fn name_of(link: &Link) -> &str
    ensures { (exprs : List Expr) → (rest : List Link) → result.now
        ≡ link_name (links exprs (link.now ∷ rest)) 0 }
{
    match link {
        Link::Member(name) => name.as_str(),
        Link::Call(_) => "",
    }
}

/// The name of the member with this number behind a head.
fn link_text(behind: &[Link], at: usize) -> &str
    ensures { (exprs : List Expr) → result.now ≡ link_name (links exprs behind.now) at }
{
    if at < behind.len() {
        name_of(&behind[at])
    } else {
        ""
    }
}

/// The name of the member with this number of an expression.
fn node_member(node: &ExprNode, at: usize) -> &str
    ensures { (exprs : List Expr) → result.now ≡ member_name (expr_of exprs node.now) at }
{
    match node {
        ExprNode::Post(_, links) => link_text(links.as_slice(), at),
        ExprNode::Text(_) => "",
        ExprNode::Truth(_) => "",
        ExprNode::Undefined => "",
        ExprNode::Name(_) => "",
        ExprNode::Group(_) => "",
        ExprNode::Or(_, _) => "",
        ExprNode::And(_, _) => "",
        ExprNode::Equal(_, _) => "",
        ExprNode::Sum(_, _) => "",
        ExprNode::Not(_) => "",
        ExprNode::Print(_) => "",
        ExprNode::EmptyError => "",
        ExprNode::NewError(_) => "",
        ExprNode::Import(_) => "",
        ExprNode::Url => "",
    }
}

/// The name of the member with this number of the expression with this number.
pub(crate) fn member_text(tree: &Tree, id: ExprId, at: usize) -> &str
    ensures { result.now ≡ member_name (part tree.now.exprs id) at }
{
    match expr_at(tree, id) {
        Some(node) => node_member(node, at),
        None => "",
    }
}

/// The statements of the first block of an `if`, or of the block of a `try`.
fn node_first(node: &StmtNode) -> &[StmtId]
    ensures { (exprs : List Expr) → (stmts : List Stmt) → stmt_parts stmts result.now
        ≡ first_block (stmt_of exprs stmts node.now) }
{
    match node {
        StmtNode::If(_, ids) => ids.as_slice(),
        StmtNode::IfElse(_, parts) => parts.body.as_slice(),
        StmtNode::Try(parts) => parts.body.as_slice(),
        StmtNode::TryCatch(parts) => parts.body.as_slice(),
        StmtNode::Empty => &[],
        StmtNode::Expression(_) => &[],
        StmtNode::Assign(_) => &[],
        StmtNode::Block(_) => &[],
        StmtNode::Throw(_) => &[],
        StmtNode::Return => &[],
        StmtNode::ReturnValue(_) => &[],
        StmtNode::Await(_) => &[],
        StmtNode::PrintAwait(_) => &[],
        StmtNode::Const(_) => &[],
        StmtNode::Let(_) => &[],
        StmtNode::Default(_) => &[],
    }
}

/// The same of the statement with this number.
pub(crate) fn first_ids(tree: &Tree, id: StmtId) -> &[StmtId]
    ensures { stmt_parts tree.now.stmts result.now ≡ first_block (stmt_part tree.now.stmts id) }
{
    match stmt_at(tree, id) {
        Some(node) => node_first(node),
        None => &[],
    }
}
