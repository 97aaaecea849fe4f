// Nodes whose lists take no more memory than they need. A list that grows makes room for four first, and a node mostly
// has a list of one. A list that is cut down where it stands leaves a gap behind it that fits little else, so the
// elements move to a block of their own, and the next list takes the old one. Lists of numbers of statements are left as they
// are: four of them take the smallest block that there is.
ghost use Rattle.std.specs.Prelude.{◌≡◌, ℕ, List, IfOk};
ghost use Rattle.esm_tree.specs.Syntax.{Expr, Stmt};
ghost use Rattle.esm_tree.specs.Flat as flat;

use crate::{
    DefaultFunction, ExportSpecifier, ExprNode, FunctionNode, ImportBinding, ImportNode,
    PassedExports, StmtId, StmtNode,
};
use esm_base::{Memory, Text};
use std::alloc::Global;

// The same list in a block of its own size.
fn tight<T: Drop>(list: Vec<T>) -> Result<Vec<T>, Memory>
    ensures { IfOk result (λ v. v.items ≡ list.items) }
{
    if list.capacity() == list.len() {
        return Ok(list);
    }
    let mut exact = Vec::with_capacity(*list.allocator(), list.len())?;
    for element in list {
        exact.push(element)?;
    }
    Ok(exact)
}

/// The same expression.
pub(crate) fn fit_expr(node: ExprNode) -> Result<ExprNode, Memory>
    ensures same { IfOk result (λ n. (done : List Expr) →
        flat.expr_of done n ≡ flat.expr_of done node) }
    ensures below { IfOk result (λ n. (m : ℕ) → flat.IsBelow m node → flat.IsBelow m n) }
{
    match node {
        ExprNode::Post(head, links) => Ok(ExprNode::Post(head, tight(links)?)),
        other => Ok(other),
    }
}

/// The same statement.
pub(crate) fn fit_stmt(node: StmtNode) -> Result<StmtNode, Memory>
    ensures same { IfOk result (λ n. (exprs : List Expr) (done : List Stmt) →
        flat.stmt_of exprs done n ≡ flat.stmt_of exprs done node) }
    ensures need { IfOk result (λ n. flat.need_of n ≡ flat.need_of node) }
    ensures below { IfOk result (λ n. (m : ℕ) → flat.IsStmtBelow m node → flat.IsStmtBelow m n) }
{
    match node {
        StmtNode::Const(bindings) => Ok(StmtNode::Const(tight(bindings)?)),
        StmtNode::Let(bindings) => Ok(StmtNode::Let(tight(bindings)?)),
        other => Ok(other),
    }
}

impl ImportNode {
    /// The node, in memory of its own.
    pub fn boxed(
        alloc: Global,
        specifier: Text,
        bindings: Vec<ImportBinding>,
    ) -> Result<Box<ImportNode>, Memory>
        ensures specifier { IfOk result (λ n. n.value.specifier ≡ specifier) }
        ensures bindings { IfOk result (λ n. n.value.bindings.items ≡ bindings.items) }
    {
        let bindings = tight(bindings)?;
        let node = Box::new(
            alloc,
            ImportNode {
                specifier,
                bindings,
            },
        )?;
        Ok(node)
    }
}

impl PassedExports {
    /// The exports, in memory of their own.
    pub fn boxed(
        alloc: Global,
        list: Vec<ExportSpecifier>,
        specifier: Text,
    ) -> Result<Box<PassedExports>, Memory>
        ensures list { IfOk result (λ n. n.value.list.items ≡ list.items) }
        ensures specifier { IfOk result (λ n. n.value.specifier ≡ specifier) }
    {
        let list = tight(list)?;
        let node = Box::new(alloc, PassedExports { list, specifier })?;
        Ok(node)
    }
}

impl FunctionNode {
    /// The function, in memory of its own.
    pub fn boxed(
        alloc: Global,
        name: Text,
        parameters: Vec<Text>,
        body: Vec<StmtId>,
    ) -> Result<Box<FunctionNode>, Memory>
        ensures name { IfOk result (λ n. n.value.name ≡ name) }
        ensures parameters { IfOk result (λ n. n.value.parameters.items ≡ parameters.items) }
        ensures body { IfOk result (λ n. n.value.body.items ≡ body.items) }
    {
        let parameters = tight(parameters)?;
        let node = Box::new(
            alloc,
            FunctionNode {
                name,
                parameters,
                body,
            },
        )?;
        Ok(node)
    }
}

impl DefaultFunction {
    /// The function, in memory of its own.
    pub fn boxed(
        alloc: Global,
        name: Option<Text>,
        parameters: Vec<Text>,
        body: Vec<StmtId>,
    ) -> Result<Box<DefaultFunction>, Memory>
        ensures name { IfOk result (λ n. n.value.name ≡ name) }
        ensures parameters { IfOk result (λ n. n.value.parameters.items ≡ parameters.items) }
        ensures body { IfOk result (λ n. n.value.body.items ≡ body.items) }
    {
        let parameters = tight(parameters)?;
        let node = Box::new(
            alloc,
            DefaultFunction {
                name,
                parameters,
                body,
            },
        )?;
        Ok(node)
    }
}

/// The list of an export, in memory of its own.
pub fn boxed_list(
    alloc: Global,
    list: Vec<ExportSpecifier>,
) -> Result<Box<Vec<ExportSpecifier>>, Memory>
    ensures { IfOk result (λ n. n.value.items ≡ list.items) }
{
    let list = tight(list)?;
    let boxed = Box::new(alloc, list)?;
    Ok(boxed)
}
