// The parts of nodes.
ghost use Rattle.std.specs.Prelude.{◌≡◌, ◌<◌, ◌+◌, ◌^◌, length, IfSome};
ghost use Rattle.esm_tree.specs.Flat.{part, parts, compared_parts, AllBelow, AllComparedBelow};
ghost use Rattle.esm_tree.specs.Flat as flat;
ghost use Rattle.esm_expr_eval.specs.Parts.{operands, compared_of, links_of, links_from, arguments, IsNext, IsNextCompared};

use esm_tree::{ExprId, ExprNode, Link, Tree};

/// The operand with this number behind the first, or the printed argument with this number.
pub fn operand(tree: &Tree, at: ExprId, next: usize) -> Option<ExprId>
    requires { at.0 < length tree.now.exprs }
    ensures next { IsNext at.0 tree.now.exprs (operands (part tree.now.exprs at)) next result }
    ensures room { IfSome result (λ _. next + 1 < 2 ^ 64) }
{
    match tree.expr(at) {
        ExprNode::Or(_, ids) => part_at(ids.as_slice(), next),
        ExprNode::And(_, ids) => part_at(ids.as_slice(), next),
        ExprNode::Sum(_, ids) => part_at(ids.as_slice(), next),
        ExprNode::Print(ids) => part_at(ids.as_slice(), next),
        _ => None,
    }
}

/// The part with this number.
pub fn part_at(ids: &[ExprId], next: usize) -> Option<ExprId>
    ensures next { (done : _) (at : _) → AllBelow at ids.now
        → IsNext at done (parts done ids.now) next result }
    ensures room { IfSome result (λ _. next + 1 < 2 ^ 64) }
{
    if next < ids.len() {
        Some(ids[next])
    } else {
        None
    }
}

/// The comparison with this number: whether it is `===`, and its right side.
pub fn comparison(tree: &Tree, at: ExprId, next: usize) -> Option<(bool, ExprId)>
    requires { at.0 < length tree.now.exprs }
    ensures next { IsNextCompared at.0 tree.now.exprs (compared_of (part tree.now.exprs at)) next
        result }
    ensures room { IfSome result (λ _. next + 1 < 2 ^ 64) }
{
    match tree.expr(at) {
        ExprNode::Equal(_, parts) => compared_at(parts, next),
        _ => None,
    }
}

/// The comparison with this number.
fn compared_at(all: &[(bool, ExprId)], next: usize) -> Option<(bool, ExprId)>
    ensures next { (done : _) (at : _) → AllComparedBelow at all.now
        → IsNextCompared at done (compared_parts done all.now) next result }
    ensures room { IfSome result (λ _. next + 1 < 2 ^ 64) }
{
    if next < all.len() {
        Some(all[next])
    } else {
        None
    }
}

/// The members and calls behind a head.
pub fn links(tree: &Tree, at: ExprId) -> &[Link]
    requires { at.0 < length tree.now.exprs }
    ensures links { links_of (part tree.now.exprs at) ≡ flat.links tree.now.exprs result.now }
    ensures below { flat.AllLinksBelow at.0 result.now }
{
    match tree.expr(at) {
        ExprNode::Post(_, links) => links,
        _ => &[],
    }
}

/// The argument with this number of a call.
pub fn argument(tree: &Tree, at: ExprId, link: usize, next: usize) -> Option<ExprId>
    requires { at.0 < length tree.now.exprs }
    ensures next { IsNext at.0 tree.now.exprs
        (arguments (links_from link (links_of (part tree.now.exprs at)))) next result }
    ensures room { IfSome result (λ _. next + 1 < 2 ^ 64) }
{
    let links = links(tree, at);
    if link < links.len() {
        match &links[link] {
            Link::Call(ids) => part_at(ids.as_slice(), next),
            Link::Member(_) => None,
        }
    } else {
        None
    }
}
