// Operators and their operands. ECMA-262, LogicalORExpression down to UnaryExpression.
ghost use Rattle.std.specs.Prelude.{◌≡◌, ◌<◌, length, Some, IfSome, IfNone, IsSome};
ghost use Rattle.esm_tree.specs.Syntax.{Sum, And, Or};
ghost use Rattle.esm_tree.specs.Flat.{AllBelow, AllComparedBelow, part, parts, compared_parts};
ghost use Rattle.esm_grammar.specs.Lexeme.{terminal_at};
ghost use Rattle.esm_grammar.specs.Grammar.{compares, joined};
ghost use Rattle.esm_grammar.specs.Reading as read;
ghost use Rattle.esm_parse_expr.specs.Outcome.{ReadsExpr};
ghost use Rattle.esm_parse_expr.specs.Inner.Nests.{Nests};
ghost use Rattle.esm_parse_expr.specs.Inner.Operators.{joined_with, compared_with, is_operator, Compares, EndsComparison};

use crate::reader::{Reader, Stop, done};
use crate::tokens::{sees, terminal};
use esm_lexer::LexemeList;
use esm_tree::{ExprId, ExprIds, ExprNode, Terminal, Tree};
use std::alloc::Global;

/// The operand as it is, or several.
fn sum_of(
    tree: &mut Tree,
    first: ExprId,
    others: Vec<ExprId>,
    behind: usize,
) -> Result<(ExprId, usize), Stop>
    requires first_below { first.0 < length tree.old.exprs }
    requires below { AllBelow (length tree.old.exprs) others.items }
    ensures { ReadsExpr tree.old tree.new result
        (Some (
          joined Sum (part tree.old.exprs first)
              (parts tree.old.exprs others.items),
          behind,
        )) }
{
    if others.is_empty() {
        Ok((first, behind))
    } else {
        let operands = ExprIds::of(others)?;
        done(tree, ExprNode::Sum(first, operands), behind)
    }
}

/// The operand as it is, or several.
fn both_of(
    tree: &mut Tree,
    first: ExprId,
    others: Vec<ExprId>,
    behind: usize,
) -> Result<(ExprId, usize), Stop>
    requires first_below { first.0 < length tree.old.exprs }
    requires below { AllBelow (length tree.old.exprs) others.items }
    ensures { ReadsExpr tree.old tree.new result
        (Some (
          joined And (part tree.old.exprs first)
              (parts tree.old.exprs others.items),
          behind,
        )) }
{
    if others.is_empty() {
        Ok((first, behind))
    } else {
        let operands = ExprIds::of(others)?;
        done(tree, ExprNode::And(first, operands), behind)
    }
}

/// The operand as it is, or several.
fn either_of(
    tree: &mut Tree,
    first: ExprId,
    others: Vec<ExprId>,
    behind: usize,
) -> Result<(ExprId, usize), Stop>
    requires first_below { first.0 < length tree.old.exprs }
    requires below { AllBelow (length tree.old.exprs) others.items }
    ensures { ReadsExpr tree.old tree.new result
        (Some (joined Or (part tree.old.exprs first) (parts tree.old.exprs others.items), behind)) }
{
    if others.is_empty() {
        Ok((first, behind))
    } else {
        let operands = ExprIds::of(others)?;
        done(tree, ExprNode::Or(first, operands), behind)
    }
}

/// The operand as it is, or compared.
fn equal_of(
    tree: &mut Tree,
    first: ExprId,
    others: Vec<(bool, ExprId)>,
    behind: usize,
) -> Result<(ExprId, usize), Stop>
    requires first_below { first.0 < length tree.old.exprs }
    requires below { AllComparedBelow (length tree.old.exprs) others.items }
    ensures { ReadsExpr tree.old tree.new result
        (Some (
          compares (part tree.old.exprs first)
              (compared_parts tree.old.exprs others.items),
          behind,
        )) }
{
    if others.is_empty() {
        Ok((first, behind))
    } else {
        done(tree, ExprNode::Equal(first, others), behind)
    }
}

/// Whether a comparison goes on, and with which sign.
fn comparison(tokens: &LexemeList, at: usize) -> Option<bool>
    ensures some { IfSome result (λ is_same. Compares is_same (terminal_at tokens.now at)) }
    ensures none { IfNone result (EndsComparison (terminal_at tokens.now at)) }
    ensures there { IsSome result → at < length tokens.now }
    ensures small { IsSome result → at < 9223372036854775807 }
{
    if sees(tokens, at, Terminal::Same) {
        Some(true)
    } else if sees(tokens, at, Terminal::Differs) {
        Some(false)
    } else {
        None
    }
}

// Whether an operator stands at a place, which joins an operand to the one before.
fn is_operator(tokens: &LexemeList, at: usize) -> bool
    ensures { result ≡ is_operator (terminal_at tokens.now at) }
{
    match terminal(tokens, at) {
        Terminal::Plus | Terminal::Same | Terminal::Differs | Terminal::AndAnd | Terminal::OrOr =>
            true,
        _ => false,
    }
}

impl<F: Fn(Global, &LexemeList, &mut Tree, usize, usize) -> Result<(ExprId, usize), Stop>> Reader<
    F,
> {
    /// An operand behind at most so many `!`. ECMA-262, UnaryExpression.
    pub fn unary(
        &self,
        tokens: &LexemeList,
        tree: &mut Tree,
        turns: usize,
        at: usize,
    ) -> Result<(ExprId, usize), Stop>
        requires { Nests self.now.room (F.pre self.now.whole) (F.post self.now.whole) }
        ensures { ReadsExpr tree.old tree.new result
            (read.unary tokens.now (read.expr tokens.now self.now.room) self.now.room turns at) }
    {
        if turns == 0 {
            return Err(Stop::Fault);
        }
        if sees(tokens, at, Terminal::Not) {
            let (id, behind) = self.unary(tokens, tree, turns - 1, at + 1)?;
            done(tree, ExprNode::Not(id), behind)
        } else {
            self.post(tokens, tree, at)
        }
    }

    // The operands that `+` joins to the first, from the place behind it.
    fn sum_from(
        &self,
        tokens: &LexemeList,
        tree: &mut Tree,
        first: ExprId,
        at: usize,
    ) -> Result<(ExprId, usize), Stop>
        requires nests { Nests self.now.room (F.pre self.now.whole) (F.post self.now.whole) }
        requires first_below { first.0 < length tree.old.exprs }
        ensures { ReadsExpr tree.old tree.new result
            (joined_with Sum (part tree.old.exprs first)
            (read.further tokens.now Terminal.Plus
            (read.unary tokens.now
            (read.expr tokens.now self.now.room) self.now.room self.now.room) self.now.room at)) }
    {
        let mut others = Vec::new(self.alloc);
        let mut next = at;
        'turns: for _turn in 0..self.room {
            if !sees(tokens, next, Terminal::Plus) {
                return sum_of(tree, first, others, next);
            }
            let (id, after) = self.unary(tokens, tree, self.room, next + 1)?;
            others.push(id)?;
            next = after;
        }
        Err(Stop::Fault)
    }

    // ECMA-262, AdditiveExpression.
    fn sum(&self, tokens: &LexemeList, tree: &mut Tree, at: usize) -> Result<(ExprId, usize), Stop>
        requires { Nests self.now.room (F.pre self.now.whole) (F.post self.now.whole) }
        ensures { ReadsExpr tree.old tree.new result
            (read.sum tokens.now (read.expr tokens.now self.now.room) self.now.room at) }
    {
        let (first, behind) = self.unary(tokens, tree, self.room, at)?;
        self.sum_from(tokens, tree, first, behind)
    }

    // The operands that are compared with the first, from the place behind it.
    fn equal_from(
        &self,
        tokens: &LexemeList,
        tree: &mut Tree,
        first: ExprId,
        at: usize,
    ) -> Result<(ExprId, usize), Stop>
        requires nests { Nests self.now.room (F.pre self.now.whole) (F.post self.now.whole) }
        requires first_below { first.0 < length tree.old.exprs }
        ensures { ReadsExpr tree.old tree.new result
            (compared_with (part tree.old.exprs first)
            (read.comparisons tokens.now
            (read.sum tokens.now (read.expr tokens.now self.now.room) self.now.room)
            self.now.room at)) }
    {
        let mut others = Vec::new(self.alloc);
        let mut next = at;
        'turns: for _turn in 0..self.room {
            let Some(is_same) = comparison(tokens, next) else {
                return equal_of(tree, first, others, next);
            };
            let (id, after) = self.sum(tokens, tree, next + 1)?;
            others.push((is_same, id))?;
            next = after;
        }
        Err(Stop::Fault)
    }

    // ECMA-262, EqualityExpression.
    fn equal(
        &self,
        tokens: &LexemeList,
        tree: &mut Tree,
        at: usize,
    ) -> Result<(ExprId, usize), Stop>
        requires { Nests self.now.room (F.pre self.now.whole) (F.post self.now.whole) }
        ensures { ReadsExpr tree.old tree.new result
            (read.equal tokens.now (read.expr tokens.now self.now.room) self.now.room at) }
    {
        let (first, behind) = self.sum(tokens, tree, at)?;
        self.equal_from(tokens, tree, first, behind)
    }

    // The operands that `&&` joins to the first, from the place behind it.
    fn both_from(
        &self,
        tokens: &LexemeList,
        tree: &mut Tree,
        first: ExprId,
        at: usize,
    ) -> Result<(ExprId, usize), Stop>
        requires nests { Nests self.now.room (F.pre self.now.whole) (F.post self.now.whole) }
        requires first_below { first.0 < length tree.old.exprs }
        ensures { ReadsExpr tree.old tree.new result
            (joined_with And (part tree.old.exprs first)
            (read.further tokens.now Terminal.AndAnd
            (read.equal tokens.now
            (read.expr tokens.now self.now.room) self.now.room) self.now.room at)) }
    {
        let mut others = Vec::new(self.alloc);
        let mut next = at;
        'turns: for _turn in 0..self.room {
            if !sees(tokens, next, Terminal::AndAnd) {
                return both_of(tree, first, others, next);
            }
            let (id, after) = self.equal(tokens, tree, next + 1)?;
            others.push(id)?;
            next = after;
        }
        Err(Stop::Fault)
    }

    // ECMA-262, LogicalANDExpression.
    fn both(&self, tokens: &LexemeList, tree: &mut Tree, at: usize) -> Result<(ExprId, usize), Stop>
        requires { Nests self.now.room (F.pre self.now.whole) (F.post self.now.whole) }
        ensures { ReadsExpr tree.old tree.new result
            (read.both tokens.now (read.expr tokens.now self.now.room) self.now.room at) }
    {
        let (first, behind) = self.equal(tokens, tree, at)?;
        self.both_from(tokens, tree, first, behind)
    }

    // The operands that `||` joins to the first, from the place behind it.
    fn either_from(
        &self,
        tokens: &LexemeList,
        tree: &mut Tree,
        first: ExprId,
        at: usize,
    ) -> Result<(ExprId, usize), Stop>
        requires nests { Nests self.now.room (F.pre self.now.whole) (F.post self.now.whole) }
        requires first_below { first.0 < length tree.old.exprs }
        ensures { ReadsExpr tree.old tree.new result
            (joined_with Or (part tree.old.exprs first)
            (read.further tokens.now Terminal.OrOr
            (read.both tokens.now
            (read.expr tokens.now self.now.room) self.now.room) self.now.room at)) }
    {
        let mut others = Vec::new(self.alloc);
        let mut next = at;
        'turns: for _turn in 0..self.room {
            if !sees(tokens, next, Terminal::OrOr) {
                return either_of(tree, first, others, next);
            }
            let (id, after) = self.both(tokens, tree, next + 1)?;
            others.push(id)?;
            next = after;
        }
        Err(Stop::Fault)
    }

    /// An operand, and what operators join to it. ECMA-262, LogicalORExpression. Most operands stand alone, so that is
    /// tried first.
    pub fn either(
        &self,
        tokens: &LexemeList,
        tree: &mut Tree,
        at: usize,
    ) -> Result<(ExprId, usize), Stop>
        requires { Nests self.now.room (F.pre self.now.whole) (F.post self.now.whole) }
        ensures { ReadsExpr tree.old tree.new result
            (read.either tokens.now (read.expr tokens.now self.now.room) self.now.room at) }
    {
        let (first, behind) = self.unary(tokens, tree, self.room, at)?;
        if !is_operator(tokens, behind) {
            return Ok((first, behind));
        }
        let (summed, behind) = self.sum_from(tokens, tree, first, behind)?;
        let (compared, behind) = self.equal_from(tokens, tree, summed, behind)?;
        let (joined, behind) = self.both_from(tokens, tree, compared, behind)?;
        self.either_from(tokens, tree, joined, behind)
    }
}
