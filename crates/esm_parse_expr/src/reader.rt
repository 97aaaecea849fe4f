// Whole expressions.
ghost use Rattle.std.specs.Prelude.{ℕ, ◌≡◌, ◌≢◌, ◌<◌, OnOk, ◌++◌, ◌∷◌, [], length, IfOk, OnErr, MatchResult, Some};
ghost use Rattle.esm_tree.specs.Syntax.{Parts, Expr};
ghost use Rattle.esm_tree.specs.Flat.{IsBelow, expr_of, part};
ghost use Rattle.esm_grammar.specs.Reading as read;
ghost use Rattle.esm_grammar.specs.Grammar.{Reads, ors};
ghost use Rattle.esm_parse_expr.specs.Outcome.{ReadsExpr, Grows};
ghost use Rattle.esm_parse_expr.specs.Inner.Nests.{Nests};
ghost use Rattle.esm_parse_expr.specs.declared.reader.Stop.TheVariants.{Memory};

use esm_base::Memory;
use esm_lexer::LexemeList;
use esm_tree::{ExprId, ExprNode, Tree};
use std::alloc::{AllocError, AllocFailed, Global};

/// Why nothing is read.
#[derive(Clone, Copy, Debug, Drop, PartialEq, Eq)]
pub enum Stop {
    /// The tokens aren't in the grammar there.
    Fault,
    /// Memory ran out.
    Memory,
}

impl From<Memory> for Stop {
    ghost from_gives = { λ _ e. e ≡ Memory };

    fn from(_: Memory) -> Self {
        Stop::Memory
    }
}

impl From<AllocError> for Stop {
    ghost from_gives = { λ _ e. e ≡ Memory };

    fn from(_: AllocError) -> Self {
        Stop::Memory
    }
}

impl<T: Drop> From<AllocFailed<T>> for Stop {
    ghost from_gives = { λ _ e. e ≡ Memory };

    fn from(_: AllocFailed<T>) -> Self {
        Stop::Memory
    }
}

/// Reads expressions; those in brackets by a function of its own.
#[derive(Clone, Copy)]
pub struct Reader<F> {
    /// Makes the texts and lists of the nodes.
    pub alloc: Global,
    /// How many turns a list or a nested expression may take.
    pub room: usize,
    /// Reads the expressions in brackets.
    pub whole: F,
}

/// One more expression, read up to a place.
pub fn done(tree: &mut Tree, node: ExprNode, behind: usize) -> Result<(ExprId, usize), Stop>
    requires { IsBelow (length tree.old.exprs) node }
    ensures { ReadsExpr tree.old tree.new result (Some (expr_of tree.old.exprs node, behind)) }
{
    if tree.mark().exprs >= u32::MAX {
        return Err(Stop::Memory);
    }
    match tree.add_expr(node) {
        Ok(id) => Ok((id, behind)),
        Err(_) => Err(Stop::Memory),
    }
}

impl<F: Fn(Global, &LexemeList, &mut Tree, usize, usize) -> Result<(ExprId, usize), Stop>> Reader<
    F,
> {
    /// An expression in brackets.
    pub fn whole(
        &self,
        tokens: &LexemeList,
        tree: &mut Tree,
        at: usize,
    ) -> Result<(ExprId, usize), Stop>
        requires { Nests self.now.room (F.pre self.now.whole) (F.post self.now.whole) }
        ensures { ReadsExpr tree.old tree.new result (read.expr tokens.now self.now.room at) }
    {
        (self.whole)(self.alloc, tokens, tree, self.room, at)
    }
}

/// The expression at a place, as far as so many turns allow. After a refusal the tree may have more expressions than
/// before, and nothing else has changed.
pub fn expr(
    alloc: Global,
    tokens: &LexemeList,
    tree: &mut Tree,
    room: usize,
    at: usize,
) -> Result<(ExprId, usize), Stop>
    ensures { ReadsExpr tree.old tree.new result (read.expr tokens.now room at) }
{
    if room == 0 {
        return Err(Stop::Fault);
    }
    Reader {
        alloc,
        room: room - 1,
        whole: expr,
    }
    .either(tokens, tree, at)
}

/// The operand of `await` at a place, as far as so many turns allow. ECMA-262, UnaryExpression. After a refusal the tree
/// may have more expressions than before, and nothing else has changed.
pub fn operand(
    alloc: Global,
    tokens: &LexemeList,
    tree: &mut Tree,
    room: usize,
    at: usize,
) -> Result<(ExprId, usize), Stop>
    ensures { ReadsExpr tree.old tree.new result
        (read.unary tokens.now (read.expr tokens.now room) room room at) }
{
    Reader {
        alloc,
        room,
        whole: expr,
    }
    .unary(tokens, tree, room, at)
}

/// Reads the expression that begins at a token, and gives the place behind it. After a refusal the tree is as before.
pub fn read_expr(
    alloc: Global,
    tokens: &LexemeList,
    at: usize,
    tree: &mut Tree,
) -> Result<(ExprId, usize), Stop>
    // What is read is an expression of the grammar, and added to the tree.
    ensures grows { OnOk result (Grows tree.old tree.new) }
    ensures found { IfOk result (λ p. (p.0.0 < length tree.new.exprs) ×
        Reads tokens.now ors at (part tree.new.exprs p.0) p.1) }

    // It is refused exactly where none begins.
    ensures none { result ≡ Err Stop.Fault → (e : Expr) (j : ℕ) → Reads tokens.now ors at e j → ⊥ }
    ensures err { OnErr result (tree.new ≡ tree.old) }
{
    let mark = tree.mark();
    match expr(alloc, tokens, tree, tokens.len() + 2, at) {
        Ok(found) => Ok(found),
        Err(end) => {
            tree.cut(mark.exprs, mark.stmts);
            Err(end)
        }
    }
}
