// The expression that begins at a token of a text.
ghost use Rattle.std.specs.Prelude.{ℕ, ◌≡◌, ◌<◌, ◌≤◌, length, IfOk, OnOk, OnErr, Err};
ghost use Rattle.esm_base.specs.declared.end.End.TheVariants.{Fault};
ghost use Rattle.esm_base.specs.declared.fault.TextFault.{TextFault};
ghost use Rattle.esm_base.specs.declared.fault.TextFault.TheVariants.{P2};
ghost use Rattle.esm_tree.specs.Syntax.{Expr};
ghost use Rattle.esm_tree.specs.Flat.{part};
ghost use Rattle.esm_grammar.specs.Grammar.{Reads, ors};
ghost use Rattle.esm_parse_expr.specs.Outcome.{Grows};
ghost use Rattle.esm_parse_expr.specs.TextExpressions.{SpellsTokens, ExprBegins};

use crate::reader::{Stop, read_expr};
use bumpalo::Bump;
use esm_base::{MAX_FILE_BYTES, ReadEnd, TextFault};
use esm_lexer::{LexemeList, lexemes};
use esm_tree::{ExprId, Token, Tree};
use std::alloc::Global;

// The same over the tokens as the grammar sees them.
fn parse_among(
    alloc: Global,
    found: &LexemeList,
    at: usize,
    tree: &mut Tree,
) -> Result<(ExprId, usize), ReadEnd>
    ensures grows { OnOk result (Grows tree.old tree.new) }
    ensures found { IfOk result (λ p. (p.0.0 < length tree.new.exprs) ×
        Reads found.now ors at (part tree.new.exprs p.0) p.1) }
    ensures fault { (f : TextFault) → result ≡ Err (Fault f) → f ≡ P2 }
    ensures none { result ≡ Err (Fault P2) → (e : Expr) (j : ℕ) → Reads found.now ors at e j → ⊥ }
    ensures err { OnErr result (tree.new ≡ tree.old) }
{
    match read_expr(alloc, found, at, tree) {
        Ok(read) => Ok(read),
        Err(Stop::Fault) => Err(ReadEnd::Fault(TextFault::P2)),
        Err(Stop::Memory) => Err(ReadEnd::Memory),
    }
}

/// Reads the expression that begins at a token of a text, and gives the place behind it. The tokens are those that
/// `esm_lexer::tokens` gives for the bytes. The fault is P2, exactly where no expression begins there. After a refusal
/// the tree is as before.
///
/// It reads the tokens of the bytes again, so it takes time in the length of the text.
pub fn parse_expr(
    alloc: Global,
    bytes: &[u8],
    tokens: &[Token],
    at: usize,
    tree: &mut Tree,
) -> Result<(ExprId, usize), ReadEnd>
    requires short { length bytes.now ≤ MAX_FILE_BYTES }
    requires spelled { SpellsTokens bytes.now tokens.now }

    // What is read is an expression of the grammar, and added to the tree.
    ensures grows { OnOk result (Grows tree.old tree.new) }
    ensures found { IfOk result (λ p. (p.0.0 < length tree.new.exprs) ×
        ExprBegins bytes.now at (part tree.new.exprs p.0) p.1) }

    // It is refused exactly where none begins.
    ensures fault { (f : TextFault) → result ≡ Err (Fault f) → f ≡ P2 }
    ensures none { result ≡ Err (Fault P2) → (e : Expr) (j : ℕ) → ExprBegins bytes.now at e j → ⊥ }
    ensures err { OnErr result (tree.new ≡ tree.old) }
{
    let arena = Bump::new(alloc);
    match lexemes(alloc, &arena, bytes) {
        Ok((found, _)) => parse_among(alloc, &found, at, tree),
        Err(_) => Err(ReadEnd::Memory),
    }
}
