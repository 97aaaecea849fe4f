// The tree of a module text.
ghost use Rattle.std.specs.Prelude.{◌≡◌, ◌≤◌, ℕ, List, length, MatchResult};
ghost use Rattle.esm_base.specs.declared.limits.TheConstants.{MAX_FILE_BYTES};
ghost use Rattle.esm_grammar.specs.ReadingItems.{module_items};
ghost use Rattle.esm_grammar.specs.Lexes.{AreTokens};
ghost use Rattle.esm_grammar.specs.ModuleText.{Spells, IsRefusedFor};
ghost use Rattle.esm_parse_mod.specs.Inner.Outcome.{ReadsModule};
ghost use Rattle.esm_parse_mod.specs.Inner.Derived.{Derives};

use crate::errors::has_early_error;
use crate::items::item_step;
use bumpalo::Bump;
use esm_base::{MAX_FILE_BYTES, ReadEnd, TextFault};
use esm_lexer::{LexemeList, lexemes, nests_too_deep};
use esm_parse_expr::Stop;
use esm_tree::Tree;
use std::alloc::Global;

// The items from the first token up to the last.
fn items(alloc: Global, tokens: &LexemeList) -> Result<Tree, Stop>
    ensures { ReadsModule result (module_items tokens.now) }
{
    let count = tokens.len();
    let turns = count + 2;
    let mut tree = Tree::with_room(alloc, count)?;
    let mut next = 0;
    'turns: for _turn in 0..turns {
        let (one, behind) = item_step(alloc, tokens, &mut tree, turns, next)?;
        next = behind;
        match one {
            Some(node) => tree.add_item(node)?,
            None => return Ok(tree),
        }
    }
    Err(Stop::Fault)
}

// Reads the tree that the tokens of a text derive, which are whole or end at a place where no token can be read.
fn tree_of(alloc: Global, tokens: &LexemeList, whole: bool) -> Result<Tree, ReadEnd>
    ensures { (bytes : List ℕ) → length bytes ≤ MAX_FILE_BYTES → AreTokens bytes tokens.now whole →
        MatchResult result (λ tree. Derives bytes tree.items) (IsRefusedFor bytes) }
{
    if nests_too_deep(tokens) {
        return Err(ReadEnd::Fault(TextFault::P4));
    }
    if !whole {
        return Err(ReadEnd::Fault(TextFault::P2));
    }
    match items(alloc, tokens) {
        Ok(tree) => Ok(tree),
        Err(Stop::Fault) => Err(ReadEnd::Fault(TextFault::P2)),
        Err(Stop::Memory) => Err(ReadEnd::Memory),
    }
}

// Reads the tree that the bytes derive, whether or not it has early errors.
fn derived(alloc: Global, bytes: &[u8]) -> Result<Tree, ReadEnd>
    ensures { MatchResult result (λ tree. Derives bytes.now tree.items) (IsRefusedFor bytes.now) }
{
    if bytes.len() > MAX_FILE_BYTES {
        return Err(ReadEnd::Fault(TextFault::P6));
    }
    let arena = Bump::new(alloc);
    match lexemes(alloc, &arena, bytes) {
        Ok((tokens, whole)) => tree_of(alloc, &tokens, whole),
        Err(end) => Err(end),
    }
}

/// Reads the tree that the bytes spell. ECMA-262, ParseModule. Faults are tried in the order P6, P1, P4, P2, P3.
pub fn parse(alloc: Global, bytes: &[u8]) -> Result<Tree, ReadEnd>
    ensures { MatchResult result (λ tree. Spells bytes.now tree.items) (IsRefusedFor bytes.now) }
{
    match derived(alloc, bytes) {
        Ok(tree) => match has_early_error(alloc, &tree) {
            Ok(true) => Err(ReadEnd::Fault(TextFault::P3)),
            Ok(false) => Ok(tree),
            Err(_) => Err(ReadEnd::Memory),
        },
        Err(end) => Err(end),
    }
}
