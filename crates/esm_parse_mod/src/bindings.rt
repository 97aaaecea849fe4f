// The end of a statement, initializers and declarations.
ghost use Rattle.std.specs.Prelude.{◌≡◌, ◌<◌, ◌+◌, length};
ghost use Rattle.esm_grammar.specs.Lexeme.{terminal_at};
ghost use Rattle.esm_grammar.specs.Reading.{same};
ghost use Rattle.esm_grammar.specs.ReadingStatements as read;
ghost use Rattle.esm_grammar.specs.Statements as grammar;
ghost use Rattle.esm_parse_mod.specs.Inner.Outcome.{EndsAt, ReadsInit, ReadsBinding, ReadsBindingStep, ReadsBindings, ReadsDeclaration};

use crate::statements::Room;
use esm_lexer::LexemeList;
use esm_parse_expr::tokens::{is_name_at, newline_at, sees, terminal, text};
use esm_parse_expr::{Stop, expr, operand};
use esm_tree::{Initializer, LexicalBinding, Terminal, Tree};
use std::alloc::Global;

/// Whether no token stands at a place.
pub(crate) fn at_end(tokens: &LexemeList, at: usize) -> bool
    ensures { result ≡ same (terminal_at tokens.now at) Terminal.End }
{
    terminal(tokens, at) == Terminal::End
}

#[tactic(auto, unfolding(esm_grammar::specs::Statements::may_miss))]
fn may_miss(tokens: &LexemeList, at: usize, continued: bool) -> bool
    ensures { result ≡ grammar.may_miss tokens.now continued at }
{
    (sees(tokens, at, Terminal::BraceClose) || at_end(tokens, at) || newline_at(tokens, at))
        && !(continued && sees(tokens, at, Terminal::Open))
}

/// The place behind a `;`, which may be missing. ECMA-262, Automatic Semicolon Insertion.
pub(crate) fn end(tokens: &LexemeList, at: usize, continued: bool) -> Result<usize, Stop>
    ensures { EndsAt tokens.now continued at result }
{
    if sees(tokens, at, Terminal::Semicolon) {
        return Ok(at + 1);
    }
    if may_miss(tokens, at, continued) {
        Ok(at)
    } else {
        Err(Stop::Fault)
    }
}

/// `await` before an operand, or an expression.
pub(crate) fn init(
    alloc: Global,
    tokens: &LexemeList,
    tree: &mut Tree,
    room: Room,
    at: usize,
) -> Result<(Initializer, usize), Stop>
    ensures { ReadsInit tree.old tree.new result (read.init tokens.now room.turns room.inside at) }
{
    if sees(tokens, at, Terminal::Await) {
        if room.inside {
            return Err(Stop::Fault);
        }
        let (id, behind) = operand(alloc, tokens, tree, room.turns, at + 1)?;
        return Ok((Initializer::Awaited(id), behind));
    }
    let (id, behind) = expr(alloc, tokens, tree, room.turns, at)?;
    Ok((Initializer::Plain(id), behind))
}

fn one_binding(
    alloc: Global,
    tokens: &LexemeList,
    tree: &mut Tree,
    room: Room,
    constant: bool,
    at: usize,
) -> Result<(LexicalBinding, usize), Stop>
    ensures { ReadsBinding tree.old tree.new result
        (read.one_binding tokens.now room.turns room.inside constant at) }
{
    if !is_name_at(tokens, at) {
        return Err(Stop::Fault);
    }
    let name = text(alloc, tokens, at)?;
    if sees(tokens, at + 1, Terminal::Equals) {
        let (value, behind) = init(alloc, tokens, tree, room, at + 2)?;
        return Ok((LexicalBinding { name, value }, behind));
    }
    if constant {
        return Err(Stop::Fault);
    }
    let value = Initializer::Absent;
    Ok((LexicalBinding { name, value }, at + 1))
}

// One more binding behind a comma, or the end of the list.
fn step(
    alloc: Global,
    tokens: &LexemeList,
    tree: &mut Tree,
    room: Room,
    constant: bool,
    at: usize,
) -> Result<(Option<LexicalBinding>, usize), Stop>
    ensures { ReadsBindingStep tree.old tree.new result
        (read.binding_step tokens.now room.turns room.inside constant at) }
{
    if !sees(tokens, at, Terminal::Comma) {
        return Ok((None, at));
    }
    let (found, behind) = one_binding(alloc, tokens, tree, room, constant, at + 1)?;
    Ok((Some(found), behind))
}

fn bindings(
    alloc: Global,
    tokens: &LexemeList,
    tree: &mut Tree,
    room: Room,
    constant: bool,
    at: usize,
) -> Result<(Vec<LexicalBinding>, usize), Stop>
    ensures { ReadsBindings tree.old tree.new result
        (read.bindings tokens.now room.turns room.inside constant at) }
{
    let (first, behind) = one_binding(alloc, tokens, tree, room, constant, at)?;
    let mut found = Vec::new(alloc);
    found.push(first)?;
    let mut next = behind;
    'turns: for _turn in 0..room.turns {
        let (one, behind) = step(alloc, tokens, tree, room, constant, next)?;
        next = behind;
        match one {
            Some(binding) => found.push(binding)?,
            None => return Ok((found, next)),
        }
    }
    Err(Stop::Fault)
}

/// Behind `const` or `let`, up to the end.
pub(crate) fn declaration(
    alloc: Global,
    tokens: &LexemeList,
    tree: &mut Tree,
    room: Room,
    constant: bool,
    at: usize,
) -> Result<(Vec<LexicalBinding>, usize), Stop>
    requires { at < length tokens.now }
    ensures { ReadsDeclaration tokens.now tree.old tree.new result
        (read.bindings tokens.now room.turns room.inside constant (at + 1)) }
{
    let _ = tokens.len();
    let (found, behind) = bindings(alloc, tokens, tree, room, constant, at + 1)?;
    let behind = end(tokens, behind, false)?;
    Ok((found, behind))
}
