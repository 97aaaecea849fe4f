// What stands at a place in the tokens.
ghost use Rattle.std.specs.Prelude.{◌≡◌, ◌≢◌, ◌<◌, true, length, IfOk};
ghost use Rattle.esm_grammar.specs.Lexeme.{terminal_at, text_at, newline_at, is_word, is_name};
ghost use Rattle.esm_grammar.specs.Reading.{same};

use esm_base::{Memory, Text};
use esm_lexer::LexemeList;
use esm_tree::{NodeText, Terminal};
use std::alloc::Global;

/// What the token at a place is, or `End` behind the last.
pub fn terminal(tokens: &LexemeList, at: usize) -> Terminal
    ensures value { result ≡ terminal_at tokens.now at }
    ensures there { result ≢ Terminal.End → at < length tokens.now }
    ensures small { result ≢ Terminal.End → at < 9223372036854775807 }
{
    let _ = tokens.len();
    tokens.terminal(at)
}

/// Whether the token at a place is this one.
pub fn sees(tokens: &LexemeList, at: usize, wanted: Terminal) -> bool
    requires { wanted ≢ Terminal.End }
    ensures value { result ≡ same (terminal_at tokens.now at) wanted }
    ensures there { result ≡ true → at < length tokens.now }
    ensures small { result ≡ true → at < 9223372036854775807 }
{
    terminal(tokens, at) == wanted
}

/// Whether a line terminator stands before the token at a place. None does behind the last token.
pub fn newline_at(tokens: &LexemeList, at: usize) -> bool
    ensures { result ≡ newline_at tokens.now at }
{
    tokens.newline_before(at)
}

/// What the token at a place spells.
pub fn text(alloc: Global, tokens: &LexemeList, at: usize) -> Result<Text, Memory>
    ensures { IfOk result (λ v. v ≡ text_at tokens.now at) }
{
    Text::copy(alloc, tokens.text(at))
}

/// The same, for a node of an expression.
pub fn node_text(alloc: Global, tokens: &LexemeList, at: usize) -> Result<NodeText, Memory>
    ensures { IfOk result (λ v. v ≡ text_at tokens.now at) }
{
    NodeText::copy(alloc, tokens.text(at))
}

/// Whether the token at a place is a word.
pub fn is_word_at(tokens: &LexemeList, at: usize) -> bool
    ensures value { result ≡ is_word (terminal_at tokens.now at) }
    ensures there { result ≡ true → at < length tokens.now }
    ensures small { result ≡ true → at < 9223372036854775807 }
{
    match terminal(tokens, at) {
        Terminal::Name
        | Terminal::As
        | Terminal::From
        | Terminal::Meta
        | Terminal::Url
        | Terminal::True
        | Terminal::False
        | Terminal::Undefined
        | Terminal::Print
        | Terminal::New
        | Terminal::Error
        | Terminal::Import
        | Terminal::Export
        | Terminal::Default
        | Terminal::Function
        | Terminal::Const
        | Terminal::Let
        | Terminal::If
        | Terminal::Else
        | Terminal::Try
        | Terminal::Catch
        | Terminal::Throw
        | Terminal::Return
        | Terminal::Await
        | Terminal::Reserved => true,
        _ => false,
    }
}

/// Whether the token at a place is a word that isn't reserved.
pub fn is_name_at(tokens: &LexemeList, at: usize) -> bool
    ensures value { result ≡ is_name (terminal_at tokens.now at) }
    ensures there { result ≡ true → at < length tokens.now }
    ensures small { result ≡ true → at < 9223372036854775807 }
{
    match terminal(tokens, at) {
        Terminal::Name | Terminal::As | Terminal::From | Terminal::Meta | Terminal::Url => true,
        _ => false,
    }
}
