// The tokens of a text, one after another.
ghost use Rattle.std.specs.Prelude.{◌≡◌, ◌≢◌, ◌+◌, ◌*◌, ◌<◌, ◌≤◌, ◌||◌, ℕ, List, true, false, chars, map, length, drop, slice_index, encode_utf8_all, IfOk, MatchOption, MatchResult, IsUtf8, Ok, Err};
ghost use Rattle.esm_base.specs.declared.end.End.TheVariants as end;
ghost use Rattle.esm_base.specs.declared.fault.TextFault.TheVariants as fault;
ghost use Rattle.esm_grammar.specs.Characters as characters;
ghost use Rattle.esm_grammar.specs.Reading.{same};
ghost use Rattle.esm_grammar.specs.Lexes as lexes;
ghost use Rattle.esm_grammar.specs.Lexes.{NoToken, Longest, Lexes, AreTokens};
ghost use Rattle.esm_lexer.specs.Tokens.{IsFound, IsRefusal, AreTokensOf, token_of};
ghost use Rattle.esm_tree.specs.Lexeme.{Lexeme};

use crate::characters::{are, continues, either, is_quote, starts};
use crate::front::front;
use crate::gaps::{gap, line_len};
use crate::list::LexemeList;
use crate::literal::literal;
use crate::signs::sign;
use crate::words::word_terminal;
use bumpalo::Bump;
use esm_base::{MAX_NESTING, Memory, ReadEnd, TextFault, without_mark};
use esm_tree::{Lexeme, Terminal, Token, TokenKind};
use std::alloc::Global;

// A token that was found at the front of a text.
#[derive(Clone, Copy)]
struct Found<'a> {
    kind: TokenKind,
    terminal: Terminal,
    text: &'a str,
    len: usize,
}

// How many characters from the first on continue a word.
fn run_len(text: &[char]) -> usize
    ensures within { result ≤ length text.now }
    ensures before { (k : ℕ) → k < result → characters.continues (slice_index text.now k) ≡ true }
    ensures stop { result < length text.now
        → characters.continues (slice_index text.now result) ≡ false }
{
    for (i, c) in text.iter().enumerate() {
        if !continues(*c) {
            return i;
        }
    }
    text.len()
}

fn word_at<'a>(source: &'a str, text: &[char]) -> Found<'a>
    requires there { 0 < length text.now }
    requires word { characters.starts (slice_index text.now 0) ≡ true }
    requires source { source.now ≡ encode_utf8_all text.now }
    ensures { IsFound text.now result.kind result.terminal result.text.now result.len }
{
    let len = run_len(&text[1..]) + 1;
    let (spelled, _) = front(source, text, len);
    Found {
        kind: TokenKind::Word,
        terminal: word_terminal(spelled),
        text: spelled,
        len,
    }
}

fn literal_at<'a>(
    alloc: Global,
    arena: &'a Bump,
    source: &'a str,
    text: &[char],
) -> Result<Option<Found<'a>>, Memory>
    requires there { 0 < length text.now }
    requires no_word { characters.starts (slice_index text.now 0) ≡ false }
    requires quote { characters.is_quote (slice_index text.now 0) ≡ true }
    requires source { source.now ≡ encode_utf8_all text.now }
    ensures { IfOk result (λ r. MatchOption r (NoToken text.now)
        (λ found. IsFound text.now found.kind found.terminal found.text.now found.len)) }
{
    match literal(alloc, arena, source, text)? {
        Some((value, len)) => Ok(Some(Found {
            kind: TokenKind::Literal,
            terminal: Terminal::Literal,
            text: value,
            len,
        })),
        None => Ok(None),
    }
}

fn sign_at<'a>(text: &[char]) -> Option<Found<'a>>
    requires there { 0 < length text.now }
    requires no_word { characters.starts (slice_index text.now 0) ≡ false }
    requires no_quote { characters.is_quote (slice_index text.now 0) ≡ false }
    ensures { MatchOption result (NoToken text.now)
        (λ found. IsFound text.now found.kind found.terminal found.text.now found.len) }
{
    match sign(text) {
        Some((terminal, len)) => Some(Found {
            kind: TokenKind::Sign,
            terminal,
            text: "",
            len,
        }),
        None => None,
    }
}

// The longest token at the front.
fn token_at<'a>(
    alloc: Global,
    arena: &'a Bump,
    source: &'a str,
    text: &[char],
) -> Result<Option<Found<'a>>, Memory>
    requires there { 0 < length text.now }
    requires source { source.now ≡ encode_utf8_all text.now }
    ensures { IfOk result (λ r. MatchOption r (NoToken text.now)
        (λ found. IsFound text.now found.kind found.terminal found.text.now found.len)) }
{
    if starts(text[0]) {
        return Ok(Some(word_at(source, text)));
    }
    if is_quote(text[0]) {
        literal_at(alloc, arena, source, text)
    } else {
        Ok(sign_at(text))
    }
}

// The tokens of characters at the end of a text with these bytes, and whether all was read.
fn scan<'a>(
    alloc: Global,
    arena: &'a Bump,
    bytes: &'a [u8],
    source: &'a str,
    text: &[char],
) -> Result<(LexemeList<'a>, bool), Memory>
    requires short { length bytes.now < 4294967296 }
    requires source { source.now ≡ encode_utf8_all text.now }
    ensures { IfOk result (λ r. Lexes (length bytes.now) false text.now r.0 r.1) }
{
    let mut found = LexemeList::new(alloc, bytes);
    let mut at = 0;
    let mut left = source;
    let mut newline = false;
    while at < text.len() {
        let rest = &text[at..];
        match gap(rest) {
            Some((n, ends_line)) => {
                let (_, behind) = front(left, rest, n);
                left = behind;
                at += n;
                newline = either(newline, ends_line);
            }
            None => match token_at(alloc, arena, left, rest)? {
                Some(token) => {
                    let (_, behind) = front(left, rest, token.len);
                    let place = Token {
                        kind: token.kind,
                        from: bytes.len().saturating_sub(left.len()),
                        to: bytes.len().saturating_sub(behind.len()),
                        newline_before: newline,
                    };
                    found.push(Lexeme::new(token.terminal, token.text, place))?;
                    left = behind;
                    at += token.len;
                    newline = false;
                }
                None => return Ok((found, false)),
            },
        }
    }
    Ok((found, true))
}

fn hashbang_len(text: &[char]) -> usize
    ensures value { result ≡ lexes.hashbang_len text.now }
    ensures within { result ≤ length text.now }
{
    if text.len() < 2 {
        return 0;
    }
    if are(text[0], text[1], '#', '!') {
        line_len(&text[2..]) + 2
    } else {
        0
    }
}

fn chars_of(alloc: Global, text: &str) -> Result<Vec<char>, Memory>
    ensures { IfOk result (λ cs. cs.items ≡ chars text.now) }
{
    let characters = text.chars().collect(alloc)?;
    Ok(characters)
}

fn lexemes_of<'a>(
    alloc: Global,
    arena: &'a Bump,
    bytes: &'a [u8],
    text: &'a str,
) -> Result<(LexemeList<'a>, bool), Memory>
    requires { length bytes.now < 4294967296 }
    ensures { IfOk result (λ r. Lexes (length bytes.now) false
        (drop (lexes.hashbang_len (chars text.now)) (chars text.now)) r.0 r.1) }
{
    let characters = chars_of(alloc, text)?;
    let begin = hashbang_len(&characters);
    let (_, source) = front(text, &characters, begin);
    scan(alloc, arena, bytes, source, &characters[begin..])
}

/// The tokens of a text as the grammar sees them, up to the end, or up to a place where no token can be read (false).
/// The fault is P1, exactly where the bytes aren't UTF-8.
///
/// What a token spells is a slice of the bytes; what a string literal with escapes stands for is put into the arena.
/// A token takes eight bytes.
pub fn lexemes<'a>(
    alloc: Global,
    arena: &'a Bump,
    bytes: &'a [u8],
) -> Result<(LexemeList<'a>, bool), ReadEnd>
    requires { length bytes.now < 4294967296 }
    ensures { MatchResult result (λ r. AreTokens bytes.now r.0 r.1) (IsRefusal bytes.now) }
{
    match str::from_utf8(without_mark(bytes)) {
        Ok(text) => match lexemes_of(alloc, arena, bytes, text) {
            Ok(found) => Ok(found),
            Err(_) => Err(ReadEnd::Memory),
        },
        Err(_) => Err(ReadEnd::Fault(TextFault::P1)),
    }
}

fn is_terminal(terminal: Terminal, other: Terminal) -> bool
    ensures { result ≡ same terminal other }
{
    terminal == other
}

#[tactic(auto, unfolding(esm_grammar::specs::Lexes::opens))]
fn opens(terminal: Terminal) -> bool
    ensures { result ≡ lexes.opens terminal }
{
    either(
        is_terminal(terminal, Terminal::Open),
        is_terminal(terminal, Terminal::BraceOpen),
    )
}

#[tactic(auto, unfolding(esm_grammar::specs::Lexes::shuts))]
fn shuts(terminal: Terminal) -> bool
    ensures { result ≡ lexes.shuts terminal }
{
    either(
        is_terminal(terminal, Terminal::Close),
        is_terminal(terminal, Terminal::BraceClose),
    )
}

fn depth_behind(depth: u32, terminal: Terminal) -> u32
    requires { depth ≤ MAX_NESTING }
    ensures { result ≡ lexes.depth_behind depth terminal }
{
    if opens(terminal) {
        return depth + 1;
    }
    if shuts(terminal) {
        depth.saturating_sub(1)
    } else {
        depth
    }
}

fn nots_behind(nots: u32, terminal: Terminal) -> u32
    requires { nots ≤ MAX_NESTING }
    ensures { result ≡ lexes.nots_behind nots terminal }
{
    if is_terminal(terminal, Terminal::Not) {
        nots + 1
    } else {
        0
    }
}

/// Whether more than `MAX_NESTING` brackets are open somewhere, or more than so many signs `!` stand one after another.
pub fn nests_too_deep(lexemes: &LexemeList) -> bool
    ensures { result ≡ lexes.too_deep 0 0 lexemes.now }
{
    let mut depth = 0;
    let mut nots = 0;
    for at in 0..lexemes.len() {
        let terminal = lexemes.terminal(at);
        depth = depth_behind(depth, terminal);
        nots = nots_behind(nots, terminal);
        if depth > MAX_NESTING {
            return true;
        }
        if nots > MAX_NESTING {
            return true;
        }
    }
    false
}

fn tokens_of(alloc: Global, lexemes: &LexemeList) -> Result<Vec<Token>, Memory>
    ensures { IfOk result (λ ts. ts.items ≡ map token_of lexemes.now) }
{
    let mut found = Vec::new(alloc);
    for at in 0..lexemes.len() {
        found.push(lexemes.token(at))?;
    }
    Ok(found)
}

// The tokens of a text whose places are below 4 GiB.
fn short_tokens(alloc: Global, bytes: &[u8]) -> Result<Vec<Token>, ReadEnd>
    requires { length bytes.now < 4294967296 }
    ensures { AreTokensOf bytes.now result }
{
    let arena = Bump::new(alloc);
    match lexemes(alloc, &arena, bytes) {
        Ok((found, whole)) => {
            if nests_too_deep(&found) {
                return Err(ReadEnd::Fault(TextFault::P4));
            }
            if !whole {
                return Err(ReadEnd::Fault(TextFault::P2));
            }
            match tokens_of(alloc, &found) {
                Ok(tokens) => Ok(tokens),
                Err(_) => Err(ReadEnd::Memory),
            }
        }
        Err(end) => Err(end),
    }
}

/// The tokens of a text. P1 comes exactly where the bytes aren't UTF-8. P4 comes exactly where they are, and in the
/// tokens before the first place where no token can be read the nesting limit is passed. P2 comes exactly where neither
/// does and there is such a place. A text of 4 GiB or more is refused for want of memory.
pub fn tokens(alloc: Global, bytes: &[u8]) -> Result<Vec<Token>, ReadEnd>
    ensures { AreTokensOf bytes.now result }
{
    if bytes.len() > u32::MAX as usize {
        return Err(ReadEnd::Memory);
    }
    short_tokens(alloc, bytes)
}
