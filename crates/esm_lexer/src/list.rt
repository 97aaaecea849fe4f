// Many tokens in little memory.
ghost use Rattle.std.specs.Prelude.{◌≡◌, ◌≢◌, ◌++◌, ◌∷◌, [], ◌+◌, ◌<◌, ◌≤◌, true, length, slice_range, slice_index_or, IfSome, OnOk, OnErr};
ghost use Rattle.std.specs.Str.{IsUtf8};
ghost use Rattle.esm_grammar.specs.Lexeme.{no_lexeme, terminal_at, text_at, newline_at};
ghost use Rattle.esm_lexer.specs.List.{IsRight, Tells, lexeme_of, text_by, token_by, short_token, long_token};

use esm_base::Memory;
use esm_tree::{Lexeme, Terminal, Token, TokenKind};
use std::alloc::Global;
use std::marker::Model;

/// Where a token's text stands.
#[derive(Clone, Copy, Debug, PartialEq, Eq)]
pub enum Form {
    /// A word, which is its own text.
    Word,
    /// A string literal whose text stands between its quotes.
    Literal,
    /// A punctuator.
    Sign,
    /// Any other token, of which the lexeme itself is kept.
    Kept,
}

/// A token in eight bytes: its place, which for a lexeme that is kept is that among those.
#[derive(Clone, Copy, Debug)]
pub struct Mark {
    from: u32,
    len: u8,
    form: Form,
    terminal: Terminal,
    newline_before: bool,
}

/// The tokens of a text as the grammar sees them, one after another. Contracts see the list of them.
///
/// A token takes eight bytes where its text is a part of the bytes; a string literal with escapes, and a token of more
/// than 255 bytes, takes 32 more.
#[derive(Drop)]
pub struct LexemeList<'a> {
    bytes: &'a [u8],
    marks: Vec<Mark>,
    kept: Vec<Lexeme<'a>>,
}

impl<'a> Model for LexemeList<'a> {
    ghost use Rattle.std.specs.Prelude.{List};
    ghost use Rattle.esm_tree.specs.Lexeme.{Lexeme};
    ghost use Rattle.esm_lexer.specs.List.{lexemes_of, AreRight};

    ghost Value = { List Lexeme };

    ghost view = { λ l. lexemes_of l.bytes.now l.kept.items l.marks.items };

    ghost invariant = { λ l. AreRight l.bytes.now l.kept.items l.marks.items };
}

// The text between two places.
fn text_in(bytes: &[u8], from: usize, to: usize) -> &str
    requires order { from ≤ to }
    requires within { to ≤ length bytes.now }
    requires utf8 { IsUtf8 (slice_range bytes.now from to) }
    ensures { result.now ≡ slice_range bytes.now from to }
{
    match str::from_utf8(&bytes[from..to]) {
        Ok(text) => text,
        Err(_) => "",
    }
}

// Whether a text stands between two places.
fn stands_at(bytes: &[u8], from: usize, to: usize, text: &str) -> bool
    requires order { from ≤ to }
    requires within { to ≤ length bytes.now }
    ensures value { result ≡ true → slice_range bytes.now from to ≡ text.now }
    ensures utf8 { result ≡ true → IsUtf8 (slice_range bytes.now from to) }
{
    &bytes[from..to] == text.as_bytes()
}

// How many bytes a token has, if they are few and in the text.
fn short_len(bytes: &[u8], token: Token) -> Option<u8>
    ensures { IfSome result (λ n. (token.from + n ≡ token.to)
        × ((token.to ≤ length bytes.now) × (token.from < 4294967296))) }
{
    if token.to < token.from || token.to > bytes.len() {
        return None;
    }
    let len = token.to - token.from;
    if len > 255 || token.from > u32::MAX as usize {
        return None;
    }
    Some(len as u8)
}

// How the place of a token tells its text, if it does.
fn form_of(bytes: &[u8], text: &str, kind: TokenKind, from: usize, len: u8) -> Option<Form>
    requires { from + len ≤ length bytes.now }
    ensures { IfSome result (λ f. Tells f bytes.now text.now kind from len) }
{
    let to = from + len as usize;
    match kind {
        TokenKind::Word => {
            if stands_at(bytes, from, to, text) {
                return Some(Form::Word);
            }
            None
        }
        TokenKind::Literal => {
            if len < 2 {
                return None;
            }
            if stands_at(bytes, from + 1, to - 1, text) {
                return Some(Form::Literal);
            }
            None
        }
        TokenKind::Sign => {
            if text.is_empty() {
                return Some(Form::Sign);
            }
            None
        }
    }
}

// The lexeme in eight bytes, if its place tells its text.
fn mark_of(bytes: &[u8], lexeme: &Lexeme) -> Option<Mark>
    ensures right { IfSome result (IsRight bytes.now 0) }
    ensures same { IfSome result (λ m. lexeme_of bytes.now [] m ≡ lexeme.now) }
{
    let token = lexeme.token();
    match short_len(bytes, token) {
        Some(len) => match form_of(bytes, lexeme.text(), token.kind, token.from, len) {
            Some(form) => Some(Mark {
                from: token.from as u32,
                len,
                form,
                terminal: lexeme.terminal(),
                newline_before: token.newline_before,
            }),
            None => None,
        },
        None => None,
    }
}

// What a token spells.
fn spelled<'a>(bytes: &'a [u8], kept: &[Lexeme<'a>], mark: Mark) -> &'a str
    requires { IsRight bytes.now (length kept.now) mark }
    ensures { result.now ≡ text_by mark.form bytes.now kept.now mark.from mark.len }
{
    let from = mark.from as usize;
    let to = from + mark.len as usize;
    match mark.form {
        Form::Word => text_in(bytes, from, to),
        Form::Literal => text_in(bytes, from + 1, to - 1),
        Form::Sign => "",
        Form::Kept => match kept.get(from) {
            Some(lexeme) => lexeme.text(),
            None => "",
        },
    }
}

fn token_with(kind: TokenKind, mark: Mark) -> Token
    ensures { result ≡ short_token kind mark.from mark.len mark.newline_before }
{
    let from = mark.from as usize;
    Token {
        kind,
        from,
        to: from + mark.len as usize,
        newline_before: mark.newline_before,
    }
}

// The token of a lexeme that is kept.
fn kept_token(kept: &[Lexeme], mark: Mark) -> Token
    ensures { result ≡ long_token kept.now mark.from mark.newline_before }
{
    match kept.get(mark.from as usize) {
        Some(lexeme) => {
            let token = lexeme.token();
            Token {
                kind: token.kind,
                from: token.from,
                to: token.to,
                newline_before: mark.newline_before,
            }
        }
        None => Token {
            kind: TokenKind::Sign,
            from: 0,
            to: 0,
            newline_before: mark.newline_before,
        },
    }
}

// A token with its places.
fn placed(kept: &[Lexeme], mark: Mark) -> Token
    ensures { result ≡ token_by mark.form kept.now mark.from mark.len mark.newline_before }
{
    match mark.form {
        Form::Word => token_with(TokenKind::Word, mark),
        Form::Literal => token_with(TokenKind::Literal, mark),
        Form::Sign => token_with(TokenKind::Sign, mark),
        Form::Kept => kept_token(kept, mark),
    }
}

impl<'a> LexemeList<'a> {
    /// The list without tokens, of a text with these bytes. It takes no memory.
    pub fn new(alloc: Global, bytes: &'a [u8]) -> LexemeList<'a>
        ensures { result ≡ [] }
    {
        LexemeList {
            bytes,
            marks: Vec::new(alloc),
            kept: Vec::new(alloc),
        }
    }

    /// One more token. After a refusal the list is as before.
    pub fn push(&mut self, lexeme: Lexeme<'a>) -> Result<(), Memory>
        ensures ok { OnOk result (self.new ≡ self.old ++ lexeme.entry ∷ []) }
        ensures err { OnErr result (self.new ≡ self.old) }
    {
        match mark_of(self.bytes, &lexeme) {
            Some(mark) => {
                self.marks.push(mark)?;
                Ok(())
            }
            None => self.keep(lexeme),
        }
    }

    // One more token, as it is.
    fn keep(&mut self, lexeme: Lexeme<'a>) -> Result<(), Memory>
        ensures ok { OnOk result (self.new ≡ self.old ++ lexeme.entry ∷ []) }
        ensures err { OnErr result (self.new ≡ self.old) }
    {
        let place = self.kept.len();
        if place > u32::MAX as usize {
            return Err(Memory);
        }
        let mark = Mark {
            from: place as u32,
            len: 0,
            form: Form::Kept,
            terminal: lexeme.terminal(),
            newline_before: lexeme.newline_before(),
        };
        self.kept.push(lexeme)?;
        self.marks.push(mark)?;
        Ok(())
    }

    /// How many tokens there are.
    pub fn len(&self) -> usize
        ensures value { result ≡ length self.now }
        ensures small { result ≤ 9223372036854775807 }
    {
        self.marks.len()
    }

    /// What the token at a place is, or `End` behind the last.
    pub fn terminal(&self, at: usize) -> Terminal
        ensures value { result ≡ terminal_at self.now at }
        ensures there { result ≢ Terminal.End → at < length self.now }
    {
        match self.marks.get(at) {
            Some(mark) => mark.terminal,
            None => Terminal::End,
        }
    }

    /// Whether a line terminator stands before the token at a place. None does behind the last token.
    pub fn newline_before(&self, at: usize) -> bool
        ensures { result ≡ newline_at self.now at }
    {
        match self.marks.get(at) {
            Some(mark) => mark.newline_before,
            None => false,
        }
    }

    /// What the token at a place spells. It takes no memory.
    pub fn text(&self, at: usize) -> &'a str
        ensures { result.now ≡ text_at self.now at }
    {
        match self.marks.get(at) {
            Some(mark) => spelled(self.bytes, &self.kept, *mark),
            None => "",
        }
    }

    /// The token at a place, with its places.
    pub fn token(&self, at: usize) -> Token
        requires { at < length self.now }
        ensures { result ≡ (slice_index_or self.now at no_lexeme).token }
    {
        placed(&self.kept, self.marks[at])
    }
}
