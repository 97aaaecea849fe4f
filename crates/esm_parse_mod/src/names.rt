// Lists of names in braces or parentheses, with a comma between them and perhaps behind the last.
ghost use Rattle.std.specs.Prelude.{◌≡◌, ◌≢◌, ◌<◌, true, length, codes, IfOk};
ghost use Rattle.esm_tree.specs.declared.node.Wanted.TheVariants as wanted;
ghost use Rattle.esm_grammar.specs.Lexeme.{terminal_at};
ghost use Rattle.esm_grammar.specs.Items as grammar;
ghost use Rattle.esm_grammar.specs.ReadingItems as read;
ghost use Rattle.esm_parse_mod.specs.Inner.Lists.{GoesOn, ReadsSame, ReadsList, ahead};

use crate::bindings::end;
use esm_base::{Memory, Text};
use esm_lexer::LexemeList;
use esm_parse_expr::Stop;
use esm_parse_expr::tokens::{is_name_at, is_word_at, sees, text};
use esm_tree::{ExportSpecifier, ImportBinding, Terminal, Wanted};
use std::alloc::Global;

/// Whether the token at a place is a word or a string. ECMA-262, ModuleExportName.
pub(crate) fn is_export_name(tokens: &LexemeList, at: usize) -> bool
    ensures value { result ≡ grammar.is_export_name (terminal_at tokens.now at) }
    ensures there { result ≡ true → at < length tokens.now }
    ensures small { result ≡ true → at < 9223372036854775807 }
{
    if sees(tokens, at, Terminal::Literal) {
        return true;
    }
    is_word_at(tokens, at)
}

// The place at which the list goes on behind an element: behind a comma, or at the closing sign.
fn after(tokens: &LexemeList, close: Terminal, at: usize) -> Result<usize, Stop>
    requires { close ≢ Terminal.End }
    ensures { GoesOn tokens.now close at result }
{
    if sees(tokens, at, close) {
        return Ok(at);
    }
    if sees(tokens, at, Terminal::Comma) {
        Ok(at + 1)
    } else {
        Err(Stop::Fault)
    }
}

fn parameter(alloc: Global, tokens: &LexemeList, at: usize) -> Result<(Text, usize), Stop>
    ensures { ReadsSame result (read.parameter tokens.now at) }
{
    if !is_name_at(tokens, at) {
        return Err(Stop::Fault);
    }
    let name = text(alloc, tokens, at)?;
    Ok((name, at + 1))
}

fn parameter_step(
    alloc: Global,
    tokens: &LexemeList,
    at: usize,
) -> Result<(Option<Text>, usize), Stop>
    ensures { ReadsSame result (read.listed_step tokens.now
        (read.parameter tokens.now) Terminal.Close at) }
{
    if sees(tokens, at, Terminal::Close) {
        return Ok((None, at + 1));
    }
    let (one, behind) = parameter(alloc, tokens, at)?;
    let next = after(tokens, Terminal::Close, behind)?;
    Ok((Some(one), next))
}

/// The parameters behind `(`, and the place behind `)`.
pub(crate) fn parameters(
    alloc: Global,
    tokens: &LexemeList,
    turns: usize,
    at: usize,
) -> Result<(Vec<Text>, usize), Stop>
    ensures { ReadsList result (read.listed tokens.now
        (read.parameter tokens.now) Terminal.Close turns at) }
{
    let mut found = Vec::new(alloc);
    let mut next = at;
    'turns: for _turn in 0..turns {
        let (one, behind) = parameter_step(alloc, tokens, next)?;
        next = behind;
        match one {
            Some(name) => found.push(name)?,
            None => return Ok((found, next)),
        }
    }
    Err(Stop::Fault)
}

fn imported(alloc: Global, tokens: &LexemeList, at: usize) -> Result<(ImportBinding, usize), Stop>
    ensures { ReadsSame result (read.imported_name tokens.now at) }
{
    if !is_export_name(tokens, at) {
        return Err(Stop::Fault);
    }
    let name = text(alloc, tokens, at)?;
    if sees(tokens, at + 1, Terminal::As) {
        if !is_name_at(tokens, at + 2) {
            return Err(Stop::Fault);
        }
        let local = text(alloc, tokens, at + 2)?;
        let wanted = Wanted::Named(name);
        return Ok((ImportBinding { wanted, local }, at + 3));
    }
    if !is_name_at(tokens, at) {
        return Err(Stop::Fault);
    }
    let local = text(alloc, tokens, at)?;
    let wanted = Wanted::Named(name);
    Ok((ImportBinding { wanted, local }, at + 1))
}

fn imported_step(
    alloc: Global,
    tokens: &LexemeList,
    at: usize,
) -> Result<(Option<ImportBinding>, usize), Stop>
    ensures { ReadsSame result (read.listed_step tokens.now
        (read.imported_name tokens.now) Terminal.BraceClose at) }
{
    if sees(tokens, at, Terminal::BraceClose) {
        return Ok((None, at + 1));
    }
    let (one, behind) = imported(alloc, tokens, at)?;
    let next = after(tokens, Terminal::BraceClose, behind)?;
    Ok((Some(one), next))
}

// The imported names behind `{`, after those that are there, and the place behind `}`.
fn imported_names(
    alloc: Global,
    tokens: &LexemeList,
    turns: usize,
    at: usize,
    before: Vec<ImportBinding>,
) -> Result<(Vec<ImportBinding>, usize), Stop>
    ensures { ReadsList result (ahead before.items
        (read.listed tokens.now (read.imported_name tokens.now) Terminal.BraceClose turns at)) }
{
    let mut found = before;
    let mut next = at;
    'turns: for _turn in 0..turns {
        let (one, behind) = imported_step(alloc, tokens, next)?;
        next = behind;
        match one {
            Some(binding) => found.push(binding)?,
            None => return Ok((found, next)),
        }
    }
    Err(Stop::Fault)
}

fn exported(alloc: Global, tokens: &LexemeList, at: usize) -> Result<(ExportSpecifier, usize), Stop>
    ensures { ReadsSame result (read.exported_name tokens.now at) }
{
    if !is_export_name(tokens, at) {
        return Err(Stop::Fault);
    }
    let first = text(alloc, tokens, at)?;
    let is_name = is_name_at(tokens, at);
    if sees(tokens, at + 1, Terminal::As) {
        if !is_export_name(tokens, at + 2) {
            return Err(Stop::Fault);
        }
        let exported = text(alloc, tokens, at + 2)?;
        return Ok((
            ExportSpecifier {
                first,
                is_name,
                exported,
            },
            at + 3,
        ));
    }
    let exported = text(alloc, tokens, at)?;
    Ok((
        ExportSpecifier {
            first,
            is_name,
            exported,
        },
        at + 1,
    ))
}

fn exported_step(
    alloc: Global,
    tokens: &LexemeList,
    at: usize,
) -> Result<(Option<ExportSpecifier>, usize), Stop>
    ensures { ReadsSame result (read.listed_step tokens.now
        (read.exported_name tokens.now) Terminal.BraceClose at) }
{
    if sees(tokens, at, Terminal::BraceClose) {
        return Ok((None, at + 1));
    }
    let (one, behind) = exported(alloc, tokens, at)?;
    let next = after(tokens, Terminal::BraceClose, behind)?;
    Ok((Some(one), next))
}

/// The exported names behind `{`, and the place behind `}`.
pub(crate) fn exported_names(
    alloc: Global,
    tokens: &LexemeList,
    turns: usize,
    at: usize,
) -> Result<(Vec<ExportSpecifier>, usize), Stop>
    ensures { ReadsList result (read.listed tokens.now
        (read.exported_name tokens.now) Terminal.BraceClose turns at) }
{
    let mut found = Vec::new(alloc);
    let mut next = at;
    'turns: for _turn in 0..turns {
        let (one, behind) = exported_step(alloc, tokens, next)?;
        next = behind;
        match one {
            Some(specifier) => found.push(specifier)?,
            None => return Ok((found, next)),
        }
    }
    Err(Stop::Fault)
}

// The name behind `* as`.
fn space(alloc: Global, tokens: &LexemeList, at: usize) -> Result<(ImportBinding, usize), Stop>
    requires { at < length tokens.now }
    ensures { ReadsSame result (read.space tokens.now at) }
{
    let _ = tokens.len();
    if !sees(tokens, at + 1, Terminal::As) {
        return Err(Stop::Fault);
    }
    if !is_name_at(tokens, at + 2) {
        return Err(Stop::Fault);
    }
    let local = text(alloc, tokens, at + 2)?;
    let wanted = Wanted::Whole;
    Ok((ImportBinding { wanted, local }, at + 3))
}

// `* as NAME`, or names in braces, after those that are there.
fn names(
    alloc: Global,
    tokens: &LexemeList,
    turns: usize,
    at: usize,
    before: Vec<ImportBinding>,
) -> Result<(Vec<ImportBinding>, usize), Stop>
    ensures { ReadsList result (ahead before.items (read.names tokens.now turns at)) }
{
    if sees(tokens, at, Terminal::Star) {
        let mut found = before;
        let (one, behind) = space(alloc, tokens, at)?;
        found.push(one)?;
        return Ok((found, behind));
    }
    if sees(tokens, at, Terminal::BraceOpen) {
        imported_names(alloc, tokens, turns, at + 1, before)
    } else {
        Err(Stop::Fault)
    }
}

fn default_name(alloc: Global) -> Result<Wanted, Memory>
    ensures { IfOk result (λ w. w ≡ wanted.Named (codes "default")) }
{
    let name = Text::copy(alloc, "default")?;
    Ok(Wanted::Named(name))
}

/// What an import declares, and the place behind it. ECMA-262, ImportClause.
pub(crate) fn clause(
    alloc: Global,
    tokens: &LexemeList,
    turns: usize,
    at: usize,
) -> Result<(Vec<ImportBinding>, usize), Stop>
    ensures { ReadsList result (read.clause tokens.now turns at) }
{
    let mut found = Vec::new(alloc);
    if !is_name_at(tokens, at) {
        return names(alloc, tokens, turns, at, found);
    }
    let wanted = default_name(alloc)?;
    let local = text(alloc, tokens, at)?;
    found.push(ImportBinding { wanted, local })?;
    if sees(tokens, at + 1, Terminal::Comma) {
        return names(alloc, tokens, turns, at + 2, found);
    }
    Ok((found, at + 1))
}

/// `from SPECIFIER`, up to the end. ECMA-262, FromClause.
pub(crate) fn from(alloc: Global, tokens: &LexemeList, at: usize) -> Result<(Text, usize), Stop>
    ensures { ReadsSame result (read.from tokens.now at) }
{
    if !sees(tokens, at, Terminal::From) {
        return Err(Stop::Fault);
    }
    if !sees(tokens, at + 1, Terminal::Literal) {
        return Err(Stop::Fault);
    }
    let specifier = text(alloc, tokens, at + 1)?;
    let behind = end(tokens, at + 2, false)?;
    Ok((specifier, behind))
}
