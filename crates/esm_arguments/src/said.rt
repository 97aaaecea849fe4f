// What words say behind the first: two positions, options with their values, and flags.
ghost use Rattle.std.specs.Prelude.{◌≡◌, IfOk, map, option_map, string_bytes};
ghost use Rattle.std.specs.Option.{option_copied};
ghost use Rattle.esm_arguments.specs.Inner.Code.{said_of, valued_of};
ghost use Rattle.esm_arguments.specs.Said as spec;

use esm_base::{Memory, Text};
use std::alloc::Global;

/// An option that has a value.
#[derive(Clone, Copy, Debug, PartialEq, Eq)]
pub(crate) enum Valued {
    /// `--map`
    Map,
    /// `--workers`
    Workers,
}

/// What words say, read from the first on.
#[derive(Drop)]
pub(crate) struct Said {
    pub(crate) first: Option<Text>,
    pub(crate) second: Option<Text>,
    /// The value of `--map`.
    pub(crate) map: Option<Text>,
    /// The value of `--workers`.
    pub(crate) workers: Option<Text>,
    pub(crate) trace: bool,
    pub(crate) recorded: bool,
    /// The option whose value is the next word.
    pub(crate) waits: Option<Valued>,
    /// Whether `--` was there, behind which each word is a position.
    pub(crate) ended: bool,
}

fn nothing() -> Said
    ensures { said_of result ≡ spec.nothing }
{
    Said {
        first: None,
        second: None,
        map: None,
        workers: None,
        trace: false,
        recorded: false,
        waits: None,
        ended: false,
    }
}

fn is_dashed(word: &str) -> bool
    ensures { result ≡ spec.is_dashed word.now }
{
    word.as_bytes().starts_with(b"-")
}

// Whether a word may stand as a position.
fn is_position(word: &str) -> bool
    ensures { result ≡ spec.is_position word.now }
{
    word == "-" || !is_dashed(word)
}

// What stands behind this front in the word, where it begins so.
fn behind<'a>(front: &str, word: &'a str) -> Option<&'a str>
    ensures { option_copied result ≡ spec.behind front.now word.now }
{
    word.strip_prefix(front)
}

fn with_position(alloc: Global, word: &str, said: Said) -> Result<Option<Said>, Memory>
    ensures { IfOk result (λ found. option_map said_of found
        ≡ spec.with_position word.now (said_of said)) }
{
    let mut said = said;
    if said.first.is_some() {
        if said.second.is_some() {
            return Ok(None);
        }
        said.second = Some(Text::copy(alloc, word)?);
        return Ok(Some(said));
    }
    said.first = Some(Text::copy(alloc, word)?);
    Ok(Some(said))
}

fn with_map(alloc: Global, value: &str, said: Said) -> Result<Option<Said>, Memory>
    ensures { IfOk result (λ found. option_map said_of found
        ≡ spec.with_map value.now (said_of said)) }
{
    let mut said = said;
    if said.map.is_some() {
        return Ok(None);
    }
    said.map = Some(Text::copy(alloc, value)?);
    said.waits = None;
    Ok(Some(said))
}

fn with_workers(alloc: Global, value: &str, said: Said) -> Result<Option<Said>, Memory>
    ensures { IfOk result (λ found. option_map said_of found
        ≡ spec.with_workers value.now (said_of said)) }
{
    let mut said = said;
    if said.workers.is_some() {
        return Ok(None);
    }
    said.workers = Some(Text::copy(alloc, value)?);
    said.waits = None;
    Ok(Some(said))
}

fn with_trace(said: Said) -> Option<Said>
    ensures { option_map said_of result ≡ spec.with_trace (said_of said) }
{
    let mut said = said;
    if said.trace {
        return None;
    }
    said.trace = true;
    Some(said)
}

fn with_record(said: Said) -> Option<Said>
    ensures { option_map said_of result ≡ spec.with_record (said_of said) }
{
    let mut said = said;
    if said.recorded {
        return None;
    }
    said.recorded = true;
    Some(said)
}

// The value of an option, as the next word.
fn with_value(alloc: Global, option: Valued, word: &str, said: Said) -> Result<Option<Said>, Memory>
    ensures { IfOk result (λ found. option_map said_of found
        ≡ spec.with_value (valued_of option) word.now (said_of said)) }
{
    if is_dashed(word) {
        return Ok(None);
    }
    match option {
        Valued::Map => with_map(alloc, word, said),
        Valued::Workers => with_workers(alloc, word, said),
    }
}

// The value of `--map` or `--workers`, behind `=` in the same word.
fn with_assigned(
    alloc: Global,
    url: Option<&str>,
    number: Option<&str>,
    said: Said,
) -> Result<Option<Said>, Memory>
    ensures { IfOk result (λ found. option_map said_of found ≡ spec.with_assigned
        (option_copied url.entry) (option_copied number.entry) (said_of said)) }
{
    match url {
        Some("") => Ok(None),
        Some(url) => with_map(alloc, url, said),
        None => match number {
            Some("") => Ok(None),
            Some(number) => with_workers(alloc, number, said),
            None => Ok(None),
        },
    }
}

// An option or a flag, or `--`.
fn with_dashed(alloc: Global, word: &str, said: Said) -> Result<Option<Said>, Memory>
    ensures { IfOk result (λ found. option_map said_of found
        ≡ spec.with_dashed word.now (said_of said)) }
{
    let mut said = said;
    if word == "--trace" {
        return Ok(with_trace(said));
    }
    if word == "--record" {
        return Ok(with_record(said));
    }
    if word == "--map" {
        said.waits = Some(Valued::Map);
        return Ok(Some(said));
    }
    if word == "--workers" {
        said.waits = Some(Valued::Workers);
        return Ok(Some(said));
    }
    if word == "--" {
        said.ended = true;
        return Ok(Some(said));
    }
    with_assigned(
        alloc,
        behind("--map=", word),
        behind("--workers=", word),
        said,
    )
}

// What is said with one word more; none where that says nothing.
fn with_word(alloc: Global, word: &str, said: Said) -> Result<Option<Said>, Memory>
    ensures { IfOk result (λ found. option_map said_of found
        ≡ spec.with_word word.now (said_of said)) }
{
    if word == "" {
        return Ok(None);
    }
    if let Some(option) = said.waits {
        return with_value(alloc, option, word, said);
    }
    if said.ended || is_position(word) {
        return with_position(alloc, word, said);
    }
    with_dashed(alloc, word, said)
}

/// What these words say behind the first; none where they say nothing.
pub(crate) fn said_by(alloc: Global, words: &[String]) -> Result<Option<Said>, Memory>
    ensures { IfOk result (λ found. option_map said_of found
        ≡ spec.said_by (map string_bytes words.now)) }
{
    let mut said = nothing();
    for word in words {
        let found = with_word(alloc, word.as_str(), said)?;
        match found {
            Some(more) => said = more,
            None => return Ok(None),
        }
    }
    if said.waits.is_some() {
        return Ok(None);
    }
    Ok(Some(said))
}
