// Reads the command-line arguments.
ghost use Rattle.std.specs.Prelude.{◌≡◌, ◌<◌, ◌≤◌, IfOk, IfSome, map, min, string_bytes, true};
ghost use Rattle.esm_base.specs.Urls.{is_usable, url_of};
ghost use Rattle.esm_arguments.specs.Inner.Code.{said_of};
ghost use Rattle.esm_arguments.specs.Commands as spec;

use crate::command::{Command, Generation, MAX_START};
use crate::numbers::number_of;
use crate::said::{Said, said_by};
use crate::urls::{map_url, usable_text};
use esm_base::{MAX_SOURCES, MAX_URLS, Memory, Text, is_usable, parse_absolute, parse_against};
use std::alloc::Global;

// How many workers a run has over so many sources, by the value of `--workers` where it is there.
fn workers_by(many: usize, word: &Option<Text>) -> Option<usize>
    ensures { result ≡ spec.workers_by many word.now }
{
    match word {
        None => Some(many.min(4)),
        Some(word) => number_of(word.as_str(), many.min(MAX_SOURCES)),
    }
}

// How many workers a run over generated input has.
fn threads_by(word: &Option<Text>) -> Option<usize>
    ensures { result ≡ spec.threads_by word.now }
{
    match word {
        None => Some(1),
        Some(word) => number_of(word.as_str(), MAX_SOURCES),
    }
}

// The command of BASE, ENTRY and what else is said.
fn read_command(
    alloc: Global,
    many: usize,
    base: &str,
    entry: &str,
    said: &Said,
) -> Result<Option<Command>, Memory>
    ensures { IfOk result (λ found. found
        ≡ spec.command_on many (url_of None base.now) entry.now (said_of said.now)) }
{
    let Some(base) = parse_absolute(alloc, base)? else {
        return Ok(None);
    };
    if !is_usable(alloc, base.as_str())? {
        return Ok(None);
    }
    let Some(entry) = usable_text(alloc, parse_against(&base, entry)?)? else {
        return Ok(None);
    };
    let Some(map) = map_url(alloc, &base, &said.map)? else {
        return Ok(None);
    };
    match workers_by(many, &said.workers) {
        Some(workers) => Ok(Some(Command {
            base,
            entry,
            map,
            workers,
            trace: said.trace,
            recorded: said.recorded,
        })),
        None => Ok(None),
    }
}

// The command of what is said.
fn read_said(alloc: Global, many: usize, said: &Said) -> Result<Option<Command>, Memory>
    ensures { IfOk result (λ found. found
        ≡ spec.command_by many said.now.first said.now.second (said_of said.now)) }
{
    match &said.first {
        None => Ok(None),
        Some(base) => match &said.second {
            None => Ok(None),
            Some(entry) => read_command(alloc, many, base.as_str(), entry.as_str(), said),
        },
    }
}

// The command `run` that the words are over so many sources, if they are one.
fn command_in(alloc: Global, words: &[String], many: usize) -> Result<Option<Command>, Memory>
    ensures { IfOk result (λ found. found
        ≡ spec.command_of many (map string_bytes words.now)) }
{
    match words {
        [] => Ok(None),
        [first, rest @ ..] => {
            if first.as_str() != "run" {
                return Ok(None);
            }
            match said_by(alloc, rest)? {
                Some(said) => read_said(alloc, many, &said),
                None => Ok(None),
            }
        }
    }
}

/// The command `run` that the words are over so many sources, if they are one. It answers `Memory` where memory runs
/// out.
pub fn read_words(alloc: Global, words: &[String], many: usize) -> Result<Option<Command>, Memory>
    ensures told { IfOk result (λ found. found
        ≡ spec.command_of many (map string_bytes words.now)) }
    ensures usable { IfOk result (λ found. IfSome found (λ c. is_usable c.entry ≡ true)) }
    ensures some { IfOk result (λ found. IfSome found (λ c. 0 < many → 0 < c.workers)) }
    ensures few { IfOk result (λ found. IfSome found
        (λ c. (c.workers ≤ MAX_SOURCES) × (c.workers ≤ many))) }
{
    command_in(alloc, words, many)
}

// The generated input of START and N.
fn read_numbers(start: &str, count: &str, workers: &Option<Text>) -> Option<Generation>
    ensures { result ≡ spec.generation_by (Some start.now) (Some count.now) workers.now }
{
    let start = number_of(start, MAX_START)?;
    let count = number_of(count, MAX_URLS)?;
    let workers = threads_by(workers)?;
    Some(Generation {
        start: start as u32,
        count: count as u32,
        workers,
    })
}

// The generated input of what is said.
fn read_generated(said: &Said) -> Option<Generation>
    ensures { result ≡ spec.generation_said (Some (said_of said.now)) }
{
    if said.map.is_some() || said.trace || said.recorded {
        return None;
    }
    match &said.first {
        None => None,
        Some(start) => match &said.second {
            None => None,
            Some(count) => read_numbers(start.as_str(), count.as_str(), &said.workers),
        },
    }
}

// The generated input that the words of `gen` ask for, if they do.
fn generation_in(alloc: Global, words: &[String]) -> Result<Option<Generation>, Memory>
    ensures { IfOk result (λ found. found
        ≡ spec.generation_of (map string_bytes words.now)) }
{
    match words {
        [] => Ok(None),
        [first, rest @ ..] => {
            if first.as_str() != "gen" {
                return Ok(None);
            }
            match said_by(alloc, rest)? {
                Some(said) => Ok(read_generated(&said)),
                None => Ok(None),
            }
        }
    }
}

/// The generated input that the words of `gen` ask for, if they do. It answers `Memory` where memory runs out.
pub fn read_generation(alloc: Global, words: &[String]) -> Result<Option<Generation>, Memory>
    ensures told { IfOk result (λ found. found
        ≡ spec.generation_of (map string_bytes words.now)) }
    ensures start { IfOk result (λ found. IfSome found
        (λ g. (0 < g.start) × (g.start ≤ MAX_START))) }
    ensures count { IfOk result (λ found. IfSome found
        (λ g. (0 < g.count) × (g.count ≤ MAX_URLS))) }
    ensures workers { IfOk result (λ found. IfSome found
        (λ g. (0 < g.workers) × (g.workers ≤ MAX_SOURCES))) }
{
    generation_in(alloc, words)
}
