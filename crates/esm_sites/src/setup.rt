// Files, sources, a sink and words.
ghost use Rattle.std.specs.Prelude.{◌≡◌, ◌<◌, [], All, IfOk, vec_len};

use crate::texts::files_of;
use esm_base::{Memory, Text};
use esm_ports::{MemSink, MemSource};
use std::alloc::Global;

/// The URL of the entry.
pub const ENTRY: &str = "https://a.test/main.js";

/// The words that run it.
pub const COMMAND: &str = "run https://a.test/ main.js";

/// A file at a URL, or none.
pub fn files(
    alloc: Global,
    url: &str,
    body: Option<&[u8]>,
) -> Result<Vec<(Text, Vec<u8>)>, Memory> {
    let mut files = Vec::new(alloc);
    if let Some(body) = body {
        files.push((Text::copy(alloc, url)?, Vec::from_slice(alloc, body)?))?;
    }
    Ok(files)
}

// A source that has these files, and fails at the fetch with this number, counted from 1; at none for 0.
fn source(alloc: Global, files: Vec<(Text, Vec<u8>)>, fail_at: u64) -> Result<MemSource, Memory>
    ensures { IfOk result (λ s. s.asked ≡ []) }
{
    MemSource::new(alloc, files, vec![in alloc; fail_at]?)
}

// The file of an import map; none where it is empty.
fn map_file(alloc: Global, map: &str) -> Result<Vec<(Text, Vec<u8>)>, Memory> {
    let body = (!map.is_empty()).then_some(map.as_bytes());
    files(alloc, "https://a.test/map.json", body)
}

/// A desk that has this import map, or nothing where it is empty, and fails at this fetch.
pub fn desk(alloc: Global, map: &str, fail_at: u64) -> Result<MemSource, Memory>
    ensures { IfOk result (λ s. s.asked ≡ []) }
{
    match map_file(alloc, map) {
        Ok(files) => source(alloc, files, fail_at),
        Err(Memory) => Err(Memory),
    }
}

/// One source that has these files and never fails.
pub fn one_source(alloc: Global, files: Vec<(Text, Vec<u8>)>) -> Result<Vec<MemSource>, Memory>
    ensures some { IfOk result (λ v. 0 < vec_len v) }
    ensures fresh { IfOk result (λ v. All (λ s. s.asked ≡ []) v.items) }
{
    let mut sources = Vec::new(alloc);
    sources.push(source(alloc, files, 0)?)?;
    Ok(sources)
}

/// So many sources, each over the files of a site; each fails at this fetch.
pub fn sources_of(
    alloc: Global,
    site: &str,
    count: usize,
    fail_at: u64,
) -> Result<Vec<MemSource>, Memory>
    requires { 0 < count }
    ensures some { IfOk result (λ v. 0 < vec_len v) }
    ensures fresh { IfOk result (λ v. All (λ s. s.asked ≡ []) v.items) }
{
    let mut sources = Vec::new(alloc);
    for _ in 0..count {
        sources.push(source(alloc, files_of(alloc, site)?, fail_at)?)?;
    }
    Ok(sources)
}

/// This number, or one for 0.
pub fn at_least_one(count: usize) -> usize
    ensures { 0 < result }
{
    if count == 0 { 1 } else { count }
}

/// A sink that takes all at once and never fails.
pub fn sure_sink(alloc: Global) -> MemSink
    ensures { result.faults ≡ 0 }
{
    MemSink::new(alloc, usize::MAX, Vec::new(alloc))
}

// How many bytes a sink takes at a time; all for 0.
fn most(piece: usize) -> usize
    ensures { 0 < result }
{
    if piece == 0 { usize::MAX } else { piece }
}

/// A sink that takes so many bytes at a time, all for 0, and fails at the write with this number, counted from 1; at none for 0.
pub fn failing_sink(alloc: Global, piece: usize, fail_at: u64) -> Result<MemSink, Memory>
    ensures { IfOk result (λ sink. sink.faults ≡ 0) }
{
    Ok(MemSink::new(alloc, most(piece), vec![in alloc; fail_at]?))
}

/// The words of a line.
pub fn words(alloc: Global, text: &str) -> Result<Vec<String>, Memory> {
    let mut words = Vec::new(alloc);
    for word in text.split_whitespace() {
        words.push(String::from_str(alloc, word)?)?;
    }
    Ok(words)
}

/// Adds the file of this name below `https://a.test/`.
pub fn add_named(
    alloc: Global,
    files: &mut Vec<(Text, Vec<u8>)>,
    name: &str,
    body: &str,
) -> Result<(), Memory> {
    let url = format!(in alloc; "https://a.test/{name}")?;
    let body = Vec::from_slice(alloc, body.as_bytes())?;
    files.push((Text::from_string(url), body))?;
    Ok(())
}

/// The files of a site below `https://a.test/`: the name of each, and its text.
pub fn site(alloc: Global, named: &[(&str, &str)]) -> Result<Vec<(Text, Vec<u8>)>, Memory> {
    let mut files = Vec::new(alloc);
    for (name, text) in named {
        add_named(alloc, &mut files, name, text)?;
    }
    Ok(files)
}
