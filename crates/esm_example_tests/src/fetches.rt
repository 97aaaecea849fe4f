// Entries over four files that are held.
use esm_base::{Memory, Status, Text, TextMap, is_usable};
use esm_examples::fetches::{Ran, run_over};
use esm_import_map::ImportMap;
use std::alloc::Global;

// The name of a file below `https://a.test/`, and its text, with `|` for the ends of lines.
const FILES: &str = r#"main.js import './a.js';|import './b.js';|print("main");|
a.js import './b.js';|print("a");|
b.js print("b");|
lost.js import './gone.js';|"#;

// A text with the ends of its lines.
fn lines_of(alloc: Global, row: &str) -> Result<String, Memory> {
    let mut text = String::new(alloc);
    for c in row.chars() {
        text.push(if c == '|' { '\n' } else { c })?;
    }
    Ok(text)
}

// Adds the file of a row.
fn add(alloc: Global, files: &mut TextMap<Vec<u8>>, row: &str) -> Result<(), Memory> {
    let (name, text) = row.split_once(' ').unwrap_or((row, ""));
    let url = format!(in alloc; "https://a.test/{name}")?;
    let text = lines_of(alloc, text)?;
    let _ = files.insert_new(url, text.into_bytes())?;
    Ok(())
}

fn add_all(alloc: Global, files: &mut TextMap<Vec<u8>>) -> Result<(), Memory> {
    for row in FILES.lines() {
        add(alloc, files, row)?;
    }
    Ok(())
}

// An entry, how it ends, how many URLs are fetched, and the log, with `|` for the ends of lines. ECMA-262,
// InnerModuleEvaluation: a module's requests run before it, in order, each once. HTML, "fetch the descendants of a module
// script": what isn't fetched fails the entry.
const ENTRIES: &str = "\
main.js fulfilled 3 b|a|main|
lost.js failed 2
none.js failed 1";

fn status_word(status: Status) -> &'static str {
    match status {
        Status::Fulfilled => "fulfilled",
        Status::EntryFailed => "failed",
        _ => "otherwise",
    }
}

// How a run went, as a row says it behind its entry.
fn shown(alloc: Global, ran: &Ran) -> Result<String, Memory> {
    let status = status_word(ran.status);
    let fetched = ran.fetched.len();
    Ok(format!(in alloc; "{status} {fetched}")?)
}

// Whether a run went as this says.
fn went_so(alloc: Global, ran: &Ran, wanted: &str, log: &str) -> Result<bool, Memory> {
    let log = lines_of(alloc, log)?;
    Ok(shown(alloc, ran)?.as_str() == wanted && ran.log.as_slice() == log.as_bytes())
}

// Whether the run over an entry goes as this says.
fn runs_so(
    alloc: Global,
    files: &TextMap<Vec<u8>>,
    entry: &Text,
    wanted: &str,
    log: &str,
) -> Result<bool, Memory> {
    if !is_usable(alloc, entry.as_str())? {
        return Err(Memory);
    }
    let ran = run_over(alloc, files, ImportMap::empty(alloc), entry)?;
    went_so(alloc, &ran, wanted, log)
}

// Whether the entry of a row runs as the row says.
fn is_row_told(alloc: Global, files: &TextMap<Vec<u8>>, row: &str) -> Result<bool, Memory> {
    let (name, rest) = row.split_once(' ').unwrap_or((row, ""));
    let (status, rest) = rest.split_once(' ').unwrap_or((rest, ""));
    let (fetched, log) = rest.split_once(' ').unwrap_or((rest, ""));
    let entry = Text::from_string(format!(in alloc; "https://a.test/{name}")?);
    let wanted = format!(in alloc; "{status} {fetched}")?;
    runs_so(alloc, files, &entry, wanted.as_str(), log)
}

// The first row of `ENTRIES` that runs otherwise, if there is one.
fn wrong_entry(
    alloc: Global,
    files: &mut TextMap<Vec<u8>>,
) -> Result<Option<&'static str>, Memory> {
    add_all(alloc, files)?;
    for row in ENTRIES.lines() {
        if !is_row_told(alloc, files, row)? {
            return Ok(Some(row));
        }
    }
    Ok(None)
}

#[test]
fn entries_run(rt: HostRuntime) -> Result<(), Memory> {
    let alloc = rt.alloc();
    assert_eq!(rt; wrong_entry(alloc, &mut TextMap::empty(alloc))?, None);
    assert!(rt; FILES.lines().count() == 4 && ENTRIES.lines().count() == 3);
    Ok(())
}
