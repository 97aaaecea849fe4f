// Sites as texts.
//
// A table has its sites with an empty line between them. A site begins with `== ` and what it shows. Then come its files, each
// with its name behind `-- ` and its text on the lines below; and at last, where it is said how the run
// ends, `>> ` with the status, and on the lines below what is written.
use crate::setup::add_named;
use esm_base::{Memory, Status, Text};
use std::alloc::Global;

/// What a site shows.
pub fn title(site: &str) -> &str {
    let title = site.strip_prefix("== ").unwrap_or(site);
    match title.split_once('\n') {
        Some((title, _files)) => title,
        None => title,
    }
}

// Adds a file: its name, and its text on the lines below.
fn add_file(alloc: Global, files: &mut Vec<(Text, Vec<u8>)>, part: &str) -> Result<(), Memory> {
    match part.split_once('\n') {
        Some((name, text)) => add_named(alloc, files, name, text),
        None => add_named(alloc, files, part, ""),
    }
}

/// The files of a site, which may have no ending.
pub fn files_of(alloc: Global, site: &str) -> Result<Vec<(Text, Vec<u8>)>, Memory> {
    let front = match site.split_once("\n>> ") {
        Some((front, _end)) => front,
        None => site,
    };
    let mut files = Vec::new(alloc);
    for part in front.split("\n-- ").skip(1) {
        add_file(alloc, &mut files, part)?;
    }
    Ok(files)
}

// A status, as a site writes it.
fn word_of(status: Status) -> &'static str {
    match status {
        Status::Fulfilled => "Fulfilled",
        Status::EntryFailed => "EntryFailed",
        Status::Usage => "Usage",
        Status::WriteFault => "WriteFault",
        Status::MapRefused => "MapRefused",
        Status::Limit => "Limit",
        Status::Unsettled => "Unsettled",
        Status::Memory => "Memory",
    }
}

/// How a run is to end: its status, and the lines that it writes, if there are any.
#[derive(Clone, Copy)]
pub struct Wanted<'a> {
    /// The status.
    pub status: &'a str,
    /// What is written, but for the last line feed; none where that is nothing.
    pub lines: Option<&'a str>,
}

/// How the run of a site is to end.
pub fn wanted_of(site: &str) -> Wanted<'_> {
    match site.split_once("\n>> ") {
        Some((_files, end)) => ending(end),
        None => ending(""),
    }
}

/// An ending: the status, and what is written on the lines below.
pub fn ending(text: &str) -> Wanted<'_> {
    match text.split_once('\n') {
        Some((status, lines)) => Wanted {
            status,
            lines: Some(lines),
        },
        None => Wanted {
            status: text,
            lines: None,
        },
    }
}

/// Whether so it ended: with this status, and this written.
pub fn is_wanted(wanted: Wanted<'_>, status: Status, written: &[u8]) -> bool {
    word_of(status) == wanted.status && is_written(wanted.lines, written)
}

// Whether these lines are written, or nothing.
fn is_written(lines: Option<&str>, written: &[u8]) -> bool {
    match lines {
        Some(lines) => written.strip_suffix(b"\n") == Some(lines.as_bytes()),
        None => written.is_empty(),
    }
}
