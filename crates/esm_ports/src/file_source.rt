// Module texts in files.
ghost use Rattle.std.specs.Prelude.{◌≡◌, ◌≤◌, [], All, None, IfOk, length, refl, vec_len};
ghost use Rattle.esm_base.specs.declared.limits.TheConstants.{MAX_BODY_BYTES, MAX_SOURCES};
ghost use Rattle.esm_ports.specs.Asks.{failed_count};

use crate::{Asks, FetchEnd, Source};
use esm_base::{MAX_BODY_BYTES, MAX_SOURCES, Memory, Text, parse_absolute};
use percent_encoding::{DecodeError, percent_decode};
use std::alloc::Global;
use std::io::{ErrorKind, Read};
use std::marker::Model;
use std::rt::Files;
use std::{fs, io};
use url::Url;

/// Files below a folder, by the host and the path of a URL. What they hold is not told; contracts see what was asked.
///
/// Query and fragment are cut. A URL of `http` or `https` has the path: the root, the host (with `:port` where the URL
/// has one), the segments of its path, each percent-decoded; one of `file` without a host has the root and the
/// segments. Any other URL is absent, and so is one whose host is `.` or `..`, one with a decoded segment that is empty,
/// is `..`, holds `/` or a zero byte, or isn't UTF-8, and one whose file isn't found. Any other fault of the file is a
/// failure.
#[derive(Drop)]
pub struct FileSource<R> {
    rt: R,
    root: Text,
    asked: Asks,
}

impl<R> Model for FileSource<R> {
    ghost use Rattle.std.specs.Prelude.{List};
    ghost use Rattle.esm_ports.specs.declared.asked.Asked.{Asked};

    ghost Value = { List Asked };

    ghost view = { λ s. s.asked };
}

impl<R: Files> FileSource<R> {
    /// The files below the folder `root`, of which none was asked for. It doesn't allocate.
    pub fn new(rt: R, alloc: Global, root: Text) -> FileSource<R>
        ensures { result ≡ [] }
    {
        FileSource {
            rt,
            root,
            asked: Asks::new(alloc),
        }
    }
}

impl<R: Files + Clone + Drop> FileSource<R> {
    /// The files below the folder in which the program runs, of which none was asked for.
    pub fn here(rt: &R, alloc: Global) -> Result<FileSource<R>, Memory>
        ensures { IfOk result (λ s. s ≡ []) }
    {
        let root = Text::copy(alloc, ".")?;
        Ok(FileSource::new(rt.clone()?, alloc, root))
    }

    /// As many sources as a run may have, each over the files below the folder in which the program runs.
    pub fn all_here(rt: &R, alloc: Global) -> Result<Vec<FileSource<R>>, Memory>
        ensures all { IfOk result (λ v. vec_len v ≡ MAX_SOURCES) }
        ensures fresh { IfOk result (λ v. All (λ s. s ≡ []) v.items) }
    {
        let mut sources = Vec::new(alloc);
        for _ in 0..MAX_SOURCES {
            let source = FileSource::here(rt, alloc)?;
            sources.push(source)?;
        }
        Ok(sources)
    }
}

// Adds a slash and a segment, and says whether the segment may be part of a path.
fn add_segment(alloc: Global, path: &mut String, segment: &str) -> Result<bool, Memory> {
    let decoded = match percent_decode(segment.as_bytes()).decode_utf8(alloc) {
        Ok(decoded) => decoded,
        Err(DecodeError::OutOfMemory) => return Err(Memory),
        Err(_) => return Ok(false),
    };
    let name = decoded.as_str();
    if name.is_empty() || name == ".." || name.contains('/') || name.contains('\0') {
        return Ok(false);
    }
    path.push('/')?;
    path.push_str(name)?;
    Ok(true)
}

// Adds the host and the port. A file has none.
fn add_host(alloc: Global, path: &mut String, url: &Url) -> Result<bool, Memory> {
    match (url.scheme(), url.host_str()) {
        ("http" | "https", Some(host)) => {
            if host == "." || host == ".." {
                return Ok(false);
            }
            path.push('/')?;
            path.push_str(host)?;
            if let Some(port) = url.port() {
                let text = format!(in alloc; ":{port}")?;
                path.push_str(text.as_str())?;
            }
            Ok(true)
        }
        ("file", None) => Ok(true),
        _ => Ok(false),
    }
}

// The path of the file of a URL, if it has one.
fn path_of(alloc: Global, root: &str, url: &str) -> Result<Option<String>, Memory> {
    let Some(url) = parse_absolute(alloc, url)? else {
        return Ok(None);
    };
    let mut path = String::from_str(alloc, root)?;
    if !add_host(alloc, &mut path, &url)? {
        return Ok(None);
    }
    let Some(segments) = url.path_segments() else {
        return Ok(None);
    };
    for segment in segments {
        if !add_segment(alloc, &mut path, segment)? {
            return Ok(None);
        }
    }
    Ok(Some(path))
}

// What a fault of the file is answered as.
fn end_of(fault: &io::Error) -> FetchEnd {
    match fault.kind() {
        ErrorKind::NotFound => FetchEnd::Absent,
        ErrorKind::OutOfMemory => FetchEnd::Memory,
        _ => FetchEnd::Failed,
    }
}

// The first bytes of a file.
fn read_file<R: Files>(rt: &R, alloc: Global, path: &str) -> Result<Vec<u8>, FetchEnd>
    ensures { IfOk result (λ body. length body.items ≤ MAX_BODY_BYTES) }
{
    let file = match fs::open(rt, path) {
        Ok(file) => file,
        Err(fault) => return Err(end_of(&fault)),
    };
    let mut body = Vec::new(alloc);
    match file.take(MAX_BODY_BYTES as u64).read_to_end(&mut body) {
        Ok(_) => {
            body.truncate(MAX_BODY_BYTES);
            Ok(body)
        }
        Err(fault) => match end_of(&fault) {
            FetchEnd::Memory => Err(FetchEnd::Memory),
            _ => Err(FetchEnd::Failed),
        },
    }
}

// The first bytes of the file of a URL below a folder.
fn read_at<R: Files>(rt: &R, alloc: Global, root: &str, url: &str) -> Result<Vec<u8>, FetchEnd>
    ensures { IfOk result (λ body. length body.items ≤ MAX_BODY_BYTES) }
{
    match path_of(alloc, root, url)? {
        Some(path) => read_file(rt, alloc, path.as_str()),
        None => Err(FetchEnd::Absent),
    }
}

impl<R: Files + Drop> Source for FileSource<R> {
    ghost asked = { λ s. s };

    ghost holds = { λ s. None };

    ghost faults = { λ s. failed_count s };

    ghost counted = { λ s. refl };

    fn fetch(&mut self, alloc: Global, url: &str) -> Result<Vec<u8>, FetchEnd> {
        let copy = Text::copy(alloc, url)?;
        let answer = read_at(&self.rt, alloc, self.root.as_str(), url);
        self.asked.note(copy, answer)
    }

    fn faults(&self) -> u64 {
        self.asked.failed()
    }
}
