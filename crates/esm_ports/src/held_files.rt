// Files in memory.
ghost use Rattle.std.specs.Prelude.{◌≡◌, ◌≢◌, ◌≤◌, ℕ, List, Err, IfOk, length};
ghost use Rattle.esm_ports.specs.Files.{contents_of, held_at};
ghost use Rattle.esm_ports.specs.Source.{IsToldBy};

use crate::FetchEnd;
use esm_base::{MAX_BODY_BYTES, Memory, Text, TextMap};
use std::alloc::Global;

/// Files by their URLs.
pub type HeldFiles = TextMap<Vec<u8>>;

// These files by their URLs. Of two with one URL the first is kept.
pub(crate) fn by_url(alloc: Global, files: Vec<(Text, Vec<u8>)>) -> Result<HeldFiles, Memory>
    ensures { IfOk result (λ held. (url : List ℕ) →
        held_at held url ≡ contents_of files.items url) }
{
    let mut held = TextMap::empty(alloc);
    for file in files {
        let (url, body) = file;
        let key = url.into_string()?;
        let _ = held.insert_new(key, body)?;
    }
    Ok(held)
}

// The first bytes, or all, of the file with this URL.
pub(crate) fn read(alloc: Global, files: &HeldFiles, url: &str) -> Result<Vec<u8>, FetchEnd>
    ensures told { IsToldBy (held_at files.now) url.now result }
    ensures short { IfOk result (λ body. length body.items ≤ MAX_BODY_BYTES) }
    ensures sure { result ≢ Err FetchEnd.Failed }
{
    match files.get(url) {
        Some(bytes) => {
            let body = Vec::from_slice(alloc, &bytes[..MAX_BODY_BYTES.min(bytes.len())])?;
            Ok(body)
        }
        None => Err(FetchEnd::Absent),
    }
}
