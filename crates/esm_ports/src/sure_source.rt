// A source in memory that never fails.
ghost use Rattle.std.specs.Prelude.{◌≡◌, ℕ, List, Some, [], IfOk};
ghost use Rattle.esm_ports.specs.Files.{contents_of, held_at};
ghost use Rattle.esm_ports.specs.Asks.{failed_count};
ghost use Rattle.std.proofs.Common.{sym};

use crate::held_files::{HeldFiles, by_url, read};
use crate::{Asks, FetchEnd, Source};
use esm_base::{Memory, Text};
use std::alloc::Global;

/// A source that holds these files and never fails.
#[derive(Drop)]
pub struct SureSource {
    /// What stands at each URL.
    pub files: HeldFiles,
    /// What was asked so far.
    pub asked: Asks,
    pub ghost sure: { failed_count asked ≡ 0 },
}

impl SureSource {
    /// A source of these files that wasn't asked for anything. Of two files with one URL the first counts. It answers
    /// `Memory` where memory runs out.
    pub fn new(alloc: Global, files: Vec<(Text, Vec<u8>)>) -> Result<SureSource, Memory>
        ensures files { IfOk result (λ source. (url : List ℕ) →
            held_at source.files url ≡ contents_of files.items url) }
        ensures asked { IfOk result (λ source. source.asked ≡ []) }
    {
        let files = by_url(alloc, files)?;
        Ok(SureSource {
            files,
            asked: Asks::new(alloc),
        })
    }
}

impl Source for SureSource {
    ghost asked = { λ s. s.asked };

    ghost holds = { λ s. Some (held_at s.files) };

    ghost faults = { λ s. 0 };

    ghost counted = { λ s. sym s.sure };

    fn fetch(&mut self, alloc: Global, url: &str) -> Result<Vec<u8>, FetchEnd> {
        let copy = Text::copy(alloc, url)?;
        let answer = read(alloc, &self.files, url);
        self.asked.note(copy, answer)
    }

    fn faults(&self) -> u64 {
        0
    }
}
