// A source in memory that fails by a plan.
ghost use Rattle.std.specs.Prelude.{◌≡◌, ◌≤◌, ◌+◌, ◌↔◌, ℕ, List, Some, [], IfOk, IsTrue, Contains, length, refl};
ghost use Rattle.esm_base.specs.declared.limits.TheConstants.{MAX_BODY_BYTES};
ghost use Rattle.esm_ports.specs.Asks.{failed_count};
ghost use Rattle.esm_ports.specs.Files.{contents_of, held_at};
ghost use Rattle.esm_ports.specs.Source.{IsToldBy};
ghost use Rattle.esm_ports.specs.MemSources.{FetchesByPlan};

use crate::held_files::{HeldFiles, by_url, read};
use crate::{Asked, Asks, FetchEnd, Source};
use esm_base::{Memory, Text};
use std::alloc::Global;
use std::marker::Model;

/// A source that holds these files and fails at the calls that it is told. Contracts see the files, the plan, and
/// what was asked; the number of a call is one more than the number of fetches that were answered before it.
#[derive(Drop)]
pub struct MemSource {
    files: HeldFiles,
    fail_at: Vec<u64>,
    asked: Asks,
}

impl Model for MemSource {
    ghost use Rattle.esm_ports.specs.MemSources.{SourcePlan};

    ghost Value = { SourcePlan };

    ghost view = { λ s. record { files = s.files; fail_at = s.fail_at.items; asked = s.asked } };
}

impl MemSource {
    /// A source of these files that wasn't asked for anything and fails at the calls whose number, counted from 1,
    /// stands in `fail_at`. Of two files with one URL the first counts. It answers `Memory` where memory runs out.
    pub fn new(
        alloc: Global,
        files: Vec<(Text, Vec<u8>)>,
        fail_at: Vec<u64>,
    ) -> Result<MemSource, Memory>
        ensures files { IfOk result (λ source. (url : List ℕ) →
            held_at source.files url ≡ contents_of files.items url) }
        ensures plan { IfOk result (λ source. source.fail_at ≡ fail_at.items) }
        ensures asked { IfOk result (λ source. source.asked ≡ []) }
    {
        let files = by_url(alloc, files)?;
        Ok(MemSource {
            files,
            fail_at,
            asked: Asks::new(alloc),
        })
    }

    /// What was asked so far.
    pub fn asked(&self) -> &[Asked]
        ensures { result.now ≡ self.now.asked }
    {
        self.asked.as_slice()
    }

    // Whether the next call fails.
    fn is_failing(&self) -> bool
        ensures { IsTrue result ↔ Contains self.now.fail_at (length self.now.asked + 1) }
    {
        let number = self.asked.len() as u64 + 1;
        self.fail_at.contains(&number)
    }

    // What the next call answers where there is memory to record it.
    fn answer(&self, alloc: Global, url: &str) -> Result<Vec<u8>, FetchEnd>
        ensures told { IsToldBy (held_at self.now.files) url.now result }
        ensures short { IfOk result (λ body. length body.items ≤ MAX_BODY_BYTES) }
        ensures planned { FetchesByPlan self.now result }
    {
        if self.is_failing() {
            Err(FetchEnd::Failed)
        } else {
            read(alloc, &self.files, url)
        }
    }
}

impl Source for MemSource {
    ghost use Rattle.std.specs.Prelude.{◌<◌, IfSome, IsErrOf};
    ghost use Rattle.esm_ports.specs.Source.{asked_after};

    ghost asked = { λ s. s.asked };

    ghost holds = { λ s. Some (held_at s.files) };

    ghost faults = { λ s. failed_count s.asked };

    ghost counted = { λ s. refl };

    /// What every source ensures, and that it fails just at the calls that it was told.
    fn fetch(&mut self, alloc: Global, url: &str) -> Result<Vec<u8>, FetchEnd>
        ensures asked { self.new.asked ≡ asked_after self.old.asked url.now result }
        ensures told { IsToldBy (held_at self.old.files) url.now result }
        ensures short { IfOk result (λ body. length body.items ≤ MAX_BODY_BYTES) }
        ensures holds { self.new.files ≡ self.old.files }
        ensures failed { IsErrOf result FetchEnd.Failed
            → failed_count self.old.asked < failed_count self.new.asked }
        ensures plan { self.new.fail_at ≡ self.old.fail_at }
        ensures planned { FetchesByPlan self.old result }
    {
        let copy = Text::copy(alloc, url)?;
        let answer = self.answer(alloc, url);
        self.asked.note(copy, answer)
    }

    fn faults(&self) -> u64 {
        self.asked.failed()
    }
}
