// A sink in memory that fails by a plan.
ghost use Rattle.std.specs.Prelude.{◌≡◌, ◌≤◌, Some, []};
ghost use Rattle.esm_ports.specs.MemSinks.{WritesByPlan};

use crate::{Sink, SinkEnd};
use std::alloc::Global;
use std::marker::Model;

/// A sink that takes a few bytes in one call, and fails at the calls that it is told. Contracts see what was written,
/// the plan, and how many calls were made and failed; a call that answers `Memory` isn't counted.
#[derive(Drop)]
pub struct MemSink {
    written: Vec<u8>,
    most: usize,
    fail_at: Vec<u64>,
    calls: u64,
    faults: u64,
}

impl Model for MemSink {
    ghost use Rattle.std.specs.Prelude.{◌≤◌};
    ghost use Rattle.esm_ports.specs.MemSinks.{SinkPlan};

    ghost Value = { SinkPlan };

    ghost view = { λ s. record {
      written = s.written.items;
      most = s.most;
      fail_at = s.fail_at.items;
      calls = s.calls;
      faults = s.faults;
    } };

    ghost invariant = { λ s. (1 ≤ s.most) × (s.faults ≤ s.calls) };
}

impl MemSink {
    /// A sink that takes in one call the first `most` bytes of a piece, or all of a shorter one, and fails at the
    /// calls whose number, counted from 1, stands in `fail_at`. It doesn't allocate.
    pub fn new(alloc: Global, most: usize, fail_at: Vec<u64>) -> MemSink
        requires { 1 ≤ most }
        ensures { result ≡ record {
          written = [];
          most = most;
          fail_at = fail_at.items;
          calls = 0;
          faults = 0;
        } }
    {
        MemSink {
            written: Vec::new(alloc),
            most,
            fail_at,
            calls: 0,
            faults: 0,
        }
    }

    /// All that was written.
    pub fn written(&self) -> &[u8]
        ensures { result.now ≡ self.now.written }
    {
        self.written.as_slice()
    }

    /// How many calls of `write` were answered.
    pub fn calls(&self) -> u64
        ensures { result ≡ self.now.calls }
    {
        self.calls
    }
}

impl Sink for MemSink {
    ghost written = { λ s. Some s.written };

    ghost faults = { λ s. s.faults };

    ghost write_gives = { WritesByPlan };

    fn write(&mut self, piece: &[u8]) -> Result<usize, SinkEnd> {
        let number = self.calls.saturating_add(1);
        if self.fail_at.contains(&number) {
            self.calls = number;
            self.faults += 1;
            return Err(SinkEnd::Failed);
        }
        let count = self.most.min(piece.len());
        self.written.extend_from_slice(&piece[..count])?;
        self.calls = number;
        Ok(count)
    }

    fn faults(&self) -> u64 {
        self.faults
    }
}
