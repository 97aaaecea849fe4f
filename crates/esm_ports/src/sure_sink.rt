// A sink in memory that never fails.
ghost use Rattle.std.specs.Prelude.{◌≡◌, Some, []};
ghost use Rattle.esm_ports.specs.MemSinks.{TakesWhole};

use crate::{Sink, SinkEnd};
use std::alloc::Global;
use std::marker::Model;

/// A sink that takes whole pieces and never fails. Contracts see it as what was written.
#[derive(Drop)]
pub struct SureSink {
    written: Vec<u8>,
}

impl Model for SureSink {
    ghost use Rattle.std.specs.Prelude.{List, ℕ};

    ghost Value = { List ℕ };

    ghost view = { λ s. s.written.items };
}

impl SureSink {
    /// A sink to which nothing was written. It doesn't allocate.
    pub fn new(alloc: Global) -> SureSink
        ensures { result ≡ [] }
    {
        SureSink {
            written: Vec::new(alloc),
        }
    }

    /// All that was written.
    pub fn written(&self) -> &[u8]
        ensures { result.now ≡ self.now }
    {
        self.written.as_slice()
    }
}

impl Sink for SureSink {
    ghost written = { λ s. Some s };

    ghost faults = { λ s. 0 };

    ghost write_gives = { TakesWhole };

    fn write(&mut self, piece: &[u8]) -> Result<usize, SinkEnd> {
        self.written.extend_from_slice(piece)?;
        Ok(piece.len())
    }

    fn faults(&self) -> u64 {
        0
    }
}
