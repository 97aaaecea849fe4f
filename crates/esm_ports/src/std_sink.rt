// Standard output as a sink.
ghost use Rattle.std.specs.Prelude.{◌≡◌, None};

use crate::{Sink, SinkEnd};
use std::io;
use std::io::Write;
use std::marker::Model;

/// Standard output. What was written is not told; contracts see how often a write has failed.
#[derive(Drop)]
pub struct StdSink<R> {
    rt: R,
    faults: u64,
}

impl<R> Model for StdSink<R> {
    ghost use Rattle.std.specs.Prelude.{ℕ};

    ghost Value = { ℕ };

    ghost view = { λ s. s.faults };
}

impl<R: Print> StdSink<R> {
    /// Standard output, to which no write has failed. It doesn't allocate.
    pub fn new(rt: R) -> StdSink<R>
        ensures { result ≡ 0 }
    {
        StdSink { rt, faults: 0 }
    }
}

impl<R: Print + Drop> Sink for StdSink<R> {
    ghost written = { λ s. None };

    ghost faults = { λ s. s };

    ghost write_gives = { λ old piece result new. Unit {0} };

    fn write(&mut self, piece: &[u8]) -> Result<usize, SinkEnd> {
        match io::writer(&self.rt).write(piece) {
            Ok(count) if count > 0 => Ok(count),
            _ => {
                self.faults += 1;
                Err(SinkEnd::Failed)
            }
        }
    }

    fn faults(&self) -> u64 {
        self.faults
    }
}
