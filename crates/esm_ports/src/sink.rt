// Where the output goes.
ghost use Rattle.std.specs.Prelude.{◌≡◌, ◌<◌, ◌-◌, ◌^◌, ℕ, List, Option, Result, length};
ghost use Rattle.esm_ports.specs.declared.sink.SinkEnd.{SinkEnd};
ghost use Rattle.esm_ports.specs.Sink.{Wrote};

use std::alloc::AllocError;

/// Why a piece was not taken.
#[derive(Clone, Copy, Debug, PartialEq, Eq)]
pub enum SinkEnd {
    /// The sink failed.
    Failed,
    /// Memory ran out.
    Memory,
}

impl From<AllocError> for SinkEnd {
    ghost use Rattle.std.specs.Prelude.{◌≡◌};
    ghost use Rattle.esm_ports.specs.declared.sink.SinkEnd.TheVariants.{Memory};

    ghost from_gives = { λ _ e. e ≡ Memory };

    fn from(_: AllocError) -> Self {
        SinkEnd::Memory
    }
}

/// A place that bytes are written to.
///
/// Contracts see three things of it: all that was written, where it tells; how often a write has failed; and what one
/// call of `write` may do.
pub trait Sink: Drop {
    /// All that was written, where it tells.
    ghost written: { Self → Option (List ℕ) };

    /// How often a write has failed.
    ghost faults: { Self → ℕ };

    /// What one call of `write` may do: the sink before it, the piece, the answer, and the sink after it.
    ghost write_gives: { Self → List ℕ → Result ℕ SinkEnd → Self → Type 0 };

    /// Takes some first bytes of the piece, at least one, and answers how many. After a refusal nothing was taken;
    /// a failure is counted.
    fn write(&mut self, piece: &[u8]) -> Result<usize, SinkEnd>
        requires some { 0 < length piece.now }
        requires room { faults self.old < 2 ^ 64 - 1 }
        ensures wrote { Wrote piece.now (written self.old) (written self.new)
            (faults self.old) (faults self.new) result }
        ensures gives { write_gives self.old piece.now result self.new };

    /// How often a write has failed.
    fn faults(&self) -> u64
        ensures { result ≡ faults self.now };
}
