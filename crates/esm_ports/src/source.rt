// Where module texts come from.
ghost use Rattle.std.specs.Prelude.{◌≡◌, ℕ, List, Option, ◌<◌, ◌≤◌, IfOk, IfSome, IsErrOf, length};
ghost use Rattle.esm_base.specs.declared.limits.TheConstants.{MAX_BODY_BYTES};
ghost use Rattle.esm_ports.specs.declared.asked.Asked.{Asked};
ghost use Rattle.esm_ports.specs.Asks.{failed_count};
ghost use Rattle.esm_ports.specs.Source.{asked_after, IsToldBy};

use esm_base::Memory;
use std::alloc::{AllocError, AllocFailed, Global};

/// Why a fetch gave no bytes.
#[derive(Clone, Copy, Debug, PartialEq, Eq)]
pub enum FetchEnd {
    /// Nothing stands there.
    Absent,
    /// The fetch failed.
    Failed,
    /// Memory ran out.
    Memory,
}

impl From<Memory> for FetchEnd {
    ghost use Rattle.std.specs.Prelude.{◌≡◌};
    ghost use Rattle.esm_ports.specs.declared.source.FetchEnd.TheVariants.{Memory};

    ghost from_gives = { λ _ e. e ≡ Memory };

    fn from(_: Memory) -> Self {
        FetchEnd::Memory
    }
}

impl From<AllocError> for FetchEnd {
    ghost use Rattle.std.specs.Prelude.{◌≡◌};
    ghost use Rattle.esm_ports.specs.declared.source.FetchEnd.TheVariants.{Memory};

    ghost from_gives = { λ _ e. e ≡ Memory };

    fn from(_: AllocError) -> Self {
        FetchEnd::Memory
    }
}

impl<T: Drop> From<AllocFailed<T>> for FetchEnd {
    ghost use Rattle.std.specs.Prelude.{◌≡◌};
    ghost use Rattle.esm_ports.specs.declared.source.FetchEnd.TheVariants.{Memory};

    ghost from_gives = { λ _ e. e ≡ Memory };

    fn from(_: AllocFailed<T>) -> Self {
        FetchEnd::Memory
    }
}

/// A place that module texts are fetched from.
///
/// Contracts see three things of it: what it was asked and how it answered, which grows by one with each answer that
/// isn't `Memory`; how often a fetch has failed; and, where it tells, what it holds, which never changes.
pub trait Source: Drop {
    /// The fetches so far that were answered, in order.
    ghost asked: { Self → List Asked };

    /// What it holds for each URL, where it tells.
    ghost holds: { Self → Option (List ℕ → Option (List ℕ)) };

    /// How often a fetch has failed.
    ghost faults: { Self → ℕ };

    /// Fetches the first `MAX_BODY_BYTES`, or all, of what stands at a URL. A failure is counted.
    fn fetch(&mut self, alloc: Global, url: &str) -> Result<Vec<u8>, FetchEnd>
        ensures asked { asked self.new ≡ asked_after (asked self.old) url.now result }
        ensures told { IfSome (holds self.old) (λ contents. IsToldBy contents url.now result) }
        ensures short { IfOk result (λ body. length body.items ≤ MAX_BODY_BYTES) }
        ensures holds { holds self.new ≡ holds self.old }
        ensures failed { IsErrOf result FetchEnd.Failed → faults self.old < faults self.new };

    /// How often a fetch has failed.
    fn faults(&self) -> u64
        ensures { result ≡ faults self.now };

    /// The faults are the fetches that failed.
    ghost counted: { (source : Self) → faults source ≡ failed_count (asked source) };
}
