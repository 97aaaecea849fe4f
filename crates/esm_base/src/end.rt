// How a call is refused: with a fault of its own, or because memory ran out.
use crate::Memory;
use std::alloc::{AllocError, AllocFailed};

/// Why a call gives no value.
#[derive(Clone, Copy, Debug, PartialEq, Eq)]
pub enum End<F> {
    /// What was asked has this fault.
    Fault(F),
    /// Memory ran out.
    Memory,
}

impl<F> From<Memory> for End<F> {
    ghost use Rattle.std.specs.Prelude.{◌≡◌};
    ghost use Rattle.esm_base.specs.declared.end.End.TheVariants.{Memory};

    ghost from_gives = { λ _ e. e ≡ Memory };

    fn from(_: Memory) -> Self {
        End::Memory
    }
}

impl<F> From<AllocError> for End<F> {
    ghost use Rattle.std.specs.Prelude.{◌≡◌};
    ghost use Rattle.esm_base.specs.declared.end.End.TheVariants.{Memory};

    ghost from_gives = { λ _ e. e ≡ Memory };

    fn from(_: AllocError) -> Self {
        End::Memory
    }
}

impl<F, T: Drop> From<AllocFailed<T>> for End<F> {
    ghost use Rattle.std.specs.Prelude.{◌≡◌};
    ghost use Rattle.esm_base.specs.declared.end.End.TheVariants.{Memory};

    ghost from_gives = { λ _ e. e ≡ Memory };

    fn from(_: AllocFailed<T>) -> Self {
        End::Memory
    }
}
