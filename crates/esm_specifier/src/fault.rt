// Why a specifier has no URL.
ghost use Rattle.std.specs.Prelude.{◌≡◌};
ghost use Rattle.esm_specifier.specs.Faults.{specifier_fault_description};

use esm_base::End;

/// Why a specifier has no URL. The numbers are part of the printed message.
#[derive(Clone, Copy, Debug, PartialEq, Eq)]
pub enum SpecFault {
    /// Blocked by the import map: its key leads to the null entry.
    S1,
    /// No URL under its prefix.
    S2,
    /// Leaves its prefix.
    S3,
    /// Bare and not mapped.
    S4,
    /// No usable URL: not canonical, or longer than `MAX_URL_BYTES`.
    S5,
}

impl SpecFault {
    /// Its number and what is wrong, as the message of a TypeError has them.
    pub fn description(self) -> &'static str
        ensures { result.now ≡ specifier_fault_description self }
    {
        match self {
            SpecFault::S1 => "S1 blocked by the import map",
            SpecFault::S2 => "S2 no URL under its prefix",
            SpecFault::S3 => "S3 leaves its prefix",
            SpecFault::S4 => "S4 bare and not mapped",
            SpecFault::S5 => "S5 no usable URL",
        }
    }
}

/// Why a specifier wasn't resolved.
pub type SpecEnd = End<SpecFault>;
