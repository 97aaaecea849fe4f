// The limits of the loader, by name.
ghost use Rattle.std.specs.Prelude.{◌≡◌};
ghost use Rattle.esm_base.specs.Limits.{limit_name};

/// How many URLs one run may request, the entry included: L1.
pub const MAX_URLS: usize = 4096;

/// How many bytes of bodies may be delivered to one run: L2.
pub const MAX_DELIVERED_BYTES: u64 = 16_777_216;

/// How many steps of evaluation one run may take: L3.
pub const MAX_STEPS: u32 = 1_000_000;

/// How many calls of `import()` one run may begin: L4.
pub const MAX_IMPORT_CALLS: usize = 4096;

/// How many bytes of log one run may write, the last line not counted: L5.
pub const MAX_LOG_BYTES: usize = 16_777_216;

/// The longest URL that may name a module, in bytes of its text.
pub const MAX_URL_BYTES: usize = 8192;

/// The longest module text and the longest text of an import map, in bytes.
pub const MAX_FILE_BYTES: usize = 1_048_576;

/// The longest body that a fetch answers, in bytes: one more than a module text may have, so that its reader sees
/// that it is too long.
pub const MAX_BODY_BYTES: usize = 1_048_577;

/// How many brackets of a module text may be open at once, and how many signs `!` may stand one after another.
pub const MAX_NESTING: u32 = 64;

/// How many functions of a run may be active at once.
pub const MAX_CALL_DEPTH: u32 = 256;

/// The longest text that an evaluated `+` may give, in bytes.
pub const MAX_TEXT_BYTES: usize = 65_536;

/// How many workers a run may have: it is given a source for each.
pub const MAX_SOURCES: usize = 16;

/// A bound of the loader that stops a run.
#[derive(Clone, Copy, Debug, PartialEq, Eq)]
pub enum Limit {
    /// `MAX_URLS` is passed.
    L1,
    /// `MAX_DELIVERED_BYTES` is passed.
    L2,
    /// `MAX_STEPS` is passed.
    L3,
    /// `MAX_IMPORT_CALLS` is passed.
    L4,
    /// `MAX_LOG_BYTES` is passed.
    L5,
}

impl Limit {
    /// Its name, as the last line of the log has it.
    pub fn name(self) -> &'static str
        ensures { result.now ≡ limit_name self }
    {
        match self {
            Limit::L1 => "L1",
            Limit::L2 => "L2",
            Limit::L3 => "L3",
            Limit::L4 => "L4",
            Limit::L5 => "L5",
        }
    }
}
