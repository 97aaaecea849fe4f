// One fetch, and how it was answered.
use esm_base::Text;

/// How a fetch was answered.
#[derive(Clone, Copy, Debug, PartialEq, Eq)]
pub enum AskKind {
    /// With a body.
    Body,
    /// Nothing stands there.
    Absent,
    /// The fetch failed.
    Failed,
}

/// One fetch that was answered.
#[derive(Debug, Drop)]
pub struct Asked {
    /// The URL that was asked for.
    pub url: Text,
    /// How it was answered.
    pub kind: AskKind,
}
