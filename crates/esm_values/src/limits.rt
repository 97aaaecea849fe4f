// What the steps of the body language are counted by.

/// How many bytes of a text that `+` makes take one step.
pub const BYTES_PER_STEP: usize = 64;
