// Why loading ends early.
use esm_base::{End, Limit};

/// Why loading ends early: a limit has stopped it, or memory ran out. Afterwards the loads may be dropped only.
pub type LoadEnd = End<Limit>;
