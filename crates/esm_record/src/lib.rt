//! What a run took, and its record as text.
#![tactic(auto)]

mod delivery;
mod record;

pub use delivery::Delivery;
pub use record::append_record;
