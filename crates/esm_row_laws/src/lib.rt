//! What remains of a function at each place of its row.
#![tactic(auto)]

pub mod laws;
