//! Laws of runs whose files are clean, over the definitions of the world.
#![tactic(auto)]

pub mod laws;
