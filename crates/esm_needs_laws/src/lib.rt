//! Laws of what ends first, over the definitions of the world.
#![tactic(auto)]

pub mod examples;
pub mod laws;
