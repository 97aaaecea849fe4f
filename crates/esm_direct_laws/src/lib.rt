//! Laws of the direct run of clean files, over the laws of their runs.
#![tactic(auto)]

pub mod examples;
pub mod laws;
