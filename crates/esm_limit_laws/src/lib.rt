//! Laws of runs of clean files that a limit may stop once all of them are loaded, over the laws of such runs within the limits.
#![tactic(auto)]

pub mod laws;
