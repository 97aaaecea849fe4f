//! The world of a run, whole: definitions with their laws.
#![tactic(auto)]

pub mod awaits;
pub mod examples;
pub mod failing_runs;
pub mod fits;
pub mod laws;
pub mod loaded;
pub mod told;
pub mod traced_run;
pub mod two_tasks;
