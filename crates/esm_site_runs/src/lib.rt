//! How tests run sites in memory: what the tests of whole runs have in common.
#![tactic(auto)]

mod delivering;
mod judging;
mod running;
mod sharing;

pub use delivering::{deliver, deliver_taken};
pub use judging::{Judge, judged};
pub use running::{Ends, RunsAsSaid, Setting, Takes, ends_so, set_judged, site_judged};
pub use sharing::Shared;
