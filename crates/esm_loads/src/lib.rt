//! Several loads at once with their promises, and `import()`.
#![tactic(auto)]

mod answering;
mod arriving;
mod asked_urls;
mod asking;
mod calls;
mod data;
mod end;
mod entering;
pub mod examples;
mod filling;
mod front_vec;
mod importing;
pub mod laws;
mod load_record;
mod loads;
mod queues;
mod reading;
mod settling;
mod stepping;
mod steps;
mod target_places;

pub use data::{Cause, NOWHERE, Purpose, Requester, Slot, Stage, UrlState, Waiting};
pub use end::LoadEnd;
pub use loads::Loads;
