//! Fetching and reading of module texts, by one thread, or by workers over a shared module map.
#![tactic(auto)]

mod bell;
mod fetch;
pub mod laws;
mod pool;
mod posted;
mod working;

pub use bell::Bell;
pub use fetch::fetch_outcome;
pub use pool::{Done, Job, Pool, work_all};
pub use posted::Posted;
pub use working::{Turned, WorkerEnd, fetch_one, worker};
