//! Input that two numbers generate, and the summary of a run over it.
#![tactic(auto)]

pub mod laws;
mod modules;
mod source;
mod summary;

pub use modules::{BASE, ENTRY, entry_url, files};
pub use source::GeneratedSource;
pub use summary::Summary;
