//! From the bytes of a module text to its script: its tree, and the entries of the tree.
#![tactic(auto)]

mod awaits;
mod entries;
mod exports;
mod imports;
mod index;
pub mod laws;
mod listing;
mod read;
mod requests;
mod stars;

pub use entries::entries_of;
pub use read::read_script;
