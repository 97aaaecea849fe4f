//! Examples for callers: each module shows one part of the loader in use, as `docs/guide.md` tells it.
#![tactic(auto)]

pub mod exports;
pub mod fetches;
pub mod import_maps;
pub mod pages;
