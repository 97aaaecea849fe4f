//! Bodies of modules: statements, scopes, calls, awaits, and what starts, runs and resumes a body.
#![tactic(auto)]

mod blocks;
mod bodies;
mod catching;
mod displays;
mod ends;
mod engine;
mod events;
mod functions;
mod going;
mod importer;
mod imports;
mod inside;
pub mod laws;
mod log;
mod members;
mod names;
mod notes;
mod outside;
mod remaining;
mod scopes;
mod segment;
mod slots;
mod starts;
mod turn;
mod waits;
mod work;
mod world;
mod writes;

pub use displays::display_text;
pub use engine::{Engine, Event};
pub use importer::Importer;
