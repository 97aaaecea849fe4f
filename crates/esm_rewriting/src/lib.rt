//! How bodies go on by the definitions: what remains of one, a rewriting, a segment, each call for a body, and the laws of these.
#![tactic(auto)]

pub mod laws;
mod stop;

pub use stop::Stop;
