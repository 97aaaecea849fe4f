//! Evaluation of expressions over any world.
#![tactic(auto)]

mod frame;
pub mod laws;
mod machine;
mod nodes;
mod sums;
mod world;

pub use frame::Frame;
pub use machine::{ExprFrame, Move};
pub use sums::{error_from, sum_of};
pub use world::{ExprEnd, Out, World};
