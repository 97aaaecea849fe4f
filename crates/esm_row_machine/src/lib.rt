//! The machine that runs rows of operations: what functions do, over whatever they ask of the world around them.
#![tactic(auto)]

mod calls;
mod ending;
mod machine;
mod operators;
mod outside;
mod reading;
mod rows;
mod runs;
mod shortcuts;
mod stacks;
mod throws;
mod turn;
mod uses;

pub use machine::{Frame, Handler, Machine};
pub use outside::Outside;
pub use rows::Rows;
pub use runs::{Ending, call};
