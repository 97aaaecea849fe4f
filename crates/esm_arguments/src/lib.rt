//! The commands that command-line arguments are.
#![tactic(auto)]

mod command;
mod numbers;
mod reading;
mod said;
mod urls;

pub use command::{Command, Generation, MAX_START};
pub use reading::{read_generation, read_words};
