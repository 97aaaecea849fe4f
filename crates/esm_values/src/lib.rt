//! The values of the body language: errors, display texts, operators, and what an expression asks of the world.
#![tactic(auto)]

mod display;
mod errors;
pub mod laws;
mod limits;
mod rc_text;
mod value;

pub use display::{function_text, namespace_text, printed_line, truth_text};
pub use errors::{Errors, Fault, FaultKind, error_text, kind_name};
pub use limits::BYTES_PER_STEP;
pub use rc_text::RcText;
pub use value::{ErrorId, FuncId, PromiseId, Ran, Value, is_same, is_true};
