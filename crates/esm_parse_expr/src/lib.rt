//! Expressions of module texts: from tokens to nodes of a tree. ECMA-262, Expression.
#![tactic(auto)]

mod links;
mod of_text;
mod operators;
mod prim;
mod reader;
pub mod tokens;

pub use of_text::parse_expr;
pub use reader::{Stop, expr, operand, read_expr};
