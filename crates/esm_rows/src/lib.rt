//! What functions do as rows of small operations, made once from their syntax.
#![tactic(auto)]

mod blocks;
mod draft;
mod exprs;
pub mod laws;
mod locals;
mod lowering;
mod maker;
mod names;
mod nodes;
mod op;
mod owns;
mod row;
mod simple;
mod tasks;
mod works;

pub use lowering::lower;
pub use op::Op;
pub use row::Row;
