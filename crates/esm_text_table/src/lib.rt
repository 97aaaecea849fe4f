//! Texts in order, each once, found by marks of them, whatever texts are chosen.
#![tactic(auto)]

mod text_table;

pub use text_table::TextTable;
