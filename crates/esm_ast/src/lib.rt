//! What a module text is read as: its tree, its entries, and the outcome of a fetch.
#![tactic(auto)]

mod entries;
pub mod laws;
mod outcome;
mod script;

pub use entries::{Entries, ImportEntry, IndirectExport, LocalExport};
pub use esm_tree::{
    ExportSpecifier, ExprId, ExprIds, ExprNode, ImportBinding, Initializer, ItemNode, Lexeme,
    LexicalBinding, Link, Mark, NodeText, StmtId, StmtNode, Terminal, Token, TokenKind, Tree,
    Wanted,
};
pub use outcome::{BrokenText, Outcome};
pub use script::Script;
