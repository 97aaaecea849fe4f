//! What an import map says: a text is read into two finite maps, or refused.
#![tactic(auto)]

mod address;
mod fault;
mod import_map;
mod reading;
mod specifier;

pub use address::Address;
pub use fault::{MapFault, MapReadEnd};
pub use import_map::{ImportMap, SpecifierMap};
pub use specifier::{ends_in_slash, is_relative, url_like};
