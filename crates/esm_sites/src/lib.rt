//! Sites in memory, and what tests over them tell.
#![tactic(auto)]

mod setup;
mod sites;
mod telling;
mod texts;

pub use setup::{
    COMMAND, ENTRY, add_named, at_least_one, desk, failing_sink, files, one_source, site,
    sources_of, sure_sink, words,
};
pub use sites::SITES;
pub use telling::{RowCheck, Told, has_lines, holds, rows_hold, tables_hold, told_of};
pub use texts::{Wanted, ending, files_of, is_wanted, title, wanted_of};
