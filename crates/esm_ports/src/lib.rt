//! Where module texts come from, and where the output goes.
#![tactic(auto)]

mod asked;
mod asks;
mod file_source;
mod held_files;
mod mem_sink;
mod mem_source;
mod put;
mod sink;
mod source;
mod std_sink;
mod sure_sink;
mod sure_source;

pub use asked::{AskKind, Asked};
pub use asks::Asks;
pub use file_source::FileSource;
pub use held_files::HeldFiles;
pub use mem_sink::MemSink;
pub use mem_source::MemSource;
pub use put::put_all;
pub use sink::{Sink, SinkEnd};
pub use source::{FetchEnd, Source};
pub use std_sink::StdSink;
pub use sure_sink::SureSink;
pub use sure_source::SureSource;
