// Checks of whole runs over one source in memory.
use esm_base::{Memory, Status};
use esm_run::Delivery;
use esm_site_runs::{Ends, Judge, Setting, Takes, set_judged};
use esm_sites::{RowCheck, Wanted, title, wanted_of};
use std::alloc::Global;
use std::marker::Sync;
use std::sync::Wait;
use std::thread::Threads;

/// How a run ends whose words are no command.
pub const USAGE: Wanted<'static> = Wanted {
    status: "Usage",
    lines: Some("esm: these words are no command"),
};

/// Checks that the words in the title of a row, over one source with the files of a site, end as the row says.
#[derive(Drop)]
pub struct LineCheck {
    /// The site.
    pub site: &'static str,
}

impl RowCheck for LineCheck {
    fn is_so<R: Threads + Wait + Sync>(
        &self,
        rt: &R,
        alloc: Global,
        row: &str,
    ) -> Result<bool, Memory> {
        let mut ends = Ends {
            wanted: wanted_of(row),
        };
        set_judged(rt, alloc, title(row), &Setting::of(self.site), &mut ends)
    }
}

/// Checks that the words of a line show the usage line alone, and nothing is taken.
pub struct Refusal;

impl RowCheck for Refusal {
    fn is_so<R: Threads + Wait + Sync>(
        &self,
        rt: &R,
        alloc: Global,
        row: &str,
    ) -> Result<bool, Memory> {
        let mut takes = Takes {
            wanted: USAGE,
            count: 0,
        };
        set_judged(rt, alloc, row, &Setting::of("\n-- main.js"), &mut takes)
    }
}

/// Whether a run ends by a write fault whose sink has taken this.
#[derive(Drop)]
struct Cut<'a> {
    text: &'a str,
}

impl<'a, S> Judge<S> for Cut<'a> {
    fn is_right(
        &mut self,
        _alloc: Global,
        status: Status,
        written: &[u8],
        _taken: &[Delivery],
        _desk: &S,
        _sources: &[S],
    ) -> Result<bool, Memory> {
        Ok(status == Status::WriteFault && written == self.text.as_bytes())
    }
}

/// Whether a sink that takes so many bytes at a time, and fails at this write, has taken this where the run of a site ends by a
/// write fault.
pub fn is_cut<R: Threads + Wait + Sync>(
    rt: &R,
    alloc: Global,
    line: &str,
    site: &str,
    piece: usize,
    write_fails: u64,
    text: &str,
) -> Result<bool, Memory> {
    let setting = Setting {
        piece,
        write_fails,
        ..Setting::of(site)
    };
    set_judged(rt, alloc, line, &setting, &mut Cut { text })
}
