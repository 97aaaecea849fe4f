// Whole runs over several sources, with a worker for each.
use crate::told::USAGE;
use esm_base::{Memory, Status};
use esm_ports::MemSource;
use esm_run::Delivery;
use esm_site_runs::{Ends, Judge, Setting, set_judged};
use esm_sites::{
    COMMAND, RowCheck, SITES, Told, Wanted, files_of, has_lines, is_wanted, rows_hold, wanted_of,
};
use std::alloc::Global;
use std::marker::Sync;
use std::sync::Wait;
use std::thread::Threads;

// Whether a site is run so over sixteen sources and so many workers.
fn is_run_by<R: Threads + Wait + Sync, J: Judge<MemSource>>(
    rt: &R,
    alloc: Global,
    rest: &str,
    site: &str,
    judge: &mut J,
) -> Result<bool, Memory> {
    let line = format!(in alloc; "{COMMAND} --workers {rest}")?;
    let setting = Setting {
        sources: 16,
        ..Setting::of(site)
    };
    set_judged(rt, alloc, line.as_str(), &setting, judge)
}

// Whether the first source was asked so often, and no other.
fn asks_first(sources: &[MemSource], files: usize) -> bool {
    match sources {
        [first, rest @ ..] => {
            first.asked().len() == files && rest.iter().all(|source| source.asked().len() == 0)
        }
        [] => false,
    }
}

// Whether a run ends so, takes so many files, and gives back its sources. One worker asks the first source alone.
#[derive(Drop)]
struct Worked<'a> {
    wanted: Wanted<'a>,
    files: usize,
    alone: bool,
}

impl<'a> Judge<MemSource> for Worked<'a> {
    fn is_right(
        &mut self,
        _alloc: Global,
        status: Status,
        written: &[u8],
        taken: &[Delivery],
        _desk: &MemSource,
        sources: &[MemSource],
    ) -> Result<bool, Memory> {
        Ok(
            is_wanted(self.wanted, status, written)
                && taken.len() == self.files
                && sources.len() == 16
                && (!self.alone || asks_first(sources, self.files)),
        )
    }
}

// Checks that a site runs as it says over so many workers, and takes each of its files.
#[derive(Drop)]
struct WorkersCheck {
    workers: &'static str,
}

impl RowCheck for WorkersCheck {
    fn is_so<R: Threads + Wait + Sync>(
        &self,
        rt: &R,
        alloc: Global,
        row: &str,
    ) -> Result<bool, Memory> {
        let mut worked = Worked {
            wanted: wanted_of(row),
            files: files_of(alloc, row)?.len(),
            alone: self.workers == "1",
        };
        is_run_by(rt, alloc, self.workers, row, &mut worked)
    }
}

// Tells the first of `SITES` that doesn't run so over so many workers.
fn sites_hold<R: Threads + Wait + Sync>(rt: &R, alloc: Global, workers: &'static str) -> Told {
    rows_hold(rt, alloc, &WorkersCheck { workers }, SITES)
}

const ONE_PRINT: &str = "== one print\n-- main.js\nprint(\"m\")\n>> Fulfilled\nm";

// Numbers of workers that are read.
const NUMBERS: &str = "1\n9\n16";

// Numbers that are no command.
const WRONG_NUMBERS: &str = "\
0
01
17
160
x
-1

2 --workers 2";

// Checks that the run of one print by this number of workers ends so.
#[derive(Drop)]
struct NumberCheck {
    wanted: Wanted<'static>,
}

impl RowCheck for NumberCheck {
    fn is_so<R: Threads + Wait + Sync>(
        &self,
        rt: &R,
        alloc: Global,
        row: &str,
    ) -> Result<bool, Memory> {
        let mut ends = Ends {
            wanted: self.wanted,
        };
        is_run_by(rt, alloc, row, ONE_PRINT, &mut ends)
    }
}

// Tells the first of these numbers with which the run of one print doesn't end so.
fn numbers_hold<R: Threads + Wait + Sync>(
    rt: &R,
    alloc: Global,
    numbers: &'static str,
    wanted: Wanted<'static>,
) -> Told {
    rows_hold(rt, alloc, &NumberCheck { wanted }, numbers)
}

// A site runs the same over any number of workers, and their number is read.
#[test]
fn workers_run_the_same(rt: HostRuntime) -> Told {
    let alloc = rt.alloc();
    sites_hold(&rt, alloc, "1")
        .and(sites_hold(&rt, alloc, "2"))
        .and(sites_hold(&rt, alloc, "4"))
        .and(sites_hold(&rt, alloc, "16"))
        .and(numbers_hold(&rt, alloc, NUMBERS, wanted_of(ONE_PRINT)))
        .and(has_lines(NUMBERS, 3))
        .and(numbers_hold(&rt, alloc, WRONG_NUMBERS, USAGE))
        .and(has_lines(WRONG_NUMBERS, 8))
}
