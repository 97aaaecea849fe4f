// Runs over generated input: a summary is written in place of the log, and neither desk nor sources are asked.
use crate::told::{Refusal, is_cut};
use esm_base::{Memory, Status};
use esm_ports::MemSource;
use esm_run::Delivery;
use esm_site_runs::{Judge, Setting, set_judged};
use esm_sites::{RowCheck, Told, has_lines, holds, is_wanted, rows_hold, title, wanted_of};
use std::alloc::Global;
use std::marker::Sync;
use std::sync::Wait;
use std::thread::Threads;

// Words, and how their run ends: with a summary. The last run has as many modules as may be asked for.
const SUMS: &str = "\
== gen 1 1
>> Fulfilled
modules 1
started 1
lines 1
status 0

== gen 1 3
>> Fulfilled
modules 3
started 3
lines 3
status 0

== gen --workers=2 1 3
>> Fulfilled
modules 3
started 3
lines 3
status 0

== gen 1 64
>> Fulfilled
modules 64
started 64
lines 64
status 0

== gen 1 64 --workers 1
>> Fulfilled
modules 64
started 64
lines 64
status 0

== gen 1 64 --workers 4
>> Fulfilled
modules 64
started 64
lines 64
status 0

== gen 1 --workers 16 -- 64
>> Fulfilled
modules 64
started 64
lines 64
status 0

== gen 2147483647 64
>> Fulfilled
modules 64
started 64
lines 64
status 0

== gen 1 4096 --workers 4
>> Fulfilled
modules 4096
started 4096
lines 4096
status 0";

// Whether a run ends as a row says, takes as many modules as it says, and asks neither the desk nor its one source.
#[derive(Drop)]
struct Sum<'a> {
    row: &'a str,
}

impl<'a> Judge<MemSource> for Sum<'a> {
    fn is_right(
        &mut self,
        alloc: Global,
        status: Status,
        written: &[u8],
        taken: &[Delivery],
        desk: &MemSource,
        sources: &[MemSource],
    ) -> Result<bool, Memory> {
        let first = format!(in alloc; "modules {}", taken.len())?;
        match sources {
            [source] => Ok(
                is_wanted(wanted_of(self.row), status, written)
                    && self.row.lines().nth(2) == Some(first.as_str())
                    && desk.asked().len() == 0
                    && source.asked().len() == 0,
            ),
            _ => Ok(false),
        }
    }
}

// Checks that the words of a row end as it says.
struct SumCheck;

impl RowCheck for SumCheck {
    fn is_so<R: Threads + Wait + Sync>(
        &self,
        rt: &R,
        alloc: Global,
        row: &str,
    ) -> Result<bool, Memory> {
        set_judged(rt, alloc, title(row), &Setting::of(""), &mut Sum { row })
    }
}

// Words of `gen` that are no command.
const REFUSED: &str = "\
gen
gen 1
gen 0 3
gen 2147483648 3
gen 1 0
gen 1 4097
gen 1 3 --workers 0
gen 1 3 --workers 17
gen 1 3 --trace
gen 1 3 --record
gen 1 3 --map x
gen 1 3 5";

// Whether a sink that takes seven bytes at a time and fails at this write has this of the summary.
fn has_front<R: Threads + Wait + Sync>(
    rt: &R,
    alloc: Global,
    number: u64,
    front: &'static str,
) -> Told {
    holds(is_cut(rt, alloc, "gen 1 3", "", 7, number, front), front)
}

// Generated input is summed up; other words of `gen` show the usage line; a failing sink keeps what it took.
#[test]
fn generated_input_is_summed_up(rt: HostRuntime) -> Told {
    let alloc = rt.alloc();
    rows_hold(&rt, alloc, &SumCheck, SUMS)
        .and(rows_hold(&rt, alloc, &Refusal, REFUSED))
        .and(has_lines(REFUSED, 12))
        .and(has_front(&rt, alloc, 1, ""))
        .and(has_front(&rt, alloc, 2, "modules"))
        .and(has_front(&rt, alloc, 3, "modules 3\nstar"))
}
