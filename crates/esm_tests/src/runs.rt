// Whole runs, from the words to the bytes.
use crate::told::{Refusal, is_cut};
use esm_base::{Memory, Status};
use esm_ports::{MemSource, Source};
use esm_run::Delivery;
use esm_site_runs::{Judge, Setting, Shared, set_judged, site_judged};
use esm_sites::{COMMAND, Told, has_lines, holds, rows_hold};
use std::alloc::Global;
use std::marker::Sync;
use std::sync::Wait;
use std::thread::Threads;

const CANNOT_FETCH: &str = "Uncaught TypeError: cannot fetch https://a.test/main.js\n";

// Words that are no command: none, and others.
const WORDS: &str = "
run a.test main.js
run https://a.test/ main.js --trace --trace
run https://a.test/ main.js --workers 0
run https://a.test/ --help
gen 1 3 --trace";

// Whether a run over one source says that its fetch failed, counts it, and asks nothing of the desk.
#[derive(Drop)]
struct FaultCounted;

impl Judge<MemSource> for FaultCounted {
    fn is_right(
        &mut self,
        _alloc: Global,
        status: Status,
        written: &[u8],
        _taken: &[Delivery],
        desk: &MemSource,
        sources: &[MemSource],
    ) -> Result<bool, Memory> {
        match sources {
            [source] => Ok(
                status == Status::EntryFailed
                    && written == CANNOT_FETCH.as_bytes()
                    && source.faults() == 1
                    && desk.asked().len() == 0,
            ),
            _ => Ok(false),
        }
    }
}

const HI: &str = "== one print\n-- main.js\nprint(\"hi\")";

// The same where the one fetch of a run fails.
fn is_fault_counted<R: Threads + Wait + Sync>(rt: &R, alloc: Global) -> Result<bool, Memory> {
    let setting = Setting {
        fetch_fails: 1,
        ..Setting::of(HI)
    };
    set_judged(rt, alloc, COMMAND, &setting, &mut FaultCounted)
}

const TWO_PRINTS: &str = "== two prints\n-- main.js\nprint(\"a1\")\nprint(\"b1\")";

const TWO_BODIES: &str = r#"== two bodies
-- main.js
import "./a.js"; import "./b.js"; print("m");
-- a.js
print("a1"); await undefined; print("a2");
-- b.js
print("b1"); await undefined; print("b2");"#;

// Whether a sink that takes four bytes at a time and fails at its second write has a front of what a site prints.
fn has_front<R: Threads + Wait + Sync>(rt: &R, alloc: Global, site: &str) -> Result<bool, Memory> {
    is_cut(rt, alloc, COMMAND, site, 4, 2, "a1\nb")
}

const NO_MODULE: &str = "== a text that is no module\n-- main.js\nno module text";

// Runs a site whose entry has this text. Tells whether the outcome that it took can't be shared.
fn can_be_shared<R: Threads + Wait + Sync>(
    rt: &R,
    alloc: Global,
    site: &str,
    body: &'static str,
    printed: Option<usize>,
) -> Told {
    let mut shared = Shared { body, printed };
    holds(site_judged(rt, alloc, site, &mut shared), body)
}

// Words that are no command show the usage line; a failed fetch is reported and counted; a failing sink keeps what it took; an
// outcome can be shared.
#[test]
fn ends_are_told(rt: HostRuntime) -> Told {
    let alloc = rt.alloc();
    rows_hold(&rt, alloc, &Refusal, WORDS)
        .and(has_lines(WORDS, 6))
        .and(holds(is_fault_counted(&rt, alloc), "a fetch that fails"))
        .and(holds(has_front(&rt, alloc, TWO_PRINTS), "two prints"))
        .and(holds(has_front(&rt, alloc, TWO_BODIES), "two bodies"))
        .and(can_be_shared(&rt, alloc, HI, "print(\"hi\")", Some(1)))
        .and(can_be_shared(&rt, alloc, NO_MODULE, "no module text", None))
}
