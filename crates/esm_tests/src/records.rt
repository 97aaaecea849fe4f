// Whole runs with a record before the log: what was given and what was taken, byte by byte.
use crate::told::{LineCheck, is_cut};
use esm_base::{Memory, Status};
use esm_run::Delivery;
use esm_site_runs::{Judge, Setting, set_judged};
use esm_sites::{Told, holds, rows_hold};
use std::alloc::Global;
use std::marker::Sync;
use std::sync::Wait;
use std::thread::Threads;

const MIXED: &str = "\
esm-record 1
base https://a.test/
entry https://a.test/main.js
map 3 https://a.test/map.json
{}

taken 3
body 33 https://a.test/main.js
import \"./b.js\"; import \"./c.js\";
body 1 https://a.test/b.js
(
absent https://a.test/c.js
end
Uncaught SyntaxError: https://a.test/b.js: P2 no module text
";

const HI: &str = "== files\n-- main.js\nprint(\"hi\")\n>> Fulfilled";

// Words, how their run ends, and what it writes: a record before the log, or none where no run began.
const LINES: &str = r#"== run https://a.test/ main.js --record
>> Fulfilled
esm-record 1
base https://a.test/
entry https://a.test/main.js
map none
taken 1
body 11 https://a.test/main.js
print("hi")
end
hi

== run --record https://a.test/ -- main.js
>> Fulfilled
esm-record 1
base https://a.test/
entry https://a.test/main.js
map none
taken 1
body 11 https://a.test/main.js
print("hi")
end
hi

== run https://a.test/ main.js --record --record
>> Usage
esm: these words are no command

== run https://a.test/ main.js --record --map map.json
>> MapRefused
import map refused: cannot fetch https://a.test/map.json"#;

// The files: one imports, one is no module, and one is missing.
const MIXED_SITE: &str = r#"== files
-- main.js
import "./b.js"; import "./c.js";
-- b.js
("#;

// Whether a run is recorded as `MIXED` says.
#[derive(Drop)]
struct Mixed;

impl<S> Judge<S> for Mixed {
    fn is_right(
        &mut self,
        _alloc: Global,
        status: Status,
        written: &[u8],
        taken: &[Delivery],
        _desk: &S,
        _sources: &[S],
    ) -> Result<bool, Memory> {
        Ok(status == Status::EntryFailed && written == MIXED.as_bytes() && taken.len() == 3)
    }
}

// Whether a run with an import map and three files is recorded so: a text that imports, one that is no module, and one that is
// missing.
fn is_mixed<R: Threads + Wait + Sync>(rt: &R, alloc: Global) -> Result<bool, Memory> {
    let line = "run https://a.test/ main.js --record --map map.json --workers 1";
    let setting = Setting {
        map: "{}\n",
        ..Setting::of(MIXED_SITE)
    };
    set_judged(rt, alloc, line, &setting, &mut Mixed)
}

// Whether a sink that takes four bytes at a time and fails at its third write has this of the record.
fn has_front<R: Threads + Wait + Sync>(rt: &R, alloc: Global) -> Result<bool, Memory> {
    let line = "run https://a.test/ main.js --record";
    is_cut(rt, alloc, line, HI, 4, 3, "esm-reco")
}

// A record stands before the log, and has the map and each outcome; a failing sink has a front of it.
#[test]
fn runs_are_recorded(rt: HostRuntime) -> Told {
    let alloc = rt.alloc();
    rows_hold(&rt, alloc, &LineCheck { site: HI }, LINES)
        .and(holds(is_mixed(&rt, alloc), "a record of each outcome"))
        .and(holds(has_front(&rt, alloc), "a sink that fails"))
}
