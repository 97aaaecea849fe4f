// Runs under an import map.
use esm_base::{Memory, Status};
use esm_ports::{MemSource, Source};
use esm_run::Delivery;
use esm_site_runs::{Judge, Setting, set_judged};
use esm_sites::{RowCheck, Told, Wanted, holds, is_wanted, rows_hold, wanted_of};
use std::alloc::Global;
use std::marker::Sync;
use std::sync::Wait;
use std::thread::Threads;

const NAMED: &str = "run https://a.test/ main.js --map map.json";

const SCOPED: &str =
    r#"{"imports":{"lib/":"/v1/","lib/x/":"/v2/","bad":7},"scopes":{"/old/":{"lib/":"/v0/"}}}"#;

// Runs that have an import map. Below the name of a row stand the words, and what the desk holds as `map.json`: a text, or
// `scoped` for the one above, or `none`. Then come the files, and how the run ends.
const ROWS: &str = r#"== no file
run https://a.test/ main.js --map map.json
none
-- main.js
print("hi")
>> MapRefused
import map refused: cannot fetch https://a.test/map.json

== no JSON text
run https://a.test/ main.js --map map.json
{
-- main.js
print("hi")
>> MapRefused
import map refused: M1 no JSON text

== no object
run https://a.test/ main.js --map map.json
[]
-- main.js
print("hi")
>> MapRefused
import map refused: M2 not an object

== imports that are no object
run https://a.test/ main.js --map map.json
{"imports":[]}
-- main.js
print("hi")
>> MapRefused
import map refused: M3 imports or scopes not an object

== two keys of one URL
run https://a.test/ main.js --map map.json
{"imports":{"./a":"/x","https://a.test/a":"/y"}}
-- main.js
print("hi")
>> MapRefused
import map refused: M4 two keys collide

== the longest key of imports, and a scope before imports
run https://a.test/ main.js --map map.json
scoped
-- main.js
import "lib/x/a.js";import "./old/m.js";import "lib/b.js";print("main")
-- old/m.js
import "lib/x/a.js";print("old")
-- v2/a.js
print("v2/a")
-- v1/b.js
print("v1/b")
-- v0/x/a.js
print("v0/x/a")
>> Fulfilled
v2/a
v0/x/a
old
v1/b
main

== a null entry
run https://a.test/ main.js --map map.json
scoped
-- main.js
import "bad";print("main")
>> EntryFailed
Uncaught TypeError: https://a.test/main.js: specifier bad: S1 blocked by the import map

== an address that is left
run https://a.test/ main.js --map map.json
scoped
-- main.js
import "lib/../../etc.js";
>> EntryFailed
Uncaught TypeError: https://a.test/main.js: specifier lib/../../etc.js: S3 leaves its prefix

== no URL below an address
run https://a.test/ main.js --map map.json
scoped
-- main.js
import "lib/https://:x/";
>> EntryFailed
Uncaught TypeError: https://a.test/main.js: specifier lib/https://:x/: S2 no URL under its prefix

== an entry that the map has too isn't looked up
run https://a.test/ main.js --map map.json
{"imports":{"main.js":"/x.js","./main.js":"/x.js"}}
-- main.js
print("hi")
>> Fulfilled
hi"#;

// Runs that ask for no import map.
const UNASKED: &str = r#"== no map
run https://a.test/ main.js
scoped
-- main.js
import "bad";print("main")
>> EntryFailed
Uncaught TypeError: https://a.test/main.js: specifier bad: S4 bare and not mapped

== a missing value
run https://a.test/ main.js --map
scoped
-- main.js
print("hi")
>> Usage
esm: these words are no command

== a value that begins with a dash
run https://a.test/ main.js --map -map.json
scoped
-- main.js
print("hi")
>> Usage
esm: these words are no command

== a value that is no URL
run https://a.test/ main.js --map https://:x/
scoped
-- main.js
print("hi")
>> Usage
esm: these words are no command

== another option
run https://a.test/ main.js --maps map.json
scoped
-- main.js
print("hi")
>> Usage
esm: these words are no command"#;

// The import map that a line says.
fn map_of(line: &str) -> &str {
    if line == "none" {
        return "";
    }
    if line == "scoped" {
        return SCOPED;
    }
    line
}

// Whether a run ends so, and asks the desk so often.
#[derive(Drop)]
struct Asks<'a> {
    wanted: Wanted<'a>,
    asked: usize,
}

impl<'a> Judge<MemSource> for Asks<'a> {
    fn is_right(
        &mut self,
        _alloc: Global,
        status: Status,
        written: &[u8],
        _taken: &[Delivery],
        desk: &MemSource,
        _sources: &[MemSource],
    ) -> Result<bool, Memory> {
        Ok(is_wanted(self.wanted, status, written) && desk.asked().len() == self.asked)
    }
}

// Checks that the run of a row ends as it says, and asks the desk so often.
#[derive(Drop)]
struct MapCheck {
    asked: usize,
}

impl RowCheck for MapCheck {
    fn is_so<R: Threads + Wait + Sync>(
        &self,
        rt: &R,
        alloc: Global,
        row: &str,
    ) -> Result<bool, Memory> {
        let setting = Setting {
            map: map_of(row.lines().nth(2).unwrap_or("")),
            ..Setting::of(row)
        };
        let mut asks = Asks {
            wanted: wanted_of(row),
            asked: self.asked,
        };
        set_judged(
            rt,
            alloc,
            row.lines().nth(1).unwrap_or(""),
            &setting,
            &mut asks,
        )
    }
}

// Whether a run whose desk fails at its first fetch has no map, and takes nothing.
#[derive(Drop)]
struct HasNoMap;

impl Judge<MemSource> for HasNoMap {
    fn is_right(
        &mut self,
        _alloc: Global,
        status: Status,
        written: &[u8],
        taken: &[Delivery],
        desk: &MemSource,
        _sources: &[MemSource],
    ) -> Result<bool, Memory> {
        let refused = "import map refused: cannot fetch https://a.test/map.json\n";
        Ok(
            status == Status::MapRefused
                && written == refused.as_bytes()
                && desk.faults() == 1
                && taken.len() == 0,
        )
    }
}

// Whether that of a desk that fails so has none.
fn fails_without_map<R: Threads + Wait + Sync>(rt: &R, alloc: Global) -> Result<bool, Memory> {
    let setting = Setting {
        map_fails: 1,
        ..Setting::of("== one print\n-- main.js\nprint(\"hi\")")
    };
    set_judged(rt, alloc, NAMED, &setting, &mut HasNoMap)
}

// The map that the desk answers decides; words that name none ask for none; a desk that fails has none.
#[test]
fn the_map_of_the_desk_decides(rt: HostRuntime) -> Told {
    let alloc = rt.alloc();
    rows_hold(&rt, alloc, &MapCheck { asked: 1 }, ROWS)
        .and(rows_hold(&rt, alloc, &MapCheck { asked: 0 }, UNASKED))
        .and(holds(fails_without_map(&rt, alloc), "a desk that fails"))
}
