// Words on both sides of each rule, and what they say.
use esm_arguments::{Command, Generation, read_generation, read_words};
use esm_base::{Memory, Text};
use std::alloc::{AllocError, Global};

// Where options and flags stand, and how often.
const ORDERS: &str = "\
run https://a.test/ main.js | https://a.test/main.js - 4 - -
run --trace https://a.test/ main.js | https://a.test/main.js - 4 trace -
run https://a.test/ --trace main.js | https://a.test/main.js - 4 trace -
run https://a.test/ main.js --trace | https://a.test/main.js - 4 trace -
run https://a.test/ main.js --record | https://a.test/main.js - 4 - record
run --record --trace https://a.test/ main.js | https://a.test/main.js - 4 trace record
run --map m.json https://a.test/ --workers 2 main.js | https://a.test/main.js https://a.test/m.json 2 - -
run --workers 2 --map m.json https://a.test/ main.js | https://a.test/main.js https://a.test/m.json 2 - -
run https://a.test/ main.js --workers=1 --record --map=m.json --trace | https://a.test/main.js https://a.test/m.json 1 trace record
run https://a.test/ main.js --trace --trace | no
run --trace https://a.test/ main.js --trace | no
run --record https://a.test/ --record main.js | no
run https://a.test/ main.js --map m.json --map m.json | no
run https://a.test/ main.js --map=m.json --map n.json | no
run --map m.json https://a.test/ main.js --map=m.json | no
run --workers 2 https://a.test/ main.js --workers=2 | no
--trace run https://a.test/ main.js | no
run https://a.test/ | no
run https://a.test/ --trace | no
run | no
run --trace | no
run https://a.test/ main.js b.js | no
run https://a.test/ main.js - | no
walk https://a.test/ main.js | no
Run https://a.test/ main.js | no
run https://a.test/  main.js | no
run https://a.test/ main.js  | no
 run https://a.test/ main.js | no";

// Values of options, flags, `--` and `-`.
const VALUES: &str = "\
run https://a.test/ main.js --map - | no
run https://a.test/ main.js --map -- | no
run https://a.test/ main.js --map | no
run https://a.test/ main.js --workers | no
run https://a.test/ main.js --map --trace | no
run https://a.test/ main.js --map=-x | https://a.test/main.js https://a.test/-x 4 - -
run https://a.test/ main.js --map=a=b | https://a.test/main.js https://a.test/a=b 4 - -
run https://a.test/ main.js --map= | no
run https://a.test/ main.js --workers= | no
run https://a.test/ main.js --map= m.json | no
run --map  https://a.test/ main.js | no
run https://a.test/ main.js --trace= | no
run https://a.test/ main.js --trace=yes | no
run https://a.test/ main.js --record= | no
run https://a.test/ main.js --trac | no
run https://a.test/ main.js --traces | no
run https://a.test/ main.js -trace | no
run https://a.test/ main.js --Trace | no
run https://a.test/ main.js -t | no
run https://a.test/ main.js --w 2 | no
run https://a.test/ main.js --worker=2 | no
run https://a.test/ main.js --mapm.json | no
run https://a.test/ main.js --=x | no
run https://a.test/ main.js --help | no
gen 1 3 | no
run --help | no
run https://a.test/ -- main.js | https://a.test/main.js - 4 - -
run --trace https://a.test/ -- main.js | https://a.test/main.js - 4 trace -
run -- https://a.test/ main.js | https://a.test/main.js - 4 - -
run https://a.test/ main.js -- | https://a.test/main.js - 4 - -
run https://a.test/ main.js -- --trace | no
run https://a.test/ -- --trace | https://a.test/--trace - 4 - -
run https://a.test/ -- -- | https://a.test/-- - 4 - -
run -- https://a.test/ --map | https://a.test/--map - 4 - -
run https://a.test/ --  | no
run https://a.test/ - | https://a.test/- - 4 - -
run https://a.test/ -x | no
run https://a.test/ -- -x | https://a.test/-x - 4 - -
run - main.js | no";

// Numbers of workers, over four sources and over twenty.
const WORKERS: &str = "\
run https://a.test/ main.js --workers 1 | https://a.test/main.js - 1 - -
run https://a.test/ main.js --workers 4 | https://a.test/main.js - 4 - -
run https://a.test/ main.js --workers 5 | no
run https://a.test/ main.js --workers 0 | no
run https://a.test/ main.js --workers 00 | no
run https://a.test/ main.js --workers 04 | no
run https://a.test/ main.js --workers=+1 | no
run https://a.test/ main.js --workers=-1 | no
run https://a.test/ main.js --workers 1.0 | no
run https://a.test/ main.js --workers 1x | no
run https://a.test/ main.js --workers x1 | no
run https://a.test/ main.js --workers ２ | no
run https://a.test/ main.js --workers 18446744073709551617 | no";

const MORE_WORKERS: &str = "\
run https://a.test/ main.js | https://a.test/main.js - 4 - -
run https://a.test/ main.js --workers 9 | https://a.test/main.js - 9 - -
run https://a.test/ main.js --workers 10 | https://a.test/main.js - 10 - -
run https://a.test/ main.js --workers=16 | https://a.test/main.js - 16 - -
run https://a.test/ main.js --workers=17 | no
run https://a.test/ main.js --workers 20 | no
run https://a.test/ main.js --workers=016 | no";

// Over one source.
const ONE: &str = "run https://a.test/ main.js | https://a.test/main.js - 1 - -";

// URLs.
const URLS: &str = "\
run a.test main.js | no
run /a/ main.js | no
run https://a.test main.js | https://a.test/main.js - 4 - -
run https://a.test/x/y.html ../main.js | https://a.test/main.js - 4 - -
run https://a.test/ https://b.test/m.js | https://b.test/m.js - 4 - -
run https://a.test/ main.js#1 | https://a.test/main.js#1 - 4 - -
run https://a.test/ https://:x/ | no
run https://a.test/ main.js --map https://:x/ | no
run data:text/x main.js | no
run https://a.test/ main.js --map https://b.test/m.json | https://a.test/main.js https://b.test/m.json 4 - -";

// Generated input.
const GENERATED: &str = "\
gen 1 3 | 1 3 1
gen 1 3 --workers 4 | 1 3 4
gen --workers=16 1 3 | 1 3 16
gen 1 --workers 2 3 | 1 3 2
gen -- 1 3 | 1 3 1
gen 2147483647 4096 | 2147483647 4096 1
gen 2147483648 1 | no
gen 1 4097 | no
gen 0 3 | no
gen 1 0 | no
gen 01 3 | no
gen 1 03 | no
gen 1 | no
gen | no
gen 1 3 5 | no
gen 1 3 --workers 17 | no
gen 1 3 --workers 0 | no
gen 1 3 --workers 2 --workers 2 | no
gen 1 3 --trace | no
gen 1 3 --record | no
gen 1 3 --map m.json | no
gen -1 3 | no
gen 1  3 | no
run 1 3 | no
run https://a.test/ main.js | no";

// The words between spaces; two spaces are an empty word.
fn words_of(alloc: Global, row: &str) -> Result<Vec<String>, AllocError> {
    let mut words = Vec::new(alloc);
    for word in row.split(' ') {
        words.push(String::from_str(alloc, word)?)?;
    }
    Ok(words)
}

fn flag(is_there: bool, name: &'static str) -> &'static str {
    if is_there { name } else { "-" }
}

fn map_text(map: &Option<Text>) -> &str {
    match map {
        Some(url) => url.as_str(),
        None => "-",
    }
}

fn shown(alloc: Global, found: Option<Command>) -> Result<String, AllocError> {
    match found {
        Some(command) => {
            let entry = command.entry.as_str();
            let map = map_text(&command.map);
            let workers = command.workers;
            let trace = flag(command.trace, "trace");
            let recorded = flag(command.recorded, "record");
            format!(in alloc; "{entry} {map} {workers} {trace} {recorded}")
        }
        None => String::from_str(alloc, "no"),
    }
}

fn generated(alloc: Global, found: Option<Generation>) -> Result<String, AllocError> {
    match found {
        Some(generation) => {
            let start = generation.start;
            let count = generation.count;
            let workers = generation.workers;
            format!(in alloc; "{start} {count} {workers}")
        }
        None => String::from_str(alloc, "no"),
    }
}

// Each table, over how many sources its words are read, and how many rows it has.
const TABLES: &[(&str, usize, usize)] = &[
    (ORDERS, 4, 28),
    (VALUES, 4, 39),
    (WORKERS, 4, 13),
    (MORE_WORKERS, 20, 7),
    (ONE, 1, 1),
    (URLS, 4, 10),
];

// Whether the words of a row say over so many sources what the row says.
fn is_said(alloc: Global, row: &str, many: usize) -> Result<bool, Memory> {
    let Some((words, wanted)) = row.split_once(" | ") else {
        return Ok(false);
    };
    let words = words_of(alloc, words)?;
    let found = shown(alloc, read_words(alloc, &words, many)?)?;
    Ok(found.as_str() == wanted)
}

// The first row of a table whose words say something else over so many sources, if there is one.
fn wrong_row(
    alloc: Global,
    table: &'static str,
    many: usize,
) -> Result<Option<&'static str>, Memory> {
    for row in table.lines() {
        if !is_said(alloc, row, many)? {
            return Ok(Some(row));
        }
    }
    Ok(None)
}

// The first row of all tables, or a table with another number of rows.
fn wrong_words(alloc: Global) -> Result<Option<&'static str>, Memory> {
    for (table, many, rows) in TABLES {
        if table.lines().count() != *rows {
            return Ok(Some(*table));
        }
        if let Some(row) = wrong_row(alloc, table, *many)? {
            return Ok(Some(row));
        }
    }
    Ok(None)
}

// Whether the words of a row ask for the generated input that the row says.
fn is_generated(alloc: Global, row: &str) -> Result<bool, Memory> {
    let Some((words, wanted)) = row.split_once(" | ") else {
        return Ok(false);
    };
    let words = words_of(alloc, words)?;
    let found = generated(alloc, read_generation(alloc, &words)?)?;
    Ok(found.as_str() == wanted)
}

// The first row of `GENERATED` whose words ask for something else, if there is one.
fn wrong_generation(alloc: Global) -> Result<Option<&'static str>, Memory> {
    for row in GENERATED.lines() {
        if !is_generated(alloc, row)? {
            return Ok(Some(row));
        }
    }
    Ok(None)
}

// Whether these words are neither command.
fn are_none(alloc: Global, words: &Vec<String>) -> Result<bool, Memory> {
    Ok(read_words(alloc, words, 4)?.is_none() && read_generation(alloc, words)?.is_none())
}

// The words `run`, BASE and this path as ENTRY.
fn words_with(alloc: Global, path: String) -> Result<Vec<String>, AllocError> {
    let mut words = words_of(alloc, "run https://a.test/")?;
    words.push(path)?;
    Ok(words)
}

// Whether so many bytes below BASE may be ENTRY.
fn fits(alloc: Global, rest: usize) -> Result<bool, Memory> {
    let mut path = String::new(alloc);
    for _ in 0..rest {
        path.push('x')?;
    }
    let words = words_with(alloc, path)?;
    Ok(read_words(alloc, &words, 4)?.is_some())
}

// Words say what their rows say, and no words say nothing; the longest entry has 8,192 bytes.
#[test]
fn words_say_what_their_rows_say(rt: HostRuntime) -> Result<(), Memory> {
    let alloc = rt.alloc();
    assert_eq!(rt; wrong_words(alloc)?, None);
    assert_eq!(rt; wrong_generation(alloc)?, None);
    assert!(rt; GENERATED.lines().count() == 25);
    assert!(rt; are_none(alloc, &Vec::new(alloc))?);
    assert!(rt; fits(alloc, 8177)?);
    assert!(rt; !fits(alloc, 8178)?);
    Ok(())
}
