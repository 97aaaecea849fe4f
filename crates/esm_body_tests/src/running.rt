// Runs over one source, and whether they end as they are to.
use crate::{calls, names, values};
use esm_base::{Memory, Status};
use esm_site_runs::{RunsAsSaid, ends_so};
use esm_sites::{
    COMMAND, ENTRY, Told, Wanted, files, holds, is_wanted, rows_hold, tables_hold, told_of,
    wanted_of,
};
use std::alloc::Global;
use std::marker::Sync;
use std::sync::Wait;
use std::thread::Threads;

/// Whether a run over an entry with this text ends so.
pub fn text_ends_so<R: Threads + Wait + Sync>(
    rt: &R,
    alloc: Global,
    text: &str,
    wanted: Wanted<'_>,
) -> Result<bool, Memory> {
    match files(alloc, ENTRY, Some(text.as_bytes())) {
        Ok(files) => ends_so(rt, alloc, COMMAND, files, wanted),
        Err(Memory) => Err(Memory),
    }
}

/// Adds the same text so many times.
pub fn push_times(text: &mut String, many: u64, piece: &str) -> Result<(), Memory> {
    for _ in 0..many {
        text.push_str(piece)?;
    }
    Ok(())
}

// The number that these digits are.
fn number_of(digits: &str) -> u64 {
    let mut number = 0u64;
    for c in digits.chars() {
        let digit = c.to_digit(10).unwrap_or(0);
        number = number.saturating_mul(10).saturating_add(u64::from(digit));
    }
    number
}

/// The number that a line begins with, and what stands behind it.
pub fn counted(line: &str) -> (u64, &str) {
    let (digits, rest) = line.split_once(' ').unwrap_or((line, ""));
    (number_of(digits), rest)
}

#[test]
fn bodies_run(rt: HostRuntime) -> Told {
    let alloc = rt.alloc();
    tables_hold(&rt, alloc, &RunsAsSaid, values::TABLES)
        .and(tables_hold(&rt, alloc, &RunsAsSaid, names::TABLES))
        .and(tables_hold(&rt, alloc, &RunsAsSaid, calls::TABLES))
}

const RIGHT: &str = "== one print\n-- main.js\nprint(\"m\")\n>> Fulfilled\nm";

const WRONG_TEXT: &str = r#"== one print
-- main.js
print("m")
>> Fulfilled
m

== one print without its line
-- main.js
print("m")
>> Fulfilled"#;

const WRONG_STATUS: &str = r#"== one print that is to fail
-- main.js
print("m")
>> EntryFailed
m"#;

// Whether rows that run otherwise are found, and no others.
fn wrong_are_found<R: Threads + Wait + Sync>(rt: &R, alloc: Global) -> bool {
    told_of(rows_hold(rt, alloc, &RunsAsSaid, RIGHT)) == "nothing"
        && told_of(rows_hold(rt, alloc, &RunsAsSaid, WRONG_TEXT)) == "one print without its line"
        && told_of(tables_hold(rt, alloc, &RunsAsSaid, &[RIGHT, WRONG_STATUS]))
            == "one print that is to fail"
}

#[test]
fn rows_that_run_otherwise_are_found(rt: HostRuntime) -> Told {
    let short = is_wanted(wanted_of(RIGHT), Status::Fulfilled, b"m");
    holds(Ok(wrong_are_found(&rt, rt.alloc())), "rows that are wrong").and(holds(
        Ok(!short),
        "a text without its last line feed",
    ))
}
