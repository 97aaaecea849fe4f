// Texts and sites that reach a limit, and those that just don't.
use crate::running::{counted, push_times, text_ends_so};
use esm_base::{Memory, Text};
use esm_site_runs::ends_so;
use esm_sites::{
    COMMAND, ENTRY, RowCheck, Told, Wanted, add_named, ending, files, has_lines, holds, rows_hold,
    site, wanted_of,
};
use std::alloc::Global;
use std::marker::Sync;
use std::sync::Wait;
use std::thread::Threads;

// Functions of which each calls the one before it twice, and calls of them: a statement that calls the function with the
// number k takes 2^(k+2) - 2 steps, so these take a million. Behind them stands this text.
fn million_steps(alloc: Global, behind: &str) -> Result<String, Memory> {
    let mut text = String::from_str(alloc, "function a0() {} ")?;
    for j in 0..17u64 {
        let k = j + 1;
        let function = format!(in alloc; "function a{k}() {{ a{j}(); a{j}(); }} ")?;
        text.push_str(function.as_str())?;
    }
    text.push_str("a17(); a16(); a15(); a14(); a12(); a7(); a4(); a2();")?;
    text.push_str(behind)?;
    Ok(text)
}

// A body that prints a text of 65,536 characters so many times.
fn long_prints(alloc: Global, many: u64) -> Result<String, Memory> {
    let mut text = String::from_str(alloc, "let t = \"x\";")?;
    push_times(&mut text, 16, "t = t + t;")?;
    push_times(&mut text, many, "print(t);")?;
    Ok(text)
}

// What so many of these prints write: 255 of them 16,711,935 bytes. One more would make 16,777,472, of which 16,777,216 are
// allowed.
fn long_lines(alloc: Global, many: u64) -> Result<String, Memory> {
    let mut line = String::new(alloc);
    push_times(&mut line, 65_536, "x")?;
    line.push_str("\n")?;
    let mut lines = String::new(alloc);
    push_times(&mut lines, many, line.as_str())?;
    Ok(lines)
}

// A module of so many spaces.
fn spaces(alloc: Global, many: u64) -> Result<String, Memory> {
    let mut text = String::new(alloc);
    push_times(&mut text, many, " ")?;
    Ok(text)
}

// An entry that imports so many files of 1,048,576 spaces.
fn wide_site(alloc: Global, many: u64) -> Result<Vec<(Text, Vec<u8>)>, Memory> {
    let body = spaces(alloc, 1_048_576)?;
    let mut files = Vec::new(alloc);
    let mut main = String::new(alloc);
    for i in 0..many {
        let line = format!(in alloc; "import \"./s{i}.js\";")?;
        main.push_str(line.as_str())?;
        let name = format!(in alloc; "s{i}.js")?;
        add_named(alloc, &mut files, name.as_str(), body.as_str())?;
    }
    add_named(alloc, &mut files, "main.js", main.as_str())?;
    Ok(files)
}

// An entry that calls `import()` of an empty file so many times.
fn many_calls(alloc: Global, many: u64) -> Result<Vec<(Text, Vec<u8>)>, Memory> {
    let mut text = String::new(alloc);
    push_times(&mut text, many, "import(\"./a.js\");")?;
    site(alloc, &[("main.js", text.as_str()), ("a.js", "")])
}

// An entry with this text.
fn entry(alloc: Global, text: Result<String, Memory>) -> Result<Vec<(Text, Vec<u8>)>, Memory> {
    match text {
        Ok(text) => files(alloc, ENTRY, Some(text.as_str().as_bytes())),
        Err(Memory) => Err(Memory),
    }
}

// Sites and how their runs end, with an empty line between them. Below its name stands what a site has: an entry that takes a
// million steps, and behind them a text; or so many prints of 65,536 characters; or so many spaces; or imports of so many
// files of 1,048,576 spaces; or so many calls of `import()`. Then comes how many lines of 65,536 characters are written, and
// then the status, and what is written behind them.
const SITES: &str = "\
== a million steps
steps
0
>> Fulfilled

== a million steps, and one more
steps ;
0
>> Limit
Limit L3

== the longest text
spaces 1048576
0
>> Fulfilled

== a text that is too long
spaces 1048577
0
>> EntryFailed
Uncaught SyntaxError: https://a.test/main.js: P6 too long

== as many calls of import() as there may be
calls 4096
0
>> Fulfilled

== one call more
calls 4097
0
>> Limit
Limit L4";

// Those that write 16 megabytes.
const LONG_LOGS: &str = "\
== as many lines as the log may have
prints 255
255
>> Fulfilled

== a line that would pass the limit of the log
prints 256
255
>> Limit
Limit L5";

// Those whose files have as many.
const LARGE_SITES: &str = "\
== fewer texts than have 16,777,216 bytes together
wide 15
0
>> Fulfilled

== texts that have more
wide 16
0
>> Limit
Limit L2";

// The files of a site: the word that says what it has, and a number or a text.
fn files_of(alloc: Global, word: &str, rest: &str) -> Result<Vec<(Text, Vec<u8>)>, Memory> {
    let (many, _) = counted(rest);
    if word == "steps" {
        return entry(alloc, million_steps(alloc, rest));
    }
    if word == "prints" {
        return entry(alloc, long_prints(alloc, many));
    }
    if word == "spaces" {
        return entry(alloc, spaces(alloc, many));
    }
    if word == "wide" {
        return wide_site(alloc, many);
    }
    many_calls(alloc, many)
}

// What a run comes to: its status, and on the lines below so many long lines and those that are named.
fn ending_of(alloc: Global, long: u64, end: Wanted<'_>) -> Result<String, Memory> {
    let lines = long_lines(alloc, long)?;
    let mut text = String::new(alloc);
    text.push_str(end.status)?;
    text.push_str("\n")?;
    text.push_str(lines.as_str())?;
    if let Some(named) = end.lines {
        text.push_str(named)?;
        text.push_str("\n")?;
    }
    Ok(text)
}

// Checks that the run of a site ends as it says.
struct LimitCheck;

impl RowCheck for LimitCheck {
    fn is_so<R: Threads + Wait + Sync>(
        &self,
        rt: &R,
        alloc: Global,
        row: &str,
    ) -> Result<bool, Memory> {
        let (long, _) = counted(row.lines().nth(2).unwrap_or(""));
        let text = ending_of(alloc, long, wanted_of(row))?;
        let wanted = ending(text.as_str().strip_suffix('\n').unwrap_or(""));
        let what = row.lines().nth(1).unwrap_or("");
        let (word, rest) = what.split_once(' ').unwrap_or((what, ""));
        match files_of(alloc, word, rest) {
            Ok(files) => ends_so(rt, alloc, COMMAND, files, wanted),
            Err(Memory) => Err(Memory),
        }
    }
}

#[test]
fn limits_are_reached_and_not_passed(rt: HostRuntime) -> Told {
    rows_hold(&rt, rt.alloc(), &LimitCheck, SITES)
}

#[test]
fn limits_of_lines_are_reached_and_not_passed(rt: HostRuntime) -> Told {
    rows_hold(&rt, rt.alloc(), &LimitCheck, LONG_LOGS)
}

#[test]
fn limits_of_bytes_are_reached_and_not_passed(rt: HostRuntime) -> Told {
    rows_hold(&rt, rt.alloc(), &LimitCheck, LARGE_SITES)
}

// A text that is no UTF-8.
fn is_byte_refused<R: Threads + Wait + Sync>(rt: &R, alloc: Global) -> Result<bool, Memory> {
    let end = "EntryFailed\nUncaught SyntaxError: https://a.test/main.js: P1 not UTF-8";
    match files(alloc, ENTRY, Some(b"\xff")) {
        Ok(files) => ends_so(rt, alloc, COMMAND, files, ending(end)),
        Err(Memory) => Err(Memory),
    }
}

// Texts that are cut short.
const CUT_SHORT: &str = r#"{
{{
{{{
{{{"
{{{"a
{{{"a"
{{{"a"}
{{{"a"}}"#;

// Checks that a text is no module.
struct RefusalCheck;

impl RowCheck for RefusalCheck {
    fn is_so<R: Threads + Wait + Sync>(
        &self,
        rt: &R,
        alloc: Global,
        row: &str,
    ) -> Result<bool, Memory> {
        let end = "EntryFailed\nUncaught SyntaxError: https://a.test/main.js: P2 no module text";
        text_ends_so(rt, alloc, row, ending(end))
    }
}

#[test]
fn texts_that_are_no_modules_are_refused(rt: HostRuntime) -> Told {
    let alloc = rt.alloc();
    holds(is_byte_refused(&rt, alloc), "a byte that is no text")
        .and(rows_hold(&rt, alloc, &RefusalCheck, CUT_SHORT))
        .and(has_lines(CUT_SHORT, 8))
}
