// The machine, over a site: its modules are asked for and delivered, and their bodies run.
ghost use Rattle.std.specs.Prelude.{◌≡◌, None, IfOk, IfSome};
ghost use Rattle.esm_machine.specs.Machine.{state_of};
ghost use Rattle.esm_machine.specs.Represents.{MayTake};

use crate::asks::order_is_kept;
use crate::store::{MAIN, fetched};
use esm_base::{Memory, Status, Text};
use esm_import_map::ImportMap;
use esm_machine::Machine;
use std::alloc::Global;
use std::sync::Arc;

// The machine that asks for the entry.
pub(crate) fn opened(alloc: Global) -> Result<Machine, Memory>
    ensures { IfOk result (λ m. (state_of m).stopped ≡ None) }
{
    let import_map = Arc::new(alloc, ImportMap::empty(alloc))?;
    let entry = Text::copy(alloc, MAIN)?;
    Machine::new(alloc, import_map, entry, false)
}

// The first ask, if there is one.
fn first_ask(machine: &Machine) -> Result<Option<Text>, Memory>
    ensures { IfOk result (λ o. IfSome o (MayTake (state_of machine.now))) }
{
    match machine.asks() {
        [] => Ok(None),
        [url, ..] => Ok(Some(url.clone()?)),
    }
}

// The fetch of this open ask ends, and all that follows is done.
fn deliver(alloc: Global, machine: &mut Machine, main: &str, url: &Text) -> Result<(), Memory>
    requires { MayTake (state_of machine.old) url.now }
{
    match fetched(alloc, main, url) {
        Ok(outcome) => match machine.deliver(url, &outcome) {
            Ok(()) => Ok(()),
            Err(_end) => Err(Memory),
        },
        Err(Memory) => Err(Memory),
    }
}

// The fetches of so many asks end, each the first that is open then; false where none was.
pub(crate) fn deliver_first(
    alloc: Global,
    machine: &mut Machine,
    main: &str,
    count: u32,
) -> Result<bool, Memory> {
    for _delivery in 0..count {
        match first_ask(machine) {
            Ok(Some(url)) => match deliver(alloc, machine, main, &url) {
                Ok(()) => {}
                Err(Memory) => return Err(Memory),
            },
            Ok(None) => return Ok(false),
            Err(Memory) => return Err(Memory),
        }
    }
    Ok(true)
}

// What a machine comes to, whose entry has this text, after so many deliveries in order of asking.
struct Row {
    name: &'static str,
    main: &'static str,
    deliveries: u32,
    // The first open ask; empty where there is none.
    ask: &'static str,
    log: &'static str,
    end: Option<Status>,
    // Empty where the run hasn't ended too.
    last_line: &'static str,
}

// Is this the first open ask, or is there none?
fn has_ask(machine: &Machine, ask: &str) -> bool {
    match machine.asks() {
        [] => ask.is_empty(),
        [url, ..] => url.is(ask),
    }
}

// Is this the last line, where the run has ended?
fn has_last_line(machine: &Machine, line: &str) -> Result<bool, Memory> {
    let end = machine.end();
    if end.is_some() {
        match machine.last_line() {
            Ok(last) => Ok(last.is(line)),
            Err(Memory) => Err(Memory),
        }
    } else {
        Ok(line.is_empty())
    }
}

// What isn't as the row says; empty where all is.
fn unlike(machine: &Machine, row: &Row) -> Result<&'static str, Memory> {
    if machine.stopped().is_some() {
        Ok("it has stopped")
    } else if !has_ask(machine, row.ask) {
        Ok("the first ask")
    } else if machine.log() != row.log.as_bytes() {
        Ok("the log")
    } else if machine.end() != row.end {
        Ok("the end")
    } else if !has_last_line(machine, row.last_line)? {
        Ok("the last line")
    } else {
        Ok("")
    }
}

// The row's deliveries, and what then isn't as it says.
fn play(alloc: Global, machine: &mut Machine, row: &Row) -> Result<&'static str, Memory> {
    match deliver_first(alloc, machine, row.main, row.deliveries) {
        Ok(true) => unlike(machine, row),
        Ok(false) => Ok("nothing is asked"),
        Err(Memory) => Err(Memory),
    }
}

// What of the row's run isn't as it says. The machine ends by giving its log away: a function that lets one go is proved
// at the cost of all its parts, at each of its ends.
fn unlike_row(alloc: Global, row: &Row) -> Result<&'static str, Memory> {
    let mut machine = opened(alloc)?;
    let found = play(alloc, &mut machine, row);
    let log = machine.into_log();
    if log.as_slice() == row.log.as_bytes() {
        found
    } else {
        Ok("the log that is given away")
    }
}

// The first row that isn't as it says, if there is one, with what isn't.
fn first_wrong(
    alloc: Global,
    rows: &[Row],
) -> Result<Option<(&'static str, &'static str)>, Memory> {
    for row in rows {
        let found = unlike_row(alloc, row)?;
        if !found.is_empty() {
            return Ok(Some((row.name, found)));
        }
    }
    Ok(None)
}

// A body that imports what isn't there, and catches it.
const CATCHES: &str =
    "try { await import(\"./none.js\"); } catch (e) { print(e); } print(\"after\");";

const THROWS: &str = "print('a');\nthrow 'x';\n";

const ROWS: &[Row] = &[
    Row {
        name: "the entry is asked for first",
        main: THROWS,
        deliveries: 0,
        ask: MAIN,
        log: "",
        end: None,
        last_line: "",
    },
    Row {
        name: "an entry that prints runs: all is done when it is delivered",
        main: "print(\"hi\")",
        deliveries: 1,
        ask: "",
        log: "hi\n",
        end: Some(Status::Fulfilled),
        last_line: "",
    },
    Row {
        name: "a call of import() asks for its file",
        main: CATCHES,
        deliveries: 1,
        ask: "https://a.test/none.js",
        log: "",
        end: None,
        last_line: "",
    },
    Row {
        name: "what import() misses is caught",
        main: CATCHES,
        deliveries: 2,
        ask: "",
        log: "TypeError: cannot fetch https://a.test/none.js\nafter\n",
        end: Some(Status::Fulfilled),
        last_line: "",
    },
    Row {
        name: "a site of three modules runs: c.js awaits, so b.js and the entry wait for it",
        main: "import {b} from './b.js';\nprint(b);\n",
        deliveries: 3,
        ask: "",
        log: "b\n",
        end: Some(Status::Fulfilled),
        last_line: "",
    },
    // ECMA-262, 16.2.1.6.5, ExecuteModule: the body throws.
    Row {
        name: "an entry that throws fails",
        main: THROWS,
        deliveries: 1,
        ask: "",
        log: "a\n",
        end: Some(Status::EntryFailed),
        last_line: "Uncaught x",
    },
];

// Machines come to what rows say, and open asks keep their order.
#[test]
fn machines_come_to_what_rows_say(rt: HostRuntime) -> Result<(), Memory> {
    assert_eq!(rt; first_wrong(rt.alloc(), ROWS)?, None);
    assert!(rt; order_is_kept(rt.alloc())?);
    Ok(())
}
