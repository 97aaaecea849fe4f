// The machine, driven in every order in which fetches may end.
ghost use Rattle.std.specs.Prelude.{◌≡◌, IfOk, IfSome};
ghost use Rattle.esm_machine.specs.Machine.{state_of};
ghost use Rattle.esm_machine.specs.Represents.{MayTake};

use crate::dynamic::RACES;
use esm_base::{Memory, Status, Text};
use esm_import_map::ImportMap;
use esm_machine::Machine;
use esm_run::Delivery;
use esm_site_runs::{Judge, deliver_taken, site_judged};
use esm_sites::{
    RowCheck, Told, Wanted, ending, holds, is_wanted, rows_hold, title, told_of, wanted_of,
};
use std::alloc::Global;
use std::marker::Sync;
use std::sync::{Arc, Wait};
use std::thread::Threads;

/// A machine under the empty import map that has asked for the entry.
pub fn new_machine(alloc: Global) -> Result<Machine, Memory> {
    let map = Arc::new(alloc, ImportMap::empty(alloc))?;
    Machine::new(
        alloc,
        map,
        Text::copy(alloc, "https://a.test/main.js")?,
        false,
    )
}

// Which of the open asks is delivered at a turn.
#[derive(Drop)]
struct Choice {
    place: usize,
    open: usize,
}

// Ends a machine. It gives its log away: a function that lets one go is proved at the cost of all its parts.
fn close(machine: Machine) {
    let _log = machine.into_log();
}

// The open ask at a place, if there is one.
fn ask_at(machine: &Machine, place: usize) -> Result<Option<Text>, Memory>
    ensures { IfOk result (λ found. IfSome found (MayTake (state_of machine.now))) }
{
    let asks = machine.asks();
    if place >= asks.len() {
        return Ok(None);
    }
    Ok(Some(asks[place].clone()?))
}

// Delivers the open ask at a place. `false` where there is none.
fn deliver_at(machine: &mut Machine, place: usize, taken: &[Delivery]) -> Result<bool, Memory> {
    let Some(url) = ask_at(machine, place)? else {
        return Ok(false);
    };
    deliver_taken(machine, &url, taken)?;
    Ok(true)
}

// Delivers by these choices, and behind them the first open ask again and again, noting that as choices.
fn drive(
    machine: &mut Machine,
    choices: &mut Vec<Choice>,
    taken: &[Delivery],
) -> Result<(), Memory> {
    for turn in 0..64 {
        let open = machine.asks().len();
        if turn >= choices.len() {
            choices.push(Choice { place: 0, open })?;
        }
        let place = match choices.get(turn) {
            Some(choice) => choice.place,
            None => 0,
        };
        if !deliver_at(machine, place, taken)? {
            return Ok(());
        }
    }
    Ok(())
}

// Turns to the next choices: the last that can be another is. `false` where there are none.
fn next_choices(choices: &mut Vec<Choice>) -> Result<bool, Memory> {
    while let Some(choice) = choices.pop() {
        if choice.place < choice.open && choice.place + 1 < choice.open {
            choices.push(Choice {
                place: choice.place + 1,
                open: choice.open,
            })?;
            return Ok(true);
        }
    }
    Ok(false)
}

// The status and the text of a run that has ended.
fn ended(alloc: Global, machine: &Machine) -> Result<Option<(Status, Vec<u8>)>, Memory> {
    let Some(status) = machine.end() else {
        return Ok(None);
    };
    let mut text = Vec::from_slice(alloc, machine.log())?;
    let last = machine.last_line()?;
    if !last.is("") {
        text.extend_from_slice(last.as_str().as_bytes())?;
        text.push(b'\n')?;
    }
    Ok(Some((status, text)))
}

// Whether a run has ended so.
fn has_ended(alloc: Global, machine: &Machine, wanted: Wanted<'_>) -> Result<bool, Memory> {
    match ended(alloc, machine)? {
        Some((status, text)) => Ok(is_wanted(wanted, status, text.as_slice())),
        None => Ok(false),
    }
}

// Whether the run of this machine by these choices ends so.
fn is_driven_so(
    alloc: Global,
    machine: &mut Machine,
    wanted: Wanted<'_>,
    choices: &mut Vec<Choice>,
    taken: &[Delivery],
) -> Result<bool, Memory> {
    drive(machine, choices, taken)?;
    has_ended(alloc, machine, wanted)
}

// Whether a run by these choices ends so.
fn ends_so(
    alloc: Global,
    wanted: Wanted<'_>,
    choices: &mut Vec<Choice>,
    taken: &[Delivery],
) -> Result<bool, Memory> {
    let mut machine = new_machine(alloc)?;
    let ends_so = is_driven_so(alloc, &mut machine, wanted, choices, taken);
    close(machine);
    ends_so
}

// In how many orders these deliveries can be made, if the run ends so in each of them.
fn count_orders(
    alloc: Global,
    wanted: Wanted<'_>,
    taken: &[Delivery],
    choices: &mut Vec<Choice>,
) -> Result<Option<u64>, Memory> {
    for order in 0..1000u64 {
        if !ends_so(alloc, wanted, choices, taken)? {
            return Ok(None);
        }
        if !next_choices(choices)? {
            return Ok(Some(order.wrapping_add(1)));
        }
    }
    Ok(None)
}

// In how many orders the fetches of sites can end: so many before this one, which is to end so in each.
#[derive(Drop)]
struct Orders<'a> {
    wanted: Wanted<'a>,
    count: u64,
}

impl<'a, S> Judge<S> for Orders<'a> {
    fn is_right(
        &mut self,
        alloc: Global,
        status: Status,
        written: &[u8],
        taken: &[Delivery],
        _desk: &S,
        _sources: &[S],
    ) -> Result<bool, Memory> {
        if !is_wanted(self.wanted, status, written) {
            return Ok(false);
        }
        let mut choices = Vec::new(alloc);
        match count_orders(alloc, self.wanted, taken, &mut choices) {
            Ok(Some(more)) => {
                self.count = self.count.wrapping_add(more);
                Ok(true)
            }
            Ok(None) => Ok(false),
            Err(Memory) => Err(Memory),
        }
    }
}

/// A table of sites, and in how many orders the fetches of all may end, together.
pub type Table = (&'static str, u64);

// Tells the first of the sites of a table that doesn't run as its text says in each of its orders, or another number of
// orders.
fn table_holds<R: Threads + Wait + Sync>(rt: &R, alloc: Global, table: &Table) -> Told {
    let mut told = Ok(());
    let mut count = 0u64;
    for site in table.0.split("\n\n== ") {
        let mut orders = Orders {
            wanted: wanted_of(site),
            count,
        };
        let found = site_judged(rt, alloc, site, &mut orders);
        told = told.and(holds(found, title(site)));
        count = orders.count;
    }
    told.and(holds(Ok(count == table.1), "the number of orders"))
}

/// The same of several tables.
pub fn orders_hold<R: Threads + Wait + Sync>(rt: &R, alloc: Global, tables: &[Table]) -> Told {
    let mut told = Ok(());
    for table in tables {
        told = told.and(table_holds(rt, alloc, table));
    }
    told
}

/// A site that writes another text where its fetches end in another order.
const UNORDERED: &str = r#"== two files that nothing else imports
-- main.js
import("./a.js"); import("./b.js");
-- a.js
print("A");
-- b.js
print("B");
>> Fulfilled
A
B"#;

/// A site that writes the same in its one order.
const ORDERED: &str = r#"== one file
-- main.js
print("A");
>> Fulfilled
A"#;

// Whether a site whose orders differ is found, and another number of orders, and nothing else.
fn wrong_are_found<R: Threads + Wait + Sync>(rt: &R, alloc: Global) -> bool {
    told_of(orders_hold(rt, alloc, &[(UNORDERED, 2)])) == "two files that nothing else imports"
        && told_of(orders_hold(rt, alloc, &[(ORDERED, 1)])) == "nothing"
        && told_of(orders_hold(rt, alloc, &[(ORDERED, 2)])) == "the number of orders"
}

#[test]
fn orders_that_differ_are_found(rt: HostRuntime) -> Told {
    holds(Ok(wrong_are_found(&rt, rt.alloc())), "orders that differ")
}

// Delivers the file of this name. `false` where it isn't asked for.
fn deliver_named(
    alloc: Global,
    machine: &mut Machine,
    name: &str,
    taken: &[Delivery],
) -> Result<bool, Memory> {
    let url = format!(in alloc; "https://a.test/{name}")?;
    match machine.asks().iter().position(|ask| ask.is(url.as_str())) {
        Some(place) => deliver_at(machine, place, taken),
        None => Ok(false),
    }
}

// How a run of a race is to end.
fn fulfilled(run: &str) -> Wanted<'_> {
    Wanted {
        status: "Fulfilled",
        lines: ending(run).lines,
    }
}

// Delivers the files that a run of a race names, in that order. Whether it ends as it says.
fn is_delivered_so(
    alloc: Global,
    machine: &mut Machine,
    run: &str,
    taken: &[Delivery],
) -> Result<bool, Memory> {
    for name in ending(run).status.split(' ') {
        if !deliver_named(alloc, machine, name, taken)? {
            return Ok(false);
        }
    }
    has_ended(alloc, machine, fulfilled(run))
}

// The same with a new machine.
fn runs_so(alloc: Global, run: &str, taken: &[Delivery]) -> Result<bool, Memory> {
    let mut machine = new_machine(alloc)?;
    let runs_so = is_delivered_so(alloc, &mut machine, run, taken);
    close(machine);
    runs_so
}

// Whether each run of a race ends as it says.
fn all_run_so(alloc: Global, race: &str, taken: &[Delivery]) -> Result<bool, Memory> {
    for run in race.split("\n>> ").skip(1) {
        if !runs_so(alloc, run, taken)? {
            return Ok(false);
        }
    }
    Ok(true)
}

// Whether a run by one worker came to what the first run of the race says.
fn is_in_order_of_asking(race: &str, status: Status, written: &[u8]) -> bool {
    match race.split("\n>> ").nth(1) {
        Some(run) => is_wanted(fulfilled(run), status, written),
        None => false,
    }
}

// Whether one worker delivers in the order of asking, and each run of a race ends as it says.
#[derive(Drop)]
struct Race<'a> {
    race: &'a str,
}

impl<'a, S> Judge<S> for Race<'a> {
    fn is_right(
        &mut self,
        alloc: Global,
        status: Status,
        written: &[u8],
        taken: &[Delivery],
        _desk: &S,
        _sources: &[S],
    ) -> Result<bool, Memory> {
        if is_in_order_of_asking(self.race, status, written) {
            all_run_so(alloc, self.race, taken)
        } else {
            Ok(false)
        }
    }
}

// Checks that a race runs as its text says.
struct RaceCheck;

impl RowCheck for RaceCheck {
    fn is_so<R: Threads + Wait + Sync>(
        &self,
        rt: &R,
        alloc: Global,
        row: &str,
    ) -> Result<bool, Memory> {
        site_judged(rt, alloc, row, &mut Race { race: row })
    }
}

// Delivers the first open ask, then the one at this place, and then the one that is left. Whether the run ends just then,
// and so.
fn ends_behind(
    alloc: Global,
    machine: &mut Machine,
    place: usize,
    wanted: Wanted<'_>,
    taken: &[Delivery],
) -> Result<bool, Memory> {
    let began = deliver_at(machine, 0, taken)?;
    let went_on = deliver_at(machine, place, taken)?;
    if !began || !went_on || machine.end().is_some() {
        return Ok(false);
    }
    let _ = deliver_at(machine, 0, taken)?;
    has_ended(alloc, machine, wanted)
}

// The same with a new machine, by the text of the ending.
fn fails_so(alloc: Global, place: usize, end: &str, taken: &[Delivery]) -> Result<bool, Memory> {
    let mut machine = new_machine(alloc)?;
    let fails_so = ends_behind(alloc, &mut machine, place, ending(end), taken);
    close(machine);
    fails_so
}

// Of two missing files the one that is delivered first is named.
fn first_is_named(alloc: Global, taken: &[Delivery]) -> Result<bool, Memory> {
    let a = "EntryFailed\nUncaught TypeError: cannot fetch https://a.test/a.js";
    let b = "EntryFailed\nUncaught TypeError: cannot fetch https://a.test/b.js";
    Ok(fails_so(alloc, 0, a, taken)? && fails_so(alloc, 1, b, taken)?)
}

const TWO_MISSING: &str =
    "== two missing files\n-- main.js\nimport \"./a.js\";import \"./b.js\";print(\"m\")";

// Whether it is.
#[derive(Drop)]
struct FirstNamed;

impl<S> Judge<S> for FirstNamed {
    fn is_right(
        &mut self,
        alloc: Global,
        _status: Status,
        _written: &[u8],
        taken: &[Delivery],
        _desk: &S,
        _sources: &[S],
    ) -> Result<bool, Memory> {
        first_is_named(alloc, taken)
    }
}

// Each race runs as its order says, and of two missing files the one that is delivered first is named.
#[test]
fn the_order_of_deliveries_decides(rt: HostRuntime) -> Told {
    let alloc = rt.alloc();
    let named = site_judged(&rt, alloc, TWO_MISSING, &mut FirstNamed);
    rows_hold(&rt, alloc, &RaceCheck, RACES).and(holds(named, "two missing files"))
}
