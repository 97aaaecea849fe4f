//! What a server or a test runner wants: the run of an entry over fetches of its own.
ghost use Rattle.std.specs.Prelude.{◌≡◌, ◌+◌, [], true, false, IfOk, OnOk, length};
ghost use Rattle.esm_ast.specs.Outcome.{outcome_view};
ghost use Rattle.esm_base.specs.Urls.{Url, is_usable};
ghost use Rattle.esm_import_map.specs.ImportMap.{Maps};
ghost use Rattle.esm_machine.specs.Machine.{state_of};
ghost use Rattle.esm_machine.specs.Represents.{Represents, RepresentsOn};
ghost use Rattle.esm_examples.specs.Fetches.{Files, ComesFrom, IsRunOver};
ghost use Rattle.esm_examples.specs.Inner.Driving.{IsOpen, IsNext, IsDriven};

use esm_ast::{BrokenText, Outcome};
use esm_base::{Memory, ReadEnd, Status, Text, TextMap};
use esm_import_map::ImportMap;
use esm_machine::{Machine, TurnEnd};
use esm_script::read_script;
use esm_world::laws;
use std::alloc::Global;
use std::sync::Arc;

/// What came of a run.
#[derive(Drop)]
pub struct Ran {
    /// What the bodies printed.
    pub log: Vec<u8>,
    /// How it ended.
    pub status: Status,
    /// The last line, empty where the entry ran to its end.
    pub last_line: Text,
    /// The URLs that were fetched, in order, each once.
    pub fetched: Vec<Text>,
}

// What the fetch of a URL comes to. Here the files are held; a fetch of your own stands in its place.
fn fetch(alloc: Global, files: &TextMap<Vec<u8>>, url: &Text) -> Result<Outcome, Memory>
    ensures { IfOk result (λ o. ComesFrom files.now url.now (outcome_view o)) }
{
    let Some(body) = files.get(url.as_str()) else {
        return Ok(Outcome::Absent);
    };
    match read_script(alloc, Vec::from_slice(alloc, body.as_slice())?) {
        Ok(script) => Ok(Outcome::Script(Arc::new(alloc, script)?)),
        Err((ReadEnd::Fault(fault), bytes)) => Ok(Outcome::Broken(BrokenText::new(
            alloc, fault, bytes,
        )?)),
        Err((ReadEnd::Memory, _)) => Err(Memory),
    }
}

// The oldest open ask, if there is one.
fn next_ask(machine: &Machine) -> Result<Option<Text>, Memory>
    ensures { IfOk result (IsNext (state_of machine.now)) }
{
    match machine.asks() {
        [] => Ok(None),
        [url, ..] => Ok(Some(url.clone()?)),
    }
}

// Delivers what came of a fetch. Where a limit stops the machine it asks for nothing more.
fn hand_over(machine: &mut Machine, url: &Text, outcome: &Outcome) -> Result<(), Memory>
    requires { IsOpen (state_of machine.old) url.now }
    ensures { OnOk result
        (RepresentsOn (state_of machine.old) url.now (outcome_view outcome.now) (state_of machine.new)) }
{
    match machine.deliver(url, outcome) {
        Ok(()) => Ok(()),
        Err(TurnEnd::Fault(_limit)) => Ok(()),
        Err(TurnEnd::Memory) => Err(Memory),
    }
}

// One turn: fetches an open ask, and delivers what came.
fn take_turn(
    alloc: Global,
    files: &TextMap<Vec<u8>>,
    machine: &mut Machine,
    url: Text,
    fetched: &mut Vec<Text>,
) -> Result<(), Memory>
    requires { IsOpen (state_of machine.old) url }
    ensures driven { (maps : Maps) (entry : Url)
        → IsDriven maps entry files.now (state_of machine.old) fetched.old.items
        → OnOk result (IsDriven maps entry files.now (state_of machine.new) fetched.new.items) }
    ensures more { OnOk result (length fetched.new.items ≡ length fetched.old.items + 1) }
{
    let outcome = fetch(alloc, files, &url)?;
    hand_over(machine, &url, &outcome)?;
    fetched.push(url)?;
    Ok(())
}

// What came of a run that asks for nothing more.
fn ended(machine: Machine, fetched: Vec<Text>) -> Result<Ran, Memory>
    ensures { (maps : Maps) (entry : Url) (files : Files)
        → IsDriven maps entry files (state_of machine) fetched.items
        → IfOk result (IsRunOver maps entry files) }
{
    laws::has_standard_run();
    let Some(status) = machine.end() else {
        return Err(Memory);
    };
    let last_line = machine.last_line()?;
    let log = machine.into_log();
    Ok(Ran {
        log,
        status,
        last_line,
        fetched,
    })
}

// A machine under this import map that has asked for the entry.
fn new_machine(alloc: Global, map: ImportMap, entry: &Text) -> Result<Machine, Memory>
    requires { is_usable entry.now ≡ true }
    ensures { IfOk result (λ m. Represents map entry.now false (state_of m) []) }
{
    let map = Arc::new(alloc, map)?;
    Machine::new(alloc, map, entry.clone()?, false)
}

/// Runs the entry, whose URL may name a module, over these files under an import map. The answer is what the standard
/// run shows over the fetches that were made, each of which came to what the files have.
pub fn run_over(
    alloc: Global,
    files: &TextMap<Vec<u8>>,
    map: ImportMap,
    entry: &Text,
) -> Result<Ran, Memory>
    requires { is_usable entry.now ≡ true }
    ensures { IfOk result (IsRunOver map entry.now files.now) }
{
    laws::deliveries();
    laws::has_standard_run();
    let mut machine = new_machine(alloc, map, entry)?;
    let mut fetched = Vec::new(alloc);
    loop {
        let found = next_ask(&machine)?;
        let Some(url) = found else {
            return ended(machine, fetched);
        };
        take_turn(alloc, files, &mut machine, url, &mut fetched)?;
    }
}
