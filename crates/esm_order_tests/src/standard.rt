// The standard run of what a run took.
ghost use Rattle.std.specs.Prelude.{◌≡◌, true};
ghost use Rattle.esm_base.specs.Urls.{has};
ghost use Rattle.esm_machine.specs.Machine.{state_of};
ghost use Rattle.esm_machine.specs.Represents.{asks_of};

use crate::orders::new_machine;
use esm_ast::Outcome;
use esm_base::{Memory, Status, Text};
use esm_machine::{Machine, TurnEnd};
use esm_run::Delivery;
use std::alloc::Global;

/// How a run ends: its status, and all that it writes.
#[derive(Drop)]
pub struct RunEnd {
    /// The status.
    pub status: Status,
    /// What is written.
    pub text: Vec<u8>,
}

// Whether the machine has this open ask.
fn is_open(machine: &Machine, url: &Text) -> bool
    ensures { result ≡ has (asks_of (state_of machine.now)) url.now }
{
    machine.asks().iter().any(|ask| ask == url)
}

// Delivers one completed fetch. A limit that is reached stops the machine.
fn hand_over(machine: &mut Machine, url: &Text, outcome: &Outcome) -> Result<(), Memory>
    requires { has (asks_of (state_of machine.old)) url.now ≡ true }
{
    match machine.deliver(url, outcome) {
        Err(TurnEnd::Memory) => Err(Memory),
        _ => Ok(()),
    }
}

// Whether the delivery is allowed now; then it is delivered.
fn deliver(machine: &mut Machine, delivery: &Delivery) -> Result<bool, Memory> {
    if !is_open(machine, &delivery.url) {
        return Ok(false);
    }
    hand_over(machine, &delivery.url, &delivery.outcome)?;
    Ok(true)
}

// The deliveries in turn: false at the first that is no open ask then.
fn deliver_all(machine: &mut Machine, taken: &[Delivery]) -> Result<bool, Memory> {
    for delivery in taken {
        match deliver(machine, delivery) {
            Ok(true) => {}
            Ok(false) => return Ok(false),
            Err(Memory) => return Err(Memory),
        }
    }
    Ok(true)
}

// The status of a run that has ended, and its last line.
fn ended(machine: &Machine) -> Result<Option<(Status, Text)>, Memory> {
    let Some(status) = machine.end() else {
        return Ok(None);
    };
    match machine.last_line() {
        Ok(line) => Ok(Some((status, line))),
        Err(Memory) => Err(Memory),
    }
}

// How the run of these deliveries ends; none where one of them isn't open in its turn, or an ask is open behind them.
fn end_of(machine: &mut Machine, taken: &[Delivery]) -> Result<Option<(Status, Text)>, Memory> {
    match deliver_all(machine, taken) {
        Ok(true) => ended(machine),
        Ok(false) => Ok(None),
        Err(Memory) => Err(Memory),
    }
}

// What is written: the log, and the last line where it isn't empty.
fn written(log: Vec<u8>, last: &Text) -> Result<Vec<u8>, Memory> {
    let mut text = log;
    if !last.is("") {
        text.extend_from_slice(last.as_str().as_bytes())?;
        text.push(b'\n')?;
    }
    Ok(text)
}

/// How the standard run of these deliveries ends; none where one of them is no open ask in its turn, or an ask is open
/// behind them. The machine ends by giving its log away: a function that lets one go is proved at the cost of all its
/// parts, at each of its ends.
pub fn standard_end(alloc: Global, taken: &[Delivery]) -> Result<Option<RunEnd>, Memory> {
    let mut machine = new_machine(alloc)?;
    let end = end_of(&mut machine, taken);
    let log = machine.into_log();
    match end {
        Ok(Some((status, last))) => match written(log, &last) {
            Ok(text) => Ok(Some(RunEnd { status, text })),
            Err(Memory) => Err(Memory),
        },
        Ok(None) => Ok(None),
        Err(Memory) => Err(Memory),
    }
}
