// The open asks of a machine, as fetches end in another order.
ghost use Rattle.std.specs.Prelude.{◌≡◌, IfOk, IfSome};
ghost use Rattle.esm_machine.specs.Machine.{state_of};
ghost use Rattle.esm_machine.specs.Represents.{MayTake};

use crate::site::{deliver_first, opened};
use esm_ast::Outcome;
use esm_base::{Memory, Status, Text};
use esm_machine::Machine;
use std::alloc::Global;

// An entry that imports twelve files.
const TWELVE: &str = "import './1.js'; import './2.js'; import './3.js'; import './4.js';
import './5.js'; import './6.js'; import './7.js'; import './8.js';
import './9.js'; import './10.js'; import './11.js'; import './12.js';";

// The open asks.
fn asked(alloc: Global, machine: &Machine) -> Result<Vec<Text>, Memory> {
    let mut urls = Vec::new(alloc);
    for url in machine.asks() {
        urls.push(url.clone()?)?;
    }
    Ok(urls)
}

// The open ask at a place, if there is one.
fn ask_at(machine: &Machine, place: usize) -> Result<Option<Text>, Memory>
    ensures { IfOk result (λ found. IfSome found (MayTake (state_of machine.now))) }
{
    let asks = machine.asks();
    if place >= asks.len() {
        return Ok(None);
    }
    Ok(Some(asks[place].clone()?))
}

// Nothing stands at the open ask at a place. `false` where there is none.
fn miss(machine: &mut Machine, place: usize) -> Result<bool, Memory> {
    match ask_at(machine, place) {
        Ok(Some(url)) => match machine.deliver(&url, &Outcome::Absent) {
            Ok(()) => Ok(true),
            Err(_end) => Err(Memory),
        },
        Ok(None) => Ok(false),
        Err(Memory) => Err(Memory),
    }
}

// Whether the others stay open in their order where the fetch of the ask at a place ends.
fn keeps_others(alloc: Global, machine: &mut Machine, place: usize) -> Result<bool, Memory> {
    let mut others = asked(alloc, machine)?;
    if place >= others.len() {
        return Ok(false);
    }
    others.remove(place);
    Ok(miss(machine, place)? && machine.asks() == others.as_slice())
}

// Whether this is so from the front, from the middle and from the back, until none is left and the run ends.
fn all_keep_others(alloc: Global, machine: &mut Machine) -> Result<bool, Memory> {
    for place in [0, 0, 5, 8, 2, 3, 1, 0, 2, 0, 1, 0] {
        if !keeps_others(alloc, machine, place)? {
            return Ok(false);
        }
    }
    Ok(machine.asks().is_empty() && machine.end() == Some(Status::EntryFailed))
}

/// Whether all that a machine asks for ends so.
pub(crate) fn order_is_kept(alloc: Global) -> Result<bool, Memory> {
    let mut machine = opened(alloc)?;
    let kept = match deliver_first(alloc, &mut machine, TWELVE, 1) {
        Ok(true) => all_keep_others(alloc, &mut machine),
        Ok(false) => Ok(false),
        Err(Memory) => Err(Memory),
    };
    let _log = machine.into_log();
    kept
}
