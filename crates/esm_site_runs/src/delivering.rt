// Deliveries to a machine of what a run took.
ghost use Rattle.esm_machine.specs.Machine.{state_of};
ghost use Rattle.esm_machine.specs.Represents.{MayTake};

use esm_ast::Outcome;
use esm_base::{Memory, Text};
use esm_machine::{Machine, TurnEnd};
use esm_run::Delivery;

// The outcome that a run took at this URL, if it took one.
fn outcome_at<'a>(taken: &'a [Delivery], url: &Text) -> Option<&'a Outcome> {
    for delivery in taken {
        if delivery.url.is(url.as_str()) {
            return Some(&delivery.outcome);
        }
    }
    None
}

/// Delivers one completed fetch. A limit that is reached stops the machine.
pub fn deliver(machine: &mut Machine, url: &Text, outcome: &Outcome) -> Result<(), Memory>
    requires { MayTake (state_of machine.old) url.now }
{
    match machine.deliver(url, outcome) {
        Err(TurnEnd::Memory) => Err(Memory),
        _ => Ok(()),
    }
}

/// Delivers what a run took at this URL; nothing stands there where it took none.
pub fn deliver_taken(machine: &mut Machine, url: &Text, taken: &[Delivery]) -> Result<(), Memory>
    requires { MayTake (state_of machine.old) url.now }
{
    match outcome_at(taken, url) {
        Some(outcome) => deliver(machine, url, outcome),
        None => deliver(machine, url, &Outcome::Absent),
    }
}
