// How a run ends: its status, its text, and writing it.
ghost use Rattle.std.specs.Prelude.{◌≡◌, ◌≢◌, ◌<◌, ◌-◌, ◌^◌, ◌++◌, IfOk, IfSome, Some, is_some, true};
ghost use Rattle.esm_machine.specs.Machine.{state_of};
ghost use Rattle.esm_machine.specs.Represents.{ShownBy, ending_of};
ghost use Rattle.esm_base.specs.declared.status.Status.TheVariants as statuses;
ghost use Rattle.esm_run.specs.Written.{EndsAs, EndsWith, change_of, last_text};
ghost use Rattle.esm_run.specs.Inner.Endings.{EndsRun, IsEndingOf};

use esm_base::{Memory, Status, Text};
use esm_machine::Machine;
use esm_ports::{Sink, SinkEnd, put_all};

/// How a run ends, and what it writes.
#[derive(Drop)]
pub(crate) struct Ending {
    /// The status of the program.
    pub status: Status,
    /// What is to be written.
    pub text: Vec<u8>,
}

// The text with the last line and its line feed behind it; an empty line adds nothing.
fn with_last_line(text: Vec<u8>, line: &Text) -> Result<Vec<u8>, Memory>
    ensures { IfOk result (λ whole. whole.items ≡ text.items ++ last_text line.now) }
{
    let mut text = text;
    match line.as_str().as_bytes() {
        [] => Ok(text),
        bytes => {
            text.extend_from_slice(bytes)?;
            text.push(b'\n')?;
            Ok(text)
        }
    }
}

// The log behind what is written before it: in its own memory, where that is nothing.
fn with_front(front: Vec<u8>, log: Vec<u8>) -> Result<Vec<u8>, Memory>
    ensures { IfOk result (λ whole. whole.items ≡ front.items ++ log.items) }
{
    if front.is_empty() {
        return Ok(log);
    }
    let mut whole = front;
    whole.extend_from_slice(&log)?;
    Ok(whole)
}

// The status and the text of a machine's run that has ended. The text is the machine's log behind what is written before
// it, with the last line behind it.
fn ending_of_run(machine: Machine, front: Vec<u8>) -> Result<Ending, Memory>
    requires { is_some (ending_of (state_of machine)) ≡ true }
    ensures what { ShownBy (state_of machine) (λ what. IfOk result (IsEndingOf front.items what)) }
    ensures not_write_fault { IfOk result (λ e. e.status ≢ statuses.WriteFault) }
    ensures not_memory { IfOk result (λ e. e.status ≢ statuses.Memory) }
{
    let Some(status) = machine.end() else {
        unreachable!();
    };
    let last = machine.last_line()?;
    let log = with_front(front, machine.into_log())?;
    let text = with_last_line(log, &last)?;
    Ok(Ending { status, text })
}

/// Writes the text, and gives the status that this comes to.
pub(crate) fn finish<K: Sink>(out: &mut K, wanted: Status, text: &[u8]) -> Status
    requires room { K.faults out.old < 2 ^ 64 - 1 }
    requires not_write_fault { wanted ≢ statuses.WriteFault }
    requires not_memory { wanted ≢ statuses.Memory }
    ensures { EndsWith (Some wanted) text.now result
        (change_of K.written K.faults out.old out.new) }
{
    match put_all(out, text) {
        Ok(()) => wanted,
        Err(SinkEnd::Failed) => Status::WriteFault,
        Err(SinkEnd::Memory) => Status::Memory,
    }
}

// Writes the text of a machine's run that has ended, and gives the status that this comes to.
fn write_ending<K: Sink>(machine: Machine, front: Vec<u8>, out: &mut K) -> Status
    requires ended { is_some (ending_of (state_of machine)) ≡ true }
    requires room { K.faults out.old < 2 ^ 64 - 1 }
    ensures { ShownBy (state_of machine)
        (EndsAs result (change_of K.written K.faults out.old out.new) front.items) }
{
    let Ok(ending) = ending_of_run(machine, front) else {
        return Status::Memory;
    };
    finish(out, ending.status, &ending.text)
}

/// Ends a run: the text of the machine's run is written, behind what comes before it; nothing is where memory ran out and
/// there is none.
pub(crate) fn end_run<K: Sink>(machine: Option<Machine>, front: Vec<u8>, out: &mut K) -> Status
    requires ended { IfSome machine (λ m. is_some (ending_of (state_of m)) ≡ true) }
    requires room { K.faults out.old < 2 ^ 64 - 1 }
    ensures { EndsRun machine front.items result (change_of K.written K.faults out.old out.new) }
{
    match machine {
        Some(machine) => write_ending(machine, front, out),
        None => Status::Memory,
    }
}
