// Jobs: what follows the settling of a promise.
ghost use Rattle.std.specs.Prelude.{◌≡◌, ◌<◌, ℕ, true, OnOk, IfOk, Ok, is_some};
ghost use Rattle.esm_loads.specs.Loading as loading;
ghost use Rattle.esm_promise.specs.Code.{reaction_of, settled_of};
ghost use Rattle.esm_promise.specs.Promises.{Fulfilled};
ghost use Rattle.esm_promise.specs.Reactions as reaction;
ghost use Rattle.esm_values.specs.Value as value;
ghost use Rattle.esm_world.specs.World.{World};
ghost use Rattle.esm_world.specs.Jobs.{Jobs};
ghost use Rattle.esm_machine.specs.Inner.Parts.{AreInOrder, AreLive, AreSound, MayDo, seen_in};
ghost use Rattle.esm_machine.specs.Machine.{entry_held, held_of};
ghost use Rattle.esm_machine.specs.Inner.Leads.{DoesJob, LeadsByJob, LeadsByJobs, LeadsFrom, MayTakeLoad, Registers, SettlesImport, TakesEntry, TakesLoad, entry_after};

use crate::TurnEnd;
use crate::host::{stop_end, turn_end};
use crate::linking::{Linked, link_and_evaluate};
use crate::parts::{EntryState, Parts};
use esm_base::{Memory, ModuleId};
use esm_eval::{fulfilled, rejected};
use esm_promise::{Reaction, ReactionKind, Settled};
use esm_values::{PromiseId, Value};

/// The reaction to an evaluation is registered on its promise.
fn then(parts: &mut Parts, promise: PromiseId, reaction: Reaction) -> Result<(), TurnEnd>
    ensures { Registers parts.old promise (reaction_of reaction) result parts.new }
{
    match parts.host.promises.then(promise, reaction) {
        Ok(()) => Ok(()),
        Err(Memory) => Err(TurnEnd::Memory),
    }
}

/// The end of the entry's evaluation is awaited; or the entry failed by a link fault.
fn take_entry(parts: &mut Parts, linked: Linked) -> Result<(), TurnEnd>
    ensures { TakesEntry parts.old linked result parts.new }
{
    match linked {
        Linked::Evaluates(promise) => {
            let kind = ReactionKind::EntryDone;
            then(parts, promise, Reaction { kind, subject: 0 })
        }
        Linked::Fault(value) => {
            parts.entry = EntryState::Failed(value);
            Ok(())
        }
    }
}

/// The entry is linked and evaluated.
fn begin_entry(parts: &mut Parts) -> Result<(), TurnEnd>
    requires may { (v : value.Value ℕ) × MayDo parts.old reaction.EntryLoaded (Fulfilled v) }
    ensures job { (v : value.Value ℕ)
        → DoesJob parts.old reaction.EntryLoaded (Fulfilled v) result parts.new }
    ensures order { OnOk result (AreInOrder parts.new) }
{
    match link_and_evaluate(parts, 0) {
        Ok(linked) => take_entry(parts, linked),
        Err(end) => Err(end),
    }
}

/// The entry's load has ended: the entry is linked and evaluated, or fails.
///
/// HTML, fetch the descendants of and link a module script, and run a module script.
fn entry_loaded(parts: &mut Parts, how: Settled) -> Result<(), TurnEnd>
    requires may { MayDo parts.old reaction.EntryLoaded (settled_of how) }
    ensures job { DoesJob parts.old reaction.EntryLoaded (settled_of how) result parts.new }
    ensures order { OnOk result (AreInOrder parts.new) }
{
    match how {
        Settled::Rejected(value) => {
            parts.entry = EntryState::Failed(value);
            Ok(())
        }
        Settled::Fulfilled(_value) => begin_entry(parts),
    }
}

/// How far the entry has come where its evaluation has ended.
fn ended_entry(how: Settled) -> EntryState
    ensures { entry_held result ≡ entry_after (settled_of how) }
{
    match how {
        Settled::Fulfilled(_value) => EntryState::Ended,
        Settled::Rejected(value) => EntryState::Failed(value),
    }
}

/// The entry's evaluation has ended.
fn entry_done(parts: &mut Parts, how: Settled)
    requires may { MayDo parts.old reaction.EntryDone (settled_of how) }
    ensures job { DoesJob parts.old reaction.EntryDone (settled_of how) (Ok tt) parts.new }
    ensures order { AreInOrder parts.new }
{
    parts.entry = ended_entry(how);
}

/// The promise of the `import()` that a load is for is settled.
fn settle_import(parts: &mut Parts, load: usize, how: Settled)
    requires { is_some (loading.import_promise (seen_in parts.old).loading load) ≡ true }
    ensures { SettlesImport parts.old load (settled_of how) parts.new }
{
    let Some(promise) = parts.host.bodies.imports.import_promise(load) else {
        unreachable!()
    };
    parts.host.promises.settle(promise, how);
}

/// The end of the evaluation is awaited; or a link fault rejects the promise of the `import()`.
fn take_load(parts: &mut Parts, load: usize, linked: Linked) -> Result<(), TurnEnd>
    requires { MayTakeLoad parts.old load linked }
    ensures { TakesLoad parts.old load linked result parts.new }
{
    match linked {
        Linked::Evaluates(promise) => {
            let kind = ReactionKind::Evaluated;
            let subject = load as u64;
            then(parts, promise, Reaction { kind, subject })
        }
        Linked::Fault(value) => {
            settle_import(parts, load, Settled::Rejected(value));
            Ok(())
        }
    }
}

/// The root of the load of an `import()` is linked and evaluated.
fn begin_load(parts: &mut Parts, load: usize) -> Result<(), TurnEnd>
    requires may { (v : value.Value ℕ) × MayDo parts.old (reaction.Loaded load) (Fulfilled v) }
    ensures job { (v : value.Value ℕ)
        → DoesJob parts.old (reaction.Loaded load) (Fulfilled v) result parts.new }
    ensures order { OnOk result (AreInOrder parts.new) }
{
    match link_and_evaluate(parts, load) {
        Ok(linked) => take_load(parts, load, linked),
        Err(end) => Err(end),
    }
}

/// The load of an `import()` has ended: its root is linked and evaluated, or the `import()` is rejected.
///
/// ECMA-262, ContinueDynamicImport.
fn loaded(parts: &mut Parts, load: usize, how: Settled) -> Result<(), TurnEnd>
    requires may { MayDo parts.old (reaction.Loaded load) (settled_of how) }
    ensures job { DoesJob parts.old (reaction.Loaded load) (settled_of how) result parts.new }
    ensures order { OnOk result (AreInOrder parts.new) }
{
    match how {
        Settled::Rejected(value) => {
            settle_import(parts, load, Settled::Rejected(value));
            Ok(())
        }
        Settled::Fulfilled(_value) => begin_load(parts, load),
    }
}

/// The root of the load of an `import()` was evaluated: its promise is fulfilled with the namespace, or rejected.
///
/// ECMA-262, ContinueDynamicImport.
fn evaluated(parts: &mut Parts, load: usize, how: Settled)
    requires may { MayDo parts.old (reaction.Evaluated load) (settled_of how) }
    ensures job { DoesJob parts.old (reaction.Evaluated load) (settled_of how) (Ok tt) parts.new }
    ensures order { AreInOrder parts.new }
{
    match how {
        Settled::Rejected(value) => settle_import(parts, load, Settled::Rejected(value)),
        Settled::Fulfilled(_value) => {
            let Some(root) = parts.host.bodies.imports.root_of_load(load) else {
                unreachable!()
            };
            settle_import(parts, load, Settled::Fulfilled(Value::Namespace(root)));
        }
    }
}

/// A body that awaits has ended normally: what waits for its module goes on.
///
/// ECMA-262, AsyncModuleExecutionFulfilled.
fn body_done(parts: &mut Parts, m: ModuleId) -> Result<(), TurnEnd>
    requires may { (v : value.Value ℕ) × MayDo parts.old (reaction.BodyEnd m.0) (Fulfilled v) }
    ensures job { (v : value.Value ℕ)
        → DoesJob parts.old (reaction.BodyEnd m.0) (Fulfilled v) result parts.new }
    ensures order { OnOk result (AreInOrder parts.new) }
{
    match fulfilled(&mut parts.host, m) {
        Ok(()) => Ok(()),
        Err(end) => Err(turn_end(end)),
    }
}

/// A body that awaits has ended: what waits for its module goes on, or fails.
///
/// ECMA-262, AsyncModuleExecutionFulfilled and AsyncModuleExecutionRejected.
fn body_ended(parts: &mut Parts, m: ModuleId, how: Settled) -> Result<(), TurnEnd>
    requires may { MayDo parts.old (reaction.BodyEnd m.0) (settled_of how) }
    ensures job { DoesJob parts.old (reaction.BodyEnd m.0) (settled_of how) result parts.new }
    ensures order { OnOk result (AreInOrder parts.new) }
{
    match how {
        Settled::Fulfilled(_value) => body_done(parts, m),
        Settled::Rejected(value) => match rejected(&mut parts.host, m, &value) {
            Ok(()) => Ok(()),
            Err(Memory) => Err(TurnEnd::Memory),
        },
    }
}

/// A body goes on behind its await.
///
/// ECMA-262, Await.
fn go_on(parts: &mut Parts, m: ModuleId, how: Settled) -> Result<(), TurnEnd>
    requires may { MayDo parts.old (reaction.Await m.0) (settled_of how) }
    ensures job { DoesJob parts.old (reaction.Await m.0) (settled_of how) result parts.new }
    ensures order { OnOk result (AreInOrder parts.new) }
{
    crate::laws::scopes_stay();
    let host = &mut parts.host;
    let bodies = &mut host.bodies;
    match bodies.engine.resume(
        &mut host.promises,
        &mut bodies.errors,
        &mut bodies.envs,
        &mut bodies.imports,
        m,
        how,
    ) {
        Ok(()) => Ok(()),
        Err(stop) => Err(stop_end(stop)),
    }
}

/// The job of a reaction, whose promise was settled so.
///
/// ECMA-262, NewPromiseReactionJob.
fn react(parts: &mut Parts, reaction: Reaction, how: Settled) -> Result<(), TurnEnd>
    requires may { MayDo parts.old (reaction_of reaction) (settled_of how) }
    ensures job { DoesJob parts.old (reaction_of reaction) (settled_of how) result parts.new }
    ensures order { OnOk result (AreInOrder parts.new) }
{
    let subject = reaction.subject;
    match reaction.kind {
        ReactionKind::EntryLoaded => entry_loaded(parts, how),
        ReactionKind::EntryDone => {
            entry_done(parts, how);
            Ok(())
        }
        ReactionKind::Loaded => loaded(parts, subject as usize, how),
        ReactionKind::Evaluated => {
            evaluated(parts, subject as usize, how);
            Ok(())
        }
        ReactionKind::BodyEnd => {
            let id = subject as u32;
            body_ended(parts, ModuleId(id), how)
        }
        ReactionKind::Await => {
            let id = subject as u32;
            go_on(parts, ModuleId(id), how)
        }
    }
}

/// A copy of what a promise was settled with.
fn copied(how: &Settled) -> Result<Settled, Memory>
    ensures { IfOk result (λ copy. settled_of copy ≡ settled_of how.now) }
{
    match how {
        Settled::Fulfilled(value) => Ok(Settled::Fulfilled(value.clone()?)),
        Settled::Rejected(value) => Ok(Settled::Rejected(value.clone()?)),
    }
}

/// Takes the first job and does it. False where none is left.
fn run_job(parts: &mut Parts) -> Result<bool, TurnEnd>
    requires sound { AreSound parts.old }
    ensures job { (w : World) → AreLive parts.old w → LeadsByJob w result parts.new }
    ensures sound { OnOk result (AreSound parts.new) }
{
    esm_world::fits::worlds_stay_sound();
    let Some((reaction, promise)) = parts.host.promises.pop() else {
        return Ok(false);
    };
    let Some(how) = parts.host.promises.settled(promise) else {
        unreachable!()
    };
    let Ok(how) = copied(how) else {
        return Err(TurnEnd::Memory);
    };
    match react(parts, reaction, how) {
        Ok(()) => Ok(true),
        Err(end) => Err(end),
    }
}

/// Runs jobs until one has taken a step. False where none is left.
fn run_to_step(parts: &mut Parts) -> Result<bool, TurnEnd>
    requires sound { AreSound parts.old }
    ensures jobs { (w : World) → AreLive parts.old w → LeadsByJobs w result parts.new }
    ensures sound { OnOk result (AreSound parts.new) }
    ensures rises { result ≡ Ok true
        → (held_of parts.old).engine.steps < (held_of parts.new).engine.steps }
{
    esm_world::laws::jobs_lower();
    let before = parts.host.bodies.engine.steps();
    while parts.host.bodies.engine.steps() == before {
        match run_job(parts) {
            Ok(true) => {}
            Ok(false) => return Ok(false),
            Err(end) => return Err(end),
        }
    }
    Ok(true)
}

/// Runs jobs, first in, first out, until none is left.
///
/// They come to an end, since no more than `MAX_STEPS` steps are taken, and between two steps there are fewer and fewer
/// reactions and bodies at an await. HTML, perform a microtask checkpoint.
pub(crate) fn run_jobs(parts: &mut Parts) -> Result<(), TurnEnd>
    requires sound { AreSound parts.old }
    ensures jobs { LeadsFrom parts.old Jobs result parts.new }
    ensures sound { OnOk result (AreSound parts.new) }
{
    loop {
        match run_to_step(parts) {
            Ok(true) => {}
            Ok(false) => return Ok(()),
            Err(end) => return Err(end),
        }
    }
}
