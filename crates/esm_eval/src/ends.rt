// The end of a body that awaits, over single steps.
ghost use Rattle.std.specs.Prelude.{◌≡◌, ◌<◌, ◌≤◌, true, false, OnOk};
ghost use Rattle.esm_values.specs.Code.{value_of};
ghost use Rattle.esm_eval.specs.BodyEnd.{Rejects};
ghost use Rattle.esm_eval.specs.Begins.{First, HaveBegunOnce};
ghost use Rattle.esm_eval.specs.Calls.{FulfillsAs, numbered};
ghost use Rattle.esm_eval.specs.Inner.Ends.{BeginsOnly, GoesOn, IsEndOf};
ghost use Rattle.esm_eval.specs.EndSteps.{IsEvaluated, RanKnown, SameWaiters, Stays};

use crate::walk::EvalEnd;
use esm_base::{Memory, ModuleId};
use esm_values::{Ran, Value};

/// What the end of a body reads and writes, one step each. Modules are named by their ids.
pub trait Late: Drop {
    ghost use Rattle.std.specs.Prelude.{◌≡◌, ◌<◌, ◌≤◌, ℕ, Bool, true, false, Result, OnOk, IfOk, Some, length, slice_get};
    ghost use Rattle.esm_values.specs.Code.{CodeValue, value_of};
    ghost use Rattle.esm_eval.specs.Evaluation.{IsLawful, IsSteady, waiters as waiters_of};
    ghost use Rattle.esm_eval.specs.Begins.{BeginsOne};
    ghost use Rattle.esm_eval.specs.BodyEnd as end;
    ghost use Rattle.esm_eval.specs.Calls.{CodeCalls, CodeEvaluation, numbered};
    ghost use Rattle.esm_eval.specs.EndSteps.{EachIsLinked, Begins, IsEvaluated, IsFinished, RunFits, Runs, SameWaiters, Says, Stays};

    /// Why a call for a body stops.
    type Stop: Drop;

    /// What evaluation reads and writes.
    ghost lens: { CodeEvaluation Self };
    /// What a call for a body does.
    ghost acts: { CodeCalls Self Self.Stop };
    /// What is read is what was written last, and a write changes no other part.
    ghost lawful: { IsLawful (numbered lens) };
    /// A call for a body that isn't stopped begins it, and no call writes what evaluation writes.
    ghost steady: { IsSteady (numbered lens) acts };
    /// A call for a body begins no other.
    ghost begins_one: { BeginsOne (numbered lens) acts };
    /// How many modules aren't evaluated.
    ghost unfinished: { Self → ℕ };
    /// How many modules have a node.
    ghost size: { Self → ℕ };
    /// The modules that are linked.
    ghost linked: { Self → ℕ → Bool };
    /// What holds between two steps, so that each may be made.
    ghost fits: { Self → Type 0 };
    /// The values that are known.
    ghost knows: { Self → CodeValue → Type 0 };

    /// Whether the module is evaluated.
    fn is_evaluated(&self, x: u32) -> bool
        ensures { Says result (IsEvaluated lens self.now x) };

    /// Whether the body of the module awaits.
    fn awaits(&self, x: u32) -> bool
        requires { linked self.now x ≡ true }
        ensures { result ≡ lens.awaits self.now x };

    /// The module is done, with an error.
    fn refuse(&mut self, x: u32, v: &Value) -> Result<(), Memory>
        requires linked { linked self.old x ≡ true }
        requires unfinished { IsEvaluated lens self.old x → ⊥ }
        requires known { knows self.old (value_of v.now) }
        requires fits { fits self.old }
        ensures world { OnOk result
            (self.new ≡ end.refuse (numbered lens) self.old x (value_of v.now)) }
        ensures fewer { OnOk result (unfinished self.new < unfinished self.old) }
        ensures waiters { OnOk result (SameWaiters lens self.old self.new) }
        ensures stays { OnOk result (Stays linked knows self.old self.new) }
        ensures fits { OnOk result (fits self.new) }
        ensures size { size self.new ≡ size self.old };

    /// How many requests wait for the module.
    fn waiter_count(&self, x: u32) -> usize
        ensures { result ≡ length (waiters_of lens self.now x) };

    /// The module of one of these requests.
    fn waiter(&self, x: u32, i: usize) -> u32
        requires linked { linked self.now x ≡ true }
        requires within { i < length (waiters_of lens self.now x) }
        requires fits { fits self.now }
        ensures at { slice_get (waiters_of lens self.now x) i ≡ Some result }
        ensures linked { linked self.now result ≡ true };

    /// The module is done, without an error.
    fn finish(&mut self, x: u32)
        requires linked { linked self.old x ≡ true }
        requires fits { fits self.old }
        ensures world { self.new ≡ end.finish (numbered lens) self.old x }
        ensures stays { Stays linked knows self.old self.new }
        ensures fits { fits self.new }
        ensures size { size self.new ≡ size self.old };

    /// The modules that are ready once `m` is done, in their order of asynchronous evaluation.
    fn ready(&self, m: u32) -> Result<Vec<u32>, Memory>
        requires finished { IsFinished lens m self.now }
        requires fits { fits self.now }
        ensures ready { IfOk result
            (λ xs. end.ReadyAmong (numbered lens) self.now (lens.stamps self.now) xs.items) }
        ensures linked { IfOk result (λ xs. EachIsLinked linked self.now xs.items) };

    /// The body of the module, which awaits and hasn't begun, begins.
    fn start(&mut self, x: u32) -> Result<(), EvalEnd<Self::Stop>>
        requires linked { linked self.old x ≡ true }
        requires awaits { lens.awaits self.old x ≡ true }
        requires unbegun { lens.begun self.old x ≡ false }
        requires fits { fits self.old }
        ensures begins { Begins lens acts self.old x result self.new }
        ensures stays { OnOk result (Stays linked knows self.old self.new) }
        ensures fits { OnOk result (fits self.new) }
        ensures size { size self.new ≡ size self.old };

    /// The body of the module, which doesn't await and hasn't begun, runs to its end.
    fn run(&mut self, x: u32) -> Result<Ran, EvalEnd<Self::Stop>>
        requires linked { linked self.old x ≡ true }
        requires awaits { lens.awaits self.old x ≡ false }
        requires unbegun { lens.begun self.old x ≡ false }
        requires fits { fits self.old }
        ensures runs { Runs lens acts self.old x result self.new }
        ensures stays { OnOk result (Stays linked knows self.old self.new) }
        ensures fits { RunFits fits knows result self.new }
        ensures size { size self.new ≡ size self.old };
}

/// A body that awaits has ended by a throw: its module, and all that wait for it, have the error.
///
/// What holds between two calls is kept (`between`, `fits`), and no module gets a node (`size`). After want of memory the
/// desk may be dropped only.
///
/// ECMA-262, AsyncModuleExecutionRejected.
pub fn rejected<D: Late>(desk: &mut D, m: ModuleId, with: &Value) -> Result<(), Memory>
    requires linked { D.linked desk.old m.0 ≡ true }
    requires between { HaveBegunOnce (numbered D.lens) desk.old }
    requires known { D.knows desk.old (value_of with.now) }
    requires fits { D.fits desk.old }
    ensures rejects { OnOk result
        (Rejects (numbered D.lens) desk.old m.0 (value_of with.now) desk.new) }
    ensures between { OnOk result (HaveBegunOnce (numbered D.lens) desk.new) }
    ensures fits { OnOk result (D.fits desk.new) }
    ensures size { D.size desk.new ≡ D.size desk.old }
{
    reject_by(desk, m.0, with)
}

/// A body that awaits has ended normally: its module is done, and those that are ready go on.
///
/// Each call for a body is of one that hasn't begun (`first`), and what holds between two calls is kept (`between`, `fits`).
/// No module gets a node (`size`). After a stop or want of memory the desk may be dropped only.
///
/// ECMA-262, AsyncModuleExecutionFulfilled.
pub fn fulfilled<D: Late>(desk: &mut D, m: ModuleId) -> Result<(), EvalEnd<D::Stop>>
    requires linked { D.linked desk.old m.0 ≡ true }
    requires between { HaveBegunOnce (numbered D.lens) desk.old }
    requires fits { D.fits desk.old }
    ensures fulfills { FulfillsAs (numbered D.lens) D.acts desk.old m.0 result desk.new }
    ensures first { FulfillsAs (numbered D.lens) (First (numbered D.lens) D.acts)
        desk.old m.0 result desk.new }
    ensures between { OnOk result (HaveBegunOnce (numbered D.lens) desk.new) }
    ensures fits { OnOk result (D.fits desk.new) }
    ensures size { D.size desk.new ≡ D.size desk.old }
{
    fulfill_ready(desk, m.0)
}

/// A module, and all that wait for it, have the error.
///
/// ECMA-262, AsyncModuleExecutionRejected. It calls itself, as deep as modules wait for one another.
fn reject_by<D: Late>(desk: &mut D, x: u32, v: &Value) -> Result<(), Memory>
    requires linked { D.linked desk.old x ≡ true }
    requires known { D.knows desk.old (value_of v.now) }
    requires fits { D.fits desk.old }
    ensures fewer { OnOk result (D.unfinished desk.new ≤ D.unfinished desk.old) }
    ensures waiters { OnOk result (SameWaiters D.lens desk.old desk.new) }
    ensures stays { OnOk result (Stays D.linked D.knows desk.old desk.new) }
    ensures rejects { OnOk result (Rejects (numbered D.lens) desk.old x (value_of v.now) desk.new) }
    ensures fits { OnOk result (D.fits desk.new) }
    ensures size { D.size desk.new ≡ D.size desk.old }
{
    if desk.is_evaluated(x) {
        return Ok(());
    }
    desk.refuse(x, v)?;
    for i in 0..desk.waiter_count(x) {
        let y = desk.waiter(x, i);
        reject_by(desk, y, v)?;
    }
    Ok(())
}

/// A body that awaits has ended normally.
///
/// ECMA-262, AsyncModuleExecutionFulfilled.
fn fulfill_ready<D: Late>(desk: &mut D, m: u32) -> Result<(), EvalEnd<D::Stop>>
    requires linked { D.linked desk.old m ≡ true }
    requires between { HaveBegunOnce (numbered D.lens) desk.old }
    requires fits { D.fits desk.old }
    ensures fulfills { FulfillsAs (numbered D.lens) D.acts desk.old m result desk.new }
    ensures fits { OnOk result (D.fits desk.new) }
    ensures size { D.size desk.new ≡ D.size desk.old }
{
    if desk.is_evaluated(m) {
        return Ok(());
    }
    desk.finish(m);
    let order = match desk.ready(m) {
        Ok(order) => order,
        Err(_short) => return Err(EvalEnd::Memory),
    };
    for i in 0..order.len() {
        let x = order[i];
        if desk.is_evaluated(x) {
            continue;
        }
        match go_on(desk, x) {
            Ok(()) => {}
            Err(end) => return Err(end),
        }
    }
    Ok(())
}

/// A module that is ready goes on. Its body hasn't begun, and no other begins.
fn go_on<D: Late>(desk: &mut D, x: u32) -> Result<(), EvalEnd<D::Stop>>
    requires linked { D.linked desk.old x ≡ true }
    requires unfinished { IsEvaluated D.lens desk.old x → ⊥ }
    requires unbegun { D.lens.begun desk.old x ≡ false }
    requires fits { D.fits desk.old }
    ensures goes { GoesOn D.lens D.acts desk.old x result desk.new }
    ensures begins { OnOk result (BeginsOnly D.lens desk.old x desk.new) }
    ensures stays { OnOk result (Stays D.linked D.knows desk.old desk.new) }
    ensures fits { OnOk result (D.fits desk.new) }
    ensures size { D.size desk.new ≡ D.size desk.old }
{
    if desk.awaits(x) {
        return desk.start(x);
    }
    match desk.run(x) {
        Ok(ran) => ended(desk, x, ran),
        Err(end) => Err(end),
    }
}

/// The body of a module that doesn't await has ended.
fn ended<D: Late>(desk: &mut D, x: u32, ran: Ran) -> Result<(), EvalEnd<D::Stop>>
    requires linked { D.linked desk.old x ≡ true }
    requires known { RanKnown D.knows ran desk.old }
    requires fits { D.fits desk.old }
    ensures ends { IsEndOf D.lens desk.old x ran result desk.new }
    ensures stays { OnOk result (Stays D.linked D.knows desk.old desk.new) }
    ensures fits { OnOk result (D.fits desk.new) }
    ensures size { D.size desk.new ≡ D.size desk.old }
{
    match ran {
        Ran::Normal => {
            desk.finish(x);
            Ok(())
        }
        Ran::Thrown(v) => match reject_by(desk, x, &v) {
            Ok(()) => Ok(()),
            Err(_short) => Err(EvalEnd::Memory),
        },
    }
}
