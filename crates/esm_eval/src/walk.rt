// The walk of an evaluation, over single steps.
ghost use Rattle.std.specs.Prelude.{◌≡◌, ◌<◌, ℕ, cond, nat_lt, List, Result, Ok, OnOk};
ghost use Rattle.esm_eval.specs.Begins.{First, HaveBegunOnce};
ghost use Rattle.esm_eval.specs.Calls.{EvaluatesAs, numbered};
ghost use Rattle.esm_eval.specs.Inner.Visit.{BeginsNew, Unbegun, Visiting};
ghost use Rattle.esm_eval.specs.WalkSteps.{AllEntered, IsSteadyStep, IsWhole, LeavesFit, Within};

use crate::stack::Stack;
use esm_base::{Memory, ModuleId};
use esm_values::{PromiseId, Value};
use std::alloc::Global;

/// Why a call of evaluation answers nothing.
#[derive(Drop)]
pub enum EvalEnd<S> {
    /// A call for a body stopped, for this reason.
    Stopped(S),
    /// Memory ran out.
    Memory,
}

/// What cuts a walk.
#[derive(Drop)]
pub enum Cut<S> {
    /// A throw.
    Thrown(Value),
    /// A call for a body stopped.
    Stopped(S),
    /// Want of memory.
    Memory,
}

/// What a walk reads and writes, one step each. Modules are named by their ids.
pub trait Desk: Drop {
    ghost use Rattle.std.specs.Prelude.{◌≡◌, ◌<◌, ◌≤◌, ℕ, Bool, true, false, List, Result, OnOk, IfOk, Option, Some, map, length, slice_get, drop};
    ghost use Rattle.std.specs.Option.{option_map};
    ghost use Rattle.esm_values.specs.Code.{CodeValue, value_of};
    ghost use Rattle.esm_eval.specs.Evaluation as evaluation;
    ghost use Rattle.esm_eval.specs.Evaluation.{IsLawful, IsSteady};
    ghost use Rattle.esm_eval.specs.Evaluate as walk;
    ghost use Rattle.esm_eval.specs.Begins.{BeginsOne};
    ghost use Rattle.esm_eval.specs.Calls.{CodeCalls, CodeEvaluation, numbered};
    ghost use Rattle.esm_eval.specs.WalkSteps.{AllEntered, IsSteadyStep, Keeps, KnowsError, LeavesBy, LeavesFit, Opens, PassesBy, StillKnows, is_entered};

    /// Why a call for a body stops.
    type Stop: Drop;

    /// What evaluation reads and writes.
    ghost lens: { CodeEvaluation Self };
    /// What a call for a body does.
    ghost acts: { CodeCalls Self Self.Stop };
    /// What is read is what was written last, and a write changes no other part.
    ghost lawful: { IsLawful (numbered lens) };
    /// A call for a body that isn't stopped begins it, and no call writes what evaluation writes.
    ghost steady: { IsSteady (numbered lens) acts };
    /// A call for a body begins no other.
    ghost begins_one: { BeginsOne (numbered lens) acts };
    /// The modules that are linked.
    ghost linked: { Self → ℕ → Bool };
    /// How many modules there are that no evaluation has entered.
    ghost left: { Self → ℕ };
    /// How many modules have a node.
    ghost size: { Self → ℕ };
    /// What holds between two steps, so that each may be made.
    ghost fits: { Self → Type 0 };
    /// The values that are known.
    ghost knows: { Self → CodeValue → Type 0 };

    /// Whether an evaluation has entered the module.
    fn was_entered(&self, x: u32) -> bool
        ensures { result ≡ is_entered lens self.now x };

    /// The module is entered.
    fn enter(&mut self, x: u32)
        requires linked { linked self.old x ≡ true }
        requires new { is_entered lens self.old x ≡ false }
        requires fits { fits self.old }
        ensures world { self.new ≡ walk.enter (numbered lens) self.old x }
        ensures opens { Opens lens linked left self.old x self.new }
        ensures fits { fits self.new }
        ensures size { size self.new ≡ size self.old };

    /// How many requests the module has.
    fn count(&self, x: u32) -> usize
        requires { linked self.now x ≡ true }
        ensures { result ≡ length (lens.targets self.now x) };

    /// The target of a request.
    fn target(&self, x: u32, i: usize) -> u32
        requires linked { linked self.now x ≡ true }
        requires within { i < length (lens.targets self.now x) }
        ensures { slice_get (lens.targets self.now x) i ≡ Some result };

    /// The target of a request of `x` was visited.
    fn pass(&mut self, x: u32, t: u32, opened: &[u32]) -> Result<(), Cut<Self::Stop>>
        requires entered { is_entered lens self.old x ≡ true }
        requires stack { AllEntered lens self.old opened.now }
        requires fits { fits self.old }
        ensures passes { PassesBy lens linked left acts self.old opened.now x t result self.new }
        ensures fits { LeavesFit fits knows result self.new }
        ensures size { size self.new ≡ size self.old };

    /// All requests of `x` are passed. Its body hasn't begun, and may begin now.
    fn leave(&mut self, x: u32, opened: &[u32]) -> Result<(), Cut<Self::Stop>>
        requires linked { linked self.old x ≡ true }
        requires entered { is_entered lens self.old x ≡ true }
        requires stack { AllEntered lens self.old opened.now }
        requires unbegun { lens.begun self.old x ≡ false }
        requires fits { fits self.old }
        ensures leaves { LeavesBy lens linked left acts self.old opened.now x result self.new }
        ensures fits { LeavesFit fits knows result self.new }
        ensures size { size self.new ≡ size self.old };

    /// The component of `x` closes, which stands from a place of the stack on.
    fn close(&mut self, x: u32, opened: &[u32], place: usize)
        requires entered { is_entered lens self.old x ≡ true }
        requires stack { AllEntered lens self.old opened.now }
        requires fits { fits self.old }
        ensures world { self.new ≡ walk.close (numbered lens) self.old x (drop place opened.now) }
        ensures keeps { Keeps lens linked left self.old self.new }
        ensures fits { fits self.new }
        ensures size { size self.new ≡ size self.old };

    /// The cycle root of the module, or itself.
    fn root_of(&self, m: u32) -> u32
        ensures { result ≡ evaluation.root_of (numbered lens) self.now m };

    /// The promise that the module keeps.
    fn promise(&self, m: u32) -> Option<PromiseId>
        ensures { option_map (λ p. p.0) result ≡ (lens.node self.now m).promise };

    /// The module's own error.
    fn error(&self, m: u32) -> Result<Option<Value>, Memory>
        requires { fits self.now }
        ensures error { IfOk result (λ e. option_map value_of e ≡ (lens.node self.now m).error) }
        ensures known { IfOk result (KnowsError knows self.now) };

    /// The module keeps a new promise.
    fn keep(&mut self, m: u32) -> Result<PromiseId, Memory>
        requires linked { linked self.old m ≡ true }
        requires fits { fits self.old }
        ensures world { OnOk result (self.new ≡ walk.keep (numbered lens) self.old m) }
        ensures number { IfOk result (λ p. p.0 ≡ lens.next_promise self.old) }
        ensures keeps { OnOk result (Keeps lens linked left self.old self.new) }
        ensures fits { OnOk result (fits self.new) }
        ensures knows { OnOk result (StillKnows knows self.old self.new) }
        ensures size { size self.new ≡ size self.old };

    /// A promise is rejected.
    fn reject(&mut self, p: PromiseId, v: Value)
        requires known { knows self.old (value_of v) }
        requires fits { fits self.old }
        ensures world { self.new ≡ lens.reject self.old p.0 (value_of v) }
        ensures fits { fits self.new }
        ensures size { size self.new ≡ size self.old };

    /// A promise is fulfilled where the module is evaluated.
    fn fulfill_by(&mut self, p: PromiseId, m: u32)
        requires { fits self.old }
        ensures world { self.new
            ≡ walk.fulfill_by lens self.old p.0 (evaluation.phase lens self.old m) }
        ensures fits { fits self.new }
        ensures size { size self.new ≡ size self.old };
}

/// Visits a module. Gives the lowest place among the open modules that it and those above it lead to.
///
/// ECMA-262, InnerModuleEvaluation. It calls itself, as deep as modules are open.
fn visit<D: Desk>(desk: &mut D, opened: &mut Stack, x: u32) -> Result<usize, Cut<D::Stop>>
    requires within { (modules : List ℕ) × Within D.lens D.linked D.left modules desk.old x }
    requires stack { AllEntered D.lens desk.old opened.old }
    requires unbegun { Unbegun D.lens desk.old }
    requires fits { D.fits desk.old }
    ensures steady { OnOk result (IsSteadyStep D.lens D.linked D.left desk.old desk.new) }
    ensures stack { OnOk result (AllEntered D.lens desk.new opened.new) }
    ensures visits { Visiting D.lens D.linked D.left D.acts desk.old opened.old x result
        desk.new opened.new }
    ensures begins { OnOk result (BeginsNew D.lens desk.old desk.new) }
    ensures fits { LeavesFit D.fits D.knows result desk.new }
    ensures size { D.size desk.new ≡ D.size desk.old }
{
    if desk.was_entered(x) {
        return Ok(opened.place_of(x));
    }
    let place = opened.len();
    match opened.push(x) {
        Ok(()) => {}
        Err(_full) => return Err(Cut::Memory),
    }
    desk.enter(x);
    let count = desk.count(x);
    let mut low = place;
    for i in 0..count {
        let t = desk.target(x, i);
        match visit(desk, opened, t) {
            Ok(found) => low = lesser(low, found),
            Err(cut) => return Err(cut),
        }
        match desk.pass(x, t, opened.as_slice()) {
            Ok(()) => {}
            Err(cut) => return Err(cut),
        }
    }
    match desk.leave(x, opened.as_slice()) {
        Ok(()) => {}
        Err(cut) => return Err(cut),
    }
    if low < place {
        return Ok(low);
    }
    desk.close(x, opened.as_slice(), place);
    opened.truncate(place);
    Ok(low)
}

fn lesser(low: usize, found: usize) -> usize
    ensures { result ≡ cond (nat_lt found low) found low }
{
    if found < low { found } else { low }
}

/// Evaluates a module. Gives the promise that it keeps: the one that it kept already, or a new one, which is fulfilled or
/// rejected already where the evaluation has ended.
///
/// Each call for a body is of one that hasn't begun (`first`), and what holds between two calls is kept (`between`, `fits`).
/// No module gets a node (`size`). After a stop or want of memory the desk may be dropped only.
///
/// ECMA-262, Evaluate.
pub fn evaluate<D: Desk>(
    alloc: Global,
    desk: &mut D,
    m: ModuleId,
) -> Result<PromiseId, EvalEnd<D::Stop>>
    requires whole { (modules : List ℕ) × IsWhole D.lens D.linked D.left modules desk.old m.0 }
    requires between { HaveBegunOnce (numbered D.lens) desk.old }
    requires fits { D.fits desk.old }
    ensures evaluates { EvaluatesAs (numbered D.lens) D.acts desk.old m.0 result desk.new }
    ensures first { EvaluatesAs (numbered D.lens) (First (numbered D.lens) D.acts)
        desk.old m.0 result desk.new }
    ensures between { OnOk result (HaveBegunOnce (numbered D.lens) desk.new) }
    ensures fits { OnOk result (D.fits desk.new) }
    ensures size { D.size desk.new ≡ D.size desk.old }
{
    evaluate_by(alloc, desk, m.0)
}

/// Evaluates a module, named by its number.
fn evaluate_by<D: Desk>(alloc: Global, desk: &mut D, m: u32) -> Result<PromiseId, EvalEnd<D::Stop>>
    requires whole { (modules : List ℕ) × IsWhole D.lens D.linked D.left modules desk.old m }
    requires unbegun { Unbegun D.lens desk.old }
    requires fits { D.fits desk.old }
    ensures evaluates { EvaluatesAs (numbered D.lens) D.acts desk.old m result desk.new }
    ensures fits { OnOk result (D.fits desk.new) }
    ensures size { D.size desk.new ≡ D.size desk.old }
{
    let root = desk.root_of(m);
    match desk.promise(root) {
        Some(p) => return Ok(p),
        None => {}
    }
    let error = match desk.error(root) {
        Ok(error) => error,
        Err(_short) => return Err(EvalEnd::Memory),
    };
    let p = match desk.keep(root) {
        Ok(p) => p,
        Err(_short) => return Err(EvalEnd::Memory),
    };
    match error {
        Some(v) => {
            desk.reject(p, v);
            return Ok(p);
        }
        None => {}
    }
    let mut opened = Stack::new(alloc);
    match visit(desk, &mut opened, root) {
        Ok(_low) => {
            desk.fulfill_by(p, root);
            Ok(p)
        }
        Err(Cut::Thrown(v)) => {
            desk.reject(p, v);
            Ok(p)
        }
        Err(Cut::Stopped(why)) => Err(EvalEnd::Stopped(why)),
        Err(Cut::Memory) => Err(EvalEnd::Memory),
    }
}
