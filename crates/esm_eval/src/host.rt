// Evaluation over nodes, promises and bodies.
ghost use Rattle.std.specs.Prelude.{◌≡◌, true, false, [], OnOk, IfOk, IfSome, Some};
ghost use Rattle.std.specs.Option.{option_map};
ghost use Rattle.esm_values.specs.Code.{value_of};
ghost use Rattle.esm_eval.specs.Evaluation as parts;
ghost use Rattle.esm_eval.specs.Evaluate as walk;
ghost use Rattle.esm_eval.specs.Host.{HostFits, LeavesBodies, calls, evaluation, knows_in};
ghost use Rattle.esm_eval.specs.Counts.{unentered};
ghost use Rattle.esm_eval.specs.Table.{size};
ghost use Rattle.esm_eval.specs.EndSteps.{Begins, RunFits, Runs};
ghost use Rattle.esm_eval.specs.Inner.Visit.{LeavesAsync, ThrowsBy, cut_of};
ghost use Rattle.esm_eval.specs.WalkSteps.{AllEntered, Keeps, KnowsError, LeavesBy, LeavesFit};

use crate::bodies::Bodies;
use crate::nodes::Nodes;
use crate::walk::{Cut, EvalEnd};
use esm_base::{Memory, ModuleId};
use esm_promise::{Promises, Reaction, ReactionKind};
use esm_values::{Ran, Value};
use std::alloc::Global;

/// What evaluation reads and writes: what it keeps of modules, promises, and bodies.
#[derive(Drop)]
pub struct EvalHost<B> {
    /// What evaluation keeps of modules.
    pub nodes: Nodes,
    /// The promises.
    pub promises: Promises,
    /// The modules and their bodies.
    pub bodies: B,
    /// Where new promises are allocated.
    pub alloc: Global,
}

impl<B: Bodies> EvalHost<B> {
    /// The modules of the stack fail.
    pub(crate) fn fail_all(&mut self, opened: &[u32], v: &Value) -> Result<(), Memory>
        requires stack { AllEntered (evaluation B.targets B.awaits B.begun) self.old opened.now }
        requires known { B.knows self.old.bodies (value_of v.now) }
        requires fits { HostFits B.fits B.linked B.knows self.old }
        ensures world { OnOk result (self.new ≡ walk.fail (evaluation B.targets B.awaits B.begun)
            self.old (value_of v.now) opened.now) }
        ensures fits { OnOk result (HostFits B.fits B.linked B.knows self.new) }
        ensures known { OnOk result (B.knows self.new.bodies (value_of v.now)) }
        ensures size { size self.new.nodes ≡ size self.old.nodes }
    {
        for i in 0..opened.len() {
            let error = v.clone()?;
            self.nodes.fail(opened[i], error);
        }
        Ok(())
    }

    /// The error of the module, or else that of its cycle root.
    pub(crate) fn error_of(&self, t: u32) -> Result<Option<Value>, Memory>
        requires { HostFits B.fits B.linked B.knows self.now }
        ensures error { IfOk result (λ e. option_map value_of e
            ≡ parts.error_of (evaluation B.targets B.awaits B.begun) self.now t) }
        ensures known { IfOk result (KnowsError (knows_in B.knows) self.now) }
    {
        match self.nodes.error_of(t) {
            Some(error) => copied(error),
            None => Ok(None),
        }
    }

    /// The module that a request of `t` makes wait for, if there is one.
    ///
    /// ECMA-262, InnerModuleEvaluation.
    pub(crate) fn wait_on(&self, t: u32) -> Option<u32>
        requires { HostFits B.fits B.linked B.knows self.now }
        ensures wait { result ≡ parts.wait_on (evaluation B.targets B.awaits B.begun) self.now t }
        ensures linked { IfSome result (λ y. B.linked self.now.bodies y ≡ true) }
    {
        if self.nodes.is_evaluating(t) {
            return if self.nodes.is_stamped(t) {
                Some(t)
            } else {
                None
            };
        }
        let root = self.nodes.root_of(t);
        if self.nodes.is_done(root) {
            return None;
        }
        if self.nodes.is_stamped(root) {
            Some(root)
        } else {
            None
        }
    }

    /// The modules of the stack fail with this error, which is thrown on.
    pub(crate) fn throw(&mut self, opened: &[u32], v: Value) -> Result<(), Cut<B::Stop>>
        requires stack { AllEntered (evaluation B.targets B.awaits B.begun) self.old opened.now }
        requires known { B.knows self.old.bodies (value_of v) }
        requires fits { HostFits B.fits B.linked B.knows self.old }
        ensures throws { ThrowsBy (evaluation B.targets B.awaits B.begun) self.old opened.now
            (value_of v) result self.new }
        ensures fits { LeavesFit (HostFits B.fits B.linked B.knows) (knows_in B.knows)
            result self.new }
        ensures size { size self.new.nodes ≡ size self.old.nodes }
    {
        match self.fail_all(opened, &v) {
            Ok(()) => Err(Cut::Thrown(v)),
            Err(_short) => Err(Cut::Memory),
        }
    }

    /// A module waits for another.
    pub(crate) fn add_wait(&mut self, x: u32, y: u32) -> Result<(), Memory>
        requires linked { B.linked self.old.bodies x ≡ true }
        requires other { B.linked self.old.bodies y ≡ true }
        requires fits { HostFits B.fits B.linked B.knows self.old }
        ensures world { OnOk result (self.new
            ≡ parts.add_wait (evaluation B.targets B.awaits B.begun) self.old x (Some y)) }
        ensures keeps { OnOk result (Keeps (evaluation B.targets B.awaits B.begun)
            (λ w. B.linked w.bodies) (λ w. unentered w.nodes) self.old self.new) }
        ensures fits { OnOk result (HostFits B.fits B.linked B.knows self.new) }
        ensures size { size self.new.nodes ≡ size self.old.nodes }
    {
        match self.nodes.push_wait(x, y) {
            Ok(()) => self.nodes.push_waiter(y, x),
            Err(short) => Err(short),
        }
    }

    /// The module, which waits for nothing and awaits, is left: its body begins.
    pub(crate) fn leave_async(&mut self, x: u32) -> Result<(), EvalEnd<B::Stop>>
        requires linked { B.linked self.old.bodies x ≡ true }
        requires awaits { B.awaits self.old.bodies x ≡ true }
        requires unbegun { B.begun self.old.bodies x ≡ false }
        requires free { parts.waits (evaluation B.targets B.awaits B.begun) self.old x ≡ [] }
        requires fits { HostFits B.fits B.linked B.knows self.old }
        ensures leaves { LeavesAsync (evaluation B.targets B.awaits B.begun)
            (λ w. B.linked w.bodies) (λ w. unentered w.nodes) (calls B.acts) self.old x result self.new }
        ensures fits { OnOk result (HostFits B.fits B.linked B.knows self.new) }
        ensures size { size self.new.nodes ≡ size self.old.nodes }
    {
        match self.nodes.add_stamp(x) {
            Ok(()) => self.begin(x),
            Err(_short) => Err(EvalEnd::Memory),
        }
    }

    /// The module, which waits for nothing, is left: its body begins, or runs.
    pub(crate) fn leave_free(&mut self, x: u32, opened: &[u32]) -> Result<(), Cut<B::Stop>>
        requires linked { B.linked self.old.bodies x ≡ true }
        requires stack { AllEntered (evaluation B.targets B.awaits B.begun) self.old opened.now }
        requires unbegun { B.begun self.old.bodies x ≡ false }
        requires free { parts.waits (evaluation B.targets B.awaits B.begun) self.old x ≡ [] }
        requires fits { HostFits B.fits B.linked B.knows self.old }
        ensures leaves { LeavesBy (evaluation B.targets B.awaits B.begun) (λ w. B.linked w.bodies)
            (λ w. unentered w.nodes) (calls B.acts) self.old opened.now x result self.new }
        ensures fits { LeavesFit (HostFits B.fits B.linked B.knows) (knows_in B.knows)
            result self.new }
        ensures size { size self.new.nodes ≡ size self.old.nodes }
    {
        if self.bodies.awaits(ModuleId(x)) {
            return match self.leave_async(x) {
                Ok(()) => Ok(()),
                Err(end) => Err(cut(end)),
            };
        }
        match self.execute(x) {
            Ok(ran) => match ran {
                Ran::Normal => Ok(()),
                Ran::Thrown(v) => self.throw(opened, v),
            },
            Err(end) => Err(cut(end)),
        }
    }

    /// The body of the module, which awaits, begins, with the promise of its end.
    ///
    /// ECMA-262, ExecuteAsyncModule.
    pub(crate) fn begin(&mut self, x: u32) -> Result<(), EvalEnd<B::Stop>>
        requires linked { B.linked self.old.bodies x ≡ true }
        requires awaits { B.awaits self.old.bodies x ≡ true }
        requires unbegun { B.begun self.old.bodies x ≡ false }
        requires fits { HostFits B.fits B.linked B.knows self.old }
        ensures begins { Begins (evaluation B.targets B.awaits B.begun) (calls B.acts) self.old x
            result self.new }
        ensures nodes { OnOk result (self.new.nodes ≡ self.old.nodes) }
        ensures modules { OnOk result
            (LeavesBodies B.linked B.targets B.knows self.old.bodies self.new.bodies) }
        ensures fits { OnOk result (HostFits B.fits B.linked B.knows self.new) }
        ensures size { size self.new.nodes ≡ size self.old.nodes }
    {
        let reaction = Reaction {
            kind: ReactionKind::BodyEnd,
            subject: u64::from(x),
        };
        match self.promises.make_with(self.alloc, reaction) {
            Ok(end) => self.bodies.start(&mut self.promises, ModuleId(x), end),
            Err(_short) => Err(EvalEnd::Memory),
        }
    }

    /// The body of the module, which doesn't await, runs to its end.
    ///
    /// ECMA-262, ExecuteModule.
    pub(crate) fn execute(&mut self, x: u32) -> Result<Ran, EvalEnd<B::Stop>>
        requires linked { B.linked self.old.bodies x ≡ true }
        requires awaits { B.awaits self.old.bodies x ≡ false }
        requires unbegun { B.begun self.old.bodies x ≡ false }
        requires fits { HostFits B.fits B.linked B.knows self.old }
        ensures runs { Runs (evaluation B.targets B.awaits B.begun) (calls B.acts) self.old x
            result self.new }
        ensures nodes { OnOk result (self.new.nodes ≡ self.old.nodes) }
        ensures modules { OnOk result
            (LeavesBodies B.linked B.targets B.knows self.old.bodies self.new.bodies) }
        ensures fits { RunFits (HostFits B.fits B.linked B.knows) (knows_in B.knows)
            result self.new }
        ensures size { size self.new.nodes ≡ size self.old.nodes }
    {
        self.bodies.run(&mut self.promises, ModuleId(x))
    }
}

/// A copy of an error.
pub(crate) fn copied(error: &Value) -> Result<Option<Value>, Memory>
    ensures { IfOk result (λ e. option_map value_of e ≡ Some (value_of error.now)) }
{
    let error = error.clone()?;
    Ok(Some(error))
}

/// The same end of a walk.
fn cut<S>(end: EvalEnd<S>) -> Cut<S>
    ensures { result ≡ cut_of end }
{
    match end {
        EvalEnd::Stopped(why) => Cut::Stopped(why),
        EvalEnd::Memory => Cut::Memory,
    }
}
