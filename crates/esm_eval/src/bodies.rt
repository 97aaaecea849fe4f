// The bodies of modules, as evaluation calls for them.
use crate::walk::EvalEnd;
use esm_base::ModuleId;
use esm_promise::Promises;
use esm_values::{PromiseId, Ran};

/// The modules and their bodies, with all that these read and write beside the promises.
///
/// What evaluation keeps of modules isn't handed to them, so no call writes it. A body is called for where its module is
/// linked, it hasn't begun, and what lies outside of evaluation fits.
pub trait Bodies: Drop {
    ghost use Rattle.std.specs.Prelude.{◌≡◌, ◌<◌, ℕ, Bool, true, false, List, Some, OnOk, length, slice_get};
    ghost use Rattle.esm_values.specs.Code.{CodeValue};
    ghost use Rattle.esm_promise.specs.Promises.{is_pending};
    ghost use Rattle.esm_eval.specs.Calls.{CodeCalls};
    ghost use Rattle.esm_eval.specs.Host.{BeginsItsOwn, LeavesModules, Outside, RunsAs, StartsAs, StaysFit, outside_with};
    ghost use Rattle.esm_eval.specs.EndSteps.{RunFits};

    /// Why a call stops.
    type Stop: Drop;

    /// The modules that are linked.
    ghost linked: { Self → ℕ → Bool };
    /// The modules of a module's requests, in order.
    ghost targets: { Self → ℕ → List ℕ };
    /// Whether the body of a module awaits.
    ghost awaits: { Self → ℕ → Bool };
    /// The bodies that have begun.
    ghost begun: { Self → ℕ → Bool };
    /// The values that are known.
    ghost knows: { Self → CodeValue → Type 0 };
    /// What a body needs of what lies outside of evaluation.
    ghost fits: { Outside Self → Type 0 };
    /// What a call does.
    ghost acts: { CodeCalls (Outside Self) Self.Stop };

    /// A call begins its body, and no other.
    ghost begins_its_own: { BeginsItsOwn acts begun };
    /// A call leaves modules as they are, and values known.
    ghost leaves_modules: { LeavesModules acts linked targets awaits knows };
    /// Evaluation makes and settles promises.
    ghost stays_fit: { StaysFit fits linked knows };

    /// How many requests the module has.
    fn target_count(&self, m: ModuleId) -> usize
        requires { linked self.now m.0 ≡ true }
        ensures { result ≡ length (targets self.now m.0) };

    /// The module of a request.
    fn target(&self, m: ModuleId, i: usize) -> ModuleId
        requires linked { linked self.now m.0 ≡ true }
        requires within { i < length (targets self.now m.0) }
        ensures { slice_get (targets self.now m.0) i ≡ Some result.0 };

    /// Whether the body of the module awaits.
    fn awaits(&self, m: ModuleId) -> bool
        requires { linked self.now m.0 ≡ true }
        ensures { result ≡ awaits self.now m.0 };

    /// Whether the body of the module has begun.
    fn has_begun(&self, m: ModuleId) -> bool
        requires { linked self.now m.0 ≡ true }
        ensures { result ≡ begun self.now m.0 };

    /// The body of a module, which awaits and hasn't begun, begins. Its end settles `done`, which was made for it.
    ///
    /// After a stop or want of memory all may be dropped only.
    fn start(
        &mut self,
        promises: &mut Promises,
        m: ModuleId,
        done: PromiseId,
    ) -> Result<(), EvalEnd<Self::Stop>>
        requires linked { linked self.old m.0 ≡ true }
        requires awaits { awaits self.old m.0 ≡ true }
        requires unbegun { begun self.old m.0 ≡ false }
        requires pending { is_pending promises.old done.0 ≡ true }
        requires fits { fits (outside_with promises.old self.old) }
        ensures starts { StartsAs acts (outside_with promises.old self.old) m.0 done.0 result
            (outside_with promises.new self.new) }
        ensures fits { OnOk result (fits (outside_with promises.new self.new)) };

    /// The body of a module, which doesn't await and hasn't begun, runs to its end. What it throws is known.
    ///
    /// After a stop or want of memory all may be dropped only.
    fn run(&mut self, promises: &mut Promises, m: ModuleId) -> Result<Ran, EvalEnd<Self::Stop>>
        requires linked { linked self.old m.0 ≡ true }
        requires awaits { awaits self.old m.0 ≡ false }
        requires unbegun { begun self.old m.0 ≡ false }
        requires fits { fits (outside_with promises.old self.old) }
        ensures runs { RunsAs acts (outside_with promises.old self.old) m.0 result
            (outside_with promises.new self.new) }
        ensures fits { RunFits fits (λ w. knows w.bodies) result
            (outside_with promises.new self.new) };
}
