// The end of a body over nodes, promises and bodies.
ghost use Rattle.std.specs.Prelude.{◌≡◌, OnOk};
ghost use Rattle.std.specs.Option.{option_map};
ghost use Rattle.esm_values.specs.Code.{value_of};
ghost use Rattle.esm_eval.specs.Evaluation as parts;
ghost use Rattle.esm_eval.specs.Host.{evaluation};

use crate::bodies::Bodies;
use crate::ends::Late;
use crate::host::EvalHost;
use crate::walk::EvalEnd;
use esm_base::{Memory, ModuleId};
use esm_promise::Settled;
use esm_values::{PromiseId, Ran, Value};
use std::collections::BTreeSet;

impl<B: Bodies> Late for EvalHost<B> {
    ghost use Rattle.esm_eval.specs.Host.{HostFits, calls, evaluation, knows_in};
    ghost use Rattle.esm_eval.specs.Inner.Hosts.{begins_one, lawful, steady};
    ghost use Rattle.esm_eval.specs.Table.{size};
    ghost use Rattle.esm_eval.specs.Counts.{unfinished};

    type Stop = B::Stop;

    ghost lens = { evaluation B.targets B.awaits B.begun };

    ghost acts = { calls B.acts };

    ghost lawful = { lawful B.targets B.awaits B.begun };

    ghost steady = { steady B.targets B.awaits B.begun B.acts B.begins_its_own B.leaves_modules };

    ghost begins_one = { begins_one B.targets B.awaits B.begun B.acts B.begins_its_own };

    ghost unfinished = { λ w. unfinished w.nodes };

    ghost size = { λ w. size w.nodes };

    ghost linked = { λ w. B.linked w.bodies };

    ghost fits = { HostFits B.fits B.linked B.knows };

    ghost knows = { knows_in B.knows };

    fn is_evaluated(&self, x: u32) -> bool {
        self.nodes.is_evaluated(x)
    }

    fn awaits(&self, x: u32) -> bool {
        self.bodies.awaits(ModuleId(x))
    }

    fn refuse(&mut self, x: u32, v: &Value) -> Result<(), Memory> {
        let error = v.clone()?;
        let kept = self.nodes.promise(x);
        self.nodes.refuse(x, error);
        self.reject_kept(kept, v)
    }

    fn waiter_count(&self, x: u32) -> usize {
        self.nodes.waiter_count(x)
    }

    fn waiter(&self, x: u32, i: usize) -> u32 {
        self.nodes.waiter(x, i)
    }

    fn finish(&mut self, x: u32) {
        let kept = self.nodes.promise(x);
        self.nodes.finish(x);
        self.fulfill_kept(kept);
    }

    fn ready(&self, m: u32) -> Result<Vec<u32>, Memory> {
        let mut known = BTreeSet::new(self.alloc);
        self.gather(&mut known, m)?;
        self.in_order(known)
    }

    fn start(&mut self, x: u32) -> Result<(), EvalEnd<B::Stop>> {
        self.begin(x)
    }

    fn run(&mut self, x: u32) -> Result<Ran, EvalEnd<B::Stop>> {
        self.execute(x)
    }
}

impl<B: Bodies> EvalHost<B> {
    /// The promise that a module keeps is fulfilled, where there is one.
    fn fulfill_kept(&mut self, promise: Option<PromiseId>)
        ensures { self.new ≡ parts.fulfill_kept (evaluation B.targets B.awaits B.begun) self.old
            (option_map (λ p. p.0) promise) }
    {
        match promise {
            Some(p) => self
                .promises
                .settle(p, Settled::Fulfilled(Value::Undefined)),
            None => {}
        }
    }

    /// The promise that a module keeps is rejected, where there is one.
    fn reject_kept(&mut self, promise: Option<PromiseId>, v: &Value) -> Result<(), Memory>
        ensures world { OnOk result (self.new
            ≡ parts.reject_kept (evaluation B.targets B.awaits B.begun)
            self.old (option_map (λ p. p.0) promise) (value_of v.now)) }
        ensures nodes { self.new.nodes ≡ self.old.nodes }
    {
        match promise {
            Some(p) => {
                let told = v.clone()?;
                self.promises.settle(p, Settled::Rejected(told));
                Ok(())
            }
            None => Ok(()),
        }
    }
}
