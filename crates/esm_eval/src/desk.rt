// A walk of evaluation over nodes, promises and bodies.
ghost use Rattle.std.specs.Prelude.{◌≡◌, cond};
ghost use Rattle.esm_eval.specs.Nodes as nodes;
ghost use Rattle.esm_eval.specs.Table.{phase_of};

use crate::bodies::Bodies;
use crate::host::{EvalHost, copied};
use crate::nodes::Phase;
use crate::walk::{Cut, Desk};
use esm_base::{Memory, ModuleId};
use esm_promise::Settled;
use esm_values::{PromiseId, Value};

impl<B: Bodies> Desk for EvalHost<B> {
    ghost use Rattle.esm_eval.specs.Host.{HostFits, calls, evaluation, knows_in};
    ghost use Rattle.esm_eval.specs.Inner.Hosts.{begins_one, lawful, steady};
    ghost use Rattle.esm_eval.specs.Table.{size};
    ghost use Rattle.esm_eval.specs.Counts.{unentered};

    type Stop = B::Stop;

    ghost lens = { evaluation B.targets B.awaits B.begun };

    ghost acts = { calls B.acts };

    ghost lawful = { lawful B.targets B.awaits B.begun };

    ghost steady = { steady B.targets B.awaits B.begun B.acts B.begins_its_own B.leaves_modules };

    ghost begins_one = { begins_one B.targets B.awaits B.begun B.acts B.begins_its_own };

    ghost linked = { λ w. B.linked w.bodies };

    ghost left = { λ w. unentered w.nodes };

    ghost size = { λ w. size w.nodes };

    ghost fits = { HostFits B.fits B.linked B.knows };

    ghost knows = { knows_in B.knows };

    fn was_entered(&self, x: u32) -> bool {
        self.nodes.was_entered(x)
    }

    fn enter(&mut self, x: u32) {
        self.nodes.set_phase(x, Phase::Evaluating);
    }

    fn count(&self, x: u32) -> usize {
        self.bodies.target_count(ModuleId(x))
    }

    fn target(&self, x: u32, i: usize) -> u32 {
        self.bodies.target(ModuleId(x), i).0
    }

    fn pass(&mut self, x: u32, t: u32, opened: &[u32]) -> Result<(), Cut<B::Stop>> {
        let error = match self.error_of(t) {
            Ok(error) => error,
            Err(_short) => return Err(Cut::Memory),
        };
        match error {
            Some(v) => return self.throw(opened, v),
            None => {}
        }
        match self.wait_on(t) {
            Some(y) => match self.add_wait(x, y) {
                Ok(()) => Ok(()),
                Err(_short) => Err(Cut::Memory),
            },
            None => Ok(()),
        }
    }

    fn leave(&mut self, x: u32, opened: &[u32]) -> Result<(), Cut<B::Stop>> {
        if self.nodes.waits_for_none(x) {
            return self.leave_free(x, opened);
        }
        match self.nodes.add_stamp(x) {
            Ok(()) => Ok(()),
            Err(_short) => Err(Cut::Memory),
        }
    }

    fn close(&mut self, x: u32, opened: &[u32], place: usize) {
        for i in place..opened.len() {
            let y = opened[i];
            self.nodes
                .close(y, closed_phase(self.nodes.is_stamped(y)), x);
        }
    }

    fn root_of(&self, m: u32) -> u32 {
        self.nodes.root_of(m)
    }

    fn promise(&self, m: u32) -> Option<PromiseId> {
        self.nodes.promise(m)
    }

    fn error(&self, m: u32) -> Result<Option<Value>, Memory> {
        match self.nodes.error(m) {
            Some(error) => copied(error),
            None => Ok(None),
        }
    }

    fn keep(&mut self, m: u32) -> Result<PromiseId, Memory> {
        match self.promises.make(self.alloc) {
            Ok(p) => {
                self.nodes.set_promise(m, p);
                Ok(p)
            }
            Err(short) => Err(short),
        }
    }

    fn reject(&mut self, p: PromiseId, v: Value) {
        self.promises.settle(p, Settled::Rejected(v));
    }

    fn fulfill_by(&mut self, p: PromiseId, m: u32) {
        if self.nodes.is_evaluated(m) {
            self.promises
                .settle(p, Settled::Fulfilled(Value::Undefined));
        }
    }
}

/// The phase of a module that is taken off the stack.
fn closed_phase(is_stamped: bool) -> Phase
    ensures { phase_of result ≡ cond is_stamped nodes.EvaluatingAsync nodes.Evaluated }
{
    if is_stamped {
        Phase::EvaluatingAsync
    } else {
        Phase::Evaluated
    }
}
