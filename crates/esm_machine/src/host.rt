// The bodies of modules, as evaluation calls for them.
ghost use Rattle.std.specs.Prelude.{◌≡◌};
ghost use Rattle.esm_base.specs.declared.end.End.TheVariants as ends;
ghost use Rattle.esm_machine.specs.Inner.Stops.{eval_end_of, turn_end_by, turn_end_of};

use crate::TurnEnd;
use crate::laws::scopes_stay;
use crate::module_store::ModuleStore;
use esm_base::{Limit, ModuleId};
use esm_body::Engine;
use esm_env::Envs;
use esm_eval::{Bodies, EvalEnd};
use esm_promise::Promises;
use esm_rewriting::Stop;
use esm_values::{Errors, PromiseId, Ran};

/// The engine of bodies, with all that bodies read and write beside the promises.
#[derive(Drop)]
pub(crate) struct BodyHost {
    pub(crate) imports: ModuleStore,
    pub(crate) errors: Errors,
    pub(crate) envs: Envs,
    pub(crate) engine: Engine,
}

/// The same stop, as evaluation knows it.
pub(crate) fn eval_end(stop: Stop) -> EvalEnd<Limit>
    ensures { result ≡ eval_end_of stop }
{
    match stop {
        Stop::Limit(limit) => EvalEnd::Stopped(limit),
        Stop::Memory => EvalEnd::Memory,
    }
}

/// The same end of an evaluation, as a turn knows it.
pub(crate) fn turn_end(end: EvalEnd<Limit>) -> TurnEnd
    ensures { result ≡ turn_end_by end }
{
    match end {
        EvalEnd::Stopped(limit) => TurnEnd::Fault(limit),
        EvalEnd::Memory => TurnEnd::Memory,
    }
}

/// The same stop of a body, as a turn knows it.
pub(crate) fn stop_end(stop: Stop) -> TurnEnd
    ensures { result ≡ turn_end_of stop }
{
    match stop {
        Stop::Limit(limit) => TurnEnd::Fault(limit),
        Stop::Memory => TurnEnd::Memory,
    }
}

impl Bodies for BodyHost {
    ghost use Rattle.esm_machine.specs.Inner.HostLaws.{begins_its_own as begins, leaves_modules as leaves, stays_fit as stays};
    ghost use Rattle.esm_machine.specs.Inner.Parts.{CallsBodies, FitsBodies, KnowsBy, awaits_by, begun_by, linked_by, targets_by};

    type Stop = Limit;

    ghost linked = { linked_by };

    ghost targets = { targets_by };

    ghost awaits = { awaits_by };

    ghost begun = { begun_by };

    ghost knows = { KnowsBy };

    ghost fits = { FitsBodies };

    ghost acts = { CallsBodies };

    ghost begins_its_own = { begins };

    ghost leaves_modules = { leaves };

    ghost stays_fit = { stays };

    fn target_count(&self, m: ModuleId) -> usize {
        self.imports.target_count(m)
    }

    fn target(&self, m: ModuleId, i: usize) -> ModuleId {
        self.imports.target_of(m, i)
    }

    fn awaits(&self, m: ModuleId) -> bool {
        self.imports.awaits(m)
    }

    fn has_begun(&self, m: ModuleId) -> bool {
        self.engine.has_begun(m)
    }

    fn start(
        &mut self,
        promises: &mut Promises,
        m: ModuleId,
        done: PromiseId,
    ) -> Result<(), EvalEnd<Limit>> {
        scopes_stay();
        match self.engine.start(
            promises,
            &mut self.errors,
            &mut self.envs,
            &mut self.imports,
            m,
            done,
        ) {
            Ok(()) => Ok(()),
            Err(stop) => Err(eval_end(stop)),
        }
    }

    fn run(&mut self, promises: &mut Promises, m: ModuleId) -> Result<Ran, EvalEnd<Limit>> {
        scopes_stay();
        match self.engine.run(
            promises,
            &mut self.errors,
            &mut self.envs,
            &mut self.imports,
            m,
        ) {
            Ok(ran) => Ok(ran),
            Err(stop) => Err(eval_end(stop)),
        }
    }
}
