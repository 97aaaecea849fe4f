// What starts bodies, runs them, and lets them go on behind their awaits.
ghost use Rattle.std.specs.Prelude.{◌≡◌, ℕ, nat_eq, Bool, true, false, map, string_bytes, Some, OnOk, IfOk};
ghost use Rattle.esm_env.specs.Calls.{scopes_of};
ghost use Rattle.esm_env.specs.Modules.{entries};
ghost use Rattle.esm_expr_eval.specs.Ready.{Holds};
ghost use Rattle.esm_promise.specs.Code.{settled_of};
ghost use Rattle.esm_rewriting.specs.Bodies.{Taken, take_standing, given_by};
ghost use Rattle.esm_body.specs.Engines.{TakesBodies, Started, RanBody, Resumed, KnowsThrown};
ghost use Rattle.esm_rewriting.specs.Fits.{IsKnown};
ghost use Rattle.esm_body.specs.Inner.Noting.{StandsAt};
ghost use Rattle.esm_body.specs.Noted.{event_of};
ghost use Rattle.esm_body.specs.SameScopes.{HaveSameScopes};
ghost use Rattle.esm_rewriting.specs.State.{has_begun, opening_engine};
ghost use Rattle.esm_body.specs.View.{engine_of, state_of};

use crate::engine::{Engine, Event};
use crate::events::Events;
use crate::going::begun;
use crate::importer::Importer;
use crate::log::Log;
use esm_base::{Memory, ModuleId};
use esm_env::Envs;
use esm_promise::{Promises, Settled};
use esm_rewriting::Stop;
use esm_values::{Errors, PromiseId, Ran};
use std::alloc::Global;

impl Engine {
    /// Without bodies, steps and log. With `trace`, the starts and ends of bodies are written to the log too. It doesn't
    /// allocate.
    pub fn new(alloc: Global, trace: bool) -> Engine
        ensures { engine_of result ≡ opening_engine trace }
    {
        Engine {
            alloc,
            events: Events::new(alloc),
            log: Log::new(alloc),
            standing: Vec::new(alloc),
            trace,
        }
    }

    /// The starts and ends of bodies, in order.
    pub fn events(&self) -> &[Event]
        ensures { map event_of result.now ≡ (engine_of self.now).events }
    {
        self.events.as_slice()
    }

    /// The lines that were written, each with its line feed.
    pub fn log(&self) -> &str
        ensures { result.now ≡ (engine_of self.now).log }
    {
        self.log.text.as_str()
    }

    /// The same, given away: the engine ends here. It doesn't allocate.
    pub fn into_log(self) -> String
        ensures { string_bytes result ≡ (engine_of self).log }
    {
        self.log.text
    }

    /// How many steps were taken.
    pub fn steps(&self) -> u64
        ensures { result ≡ (engine_of self.now).steps }
    {
        self.log.steps
    }

    /// Whether the body of this module has begun.
    pub fn has_begun(&self, m: ModuleId) -> bool
        ensures { result ≡ has_begun nat_eq (engine_of self.now) m.0 }
    {
        self.events.has_begun(m)
    }

    /// The body of a module, which awaits, begins, and goes on to its first await or its end. Its end settles `done`.
    ///
    /// After a stop all may be read, and nothing called. ECMA-262, ExecuteAsyncModule.
    pub fn start<I: Importer>(
        &mut self,
        promises: &mut Promises,
        errors: &mut Errors,
        envs: &mut Envs,
        imports: &mut I,
        m: ModuleId,
        done: PromiseId,
    ) -> Result<(), Stop>
        requires ready { TakesBodies I.modules I.linked I.fits I.begins self.old
            (scopes_of envs.old) promises.old errors.old (I.seen imports.old) }
        requires home { I.linked (I.seen imports.old) m.0 ≡ true }
        ensures tells { Started I.modules I.linked I.fits I.begins
            (state_of self.old (scopes_of envs.old) promises.old errors.old (I.seen imports.old))
            m.0 done.0 result
            (state_of self.new (scopes_of envs.new) promises.new errors.new (I.seen imports.new)) }
        ensures scopes { OnOk result (HaveSameScopes (scopes_of envs.old) (scopes_of envs.new)) }
        ensures ready { OnOk result (TakesBodies I.modules I.linked I.fits I.begins self.new
            (scopes_of envs.new) promises.new errors.new (I.seen imports.new)) }
    {
        esm_resolve::laws::shared_set();
        match self.note(Event::Begins(m), imports.url(m)) {
            Ok(()) => match begun(self.alloc, envs, m) {
                Ok(now) => match self.go_on(promises, errors, envs, imports, now) {
                    Ok(halt) => self.end_segment(promises, imports, m, done, halt),
                    Err(stop) => Err(stop),
                },
                Err(Memory) => Err(Stop::Memory),
            },
            Err(stop) => Err(stop),
        }
    }

    /// The body of a module, which doesn't await, runs to its end.
    ///
    /// After a stop all may be read, and nothing called. ECMA-262, ExecuteModule.
    pub fn run<I: Importer>(
        &mut self,
        promises: &mut Promises,
        errors: &mut Errors,
        envs: &mut Envs,
        imports: &mut I,
        m: ModuleId,
    ) -> Result<Ran, Stop>
        requires ready { TakesBodies I.modules I.linked I.fits I.begins self.old
            (scopes_of envs.old) promises.old errors.old (I.seen imports.old) }
        requires home { I.linked (I.seen imports.old) m.0 ≡ true }
        requires ends { (entries (I.modules (I.seen imports.old)) m.0).awaits ≡ false }
        ensures tells { RanBody I.modules I.linked I.fits I.begins
            (state_of self.old (scopes_of envs.old) promises.old errors.old (I.seen imports.old))
            m.0 result
            (state_of self.new (scopes_of envs.new) promises.new errors.new (I.seen imports.new)) }
        ensures scopes { OnOk result (HaveSameScopes (scopes_of envs.old) (scopes_of envs.new)) }
        ensures ready { OnOk result (TakesBodies I.modules I.linked I.fits I.begins self.new
            (scopes_of envs.new) promises.new errors.new (I.seen imports.new)) }
        ensures knows { IfOk result (KnowsThrown I.modules I.linked I.fits I.begins
            (I.seen imports.new)) }
    {
        esm_resolve::laws::shared_set();
        match self.note(Event::Begins(m), imports.url(m)) {
            Ok(()) => match begun(self.alloc, envs, m) {
                Ok(now) => match self.go_on(promises, errors, envs, imports, now) {
                    Ok(halt) => self.end_body(imports, m, halt.ended),
                    Err(stop) => Err(stop),
                },
                Err(Memory) => Err(Stop::Memory),
            },
            Err(stop) => Err(stop),
        }
    }

    /// The body of a module that stands at an await goes on, with what the awaited promise was settled with.
    ///
    /// After a stop all may be read, and nothing called. ECMA-262, Await.
    pub fn resume<I: Importer>(
        &mut self,
        promises: &mut Promises,
        errors: &mut Errors,
        envs: &mut Envs,
        imports: &mut I,
        m: ModuleId,
        how: Settled,
    ) -> Result<(), Stop>
        requires ready { TakesBodies I.modules I.linked I.fits I.begins self.old
            (scopes_of envs.old) promises.old errors.old (I.seen imports.old) }
        requires home { I.linked (I.seen imports.old) m.0 ≡ true }
        requires stands { (t : Taken ℕ) × (take_standing nat_eq (engine_of self.old).standing m.0
            ≡ Some t) }
        requires knows { Holds (IsKnown (I.modules (I.seen imports.old))
            (I.linked (I.seen imports.old))) ⊥ (given_by (settled_of how)) }
        ensures tells { Resumed I.modules I.linked I.fits I.begins
            (state_of self.old (scopes_of envs.old) promises.old errors.old (I.seen imports.old))
            m.0 (settled_of how) result
            (state_of self.new (scopes_of envs.new) promises.new errors.new (I.seen imports.new)) }
        ensures scopes { OnOk result (HaveSameScopes (scopes_of envs.old) (scopes_of envs.new)) }
        ensures ready { OnOk result (TakesBodies I.modules I.linked I.fits I.begins self.new
            (scopes_of envs.new) promises.new errors.new (I.seen imports.new)) }
    {
        match self.standing_at(m) {
            Some(at) => self.resume_at(promises, errors, envs, imports, m, at, how),
            None => unreachable!(),
        }
    }

    /// The same, where the body of the module is at this place.
    fn resume_at<I: Importer>(
        &mut self,
        promises: &mut Promises,
        errors: &mut Errors,
        envs: &mut Envs,
        imports: &mut I,
        m: ModuleId,
        at: usize,
        how: Settled,
    ) -> Result<(), Stop>
        requires ready { TakesBodies I.modules I.linked I.fits I.begins self.old
            (scopes_of envs.old) promises.old errors.old (I.seen imports.old) }
        requires home { I.linked (I.seen imports.old) m.0 ≡ true }
        requires stands { StandsAt self.old.standing.items m.0 (Some at) }
        requires knows { Holds (IsKnown (I.modules (I.seen imports.old))
            (I.linked (I.seen imports.old))) ⊥ (given_by (settled_of how)) }
        ensures tells { Resumed I.modules I.linked I.fits I.begins
            (state_of self.old (scopes_of envs.old) promises.old errors.old (I.seen imports.old))
            m.0 (settled_of how) result
            (state_of self.new (scopes_of envs.new) promises.new errors.new (I.seen imports.new)) }
        ensures scopes { OnOk result (HaveSameScopes (scopes_of envs.old) (scopes_of envs.new)) }
        ensures ready { OnOk result (TakesBodies I.modules I.linked I.fits I.begins self.new
            (scopes_of envs.new) promises.new errors.new (I.seen imports.new)) }
    {
        esm_resolve::laws::shared_set();
        let standing = self.standing.remove(at);
        let done = standing.done;
        match self.go_behind(promises, errors, envs, imports, standing, how) {
            Ok(halt) => self.end_segment(promises, imports, m, done, halt),
            Err(stop) => Err(stop),
        }
    }
}
