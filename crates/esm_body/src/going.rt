// Bodies that go on, from their start or behind an await, up to the end of a segment.
ghost use Rattle.std.specs.Prelude.{◌≡◌, length, OnOk, IfOk};
ghost use Rattle.std.specs.Arc.{arc_value};
ghost use Rattle.esm_env.specs.Calls.{scopes_of};
ghost use Rattle.esm_promise.specs.Code.{settled_of};
ghost use Rattle.esm_body.specs.SameScopes.{HaveSameScopes};
ghost use Rattle.esm_body.specs.View.{state_of};
ghost use Rattle.esm_body.specs.Code.{IsUse, IsCode};
ghost use Rattle.esm_body.specs.Inner.Turn.{code_rest, used};
ghost use Rattle.esm_body.specs.Inner.Going.{GivesUse, GivenBy, HasScopeOf, IsBegun, MayGoOn, WentOn, behind_rest};

use crate::blocks::add;
use crate::ends::Halt;
use crate::engine::Engine;
use crate::importer::Importer;
use crate::inside::Inside;
use crate::segment::segment;
use crate::starts::body;
use crate::turn::{Outcome, throw};
use crate::work::{Activation, Standing, Use, Work};
use esm_base::{Memory, ModuleId};
use esm_env::Envs;
use esm_promise::{Promises, Settled};
use esm_rewriting::Stop;
use esm_values::{Errors, Value};
use std::alloc::Global;

/// The body of a module that has a scope, from its start.
pub(crate) fn begun(alloc: Global, envs: &Envs, m: ModuleId) -> Result<Activation, Memory>
    requires { HasScopeOf (scopes_of envs.now) m.0 }
    ensures { IfOk result (IsBegun (scopes_of envs.now) m.0) }
{
    match envs.scope(m) {
        Some(scope) => body(alloc, scope, m),
        None => unreachable!(),
    }
}

/// A value that was awaited is there: it is used in the next turn.
fn give<I: Importer>(
    inside: &mut Inside<'_, I>,
    purpose: Use,
    value: Value,
) -> Result<Outcome, Stop>
    requires code { IsCode inside.old.code.now }
    requires purpose { IsUse (length (arc_value inside.old.code.now.tree).stmts) purpose }
    ensures { GivesUse inside.old purpose value result inside.new }
{
    match add(&mut inside.code.levels, Work::Has(purpose, value)) {
        Ok(()) => Ok(Outcome::On),
        Err(Memory) => Err(Stop::Memory),
    }
}

/// What an awaited promise was settled with is given to what stands at the await.
fn given<I: Importer>(
    inside: &mut Inside<'_, I>,
    purpose: Use,
    how: Settled,
) -> Result<Outcome, Stop>
    requires code { IsCode inside.old.code.now }
    requires purpose { IsUse (length (arc_value inside.old.code.now.tree).stmts) purpose }
    ensures { GivenBy I.seen I.modules I.begins inside.old
        (behind_rest inside.old.code.now purpose (settled_of how)) result inside.new }
{
    match how {
        Settled::Fulfilled(value) => give(inside, purpose, value),
        Settled::Rejected(value) => throw(inside, value),
    }
}

impl Engine {
    /// The body of a module goes on from its start, up to its next await or its end.
    pub(crate) fn go_on<I: Importer>(
        &mut self,
        promises: &mut Promises,
        errors: &mut Errors,
        envs: &mut Envs,
        imports: &mut I,
        now: Activation,
    ) -> Result<Halt, Stop>
        requires code { IsCode now }
        requires fits { MayGoOn I.modules I.linked I.fits
            (state_of self.old (scopes_of envs.old) promises.old errors.old (I.seen imports.old))
            (scopes_of envs.old) now (code_rest now) }
        ensures tells { WentOn I.modules I.linked I.begins
            (state_of self.old (scopes_of envs.old) promises.old errors.old (I.seen imports.old))
            now (code_rest now) result
            (state_of self.new (scopes_of envs.new) promises.new errors.new (I.seen imports.new))
            (scopes_of envs.new) }
        ensures stands { OnOk result (self.new.standing ≡ self.old.standing) }
        ensures scopes { OnOk result (HaveSameScopes (scopes_of envs.old) (scopes_of envs.new)) }
    {
        let mut body = now;
        let mut inside = Inside {
            alloc: self.alloc,
            code: &mut body,
            engine: self,
            errors,
            envs,
            promises,
            imports,
        };
        match segment(&mut inside, Outcome::On) {
            Ok(ended) => Ok(Halt { ended, body }),
            Err(stop) => Err(stop),
        }
    }

    /// The same behind an await.
    pub(crate) fn go_behind<I: Importer>(
        &mut self,
        promises: &mut Promises,
        errors: &mut Errors,
        envs: &mut Envs,
        imports: &mut I,
        standing: Standing,
        how: Settled,
    ) -> Result<Halt, Stop>
        requires code { IsCode standing.body }
        requires purpose { IsUse (length (arc_value standing.body.tree).stmts) standing.purpose }
        requires fits { MayGoOn I.modules I.linked I.fits
            (state_of self.old (scopes_of envs.old) promises.old errors.old (I.seen imports.old))
            (scopes_of envs.old) standing.body
            (behind_rest standing.body standing.purpose (settled_of how)) }
        ensures tells { WentOn I.modules I.linked I.begins
            (state_of self.old (scopes_of envs.old) promises.old errors.old (I.seen imports.old))
            standing.body (behind_rest standing.body standing.purpose (settled_of how)) result
            (state_of self.new (scopes_of envs.new) promises.new errors.new (I.seen imports.new))
            (scopes_of envs.new) }
        ensures stands { OnOk result (self.new.standing ≡ self.old.standing) }
        ensures scopes { OnOk result (HaveSameScopes (scopes_of envs.old) (scopes_of envs.new)) }
    {
        esm_resolve::laws::shared_set();
        let Standing {
            mut body,
            purpose,
            ..
        } = standing;
        let mut inside = Inside {
            alloc: self.alloc,
            code: &mut body,
            engine: self,
            errors,
            envs,
            promises,
            imports,
        };
        match given(&mut inside, purpose, how) {
            Ok(outcome) => match segment(&mut inside, outcome) {
                Ok(ended) => Ok(Halt { ended, body }),
                Err(stop) => Err(stop),
            },
            Err(stop) => Err(stop),
        }
    }
}
