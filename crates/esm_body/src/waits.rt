// Bodies that stand at an await.
ghost use Rattle.std.specs.Prelude.{◌≡◌, OnOk};
ghost use Rattle.esm_promise.specs.Promises.{register};
ghost use Rattle.esm_promise.specs.Reactions.{Await};
ghost use Rattle.esm_values.specs.Code.{value_of};
ghost use Rattle.esm_rewriting.specs.Bodies.{await_on};
ghost use Rattle.esm_body.specs.Inner.Noting.{IsPromise, StandsAt, StandsNow};

use crate::engine::Engine;
use crate::work::Standing;
use esm_base::{Memory, ModuleId};
use esm_promise::{Promises, Reaction, ReactionKind};
use esm_values::{PromiseId, Value};

/// The promise that a value is, if it is one.
fn promise_in(value: &Value) -> Option<PromiseId>
    ensures { IsPromise (value_of value.now) result }
{
    match value {
        Value::Promise(id) => Some(*id),
        Value::Undefined => None,
        Value::Bool(_truth) => None,
        Value::Text(_text) => None,
        Value::Func(_id) => None,
        Value::Error(_id) => None,
        Value::Namespace(_m) => None,
    }
}

/// A promise has a reaction by which the body of a module goes on.
fn wait(promises: &mut Promises, on: PromiseId, m: ModuleId) -> Result<(), Memory>
    ensures { OnOk result (promises.new ≡ register promises.old on.0 (Await m.0)) }
{
    let subject = u64::from(m.0);
    promises.then(
        on,
        Reaction {
            kind: ReactionKind::Await,
            subject,
        },
    )
}

/// A value is awaited: on a promise a reaction is registered, of another value a fulfilled one is made.
///
/// ECMA-262, Await and PromiseResolve.
fn wait_on(promises: &mut Promises, value: Value, m: ModuleId) -> Result<(), Memory>
    ensures { OnOk result (promises.new ≡ await_on promises.old (value_of value) m.0) }
{
    match promise_in(&value) {
        Some(id) => wait(promises, id, m),
        None => match promises.make_fulfilled(value) {
            Ok(id) => wait(promises, id, m),
            Err(Memory) => Err(Memory),
        },
    }
}

impl Engine {
    /// A body stands at its await of a value.
    pub(crate) fn stand(
        &mut self,
        promises: &mut Promises,
        m: ModuleId,
        standing: Standing,
        value: Value,
    ) -> Result<(), Memory>
        ensures { OnOk result
            (StandsNow self.old promises.old standing (value_of value) m.0 self.new promises.new) }
    {
        match self.standing.push(standing) {
            Ok(()) => wait_on(promises, value, m),
            Err(_) => Err(Memory),
        }
    }

    /// Where the body of this module stands among those at an await, if it does.
    pub(crate) fn standing_at(&self, m: ModuleId) -> Option<usize>
        ensures { StandsAt self.now.standing.items m.0 result }
    {
        for at in 0..self.standing.len() {
            if self.standing[at].body.at.0 == m.0 {
                return Some(at);
            }
        }
        None
    }
}
