// Ends of segments of bodies.
ghost use Rattle.std.specs.Prelude.{◌≡◌, OnOk};
ghost use Rattle.esm_promise.specs.Code.{Numbered, settled_of};
ghost use Rattle.esm_env.specs.Scopes.{Scopes};
ghost use Rattle.esm_values.specs.Errors as errors;
ghost use Rattle.esm_body.specs.View.{state_of};
ghost use Rattle.esm_body.specs.Inner.Noting.{NotesRan, SettlesEnd};
ghost use Rattle.esm_body.specs.Inner.Going.{EndsBody, EndsSegment, IsFinal, StandsBehind};
ghost use Rattle.esm_body.specs.declared.work.Activation.{Activation};

use crate::engine::{Engine, Event};
use crate::importer::Importer;
use crate::segment::Ended;
use crate::work::{Activation, Standing};
use esm_base::{Memory, ModuleId};
use esm_promise::{Promises, Settled};
use esm_rewriting::Stop;
use esm_values::{PromiseId, Ran, Value};

/// How a segment ended, and what remains of the body.
#[derive(Drop)]
pub(crate) struct Halt {
    /// How it ended.
    pub(crate) ended: Ended,
    /// What remains, where it stands at an await.
    pub(crate) body: Activation,
}

impl Engine {
    /// A body has ended: this is noted, and its promise is settled.
    fn settle_end(
        &mut self,
        promises: &mut Promises,
        event: Event,
        url: &str,
        done: PromiseId,
        how: Settled,
    ) -> Result<(), Stop>
        ensures { SettlesEnd self.old promises.old event url.now done.0 (settled_of how) result
            self.new promises.new }
    {
        match self.note(event, url) {
            Ok(()) => {
                promises.settle(done, how);
                Ok(())
            }
            Err(stop) => Err(stop),
        }
    }

    /// A body that awaits has ended a segment: at an await it stands, else the promise of its end is settled.
    pub(crate) fn end_segment<I: Importer>(
        &mut self,
        promises: &mut Promises,
        imports: &I,
        m: ModuleId,
        done: PromiseId,
        halt: Halt,
    ) -> Result<(), Stop>
        requires { halt.body.at.0 ≡ m.0 }
        ensures ends { (scopes : Scopes) (errors : errors.Errors)
            → EndsSegment (I.urls imports.now) m.0 done.0 halt
            (state_of self.old scopes promises.old errors (I.seen imports.now)) result
            (state_of self.new scopes promises.new errors (I.seen imports.now)) }
        ensures stands { OnOk result
            (StandsBehind self.old.standing.items done halt.ended halt.body self.new.standing.items) }
    {
        let Halt { ended, body } = halt;
        match ended {
            Ended::Normal => {
                let how = Settled::Fulfilled(Value::Undefined);
                self.settle_end(promises, Event::Ends(m), imports.url(m), done, how)
            }
            Ended::Thrown(value) => {
                let how = Settled::Rejected(value);
                self.settle_end(promises, Event::Throws(m), imports.url(m), done, how)
            }
            Ended::Awaits(value, purpose) => {
                let standing = Standing {
                    done,
                    body,
                    purpose,
                };
                match self.stand(promises, m, standing, value) {
                    Ok(()) => Ok(()),
                    Err(Memory) => Err(Stop::Memory),
                }
            }
        }
    }

    /// A body that doesn't await has ended so: this is noted.
    fn note_ran(&mut self, event: Event, url: &str, how: Ran) -> Result<Ran, Stop>
        ensures { NotesRan self.old event url.now how result self.new }
    {
        match self.note(event, url) {
            Ok(()) => Ok(how),
            Err(stop) => Err(stop),
        }
    }

    /// A body that doesn't await has ended.
    pub(crate) fn end_body<I: Importer>(
        &mut self,
        imports: &I,
        m: ModuleId,
        ended: Ended,
    ) -> Result<Ran, Stop>
        requires { IsFinal ended }
        ensures ends { (now : Activation) (scopes : Scopes) (promises : Numbered)
            (errors : errors.Errors) → EndsBody (I.urls imports.now) m.0 ended now
            (state_of self.old scopes promises errors (I.seen imports.now)) result
            (state_of self.new scopes promises errors (I.seen imports.now)) }
        ensures stands { OnOk result (self.new.standing ≡ self.old.standing) }
    {
        match ended {
            Ended::Normal => self.note_ran(Event::Ends(m), imports.url(m), Ran::Normal),
            Ended::Thrown(value) => {
                self.note_ran(Event::Throws(m), imports.url(m), Ran::Thrown(value))
            }
            Ended::Awaits(_value, _purpose) => unreachable!(),
        }
    }
}
