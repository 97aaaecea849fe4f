// Promises and jobs.
ghost use Rattle.std.specs.Prelude.{◌≡◌, ◌+◌, ◌≤◌, ◌++◌, [], ◌∷◌, length, OnOk, OnErr, IfOk};
ghost use Rattle.std.specs.VecDeque.{deque_len, deque_capacity};
ghost use Rattle.esm_values.specs.Code.{value_of};
ghost use Rattle.esm_promise.specs.Promises as spec;
ghost use Rattle.esm_promise.specs.Code.{reaction_of, settled_of, told, IsTaken};
ghost use Rattle.esm_promise.specs.Inner.Queue.{jobs_for, AddsReaction};

use crate::reaction::{Reaction, Settled};
use esm_base::Memory;
use esm_values::{PromiseId, Value};
use std::alloc::Global;
use std::collections::VecDeque;
use std::marker::Model;
use std::mem;

/// A promise.
#[derive(Drop)]
enum Promise {
    /// With its reactions, in order of registration.
    Pending(Vec<Reaction>),
    /// Settled.
    Done(Settled),
}

/// A reaction, and the settled promise whose result it is given.
#[derive(Clone, Copy)]
struct Job {
    reaction: Reaction,
    promise: PromiseId,
}

/// Promises in order of making, and the jobs that are still to run.
#[derive(Drop)]
pub struct Promises {
    all: Vec<Promise>,
    jobs: VecDeque<Job>,
    /// How many reactions wait. The queue has room for the job of each.
    waiting: usize,
}

impl Model for Promises {
    ghost use Rattle.std.specs.Prelude.{◌≡◌, ◌+◌, ◌≤◌, sum_by};
    ghost use Rattle.std.specs.VecDeque.{deque_len, deque_capacity};
    ghost use Rattle.esm_promise.specs.Code.{Numbered};
    ghost use Rattle.esm_promise.specs.Inner.Queue.{promises_of, waiting as waiting_in};

    ghost Value = { Numbered };

    ghost view = { λ p. promises_of p.all.items p.jobs.items };

    ghost invariant = { λ p. (p.waiting ≡ sum_by waiting_in p.all.items)
        × (deque_len p.jobs + p.waiting ≤ deque_capacity p.jobs) };
}

impl Promises {
    /// Without promises or jobs. It doesn't allocate.
    pub fn new(alloc: Global) -> Promises
        ensures { result ≡ spec.no_promises }
    {
        Promises {
            all: Vec::new(alloc),
            jobs: VecDeque::new(alloc),
            waiting: 0,
        }
    }

    /// A new promise, which is pending. Where memory runs out nothing has changed.
    ///
    /// ECMA-262, NewPromiseCapability.
    pub fn make(&mut self, alloc: Global) -> Result<PromiseId, Memory>
        ensures id { IfOk result (λ p. p.0 ≡ spec.next_promise self.old) }
        ensures ok { OnOk result (self.new ≡ spec.make self.old []) }
        ensures err { OnErr result (self.new ≡ self.old) }
    {
        let id = PromiseId(self.all.len() as u64);
        self.all.push(Promise::Pending(Vec::new(alloc)))?;
        Ok(id)
    }

    /// A new promise, which is pending and has this reaction from the beginning. Where memory runs out nothing has
    /// changed.
    pub fn make_with(&mut self, alloc: Global, reaction: Reaction) -> Result<PromiseId, Memory>
        ensures id { IfOk result (λ p. p.0 ≡ spec.next_promise self.old) }
        ensures ok { OnOk result (self.new ≡ spec.make self.old (reaction_of reaction ∷ [])) }
        ensures err { OnErr result (self.new ≡ self.old) }
    {
        let id = PromiseId(self.all.len() as u64);
        let mut reactions = Vec::with_capacity(alloc, 1)?;
        reactions.push_reserved(reaction);
        self.jobs.reserve(self.waiting + 1)?;
        self.all.push(Promise::Pending(reactions))?;
        self.waiting += 1;
        Ok(id)
    }

    /// A new promise, which is fulfilled with the value already. Where memory runs out nothing has changed.
    ///
    /// ECMA-262, PromiseResolve of a value that is no promise.
    pub fn make_fulfilled(&mut self, value: Value) -> Result<PromiseId, Memory>
        ensures id { IfOk result (λ p. p.0 ≡ spec.next_promise self.old) }
        ensures ok { OnOk result (self.new ≡ spec.make_fulfilled self.old (value_of value)) }
        ensures err { OnErr result (self.new ≡ self.old) }
    {
        let id = PromiseId(self.all.len() as u64);
        self.all.push(Promise::Done(Settled::Fulfilled(value)))?;
        Ok(id)
    }

    /// Registers a reaction: behind the others where the promise is pending, and as a job at once where it is settled.
    /// Room for its job is taken here. An id that wasn't made leaves all as it is. Where memory runs out nothing has
    /// changed.
    ///
    /// ECMA-262, PerformPromiseThen.
    pub fn then(&mut self, on: PromiseId, reaction: Reaction) -> Result<(), Memory>
        ensures ok { OnOk result (self.new ≡ spec.register self.old on.0 (reaction_of reaction)) }
        ensures err { OnErr result (self.new ≡ self.old) }
    {
        let at = on.0 as usize;
        if at >= self.all.len() {
            return Ok(());
        }
        self.jobs.reserve(self.waiting + 1)?;
        let Promises { all, jobs, waiting } = self;
        let added = match add_reaction(&mut all[at], reaction) {
            Ok(added) => added,
            Err(end) => return Err(end),
        };
        if added {
            *waiting += 1;
        } else {
            jobs.push_back_reserved(Job {
                reaction,
                promise: on,
            });
        }
        Ok(())
    }

    /// Settles a promise, and adds the jobs of its reactions in order of registration. It doesn't allocate. A promise
    /// that is settled already is settled anew, without jobs; an id that wasn't made leaves all as it is.
    ///
    /// ECMA-262, FulfillPromise, RejectPromise and TriggerPromiseReactions.
    pub fn settle(&mut self, id: PromiseId, with: Settled)
        ensures { self.new ≡ spec.settle self.old id.0 (settled_of with) }
    {
        let at = id.0 as usize;
        if at < self.all.len() {
            let Promises { all, jobs, waiting } = self;
            match mem::replace(&mut all[at], Promise::Done(with)) {
                Promise::Pending(reactions) => {
                    *waiting -= reactions.len();
                    add_jobs(jobs, id, &reactions);
                }
                Promise::Done(_how) => {}
            }
        }
    }

    /// Takes the oldest job: its reaction, and the settled promise that it belongs to. None exactly where there is
    /// none. It doesn't allocate.
    ///
    /// ECMA-262, Jobs and Host Operations to Enqueue Jobs.
    pub fn pop(&mut self) -> Option<(Reaction, PromiseId)>
        ensures { IsTaken self.old result self.new }
    {
        match self.jobs.pop_front() {
            Some(job) => Some((job.reaction, job.promise)),
            None => None,
        }
    }

    /// What a promise was settled with. None exactly where it is pending or wasn't made. It doesn't allocate.
    pub fn settled(&self, id: PromiseId) -> Option<&Settled>
        ensures { told result ≡ spec.settled self.now id.0 }
    {
        let at = id.0 as usize;
        if at < self.all.len() {
            match &self.all[at] {
                Promise::Pending(_reactions) => None,
                Promise::Done(how) => Some(how),
            }
        } else {
            None
        }
    }

    /// Whether a promise was made and isn't settled. It doesn't allocate.
    pub fn is_pending(&self, id: PromiseId) -> bool
        ensures { result ≡ spec.is_pending self.now id.0 }
    {
        let at = id.0 as usize;
        if at < self.all.len() {
            match &self.all[at] {
                Promise::Pending(_reactions) => true,
                Promise::Done(_how) => false,
            }
        } else {
            false
        }
    }
}

/// Adds a reaction to a promise, unless it is settled. Tells whether it was added.
fn add_reaction(promise: &mut Promise, reaction: Reaction) -> Result<bool, Memory>
    ensures { AddsReaction promise.old reaction result promise.new }
{
    match promise {
        Promise::Pending(reactions) => {
            reactions.push(reaction)?;
            Ok(true)
        }
        Promise::Done(_how) => Ok(false),
    }
}

/// Adds the jobs of reactions to a promise, in order. The queue has room for them.
fn add_jobs(jobs: &mut VecDeque<Job>, promise: PromiseId, reactions: &[Reaction])
    requires { deque_len jobs.old + length reactions.now ≤ deque_capacity jobs.old }
    ensures items { jobs.new.items ≡ jobs.old.items ++ jobs_for promise reactions.now }
    ensures len { deque_len jobs.new ≡ deque_len jobs.old + length reactions.now }
    ensures capacity { deque_capacity jobs.new ≡ deque_capacity jobs.old }
{
    for i in 0..reactions.len() {
        let reaction = reactions[i];
        jobs.push_back_reserved(Job { reaction, promise });
    }
}
