// Pending requests by URL, and how many each load has.
ghost use Rattle.std.specs.Prelude.{◌≡◌, ◌<◌, ◌+◌, ◌++◌, [], ◌∷◌, length, None, IfSome, OnOk};
ghost use Rattle.std.specs.List.{list_any};
ghost use Rattle.esm_loads.specs.Inner.Requests.{IsPopped, is_of, no_queues, queue_at, push_at};

use crate::data::Waiting;
use esm_base::Memory;
use std::alloc::Global;
use std::collections::VecDeque;
use std::marker::Model;

/// The pending requests of each URL, in order of asking.
#[derive(Drop)]
pub struct Queues {
    /// The queue of each URL, by its place.
    queues: Vec<VecDeque<Waiting>>,
    /// For each load, how many pending requests it has. A sum of lengths of queues needs more than 64 bits.
    counts: Vec<u128>,
    alloc: Global,
}

impl Model for Queues {
    ghost use Rattle.std.specs.Prelude.{length, map};
    ghost use Rattle.std.specs.Coded.{codes};
    ghost use Rattle.esm_loads.specs.Inner.Requests.{QueuesView, queue_items};

    ghost Value = { QueuesView };

    ghost use Rattle.esm_loads.specs.Inner.Counts.{AreCounted};

    ghost view = { λ q. record {
      queues = map queue_items q.queues.items;
      loads = length q.counts.items;
    } };

    ghost invariant = { λ q. AreCounted q.queues.items q.counts.items };
}

// The oldest request of a queue.
fn take_first(queue: &mut VecDeque<Waiting>) -> Option<Waiting>
    ensures some { IfSome result (λ first. queue.old.items ≡ first ∷ queue.new.items) }
    ensures none { result ≡ None → (queue.old.items ≡ []) × (queue.new.items ≡ []) }
{
    queue.pop_front()
}

impl Queues {
    /// No URL, no load and no request.
    pub fn new(alloc: Global) -> Queues
        ensures { result ≡ no_queues }
    {
        Queues {
            queues: Vec::new(alloc),
            counts: Vec::new(alloc),
            alloc,
        }
    }

    /// One more URL, for which nothing waits.
    pub fn add_url(&mut self) -> Result<(), Memory>
        ensures { OnOk result
            (self.new ≡ record self.old { queues = self.old.queues ++ [] ∷ [] }) }
    {
        self.queues.push(VecDeque::new(self.alloc))?;
        Ok(())
    }

    /// One more load, which has no pending request.
    pub fn add_load(&mut self) -> Result<(), Memory>
        ensures { OnOk result (self.new ≡ record self.old { loads = self.old.loads + 1 }) }
    {
        self.counts.push(0)?;
        Ok(())
    }

    /// A request waits behind the others of its URL.
    pub fn push(&mut self, place: usize, waiting: Waiting) -> Result<(), Memory>
        requires place { place < length self.old.queues }
        requires load { waiting.load < self.old.loads }
        ensures { OnOk result
            (self.new ≡ record self.old { queues = push_at self.old.queues place waiting }) }
    {
        self.queues[place].push_back(waiting)?;
        self.counts[waiting.load] += 1;
        Ok(())
    }

    /// Takes the first pending request of a URL.
    pub fn pop(&mut self, place: usize) -> Option<Waiting>
        requires { place < length self.old.queues }
        ensures { IsPopped place self.old self.new result }
    {
        match take_first(&mut self.queues[place]) {
            Some(waiting) => {
                self.counts[waiting.load] -= 1;
                Some(waiting)
            }
            None => None,
        }
    }

    /// Whether a load has a pending request.
    pub fn waits(&self, load: usize) -> bool
        requires { load < self.now.loads }
        ensures { result ≡ list_any (list_any (is_of load)) self.now.queues }
    {
        self.counts[load] > 0
    }
}
