// What evaluation keeps of modules.
ghost use Rattle.std.specs.Prelude.{◌≡◌, ◌<◌, ◌++◌, [], ◌∷◌, nat_eq, length, slice_get, Some, true, not, IsTrue, IsSome, OnOk, OnErr};
ghost use Rattle.std.specs.Option.{option_map, option_copied, option_or, unwrap_or};
ghost use Rattle.esm_base.specs.Lists.{is_in};
ghost use Rattle.esm_values.specs.Code.{value_of};
ghost use Rattle.esm_eval.specs.Nodes as spec;
ghost use Rattle.esm_eval.specs.EndSteps.{Says};
ghost use Rattle.esm_eval.specs.Inner.Ready.{RepeatsAt, is_async, no_error};
ghost use Rattle.esm_eval.specs.Table.{AreDone, IsOrderOf, node_at, no_nodes, phase_of, size, with_node, with_one, with_stamp};

use crate::passing::pass_waiters;
use esm_base::{MAX_URLS, Memory};
use esm_values::{PromiseId, Value};
use std::alloc::Global;
use std::marker::Model;

/// How far the evaluation of a module has come.
///
/// ECMA-262, [[Status]]: before it is entered, loading and linking tell.
#[derive(Clone, Copy, Debug, PartialEq, Eq)]
pub enum Phase {
    /// No evaluation has entered it.
    NotEntered,
    /// The walk of an evaluation has it on its stack.
    Evaluating,
    /// It waits, or its body awaits.
    EvaluatingAsync,
    /// It is evaluated, with or without an error.
    Evaluated,
}

/// The fields of a module record that evaluation writes.
#[derive(Drop)]
pub(crate) struct Node {
    pub(crate) phase: Phase,
    pub(crate) error: Option<Value>,
    pub(crate) cycle_root: Option<u32>,
    pub(crate) promise: Option<PromiseId>,
    pub(crate) done: bool,
    /// Its order of asynchronous evaluation: its place among the modules that have one.
    pub(crate) order: Option<usize>,
    pub(crate) waits: Vec<u32>,
    pub(crate) waiters: Vec<u32>,
    /// The modules of its waits before this place are done.
    pub(crate) passed: usize,
}

// Once there are so many nodes, room is taken for all that a run may have, so that the list isn't moved again.
const MANY: usize = 256;

/// Makes room for all nodes at once, where there are many.
fn make_room(nodes: &mut Vec<Node>) -> Result<(), Memory>
    ensures { nodes.new.items ≡ nodes.old.items }
{
    if nodes.len() == MANY {
        nodes.reserve(MAX_URLS - MANY)?;
    }
    Ok(())
}

/// The nodes of modules by their ids, and the modules that have an order of asynchronous evaluation, in that order.
#[derive(Drop)]
pub struct Nodes {
    nodes: Vec<Node>,
    stamps: Vec<u32>,
}

impl Model for Nodes {
    ghost use Rattle.esm_eval.specs.EndSteps.{Says};
    ghost use Rattle.esm_eval.specs.Inner.Ready.{is_async, no_error};
    ghost use Rattle.esm_eval.specs.Table.{AreKept, Table, table_of};

    ghost Value = { Table };

    ghost view = { λ n. table_of n.nodes.items n.stamps.items };

    ghost invariant = { λ n. AreKept n.nodes.items n.stamps.items };
}

impl Nodes {
    /// Without nodes. It doesn't allocate.
    pub fn new(alloc: Global) -> Nodes
        ensures { result ≡ no_nodes }
    {
        Nodes {
            nodes: Vec::new(alloc),
            stamps: Vec::new(alloc),
        }
    }

    /// The next module has a node. Where memory runs out nothing has changed.
    pub fn add(&mut self, alloc: Global) -> Result<(), Memory>
        ensures ok { OnOk result (self.new ≡ with_one self.old) }
        ensures err { OnErr result (self.new ≡ self.old) }
    {
        make_room(&mut self.nodes)?;
        let waits = Vec::new(alloc);
        let waiters = Vec::new(alloc);
        self.nodes.push(Node {
            phase: Phase::NotEntered,
            error: None,
            cycle_root: None,
            promise: None,
            done: false,
            order: None,
            waits,
            waiters,
            passed: 0,
        })?;
        Ok(())
    }

    /// How far the evaluation of the module has come. A module without a node hasn't been entered.
    pub fn phase(&self, x: u32) -> Phase
        ensures { phase_of result ≡ (node_at self.now x).phase }
    {
        let at = x as usize;
        if at < self.nodes.len() {
            self.nodes[at].phase
        } else {
            Phase::NotEntered
        }
    }

    /// Whether an evaluation has entered the module.
    pub(crate) fn was_entered(&self, x: u32) -> bool
        ensures { result ≡ spec.was_entered (node_at self.now x).phase }
    {
        match self.phase(x) {
            Phase::NotEntered => false,
            Phase::Evaluating => true,
            Phase::EvaluatingAsync => true,
            Phase::Evaluated => true,
        }
    }

    /// Whether the module is evaluated.
    pub(crate) fn is_evaluated(&self, x: u32) -> bool
        ensures { Says result ((node_at self.now x).phase ≡ spec.Evaluated) }
    {
        match self.phase(x) {
            Phase::NotEntered => false,
            Phase::Evaluating => false,
            Phase::EvaluatingAsync => false,
            Phase::Evaluated => true,
        }
    }

    /// Whether the walk of an evaluation has the module on its stack.
    pub(crate) fn is_evaluating(&self, x: u32) -> bool
        ensures { Says result ((node_at self.now x).phase ≡ spec.Evaluating) }
    {
        match self.phase(x) {
            Phase::NotEntered => false,
            Phase::Evaluating => true,
            Phase::EvaluatingAsync => false,
            Phase::Evaluated => false,
        }
    }

    /// Whether the module waits, or its body awaits.
    pub(crate) fn is_async(&self, x: u32) -> bool
        ensures { result ≡ is_async (node_at self.now x).phase }
    {
        match self.phase(x) {
            Phase::NotEntered => false,
            Phase::Evaluating => false,
            Phase::EvaluatingAsync => true,
            Phase::Evaluated => false,
        }
    }

    /// The module is so far.
    pub(crate) fn set_phase(&mut self, x: u32, phase: Phase)
        requires { x < size self.old }
        ensures { self.new ≡ with_node self.old x
            (record (node_at self.old x) { phase = phase_of phase }) }
    {
        self.nodes[x as usize].phase = phase;
    }

    /// Whether the module is done: its order of asynchronous evaluation is.
    pub(crate) fn is_done(&self, x: u32) -> bool
        ensures { result ≡ (node_at self.now x).done }
    {
        let at = x as usize;
        if at < self.nodes.len() {
            self.nodes[at].done
        } else {
            false
        }
    }

    /// The order of asynchronous evaluation that the module has: its place among the modules that have one.
    pub(crate) fn order(&self, x: u32) -> Option<usize>
        ensures order { IsOrderOf self.now.stamps x result }
        ensures has { IsSome result → x < size self.now }
    {
        let at = x as usize;
        if at < self.nodes.len() {
            self.nodes[at].order
        } else {
            None
        }
    }

    /// Whether the module has an order of asynchronous evaluation.
    pub(crate) fn is_stamped(&self, x: u32) -> bool
        ensures stamped { result ≡ is_in nat_eq self.now.stamps x }
        ensures has { IsTrue result → x < size self.now }
    {
        match self.order(x) {
            Some(_place) => true,
            None => false,
        }
    }

    /// The promise that the module keeps.
    pub(crate) fn promise(&self, x: u32) -> Option<PromiseId>
        ensures { option_map (λ p. p.0) result ≡ (node_at self.now x).promise }
    {
        let at = x as usize;
        if at < self.nodes.len() {
            self.nodes[at].promise
        } else {
            None
        }
    }

    /// The module's own error.
    pub(crate) fn error(&self, x: u32) -> Option<&Value>
        ensures { option_map value_of (option_copied result) ≡ (node_at self.now x).error }
    {
        let at = x as usize;
        if at < self.nodes.len() {
            match &self.nodes[at].error {
                Some(error) => Some(error),
                None => None,
            }
        } else {
            None
        }
    }

    /// The error of the module, or else that of its cycle root.
    pub(crate) fn error_of(&self, x: u32) -> Option<&Value>
        ensures { option_map value_of (option_copied result) ≡ option_or (node_at self.now x).error
            (node_at self.now (unwrap_or (node_at self.now x).cycle_root x)).error }
    {
        match self.error(x) {
            Some(error) => Some(error),
            None => self.error(self.root_of(x)),
        }
    }

    /// Whether the module has an error of its own.
    pub(crate) fn has_error(&self, x: u32) -> bool
        ensures { result ≡ not (no_error (node_at self.now x).error) }
    {
        match self.error(x) {
            Some(_error) => true,
            None => false,
        }
    }

    /// The module keeps a promise.
    pub(crate) fn set_promise(&mut self, x: u32, promise: PromiseId)
        requires { x < size self.old }
        ensures { self.new ≡ with_node self.old x
            (record (node_at self.old x) { promise = Some promise.0 }) }
    {
        self.nodes[x as usize].promise = Some(promise);
    }

    /// The module is taken off the stack, with its cycle root.
    pub(crate) fn close(&mut self, x: u32, phase: Phase, root: u32)
        requires has { x < size self.old }
        requires root { root < size self.old }
        ensures { self.new ≡ with_node self.old x
            (record (node_at self.old x) { phase = phase_of phase; cycle_root = Some root }) }
    {
        let node = &mut self.nodes[x as usize];
        node.phase = phase;
        node.cycle_root = Some(root);
    }

    /// The module fails on the stack.
    pub(crate) fn fail(&mut self, x: u32, error: Value)
        requires { x < size self.old }
        ensures { self.new ≡ with_node self.old x
            (record (node_at self.old x) { phase = spec.Evaluated; error = Some (value_of error) }) }
    {
        let node = &mut self.nodes[x as usize];
        node.phase = Phase::Evaluated;
        node.error = Some(error);
    }

    /// The module is done, without an error. Those that wait for it go past this wait.
    pub(crate) fn finish(&mut self, x: u32)
        requires { x < size self.old }
        ensures { self.new ≡ with_node self.old x
            (record (node_at self.old x) { phase = spec.Evaluated; done = true }) }
    {
        let node = &mut self.nodes[x as usize];
        node.phase = Phase::Evaluated;
        node.done = true;
        pass_waiters(&mut self.nodes, x as usize);
    }

    /// The module is done, with an error.
    pub(crate) fn refuse(&mut self, x: u32, error: Value)
        requires { x < size self.old }
        ensures { self.new ≡ with_node self.old x
            (record (node_at self.old x) { phase = spec.Evaluated; error = Some (value_of error); done = true }) }
    {
        let node = &mut self.nodes[x as usize];
        node.phase = Phase::Evaluated;
        node.error = Some(error);
        node.done = true;
    }

    /// The cycle root of the module, or itself.
    pub(crate) fn root_of(&self, x: u32) -> u32
        ensures { result ≡ unwrap_or (node_at self.now x).cycle_root x }
    {
        let at = x as usize;
        if at < self.nodes.len() {
            match self.nodes[at].cycle_root {
                Some(root) => root,
                None => x,
            }
        } else {
            x
        }
    }

    /// How many requests the module waits for, or has waited for.
    pub(crate) fn wait_count(&self, x: u32) -> usize
        ensures { result ≡ length (node_at self.now x).waits }
    {
        let at = x as usize;
        if at < self.nodes.len() {
            self.nodes[at].waits.len()
        } else {
            0
        }
    }

    /// The module waits for another one more time.
    pub(crate) fn push_wait(&mut self, x: u32, y: u32) -> Result<(), Memory>
        requires has { x < size self.old }
        requires other { y < size self.old }
        ensures ok { OnOk result (self.new ≡ with_node self.old x
            (record (node_at self.old x) { waits = (node_at self.old x).waits ++ y ∷ [] })) }
        ensures size { size self.new ≡ size self.old }
    {
        let node = &mut self.nodes[x as usize];
        node.waits.push(y)?;
        Ok(())
    }

    /// Another module waits for this one.
    pub(crate) fn push_waiter(&mut self, x: u32, y: u32) -> Result<(), Memory>
        requires has { x < size self.old }
        requires other { y < size self.old }
        ensures ok { OnOk result (self.new ≡ with_node self.old x
            (record (node_at self.old x) { waiters = (node_at self.old x).waiters ++ y ∷ [] })) }
        ensures size { size self.new ≡ size self.old }
    {
        let node = &mut self.nodes[x as usize];
        node.waiters.push(y)?;
        Ok(())
    }

    /// Whether the module waits for none, and has waited for none.
    pub(crate) fn waits_for_none(&self, x: u32) -> bool
        ensures { Says result ((node_at self.now x).waits ≡ []) }
    {
        self.wait_count(x) == 0
    }

    /// A place before which all modules are done for which the requests of this one wait.
    pub(crate) fn passed(&self, x: u32) -> usize
        ensures { AreDone self.now (node_at self.now x).waits result }
    {
        let at = x as usize;
        if at < self.nodes.len() {
            self.nodes[at].passed
        } else {
            0
        }
    }

    /// The module for which one of these requests waits.
    pub(crate) fn wait(&self, x: u32, i: usize) -> u32
        requires has { x < size self.now }
        requires within { i < length (node_at self.now x).waits }
        ensures { slice_get (node_at self.now x).waits i ≡ Some result }
    {
        self.nodes[x as usize].waits[i]
    }

    /// How many requests wait for the module.
    pub(crate) fn waiter_count(&self, x: u32) -> usize
        ensures { result ≡ length (node_at self.now x).waiters }
    {
        let at = x as usize;
        if at < self.nodes.len() {
            self.nodes[at].waiters.len()
        } else {
            0
        }
    }

    /// The module of one of these requests.
    pub(crate) fn waiter(&self, x: u32, i: usize) -> u32
        requires has { x < size self.now }
        requires within { i < length (node_at self.now x).waiters }
        ensures { slice_get (node_at self.now x).waiters i ≡ Some result }
    {
        self.nodes[x as usize].waiters[i]
    }

    /// Whether one of these requests is of the same module as the one before it.
    pub(crate) fn repeats(&self, x: u32, i: usize) -> bool
        requires has { x < size self.now }
        requires within { i < length (node_at self.now x).waiters }
        ensures { IsTrue result → RepeatsAt (node_at self.now x).waiters i }
    {
        if i == 0 {
            return false;
        }
        self.waiter(x, i - 1) == self.waiter(x, i)
    }

    /// How many modules have an order of asynchronous evaluation.
    pub(crate) fn stamp_count(&self) -> usize
        ensures { result ≡ length self.now.stamps }
    {
        self.stamps.len()
    }

    /// One of these modules, in that order.
    pub(crate) fn stamp(&self, k: usize) -> u32
        requires { k < length self.now.stamps }
        ensures { slice_get self.now.stamps k ≡ Some result }
    {
        self.stamps[k]
    }

    /// The module has the next order of asynchronous evaluation.
    pub(crate) fn add_stamp(&mut self, x: u32) -> Result<(), Memory>
        requires { x < size self.old }
        ensures ok { OnOk result (self.new ≡ with_stamp self.old x) }
        ensures size { size self.new ≡ size self.old }
    {
        let place = self.stamps.len();
        self.stamps.push(x)?;
        self.nodes[x as usize].order = Some(place);
        Ok(())
    }
}
