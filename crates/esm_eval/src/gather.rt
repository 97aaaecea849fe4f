// Which modules are ready, over nodes and bodies.
ghost use Rattle.std.specs.Prelude.{◌≡◌, true, nat_eq, OnOk, IfOk};
ghost use Rattle.std.specs.BTreeSet.{insert_key};
ghost use Rattle.std.specs.Ordering.{nat_cmp};
ghost use Rattle.esm_base.specs.Lists.{EachOnce};
ghost use Rattle.esm_eval.specs.BodyEnd.{ReadyAmong};
ghost use Rattle.esm_eval.specs.Evaluation as parts;
ghost use Rattle.esm_eval.specs.Host.{HostFits, evaluation};
ghost use Rattle.esm_eval.specs.Inner.Orders.{AreOrders, Joins, has_one_of};
ghost use Rattle.esm_eval.specs.Inner.Ready.{AreAllReady, AreReady, Gathered, IsJoined, one_over, over, ready_by};

use crate::bodies::Bodies;
use crate::host::EvalHost;
use esm_base::{Memory, ModuleId};
use std::collections::BTreeSet;

impl<B: Bodies> EvalHost<B> {
    /// Adds the orders of those that are ready, among the modules that wait for this one and for those that go on with it.
    ///
    /// ECMA-262, GatherAvailableAncestors. It calls itself, as deep as modules wait for one another.
    pub(crate) fn gather(&self, known: &mut BTreeSet<usize>, y: u32) -> Result<(), Memory>
        requires linked { B.linked self.now.bodies y ≡ true }
        requires joined { IsJoined (evaluation B.targets B.awaits B.begun) self.now }
        requires sound { AreReady (evaluation B.targets B.awaits B.begun) self.now
            (has_one_of self.now.nodes.stamps known.old.keys) }
        requires orders { AreOrders self.now.nodes.stamps known.old.keys }
        requires fits { HostFits B.fits B.linked B.knows self.now }
        ensures gathered { OnOk result (Gathered (evaluation B.targets B.awaits B.begun) self.now y
            (has_one_of self.now.nodes.stamps known.old.keys)
            (has_one_of self.now.nodes.stamps known.new.keys)) }
        ensures orders { OnOk result (AreOrders self.now.nodes.stamps known.new.keys) }
    {
        for i in 0..self.nodes.waiter_count(y) {
            if self.nodes.repeats(y, i) {
                continue;
            }
            let x = self.nodes.waiter(y, i);
            let order = match self.joining(known, x) {
                Some(order) => order,
                None => continue,
            };
            put(known, order)?;
            if self.bodies.awaits(ModuleId(x)) {
                continue;
            }
            self.gather(known, x)?;
        }
        Ok(())
    }

    /// The order of a module that is ready where these are, and isn't one of them.
    fn joining(&self, known: &BTreeSet<usize>, x: u32) -> Option<usize>
        requires linked { B.linked self.now.bodies x ≡ true }
        requires distinct { EachOnce nat_eq self.now.nodes.stamps }
        requires fits { HostFits B.fits B.linked B.knows self.now }
        ensures { Joins (evaluation B.targets B.awaits B.begun) self.now known.now.keys x result }
    {
        match self.nodes.order(x) {
            Some(order) => {
                if known.contains(&order) {
                    return None;
                }
                if self.is_ready(known, x) {
                    Some(order)
                } else {
                    None
                }
            }
            None => None,
        }
    }

    /// Whether a module that has an order is ready where these are.
    fn is_ready(&self, known: &BTreeSet<usize>, x: u32) -> bool
        requires linked { B.linked self.now.bodies x ≡ true }
        requires stamped { parts.is_stamped (evaluation B.targets B.awaits B.begun) self.now x
            ≡ true }
        requires distinct { EachOnce nat_eq self.now.nodes.stamps }
        requires fits { HostFits B.fits B.linked B.knows self.now }
        ensures { result ≡ ready_by (evaluation B.targets B.awaits B.begun) self.now
            (has_one_of self.now.nodes.stamps known.now.keys) x }
    {
        if self.nodes.is_async(x) {
            if self.bodies.has_begun(ModuleId(x)) {
                return false;
            }
            if self.nodes.has_error(self.nodes.root_of(x)) {
                return false;
            }
            self.are_over(known, x)
        } else {
            false
        }
    }

    /// Whether all for which a module waits is over where these are ready.
    fn are_over(&self, known: &BTreeSet<usize>, x: u32) -> bool
        requires linked { B.linked self.now.bodies x ≡ true }
        requires distinct { EachOnce nat_eq self.now.nodes.stamps }
        requires fits { HostFits B.fits B.linked B.knows self.now }
        ensures { result ≡ over (evaluation B.targets B.awaits B.begun) self.now
            (has_one_of self.now.nodes.stamps known.now.keys)
            (parts.waits (evaluation B.targets B.awaits B.begun) self.now x) }
    {
        let from = self.nodes.passed(x);
        for k in from..self.nodes.wait_count(x) {
            let y = self.nodes.wait(x, k);
            if self.is_over(known, y) {
                continue;
            }
            return false;
        }
        true
    }

    /// Whether a wait for a module is over where these are ready: it is done, or among them and doesn't await.
    fn is_over(&self, known: &BTreeSet<usize>, y: u32) -> bool
        requires linked { B.linked self.now.bodies y ≡ true }
        requires distinct { EachOnce nat_eq self.now.nodes.stamps }
        ensures { result ≡ one_over (evaluation B.targets B.awaits B.begun) self.now
            (has_one_of self.now.nodes.stamps known.now.keys) y }
    {
        if self.nodes.is_done(y) {
            return true;
        }
        if self.bodies.awaits(ModuleId(y)) {
            return false;
        }
        self.has_gathered(known, y)
    }

    /// Whether a module has one of these orders.
    fn has_gathered(&self, known: &BTreeSet<usize>, y: u32) -> bool
        requires { EachOnce nat_eq self.now.nodes.stamps }
        ensures { result ≡ has_one_of self.now.nodes.stamps known.now.keys y }
    {
        match self.nodes.order(y) {
            Some(order) => known.contains(&order),
            None => false,
        }
    }

    /// The modules that have these orders, which are all that are ready, first to last.
    pub(crate) fn in_order(&self, mut known: BTreeSet<usize>) -> Result<Vec<u32>, Memory>
        requires distinct { EachOnce nat_eq self.now.nodes.stamps }
        requires orders { AreOrders self.now.nodes.stamps known.keys }
        requires ready { AreAllReady (evaluation B.targets B.awaits B.begun) self.now
            (has_one_of self.now.nodes.stamps known.keys) }
        ensures { IfOk result (λ xs. ReadyAmong (evaluation B.targets B.awaits B.begun) self.now
            self.now.nodes.stamps xs.items) }
    {
        let mut modules = Vec::with_capacity(self.alloc, known.len())?;
        while let Some(order) = known.pop_first() {
            modules.push(self.nodes.stamp(order))?;
        }
        Ok(modules)
    }
}

/// Puts an order among these.
fn put(known: &mut BTreeSet<usize>, order: usize) -> Result<(), Memory>
    ensures { OnOk result (known.new.keys ≡ insert_key nat_cmp known.old.keys order) }
{
    known.insert(order)?;
    Ok(())
}
