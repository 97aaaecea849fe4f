// How far modules have gone past what they wait for.
ghost use Rattle.std.specs.Prelude.{◌≡◌, ◌<◌, ◌≤◌, ℕ, List, length, map};
ghost use Rattle.esm_eval.specs.Table.{AreKept, ArePassed, PassesTo, is_done_in, node_of};

use crate::nodes::Node;

/// Each module that waits for this one goes past those of its waits that are done.
pub(crate) fn pass_waiters(nodes: &mut Vec<Node>, x: usize)
    ensures same { map node_of nodes.new.items ≡ map node_of nodes.old.items }
    ensures kept { (stamps : List ℕ) → AreKept nodes.old.items stamps
        → AreKept nodes.new.items stamps }
{
    for i in 0..waiter_count(nodes.as_slice(), x) {
        pass_one(nodes, x, i);
    }
}

/// The module of one of these requests does.
fn pass_one(nodes: &mut Vec<Node>, x: usize, i: usize)
    ensures same { map node_of nodes.new.items ≡ map node_of nodes.old.items }
    ensures kept { (stamps : List ℕ) → AreKept nodes.old.items stamps
        → AreKept nodes.new.items stamps }
{
    match waiter_at(nodes.as_slice(), x, i) {
        Some(y) => pass_waits(nodes, y as usize),
        None => {}
    }
}

/// How many requests wait for the module.
fn waiter_count(nodes: &[Node], x: usize) -> usize {
    match nodes.get(x) {
        Some(node) => node.waiters.len(),
        None => 0,
    }
}

/// The module of one of these requests.
fn waiter_at(nodes: &[Node], x: usize, i: usize) -> Option<u32> {
    match nodes.get(x) {
        Some(node) => node.waiters.get(i).copied(),
        None => None,
    }
}

/// A module goes past those of its waits that are done.
fn pass_waits(nodes: &mut Vec<Node>, y: usize)
    ensures same { map node_of nodes.new.items ≡ map node_of nodes.old.items }
    ensures kept { (stamps : List ℕ) → AreKept nodes.old.items stamps
        → AreKept nodes.new.items stamps }
{
    if y < nodes.len() {
        let place = open_place(nodes.as_slice(), y);
        nodes[y].passed = place;
    }
}

/// The place of the first wait of a module that isn't done, from where it has come to.
fn open_place(nodes: &[Node], y: usize) -> usize
    requires { y < length nodes.now }
    ensures { PassesTo nodes.now y result }
{
    let node = &nodes[y];
    open_from(nodes, node.waits.as_slice(), node.passed)
}

/// The place of the first of these waits from here on that isn't done, or how many there are.
fn open_from(nodes: &[Node], waits: &[u32], from: usize) -> usize
    ensures within { from ≤ length waits.now → result ≤ length waits.now }
    ensures passed { ArePassed nodes.now waits.now from → ArePassed nodes.now waits.now result }
{
    for place in from..waits.len() {
        if is_done(nodes, waits[place]) {
            continue;
        }
        return place;
    }
    waits.len()
}

/// Whether a module is done.
fn is_done(nodes: &[Node], y: u32) -> bool
    ensures { result ≡ is_done_in nodes.now y }
{
    match nodes.get(y as usize) {
        Some(node) => node.done,
        None => false,
    }
}
