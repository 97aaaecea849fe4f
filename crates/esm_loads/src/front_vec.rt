// A list whose elements are mostly taken from near its front.
ghost use Rattle.std.specs.Prelude.{◌≡◌, ◌<◌, ◌≤◌, ◌+◌, ◌++◌, [], ◌∷◌, length, drop, OnOk};
ghost use Rattle.std.specs.List.{remove};

use esm_base::Memory;
use std::alloc::Global;
use std::marker::Model;

/// A list that is read as a slice, and whose elements are mostly taken from near its front.
#[derive(Drop)]
pub struct FrontVec<T> {
    /// The elements, behind those that were taken and wait to be dropped.
    items: Vec<T>,
    /// How many wait: never more than are in the list.
    first: usize,
}

impl<T> Model for FrontVec<T> {
    ghost use Rattle.std.specs.Prelude.{List, ◌≤◌, ◌+◌, length, drop};

    ghost Value = { List T };

    ghost view = { λ v. drop v.first v.items.items };

    ghost invariant = { λ v. v.first + v.first ≤ length v.items.items };
}

// Brings an element to the front, and those before it keep their order behind it.
fn bring_to_front<T>(row: &mut [T], at: usize)
    requires { at < length row.old }
    ensures kept { drop 1 row.new ≡ remove row.old at }
    ensures len { length row.new ≡ length row.old }
{
    row[..=at].rotate_right(1);
}

// Takes out the element at a place behind the first ones, and answers how many wait now. The shorter side moves.
fn take_out<T: Drop>(items: &mut Vec<T>, first: usize, at: usize) -> usize
    requires { first + at < length items.old.items }
    ensures within { result ≤ length items.new.items }
    ensures taken { drop result items.new.items ≡ remove (drop first items.old.items) at }
{
    if at < items.len() - first - at {
        bring_to_front(&mut items[first..], at);
        return first + 1;
    }
    items.remove(first + at);
    first
}

// Drops what waits once it is more than what is left, and answers how many wait now.
fn drop_front<T: Drop>(items: &mut Vec<T>, first: usize) -> usize
    requires { first ≤ length items.old.items }
    ensures few { result + result ≤ length items.new.items }
    ensures same { drop result items.new.items ≡ drop first items.old.items }
{
    if first <= items.len() - first {
        return first;
    }
    items.drain(..first);
    0
}

impl<T> FrontVec<T> {
    /// The empty list. It doesn't allocate.
    pub fn new(alloc: Global) -> FrontVec<T>
        ensures { result ≡ [] }
    {
        FrontVec {
            items: Vec::new(alloc),
            first: 0,
        }
    }

    /// The elements in order.
    pub fn as_slice(&self) -> &[T]
        ensures { result.now ≡ self.now }
    {
        &self.items[self.first..]
    }
}

impl<T: Drop> FrontVec<T> {
    /// One more element, behind all others.
    pub fn push(&mut self, item: T) -> Result<(), Memory>
        ensures { OnOk result (self.new ≡ self.old ++ item ∷ []) }
    {
        self.items.push(item)?;
        Ok(())
    }

    /// Drops the element at a place. Those before it move or those behind it, whichever are fewer: near either end it costs
    /// little, and in the middle half of the length. What waits at the front is dropped once it is more than half, at a
    /// constant cost for each call.
    pub fn remove(&mut self, at: usize)
        requires { at < length self.old }
        ensures { self.new ≡ remove self.old at }
    {
        let first = take_out(&mut self.items, self.first, at);
        self.first = drop_front(&mut self.items, first);
    }

    /// Drops all elements.
    pub fn clear(&mut self)
        ensures { self.new ≡ [] }
    {
        self.items.clear();
        self.first = 0;
    }
}
