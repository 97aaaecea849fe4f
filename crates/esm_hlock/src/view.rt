// What a seat at the lock's table knows. It is there for the proofs alone.
use std::collections::LinkedList;

/// What a pass had seen when it was joined with another, and its list of numbers then. No value of it is made.
pub struct Joined<E> {
    /// The entries that it had seen.
    pub seen: LinkedList<E>,
    /// The numbers in its list.
    pub numbers: LinkedList<u64>,
}

/// What a pass or a `Held` knows. No value of it is made.
pub struct View<E> {
    /// It waits for its turn, or has it.
    pub has_ticket: bool,
    /// The ticket, where it has one.
    pub ticket: u64,
    /// Its ticket is served, so the state is its own until its turn ends.
    pub has_state: bool,
    /// The entries that it has seen, a beginning of the history.
    pub seen: LinkedList<E>,
    /// Its part of the 1,024 shares.
    pub shares: u64,
    /// The number that its own entries name.
    pub number: Option<u64>,
    /// The makers that it answers for.
    pub numbers: LinkedList<u64>,
    /// The two passes that it was joined from, until its next step.
    pub joined: LinkedList<Joined<E>>,
}
