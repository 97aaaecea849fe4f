// The lock.
ghost use Rattle.std.specs.Prelude.{◌≡◌, ℕ, ◌+◌, ◌<◌, None, [], ◌++◌, IfOk, IsOk, MatchResult};
ghost use Rattle.esm_hlock.specs.Makers.{makers_of, Continues, IsStep, AreSteps, added, number_after, numbers_after};
ghost use Rattle.esm_hlock.specs.Inner.Growth.{MayGrow};
ghost use Rattle.esm_hlock.specs.Views.{HasAllMakers, longer};
ghost use Rattle.esm_hlock.specs.Closing.{ClosedWith};

use crate::pass::{Held, HeldOf, Pass, PassOf};
use crate::steps::{EndsTurn, JoinsSeats, LooksBack, SplitsSeat, StoresLength, Turns};
use crate::story::Story;
use crate::view::View;
use atomic_table::{Refused, Table};
use esm_base::Memory;
use std::alloc::Global;
use std::snapshot::Snapshot;
use std::sync::Wait;
use std::sync::atomic::AtomicU64;

// The words: the next ticket, the ticket that is served, and the number of entries.
pub(crate) const TICKET: usize = 0;

pub(crate) const SERVING: usize = 1;

const LENGTH: usize = 2;

// The state's slot.
const STATE: usize = 0;

/// A lock round a state whose history only grows. Who enters it finds what its pass has seen, and
/// maybe more behind that. Turns come in the order of the tickets; nothing is proved of when.
#[derive(Drop)]
pub struct Hlock<T: Story + Drop> {
    pub(crate) table: Table<Option<T>, View<T::Entry>, Snapshot<T>, Turns<T>, Global>,
    // How many threads sleep until their turn.
    pub(crate) sleepers: AtomicU64,
    ghost sized: { (table.shared.table_id.words ≡ 3) × (table.shared.table_id.slots ≡ 1) },
}

/// A lock was closed while a `Held` was out. The two words differ, and `serving` is the lesser.
#[derive(Clone, Copy, Debug, PartialEq, Eq)]
pub struct Busy {
    /// The next ticket.
    pub ticket: u64,
    /// The ticket that is served.
    pub serving: u64,
}

impl<T: Story + Drop> Hlock<T> {
    ghost use Rattle.esm_hlock.specs.Words.{knows, found, IsPassOf, IsHeldOf};

    /// A lock round the state, and the pass that has all 1,024 shares and has seen the state's
    /// entries. It has no number, and its list has their makers. Where memory runs out the state is
    /// dropped.
    pub fn new(alloc: Global, state: T) -> Result<(Hlock<T>, Pass<T>), Memory>
        ensures own { IfOk result (λ made. IsPassOf made.0 made.1) }
        ensures seen { IfOk result (λ made. (knows made.1).seen ≡ T.story state) }
        ensures shares { IfOk result (λ made. (knows made.1).shares ≡ 1024) }
        ensures numbers { IfOk result (λ made. ((knows made.1).number ≡ None)
            × ((knows made.1).numbers ≡ makers_of T.maker (T.story state))) }
        ensures makers { IfOk result (λ made. HasAllMakers T.maker (knows made.1)) }
    {
        let mut slots = Vec::with_capacity(alloc, 1)?;
        let opening = Snapshot::of(&state);
        let length = state.entries().len() as u64;
        slots.push_reserved(Some(state));
        match Table::new(alloc, &[0, 0, length], slots, &opening) {
            Ok((table, seat)) => {
                let sleepers = AtomicU64::new(0);
                Ok((Hlock { table, sleepers }, PassOf { seat }))
            }
            Err(Refused { slots: _ }) => Err(Memory),
        }
    }

    /// Waits for its turn, and takes the state out. The state's entries begin with what the pass
    /// has seen, and none behind that has a number in the pass's list as its maker. It looks
    /// again for a while, and then sleeps. Once 2^64 - 1 tickets were drawn it waits for ever. It
    /// doesn't allocate.
    pub fn enter<R: Wait>(&self, rt: &R, pass: Pass<T>) -> Held<T>
        requires { IsPassOf self.now pass }
        ensures own { IsHeldOf self.now result }
        ensures found { (found result).seen ≡ T.story result.state }
        ensures seen { Continues T.maker (T.story result.state) (knows pass).seen
            (knows pass).numbers }
        ensures shares { (found result).shares ≡ (knows pass).shares }
        ensures numbers { ((found result).number ≡ (knows pass).number)
            × ((found result).numbers ≡ (knows pass).numbers) }
        ensures makers { HasAllMakers T.maker (found result) }
        ensures legal { T.legal (T.story result.state)
            × T.replays (T.story result.state) result.state }
    {
        let PassOf { mut seat } = pass;
        let ticket = self.draw_ticket(rt, &mut seat);
        self.await_turn(rt, &mut seat, ticket);
        let state = self.table.shared.exchange(&mut seat, STATE, None).unwrap();
        HeldOf { seat, state }
    }

    /// Puts the state back, whose entries are those found and at most one more, and ends the turn.
    /// An added entry has no maker or the pass's number. Where the pass has no number, the maker may
    /// be a number that no entry had, which is the pass's own from then on. The pass has seen all
    /// entries. It doesn't allocate.
    pub fn leave(&self, held: Held<T>) -> Pass<T>
        requires own { IsHeldOf self.now held }
        requires step { IsStep T.maker (found held).number (found held).seen (T.story held.state) }
        ensures own { IsPassOf self.now result }
        ensures seen { (knows result).seen ≡ T.story held.state }
        ensures shares { (knows result).shares ≡ (found held).shares }
        ensures number { (knows result).number
            ≡ number_after T.maker (found held).number (added (found held).seen (T.story held.state)) }
        ensures numbers { (knows result).numbers
            ≡ numbers_after T.maker (found held).number (found held).numbers
            (added (found held).seen (T.story held.state)) }
        ensures makers { HasAllMakers T.maker (knows result) }
    {
        self.put_back(held)
    }

    /// The same where the pass has a number, with any number of entries more: each has that number as
    /// its maker, or none. The number and the numbers stay. It doesn't allocate.
    pub fn leave_with_several(&self, held: Held<T>) -> Pass<T>
        requires own { IsHeldOf self.now held }
        requires steps { AreSteps T.maker (found held).number (found held).seen
            (T.story held.state) }
        ensures own { IsPassOf self.now result }
        ensures seen { (knows result).seen ≡ T.story held.state }
        ensures shares { (knows result).shares ≡ (found held).shares }
        ensures number { (knows result).number ≡ (found held).number }
        ensures numbers { (knows result).numbers ≡ (found held).numbers }
        ensures makers { HasAllMakers T.maker (knows result) }
    {
        self.put_back(held)
    }

    // Puts the state back, with one entry more or several, and ends the turn.
    fn put_back(&self, held: Held<T>) -> Pass<T>
        requires own { IsHeldOf self.now held }
        requires grows { MayGrow T.maker (found held).number (found held).seen
            (T.story held.state) }
        ensures own { IsPassOf self.now result }
        ensures seen { (knows result).seen ≡ T.story held.state }
        ensures shares { (knows result).shares ≡ (found held).shares }
        ensures number { (knows result).number
            ≡ number_after T.maker (found held).number (added (found held).seen (T.story held.state)) }
        ensures numbers { (knows result).numbers
            ≡ numbers_after T.maker (found held).number (found held).numbers
            (added (found held).seen (T.story held.state)) }
        ensures makers { HasAllMakers T.maker (knows result) }
    {
        let HeldOf { mut seat, state } = held;
        let shared = &self.table.shared;
        let length = state.entries().len() as u64;
        drop(shared.exchange(&mut seat, STATE, Some(state)));
        shared.store::<StoresLength<T>>(&mut seat, LENGTH, length);
        shared.fetch_add::<EndsTurn>(&mut seat, SERVING, 1);
        self.wake_sleepers();
        PassOf { seat }
    }

    /// A second pass that has seen the same. It has no number, an empty list of numbers, and one
    /// share of the first pass, which has two or more and keeps all else. It doesn't allocate.
    pub fn split(&self, pass: &mut Pass<T>) -> Pass<T>
        requires own { IsPassOf self.now pass.old }
        requires shares { 1 < (knows pass.old).shares }
        ensures own { IsPassOf self.now pass.new × IsPassOf self.now result }
        ensures seen { ((knows pass.new).seen ≡ (knows pass.old).seen)
            × ((knows result).seen ≡ (knows pass.old).seen) }
        ensures shares { ((knows pass.new).shares + 1 ≡ (knows pass.old).shares)
            × ((knows result).shares ≡ 1) }
        ensures kept { ((knows pass.new).number ≡ (knows pass.old).number)
            × ((knows pass.new).numbers ≡ (knows pass.old).numbers) }
        ensures given { ((knows result).number ≡ None) × ((knows result).numbers ≡ []) }
    {
        let seat = self.table.shared.split_seat::<SplitsSeat>(&mut pass.seat);
        PassOf { seat }
    }

    /// One pass of two. It has seen the longer of what they have seen, which both begin, and behind
    /// the shorter the longer names no number in the shorter one's list. It has the first one's
    /// number, and the shares and the numbers of both. It doesn't allocate.
    pub fn join(&self, one: Pass<T>, other: Pass<T>) -> Pass<T>
        requires own { IsPassOf self.now one × IsPassOf self.now other }
        ensures own { IsPassOf self.now result }
        ensures seen { (knows result).seen ≡ longer (knows one).seen (knows other).seen }
        ensures one { Continues T.maker (knows result).seen (knows one).seen (knows one).numbers }
        ensures other { Continues T.maker (knows result).seen (knows other).seen
            (knows other).numbers }
        ensures shares { (knows result).shares ≡ (knows one).shares + (knows other).shares }
        ensures numbers { ((knows result).number ≡ (knows one).number)
            × ((knows result).numbers ≡ (knows one).numbers ++ (knows other).numbers) }
        ensures makers { HasAllMakers T.maker (knows result) }
    {
        let PassOf { mut seat } = one;
        let PassOf { seat: second } = other;
        let shared = &self.table.shared;
        shared.join_seat::<JoinsSeats>(&mut seat, second);
        shared.load::<LooksBack<T>>(&mut seat, SERVING);
        PassOf { seat }
    }

    /// Ends the lock, and gives the state back where the served ticket is the next one. Else a `Held`
    /// wasn't left, and what the lock still has is dropped. A pass with all shares always gets the
    /// state. It doesn't allocate.
    ///
    /// The clause `exact` says that some table which keeps the rule has these two words and this
    /// pass; that it is this lock's table is read off the code.
    pub fn close(self, pass: Pass<T>) -> Result<T, Busy>
        requires { IsPassOf self pass }
        ensures seen { IfOk result (λ state.
            Continues T.maker (T.story state) (knows pass).seen (knows pass).numbers) }
        ensures legal { IfOk result (λ state.
            T.legal (T.story state) × T.replays (T.story state) state) }
        ensures exact { MatchResult result
            (λ state. (n : ℕ) × ClosedWith T.story T.maker pass.seat.id (knows pass) n n)
            (λ busy. (busy.serving < busy.ticket)
            × ClosedWith T.story T.maker pass.seat.id (knows pass) busy.ticket busy.serving) }
        ensures whole { (knows pass).shares ≡ 1024 → IsOk result }
    {
        let PassOf { seat } = pass;
        let Hlock { table, sleepers: _ } = self;
        let mut closed = table.close_with(seat);
        let ticket = closed.word(TICKET);
        let serving = closed.word(SERVING);
        let slot = closed.take(STATE);
        closed.free();
        if ticket != serving {
            return Err(Busy { ticket, serving });
        }
        Ok(slot.unwrap())
    }
}
