// A lock round a list of notes, and threads that add to it.
ghost use Rattle.std.specs.Prelude.{◌≡◌, ◌<◌, ◌++◌, ◌∷◌, [], None, Some, IfOk, IsTrue, MatchBool};
ghost use Rattle.esm_hlock.specs.Words.{knows, IsPassOf};

use crate::telling::{SHORT, Told, holds, told_of};
use esm_base::Memory;
use esm_hlock::{Hlock, Pass, Story};
use std::alloc::Global;
use std::marker::Sync;
use std::sync::Wait;
use std::thread::{Threads, join};

// The step-th note of a thread.
#[derive(Clone, Copy, PartialEq, Eq)]
struct Note {
    thread: u64,
    step: u64,
}

// Notes that name no maker.
#[derive(Drop)]
struct Notes {
    notes: Vec<Note>,
}

impl Story for Notes {
    type Entry = Note;

    ghost story = { λ state. state.notes.items };

    ghost maker = { λ _. None };

    ghost legal = { λ _. Unit {0} };

    ghost replays = { λ _ _. Unit {0} };

    fn entries(&self) -> &[Note] {
        self.notes.as_slice()
    }

    ghost lawful = { λ _. tt };

    ghost whole = { λ _. tt };
}

impl Notes {
    // False where memory runs out.
    fn add(&mut self, note: Note) -> bool
        ensures { MatchBool result (self.new.notes.items ≡ self.old.notes.items ++ note ∷ [])
            (self.new.notes.items ≡ self.old.notes.items) }
    {
        if self.notes.reserve(1).is_err() {
            return false;
        }
        self.notes.push_reserved(note);
        true
    }
}

// A lock round no notes, and the pass with all shares.
fn lock_round_nothing(alloc: Global) -> Result<(Hlock<Notes>, Pass<Notes>), Memory>
    ensures { IfOk result (λ made. IsPassOf made.0 made.1 × ((knows made.1).shares ≡ 1024)) }
{
    let notes = Vec::new(alloc);
    Hlock::new(alloc, Notes { notes })
}

// One turn, in which a note is added.
fn add_note<R: Wait>(rt: &R, lock: &Hlock<Notes>, pass: Pass<Notes>, note: Note) -> Pass<Notes>
    requires { IsPassOf lock.now pass }
    ensures { IsPassOf lock.now result }
{
    let mut held = lock.enter(rt, pass);
    held.state().add(note);
    lock.leave(held)
}

// Notes whose threads are their makers.
#[derive(Drop)]
struct Signed {
    notes: Notes,
}

impl Story for Signed {
    type Entry = Note;

    ghost use Rattle.std.specs.Prelude.{Some};

    ghost story = { λ state. state.notes.notes.items };

    ghost maker = { λ note. Some note.thread };

    ghost legal = { λ _. Unit {0} };

    ghost replays = { λ _ _. Unit {0} };

    fn entries(&self) -> &[Note] {
        self.notes.notes.as_slice()
    }

    ghost lawful = { λ _. tt };

    ghost whole = { λ _. tt };
}

// The first note of a thread. The pass has all shares and lists no maker, so the thread is new, and
// is the pass's number from then on.
fn sign<R: Wait>(
    rt: &R,
    lock: &Hlock<Signed>,
    pass: Pass<Signed>,
    note: Note,
) -> (Pass<Signed>, bool)
    requires own { IsPassOf lock.now pass }
    requires alone { ((knows pass).shares ≡ 1024) × ((knows pass).number ≡ None)
        × ((knows pass).numbers ≡ []) }
    ensures own { IsPassOf lock.now result.0 }
    ensures number { IsTrue result.1 → (knows result.0).number ≡ Some note.thread }
{
    let mut held = lock.enter(rt, pass);
    let added = held.state().notes.add(note);
    (lock.leave(held), added)
}

// The notes of one thread, each in a turn of its own.
fn note_all<R: Wait>(
    rt: &R,
    lock: &Hlock<Notes>,
    mut pass: Pass<Notes>,
    thread: u64,
    count: u64,
) -> Pass<Notes>
    requires { IsPassOf lock.now pass }
    ensures { IsPassOf lock.now result }
{
    for step in 0..count {
        pass = add_note(rt, lock, pass, Note { thread, step });
    }
    pass
}

// Two threads, each with its notes.
fn note_in_two<R: Threads + Wait + Sync>(
    rt: &R,
    lock: &Hlock<Notes>,
    one: Pass<Notes>,
    other: Pass<Notes>,
    threads: (u64, u64),
) -> Pass<Notes>
    requires { IsPassOf lock.now one × IsPassOf lock.now other }
    ensures { IsPassOf lock.now result }
{
    let (first, second) = threads;
    let (one, other) = join(
        rt,
        || -> Pass<Notes>
            requires { IsPassOf lock.now one }
            ensures { IsPassOf lock.entry.now result }
        { note_all(rt, lock, one, first, 100) },
        || -> Pass<Notes>
            requires { IsPassOf lock.now other }
            ensures { IsPassOf lock.entry.now result }
        { note_all(rt, lock, other, second, 100) },
    );
    lock.join(one, other)
}

// Four threads, each with its notes.
fn note_in_four<R: Threads + Wait + Sync>(
    rt: &R,
    lock: &Hlock<Notes>,
    mut first: Pass<Notes>,
) -> Pass<Notes>
    requires own { IsPassOf lock.now first }
    requires shares { (knows first).shares ≡ 1024 }
    ensures { IsPassOf lock.now result }
{
    let second = lock.split(&mut first);
    let third = lock.split(&mut first);
    let fourth = lock.split(&mut first);
    let (one, other) = join(
        rt,
        || -> Pass<Notes>
            requires { IsPassOf lock.now first × IsPassOf lock.now second }
            ensures { IsPassOf lock.entry.now result }
        { note_in_two(rt, lock, first, second, (0, 1)) },
        || -> Pass<Notes>
            requires { IsPassOf lock.now third × IsPassOf lock.now fourth }
            ensures { IsPassOf lock.entry.now result }
        { note_in_two(rt, lock, third, fourth, (2, 3)) },
    );
    lock.join(one, other)
}

// How many notes each thread has, if each thread's are in its order.
fn counts(notes: &[Note]) -> Option<[u64; 4]> {
    let mut counts = [0; 4];
    for note in notes {
        if note.thread >= 4 {
            return None;
        }
        let thread = note.thread as usize;
        if counts[thread] != note.step {
            return None;
        }
        counts[thread] = note.step.checked_add(1)?;
    }
    Some(counts)
}

// Tells where the lock doesn't end with these notes.
fn ends_with(lock: Hlock<Notes>, pass: Pass<Notes>, wanted: &[Note]) -> Told
    requires { IsPassOf lock pass }
{
    match lock.close(pass) {
        Ok(state) => holds(state.notes.as_slice() == wanted, "other notes"),
        Err(_busy) => Err("busy"),
    }
}

// A turn adds one entry.
fn a_turn_adds_one<R: Wait>(rt: &R, alloc: Global) -> Result<Told, Memory> {
    let (lock, mut pass) = lock_round_nothing(alloc)?;
    let other = lock.split(&mut pass);
    let added = Note { thread: 0, step: 7 };
    let pass = add_note(rt, &lock, pass, added);
    let pass = lock.join(pass, other);
    Ok(ends_with(lock, pass, [added].as_slice()))
}

// A pass keeps the number of its first entry: a second note of the same thread.
fn signs_twice<R: Wait>(rt: &R, lock: Hlock<Signed>, pass: Pass<Signed>) -> Told
    requires own { IsPassOf lock pass }
    requires alone { ((knows pass).shares ≡ 1024) × ((knows pass).number ≡ None)
        × ((knows pass).numbers ≡ []) }
{
    let first = Note { thread: 5, step: 0 };
    let (pass, signed) = sign(rt, &lock, pass, first);
    if !signed {
        return Err(SHORT);
    }
    let second = Note { thread: 5, step: 1 };
    let mut held = lock.enter(rt, pass);
    if !held.state().notes.add(second) {
        return Err(SHORT);
    }
    let pass = lock.leave(held);
    match lock.close(pass) {
        Ok(state) => holds(
            state.entries() == [first, second].as_slice(),
            "other signed notes",
        ),
        Err(_busy) => Err("busy"),
    }
}

// The same of a new lock.
fn a_pass_keeps_its_number<R: Wait>(rt: &R, alloc: Global) -> Result<Told, Memory> {
    let notes = Vec::new(alloc);
    let signed = Signed {
        notes: Notes { notes },
    };
    let (lock, pass) = Hlock::new(alloc, signed)?;
    Ok(signs_twice(rt, lock, pass))
}

// Four threads keep their orders.
fn four_keep_their_orders<R: Threads + Wait + Sync>(rt: &R, alloc: Global) -> Result<Told, Memory> {
    let (lock, pass) = lock_round_nothing(alloc)?;
    let pass = note_in_four(rt, &lock, pass);
    match lock.close(pass) {
        Ok(state) => Ok(holds(
            counts(state.notes.as_slice()) == Some([100, 100, 100, 100]),
            "another order",
        )),
        Err(_busy) => Ok(Err("busy")),
    }
}

// So do they twenty times.
fn four_keep_them_always<R: Threads + Wait + Sync>(rt: &R, alloc: Global) -> Told {
    let mut told = Ok(());
    for _ in 0..20 {
        told = told.and(told_of(four_keep_their_orders(rt, alloc)));
    }
    told
}

// A lock is busy where a turn wasn't ended.
fn an_open_turn_is_busy<R: Wait>(rt: &R, alloc: Global) -> Result<Told, Memory> {
    let (lock, mut pass) = lock_round_nothing(alloc)?;
    let other = lock.split(&mut pass);
    drop(lock.enter(rt, other));
    match lock.close(pass) {
        Ok(_state) => Ok(Err("not busy")),
        Err(busy) => Ok(holds(busy.ticket == 1 && busy.serving == 0, "another ticket")),
    }
}

#[test]
fn turns_are_taken_in_order(rt: HostRuntime) -> Told {
    let alloc = rt.alloc();
    told_of(a_turn_adds_one(&rt, alloc))
        .and(told_of(a_pass_keeps_its_number(&rt, alloc)))
        .and(four_keep_them_always(&rt, alloc))
        .and(told_of(an_open_turn_is_busy(&rt, alloc)))
}
