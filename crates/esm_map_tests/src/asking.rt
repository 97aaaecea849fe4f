// URLs that are asked for ahead, and several calls in one turn.
use crate::calls::{Answer, Call, URL, answers_are, opened};
use crate::module_map::ask_numbers;
use crate::telling::{Told, told_of};
use esm_base::{MAX_URLS, Memory};
use esm_module_map::{Asked, Why};
use std::alloc::Global;
use std::sync::Wait;

const A: &str = "https://a.test/a.js";

const B: &str = "https://a.test/b.js";

const C: &str = "https://a.test/c.js";

const D: &str = "https://a.test/d.js";

// What is wanted is taken first, and then what is ahead, each in the order of numbers.
const IN_ORDER: &[(Call, Answer)] = &[
    (Call::Ask(URL), ("New", 0)),
    (Call::Fill(7), ("Posted", 0)),
    (Call::Ahead(0, A), ("New", 1)),
    (Call::Ahead(0, A), ("Waiting", 1)),
    (Call::Ahead(0, B), ("New", 2)),
    (Call::Ask(C), ("New", 3)),
    (Call::Ahead(0, C), ("Waiting", 3)),
    (Call::Fill(1), ("Posted", 3)),
    (Call::Fill(1), ("Posted", 1)),
    (Call::Ahead(0, A), ("Here", 1)),
    (Call::Fill(1), ("Posted", 2)),
    (Call::Fill(1), ("NotYet", 0)),
];

// What is asked for as wanted later on is taken before what is ahead alone. Posts are heard in their order, as many as there
// is room for.
const WANTED_LATER: &[(Call, Answer)] = &[
    (Call::Ask(URL), ("New", 0)),
    (Call::Fill(7), ("Posted", 0)),
    (Call::Ahead(0, A), ("New", 1)),
    (Call::Ahead(0, B), ("New", 2)),
    (Call::Ask(B), ("Waiting", 2)),
    (Call::Fill(3), ("Posted", 2)),
    (Call::Fill(4), ("Posted", 1)),
    (Call::Ask(A), ("Here", 1)),
    (Call::Hear(0, 8, &[(0, 7), (2, 3), (1, 4)]), ("Heard", 0)),
    (Call::Hear(1, 1, &[(2, 3)]), ("Heard", 0)),
    (Call::Hear(3, 8, &[]), ("Heard", 0)),
];

// What is posted weighs as much as may be delivered: what is ahead alone isn't taken, and once it is wanted it is.
const HEAVY: &[(Call, Answer)] = &[
    (Call::Ask(URL), ("New", 0)),
    (Call::Fill(16_777_216), ("Posted", 0)),
    (Call::Ahead(0, A), ("New", 1)),
    (Call::Fill(1), ("NotYet", 0)),
    (Call::Ask(A), ("Waiting", 1)),
    (Call::Fill(1), ("Posted", 1)),
];

// One byte less, and what is ahead is taken once more.
const LIGHTER: &[(Call, Answer)] = &[
    (Call::Ask(URL), ("New", 0)),
    (Call::Fill(16_777_215), ("Posted", 0)),
    (Call::Ahead(0, A), ("New", 1)),
    (Call::Ahead(0, B), ("New", 2)),
    (Call::Fill(1), ("Posted", 1)),
    (Call::Fill(1), ("NotYet", 0)),
    (Call::Ask(B), ("Waiting", 2)),
    (Call::Fill(1), ("Posted", 2)),
];

// Several asks in a turn, and several takes. The one caller takes as many as there are rooms.
const TOGETHER: &[(Call, Answer)] = &[
    (
        Call::AskBoth((URL, Asked::New(0)), (A, Asked::New(1))),
        ("Both", 0),
    ),
    (
        Call::AskBoth((A, Asked::Waiting(1)), (B, Asked::New(2))),
        ("Both", 0),
    ),
    (Call::Fill(7), ("Posted", 0)),
    (
        Call::AskBoth((URL, Asked::Here(0)), (B, Asked::Waiting(2))),
        ("Both", 0),
    ),
    (Call::Ahead(0, C), ("New", 3)),
    (Call::Ahead(0, D), ("New", 4)),
    (Call::Ask(D), ("Waiting", 4)),
    (Call::Serve(3, 1, &[1, 2, 4], &[3]), ("Served", 0)),
    (
        Call::Hear(1, 8, &[(1, 1), (2, 1), (4, 1), (3, 1)]),
        ("Heard", 0),
    ),
    (Call::Serve(3, 1, &[], &[]), ("Served", 0)),
];

// A turn posts before it takes: what it has posted counts.
const HEAVY_TURN: &[(Call, Answer)] = &[
    (Call::Ask(URL), ("New", 0)),
    (Call::Fill(7), ("Posted", 0)),
    (Call::Ahead(0, A), ("New", 1)),
    (Call::Ask(B), ("New", 2)),
    (Call::Serve(1, 16_777_216, &[2], &[]), ("Served", 0)),
    (Call::Ask(A), ("Waiting", 1)),
    (Call::Serve(2, 1, &[1], &[]), ("Served", 0)),
];

// Makes these calls of a new map.
fn holds_anew<R: Wait>(rt: &R, alloc: Global, steps: &[(Call, Answer)]) -> Result<Told, Memory> {
    let (map, mut caller) = opened(rt, alloc)?;
    Ok(answers_are(rt, alloc, &map, &mut caller, steps))
}

const POSTED: &[(Call, Answer)] = &[(Call::Ask(URL), ("New", 0)), (Call::Fill(1), ("Posted", 0))];

const BEHIND_THE_LAST: &[(Call, Answer)] = &[
    (Call::Ahead(0, A), ("Full", 0)),
    (Call::Ask(A), ("New", 4097)),
    (Call::Ahead(0, A), ("Waiting", 4097)),
];

// Asks ahead make as many numbers as there may be, beside those that are wanted, and no more.
fn numbers_ahead_are_bounded<R: Wait>(rt: &R, alloc: Global) -> Result<Told, Memory> {
    let (map, mut caller) = opened(rt, alloc)?;
    let before = answers_are(rt, alloc, &map, &mut caller, POSTED);
    let last = MAX_URLS as u64;
    let ahead = ask_numbers(rt, alloc, &map, &mut caller, Why::Ahead(0), 1, last + 1);
    let behind = answers_are(rt, alloc, &map, &mut caller, BEHIND_THE_LAST);
    Ok(before.and(ahead).and(behind))
}

#[test]
fn urls_are_asked_for_ahead_and_together(rt: HostRuntime) -> Told {
    let alloc = rt.alloc();
    told_of(holds_anew(&rt, alloc, IN_ORDER))
        .and(told_of(holds_anew(&rt, alloc, WANTED_LATER)))
        .and(told_of(holds_anew(&rt, alloc, HEAVY)))
        .and(told_of(holds_anew(&rt, alloc, LIGHTER)))
        .and(told_of(holds_anew(&rt, alloc, TOGETHER)))
        .and(told_of(holds_anew(&rt, alloc, HEAVY_TURN)))
        .and(told_of(numbers_ahead_are_bounded(&rt, alloc)))
}
