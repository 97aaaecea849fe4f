// The map in one thread and in two: one URL's way, as many URLs as there may be, and two threads.
ghost use Rattle.std.specs.Prelude.{◌≡◌};
ghost use Rattle.esm_module_map.specs.Views.{table_of};

use crate::calls::{Answer, Body, Call, SHUT, URL, answers_are, ask, fill, is_given, opened, pair};
use crate::telling::{SHORT, Told, holds, told_of};
use esm_base::{MAX_URLS, Memory};
use esm_module_map::{Asked, Caller, ModuleMap, Taken, Why};
use std::alloc::Global;
use std::marker::Sync;
use std::sync::{Arc, Wait};
use std::thread::{Threads, join};

// Fills what it can, a hundred times.
fn fill_hundred<R: Wait>(
    rt: &R,
    alloc: Global,
    map: &ModuleMap<Body>,
    mut caller: Caller<Body>,
) -> Caller<Body>
    requires { table_of map.now.lock.table.shared.table_id caller.pass
        ≡ map.now.lock.table.shared.table_id }
    ensures { table_of map.now.lock.table.shared.table_id result.pass
        ≡ map.now.lock.table.shared.table_id }
{
    for _ in 0..100 {
        fill(rt, alloc, map, &mut caller, 1);
    }
    caller
}

// Two callers, each in a thread, fill what they can.
fn fill_in_two<R: Threads + Wait + Sync>(
    rt: &R,
    alloc: Global,
    map: &ModuleMap<Body>,
    one: Caller<Body>,
    other: Caller<Body>,
) -> Caller<Body>
    requires own { (table_of map.now.lock.table.shared.table_id one.pass
        ≡ map.now.lock.table.shared.table_id) × (table_of map.now.lock.table.shared.table_id other.pass
        ≡ map.now.lock.table.shared.table_id) }
    ensures { table_of map.now.lock.table.shared.table_id result.pass
        ≡ map.now.lock.table.shared.table_id }
{
    let (one, other) = join(
        rt,
        || -> Caller<Body>
            requires { table_of map.now.lock.table.shared.table_id one.pass
                ≡ map.now.lock.table.shared.table_id }
            ensures { table_of map.entry.now.lock.table.shared.table_id result.pass
                ≡ map.entry.now.lock.table.shared.table_id }
        { fill_hundred(rt, alloc, map, one) },
        || -> Caller<Body>
            requires { table_of map.now.lock.table.shared.table_id other.pass
                ≡ map.now.lock.table.shared.table_id }
            ensures { table_of map.entry.now.lock.table.shared.table_id result.pass
                ≡ map.entry.now.lock.table.shared.table_id }
        { fill_hundred(rt, alloc, map, other) },
    );
    map.meet(one, other)
}

// Asks for the URL with this number, which is new.
fn ask_number<R: Wait>(
    rt: &R,
    alloc: Global,
    map: &ModuleMap<Body>,
    caller: &mut Caller<Body>,
    number: u64,
    why: Why,
) -> Told
    requires { table_of map.now.lock.table.shared.table_id caller.old.pass
        ≡ map.now.lock.table.shared.table_id }
    ensures { table_of map.now.lock.table.shared.table_id caller.new.pass
        ≡ map.now.lock.table.shared.table_id }
{
    let Ok(url) = format!(in alloc; "https://a.test/{number}") else {
        return Err(SHORT);
    };
    let answer = ask(rt, alloc, map, caller, url.as_str(), why);
    is_given(answer, ("New", number))
}

/// Asks so for the URLs with the numbers from the first up to the last, all of which are new, and get these numbers.
pub fn ask_numbers<R: Wait>(
    rt: &R,
    alloc: Global,
    map: &ModuleMap<Body>,
    caller: &mut Caller<Body>,
    why: Why,
    first: u64,
    end: u64,
) -> Told
    requires { table_of map.now.lock.table.shared.table_id caller.old.pass
        ≡ map.now.lock.table.shared.table_id }
    ensures { table_of map.now.lock.table.shared.table_id caller.new.pass
        ≡ map.now.lock.table.shared.table_id }
{
    let mut told = Ok(());
    for number in first..end {
        told = told.and(ask_number(rt, alloc, map, caller, number, why));
    }
    told
}

const TAKEN_BY_ANOTHER: &[(Call, Answer)] = &[
    (Call::Fill(1), ("NotYet", 0)),
    (Call::Entry(0), ("None", 0)),
    (Call::PostAt(0), ("None", 0)),
];

const POSTED: &[(Call, Answer)] = &[
    (Call::Entry(0), ("Body", 7)),
    (Call::PostAt(0), ("Post", 0)),
    (Call::PostAt(1), ("None", 0)),
    (Call::Hear(0, 8, &[(0, 7)]), ("Heard", 0)),
    (Call::Hear(1, 8, &[]), ("Heard", 0)),
];

// One takes, the other finds nothing, and then one posts a body that weighs seven.
fn take_and_post<R: Wait>(
    rt: &R,
    alloc: Global,
    map: &ModuleMap<Body>,
    one: &mut Caller<Body>,
    other: &mut Caller<Body>,
) -> Told
    requires one { table_of map.now.lock.table.shared.table_id one.old.pass
        ≡ map.now.lock.table.shared.table_id }
    requires other { table_of map.now.lock.table.shared.table_id other.old.pass
        ≡ map.now.lock.table.shared.table_id }
    ensures one { table_of map.now.lock.table.shared.table_id one.new.pass
        ≡ map.now.lock.table.shared.table_id }
    ensures other { table_of map.now.lock.table.shared.table_id other.new.pass
        ≡ map.now.lock.table.shared.table_id }
{
    let Ok(payload) = Arc::new(alloc, Body { bytes: 7 }) else {
        return Err(SHORT);
    };
    let Ok(taken) = map.take(rt, alloc, one) else {
        return Err(SHORT);
    };
    let Taken::Order(order) = taken else {
        return Err("nothing to take");
    };
    let told = answers_are(rt, alloc, map, other, TAKEN_BY_ANOTHER);
    map.post(rt, one, order, payload);
    told
}

// Tells what is wrong on a URL's way from the first ask to the map's end.
fn goes_its_way<R: Wait>(
    rt: &R,
    alloc: Global,
    map: &ModuleMap<Body>,
    one: &mut Caller<Body>,
    other: &mut Caller<Body>,
) -> Told
    requires one { table_of map.now.lock.table.shared.table_id one.old.pass
        ≡ map.now.lock.table.shared.table_id }
    requires other { table_of map.now.lock.table.shared.table_id other.old.pass
        ≡ map.now.lock.table.shared.table_id }
    ensures one { table_of map.now.lock.table.shared.table_id one.new.pass
        ≡ map.now.lock.table.shared.table_id }
    ensures other { table_of map.now.lock.table.shared.table_id other.new.pass
        ≡ map.now.lock.table.shared.table_id }
{
    let first = is_given(ask(rt, alloc, map, one, URL, Why::Wanted), ("New", 0));
    let second = is_given(ask(rt, alloc, map, other, URL, Why::Wanted), ("Waiting", 0));
    let beside = take_and_post(rt, alloc, map, one, other);
    let posted = answers_are(rt, alloc, map, other, POSTED);
    let here = is_given(ask(rt, alloc, map, one, URL, Why::Wanted), ("Here", 0));
    map.shut(rt, other);
    let shut = answers_are(rt, alloc, map, one, SHUT);
    first
        .and(second)
        .and(beside)
        .and(posted)
        .and(here)
        .and(shut)
}

// Tells where the map's history hasn't so many events.
fn has_events(map: ModuleMap<Body>, caller: Caller<Body>, count: usize) -> Told
    requires { table_of map.lock.table.shared.table_id caller.pass
        ≡ map.lock.table.shared.table_id }
{
    match map.close(caller) {
        Ok(events) => holds(events.len() == count, "another number of events"),
        Err(_busy) => Err("busy"),
    }
}

// One URL from ask to post.
fn one_url_goes_its_way<R: Wait>(rt: &R, alloc: Global) -> Result<Told, Memory> {
    let (map, mut one, mut other) = pair(rt, alloc)?;
    let told = goes_its_way(rt, alloc, &map, &mut one, &mut other);
    let caller = map.meet(one, other);
    Ok(told.and(has_events(map, caller, 9)))
}

const BEHIND_THE_LAST: &[(Call, Answer)] = &[
    (Call::Ask(URL), ("Full", 0)),
    (Call::Ask("https://a.test/0"), ("Waiting", 0)),
    (
        Call::AskBoth(
            ("https://a.test/1", Asked::Waiting(1)),
            (URL, Asked::New(4096)),
        ),
        ("Full", 0),
    ),
];

// Asks make as many numbers as there may be, and no more.
fn numbers_are_bounded<R: Wait>(rt: &R, alloc: Global) -> Result<Told, Memory> {
    let (map, mut caller) = opened(rt, alloc)?;
    let before = ask_numbers(
        rt,
        alloc,
        &map,
        &mut caller,
        Why::Wanted,
        0,
        MAX_URLS as u64,
    );
    let behind = answers_are(rt, alloc, &map, &mut caller, BEHIND_THE_LAST);
    Ok(before.and(behind))
}

// Two threads take each URL once: there are Begin, two callers, and for each URL an ask, a take and a post.
fn each_is_taken_once<R: Threads + Wait + Sync>(rt: &R, alloc: Global) -> Result<Told, Memory> {
    let (map, mut one, other) = pair(rt, alloc)?;
    let told = ask_numbers(rt, alloc, &map, &mut one, Why::Wanted, 0, 100);
    let caller = fill_in_two(rt, alloc, &map, one, other);
    Ok(told.and(has_events(map, caller, 303)))
}

#[test]
fn urls_are_asked_for_taken_and_posted(rt: HostRuntime) -> Told {
    let alloc = rt.alloc();
    told_of(one_url_goes_its_way(&rt, alloc))
        .and(told_of(numbers_are_bounded(&rt, alloc)))
        .and(told_of(each_is_taken_once(&rt, alloc)))
}
