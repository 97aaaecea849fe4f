// What one caller finds from its enrolment to the map's end, and the history that it makes.
ghost use Rattle.std.specs.Prelude.{◌≡◌, OnOk};
ghost use Rattle.esm_module_map.specs.Views.{view_in, table_of};
ghost use Rattle.esm_module_map.specs.Saying.{IsOrderIn};

use crate::calls::{Answer, Body, Call, SHUT, URL, answers_are, opened};
use crate::telling::{SHORT, Told, holds, told_of};
use esm_base::Memory;
use esm_module_map::{Caller, MapEvent, ModuleMap, Order, Payload, Taken, laws};
use std::alloc::Global;
use std::sync::{Arc, Wait};

// A caller that has an order finds nothing more to take.
fn takes_nothing<R: Wait, P: Payload>(
    rt: &R,
    alloc: Global,
    map: &ModuleMap<P>,
    caller: &mut Caller<P>,
    order: &Order,
) -> Told
    requires own { table_of map.now.lock.table.shared.table_id caller.old.pass
        ≡ map.now.lock.table.shared.table_id }
    requires order { IsOrderIn P.weight (view_in caller.old.pass).seen caller.old.number
        order.now.number order.now.url }
    ensures own { table_of map.now.lock.table.shared.table_id caller.new.pass
        ≡ map.now.lock.table.shared.table_id }
    ensures order { OnOk result (IsOrderIn P.weight (view_in caller.new.pass).seen
        caller.new.number order.now.number order.now.url) }
{
    laws::orders_stay::<P>();
    laws::urls_stay::<P>();
    match map.take(rt, alloc, caller) {
        Ok(Taken::NotYet) => Ok(()),
        _ => Err("the second take isn't NotYet"),
    }
}

// A caller that has an order finds nothing posted under its number.
fn finds_nothing<R: Wait, P: Payload>(
    rt: &R,
    map: &ModuleMap<P>,
    caller: &mut Caller<P>,
    order: &Order,
) -> Told
    requires own { table_of map.now.lock.table.shared.table_id caller.old.pass
        ≡ map.now.lock.table.shared.table_id }
    requires order { IsOrderIn P.weight (view_in caller.old.pass).seen caller.old.number
        order.now.number order.now.url }
    ensures own { table_of map.now.lock.table.shared.table_id caller.new.pass
        ≡ map.now.lock.table.shared.table_id }
    ensures order { OnOk result (IsOrderIn P.weight (view_in caller.new.pass).seen
        caller.new.number order.now.number order.now.url) }
{
    laws::orders_stay::<P>();
    laws::urls_stay::<P>();
    match map.entry(rt, caller, order.number()) {
        Ok(None) => Ok(()),
        _ => Err("something is posted"),
    }
}

// The kind of an event.
fn kind_of(event: &MapEvent<Body>) -> &'static str {
    match event {
        MapEvent::Begin(_) => "Begin",
        MapEvent::Enrol(_) => "Enrol",
        MapEvent::Ask(_, _, _, _) => "Ask",
        MapEvent::Take(_, _) => "Take",
        MapEvent::Post(_, _, _) => "Post",
        MapEvent::Shut(_) => "Shut",
    }
}

// The kinds of these events, in order.
fn kinds_of(alloc: Global, events: &[MapEvent<Body>]) -> Result<String, Memory> {
    let mut kinds = String::new(alloc);
    for event in events {
        kinds.push_str(kind_of(event))?;
        kinds.push_str(" ")?;
    }
    Ok(kinds)
}

// The order that is taken is that of the URL, nothing more is to be taken or found before it is posted, and then a body
// that weighs seven is.
fn take_and_post<R: Wait>(
    rt: &R,
    alloc: Global,
    map: &ModuleMap<Body>,
    caller: &mut Caller<Body>,
) -> Told
    requires { table_of map.now.lock.table.shared.table_id caller.old.pass
        ≡ map.now.lock.table.shared.table_id }
    ensures { table_of map.now.lock.table.shared.table_id caller.new.pass
        ≡ map.now.lock.table.shared.table_id }
{
    let Ok(payload) = Arc::new(alloc, Body { bytes: 7 }) else {
        return Err(SHORT);
    };
    let Ok(taken) = map.take(rt, alloc, caller) else {
        return Err(SHORT);
    };
    let Taken::Order(order) = taken else {
        return Err("nothing to take");
    };
    if order.number() != 0 || !order.url().is(URL) {
        return Err("another order");
    }
    takes_nothing(rt, alloc, map, caller, &order)?;
    finds_nothing(rt, map, caller, &order)?;
    map.post(rt, caller, order, payload);
    Ok(())
}

const BEFORE: &[(Call, Answer)] = &[
    (Call::Ask(URL), ("New", 0)),
    (Call::Ask(URL), ("Waiting", 0)),
];

const BEHIND: &[(Call, Answer)] = &[
    (Call::Entry(0), ("Body", 7)),
    (Call::Ask(URL), ("Here", 0)),
    (Call::PostAt(0), ("Post", 0)),
    (Call::PostAt(1), ("None", 0)),
    (Call::Hear(0, 8, &[(0, 7)]), ("Heard", 0)),
];

// Tells what is wrong of what one caller finds from its first ask to the map's end.
fn finds_all<R: Wait>(
    rt: &R,
    alloc: Global,
    map: &ModuleMap<Body>,
    caller: &mut Caller<Body>,
) -> Told
    requires { table_of map.now.lock.table.shared.table_id caller.old.pass
        ≡ map.now.lock.table.shared.table_id }
    ensures { table_of map.now.lock.table.shared.table_id caller.new.pass
        ≡ map.now.lock.table.shared.table_id }
{
    let number = holds(caller.number() == 0, "another number");
    let before = answers_are(rt, alloc, map, caller, BEFORE);
    let taken = take_and_post(rt, alloc, map, caller);
    let behind = answers_are(rt, alloc, map, caller, BEHIND);
    map.shut(rt, caller);
    let shut = answers_are(rt, alloc, map, caller, SHUT);
    number.and(before).and(taken).and(behind).and(shut)
}

// Tells where the kinds of these events are others.
fn has_kinds(alloc: Global, events: &[MapEvent<Body>]) -> Told {
    match kinds_of(alloc, events) {
        Ok(kinds) => holds(
            kinds.as_str() == "Begin Enrol Ask Ask Take Post Ask Shut ",
            "another history",
        ),
        Err(Memory) => Err(SHORT),
    }
}

// Tells where the map's history is another.
fn has_history(alloc: Global, map: ModuleMap<Body>, caller: Caller<Body>) -> Told
    requires { table_of map.lock.table.shared.table_id caller.pass
        ≡ map.lock.table.shared.table_id }
{
    match map.close(caller) {
        Ok(events) => has_kinds(alloc, events.as_slice()),
        Err(_busy) => Err("busy"),
    }
}

// The same of a new map.
fn one_caller_finds_all<R: Wait>(rt: &R, alloc: Global) -> Result<Told, Memory> {
    let (map, mut caller) = opened(rt, alloc)?;
    let told = finds_all(rt, alloc, &map, &mut caller);
    Ok(told.and(has_history(alloc, map, caller)))
}

#[test]
fn one_caller_makes_a_history_of_eight_events(rt: HostRuntime) -> Told {
    told_of(one_caller_finds_all(&rt, rt.alloc()))
}
