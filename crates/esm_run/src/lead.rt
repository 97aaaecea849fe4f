// The calling thread's part of a run: it asks the module map for what the machine asks for, and delivers what is posted.
ghost use Rattle.std.specs.Prelude.{◌≡◌, ◌≤◌, ℕ, [], List, length, map, All, IfOk, OnOk, true, Bool};
ghost use Rattle.std.specs.Vec.{vec_capacity};
ghost use Rattle.std.specs.Arc.{arc_value};
ghost use Rattle.esm_hlock.specs.Views.{HasAllMakers};
ghost use Rattle.esm_base.specs.Urls.{has, is_usable};
ghost use Rattle.esm_import_map.specs.ImportMap.{Maps};
ghost use Rattle.esm_module_map.specs.Leading.{guide_in};
ghost use Rattle.esm_module_map.specs.Replay.{maker_of};
ghost use Rattle.esm_module_map.specs.Views.{view_in, table_of, Same};
ghost use Rattle.esm_module_map.specs.Saying.{Begins, IsShut};
ghost use Rattle.esm_module_map.specs.Histories.{IsPostIn, asks_by};
ghost use Rattle.esm_fetch.specs.Serving.{weight, Serves, Served, ServedBy};
ghost use Rattle.esm_ast.specs.Outcome.{outcome_view};
ghost use Rattle.esm_machine.specs.Machine.{state_of};
ghost use Rattle.esm_machine.specs.Represents.{Represents, RepresentsOn, TakesDelivery, asks_of, maps_of};
ghost use Rattle.esm_record.specs.Delivered.{deliveries_of};
ghost use Rattle.esm_run.specs.Inner.Leading.{IsResolved, HasTicket, History, IsHeard, IsLed, IsNew, IsShared, Leads, LeadsOn};

use crate::settings::Settings;
use crate::tickets::{Chosen, Queue, Ticket, ask_open, choose, hear_next};
use esm_base::{Memory, Text};
use esm_fetch::{Bell, Posted, Turned, fetch_one, laws as fetch_laws};
use esm_import_map::ImportMap;
use esm_machine::{Machine, TurnEnd, laws as machine_laws};
use esm_module_map::{Caller, ModuleMap, laws as map_laws};
use esm_ports::Source;
use esm_record::Delivery;
use esm_world::laws;
use std::alloc::Global;
use std::sync::{Arc, Wait};

// A machine under this import map that has asked for the entry.
fn start(
    alloc: Global,
    map: &Arc<ImportMap, Global>,
    entry: &Text,
    trace: bool,
) -> Result<Machine, Memory>
    requires { is_usable entry.now ≡ true }
    ensures { IfOk result (λ m. Represents (arc_value map.now) entry.now trace (state_of m) []) }
{
    let map = Arc::try_clone(map)?;
    Machine::new(alloc, map, entry.clone()?, trace)
}

// Delivers one completed fetch to the machine, with what its requests resolve to where that was posted too.
fn turn(machine: &mut Machine, url: &Text, near: usize, posted: &Posted) -> Result<(), TurnEnd>
    requires asked { has (asks_of (state_of machine.old)) url.now ≡ true }
    requires targets { IsResolved (state_of machine.old) url.now posted.now }
    ensures { TakesDelivery (state_of machine.old) url.now (outcome_view posted.now.outcome) result
        (state_of machine.new) }
{
    match &posted.targets {
        Some(targets) => machine.deliver_resolved(url, near, &posted.outcome, targets),
        None => machine.deliver(url, &posted.outcome),
    }
}

// The same. A limit that is reached stops the machine and is no error here.
fn hand_over(machine: &mut Machine, url: &Text, near: usize, posted: &Posted) -> Result<(), Memory>
    requires asked { has (asks_of (state_of machine.old)) url.now ≡ true }
    requires targets { IsResolved (state_of machine.old) url.now posted.now }
    ensures { OnOk result (RepresentsOn (state_of machine.old) url.now
        (outcome_view posted.now.outcome) (state_of machine.new)) }
{
    match turn(machine, url, near, posted) {
        Ok(()) => Ok(()),
        Err(TurnEnd::Fault(_limit)) => Ok(()),
        Err(TurnEnd::Memory) => Err(Memory),
    }
}

// Whether the machine has no open ask.
fn has_no_ask(machine: &Machine) -> bool
    ensures { result ≡ true → asks_of (state_of machine.now) ≡ [] }
{
    match machine.asks() {
        [] => true,
        _ => false,
    }
}

// Delivers what was posted for a ticket. One whose URL isn't an open ask is passed over.
fn deliver(machine: &mut Machine, chosen: Chosen, taken: &mut Vec<Delivery>) -> Result<(), Memory>
    requires { IsResolved (state_of machine.old) chosen.ticket.url (arc_value chosen.payload) }
    ensures { (maps : Maps) (entry : List ℕ) (trace : Bool) (c : ℕ) (h : History)
        → HasTicket h chosen.ticket
        → IsPostIn h chosen.ticket.number (arc_value chosen.payload)
        → IsLed maps entry trace c h machine.old (deliveries_of taken.old.items)
        → LeadsOn maps entry trace result c h machine.new (deliveries_of taken.new.items) }
{
    laws::asks_stay();
    laws::has_standard_run();
    let Chosen { ticket, payload } = chosen;
    let Ticket {
        url,
        number: _number,
        place,
    } = ticket;
    if !machine.is_open(&url, place) {
        return Ok(());
    }
    let Ok(outcome) = payload.outcome.share() else {
        return Err(Memory);
    };
    let Ok(()) = hand_over(machine, &url, place, &payload) else {
        return Err(Memory);
    };
    let Ok(()) = taken.push(Delivery { url, outcome }) else {
        return Err(Memory);
    };
    Ok(())
}

// Fetches what there is to take, or waits for the bell. The map is shut here only where memory ran out.
fn fetch_or_wait<R: Wait, S: Source>(
    settings: &Settings<R>,
    caller: &mut Caller<Posted>,
    source: &mut S,
    queue: &mut Queue,
) -> Result<(), Memory>
    requires own { table_of settings.now.modules.now.lock.table.shared.table_id caller.old.pass
        ≡ settings.now.modules.now.lock.table.shared.table_id }
    requires guide { guide_in (view_in caller.old.pass).seen
        ≡ Some (arc_value settings.now.import_map.now) }
    requires served { Serves (S.holds source.old) (S.asked source.old) caller.old.number
        (view_in caller.old.pass).seen }
    ensures own { table_of settings.now.modules.now.lock.table.shared.table_id caller.new.pass
        ≡ settings.now.modules.now.lock.table.shared.table_id }
    ensures same { Same (view_in caller.old.pass) (view_in caller.new.pass)
        × (caller.new.number ≡ caller.old.number) }
    ensures begins { Begins (view_in caller.old.pass).seen (view_in caller.new.pass).seen }
    ensures asks { asks_by weight caller.old.number (view_in caller.new.pass).seen
        ≡ asks_by weight caller.old.number (view_in caller.old.pass).seen }
    ensures holds { S.holds source.new ≡ S.holds source.old }
    ensures served { ServedBy result (S.holds source.old) (S.asked source.new) caller.old.number
        (view_in caller.new.pass).seen }
    ensures tickets { queue.new.tickets ≡ queue.old.tickets }
    ensures posted { queue.new.posted ≡ queue.old.posted }
{
    let Ok(turned) = fetch_one(
        settings.rt,
        settings.alloc,
        settings.modules,
        settings.bell,
        settings.import_map,
        caller,
        source,
    ) else {
        return Err(Memory);
    };
    match turned {
        Turned::Posted(_) => Ok(()),
        Turned::NotYet => {
            queue.heard = settings.bell.wait_for_post(settings.rt, queue.heard);
            Ok(())
        }
        Turned::Closed => Err(Memory),
    }
}

// Asks for what is open, and delivers what was posted first; where nothing is, it fetches or waits.
fn advance<R: Wait, S: Source>(
    settings: &Settings<R>,
    caller: &mut Caller<Posted>,
    source: &mut S,
    machine: &mut Machine,
    queue: &mut Queue,
    taken: &mut Vec<Delivery>,
) -> Result<(), Memory>
    requires own { table_of settings.now.modules.now.lock.table.shared.table_id caller.old.pass
        ≡ settings.now.modules.now.lock.table.shared.table_id }
    requires served { Serves (S.holds source.old) (S.asked source.old) caller.old.number
        (view_in caller.old.pass).seen }
    requires guide { guide_in (view_in caller.old.pass).seen
        ≡ Some (arc_value settings.now.import_map.now) }
    requires maps { (state_of machine.old).stopped ≡ None
        → maps_of (state_of machine.old) ≡ arc_value settings.now.import_map.now }
    requires tickets { All (HasTicket (view_in caller.old.pass).seen) queue.old.tickets.items }
    requires posted { All (IsHeard (view_in caller.old.pass).seen) queue.old.posted.items }
    ensures own { table_of settings.now.modules.now.lock.table.shared.table_id caller.new.pass
        ≡ settings.now.modules.now.lock.table.shared.table_id }
    ensures same { Same (view_in caller.old.pass) (view_in caller.new.pass)
        × (caller.new.number ≡ caller.old.number) }
    ensures begins { Begins (view_in caller.old.pass).seen (view_in caller.new.pass).seen }
    ensures holds { S.holds source.new ≡ S.holds source.old }
    ensures served { ServedBy result (S.holds source.old) (S.asked source.new) caller.old.number
        (view_in caller.new.pass).seen }
    ensures tickets { OnOk result (All (HasTicket (view_in caller.new.pass).seen)
        queue.new.tickets.items) }
    ensures posted { OnOk result (All (IsHeard (view_in caller.new.pass).seen)
        queue.new.posted.items) }
    ensures window { length queue.old.tickets.items ≤ 32 → length queue.new.tickets.items ≤ 32 }
    ensures led { (maps : Maps) (entry : List ℕ) (trace : Bool)
        → IsLed maps entry trace caller.old.number (view_in caller.old.pass).seen machine.old
        (deliveries_of taken.old.items)
        → LeadsOn maps entry trace result caller.old.number (view_in caller.new.pass).seen machine.new
        (deliveries_of taken.new.items) }
{
    map_laws::urls_stay::<Posted>();
    map_laws::posts_stay::<Posted>();
    map_laws::guide_stays::<Posted>();
    fetch_laws::posts_resolve();
    let Ok(()) = ask_open(settings, caller, machine, &mut queue.tickets) else {
        return Err(Memory);
    };
    let Ok(()) = hear_next(settings, caller, queue) else {
        return Err(Memory);
    };
    match choose(queue) {
        Some(chosen) => deliver(machine, chosen, taken),
        None => fetch_or_wait(settings, caller, source, queue),
    }
}

// Drives the machine of an entry under an import map until no ask is open or a limit has stopped it. At most `WINDOW` URLs
// are asked of the map and not delivered.
fn drive<R: Wait, S: Source>(
    settings: &Settings<R>,
    entry: &Text,
    trace: bool,
    caller: &mut Caller<Posted>,
    source: &mut S,
    taken: &mut Vec<Delivery>,
) -> Result<Machine, Memory>
    requires usable { is_usable entry.now ≡ true }
    requires own { table_of settings.now.modules.now.lock.table.shared.table_id caller.old.pass
        ≡ settings.now.modules.now.lock.table.shared.table_id }
    requires guide { guide_in (view_in caller.old.pass).seen
        ≡ Some (arc_value settings.now.import_map.now) }
    requires served { Serves (S.holds source.old) (S.asked source.old) caller.old.number
        (view_in caller.old.pass).seen }
    requires unasked { asks_by weight caller.old.number (view_in caller.old.pass).seen ≡ [] }
    requires nothing { taken.old.items ≡ [] }
    ensures own { table_of settings.now.modules.now.lock.table.shared.table_id caller.new.pass
        ≡ settings.now.modules.now.lock.table.shared.table_id }
    ensures same { Same (view_in caller.old.pass) (view_in caller.new.pass)
        × (caller.new.number ≡ caller.old.number) }
    ensures holds { S.holds source.new ≡ S.holds source.old }
    ensures served { Served 1 (S.holds source.old) (S.asked source.new) caller.old.number
        (view_in caller.new.pass).seen }
    ensures ends { Leads (arc_value settings.now.import_map.now) entry.now trace result
        caller.old.number (view_in caller.new.pass).seen (deliveries_of taken.new.items) }
{
    machine_laws::keeps_its_map();
    map_laws::guide_stays::<Posted>();
    let Ok(mut machine) = start(settings.alloc, settings.import_map, entry, trace) else {
        return Err(Memory);
    };
    let mut queue = Queue::new(settings.alloc);
    for _ in settings.rt.forever() {
        if has_no_ask(&machine) {
            return Ok(machine);
        }
        let Ok(()) = advance(settings, caller, source, &mut machine, &mut queue, taken) else {
            return Err(Memory);
        };
    }
    unreachable!()
}

/// The calling thread's part of a run that has ended, and the sources of the threads that have met it.
#[derive(Drop)]
pub(crate) struct Led<S> {
    /// The machine, which has ended; none where memory ran out.
    pub machine: Option<Machine>,
    /// What it took, in order.
    pub taken: Vec<Delivery>,
    /// The calling thread's caller of the module map.
    pub caller: Caller<Posted>,
    /// Its source and those of the threads, in the order given.
    pub sources: Vec<S>,
}

/// The calling thread's part, with its source alone. The map is shut when it comes back.
pub(crate) fn lead<R: Wait, S: Source>(
    rt: &R,
    alloc: Global,
    modules: &ModuleMap<Posted>,
    bell: &Bell,
    import_map: &Arc<ImportMap, Global>,
    entry: &Text,
    trace: bool,
    caller: Caller<Posted>,
    sources: Vec<S>,
) -> Led<S>
    requires usable { is_usable entry.now ≡ true }
    requires own { table_of modules.now.lock.table.shared.table_id caller.pass
        ≡ modules.now.lock.table.shared.table_id }
    requires guide { guide_in (view_in caller.pass).seen ≡ Some (arc_value import_map.now) }
    requires new { IsNew caller.number (view_in caller.pass) }
    requires one { length sources.items ≡ 1 }
    requires fresh { All (λ s. S.asked s ≡ []) sources.items }
    ensures own { table_of modules.now.lock.table.shared.table_id result.caller.pass
        ≡ modules.now.lock.table.shared.table_id }
    ensures shares { (view_in result.caller.pass).shares ≡ (view_in caller.pass).shares }
    ensures shut { IsShut weight (view_in result.caller.pass).seen }
    ensures makers { HasAllMakers maker_of (view_in result.caller.pass) }
    ensures kept { map S.holds result.sources.items ≡ map S.holds sources.items }
    ensures room { vec_capacity result.sources ≡ vec_capacity sources }
    ensures led { IsShared S.holds S.asked (arc_value import_map.now) entry.now trace
        (view_in result.caller.pass) result.machine (deliveries_of result.taken.items)
        result.sources.items }
{
    map_laws::urls_stay::<Posted>();
    map_laws::posts_stay::<Posted>();
    let settings = Settings {
        rt,
        alloc,
        modules,
        bell,
        import_map,
    };
    let mut caller = caller;
    let mut sources = sources;
    let mut taken = Vec::new(alloc);
    let driven = drive(
        &settings,
        entry,
        trace,
        &mut caller,
        &mut sources[0],
        &mut taken,
    );
    modules.shut(rt, &mut caller);
    bell.ring_for_all();
    Led {
        machine: driven.ok(),
        taken,
        caller,
        sources,
    }
}
