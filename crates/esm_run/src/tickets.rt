// What the calling thread has asked of the module map and not delivered.
ghost use Rattle.std.specs.Prelude.{◌≡◌, ◌≤◌, ◌<◌, ◌++◌, [], ◌∷◌, ◌+◌, ◌-◌, ℕ, List, length, map, take, drop, All, IfSome, None, Some, OnErr, OnOk, Contains, position, slice_get, Bool};
ghost use Rattle.esm_machine.specs.Machine.{state_of};
ghost use Rattle.esm_machine.specs.Represents.{Represents};
ghost use Rattle.esm_import_map.specs.ImportMap.{Maps};
ghost use Rattle.esm_module_map.specs.declared.reply.Asked.{Asked as AskedAs};
ghost use Rattle.esm_module_map.specs.Views.{view_in, table_of, Same};
ghost use Rattle.esm_module_map.specs.Saying.{Begins, Stays};
ghost use Rattle.esm_module_map.specs.Replay.{replay};
ghost use Rattle.esm_module_map.specs.Replies.{number_in};
ghost use Rattle.esm_fetch.specs.Serving.{weight};
ghost use Rattle.esm_ast.specs.Deliveries.{Delivery};
ghost use Rattle.esm_run.specs.Inner.Leading as spec;
ghost use Rattle.esm_run.specs.Inner.Leading.{AsksOn, HasTicket, HearsMore, History, IsFirstPosted, KeepsServing};

use crate::settings::Settings;
use esm_base::{Memory, Text};
use esm_fetch::Posted;
use esm_loads::NOWHERE;
use esm_machine::Machine;
use esm_module_map::{Asked, Caller, Heard, laws as map_laws};
use esm_world::laws;
use std::alloc::Global;
use std::sync::{Arc, Wait};

/// How many URLs are asked of the map and not delivered, at the most.
pub(crate) const WINDOW: usize = 32;

/// Behind how many of them nothing more is asked: where many are open, workers are woken for a quarter of a window or more
/// at once, not for each URL.
const REFILL: usize = 24;

/// An open ask of the machine that the map was asked for, and its number there. Its place in the machine's table of URLs
/// spares look-ups.
#[derive(Drop)]
pub(crate) struct Ticket {
    /// The URL that is asked for.
    pub url: Text,
    /// Its number in the module map.
    pub number: u32,
    /// Its place in the machine's table of URLs.
    pub place: usize,
}

/// A ticket with what was posted for it.
#[derive(Drop)]
pub(crate) struct Chosen {
    /// The open ask.
    pub ticket: Ticket,
    /// What was posted for it.
    pub payload: Arc<Posted, Global>,
}

/// The tickets of what isn't delivered, and the posts that are known and not delivered, in their order.
#[derive(Drop)]
pub(crate) struct Queue {
    /// The open asks that the map was asked for and that aren't delivered.
    pub tickets: Vec<Ticket>,
    /// The posts that are known and not delivered.
    pub posted: Vec<Heard<Posted>>,
    /// How many posts of the map are known, delivered ones too.
    pub known: usize,
    /// The bell's counter of posts, as it was read last.
    pub heard: u64,
}

impl Queue {
    /// A queue of nothing.
    pub(crate) fn new(alloc: Global) -> Queue
        ensures { (result.tickets.items ≡ []) × (result.posted.items ≡ []) × (result.known ≡ 0) }
    {
        Queue {
            tickets: Vec::new(alloc),
            posted: Vec::new(alloc),
            known: 0,
            heard: 0,
        }
    }
}

// The number that an answer has.
fn number_of(asked: Asked) -> u32
    ensures { result ≡ number_in asked }
{
    match asked {
        Asked::New(number) => number,
        Asked::Waiting(number) => number,
        Asked::Here(number) => number,
    }
}

// The number that the answer at a place has.
fn number_at(asked: &[Asked], place: usize) -> u32
    requires { place < length asked.now }
    ensures { (answer : AskedAs) → slice_get asked.now place ≡ Some answer
        → result ≡ number_in answer }
{
    number_of(asked[place])
}

// Adds a ticket.
fn add_ticket(
    tickets: &mut Vec<Ticket>,
    url: &Text,
    number: u32,
    place: usize,
) -> Result<(), Memory>
    ensures more { OnOk result (tickets.new.items
        ≡ tickets.old.items ++ record { url = url.now; number = number; place = place } ∷ []) }
    ensures none { OnErr result (tickets.new.items ≡ tickets.old.items) }
{
    let Ok(url) = url.clone() else {
        return Err(Memory);
    };
    let Ok(()) = tickets.push(Ticket { url, number, place }) else {
        return Err(Memory);
    };
    Ok(())
}

// The place at which the machine has an open ask, where it tells one.
fn place_in(places: &[usize], at: usize) -> usize {
    match places.get(at) {
        Some(place) => *place,
        None => NOWHERE,
    }
}

// Adds a ticket for each of these URLs, with the number that the map has answered. The machine's place of the first URL is
// the first of these behind as many as there are tickets.
fn add_tickets(
    tickets: &mut Vec<Ticket>,
    urls: &[Text],
    asked: &[Asked],
    places: &[usize],
) -> Result<(), Memory>
    requires { length asked.now ≡ length urls.now }
    ensures tickets { (h : History)
        → map (λ a. slice_get (replay weight h).urls (number_in a)) asked.now ≡ map Some urls.now
        → All (HasTicket h) tickets.old.items → OnOk result (All (HasTicket h) tickets.new.items) }
    ensures few { length tickets.new.items ≤ length tickets.old.items + length urls.now }
{
    for at in 0..urls.len() {
        let place = place_in(places, tickets.len());
        let Ok(()) = add_ticket(tickets, &urls[at], number_at(asked, at), place) else {
            return Err(Memory);
        };
    }
    Ok(())
}

// The texts from one place up to another, as far as they are there.
fn between(texts: &[Text], from: usize, to: usize) -> &[Text]
    ensures { result.now ≡ take (to - from) (drop from texts.now) }
{
    let start = from.min(texts.len());
    let behind = &texts[start..];
    let many = to.saturating_sub(from);
    let count = many.min(behind.len());
    &behind[..count]
}

// Asks the map for the machine's open asks in their order, up to the window, in one turn.
fn ask_more<R: Wait>(
    settings: &Settings<R>,
    caller: &mut Caller<Posted>,
    machine: &Machine,
    tickets: &mut Vec<Ticket>,
) -> Result<(), Memory>
    requires own { table_of settings.now.modules.now.lock.table.shared.table_id caller.old.pass
        ≡ settings.now.modules.now.lock.table.shared.table_id }
    requires tickets { All (HasTicket (view_in caller.old.pass).seen) tickets.old.items }
    ensures own { table_of settings.now.modules.now.lock.table.shared.table_id caller.new.pass
        ≡ settings.now.modules.now.lock.table.shared.table_id }
    ensures same { Same (view_in caller.old.pass) (view_in caller.new.pass)
        × (caller.new.number ≡ caller.old.number) }
    ensures begins { Begins (view_in caller.old.pass).seen (view_in caller.new.pass).seen }
    ensures kept { KeepsServing caller.old.number (view_in caller.old.pass).seen
        (view_in caller.new.pass).seen }
    ensures asks { (maps : Maps) (entry : List ℕ) (trace : Bool) (taken : List Delivery)
        → Represents maps entry trace (state_of machine.now) taken
        → AsksOn maps entry trace taken caller.old.number (view_in caller.old.pass).seen
        (view_in caller.new.pass).seen }
    ensures tickets { OnOk result (All (HasTicket (view_in caller.new.pass).seen)
        tickets.new.items) }
    ensures window { length tickets.old.items ≤ 32 → length tickets.new.items ≤ 32 }
{
    laws::open_asks();
    map_laws::urls_stay::<Posted>();
    let urls = between(machine.asks(), tickets.len(), WINDOW);
    if urls.is_empty() {
        return Ok(());
    }
    let Ok(asked) = settings
        .modules
        .ask_all(settings.rt, settings.alloc, caller, urls)
    else {
        return Err(Memory);
    };
    add_tickets(tickets, urls, asked.as_slice(), machine.ask_places())
}

/// The same, where no more than three quarters of the window are full, and rings the bell once for all that was asked. The
/// tickets are those of the first open asks.
pub(crate) fn ask_open<R: Wait>(
    settings: &Settings<R>,
    caller: &mut Caller<Posted>,
    machine: &Machine,
    tickets: &mut Vec<Ticket>,
) -> Result<(), Memory>
    requires own { table_of settings.now.modules.now.lock.table.shared.table_id caller.old.pass
        ≡ settings.now.modules.now.lock.table.shared.table_id }
    requires tickets { All (HasTicket (view_in caller.old.pass).seen) tickets.old.items }
    ensures own { table_of settings.now.modules.now.lock.table.shared.table_id caller.new.pass
        ≡ settings.now.modules.now.lock.table.shared.table_id }
    ensures same { Same (view_in caller.old.pass) (view_in caller.new.pass)
        × (caller.new.number ≡ caller.old.number) }
    ensures begins { Begins (view_in caller.old.pass).seen (view_in caller.new.pass).seen }
    ensures kept { KeepsServing caller.old.number (view_in caller.old.pass).seen
        (view_in caller.new.pass).seen }
    ensures asks { (maps : Maps) (entry : List ℕ) (trace : Bool) (taken : List Delivery)
        → Represents maps entry trace (state_of machine.now) taken
        → AsksOn maps entry trace taken caller.old.number (view_in caller.old.pass).seen
        (view_in caller.new.pass).seen }
    ensures tickets { OnOk result (All (HasTicket (view_in caller.new.pass).seen)
        tickets.new.items) }
    ensures window { length tickets.old.items ≤ 32 → length tickets.new.items ≤ 32 }
{
    let before = tickets.len();
    if before > REFILL {
        return Ok(());
    }
    let asked = ask_more(settings, caller, machine, tickets);
    settings
        .bell
        .ring_for_orders(tickets.len().saturating_sub(before));
    asked
}

// Whether some ticket has this number.
fn has_ticket(tickets: &[Ticket], number: u32) -> bool
    ensures { result ≡ spec.has_ticket tickets.now number }
{
    tickets.iter().any(|ticket| ticket.number == number)
}

// The place of the first ticket with this number.
fn place_of(tickets: &[Ticket], number: u32) -> Option<usize>
    ensures { result ≡ position (spec.is_for number) tickets.now }
{
    tickets.iter().position(|ticket| ticket.number == number)
}

// The place of the post that came first of those with a ticket.
fn first_posted(posted: &[Heard<Posted>], tickets: &[Ticket]) -> Option<usize>
    ensures { result ≡ position (spec.is_awaited tickets.now) posted.now }
{
    posted
        .iter()
        .position(|post| has_ticket(tickets, post.number))
}

/// The ticket of the post that came first of those that have one, with what was posted; ticket and post leave the queue.
pub(crate) fn choose(queue: &mut Queue) -> Option<Chosen>
    ensures first { IsFirstPosted queue.old.tickets.items queue.old.posted.items result
        queue.new.posted.items }
    ensures among { IfSome result (λ chosen. Contains queue.old.tickets.items chosen.ticket) }
    ensures left { All (Contains queue.old.tickets.items) queue.new.tickets.items }
    ensures left_posted { All (Contains queue.old.posted.items) queue.new.posted.items }
    ensures shorter { length queue.new.tickets.items ≤ length queue.old.tickets.items }
{
    let Some(at) = first_posted(&queue.posted, &queue.tickets) else {
        return None;
    };
    let post = queue.posted.remove(at);
    let Some(place) = place_of(&queue.tickets, post.number) else {
        unreachable!()
    };
    let ticket = queue.tickets.remove(place);
    Some(Chosen {
        ticket,
        payload: post.payload,
    })
}

/// Puts what was posted behind the posts that are known into the queue, in order. Where memory runs out it may be a part
/// of that.
pub(crate) fn hear<R: Wait>(
    settings: &Settings<R>,
    caller: &mut Caller<Posted>,
    queue: &mut Queue,
) -> Result<(), Memory>
    requires own { table_of settings.now.modules.now.lock.table.shared.table_id caller.old.pass
        ≡ settings.now.modules.now.lock.table.shared.table_id }
    ensures own { table_of settings.now.modules.now.lock.table.shared.table_id caller.new.pass
        ≡ settings.now.modules.now.lock.table.shared.table_id }
    ensures same { Same (view_in caller.old.pass) (view_in caller.new.pass)
        × (caller.new.number ≡ caller.old.number) }
    ensures says { Stays weight caller.old.number (view_in caller.old.pass).seen
        (view_in caller.new.pass).seen }
    ensures tickets { queue.new.tickets ≡ queue.old.tickets }
    ensures order { HearsMore (view_in caller.new.pass).seen queue.old.known queue.old.posted.items
        queue.new.known queue.new.posted.items }
    ensures all { OnOk result (slice_get (replay weight (view_in caller.new.pass).seen).posts
        queue.new.known ≡ None) }
{
    map_laws::posts_stay::<Posted>();
    for _ in settings.rt.forever() {
        let Ok(()) = queue.posted.reserve(WINDOW) else {
            return Err(Memory);
        };
        let Ok(()) = settings
            .modules
            .hear(settings.rt, caller, &mut queue.known, &mut queue.posted)
        else {
            return Err(Memory);
        };
        if queue.posted.len() < queue.posted.capacity() {
            return Ok(());
        }
    }
    unreachable!()
}

/// The same where nothing is known that isn't delivered. Else nothing is done, so that the lock is entered once for all that
/// was posted meanwhile.
pub(crate) fn hear_next<R: Wait>(
    settings: &Settings<R>,
    caller: &mut Caller<Posted>,
    queue: &mut Queue,
) -> Result<(), Memory>
    requires own { table_of settings.now.modules.now.lock.table.shared.table_id caller.old.pass
        ≡ settings.now.modules.now.lock.table.shared.table_id }
    ensures own { table_of settings.now.modules.now.lock.table.shared.table_id caller.new.pass
        ≡ settings.now.modules.now.lock.table.shared.table_id }
    ensures same { Same (view_in caller.old.pass) (view_in caller.new.pass)
        × (caller.new.number ≡ caller.old.number) }
    ensures says { Stays weight caller.old.number (view_in caller.old.pass).seen
        (view_in caller.new.pass).seen }
    ensures tickets { queue.new.tickets ≡ queue.old.tickets }
    ensures order { HearsMore (view_in caller.new.pass).seen queue.old.known queue.old.posted.items
        queue.new.known queue.new.posted.items }
{
    if queue.posted.is_empty() {
        hear(settings, caller, queue)
    } else {
        Ok(())
    }
}
