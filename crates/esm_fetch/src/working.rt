// A worker: it takes, fetches from its own source, reads, and posts, until the map is shut.
ghost use Rattle.std.specs.Prelude.{◌≡◌, ◌⊎◌, ◌+◌, ◌≤◌, ◌++◌, ℕ, List, [], Some, true, false, map, All, IfOk, OnOk, OnErr, string_bytes, vec_len};
ghost use Rattle.std.specs.Vec.{vec_capacity};
ghost use Rattle.std.specs.Arc.{arc_value};
ghost use Rattle.esm_ports.specs.declared.asked.AskKind.{AskKind};
ghost use Rattle.esm_ports.specs.Asks.{asks_with};
ghost use Rattle.esm_ast.specs.Outcome.{outcome_view};
ghost use Rattle.esm_base.specs.Urls.{IsUsable};
ghost use Rattle.esm_import_map.specs.ImportMap.{Maps};
ghost use Rattle.esm_module_map.specs.declared.event.MapEvent.{MapEvent};
ghost use Rattle.esm_module_map.specs.Replay.{replay};
ghost use Rattle.esm_module_map.specs.Leading.{guide_in};
ghost use Rattle.esm_module_map.specs.Batches.{AreFilled, answer_of};
ghost use Rattle.esm_module_map.specs.Views.{view_in, table_of, Same};
ghost use Rattle.esm_module_map.specs.Histories.{asks_by, takes_by, answers_by, shuts_by};
ghost use Rattle.esm_module_map.specs.Saying.{Begins, ShutSays, IsOrderIn, IsShut};
ghost use Rattle.esm_fetch.specs.declared.working.TheConstants.{BATCH};
ghost use Rattle.esm_fetch.specs.Answered.{kind_of};
ghost use Rattle.esm_fetch.specs.Serving.{weight, fits, IsTrueAnswer, Serves, Served, ServedBy, ServedIf, ShutBy, TurnSays};
ghost use Rattle.esm_fetch.specs.Inner.Asking.{IsAsking, FilledBy, AreInHand, FetchedBy};

use crate::bell::Bell;
use crate::fetch::{fetch_outcome, resolve_ahead};
use crate::posted::Posted;
use esm_base::{MAX_URL_BYTES, Memory};
use esm_import_map::ImportMap;
use esm_module_map::{Caller, Filled, ModuleMap, Order, Taken, laws as map_laws};
use esm_ports::Source;
use std::alloc::Global;
use std::sync::{Arc, Wait};

/// What a turn came to.
#[derive(Clone, Copy, Debug, PartialEq, Eq)]
pub enum Turned {
    /// This number was posted.
    Posted(u32),
    /// There is nothing to take now.
    NotYet,
    /// The map is shut.
    Closed,
}

/// A worker that has ended.
#[derive(Drop)]
pub struct WorkerEnd<S> {
    /// Its source.
    pub source: S,
    /// Its caller.
    pub caller: Caller<Posted>,
    /// Memory ran out.
    pub short: bool,
}

// Memory ran out: the map is shut, so that all end.
fn give_up<R: Wait>(
    rt: &R,
    modules: &ModuleMap<Posted>,
    bell: &Bell,
    caller: &mut Caller<Posted>,
) -> Memory
    requires own { table_of modules.now.lock.table.shared.table_id caller.old.pass
        ≡ modules.now.lock.table.shared.table_id }
    ensures own { table_of modules.now.lock.table.shared.table_id caller.new.pass
        ≡ modules.now.lock.table.shared.table_id }
    ensures same { Same (view_in caller.old.pass) (view_in caller.new.pass)
        × (caller.new.number ≡ caller.old.number) }
    ensures begins { Begins (view_in caller.old.pass).seen (view_in caller.new.pass).seen }
    ensures says { ShutSays weight caller.old.number (view_in caller.old.pass).seen
        (view_in caller.new.pass).seen }
    ensures shut { IsShut weight (view_in caller.new.pass).seen }
{
    modules.shut(rt, caller);
    bell.ring_for_all();
    Memory
}

// Fetches and reads what was taken, and resolves what it requests.
fn fetch_order<S: Source>(
    alloc: Global,
    guide: &ImportMap,
    source: &mut S,
    order: &Order,
) -> Result<Arc<Posted, Global>, Memory>
    requires { IsUsable order.now.url }
    ensures asked { IfOk result (λ p. S.asked source.new
        ≡ asks_with (S.asked source.old) order.now.url
        (kind_of (outcome_view (arc_value p).outcome))) }
    ensures answer { IfOk result (λ p. (n : ℕ) → IsTrueAnswer (S.holds source.old)
        (record { number = n; url = order.now.url; payload = arc_value p })) }
    ensures fits { IfOk result (λ p. fits guide.now (arc_value p) order.now.url ≡ true) }
    ensures holds { S.holds source.new ≡ S.holds source.old }
    ensures memory { OnErr result ((S.asked source.new ≡ S.asked source.old)
        ⊎ ((kind : AskKind)
        × (S.asked source.new ≡ asks_with (S.asked source.old) order.now.url kind))) }
{
    let Ok(outcome) = fetch_outcome(alloc, source, order.url()) else {
        return Err(Memory);
    };
    let Ok(targets) = resolve_ahead(alloc, guide, order.url(), &outcome) else {
        return Err(Memory);
    };
    let Ok(payload) = Arc::new(alloc, Posted { outcome, targets }) else {
        return Err(Memory);
    };
    Ok(payload)
}

// Fetches, reads and posts what was taken.
fn fill<R: Wait, S: Source>(
    rt: &R,
    alloc: Global,
    modules: &ModuleMap<Posted>,
    bell: &Bell,
    guide: &ImportMap,
    caller: &mut Caller<Posted>,
    source: &mut S,
    order: Order,
) -> Result<Turned, Memory>
    requires own { table_of modules.now.lock.table.shared.table_id caller.old.pass
        ≡ modules.now.lock.table.shared.table_id }
    requires guide { guide_in (view_in caller.old.pass).seen ≡ Some guide.now }
    requires order { IsOrderIn weight (view_in caller.old.pass).seen caller.old.number
        order.number order.url }
    requires asking { IsAsking (S.holds source.old) (S.asked source.old)
        (takes_by weight caller.old.number (view_in caller.old.pass).seen)
        (answers_by weight caller.old.number (view_in caller.old.pass).seen) order.url }
    ensures own { table_of modules.now.lock.table.shared.table_id caller.new.pass
        ≡ modules.now.lock.table.shared.table_id }
    ensures same { Same (view_in caller.old.pass) (view_in caller.new.pass)
        × (caller.new.number ≡ caller.old.number) }
    ensures begins { Begins (view_in caller.old.pass).seen (view_in caller.new.pass).seen }
    ensures asks { asks_by weight caller.old.number (view_in caller.new.pass).seen
        ≡ asks_by weight caller.old.number (view_in caller.old.pass).seen }
    ensures holds { S.holds source.new ≡ S.holds source.old }
    ensures served { ServedBy result (S.holds source.old) (S.asked source.new) caller.old.number
        (view_in caller.new.pass).seen }
    ensures shut { ShutBy result (view_in caller.new.pass).seen }
    ensures shuts { OnOk result (shuts_by weight caller.old.number (view_in caller.new.pass).seen
        ≡ shuts_by weight caller.old.number (view_in caller.old.pass).seen) }
    ensures filled { FilledBy caller.old.number order.url (view_in caller.old.pass).seen result
        (view_in caller.new.pass).seen }
{
    map_laws::urls_are_usable::<Posted>();
    match fetch_order(alloc, guide, source, &order) {
        Ok(payload) => {
            let number = order.number();
            modules.post(rt, caller, order, payload);
            bell.ring_for_posts(1);
            Ok(Turned::Posted(number))
        }
        Err(_) => Err(give_up(rt, modules, bell, caller)),
    }
}

/// Takes a number, fetches its URL from the source, reads it, and posts what came, with what it requests resolved by the
/// guide of the map, where it was resolved ahead; then rings the bell for it. `NotYet` and `Closed` are those of the take;
/// the source isn't asked then. Where memory runs out the map is shut, and at most one URL was taken and not posted.
pub fn fetch_one<R: Wait, S: Source>(
    rt: &R,
    alloc: Global,
    modules: &ModuleMap<Posted>,
    bell: &Bell,
    guide: &ImportMap,
    caller: &mut Caller<Posted>,
    source: &mut S,
) -> Result<Turned, Memory>
    requires own { table_of modules.now.lock.table.shared.table_id caller.old.pass
        ≡ modules.now.lock.table.shared.table_id }
    requires guide { guide_in (view_in caller.old.pass).seen ≡ Some guide.now }
    requires served { Serves (S.holds source.old) (S.asked source.old) caller.old.number
        (view_in caller.old.pass).seen }
    ensures own { table_of modules.now.lock.table.shared.table_id caller.new.pass
        ≡ modules.now.lock.table.shared.table_id }
    ensures same { Same (view_in caller.old.pass) (view_in caller.new.pass)
        × (caller.new.number ≡ caller.old.number) }
    ensures begins { Begins (view_in caller.old.pass).seen (view_in caller.new.pass).seen }
    ensures asks { asks_by weight caller.old.number (view_in caller.new.pass).seen
        ≡ asks_by weight caller.old.number (view_in caller.old.pass).seen }
    ensures holds { S.holds source.new ≡ S.holds source.old }
    ensures served { ServedBy result (S.holds source.old) (S.asked source.new) caller.old.number
        (view_in caller.new.pass).seen }
    ensures shut { ShutBy result (view_in caller.new.pass).seen }
    ensures shuts { OnOk result (shuts_by weight caller.old.number (view_in caller.new.pass).seen
        ≡ shuts_by weight caller.old.number (view_in caller.old.pass).seen) }
    ensures says { TurnSays caller.old.number (view_in caller.old.pass).seen result
        (view_in caller.new.pass).seen }
{
    map_laws::guide_stays::<Posted>();
    match modules.take(rt, alloc, caller) {
        Ok(Taken::Order(order)) => fill(rt, alloc, modules, bell, guide, caller, source, order),
        Ok(Taken::NotYet) => Ok(Turned::NotYet),
        Ok(Taken::Closed) => Ok(Turned::Closed),
        Err(_) => Err(give_up(rt, modules, bell, caller)),
    }
}

// How many URLs a worker takes in one turn at the most.
const BATCH: usize = 4;

// What a worker has taken, and whether the map was shut.
#[derive(Drop)]
struct Batch {
    orders: Vec<Order>,
    shut: bool,
}

// What a turn needs: room for what comes of orders, and for the next ones.
#[derive(Drop)]
struct Lists {
    filled: Vec<Filled<Posted>>,
    orders: Vec<Order>,
}

// Room for a turn: lists, and with those URLs that were taken as many rooms as may be taken in one turn.
fn make_room(alloc: Global, rooms: &mut Vec<String>, taken: usize) -> Result<Lists, Memory>
    requires empty { All (λ r. string_bytes r ≡ []) rooms.old.items }
    requires few { vec_len rooms.old + taken ≤ BATCH }
    ensures empty { All (λ r. string_bytes r ≡ []) rooms.new.items }
    ensures room { IfOk result (λ l. (l.filled.items ≡ []) × (l.orders.items ≡ [])
        × (taken ≤ vec_capacity l.filled) × (BATCH ≤ vec_capacity l.orders)
        × (vec_len rooms.new + taken ≡ BATCH) × (BATCH ≤ vec_capacity rooms.new)) }
{
    let Ok(filled) = Vec::with_capacity(alloc, BATCH) else {
        return Err(Memory);
    };
    let Ok(orders) = Vec::with_capacity(alloc, BATCH) else {
        return Err(Memory);
    };
    let Ok(()) = rooms.reserve(BATCH) else {
        return Err(Memory);
    };
    while rooms.len() < BATCH - taken {
        let Ok(room) = String::with_capacity(alloc, MAX_URL_BYTES) else {
            return Err(Memory);
        };
        rooms.push_reserved(room);
    }
    Ok(Lists { filled, orders })
}

// Fetches and reads what was taken, in order. Where memory runs out, what was fetched before is there.
fn fetch_all<S: Source>(
    alloc: Global,
    guide: &ImportMap,
    source: &mut S,
    orders: Vec<Order>,
    filled: &mut Vec<Filled<Posted>>,
    rooms: &mut Vec<String>,
) -> Result<(), Memory>
    requires usable { All (λ o. IsUsable o.url) orders.items }
    requires empty { All (λ r. string_bytes r ≡ []) rooms.old.items }
    requires room { vec_len filled.old + vec_len orders ≤ vec_capacity filled.old }
    requires rooms { vec_len rooms.old + vec_len orders ≤ vec_capacity rooms.old }
    ensures empty { All (λ r. string_bytes r ≡ []) rooms.new.items }
    ensures rooms { vec_len rooms.new ≤ vec_len rooms.old + vec_len orders }
    ensures holds { S.holds source.new ≡ S.holds source.old }
    ensures fetched { (c : ℕ) (h : List (MapEvent Posted Maps)) → guide_in h ≡ Some guide.now
        → AreInHand (S.holds source.old) (S.asked source.old) c h filled.old.items orders.items
        → FetchedBy result (S.holds source.old) (S.asked source.new) c h filled.new.items }
{
    for order in orders {
        let number = order.number();
        let Ok(payload) = fetch_order(alloc, guide, source, &order) else {
            return Err(Memory);
        };
        filled.push_reserved(Filled { number, payload });
        rooms.push_reserved(order.into_room(alloc));
    }
    Ok(())
}

// Memory ran out: what was fetched is posted, and the map is shut.
fn end_short<R: Wait>(
    rt: &R,
    alloc: Global,
    modules: &ModuleMap<Posted>,
    bell: &Bell,
    caller: &mut Caller<Posted>,
    filled: Vec<Filled<Posted>>,
) -> Memory
    requires own { table_of modules.now.lock.table.shared.table_id caller.old.pass
        ≡ modules.now.lock.table.shared.table_id }
    requires filled { AreFilled weight fits (view_in caller.old.pass).seen caller.old.number
        filled.items }
    ensures own { table_of modules.now.lock.table.shared.table_id caller.new.pass
        ≡ modules.now.lock.table.shared.table_id }
    ensures same { Same (view_in caller.old.pass) (view_in caller.new.pass)
        × (caller.new.number ≡ caller.old.number) }
    ensures begins { Begins (view_in caller.old.pass).seen (view_in caller.new.pass).seen }
    ensures asks { asks_by weight caller.old.number (view_in caller.new.pass).seen
        ≡ asks_by weight caller.old.number (view_in caller.old.pass).seen }
    ensures takes { takes_by weight caller.old.number (view_in caller.new.pass).seen
        ≡ takes_by weight caller.old.number (view_in caller.old.pass).seen }
    ensures answers { answers_by weight caller.old.number (view_in caller.new.pass).seen
        ≡ answers_by weight caller.old.number (view_in caller.old.pass).seen
        ++ map (answer_of (replay weight (view_in caller.old.pass).seen)) filled.items }
    ensures shut { IsShut weight (view_in caller.new.pass).seen }
{
    let mut rooms = Vec::new(alloc);
    let mut orders = Vec::new(alloc);
    let _nothing = modules.post_and_take_all(rt, caller, filled, &mut rooms, &mut orders);
    give_up(rt, modules, bell, caller)
}

// Fetches and reads what was taken, posts it, and takes as many as may be, in one turn at the map. Where memory runs out
// the map is shut.
fn go_on<R: Wait, S: Source>(
    rt: &R,
    alloc: Global,
    modules: &ModuleMap<Posted>,
    bell: &Bell,
    guide: &ImportMap,
    caller: &mut Caller<Posted>,
    source: &mut S,
    rooms: &mut Vec<String>,
    orders: Vec<Order>,
) -> Result<Batch, Memory>
    requires own { table_of modules.now.lock.table.shared.table_id caller.old.pass
        ≡ modules.now.lock.table.shared.table_id }
    requires guide { guide_in (view_in caller.old.pass).seen ≡ Some guide.now }
    requires empty { All (λ r. string_bytes r ≡ []) rooms.old.items }
    requires few { vec_len rooms.old + vec_len orders ≤ BATCH }
    requires hand { AreInHand (S.holds source.old) (S.asked source.old) caller.old.number
        (view_in caller.old.pass).seen [] orders.items }
    ensures own { table_of modules.now.lock.table.shared.table_id caller.new.pass
        ≡ modules.now.lock.table.shared.table_id }
    ensures same { Same (view_in caller.old.pass) (view_in caller.new.pass)
        × (caller.new.number ≡ caller.old.number) }
    ensures begins { Begins (view_in caller.old.pass).seen (view_in caller.new.pass).seen }
    ensures asks { asks_by weight caller.old.number (view_in caller.new.pass).seen
        ≡ asks_by weight caller.old.number (view_in caller.old.pass).seen }
    ensures shuts { OnOk result (shuts_by weight caller.old.number (view_in caller.new.pass).seen
        ≡ shuts_by weight caller.old.number (view_in caller.old.pass).seen) }
    ensures holds { S.holds source.new ≡ S.holds source.old }
    ensures empty { All (λ r. string_bytes r ≡ []) rooms.new.items }
    ensures few { IfOk result (λ b. vec_len rooms.new + vec_len b.orders ≤ BATCH) }
    ensures hand { IfOk result (λ b. AreInHand (S.holds source.old) (S.asked source.new)
        caller.old.number (view_in caller.new.pass).seen [] b.orders.items
        × (b.shut ≡ true → IsShut weight (view_in caller.new.pass).seen)) }
    ensures short { OnErr result (Served BATCH (S.holds source.old) (S.asked source.new)
        caller.old.number (view_in caller.new.pass).seen
        × IsShut weight (view_in caller.new.pass).seen) }
{
    map_laws::urls_are_usable::<Posted>();
    let taken = orders.len();
    let Ok(lists) = make_room(alloc, rooms, taken) else {
        return Err(give_up(rt, modules, bell, caller));
    };
    let Lists {
        mut filled,
        orders: mut next,
    } = lists;
    let Ok(()) = fetch_all(alloc, guide, source, orders, &mut filled, rooms) else {
        return Err(end_short(rt, alloc, modules, bell, caller, filled));
    };
    let reply = modules.post_and_take_all(rt, caller, filled, rooms, &mut next);
    bell.ring_for_posts(taken);
    match reply {
        Ok(shut) => Ok(Batch { orders: next, shut }),
        Err(_) => Err(give_up(rt, modules, bell, caller)),
    }
}

// The room that a worker's heap has from the beginning. The C library's allocator makes the heap of a thread larger by a page
// at a time, and holds up the other threads each time.
const KEPT: usize = 2 << 20;

// Asks for a block and lets it go. Where it is refused nothing is lost.
fn keep_room(alloc: Global) {
    let room: Result<Vec<u8>, _> = Vec::with_capacity(alloc, KEPT);
    drop(room);
}

/// Takes, fetches, reads and posts, up to four URLs at a time, until the map is shut or memory runs out, and waits on the
/// bell where there is nothing to take. What is posted has what it requests resolved by the guide of the map, where it
/// was resolved ahead. The posts and the takes behind them are one turn at the map. It comes back only with a shut map,
/// and `short` says that memory ran out; then at most four URLs were taken and not posted. Where it isn't set, all that
/// was taken is posted, and it wasn't this call that shut the map.
pub fn worker<R: Wait, S: Source>(
    rt: &R,
    alloc: Global,
    modules: &ModuleMap<Posted>,
    bell: &Bell,
    guide: &ImportMap,
    caller: Caller<Posted>,
    source: S,
) -> WorkerEnd<S>
    requires own { table_of modules.now.lock.table.shared.table_id caller.pass
        ≡ modules.now.lock.table.shared.table_id }
    requires guide { guide_in (view_in caller.pass).seen ≡ Some guide.now }
    requires served { Serves (S.holds source) (S.asked source) caller.number
        (view_in caller.pass).seen }
    ensures own { table_of modules.now.lock.table.shared.table_id result.caller.pass
        ≡ modules.now.lock.table.shared.table_id }
    ensures same { Same (view_in caller.pass) (view_in result.caller.pass)
        × (result.caller.number ≡ caller.number) }
    ensures begins { Begins (view_in caller.pass).seen (view_in result.caller.pass).seen }
    ensures asks { asks_by weight caller.number (view_in result.caller.pass).seen
        ≡ asks_by weight caller.number (view_in caller.pass).seen }
    ensures holds { S.holds result.source ≡ S.holds source }
    ensures served { ServedIf result.short (S.holds source) (S.asked result.source) caller.number
        (view_in result.caller.pass).seen }
    ensures shut { IsShut weight (view_in result.caller.pass).seen }
    ensures shuts { result.short ≡ false
        → shuts_by weight caller.number (view_in result.caller.pass).seen
        ≡ shuts_by weight caller.number (view_in caller.pass).seen }
{
    keep_room(alloc);
    map_laws::guide_stays::<Posted>();
    let mut caller = caller;
    let mut source = source;
    let mut rooms = Vec::new(alloc);
    let mut orders = Vec::new(alloc);
    let mut heard = 0;
    for _ in rt.forever() {
        let Ok(batch) = go_on(
            rt,
            alloc,
            modules,
            bell,
            guide,
            &mut caller,
            &mut source,
            &mut rooms,
            orders,
        ) else {
            return WorkerEnd {
                source,
                caller,
                short: true,
            };
        };
        orders = batch.orders;
        if !orders.is_empty() {
            continue;
        }
        if batch.shut {
            return WorkerEnd {
                source,
                caller,
                short: false,
            };
        }
        heard = bell.wait_for_order(rt, heard);
    }
    unreachable!()
}
