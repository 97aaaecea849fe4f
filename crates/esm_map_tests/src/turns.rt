// Turns of a worker: in each it posts what it has filled, and takes what is next.
ghost use Rattle.std.specs.Prelude.{◌≡◌, [], true, map, All, IfOk, string_bytes};
ghost use Rattle.esm_base.specs.Urls.{Url};
ghost use Rattle.esm_module_map.specs.Batches.{AreFilled, number_filled, number_ordered};
ghost use Rattle.esm_module_map.specs.Views.{view_in, table_of};

use crate::telling::SHORT;
use esm_base::{MAX_URL_BYTES, Memory};
use esm_module_map::{Caller, Filled, ModuleMap, Order, Payload};
use std::alloc::Global;
use std::sync::{Arc, Wait};

// Rooms for so many URLs.
fn rooms_for(alloc: Global, count: usize) -> Result<Vec<String>, Memory>
    ensures { IfOk result (λ rooms. All (λ r. string_bytes r ≡ []) rooms.items) }
{
    let mut rooms = Vec::new(alloc);
    for _ in 0..count {
        let room = String::with_capacity(alloc, MAX_URL_BYTES)?;
        rooms.push(room)?;
    }
    Ok(rooms)
}

// What is to be posted for these orders: the payload, for each.
fn fill_all<P: Payload>(
    alloc: Global,
    orders: &[Order],
    payload: &Arc<P, Global>,
) -> Result<Vec<Filled<P>>, &'static str>
    ensures { IfOk result (λ filled. map number_filled filled.items
        ≡ map number_ordered orders.now) }
{
    let mut filled = Vec::new(alloc);
    for order in orders {
        let number = order.number();
        let Ok(payload) = Arc::try_clone(payload) else {
            return Err(SHORT);
        };
        let Ok(()) = filled.push(Filled { number, payload }) else {
            return Err(SHORT);
        };
    }
    Ok(filled)
}

// One turn: posts what was filled, takes for so many rooms, and fills that with the payload. Or the word of what came
// between.
fn turn<R: Wait, P: Payload>(
    rt: &R,
    alloc: Global,
    map: &ModuleMap<P>,
    caller: &mut Caller<P>,
    filled: Vec<Filled<P>>,
    rooms: usize,
    payload: &Arc<P, Global>,
) -> Result<Vec<Filled<P>>, &'static str>
    requires own { table_of map.now.lock.table.shared.table_id caller.old.pass
        ≡ map.now.lock.table.shared.table_id }
    requires any { (guide : P.Guide) (p : P) (url : Url) → P.fits guide p url ≡ true }
    requires filled { AreFilled P.weight P.fits (view_in caller.old.pass).seen caller.old.number
        filled.items }
    ensures own { table_of map.now.lock.table.shared.table_id caller.new.pass
        ≡ map.now.lock.table.shared.table_id }
    ensures filled { IfOk result (λ next. AreFilled P.weight P.fits
        (view_in caller.new.pass).seen caller.new.number next.items) }
{
    let Ok(mut rooms) = rooms_for(alloc, rooms) else {
        return Err(SHORT);
    };
    let Ok(mut orders) = Vec::with_capacity(alloc, rooms.len()) else {
        return Err(SHORT);
    };
    match map.post_and_take_all(rt, caller, filled, &mut rooms, &mut orders) {
        Ok(false) => fill_all(alloc, orders.as_slice(), payload),
        Ok(true) => Err("Closed"),
        Err(Memory) => Err(SHORT),
    }
}

// Whether orders with these numbers were filled.
fn are_numbers<P: Payload>(filled: &[Filled<P>], numbers: &[u32]) -> bool {
    if filled.len() != numbers.len() {
        return false;
    }
    for at in 0..numbers.len() {
        if filled[at].number != numbers[at] {
            return false;
        }
    }
    true
}

/// Takes in one turn for so many rooms, posts that in a second, which takes as many, and posts that in a third: whether the
/// first two take just these numbers. Or the word of what came between.
pub fn turns_take<R: Wait, P: Payload>(
    rt: &R,
    alloc: Global,
    map: &ModuleMap<P>,
    caller: &mut Caller<P>,
    rooms: usize,
    payload: &Arc<P, Global>,
    numbers: (&[u32], &[u32]),
) -> Result<bool, &'static str>
    requires own { table_of map.now.lock.table.shared.table_id caller.old.pass
        ≡ map.now.lock.table.shared.table_id }
    requires any { (guide : P.Guide) (p : P) (url : Url) → P.fits guide p url ≡ true }
    ensures own { table_of map.now.lock.table.shared.table_id caller.new.pass
        ≡ map.now.lock.table.shared.table_id }
{
    let first = turn(rt, alloc, map, caller, Vec::new(alloc), rooms, payload)?;
    let begun = are_numbers(first.as_slice(), numbers.0);
    let second = turn(rt, alloc, map, caller, first, rooms, payload)?;
    let gone_on = are_numbers(second.as_slice(), numbers.1);
    let third = turn(rt, alloc, map, caller, second, 0, payload)?;
    Ok(begun && gone_on && third.is_empty())
}
