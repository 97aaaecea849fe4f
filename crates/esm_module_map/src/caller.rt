// The map, and who calls it.
ghost use Rattle.std.specs.Prelude.{◌≡◌, ◌++◌, ◌∷◌, ◌+◌, ◌<◌, ◌≤◌, [], ℕ, List, true, false, nat_lt, None, Some, map, All, IfOk, IfSome, IsOk, OnOk, MatchResult, slice_get, string_bytes, is_some, vec_len};
ghost use Rattle.std.specs.Vec.{vec_capacity};
ghost use Rattle.std.proofs.Props.{props};
ghost use Rattle.std.specs.Arc.{arc_value};
ghost use Rattle.esm_hlock.specs.Makers.{Continues, makers_of, times};
ghost use Rattle.esm_hlock.specs.Views.{HasAllMakers, longer};
ghost use Rattle.esm_hlock.specs.Words.{knows, IsPassOf};
ghost use Rattle.esm_base.specs.Urls.{is_usable, IsUsable};
ghost use Rattle.esm_module_map.specs.Replay.{replay, is_legal, is_order, is_posted, may_be_ahead, maker_of};
ghost use Rattle.esm_module_map.specs.Leading.{is_led, leads_to};
ghost use Rattle.esm_module_map.specs.Fitting.{are_fit, FitsIn};
ghost use Rattle.esm_module_map.specs.Replies.{AskReply, TakeReply, ShutReply, Called, Found};
ghost use Rattle.esm_module_map.specs.Inner.Wishes.{wished, IsWish};
ghost use Rattle.esm_module_map.specs.Asking.{AskedAll, AskedUntil, AskedThese, AskedFirst};
ghost use Rattle.esm_module_map.specs.Batches.{AreFilled, TakesUpTo, TookThese, posts_of};
ghost use Rattle.esm_module_map.specs.Hearing.{HearsPosts};
ghost use Rattle.esm_module_map.specs.Histories.{IsPostIn};
ghost use Rattle.esm_module_map.specs.Counts.{AreTakenOnce};
ghost use Rattle.esm_module_map.specs.Saying.{SaysNothing, Stays, ShutSays, IsShut, IsOrderIn, PostedOne, TakeSays, AskSays};
ghost use Rattle.esm_module_map.specs.Closing.{ClosedBy};
ghost use Rattle.esm_module_map.specs.Views.{is_there, view_in, table_of, Same};

use crate::event::{MapEvent, Payload, Why};
use crate::reply::{Asked, Filled, Heard, MapEnd, Order, Taken};
use crate::state::{MapState, Wish};
use esm_base::{MAX_URL_BYTES, Memory, Text};
use esm_hlock::{Busy, Hlock, Pass};
use std::alloc::Global;
use std::sync::{Arc, Wait};

/// The module map that threads share: one history of events under a lock. HTML, module map: an entry is made when its
/// URL is first asked for, and has a value once it is posted.
#[derive(Drop)]
pub struct ModuleMap<P: Payload> {
    pub(crate) lock: Hlock<MapState<P>>,
}

/// A thread's access to the map. It has a number, which its events name, and in contracts it knows what it has seen of
/// the history.
#[derive(Drop)]
pub struct Caller<P: Payload> {
    pub(crate) pass: Option<Pass<MapState<P>>>,
    number: u64,
    ghost there: { is_there pass ≡ true },
    ghost own: { (view_in pass).number ≡ Some number } by { Prim.hlevel props },
    ghost listed: { 0 < times number (view_in pass).numbers },
    ghost legal: { is_legal P.weight (view_in pass).seen ≡ true },
    ghost led: { is_led P.leads (view_in pass).seen ≡ true },
    ghost fit: { are_fit P.weight P.fits (view_in pass).seen ≡ true },
    ghost enrolled: { nat_lt number (replay P.weight (view_in pass).seen).callers ≡ true },
}

impl<P: Payload> Caller<P> {
    ghost use Rattle.std.specs.Prelude.{◌≡◌};

    /// Its number.
    pub fn number(&self) -> u64
        ensures { result ≡ self.now.number }
    {
        self.number
    }
}

impl<P: Payload> ModuleMap<P> {
    /// A map whose history begins with this guide, and the pass that has all 1,024 shares and has seen just that. Where
    /// memory runs out the guide is dropped.
    pub fn new(
        alloc: Global,
        guide: Arc<P::Guide, Global>,
    ) -> Result<(ModuleMap<P>, Pass<MapState<P>>), Memory>
        ensures own { IfOk result (λ made. IsPassOf made.0.lock made.1) }
        ensures seen { IfOk result (λ made. (knows made.1).seen ≡ MapEvent.Begin guide ∷ []) }
        ensures shares { IfOk result (λ made. (knows made.1).shares ≡ 1024) }
        ensures numbers { IfOk result (λ made. ((knows made.1).number ≡ None)
            × ((knows made.1).numbers ≡ [])) }
    {
        let state = MapState::new(alloc, guide)?;
        let Ok((lock, pass)) = Hlock::new(alloc, state) else {
            return Err(Memory);
        };
        Ok((ModuleMap { lock }, pass))
    }

    /// A caller with the next number; callers are numbered from 0. The pass comes back where memory runs out, and nowhere
    /// else: without a number, so no event of its own was added, and having seen what was found.
    pub fn enrol<R: Wait>(
        &self,
        rt: &R,
        pass: Pass<MapState<P>>,
    ) -> Result<Caller<P>, Pass<MapState<P>>>
        requires own { IsPassOf self.now.lock pass }
        requires none { (knows pass).number ≡ None }
        ensures own { MatchResult result (λ c. table_of self.now.lock.table.shared.table_id c.pass
            ≡ self.now.lock.table.shared.table_id) (λ p. IsPassOf self.now.lock p) }
        ensures seen { MatchResult result (λ c. Called P.weight (knows pass).seen None
            (λ found. (c.number ≡ (replay P.weight found).callers)
            × ((view_in c.pass).seen ≡ found ++ MapEvent.Enrol c.number ∷ [])))
            (λ p. Called P.weight (knows pass).seen None (λ found. (knows p).seen ≡ found)) }
        ensures fresh { IfOk result (λ c. SaysNothing P.weight c.number (view_in c.pass).seen) }
        ensures shares { MatchResult result (λ c. (view_in c.pass).shares ≡ (knows pass).shares)
            (λ p. (knows p).shares ≡ (knows pass).shares) }
        ensures numbers { MatchResult result (λ c. (view_in c.pass).numbers
            ≡ c.number ∷ (knows pass).numbers) (λ p. ((knows p).number ≡ None)
            × ((knows p).numbers ≡ (knows pass).numbers)) }
    {
        let mut held = self.lock.enter(rt, pass);
        match held.state().enrol() {
            Ok(number) => {
                let pass = Some(self.lock.leave(held));
                Ok(Caller { pass, number })
            }
            Err(_) => Err(self.lock.leave(held)),
        }
    }

    /// Asks for a URL, which is usable; an ask ahead is for a URL to which something leads that the caller has seen
    /// posted. `New`: the URL had no number and got the next one. `Waiting`: nothing is posted under its number. `Here`:
    /// something is. `Closed` comes exactly where the map is shut, `Full` exactly where it isn't, the URL has no number
    /// and asks of this kind have made `MAX_URLS`. A refusal adds no event.
    pub fn ask<R: Wait>(
        &self,
        rt: &R,
        caller: &mut Caller<P>,
        url: &Text,
        why: Why,
    ) -> Result<Asked, MapEnd>
        requires own { table_of self.now.lock.table.shared.table_id caller.old.pass
            ≡ self.now.lock.table.shared.table_id }
        requires usable { is_usable url.now ≡ true }
        requires ahead { may_be_ahead (replay P.weight (view_in caller.old.pass).seen) why ≡ true }
        requires leads { leads_to P.leads (view_in caller.old.pass).seen why url.now ≡ true }
        ensures led { is_led P.leads (view_in caller.new.pass).seen ≡ true }
        ensures own { table_of self.now.lock.table.shared.table_id caller.new.pass
            ≡ self.now.lock.table.shared.table_id }
        ensures call { Called P.weight (view_in caller.old.pass).seen (Some caller.old.number)
            (λ found. AskReply P.weight found caller.old.number url.now why result
            (view_in caller.new.pass).seen) }
        ensures says { AskSays P.weight caller.old.number
            (view_in caller.old.pass).seen url.now result (view_in caller.new.pass).seen }
        ensures same { Same (view_in caller.old.pass) (view_in caller.new.pass)
            × (caller.new.number ≡ caller.old.number) }
    {
        let Ok(copy) = url.clone() else {
            return Err(MapEnd::Memory);
        };
        let Ok(key) = url.clone() else {
            return Err(MapEnd::Memory);
        };
        self.ask_with(rt, caller, copy, key, why)
    }

    // The same, with two copies of the URL, so that nothing is copied under the lock.
    fn ask_with<R: Wait>(
        &self,
        rt: &R,
        caller: &mut Caller<P>,
        url: Text,
        key: Text,
        why: Why,
    ) -> Result<Asked, MapEnd>
        requires own { table_of self.now.lock.table.shared.table_id caller.old.pass
            ≡ self.now.lock.table.shared.table_id }
        requires key { key ≡ url }
        requires usable { is_usable url ≡ true }
        requires ahead { may_be_ahead (replay P.weight (view_in caller.old.pass).seen) why ≡ true }
        requires leads { leads_to P.leads (view_in caller.old.pass).seen why url ≡ true }
        ensures led { is_led P.leads (view_in caller.new.pass).seen ≡ true }
        ensures own { table_of self.now.lock.table.shared.table_id caller.new.pass
            ≡ self.now.lock.table.shared.table_id }
        ensures call { Called P.weight (view_in caller.old.pass).seen (Some caller.old.number)
            (λ found. AskReply P.weight found caller.old.number url why result
            (view_in caller.new.pass).seen) }
        ensures says { AskSays P.weight caller.old.number
            (view_in caller.old.pass).seen url result (view_in caller.new.pass).seen }
        ensures same { Same (view_in caller.old.pass) (view_in caller.new.pass)
            × (caller.new.number ≡ caller.old.number) }
    {
        let Some(pass) = caller.pass.take() else {
            unreachable!()
        };
        let mut held = self.lock.enter(rt, pass);
        let reply = held.state().ask(caller.number, url, key, why);
        caller.pass = Some(self.lock.leave(held));
        reply
    }

    /// Asks for URLs as wanted, one after the other in one turn. `Ok` has an answer for each. The first refusal ends it, and
    /// what was asked for before it stays so. The copies that events and the list of URLs keep are made before the lock is
    /// taken.
    pub fn ask_all<R: Wait>(
        &self,
        rt: &R,
        alloc: Global,
        caller: &mut Caller<P>,
        urls: &[Text],
    ) -> Result<Vec<Asked>, MapEnd>
        requires own { table_of self.now.lock.table.shared.table_id caller.old.pass
            ≡ self.now.lock.table.shared.table_id }
        requires usable { All IsUsable urls.now }
        ensures own { table_of self.now.lock.table.shared.table_id caller.new.pass
            ≡ self.now.lock.table.shared.table_id }
        ensures call { Called P.weight (view_in caller.old.pass).seen (Some caller.old.number)
            (λ found. MatchResult result
            (λ asked. AskedAll P.weight found caller.old.number urls.now asked.items
            (view_in caller.new.pass).seen)
            (λ end. AskedUntil P.weight found caller.old.number urls.now end
            (view_in caller.new.pass).seen)) }
        ensures says { MatchResult result
            (λ asked. AskedThese P.weight caller.old.number urls.now asked.items
            (view_in caller.old.pass).seen (view_in caller.new.pass).seen)
            (λ _. AskedFirst P.weight caller.old.number urls.now (view_in caller.old.pass).seen
            (view_in caller.new.pass).seen) }
        ensures same { Same (view_in caller.old.pass) (view_in caller.new.pass)
            × (caller.new.number ≡ caller.old.number) }
    {
        let Ok(wishes) = wishes_for(alloc, urls) else {
            return Err(MapEnd::Memory);
        };
        let Ok(asked) = Vec::with_capacity(alloc, urls.len()) else {
            return Err(MapEnd::Memory);
        };
        self.ask_each(rt, caller, wishes, asked)
    }

    // The same, with copies of the URLs and room for the answers.
    fn ask_each<R: Wait>(
        &self,
        rt: &R,
        caller: &mut Caller<P>,
        wishes: Vec<Wish>,
        asked: Vec<Asked>,
    ) -> Result<Vec<Asked>, MapEnd>
        requires own { table_of self.now.lock.table.shared.table_id caller.old.pass
            ≡ self.now.lock.table.shared.table_id }
        requires wishes { All IsWish wishes.items }
        requires none { asked.items ≡ [] }
        requires room { vec_len asked + vec_len wishes ≤ vec_capacity asked }
        ensures own { table_of self.now.lock.table.shared.table_id caller.new.pass
            ≡ self.now.lock.table.shared.table_id }
        ensures call { Called P.weight (view_in caller.old.pass).seen (Some caller.old.number)
            (λ found. MatchResult result
            (λ asked. AskedAll P.weight found caller.old.number (map wished wishes.items) asked.items
            (view_in caller.new.pass).seen)
            (λ end. AskedUntil P.weight found caller.old.number (map wished wishes.items) end
            (view_in caller.new.pass).seen)) }
        ensures says { MatchResult result
            (λ asked. AskedThese P.weight caller.old.number (map wished wishes.items) asked.items
            (view_in caller.old.pass).seen (view_in caller.new.pass).seen)
            (λ _. AskedFirst P.weight caller.old.number (map wished wishes.items) (view_in caller.old.pass).seen
            (view_in caller.new.pass).seen) }
        ensures same { Same (view_in caller.old.pass) (view_in caller.new.pass)
            × (caller.new.number ≡ caller.old.number) }
    {
        let Some(pass) = caller.pass.take() else {
            unreachable!()
        };
        let mut held = self.lock.enter(rt, pass);
        let reply = held.state().ask_each(caller.number, wishes, asked);
        caller.pass = Some(self.lock.leave_with_several(held));
        reply
    }

    /// Takes the least number that is wanted and not taken; where there is none, and what is posted weighs less than
    /// `MAX_DELIVERED_BYTES`, the least that isn't taken. `Closed` comes exactly where the map is shut, `NotYet` exactly
    /// where there is no such number. The room for the post is reserved here. Where memory runs out nothing is taken.
    pub fn take<R: Wait>(
        &self,
        rt: &R,
        alloc: Global,
        caller: &mut Caller<P>,
    ) -> Result<Taken, Memory>
        requires own { table_of self.now.lock.table.shared.table_id caller.old.pass
            ≡ self.now.lock.table.shared.table_id }
        ensures own { table_of self.now.lock.table.shared.table_id caller.new.pass
            ≡ self.now.lock.table.shared.table_id }
        ensures call { Called P.weight (view_in caller.old.pass).seen (Some caller.old.number)
            (λ found. TakeReply P.weight found caller.old.number result
            (view_in caller.new.pass).seen) }
        ensures says { TakeSays P.weight caller.old.number (view_in caller.old.pass).seen result
            (view_in caller.new.pass).seen }
        ensures same { Same (view_in caller.old.pass) (view_in caller.new.pass)
            × (caller.new.number ≡ caller.old.number) }
    {
        let Ok(room) = String::with_capacity(alloc, MAX_URL_BYTES) else {
            return Err(Memory);
        };
        self.take_into(rt, caller, room)
    }

    // The same, with room for a URL, so that no text is made under the lock.
    fn take_into<R: Wait>(
        &self,
        rt: &R,
        caller: &mut Caller<P>,
        room: String,
    ) -> Result<Taken, Memory>
        requires own { table_of self.now.lock.table.shared.table_id caller.old.pass
            ≡ self.now.lock.table.shared.table_id }
        requires room { string_bytes room ≡ [] }
        ensures own { table_of self.now.lock.table.shared.table_id caller.new.pass
            ≡ self.now.lock.table.shared.table_id }
        ensures call { Called P.weight (view_in caller.old.pass).seen (Some caller.old.number)
            (λ found. TakeReply P.weight found caller.old.number result
            (view_in caller.new.pass).seen) }
        ensures says { TakeSays P.weight caller.old.number (view_in caller.old.pass).seen result
            (view_in caller.new.pass).seen }
        ensures same { Same (view_in caller.old.pass) (view_in caller.new.pass)
            × (caller.new.number ≡ caller.old.number) }
    {
        let Some(pass) = caller.pass.take() else {
            unreachable!()
        };
        let mut held = self.lock.enter(rt, pass);
        let reply = held.state().take(caller.number, room);
        caller.pass = Some(self.lock.leave(held));
        reply
    }

    /// Posts what came of an order of this caller and fits its URL, also where the map is shut. It doesn't allocate.
    pub fn post<R: Wait>(
        &self,
        rt: &R,
        caller: &mut Caller<P>,
        order: Order,
        payload: Arc<P, Global>,
    )
        requires own { table_of self.now.lock.table.shared.table_id caller.old.pass
            ≡ self.now.lock.table.shared.table_id }
        requires order { IsOrderIn P.weight (view_in caller.old.pass).seen caller.old.number
            order.number order.url }
        requires fits { FitsIn P.fits (view_in caller.old.pass).seen (arc_value payload) order.url }
        ensures own { table_of self.now.lock.table.shared.table_id caller.new.pass
            ≡ self.now.lock.table.shared.table_id }
        ensures call { Called P.weight (view_in caller.old.pass).seen (Some caller.old.number)
            (λ found. (view_in caller.new.pass).seen ≡ found
            ++ MapEvent.Post caller.old.number order.number payload ∷ []) }
        ensures says { PostedOne P.weight caller.old.number order.number order.url
            (arc_value payload) (view_in caller.old.pass).seen (view_in caller.new.pass).seen }
        ensures same { Same (view_in caller.old.pass) (view_in caller.new.pass)
            × (caller.new.number ≡ caller.old.number) }
    {
        let Some(pass) = caller.pass.take() else {
            unreachable!()
        };
        let mut held = self.lock.enter(rt, pass);
        held.state().post(caller.number, order.number, payload);
        caller.pass = Some(self.lock.leave(held));
    }

    /// Posts what came of orders of this caller and fits their URLs, and takes at most one order for each room, all in one
    /// turn: as `post` for each and then `take` once and more, with no other event between. It takes a share of what is free,
    /// so that the other callers have something to do. `true`: a take found the map shut. `false`: it found nothing, or the
    /// share is taken. Each room is empty, with room for a URL; those that weren't needed stay, but for one. Where memory runs
    /// out the posts stand, and `orders` has what was taken before. With such rooms it allocates nothing but what the history
    /// needs.
    pub fn post_and_take_all<R: Wait>(
        &self,
        rt: &R,
        caller: &mut Caller<P>,
        filled: Vec<Filled<P>>,
        rooms: &mut Vec<String>,
        orders: &mut Vec<Order>,
    ) -> Result<bool, Memory>
        requires own { table_of self.now.lock.table.shared.table_id caller.old.pass
            ≡ self.now.lock.table.shared.table_id }
        requires filled { AreFilled P.weight P.fits (view_in caller.old.pass).seen caller.old.number
            filled.items }
        requires empty { All (λ r. string_bytes r ≡ []) rooms.old.items }
        requires none { orders.old.items ≡ [] }
        requires room { vec_len orders.old + vec_len rooms.old ≤ vec_capacity orders.old }
        ensures own { table_of self.now.lock.table.shared.table_id caller.new.pass
            ≡ self.now.lock.table.shared.table_id }
        ensures call { Called P.weight (view_in caller.old.pass).seen (Some caller.old.number)
            (λ found. TakesUpTo P.weight caller.old.number
            (found ++ posts_of caller.old.number filled.items) (vec_len rooms.old) orders.new.items result
            (view_in caller.new.pass).seen) }
        ensures says { TookThese P.weight caller.old.number filled.items orders.new.items
            (view_in caller.old.pass).seen (view_in caller.new.pass).seen }
        ensures shut { result ≡ Ok true → IsShut P.weight (view_in caller.new.pass).seen }
        ensures empty { All (λ r. string_bytes r ≡ []) rooms.new.items }
        ensures rooms { vec_len rooms.new + vec_len orders.new ≤ vec_len rooms.old }
        ensures kept { vec_len rooms.old ≤ vec_len rooms.new + vec_len orders.new + 1 }
        ensures same { Same (view_in caller.old.pass) (view_in caller.new.pass)
            × (caller.new.number ≡ caller.old.number) }
    {
        let Some(pass) = caller.pass.take() else {
            unreachable!()
        };
        let mut held = self.lock.enter(rt, pass);
        let reply = held
            .state()
            .post_and_take_all(caller.number, filled, rooms, orders);
        caller.pass = Some(self.lock.leave_with_several(held));
        reply
    }

    /// Shuts the map, unless it is shut: nothing is asked or taken from then on. It doesn't allocate.
    pub fn shut<R: Wait>(&self, rt: &R, caller: &mut Caller<P>)
        requires own { table_of self.now.lock.table.shared.table_id caller.old.pass
            ≡ self.now.lock.table.shared.table_id }
        ensures own { table_of self.now.lock.table.shared.table_id caller.new.pass
            ≡ self.now.lock.table.shared.table_id }
        ensures makers { HasAllMakers maker_of (view_in caller.new.pass) }
        ensures call { Called P.weight (view_in caller.old.pass).seen (Some caller.old.number)
            (λ found. ShutReply P.weight found caller.old.number (view_in caller.new.pass).seen) }
        ensures says { ShutSays P.weight caller.old.number (view_in caller.old.pass).seen
            (view_in caller.new.pass).seen }
        ensures shut { IsShut P.weight (view_in caller.new.pass).seen }
        ensures same { Same (view_in caller.old.pass) (view_in caller.new.pass)
            × (caller.new.number ≡ caller.old.number) }
    {
        let Some(pass) = caller.pass.take() else {
            unreachable!()
        };
        let mut held = self.lock.enter(rt, pass);
        held.state().shut(caller.number);
        caller.pass = Some(self.lock.leave(held));
    }

    /// The number that was posted behind the first `from` posts, if there are more. It doesn't allocate.
    pub fn post_at<R: Wait>(&self, rt: &R, caller: &mut Caller<P>, from: usize) -> Option<u32>
        requires own { table_of self.now.lock.table.shared.table_id caller.old.pass
            ≡ self.now.lock.table.shared.table_id }
        ensures own { table_of self.now.lock.table.shared.table_id caller.new.pass
            ≡ self.now.lock.table.shared.table_id }
        ensures call { Called P.weight (view_in caller.old.pass).seen (Some caller.old.number)
            (λ found. (view_in caller.new.pass).seen ≡ found) }
        ensures post { result
            ≡ slice_get (replay P.weight (view_in caller.new.pass).seen).posts from }
        ensures says { Stays P.weight caller.old.number (view_in caller.old.pass).seen
            (view_in caller.new.pass).seen }
        ensures same { Same (view_in caller.old.pass) (view_in caller.new.pass)
            × (caller.new.number ≡ caller.old.number) }
    {
        let Some(pass) = caller.pass.take() else {
            unreachable!()
        };
        let mut held = self.lock.enter(rt, pass);
        let reply = held.state().post_at(from);
        caller.pass = Some(self.lock.leave(held));
        reply
    }

    /// Puts posts behind the first `known` behind `heard`, in their order, and counts them in `known`. `Ok`: all that there
    /// are, or as many as `heard` has room for. `Err`: those that were heard before it; no clause says when it comes (in the
    /// code, only where a payload can't be shared once more). It doesn't allocate.
    pub fn hear<R: Wait>(
        &self,
        rt: &R,
        caller: &mut Caller<P>,
        known: &mut usize,
        heard: &mut Vec<Heard<P>>,
    ) -> Result<(), Memory>
        requires own { table_of self.now.lock.table.shared.table_id caller.old.pass
            ≡ self.now.lock.table.shared.table_id }
        ensures own { table_of self.now.lock.table.shared.table_id caller.new.pass
            ≡ self.now.lock.table.shared.table_id }
        ensures call { Called P.weight (view_in caller.old.pass).seen (Some caller.old.number)
            (λ found. (view_in caller.new.pass).seen ≡ found) }
        ensures heard { HearsPosts P.weight (view_in caller.new.pass).seen known.old
            heard.old.items known.new heard.new.items }
        ensures all { OnOk result (vec_len heard.new < vec_capacity heard.new
            → slice_get (replay P.weight (view_in caller.new.pass).seen).posts known.new ≡ None) }
        ensures room { vec_capacity heard.new ≡ vec_capacity heard.old }
        ensures says { Stays P.weight caller.old.number (view_in caller.old.pass).seen
            (view_in caller.new.pass).seen }
        ensures same { Same (view_in caller.old.pass) (view_in caller.new.pass)
            × (caller.new.number ≡ caller.old.number) }
    {
        let Some(pass) = caller.pass.take() else {
            unreachable!()
        };
        let mut held = self.lock.enter(rt, pass);
        let reply = held.state().hear(known, heard);
        caller.pass = Some(self.lock.leave(held));
        reply
    }

    /// What is posted under a number; none exactly where nothing is in what the caller has then seen. It answers `Memory`
    /// where memory runs out. No event is added.
    pub fn entry<R: Wait>(
        &self,
        rt: &R,
        caller: &mut Caller<P>,
        number: u32,
    ) -> Result<Option<Arc<P, Global>>, Memory>
        requires own { table_of self.now.lock.table.shared.table_id caller.old.pass
            ≡ self.now.lock.table.shared.table_id }
        ensures own { table_of self.now.lock.table.shared.table_id caller.new.pass
            ≡ self.now.lock.table.shared.table_id }
        ensures call { Called P.weight (view_in caller.old.pass).seen (Some caller.old.number)
            (λ found. (view_in caller.new.pass).seen ≡ found) }
        ensures posted { IfOk result
            (λ found. IfSome found (λ p. IsPostIn (view_in caller.new.pass).seen number
            (arc_value p))) }
        ensures exact { IfOk result (λ found. is_some found
            ≡ is_posted (replay P.weight (view_in caller.new.pass).seen) number) }
        ensures says { Stays P.weight caller.old.number (view_in caller.old.pass).seen
            (view_in caller.new.pass).seen }
        ensures same { Same (view_in caller.old.pass) (view_in caller.new.pass)
            × (caller.new.number ≡ caller.old.number) }
    {
        let Some(pass) = caller.pass.take() else {
            unreachable!()
        };
        let mut held = self.lock.enter(rt, pass);
        let reply = held.state().entry(number);
        caller.pass = Some(self.lock.leave(held));
        reply
    }

    /// A second pass that has seen the same, with one share of the caller's, which has two or more, and no number. It
    /// doesn't allocate.
    pub fn split(&self, caller: &mut Caller<P>) -> Pass<MapState<P>>
        requires own { table_of self.now.lock.table.shared.table_id caller.old.pass
            ≡ self.now.lock.table.shared.table_id }
        requires shares { 1 < (view_in caller.old.pass).shares }
        ensures own { (table_of self.now.lock.table.shared.table_id caller.new.pass
            ≡ self.now.lock.table.shared.table_id) × IsPassOf self.now.lock result }
        ensures seen { ((view_in caller.new.pass).seen ≡ (view_in caller.old.pass).seen)
            × ((knows result).seen ≡ (view_in caller.old.pass).seen) }
        ensures shares { ((view_in caller.new.pass).shares + 1 ≡ (view_in caller.old.pass).shares)
            × ((knows result).shares ≡ 1) }
        ensures kept { (caller.new.number ≡ caller.old.number) × ((view_in caller.new.pass).numbers
            ≡ (view_in caller.old.pass).numbers) }
        ensures given { ((knows result).number ≡ None) × ((knows result).numbers ≡ []) }
    {
        let Some(pass) = caller.pass.take() else {
            unreachable!()
        };
        let mut pass = pass;
        let other = self.lock.split(&mut pass);
        caller.pass = Some(pass);
        other
    }

    /// One caller of two, with the first one's number, that has seen what either saw and has the shares and the numbers
    /// of both. With all shares: no URL was taken twice by all listed callers together. It doesn't allocate.
    pub fn meet(&self, one: Caller<P>, other: Caller<P>) -> Caller<P>
        requires own { (table_of self.now.lock.table.shared.table_id one.pass
            ≡ self.now.lock.table.shared.table_id)
            × (table_of self.now.lock.table.shared.table_id other.pass
            ≡ self.now.lock.table.shared.table_id) }
        ensures own { table_of self.now.lock.table.shared.table_id result.pass
            ≡ self.now.lock.table.shared.table_id }
        ensures number { result.number ≡ one.number }
        ensures seen { (view_in result.pass).seen
            ≡ longer (view_in one.pass).seen (view_in other.pass).seen }
        ensures one { Continues maker_of (view_in result.pass).seen (view_in one.pass).seen
            (view_in one.pass).numbers }
        ensures other { Continues maker_of (view_in result.pass).seen (view_in other.pass).seen
            (view_in other.pass).numbers }
        ensures shares { (view_in result.pass).shares
            ≡ (view_in one.pass).shares + (view_in other.pass).shares }
        ensures numbers { (view_in result.pass).numbers ≡ (view_in one.pass).numbers
            ++ (view_in other.pass).numbers }
        ensures says_one { (c : ℕ) → 0 < times c (view_in one.pass).numbers
            → Stays P.weight c (view_in one.pass).seen (view_in result.pass).seen }
        ensures says_other { (c : ℕ) → 0 < times c (view_in other.pass).numbers
            → Stays P.weight c (view_in other.pass).seen (view_in result.pass).seen }
        ensures makers { HasAllMakers maker_of (view_in result.pass) }
        ensures once { (view_in result.pass).shares ≡ 1024
            → AreTakenOnce P.weight (view_in result.pass).seen (view_in result.pass).numbers }
    {
        let Caller { pass, number } = one;
        let Caller {
            pass: second,
            number: _,
        } = other;
        let (Some(pass), Some(second)) = (pass, second) else {
            unreachable!()
        };
        let pass = Some(self.lock.join(pass, second));
        Caller { pass, number }
    }

    /// Ends the map and gives its whole history, or `Busy` where a call is still inside, which can't be where the caller
    /// has all shares. It doesn't allocate.
    ///
    /// The clause `exact` says that some table which keeps the rule of the lock has these two words and the caller's
    /// pass; that it is the table of this map is read off the code.
    pub fn close(self, caller: Caller<P>) -> Result<Vec<MapEvent<P>>, Busy>
        requires { table_of self.lock.table.shared.table_id caller.pass
            ≡ self.lock.table.shared.table_id }
        ensures found { IfOk result (λ v.
            Found P.weight (view_in caller.pass).seen (Some caller.number) v.items) }
        ensures led { IfOk result (λ v. is_led P.leads v.items ≡ true) }
        ensures fit { IfOk result (λ v. are_fit P.weight P.fits v.items ≡ true) }
        ensures exact { MatchResult result
            (λ v. (n : ℕ) × ClosedBy caller.pass (λ s. s.events.items) maker_of n n)
            (λ busy. (busy.serving < busy.ticket)
            × ClosedBy caller.pass (λ s. s.events.items) maker_of busy.ticket busy.serving) }
        ensures whole { (view_in caller.pass).shares ≡ 1024 → IsOk result }
    {
        let ModuleMap { lock } = self;
        let Caller { pass, number: _ } = caller;
        let Some(pass) = pass else { unreachable!() };
        match lock.close(pass) {
            Ok(state) => Ok(state.into_events()),
            Err(busy) => Err(busy),
        }
    }
}

// URLs that are to be asked for, with copies of them.
fn wishes_for(alloc: Global, urls: &[Text]) -> Result<Vec<Wish>, Memory>
    requires { All IsUsable urls.now }
    ensures urls { IfOk result (λ v. map wished v.items ≡ urls.now) }
    ensures wishes { IfOk result (λ v. All IsWish v.items) }
{
    let mut wishes = Vec::with_capacity(alloc, urls.len())?;
    for url in urls {
        let wish = Wish {
            url: url.clone()?,
            key: url.clone()?,
        };
        wishes.push(wish)?;
    }
    Ok(wishes)
}
