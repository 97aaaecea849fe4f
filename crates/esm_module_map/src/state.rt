// The state under the lock.
ghost use Rattle.std.specs.Prelude.{◌≡◌, ◌≤◌, ◌<◌, ◌+◌, ◌++◌, ◌∷◌, List, ℕ, [], true, false, if◌then◌else◌, length, vec_len, slice_get, string_bytes, nat_lt, min, map, bytes_eq, position, All, IfOk, OnOk, OnErr, IfSome, MatchResult, MatchOption, Some, None, option_map, is_some};
ghost use Rattle.std.specs.Arc.{arc_value};
ghost use Rattle.std.specs.Vec.{vec_capacity};
ghost use Rattle.std.specs.List.{position_or_len};
ghost use Rattle.std.specs.Coded.{codes, Coded-set};
ghost use Rattle.esm_base.specs.Urls.{is_usable};
ghost use Rattle.esm_base.specs.declared.limits.TheConstants.{MAX_URLS, MAX_DELIVERED_BYTES};
ghost use Rattle.esm_module_map.specs.Replay.{Replay, replay, is_legal, is_order, next_order, has_room, room_by, fresh_number, made_wanted, made_ahead, next_by, is_free, has_place, may_be_ahead, number_for, is_numbered, is_posted};
ghost use Rattle.esm_module_map.specs.Inner.Outs.{outs_of};
ghost use Rattle.esm_module_map.specs.Inner.Firsts.{has_free};
ghost use Rattle.esm_module_map.specs.Inner.Wishes.{wished, IsWish};
ghost use Rattle.esm_module_map.specs.Histories.{Posts, IsPostIn, is_post_of};
ghost use Rattle.esm_module_map.specs.Leading.{is_led, leads_to};
ghost use Rattle.esm_module_map.specs.Fitting.{are_fit, may_fit};
ghost use Rattle.esm_module_map.specs.Replies.{AskReply, TakeReply, ShutReply, answer_by};
ghost use Rattle.esm_module_map.specs.Asking.{AskedAll, AskedUntil};
ghost use Rattle.esm_module_map.specs.Batches.{AreFilled, TakesUpTo, posts_of};
ghost use Rattle.esm_module_map.specs.Hearing.{HearsPosts, number_heard};

use crate::event::{MapEvent, Payload, Why};
use crate::number::{
    Number, ask_again, free_from, set_place, set_taker, taken_up_to, wanted_and_free_from,
};
use crate::reply::{Asked, Filled, Heard, MapEnd, Order, Taken};
use esm_base::{MAX_DELIVERED_BYTES, MAX_URLS, Memory, Text};
use esm_hlock::Story;
use esm_text_table::TextTable;
use std::alloc::Global;
use std::sync::Arc;

// From this weight on no number is given out that has only asks ahead.
const HEAVY: usize = MAX_DELIVERED_BYTES as usize;

// For so many events there is room from the beginning: an ask, a take and a post for each of `MAX_URLS` URLs, and for
// callers. A map that needs no more reserves nothing under the lock.
const EVENTS: usize = 4 * MAX_URLS;

/// A URL that is to be asked for, with a copy of it.
#[derive(Drop)]
pub(crate) struct Wish {
    /// The URL, which its event keeps.
    pub url: Text,
    /// The copy, which the list of URLs keeps where the URL is new.
    pub key: Text,
}

/// The events so far, and what they come to.
#[derive(Drop)]
pub struct MapState<P: Payload> {
    events: Vec<MapEvent<P>>,
    callers: u64,
    urls: TextTable,
    numbers: Vec<Number>,
    posts: Vec<u32>,
    wanted: usize,
    ahead: usize,
    weight: usize,
    shut: bool,
    out: usize,
    free_from: usize,
    ghost legal: { is_legal P.weight events.items ≡ true },
    ghost led: { is_led P.leads events.items ≡ true },
    ghost fit: { are_fit P.weight P.fits events.items ≡ true },
    ghost replayed: { record { events = vec_len events; callers = callers; urls = urls; numbers = numbers.items; posts = posts.items; wanted = wanted; ahead = ahead; weight = weight; shut = shut } ≡ replay P.weight events.items } by { Coded-set (Prim.hlevel codes) (record { events = vec_len events; callers = callers; urls = urls; numbers = numbers.items; posts = posts.items; wanted = wanted; ahead = ahead; weight = weight; shut = shut }) (replay P.weight events.items) },
    ghost begun: { 0 < vec_len events },
    ghost aligned: { vec_len numbers ≡ length urls },
    ghost made: { vec_len numbers ≡ wanted + ahead },
    ghost few_wanted: { wanted ≤ MAX_URLS },
    ghost few_ahead: { ahead ≤ MAX_URLS },
    ghost few_callers: { callers ≤ vec_len events },
    ghost outs: { out ≡ outs_of numbers.items },
    ghost room: { vec_len events + out + (if shut then 0 else 1) ≤ vec_capacity events },
    ghost light: { weight ≤ MAX_DELIVERED_BYTES },
    ghost posts_room: { vec_len posts + out ≤ vec_capacity posts },
    ghost none_free: { has_free free_from numbers.items ≡ false },
    ghost free_within: { free_from ≤ vec_len numbers },
}

impl<P: Payload> Story for MapState<P> {
    type Entry = MapEvent<P>;

    ghost use Rattle.std.specs.Prelude.{◌≡◌, true, vec_len};
    ghost use Rattle.esm_module_map.specs.Replay.{maker_of, replay, is_legal};
    ghost use Rattle.esm_module_map.specs.Leading.{is_led};
    ghost use Rattle.esm_module_map.specs.Fitting.{are_fit};

    ghost story = { λ s. s.events.items };

    ghost maker = { maker_of };

    ghost legal = { λ es. (is_legal P.weight es ≡ true) × (is_led P.leads es ≡ true)
        × (are_fit P.weight P.fits es ≡ true) };

    ghost replays = { λ es s. record { events = vec_len s.events; callers = s.callers; urls = s.urls; numbers = s.numbers.items; posts = s.posts.items; wanted = s.wanted; ahead = s.ahead; weight = s.weight; shut = s.shut } ≡ replay P.weight es };

    fn entries(&self) -> &[MapEvent<P>] {
        self.events.as_slice()
    }

    ghost lawful = { λ s. (s.legal, s.led, s.fit) };

    ghost whole = { λ s. s.replayed };
}

impl<P: Payload> MapState<P> {
    // The state of a history that has just begun.
    pub(crate) fn new(alloc: Global, guide: Arc<P::Guide, Global>) -> Result<MapState<P>, Memory>
        ensures { IfOk result (λ s. s.events.items ≡ MapEvent.Begin guide ∷ []) }
    {
        let mut events = Vec::with_capacity(alloc, EVENTS)?;
        events.push_reserved(MapEvent::Begin(guide));
        let urls = TextTable::with_capacity(alloc, MAX_URLS)?;
        let numbers = Vec::with_capacity(alloc, MAX_URLS)?;
        let posts = Vec::with_capacity(alloc, MAX_URLS)?;
        Ok(MapState {
            events,
            callers: 0,
            urls,
            numbers,
            posts,
            wanted: 0,
            ahead: 0,
            weight: 0,
            shut: false,
            out: 0,
            free_from: 0,
        })
    }

    // One more caller, with the next number.
    pub(crate) fn enrol(&mut self) -> Result<u64, Memory>
        ensures { MatchResult result (λ c. (c ≡ (replay P.weight self.old.events.items).callers)
            × (self.new.events.items ≡ self.old.events.items ++ MapEvent.Enrol c ∷ []))
            (λ _. self.new.events.items ≡ self.old.events.items) }
    {
        let MapState {
            events,
            callers,
            out,
            ..
        } = self;
        if events.reserve(*out + 2).is_err() {
            return Err(Memory);
        }
        let number = *callers;
        events.push_reserved(MapEvent::Enrol(number));
        *callers += 1;
        Ok(number)
    }

    // The caller's Shut, where there is none.
    pub(crate) fn shut(&mut self, caller: u64)
        requires { caller < (replay P.weight self.old.events.items).callers }
        ensures reply { ShutReply P.weight self.old.events.items caller self.new.events.items }
        ensures callers { self.new.callers ≡ self.old.callers }
    {
        if !self.shut {
            let MapState { events, shut, .. } = self;
            events.push_reserved(MapEvent::Shut(caller));
            *shut = true;
        }
    }

    // An ask for a URL that has the number at this place.
    fn ask_known(&mut self, caller: u64, place: usize, url: Text, why: Why) -> Result<Asked, MapEnd>
        requires is_in { caller < self.old.callers }
        requires live { self.old.shut ≡ false }
        requires usable { is_usable url ≡ true }
        requires ahead { may_be_ahead (replay P.weight self.old.events.items) why ≡ true }
        requires leads { leads_to P.leads self.old.events.items why url ≡ true }
        requires known { place ≡ position_or_len (bytes_eq url) self.old.urls }
        requires within { place < vec_len self.old.numbers }
        ensures reply { AskReply P.weight self.old.events.items caller url why result
            self.new.events.items }
        ensures callers { self.new.callers ≡ self.old.callers }
    {
        let MapState {
            events,
            numbers,
            out,
            ..
        } = self;
        if events.reserve(*out + 2).is_err() {
            return Err(MapEnd::Memory);
        }
        let number = place as u32;
        let asked = known_as(numbers, place, number);
        ask_again(numbers, place, why);
        events.push_reserved(MapEvent::Ask(caller, number, url, why));
        Ok(asked)
    }

    // An ask for a URL that has no number, and gets the next.
    fn ask_new(&mut self, caller: u64, url: Text, key: Text, why: Why) -> Result<Asked, MapEnd>
        requires is_in { caller < self.old.callers }
        requires live { self.old.shut ≡ false }
        requires usable { is_usable url ≡ true }
        requires key { key ≡ url }
        requires ahead { may_be_ahead (replay P.weight self.old.events.items) why ≡ true }
        requires leads { leads_to P.leads self.old.events.items why url ≡ true }
        requires fresh { position_or_len (bytes_eq key) self.old.urls
            ≡ length self.old.urls }
        ensures reply { AskReply P.weight self.old.events.items caller url why result
            self.new.events.items }
        ensures callers { self.new.callers ≡ self.old.callers }
    {
        if !has_room(self.wanted, self.ahead, why) {
            return Err(MapEnd::Full);
        }
        let MapState {
            events,
            urls,
            numbers,
            wanted,
            ahead,
            out,
            ..
        } = self;
        if events.reserve(*out + 2).is_err() {
            return Err(MapEnd::Memory);
        }
        if numbers.reserve(1).is_err() {
            return Err(MapEnd::Memory);
        }
        let Ok(()) = add_key(urls, key) else {
            return Err(MapEnd::Memory);
        };
        let number = numbers.len() as u32;
        numbers.push_reserved(fresh(why));
        count_number(wanted, ahead, why);
        events.push_reserved(MapEvent::Ask(caller, number, url, why));
        Ok(Asked::New(number))
    }

    // The caller asks for a URL. `key` is a second copy of it.
    pub(crate) fn ask(
        &mut self,
        caller: u64,
        url: Text,
        key: Text,
        why: Why,
    ) -> Result<Asked, MapEnd>
        requires is_in { caller < (replay P.weight self.old.events.items).callers }
        requires usable { is_usable url ≡ true }
        requires key { key ≡ url }
        requires ahead { may_be_ahead (replay P.weight self.old.events.items) why ≡ true }
        requires leads { leads_to P.leads self.old.events.items why url ≡ true }
        ensures reply { AskReply P.weight self.old.events.items caller url why result
            self.new.events.items }
        ensures callers { self.new.callers ≡ self.old.callers }
    {
        if self.shut {
            return Err(MapEnd::Closed);
        }
        match self.urls.find(&key) {
            Some(place) => self.ask_known(caller, place, url, why),
            None => self.ask_new(caller, url, key, why),
        }
    }

    // The caller asks for these URLs as wanted, one after the other, until one is refused. `asked` is empty, and has room for
    // the answers.
    pub(crate) fn ask_each(
        &mut self,
        caller: u64,
        wishes: Vec<Wish>,
        asked: Vec<Asked>,
    ) -> Result<Vec<Asked>, MapEnd>
        requires is_in { caller < (replay P.weight self.old.events.items).callers }
        requires wishes { All IsWish wishes.items }
        requires none { asked.items ≡ [] }
        requires room { vec_len asked + vec_len wishes ≤ vec_capacity asked }
        ensures reply { MatchResult result
            (λ asked. AskedAll P.weight self.old.events.items caller (map wished wishes.items) asked.items
            self.new.events.items)
            (λ end. AskedUntil P.weight self.old.events.items caller (map wished wishes.items) end
            self.new.events.items) }
        ensures callers { self.new.callers ≡ self.old.callers }
    {
        let mut asked = asked;
        for wish in wishes {
            let Wish { url, key } = wish;
            match self.ask(caller, url, key, Why::Wanted) {
                Ok(answer) => asked.push_reserved(answer),
                Err(end) => return Err(end),
            }
        }
        Ok(asked)
    }

    // The number that is to be taken next.
    fn next(&self) -> Option<usize>
        ensures { result ≡ next_order (replay P.weight self.now.events.items) }
    {
        match wanted_and_free_from(&self.numbers, self.free_from) {
            Some(place) => Some(place),
            None => self.next_ahead(),
        }
    }

    // The least free number, while the posts are light.
    fn next_ahead(&self) -> Option<usize>
        ensures { result ≡ next_by None (nat_lt self.now.weight MAX_DELIVERED_BYTES)
            (position is_free self.now.numbers.items) }
    {
        if self.weight < HEAVY {
            free_from(&self.numbers, self.free_from)
        } else {
            None
        }
    }

    // The caller takes the number at this place. Its URL is copied into `room`.
    fn give_out(&mut self, caller: u64, place: usize, room: String) -> Result<Taken, Memory>
        requires room { string_bytes room ≡ [] }
        requires is_in { caller < self.old.callers }
        requires live { self.old.shut ≡ false }
        requires next { next_order (replay P.weight self.old.events.items) ≡ Some place }
        ensures reply { TakeReply P.weight self.old.events.items caller result
            (self.new.events.items) }
        ensures callers { self.new.callers ≡ self.old.callers }
    {
        let Some(url) = self.urls.get(place) else {
            unreachable!()
        };
        let mut room = room;
        if room.push_str(url.as_str()).is_err() {
            return Err(Memory);
        }
        let MapState {
            events,
            numbers,
            posts,
            out,
            free_from,
            ..
        } = self;
        if events.reserve(*out + 3).is_err() {
            return Err(Memory);
        }
        if posts.reserve(*out + 1).is_err() {
            return Err(Memory);
        }
        let number = place as u32;
        let url = Text::from_string(room);
        set_taker(numbers, place, caller);
        *free_from = taken_up_to(*free_from, place);
        *out += 1;
        events.push_reserved(MapEvent::Take(caller, number));
        Ok(Taken::Order(Order { number, url }))
    }

    // The caller takes what is to be taken next. `room` is empty, and has room for a URL.
    pub(crate) fn take(&mut self, caller: u64, room: String) -> Result<Taken, Memory>
        requires room { string_bytes room ≡ [] }
        requires is_in { caller < (replay P.weight self.old.events.items).callers }
        ensures reply { TakeReply P.weight self.old.events.items caller result
            (self.new.events.items) }
        ensures callers { self.new.callers ≡ self.old.callers }
    {
        if self.shut {
            return Ok(Taken::Closed);
        }
        match self.next() {
            Some(place) => self.give_out(caller, place, room),
            None => Ok(Taken::NotYet),
        }
    }

    // The caller posts what it has taken.
    pub(crate) fn post(&mut self, caller: u64, number: u32, payload: Arc<P, Global>)
        requires is_in { caller < (replay P.weight self.old.events.items).callers }
        requires order { is_order (replay P.weight self.old.events.items) caller number ≡ true }
        requires fits { may_fit P.weight P.fits self.old.events.items
            (MapEvent.Post caller number payload) ≡ true }
        ensures reply { self.new.events.items ≡ self.old.events.items
            ++ MapEvent.Post caller number payload ∷ [] }
        ensures callers { self.new.callers ≡ self.old.callers }
    {
        let size = payload.size();
        let MapState {
            events,
            numbers,
            posts,
            weight,
            out,
            ..
        } = self;
        set_place(numbers, number as usize, events.len());
        posts.push_reserved(number);
        *weight = heavier(*weight, size);
        *out -= 1;
        events.push_reserved(MapEvent::Post(caller, number, payload));
    }

    // The caller posts what it has filled, in order.
    fn post_all(&mut self, caller: u64, filled: Vec<Filled<P>>)
        requires is_in { caller < (replay P.weight self.old.events.items).callers }
        requires filled { AreFilled P.weight P.fits self.old.events.items caller filled.items }
        ensures reply { self.new.events.items
            ≡ self.old.events.items ++ posts_of caller filled.items }
        ensures callers { self.new.callers ≡ self.old.callers }
    {
        for one in filled {
            let Filled { number, payload } = one;
            self.post(caller, number, payload);
        }
    }

    // How often a caller that has so many rooms takes in one turn: a share of what is free, so that the other callers have
    // something to do, and once at the least.
    fn share(&self, rooms: usize) -> usize
        requires { 0 < self.now.callers }
        ensures most { result ≤ rooms }
        ensures least { 0 < rooms → 0 < result }
    {
        let free = self
            .numbers
            .len()
            .saturating_sub(self.out)
            .saturating_sub(self.posts.len());
        let share = free / self.callers as usize;
        share.max(1).min(rooms)
    }

    // The caller takes what is to be taken next, up to its share, until there is nothing: whether the map was shut then.
    fn take_all(
        &mut self,
        caller: u64,
        rooms: &mut Vec<String>,
        orders: &mut Vec<Order>,
    ) -> Result<bool, Memory>
        requires is_in { caller < (replay P.weight self.old.events.items).callers }
        requires empty { All (λ r. string_bytes r ≡ []) rooms.old.items }
        requires none { orders.old.items ≡ [] }
        requires room { vec_len orders.old + vec_len rooms.old ≤ vec_capacity orders.old }
        ensures reply { TakesUpTo P.weight caller self.old.events.items (vec_len rooms.old)
            orders.new.items result self.new.events.items }
        ensures callers { self.new.callers ≡ self.old.callers }
        ensures empty { All (λ r. string_bytes r ≡ []) rooms.new.items }
        ensures rooms { vec_len rooms.new + vec_len orders.new ≤ vec_len rooms.old }
        ensures kept { vec_len rooms.old ≤ vec_len rooms.new + vec_len orders.new + 1 }
    {
        let most = self.share(rooms.len());
        while orders.len() < most {
            let Some(room) = rooms.pop() else {
                unreachable!()
            };
            let Ok(taken) = self.take(caller, room) else {
                return Err(Memory);
            };
            match taken {
                Taken::Order(order) => orders.push_reserved(order),
                Taken::NotYet => return Ok(false),
                Taken::Closed => return Ok(true),
            }
        }
        Ok(false)
    }

    // The caller posts what it has filled, and takes its share.
    pub(crate) fn post_and_take_all(
        &mut self,
        caller: u64,
        filled: Vec<Filled<P>>,
        rooms: &mut Vec<String>,
        orders: &mut Vec<Order>,
    ) -> Result<bool, Memory>
        requires is_in { caller < (replay P.weight self.old.events.items).callers }
        requires filled { AreFilled P.weight P.fits self.old.events.items caller filled.items }
        requires empty { All (λ r. string_bytes r ≡ []) rooms.old.items }
        requires none { orders.old.items ≡ [] }
        requires room { vec_len orders.old + vec_len rooms.old ≤ vec_capacity orders.old }
        ensures reply { TakesUpTo P.weight caller
            (self.old.events.items ++ posts_of caller filled.items) (vec_len rooms.old)
            orders.new.items result self.new.events.items }
        ensures callers { self.new.callers ≡ self.old.callers }
        ensures empty { All (λ r. string_bytes r ≡ []) rooms.new.items }
        ensures rooms { vec_len rooms.new + vec_len orders.new ≤ vec_len rooms.old }
        ensures kept { vec_len rooms.old ≤ vec_len rooms.new + vec_len orders.new + 1 }
    {
        self.post_all(caller, filled);
        self.take_all(caller, rooms, orders)
    }

    // The number of the post behind the first so many.
    pub(crate) fn post_at(&self, from: usize) -> Option<u32>
        ensures { result ≡ slice_get (replay P.weight self.now.events.items).posts from }
    {
        match self.posts.get(from) {
            Some(number) => Some(*number),
            None => None,
        }
    }

    // What is posted under a number.
    pub(crate) fn entry(&self, number: u32) -> Result<Option<Arc<P, Global>>, Memory>
        ensures posted { IfOk result
            (λ found. IfSome found (λ p. IsPostIn self.now.events.items number (arc_value p))) }
        ensures exact { IfOk result (λ found. is_some found
            ≡ is_posted (replay P.weight self.now.events.items) number) }
    {
        let Some(standing) = self.numbers.get(number as usize) else {
            return Ok(None);
        };
        let Some(place) = standing.place else {
            return Ok(None);
        };
        match self.events.get(place) {
            Some(event) => posted_by(event, number),
            None => Ok(None),
        }
    }

    // The post behind the first so many, with what was posted.
    fn heard_at(&self, place: usize) -> Result<Option<Heard<P>>, Memory>
        ensures exact { IfOk result (λ found. option_map number_heard found
            ≡ slice_get (replay P.weight self.now.events.items).posts place) }
        ensures posted { IfOk result (λ found. IfSome found (λ x.
            IsPostIn self.now.events.items x.number (arc_value x.payload))) }
    {
        let Some(number) = self.post_at(place) else {
            return Ok(None);
        };
        let Ok(entry) = self.entry(number) else {
            return Err(Memory);
        };
        let Some(payload) = entry else { unreachable!() };
        Ok(Some(Heard { number, payload }))
    }

    // The posts behind the first `known`, as many as there is room for; behind `Err`, those that were heard before it.
    pub(crate) fn hear(&self, known: &mut usize, heard: &mut Vec<Heard<P>>) -> Result<(), Memory>
        ensures heard { HearsPosts P.weight self.now.events.items known.old heard.old.items
            known.new heard.new.items }
        ensures all { OnOk result (vec_len heard.new < vec_capacity heard.new
            → slice_get (replay P.weight self.now.events.items).posts known.new ≡ None) }
        ensures room { vec_capacity heard.new ≡ vec_capacity heard.old }
    {
        while heard.len() < heard.capacity() {
            let Ok(found) = self.heard_at(*known) else {
                return Err(Memory);
            };
            let Some(post) = found else {
                return Ok(());
            };
            heard.push_reserved(post);
            *known += 1;
        }
        Ok(())
    }

    // The history.
    pub(crate) fn into_events(self) -> Vec<MapEvent<P>>
        ensures { result.items ≡ self.events.items }
    {
        let MapState { events, .. } = self;
        events
    }
}

// What an event posts under a number, if it does.
fn posted_by<P: Payload>(event: &MapEvent<P>, number: u32) -> Result<Option<Arc<P, Global>>, Memory>
    ensures posted { IfOk result (λ it. IfSome it (λ p. Posts event.now number (arc_value p))) }
    ensures exact { IfOk result (λ found. is_some found ≡ is_post_of number event.now) }
{
    match event {
        MapEvent::Post(_, n, payload) => {
            if *n == number {
                Ok(Some(Arc::try_clone(payload)?))
            } else {
                Ok(None)
            }
        }
        _ => Ok(None),
    }
}

// A URL that has no number gets the next.
fn add_key(urls: &mut TextTable, key: Text) -> Result<(), Memory>
    requires { position_or_len (bytes_eq key) urls.old ≡ length urls.old }
    ensures { MatchResult result (λ _. urls.new ≡ urls.old ++ key ∷ [])
        (λ _. urls.new ≡ urls.old) }
{
    urls.insert_new(key)
}

// Whether an ask can make one number more.
fn has_room(wanted: usize, ahead: usize, why: Why) -> bool
    ensures { result ≡ room_by why wanted ahead }
{
    match why {
        Why::Wanted => wanted < MAX_URLS,
        Why::Ahead(_) => ahead < MAX_URLS,
    }
}

// One number more is made.
fn count_number(wanted: &mut usize, ahead: &mut usize, why: Why)
    requires { room_by why wanted.old ahead.old ≡ true }
    ensures wanted { wanted.new ≡ wanted.old + made_wanted why }
    ensures ahead { ahead.new ≡ ahead.old + made_ahead why }
    ensures few { (wanted.old ≤ MAX_URLS → wanted.new ≤ MAX_URLS)
        × (ahead.old ≤ MAX_URLS → ahead.new ≤ MAX_URLS) }
    ensures one { wanted.new + ahead.new ≡ wanted.old + ahead.old + 1 }
{
    match why {
        Why::Wanted => *wanted += 1,
        Why::Ahead(_) => *ahead += 1,
    }
}

// A number that was just made.
fn fresh(why: Why) -> Number
    ensures { result ≡ fresh_number why }
{
    match why {
        Why::Wanted => Number {
            wanted: true,
            taker: None,
            place: None,
        },
        Why::Ahead(_) => Number {
            wanted: false,
            taker: None,
            place: None,
        },
    }
}

// How an ask for a number that was made is answered.
fn known_as(numbers: &[Number], place: usize, number: u32) -> Asked
    requires { place < length numbers.now }
    ensures { result ≡ answer_by true (has_place (slice_get numbers.now place)) number }
{
    let standing = numbers[place];
    if standing.taker.is_some() && standing.place.is_some() {
        Asked::Here(number)
    } else {
        Asked::Waiting(number)
    }
}

// The weight with one post more.
fn heavier(weight: usize, size: usize) -> usize
    requires { weight ≤ MAX_DELIVERED_BYTES }
    ensures { result ≡ min (weight + size) MAX_DELIVERED_BYTES }
{
    if size >= HEAVY - weight {
        HEAVY
    } else {
        weight + size
    }
}
