// A map over bodies of given weights, its callers, and their calls, with what each answers.
ghost use Rattle.std.specs.Prelude.{◌≡◌, ◌<◌, true, IfOk};
ghost use Rattle.esm_base.specs.Urls.{Url, is_usable};
ghost use Rattle.esm_module_map.specs.Leading.{leads_to};
ghost use Rattle.esm_module_map.specs.Replay.{replay, may_be_ahead};
ghost use Rattle.esm_module_map.specs.Views.{view_in, table_of};

use crate::telling::{SHORT, Told, holds};
use crate::turns::turns_take;
use esm_base::{Memory, Text, is_usable};
use esm_module_map::{Asked, Caller, Heard, MapEnd, ModuleMap, Payload, Taken, Why};
use std::alloc::Global;
use std::sync::{Arc, Wait};

/// A body that weighs so much, fits each URL and leads to each.
#[derive(Drop)]
pub struct Body {
    /// What it weighs.
    pub bytes: usize,
}

impl Payload for Body {
    type Guide = u64;

    ghost use Rattle.std.specs.Prelude.{true};

    ghost weight = { λ p. p.bytes };

    ghost leads = { λ guide p from to. true };

    ghost fits = { λ guide p url. true };

    fn size(&self) -> usize {
        self.bytes
    }
}

/// A map, and a caller with all shares.
pub fn opened<R: Wait>(rt: &R, alloc: Global) -> Result<(ModuleMap<Body>, Caller<Body>), Memory>
    ensures own { IfOk result (λ made. table_of made.0.lock.table.shared.table_id made.1.pass
        ≡ made.0.lock.table.shared.table_id) }
    ensures shares { IfOk result (λ made. (view_in made.1.pass).shares ≡ 1024) }
{
    let guide = Arc::new(alloc, 0)?;
    let (map, pass) = ModuleMap::new(alloc, guide)?;
    match map.enrol(rt, pass) {
        Ok(caller) => Ok((map, caller)),
        Err(_pass) => Err(Memory),
    }
}

// A second caller.
fn another<R: Wait>(
    rt: &R,
    map: &ModuleMap<Body>,
    caller: &mut Caller<Body>,
) -> Result<Caller<Body>, Memory>
    requires own { table_of map.now.lock.table.shared.table_id caller.old.pass
        ≡ map.now.lock.table.shared.table_id }
    requires shares { 1 < (view_in caller.old.pass).shares }
    ensures own { table_of map.now.lock.table.shared.table_id caller.new.pass
        ≡ map.now.lock.table.shared.table_id }
    ensures other { IfOk result (λ c. table_of map.now.lock.table.shared.table_id c.pass
        ≡ map.now.lock.table.shared.table_id) }
{
    let pass = map.split(caller);
    match map.enrol(rt, pass) {
        Ok(other) => Ok(other),
        Err(_pass) => Err(Memory),
    }
}

/// A map and two callers.
pub fn pair<R: Wait>(
    rt: &R,
    alloc: Global,
) -> Result<(ModuleMap<Body>, Caller<Body>, Caller<Body>), Memory>
    ensures one { IfOk result (λ made. table_of made.0.lock.table.shared.table_id made.1.pass
        ≡ made.0.lock.table.shared.table_id) }
    ensures other { IfOk result (λ made. table_of made.0.lock.table.shared.table_id made.2.pass
        ≡ made.0.lock.table.shared.table_id) }
{
    let (map, mut one) = opened(rt, alloc)?;
    match another(rt, &map, &mut one) {
        Ok(other) => Ok((map, one, other)),
        Err(short) => Err(short),
    }
}

/// The URL that is asked for.
pub const URL: &str = "https://a.test/main.js";

/// Calls of a map that is shut.
pub const SHUT: &[(Call, Answer)] = &[
    (Call::Ask(URL), ("Closed", 0)),
    (
        Call::AskBoth((URL, Asked::Here(0)), (URL, Asked::Here(0))),
        ("Closed", 0),
    ),
    (Call::Fill(1), ("Closed", 0)),
    (Call::Serve(1, 1, &[], &[]), ("Closed", 0)),
];

/// What a call answers, in a word, and a number that goes with it (0 where none does).
pub type Answer = (&'static str, u64);

const MEMORY: Answer = (SHORT, 0);

// The word where it is so.
fn so(word: &'static str, is_so: bool) -> Answer {
    if is_so { (word, 0) } else { ("others", 0) }
}

// How a refusal is told.
fn refused(end: MapEnd) -> Answer {
    match end {
        MapEnd::Full => ("Full", 0),
        MapEnd::Closed => ("Closed", 0),
        MapEnd::Memory => MEMORY,
    }
}

// A usable URL of this text.
fn usable(alloc: Global, url: &str) -> Result<Text, Answer>
    ensures { IfOk result (λ text. is_usable text ≡ true) }
{
    let Ok(url) = Text::copy(alloc, url) else {
        return Err(MEMORY);
    };
    let Ok(usable) = is_usable(alloc, url.as_str()) else {
        return Err(MEMORY);
    };
    if usable {
        Ok(url)
    } else {
        Err(("no usable URL", 0))
    }
}

// Whether any URL may be asked for so: as wanted always, ahead where something is posted under the number, since each payload
// leads to each URL.
fn may_ask<R: Wait, P: Payload>(
    rt: &R,
    map: &ModuleMap<P>,
    caller: &mut Caller<P>,
    why: Why,
) -> bool
    requires own { table_of map.now.lock.table.shared.table_id caller.old.pass
        ≡ map.now.lock.table.shared.table_id }
    requires any { (guide : P.Guide) (p : P) (from to : Url) → P.leads guide p from to ≡ true }
    ensures own { table_of map.now.lock.table.shared.table_id caller.new.pass
        ≡ map.now.lock.table.shared.table_id }
    ensures ahead { result ≡ true
        → may_be_ahead (replay P.weight (view_in caller.new.pass).seen) why ≡ true }
    ensures leads { result ≡ true
        → (to : Url) → leads_to P.leads (view_in caller.new.pass).seen why to ≡ true }
{
    match why {
        Why::Wanted => true,
        Why::Ahead(number) => match map.entry(rt, caller, number) {
            Ok(Some(_payload)) => true,
            _ => false,
        },
    }
}

/// Asks for a URL.
pub fn ask<R: Wait>(
    rt: &R,
    alloc: Global,
    map: &ModuleMap<Body>,
    caller: &mut Caller<Body>,
    url: &str,
    why: Why,
) -> Answer
    requires { table_of map.now.lock.table.shared.table_id caller.old.pass
        ≡ map.now.lock.table.shared.table_id }
    ensures { table_of map.now.lock.table.shared.table_id caller.new.pass
        ≡ map.now.lock.table.shared.table_id }
{
    let url = match usable(alloc, url) {
        Ok(url) => url,
        Err(told) => return told,
    };
    if !may_ask(rt, map, caller, why) {
        return ("nothing leads there", 0);
    }
    match map.ask(rt, caller, &url, why) {
        Ok(Asked::New(number)) => ("New", u64::from(number)),
        Ok(Asked::Waiting(number)) => ("Waiting", u64::from(number)),
        Ok(Asked::Here(number)) => ("Here", u64::from(number)),
        Err(end) => refused(end),
    }
}

// Asks for two URLs in one turn, as wanted: whether they are answered so.
fn ask_both<R: Wait>(
    rt: &R,
    alloc: Global,
    map: &ModuleMap<Body>,
    caller: &mut Caller<Body>,
    one: (&str, Asked),
    other: (&str, Asked),
) -> Answer
    requires { table_of map.now.lock.table.shared.table_id caller.old.pass
        ≡ map.now.lock.table.shared.table_id }
    ensures { table_of map.now.lock.table.shared.table_id caller.new.pass
        ≡ map.now.lock.table.shared.table_id }
{
    let first = match usable(alloc, one.0) {
        Ok(url) => url,
        Err(told) => return told,
    };
    let second = match usable(alloc, other.0) {
        Ok(url) => url,
        Err(told) => return told,
    };
    match map.ask_all(rt, alloc, caller, &[first, second]) {
        Ok(asked) => so("Both", asked.as_slice() == [one.1, other.1].as_slice()),
        Err(end) => refused(end),
    }
}

/// Takes what is to be taken, and posts a body under it.
pub fn fill<R: Wait>(
    rt: &R,
    alloc: Global,
    map: &ModuleMap<Body>,
    caller: &mut Caller<Body>,
    bytes: usize,
) -> Answer
    requires { table_of map.now.lock.table.shared.table_id caller.old.pass
        ≡ map.now.lock.table.shared.table_id }
    ensures { table_of map.now.lock.table.shared.table_id caller.new.pass
        ≡ map.now.lock.table.shared.table_id }
{
    let Ok(payload) = Arc::new(alloc, Body { bytes }) else {
        return MEMORY;
    };
    let Ok(taken) = map.take(rt, alloc, caller) else {
        return MEMORY;
    };
    match taken {
        Taken::Order(order) => {
            let number = order.number();
            map.post(rt, caller, order, payload);
            ("Posted", u64::from(number))
        }
        Taken::NotYet => ("NotYet", 0),
        Taken::Closed => ("Closed", 0),
    }
}

// The weight of the body that was posted under this number.
fn entry<R: Wait>(rt: &R, map: &ModuleMap<Body>, caller: &mut Caller<Body>, number: u32) -> Answer
    requires { table_of map.now.lock.table.shared.table_id caller.old.pass
        ≡ map.now.lock.table.shared.table_id }
    ensures { table_of map.now.lock.table.shared.table_id caller.new.pass
        ≡ map.now.lock.table.shared.table_id }
{
    match map.entry(rt, caller, number) {
        Ok(Some(body)) => ("Body", body.bytes as u64),
        Ok(None) => ("None", 0),
        Err(_) => MEMORY,
    }
}

// The number of the post with this index.
fn post_at<R: Wait>(rt: &R, map: &ModuleMap<Body>, caller: &mut Caller<Body>, from: usize) -> Answer
    requires { table_of map.now.lock.table.shared.table_id caller.old.pass
        ≡ map.now.lock.table.shared.table_id }
    ensures { table_of map.now.lock.table.shared.table_id caller.new.pass
        ≡ map.now.lock.table.shared.table_id }
{
    match map.post_at(rt, caller, from) {
        Some(number) => ("Post", u64::from(number)),
        None => ("None", 0),
    }
}

// Whether just this was heard, by number and weight.
fn are_posts(heard: &[Heard<Body>], posts: &[(u32, usize)]) -> bool {
    if heard.len() != posts.len() {
        return false;
    }
    for at in 0..posts.len() {
        if heard[at].number != posts[at].0 || heard[at].payload.bytes != posts[at].1 {
            return false;
        }
    }
    true
}

// What was posted behind the first so many, with room for so many: whether it is this, by number and weight.
fn hear<R: Wait>(
    rt: &R,
    alloc: Global,
    map: &ModuleMap<Body>,
    caller: &mut Caller<Body>,
    from: usize,
    room: usize,
    posts: &[(u32, usize)],
) -> Answer
    requires { table_of map.now.lock.table.shared.table_id caller.old.pass
        ≡ map.now.lock.table.shared.table_id }
    ensures { table_of map.now.lock.table.shared.table_id caller.new.pass
        ≡ map.now.lock.table.shared.table_id }
{
    let Ok(mut heard) = Vec::with_capacity(alloc, room) else {
        return MEMORY;
    };
    let mut known = from;
    match map.hear(rt, caller, &mut known, &mut heard) {
        Ok(()) => so("Heard", are_posts(heard.as_slice(), posts)),
        Err(Memory) => MEMORY,
    }
}

// Takes for so many rooms, and posts bodies that weigh so much as it takes the next: whether the first two turns take just
// these numbers.
fn serve<R: Wait>(
    rt: &R,
    alloc: Global,
    map: &ModuleMap<Body>,
    caller: &mut Caller<Body>,
    rooms: usize,
    bytes: usize,
    first: &[u32],
    second: &[u32],
) -> Answer
    requires { table_of map.now.lock.table.shared.table_id caller.old.pass
        ≡ map.now.lock.table.shared.table_id }
    ensures { table_of map.now.lock.table.shared.table_id caller.new.pass
        ≡ map.now.lock.table.shared.table_id }
{
    let Ok(payload) = Arc::new(alloc, Body { bytes }) else {
        return MEMORY;
    };
    match turns_take(rt, alloc, map, caller, rooms, &payload, (first, second)) {
        Ok(are_so) => so("Served", are_so),
        Err(word) => (word, 0),
    }
}

/// What a caller may do: each the function of its name.
#[derive(Clone, Copy)]
pub enum Call {
    /// Asks for a URL, as wanted.
    Ask(&'static str),
    /// Asks for a URL ahead: what is posted under the number leads to it.
    Ahead(u32, &'static str),
    /// Asks for two URLs in one turn, as wanted; they are to be answered so.
    AskBoth((&'static str, Asked), (&'static str, Asked)),
    /// Takes what is to be taken, and posts a body that weighs so much.
    Fill(usize),
    /// Takes for so many rooms, and posts bodies that weigh so much as it takes the next; the first turn and the second are to
    /// take these numbers.
    Serve(usize, usize, &'static [u32], &'static [u32]),
    /// What was posted under a number.
    Entry(u32),
    /// The post with an index.
    PostAt(usize),
    /// What was posted behind the first so many, with room for so many; it is to be this, by number and weight.
    Hear(usize, usize, &'static [(u32, usize)]),
}

// Calls.
fn make_call<R: Wait>(
    rt: &R,
    alloc: Global,
    map: &ModuleMap<Body>,
    caller: &mut Caller<Body>,
    call: Call,
) -> Answer
    requires { table_of map.now.lock.table.shared.table_id caller.old.pass
        ≡ map.now.lock.table.shared.table_id }
    ensures { table_of map.now.lock.table.shared.table_id caller.new.pass
        ≡ map.now.lock.table.shared.table_id }
{
    match call {
        Call::Ask(url) => ask(rt, alloc, map, caller, url, Why::Wanted),
        Call::Ahead(from, url) => ask(rt, alloc, map, caller, url, Why::Ahead(from)),
        Call::AskBoth(one, other) => ask_both(rt, alloc, map, caller, one, other),
        Call::Fill(bytes) => fill(rt, alloc, map, caller, bytes),
        Call::Serve(rooms, bytes, first, second) => {
            serve(rt, alloc, map, caller, rooms, bytes, first, second)
        }
        Call::Entry(number) => entry(rt, map, caller, number),
        Call::PostAt(from) => post_at(rt, map, caller, from),
        Call::Hear(from, room, posts) => hear(rt, alloc, map, caller, from, room, posts),
    }
}

/// Tells the word of an answer that isn't given.
pub fn is_given(found: Answer, wanted: Answer) -> Told {
    holds(found == wanted, wanted.0)
}

/// Makes these calls, one behind the other: the word of the first answer that isn't the one that stands beside its call.
pub fn answers_are<R: Wait>(
    rt: &R,
    alloc: Global,
    map: &ModuleMap<Body>,
    caller: &mut Caller<Body>,
    steps: &[(Call, Answer)],
) -> Told
    requires { table_of map.now.lock.table.shared.table_id caller.old.pass
        ≡ map.now.lock.table.shared.table_id }
    ensures { table_of map.now.lock.table.shared.table_id caller.new.pass
        ≡ map.now.lock.table.shared.table_id }
{
    let mut told = Ok(());
    for step in steps {
        let found = make_call(rt, alloc, map, caller, step.0);
        told = told.and(is_given(found, step.1));
    }
    told
}
