// Turns, workers on a shut map, and two workers beside a thread that leads them.
ghost use Rattle.std.specs.Prelude.{◌≡◌, ◌<◌, ◌+◌, ◌≤◌, ◌∷◌, [], All, None, Some, IfOk, OnOk, vec_len};
ghost use Rattle.std.specs.Vec.{vec_capacity};
ghost use Rattle.std.specs.Thread.{IsSync};
ghost use Rattle.esm_hlock.specs.Words.{knows, IsPassOf};
ghost use Rattle.esm_import_map.specs.ImportMap.{no_maps};
ghost use Rattle.esm_module_map.specs.Leading.{guide_in};
ghost use Rattle.esm_module_map.specs.Views.{view_in, table_of};
ghost use Rattle.esm_module_map.specs.Saying.{SaysNothing};
ghost use Rattle.esm_example_tests.specs.Jobs.{IsNew};
ghost use Rattle.esm_fetch.specs.Serving.{weight};
ghost use Rattle.esm_fetch.specs.Pool.{IsToBegin, IsGuided};

use esm_ast::Outcome;
use esm_base::{Memory, Text, is_usable};
use esm_fetch::{Bell, Done, Job, Pool, Posted, Turned, fetch_one, work_all, worker};
use esm_hlock::Pass;
use esm_import_map::ImportMap;
use esm_module_map::{Caller, MapState, ModuleMap, Why, laws};
use esm_ports::{AskKind, Asked, MemSource, Source};
use std::alloc::Global;
use std::marker::{Send, Sync};
use std::sync::{Arc, Wait};
use std::thread::{Threads, join};

// A caller that has just enrolled; the guide of the map is the empty import map.
fn enrolled<R: Wait>(
    rt: &R,
    modules: &ModuleMap<Posted>,
    pass: Pass<MapState<Posted>>,
) -> Result<Caller<Posted>, Memory>
    requires own { IsPassOf modules.now.lock pass }
    requires none { (knows pass).number ≡ None }
    requires guide { guide_in (knows pass).seen ≡ Some no_maps }
    ensures own { IfOk result (λ c. table_of modules.now.lock.table.shared.table_id c.pass
        ≡ modules.now.lock.table.shared.table_id) }
    ensures shares { IfOk result (λ c. (view_in c.pass).shares ≡ (knows pass).shares) }
    ensures numbers { IfOk result (λ c. (view_in c.pass).numbers
        ≡ c.number ∷ (knows pass).numbers) }
    ensures fresh { IfOk result (λ c. SaysNothing weight c.number (view_in c.pass).seen) }
    ensures guide { IfOk result (λ c. guide_in (view_in c.pass).seen ≡ Some no_maps) }
{
    laws::guide_stays::<Posted>();
    match modules.enrol(rt, pass) {
        Ok(caller) => Ok(caller),
        Err(_pass) => Err(Memory),
    }
}

// A map under the empty import map, and a caller with all shares.
fn opened<R: Wait>(rt: &R, alloc: Global) -> Result<(ModuleMap<Posted>, Caller<Posted>), Memory>
    ensures own { IfOk result (λ made. table_of made.0.lock.table.shared.table_id made.1.pass
        ≡ made.0.lock.table.shared.table_id) }
    ensures shares { IfOk result (λ made. (view_in made.1.pass).shares ≡ 1024) }
    ensures guide { IfOk result (λ made. guide_in (view_in made.1.pass).seen ≡ Some no_maps) }
{
    let guide = Arc::new(alloc, ImportMap::empty(alloc))?;
    let (modules, pass) = ModuleMap::new(alloc, guide)?;
    match enrolled(rt, &modules, pass) {
        Ok(caller) => Ok((modules, caller)),
        Err(short) => Err(short),
    }
}

// A caller with one share that has just enrolled.
fn another<R: Wait>(
    rt: &R,
    modules: &ModuleMap<Posted>,
    caller: &mut Caller<Posted>,
) -> Result<Caller<Posted>, Memory>
    requires own { table_of modules.now.lock.table.shared.table_id caller.old.pass
        ≡ modules.now.lock.table.shared.table_id }
    requires shares { 1 < (view_in caller.old.pass).shares }
    requires guide { guide_in (view_in caller.old.pass).seen ≡ Some no_maps }
    ensures own { table_of modules.now.lock.table.shared.table_id caller.new.pass
        ≡ modules.now.lock.table.shared.table_id }
    ensures shares { (view_in caller.new.pass).shares + 1 ≡ (view_in caller.old.pass).shares }
    ensures guide { guide_in (view_in caller.new.pass).seen ≡ Some no_maps }
    ensures guided { IfOk result (λ c. guide_in (view_in c.pass).seen ≡ Some no_maps) }
    ensures other { IfOk result (λ c. table_of modules.now.lock.table.shared.table_id c.pass
        ≡ modules.now.lock.table.shared.table_id) }
    ensures share { IfOk result (λ c. (view_in c.pass).shares ≡ 1) }
    ensures numbers { IfOk result (λ c. (view_in c.pass).numbers ≡ c.number ∷ []) }
    ensures fresh { IfOk result (λ c. SaysNothing weight c.number (view_in c.pass).seen) }
{
    let pass = modules.split(caller);
    match enrolled(rt, modules, pass) {
        Ok(other) => Ok(other),
        Err(short) => Err(short),
    }
}

// The file at this URL.
fn file(alloc: Global, url: &str) -> Result<(Text, Vec<u8>), Memory> {
    Ok((
        Text::copy(alloc, url)?,
        Vec::from_slice(alloc, b"print(\"m\");")?,
    ))
}

// A source that has files at these URLs.
fn source_of(alloc: Global, urls: &[&str]) -> Result<MemSource, Memory>
    ensures { IfOk result (λ s. s.asked ≡ []) }
{
    let mut files = Vec::new(alloc);
    for url in urls {
        files.push(file(alloc, url)?)?;
    }
    MemSource::new(alloc, files, Vec::new(alloc))
}

// Asks for a URL, as wanted; false where that isn't done.
fn ask<R: Wait>(
    rt: &R,
    alloc: Global,
    modules: &ModuleMap<Posted>,
    caller: &mut Caller<Posted>,
    url: &str,
) -> bool
    requires { table_of modules.now.lock.table.shared.table_id caller.old.pass
        ≡ modules.now.lock.table.shared.table_id }
    ensures { table_of modules.now.lock.table.shared.table_id caller.new.pass
        ≡ modules.now.lock.table.shared.table_id }
{
    let Ok(url) = Text::copy(alloc, url) else {
        return false;
    };
    let Ok(usable) = is_usable(alloc, url.as_str()) else {
        return false;
    };
    usable && modules.ask(rt, caller, &url, Why::Wanted).is_ok()
}

const URLS: [&str; 3] = [
    "https://a.test/main.js",
    "https://a.test/a.js",
    "https://a.test/b.js",
];

// A job of a caller that has just enrolled and a source that wasn't asked.
fn job<S: Source>(modules: &ModuleMap<Posted>, caller: Caller<Posted>, source: S) -> Job<S>
    requires own { table_of modules.now.lock.table.shared.table_id caller.pass
        ≡ modules.now.lock.table.shared.table_id }
    requires share { (view_in caller.pass).shares ≡ 1 }
    requires numbers { (view_in caller.pass).numbers ≡ caller.number ∷ [] }
    requires guide { guide_in (view_in caller.pass).seen ≡ Some no_maps }
    requires fresh { SaysNothing weight caller.number (view_in caller.pass).seen }
    requires unasked { S.asked source ≡ [] }
    ensures job { IsToBegin modules.now.lock.table.shared.table_id S.holds S.asked result }
    ensures guide { IsGuided no_maps result }
{
    Job { caller, source }
}

// A job of a new caller and a source that has files at these URLs and wasn't asked.
fn new_job<R: Wait>(
    rt: &R,
    alloc: Global,
    modules: &ModuleMap<Posted>,
    main: &mut Caller<Posted>,
    urls: &[&str],
) -> Result<Job<MemSource>, Memory>
    requires own { table_of modules.now.lock.table.shared.table_id main.old.pass
        ≡ modules.now.lock.table.shared.table_id }
    requires shares { 1 < (view_in main.old.pass).shares }
    requires guide { guide_in (view_in main.old.pass).seen ≡ Some no_maps }
    ensures own { table_of modules.now.lock.table.shared.table_id main.new.pass
        ≡ modules.now.lock.table.shared.table_id }
    ensures shares { OnOk result
        ((view_in main.new.pass).shares + 1 ≡ (view_in main.old.pass).shares) }
    ensures guide { OnOk result (guide_in (view_in main.new.pass).seen ≡ Some no_maps) }
    ensures guided { IfOk result (IsGuided no_maps) }
    ensures job { IfOk result (IsNew modules.now.lock.table.shared.table_id) }
{
    let source = source_of(alloc, urls)?;
    match another(rt, modules, main) {
        Ok(caller) => Ok(job(modules, caller, source)),
        Err(short) => Err(short),
    }
}

// Two of them, of which the second has no files.
fn two_new<R: Wait>(
    rt: &R,
    alloc: Global,
    modules: &ModuleMap<Posted>,
    main: &mut Caller<Posted>,
    urls: &[&str],
) -> Result<(Job<MemSource>, Job<MemSource>), Memory>
    requires own { table_of modules.now.lock.table.shared.table_id main.old.pass
        ≡ modules.now.lock.table.shared.table_id }
    requires shares { 2 < (view_in main.old.pass).shares }
    requires guide { guide_in (view_in main.old.pass).seen ≡ Some no_maps }
    ensures own { table_of modules.now.lock.table.shared.table_id main.new.pass
        ≡ modules.now.lock.table.shared.table_id }
    ensures guides { IfOk result (λ made. IsGuided no_maps made.0 × IsGuided no_maps made.1) }
    ensures jobs { IfOk result (λ made. IsNew modules.now.lock.table.shared.table_id made.0
        × IsNew modules.now.lock.table.shared.table_id made.1) }
{
    let one = new_job(rt, alloc, modules, main, urls)?;
    let other = new_job(rt, alloc, modules, main, &[])?;
    Ok((one, other))
}

// Two jobs of callers that have just enrolled and sources that weren't asked.
fn two_jobs<S: Source>(
    alloc: Global,
    modules: &ModuleMap<Posted>,
    guide: &ImportMap,
    one: Job<S>,
    other: Job<S>,
) -> Result<Vec<Job<S>>, Memory>
    requires one { IsToBegin modules.now.lock.table.shared.table_id S.holds S.asked one }
    requires other { IsToBegin modules.now.lock.table.shared.table_id S.holds S.asked other }
    requires map { guide.now ≡ no_maps }
    requires guides { IsGuided no_maps one × IsGuided no_maps other }
    ensures jobs { IfOk result (λ v. All (IsToBegin modules.now.lock.table.shared.table_id S.holds
        S.asked) v.items) }
    ensures guides { IfOk result (λ v. All (IsGuided guide.now) v.items) }
    ensures two { IfOk result (λ v. vec_len v ≡ 2) }
{
    let mut jobs = Vec::with_capacity(alloc, 2)?;
    jobs.push_reserved(one);
    jobs.push_reserved(other);
    Ok(jobs)
}

// A turn of a job, under the empty import map.
fn turn<R: Wait, S: Source>(
    rt: &R,
    alloc: Global,
    modules: &ModuleMap<Posted>,
    bell: &Bell,
    guide: &ImportMap,
    job: &mut Job<S>,
) -> Result<Turned, Memory>
    requires job { IsToBegin modules.now.lock.table.shared.table_id S.holds S.asked job.old }
    requires guide { (guide.now ≡ no_maps) × IsGuided no_maps job.old }
    ensures job { OnOk result
        (IsToBegin modules.now.lock.table.shared.table_id S.holds S.asked job.new) }
    ensures guide { OnOk result (IsGuided no_maps job.new) }
{
    laws::guide_stays::<Posted>();
    match fetch_one(
        rt,
        alloc,
        modules,
        bell,
        guide,
        &mut job.caller,
        &mut job.source,
    ) {
        Ok(turned) => Ok(turned),
        Err(_) => Err(Memory),
    }
}

// Whether it is posted that nothing is at the first URL.
fn is_absent<R: Wait>(rt: &R, modules: &ModuleMap<Posted>, leader: &mut Caller<Posted>) -> bool
    requires { table_of modules.now.lock.table.shared.table_id leader.old.pass
        ≡ modules.now.lock.table.shared.table_id }
    ensures { table_of modules.now.lock.table.shared.table_id leader.new.pass
        ≡ modules.now.lock.table.shared.table_id }
{
    match modules.entry(rt, leader, 0) {
        Ok(Some(posted)) => matches!(&posted.outcome, Outcome::Absent),
        _ => false,
    }
}

// Whether two turns of this job, whose source has nothing, post that nothing is there, and then find nothing to do. The URL
// is asked for by the leader, who then asks for another one and shuts the map.
fn absent_turns<R: Wait, S: Source>(
    rt: &R,
    alloc: Global,
    modules: &ModuleMap<Posted>,
    bell: &Bell,
    guide: &ImportMap,
    leader: &mut Caller<Posted>,
    job: &mut Job<S>,
) -> Result<bool, Memory>
    requires leader { table_of modules.now.lock.table.shared.table_id leader.old.pass
        ≡ modules.now.lock.table.shared.table_id }
    requires job { IsToBegin modules.now.lock.table.shared.table_id S.holds S.asked job.old }
    requires guide { (guide.now ≡ no_maps) × IsGuided no_maps job.old }
    ensures leader { table_of modules.now.lock.table.shared.table_id leader.new.pass
        ≡ modules.now.lock.table.shared.table_id }
    ensures job { OnOk result
        (IsToBegin modules.now.lock.table.shared.table_id S.holds S.asked job.new) }
    ensures guide { OnOk result (IsGuided no_maps job.new) }
{
    let asked = ask(rt, alloc, modules, leader, URLS[0]);
    let first = turn(rt, alloc, modules, bell, guide, job)?;
    let absent = is_absent(rt, modules, leader);
    let second = turn(rt, alloc, modules, bell, guide, job)?;
    let more = ask(rt, alloc, modules, leader, URLS[1]);
    modules.shut(rt, leader);
    Ok(asked && first == Turned::Posted(0) && absent && second == Turned::NotYet && more)
}

// Whether a worker of this job, which comes to a shut map, ends with a source that was asked so often in all.
fn ends_asked<R: Wait>(
    rt: &R,
    alloc: Global,
    modules: &ModuleMap<Posted>,
    bell: &Bell,
    guide: &ImportMap,
    job: Job<MemSource>,
    asked: usize,
) -> bool
    requires guide { (guide.now ≡ no_maps) × IsGuided no_maps job }
    requires job { IsNew modules.now.lock.table.shared.table_id job }
{
    let Job { caller, source } = job;
    let end = worker(rt, alloc, modules, bell, guide, caller, source);
    !end.short && end.source.asked().len() == asked
}

// Whether a job's turns are so, and then a worker of it asks nothing more, and that of another job nothing at all.
fn end_so<R: Wait>(
    rt: &R,
    alloc: Global,
    modules: &ModuleMap<Posted>,
    guide: &ImportMap,
    leader: &mut Caller<Posted>,
    one: Job<MemSource>,
    other: Job<MemSource>,
) -> bool
    requires leader { table_of modules.now.lock.table.shared.table_id leader.old.pass
        ≡ modules.now.lock.table.shared.table_id }
    requires map { guide.now ≡ no_maps }
    requires guides { IsGuided no_maps one × IsGuided no_maps other }
    requires jobs { IsNew modules.now.lock.table.shared.table_id one
        × IsNew modules.now.lock.table.shared.table_id other }
{
    let bell = Bell::new();
    let mut one = one;
    match absent_turns(rt, alloc, modules, &bell, guide, leader, &mut one) {
        Ok(turns) => {
            let once = ends_asked(rt, alloc, modules, &bell, guide, one, 1);
            let never = ends_asked(rt, alloc, modules, &bell, guide, other, 0);
            turns && once && never
        }
        Err(Memory) => false,
    }
}

// The same over a new map.
fn a_shut_map_asks_nothing<R: Wait>(rt: &R, alloc: Global) -> Result<bool, Memory> {
    let guide = ImportMap::empty(alloc);
    let (modules, mut main) = opened(rt, alloc)?;
    let (one, other) = two_new(rt, alloc, &modules, &mut main, &[])?;
    Ok(end_so(rt, alloc, &modules, &guide, &mut main, one, other))
}

// A leader, two jobs, of which the second has no files, and room for what is left of them.
fn crew<R: Wait>(
    rt: &R,
    alloc: Global,
    modules: &ModuleMap<Posted>,
    guide: &ImportMap,
    main: &mut Caller<Posted>,
) -> Result<(Caller<Posted>, Vec<Job<MemSource>>, Vec<Done<MemSource>>), Memory>
    requires own { table_of modules.now.lock.table.shared.table_id main.old.pass
        ≡ modules.now.lock.table.shared.table_id }
    requires shares { (view_in main.old.pass).shares ≡ 1024 }
    requires map { guide.now ≡ no_maps }
    requires guide { guide_in (view_in main.old.pass).seen ≡ Some no_maps }
    ensures own { table_of modules.now.lock.table.shared.table_id main.new.pass
        ≡ modules.now.lock.table.shared.table_id }
    ensures leader { IfOk result (λ made. table_of modules.now.lock.table.shared.table_id made.0.pass
        ≡ modules.now.lock.table.shared.table_id) }
    ensures guides { IfOk result (λ made. All (IsGuided guide.now) made.1.items) }
    ensures jobs { IfOk result (λ made. All (IsNew modules.now.lock.table.shared.table_id) made.1.items) }
    ensures none { IfOk result (λ made. made.2.items ≡ []) }
    ensures room { IfOk result (λ made. vec_len made.2 + vec_len made.1 ≤ vec_capacity made.2) }
{
    let leader = another(rt, modules, main)?;
    let (one, other) = two_new(rt, alloc, modules, main, &URLS)?;
    let jobs = two_jobs(alloc, modules, guide, one, other)?;
    let done = Vec::with_capacity(alloc, 2)?;
    Ok((leader, jobs, done))
}

// Whether the map is shut, or three are posted.
fn is_over<R: Wait>(
    rt: &R,
    alloc: Global,
    modules: &ModuleMap<Posted>,
    caller: &mut Caller<Posted>,
) -> bool
    requires { table_of modules.now.lock.table.shared.table_id caller.old.pass
        ≡ modules.now.lock.table.shared.table_id }
    ensures { table_of modules.now.lock.table.shared.table_id caller.new.pass
        ≡ modules.now.lock.table.shared.table_id }
{
    let open = ask(rt, alloc, modules, caller, URLS[0]);
    let post = modules.post_at(rt, caller, 2);
    !open || post.is_some()
}

// Asks for three URLs, waits until three are posted, and shuts the map; so too where memory runs out.
fn lead<R: Wait>(
    rt: &R,
    alloc: Global,
    modules: &ModuleMap<Posted>,
    bell: &Bell,
    caller: Caller<Posted>,
) -> Caller<Posted>
    requires { table_of modules.now.lock.table.shared.table_id caller.pass
        ≡ modules.now.lock.table.shared.table_id }
    ensures { table_of modules.now.lock.table.shared.table_id result.pass
        ≡ modules.now.lock.table.shared.table_id }
{
    let mut caller = caller;
    let one = ask(rt, alloc, modules, &mut caller, URLS[0]);
    let two = ask(rt, alloc, modules, &mut caller, URLS[1]);
    let three = ask(rt, alloc, modules, &mut caller, URLS[2]);
    let asked = one && two && three;
    bell.ring_for_all();
    let mut heard = 0;
    for _ in rt.forever() {
        if !asked || is_over(rt, alloc, modules, &mut caller) {
            break;
        }
        heard = bell.wait_for_post(rt, heard);
    }
    modules.shut(rt, &mut caller);
    bell.ring_for_all();
    caller
}

// The jobs, beside a thread that leads.
fn work_and_lead<R: Threads + Wait + Sync, S: Source + Send>(
    rt: &R,
    alloc: Global,
    modules: &ModuleMap<Posted>,
    bell: &Bell,
    guide: &ImportMap,
    leader: Caller<Posted>,
    spare: Caller<Posted>,
    jobs: Vec<Job<S>>,
    done: Vec<Done<S>>,
) -> (Pool<S>, Caller<Posted>)
    requires leader { table_of modules.now.lock.table.shared.table_id leader.pass
        ≡ modules.now.lock.table.shared.table_id }
    requires spare { table_of modules.now.lock.table.shared.table_id spare.pass
        ≡ modules.now.lock.table.shared.table_id }
    requires jobs { All (IsToBegin modules.now.lock.table.shared.table_id S.holds S.asked)
        jobs.items }
    requires guides { All (IsGuided guide.now) jobs.items }
    requires none { done.items ≡ [] }
    requires room { vec_len done + vec_len jobs ≤ vec_capacity done }
    ensures { (table_of modules.now.lock.table.shared.table_id result.0.caller.pass
        ≡ modules.now.lock.table.shared.table_id)
        × (table_of modules.now.lock.table.shared.table_id result.1.pass
        ≡ modules.now.lock.table.shared.table_id) }
{
    join(
        rt,
        || -> Pool<S>
            requires { IsSync R.row
                × (table_of modules.now.lock.table.shared.table_id spare.pass
                ≡ modules.now.lock.table.shared.table_id)
                × All (IsToBegin modules.now.lock.table.shared.table_id S.holds S.asked) jobs.items
                × All (IsGuided guide.now) jobs.items
                × (done.items ≡ []) × (vec_len done + vec_len jobs ≤ vec_capacity done) }
            ensures { table_of modules.entry.now.lock.table.shared.table_id result.caller.pass
                ≡ modules.entry.now.lock.table.shared.table_id }
        { work_all(rt, alloc, modules, bell, guide, spare, jobs, done) },
        || -> Caller<Posted>
            requires { table_of modules.now.lock.table.shared.table_id leader.pass
                ≡ modules.now.lock.table.shared.table_id }
            ensures { table_of modules.entry.now.lock.table.shared.table_id result.pass
                ≡ modules.entry.now.lock.table.shared.table_id }
        { lead(rt, alloc, modules, bell, leader) },
    )
}

// Whether all of these were answered so.
fn are_all(asked: &[Asked], kind: AskKind) -> bool {
    for ask in asked {
        if ask.kind != kind {
            return false;
        }
    }
    true
}

// One source has what was asked for, the other has none of it: three asks together.
fn have_shared(done: &[Done<MemSource>]) -> bool {
    match done {
        [files, nothing] => {
            let found = files.source.asked();
            let missed = nothing.source.asked();
            are_all(found, AskKind::Body)
                && are_all(missed, AskKind::Absent)
                && found.len().checked_add(missed.len()) == Some(3)
        }
        _ => false,
    }
}

// What is left of the sources of these jobs, which ran beside a thread that leads, and whether the map has ended.
fn done_by<R: Threads + Wait + Sync, S: Source + Send>(
    rt: &R,
    alloc: Global,
    modules: ModuleMap<Posted>,
    guide: &ImportMap,
    main: Caller<Posted>,
    spare: Caller<Posted>,
    jobs: Vec<Job<S>>,
    done: Vec<Done<S>>,
) -> (Vec<Done<S>>, bool)
    requires leader { table_of modules.lock.table.shared.table_id main.pass
        ≡ modules.lock.table.shared.table_id }
    requires spare { table_of modules.lock.table.shared.table_id spare.pass
        ≡ modules.lock.table.shared.table_id }
    requires jobs { All (IsToBegin modules.lock.table.shared.table_id S.holds S.asked) jobs.items }
    requires guides { All (IsGuided guide.now) jobs.items }
    requires none { done.items ≡ [] }
    requires room { vec_len done + vec_len jobs ≤ vec_capacity done }
{
    let bell = Bell::new();
    let (pool, main) = work_and_lead(rt, alloc, &modules, &bell, guide, main, spare, jobs, done);
    let Pool { caller, done } = pool;
    let caller = modules.meet(caller, main);
    (done, modules.close(caller).is_ok())
}

// Whether two workers share three asks, over a new map, with two sources, of which the second has nothing.
fn two_workers_share<R: Threads + Wait + Sync>(rt: &R, alloc: Global) -> Result<bool, Memory> {
    let guide = ImportMap::empty(alloc);
    let (modules, mut main) = opened(rt, alloc)?;
    let (leader, jobs, done) = crew(rt, alloc, &modules, &guide, &mut main)?;
    let (done, ended) = done_by(rt, alloc, modules, &guide, leader, main, jobs, done);
    Ok(ended && have_shared(done.as_slice()))
}

#[test]
fn workers_fetch_what_is_asked_for(rt: HostRuntime) -> Result<(), Memory> {
    let alloc = rt.alloc();
    let ends = a_shut_map_asks_nothing(&rt, alloc)?;
    let share = two_workers_share(&rt, alloc)?;
    assert!(rt; ends && share);
    Ok(())
}
