// Workers, each in a thread of its own.
ghost use Rattle.std.specs.Prelude.{◌≡◌, ◌≢◌, ◌≤◌, ◌<◌, ◌+◌, ◌++◌, ◌∷◌, [], All, AllPairs, map, flat_map, vec_len};
ghost use Rattle.std.specs.Vec.{vec_capacity};
ghost use Rattle.std.specs.Thread.{IsSync};
ghost use Rattle.esm_hlock.specs.Views.{HasAllMakers};
ghost use Rattle.esm_module_map.specs.Views.{view_in, table_of, Same};
ghost use Rattle.esm_module_map.specs.Replay.{maker_of};
ghost use Rattle.esm_module_map.specs.Counts.{AreTakenOnce};
ghost use Rattle.esm_fetch.specs.Serving.{weight, ServedIf};
ghost use Rattle.esm_fetch.specs.Pool.{IsToBegin, IsGuided, IsDone, caller_in, source_in, source_of};

use crate::bell::Bell;
use crate::posted::Posted;
use crate::working::{WorkerEnd, worker};
use esm_import_map::ImportMap;
use esm_module_map::{Caller, ModuleMap};
use esm_ports::Source;
use std::alloc::Global;
use std::marker::{Send, Sync};
use std::sync::Wait;
use std::thread::{Threads, join};

/// A caller and the source that its worker is to ask.
#[derive(Drop)]
pub struct Job<S> {
    /// The caller.
    pub caller: Caller<Posted>,
    /// The source.
    pub source: S,
}

/// What is left of a worker that has ended and whose caller has met another.
#[derive(Drop)]
pub struct Done<S> {
    /// The number that its caller had.
    pub number: u64,
    /// The source that it asked.
    pub source: S,
    /// Memory ran out.
    pub short: bool,
}

/// Workers that have ended, and a caller that has met those of all of them.
#[derive(Drop)]
pub struct Pool<S> {
    /// The caller.
    pub caller: Caller<Posted>,
    /// What is left of the workers, in the order of the jobs.
    pub done: Vec<Done<S>>,
}

// The worker of this job.
fn work_one<R: Wait, S: Source>(
    rt: &R,
    alloc: Global,
    modules: &ModuleMap<Posted>,
    bell: &Bell,
    guide: &ImportMap,
    job: Job<S>,
) -> WorkerEnd<S>
    requires begins { IsToBegin modules.now.lock.table.shared.table_id S.holds S.asked job }
    requires guided { IsGuided guide.now job }
    ensures own { table_of modules.now.lock.table.shared.table_id result.caller.pass
        ≡ modules.now.lock.table.shared.table_id }
    ensures served { ServedIf result.short (S.holds job.source) (S.asked result.source)
        job.caller.number (view_in result.caller.pass).seen }
    ensures same { Same (view_in job.caller.pass) (view_in result.caller.pass) }
    ensures holds { S.holds result.source ≡ S.holds job.source }
{
    let Job { caller, source } = job;
    worker(rt, alloc, modules, bell, guide, caller, source)
}

// A worker that has ended is put to the others.
fn gather<S: Source>(
    modules: &ModuleMap<Posted>,
    pool: Pool<S>,
    number: u64,
    end: WorkerEnd<S>,
) -> Pool<S>
    requires own { (table_of modules.now.lock.table.shared.table_id pool.caller.pass
        ≡ modules.now.lock.table.shared.table_id)
        × (table_of modules.now.lock.table.shared.table_id end.caller.pass
        ≡ modules.now.lock.table.shared.table_id) }
    requires room { vec_len pool.done + 1 ≤ vec_capacity pool.done }
    requires numbers { (view_in end.caller.pass).numbers ≡ number ∷ [] }
    requires end { ServedIf end.short (S.holds end.source) (S.asked end.source) number
        (view_in end.caller.pass).seen }
    requires done { All (IsDone S.holds S.asked (view_in pool.caller.pass)) pool.done.items }
    ensures own { table_of modules.now.lock.table.shared.table_id result.caller.pass
        ≡ modules.now.lock.table.shared.table_id }
    ensures number { result.caller.number ≡ pool.caller.number }
    ensures done { All (IsDone S.holds S.asked (view_in result.caller.pass)) result.done.items }
    ensures numbers { (view_in result.caller.pass).numbers
        ≡ (view_in pool.caller.pass).numbers ++ number ∷ [] }
    ensures shares { (view_in result.caller.pass).shares
        ≡ (view_in pool.caller.pass).shares + (view_in end.caller.pass).shares }
    ensures once { (view_in result.caller.pass).shares ≡ 1024
        → AreTakenOnce weight (view_in result.caller.pass).seen
        (view_in result.caller.pass).numbers }
    ensures makers { HasAllMakers maker_of (view_in result.caller.pass) }
    ensures list { map caller_in result.done.items ≡ map caller_in pool.done.items ++ number ∷ [] }
    ensures kept { map S.holds (map source_in result.done.items)
        ≡ map S.holds (map source_in pool.done.items) ++ S.holds end.source ∷ [] }
    ensures room { vec_capacity result.done ≡ vec_capacity pool.done }
    ensures len { vec_len result.done ≡ vec_len pool.done + 1 }
{
    let Pool { caller, mut done } = pool;
    let caller = modules.meet(caller, end.caller);
    done.push_reserved(Done {
        number,
        source: end.source,
        short: end.short,
    });
    Pool { caller, done }
}

/// Runs a worker for each job, each in a thread of its own, and meets their callers once they have ended. The sources
/// come back in the order of the jobs, in `done`, which is empty and has room for them. The guide is that of the map. The
/// calling thread waits; where a thread can't be made its worker runs last, on this one.
pub fn work_all<R: Threads + Wait + Sync, S: Source + Send>(
    rt: &R,
    alloc: Global,
    modules: &ModuleMap<Posted>,
    bell: &Bell,
    guide: &ImportMap,
    caller: Caller<Posted>,
    jobs: Vec<Job<S>>,
    done: Vec<Done<S>>,
) -> Pool<S>
    requires own { table_of modules.now.lock.table.shared.table_id caller.pass
        ≡ modules.now.lock.table.shared.table_id }
    requires jobs { All (IsToBegin modules.now.lock.table.shared.table_id S.holds S.asked)
        jobs.items }
    requires guide { All (IsGuided guide.now) jobs.items }
    requires none { done.items ≡ [] }
    requires room { vec_len done + vec_len jobs ≤ vec_capacity done }
    ensures own { table_of modules.now.lock.table.shared.table_id result.caller.pass
        ≡ modules.now.lock.table.shared.table_id }
    ensures number { result.caller.number ≡ caller.number }
    ensures done { All (IsDone S.holds S.asked (view_in result.caller.pass)) result.done.items }
    ensures numbers { (view_in result.caller.pass).numbers
        ≡ (view_in caller.pass).numbers ++ map caller_in result.done.items }
    ensures shares { (view_in result.caller.pass).shares
        ≡ (view_in caller.pass).shares + vec_len jobs }
    ensures once { (view_in result.caller.pass).shares ≡ 1024 → AllPairs (λ a b. a.url ≢ b.url)
        (flat_map S.asked (map source_in result.done.items)) }
    ensures kept { map S.holds (map source_in result.done.items)
        ≡ map S.holds (map source_of jobs.items) }
    ensures makers { 0 < vec_len jobs → HasAllMakers maker_of (view_in result.caller.pass) }
    ensures room { (vec_capacity result.done ≡ vec_capacity done)
        × (vec_len result.done ≡ vec_len done + vec_len jobs) }
{
    let mut jobs = jobs;
    match jobs.pop() {
        None => Pool { caller, done },
        Some(job) => {
            let number = job.caller.number();
            let (end, pool) = join(
                rt,
                || -> WorkerEnd<S>
                    requires { IsSync R.row
                        × IsToBegin modules.now.lock.table.shared.table_id S.holds S.asked job
                        × IsGuided guide.now job }
                    ensures { (table_of modules.entry.now.lock.table.shared.table_id
                        result.caller.pass ≡ modules.entry.now.lock.table.shared.table_id)
                        × ServedIf result.short (S.holds job.source) (S.asked result.source) job.caller.number (view_in result.caller.pass).seen
                        × Same (view_in job.caller.pass) (view_in result.caller.pass)
                        × (S.holds result.source ≡ S.holds job.source) }
                { work_one(rt, alloc, modules, bell, guide, job) },
                || -> Pool<S>
                    requires { IsSync R.row
                        × (table_of modules.now.lock.table.shared.table_id caller.pass
                        ≡ modules.now.lock.table.shared.table_id)
                        × All (IsToBegin modules.now.lock.table.shared.table_id S.holds S.asked) jobs.items
                        × All (IsGuided guide.now) jobs.items
                        × (done.items ≡ []) × (vec_len done + vec_len jobs ≤ vec_capacity done) }
                    ensures { (table_of modules.entry.now.lock.table.shared.table_id
                        result.caller.pass ≡ modules.entry.now.lock.table.shared.table_id)
                        × All (IsDone S.holds S.asked (view_in result.caller.pass)) result.done.items
                        × ((view_in result.caller.pass).numbers ≡ (view_in caller.pass).numbers ++ map caller_in result.done.items)
                        × ((view_in result.caller.pass).shares ≡ (view_in caller.pass).shares + vec_len jobs)
                        × (map S.holds (map source_in result.done.items) ≡ map S.holds (map source_of jobs.items))
                        × (vec_capacity result.done ≡ vec_capacity done)
                        × (vec_len result.done ≡ vec_len done + vec_len jobs)
                        × (result.caller.number ≡ caller.number) }
                { work_all(rt, alloc, modules, bell, guide, caller, jobs, done) },
            );
            gather(modules, pool, number, end)
        }
    }
}
