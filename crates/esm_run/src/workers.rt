// A run over the sources: the calling thread has the first, and each other is asked by a worker in a thread of its own.
ghost use Rattle.std.specs.Prelude.{◌≡◌, ◌≤◌, ◌<◌, ◌+◌, ◌-◌, ◌∷◌, ◌++◌, ℕ, [], List, length, map, cond, All, IfOk, OnOk, None, true, vec_len, Bool};
ghost use Rattle.std.specs.Arc.{arc_value};
ghost use Rattle.std.specs.Vec.{vec_capacity};
ghost use Rattle.std.specs.Thread.{IsSync};
ghost use Rattle.esm_hlock.specs.Views.{HasAllMakers};
ghost use Rattle.esm_hlock.specs.Words.{knows, IsPassOf};
ghost use Rattle.esm_base.specs.Urls.{is_usable};
ghost use Rattle.esm_import_map.specs.ImportMap.{Maps};
ghost use Rattle.esm_module_map.specs.Leading.{guide_in};
ghost use Rattle.esm_module_map.specs.Replay.{maker_of};
ghost use Rattle.esm_module_map.specs.Histories.{asks_by};
ghost use Rattle.esm_module_map.specs.Saying.{Begins};
ghost use Rattle.esm_module_map.specs.Views.{view_in, table_of};
ghost use Rattle.esm_fetch.specs.Serving.{weight, ServedIf};
ghost use Rattle.esm_record.specs.Delivered.{deliveries_of};
ghost use Rattle.esm_run.specs.Inner.Leading.{IsNew, IsShared};
ghost use Rattle.esm_run.specs.Inner.Workers.{HasLed, HasWorked, IsCallerOf, IsGuided, IsToWork};
ghost use Rattle.esm_run.specs.Report.{IsGraphRun};

use crate::lead::{Led, lead};
use esm_base::{Memory, Text};
use esm_fetch::{Bell, Posted, WorkerEnd, worker};
use esm_hlock::Pass;
use esm_import_map::ImportMap;
use esm_machine::Machine;
use esm_module_map::{Caller, MapState, ModuleMap, laws as map_laws};
use esm_ports::Source;
use esm_record::Delivery;
use esm_world::laws;
use std::alloc::Global;
use std::marker::{Send, Sync};
use std::sync::{Arc, Wait};
use std::thread::{Threads, join};

/// A run over the sources that has ended.
#[derive(Drop)]
pub(crate) struct GraphEnd<S> {
    /// The machine, which has ended; none where memory ran out.
    pub machine: Option<Machine>,
    /// What it took, in order.
    pub taken: Vec<Delivery>,
    /// The sources, in the order given.
    pub sources: Vec<S>,
    /// The module map that its threads have shared; none where memory ran out before.
    pub modules: Option<ModuleMap<Posted>>,
}

/// What a run begins with.
#[derive(Drop)]
struct Ready {
    /// The import map that its threads share.
    map: Arc<ImportMap, Global>,
    /// The module map that they share.
    modules: ModuleMap<Posted>,
    /// The calling thread's caller of the module map.
    caller: Caller<Posted>,
    /// One for each further worker.
    workers: Vec<Caller<Posted>>,
}

// The machine, unless memory ran out.
fn unless_short(short: bool, machine: Option<Machine>) -> Option<Machine>
    ensures { result ≡ cond short None machine }
{
    if short { None } else { machine }
}

// A worker that has ended is put to the others. Where memory ran out in it, it has for the run.
fn gather<S: Source>(modules: &ModuleMap<Posted>, led: Led<S>, end: WorkerEnd<S>) -> Led<S>
    requires own { (table_of modules.now.lock.table.shared.table_id led.caller.pass
        ≡ modules.now.lock.table.shared.table_id)
        × (table_of modules.now.lock.table.shared.table_id end.caller.pass
        ≡ modules.now.lock.table.shared.table_id) }
    requires room { vec_len led.sources + 1 ≤ vec_capacity led.sources }
    requires numbers { (view_in end.caller.pass).numbers ≡ end.caller.number ∷ [] }
    requires end { ServedIf end.short (S.holds end.source) (S.asked end.source) end.caller.number
        (view_in end.caller.pass).seen }
    requires unasked { asks_by weight end.caller.number (view_in end.caller.pass).seen ≡ [] }
    ensures own { table_of modules.now.lock.table.shared.table_id result.caller.pass
        ≡ modules.now.lock.table.shared.table_id }
    ensures shares { (view_in result.caller.pass).shares
        ≡ (view_in led.caller.pass).shares + (view_in end.caller.pass).shares }
    ensures makers { HasAllMakers maker_of (view_in result.caller.pass) }
    ensures kept { map S.holds result.sources.items
        ≡ map S.holds led.sources.items ++ S.holds end.source ∷ [] }
    ensures room { vec_capacity result.sources ≡ vec_capacity led.sources }
    ensures led { (maps : Maps) (entry : List ℕ) (trace : Bool)
        → IsShared S.holds S.asked maps entry trace (view_in led.caller.pass) led.machine
        (deliveries_of led.taken.items) led.sources.items
        → IsShared S.holds S.asked maps entry trace (view_in result.caller.pass) result.machine
        (deliveries_of result.taken.items) result.sources.items }
{
    map_laws::urls_stay::<Posted>();
    map_laws::posts_stay::<Posted>();
    let Led {
        machine,
        taken,
        caller,
        mut sources,
    } = led;
    let caller = modules.meet(caller, end.caller);
    sources.push_reserved(end.source);
    Led {
        machine: unless_short(end.short, machine),
        taken,
        caller,
        sources,
    }
}

// A worker with a caller that has done nothing, and a source that was asked for nothing.
fn begin_worker<R: Wait, S: Source>(
    rt: &R,
    alloc: Global,
    modules: &ModuleMap<Posted>,
    bell: &Bell,
    import_map: &Arc<ImportMap, Global>,
    caller: Caller<Posted>,
    source: S,
) -> WorkerEnd<S>
    requires own { table_of modules.now.lock.table.shared.table_id caller.pass
        ≡ modules.now.lock.table.shared.table_id }
    requires guide { guide_in (view_in caller.pass).seen ≡ Some (arc_value import_map.now) }
    requires new { IsNew caller.number (view_in caller.pass) }
    requires fresh { S.asked source ≡ [] }
    ensures own { table_of modules.now.lock.table.shared.table_id result.caller.pass
        ≡ modules.now.lock.table.shared.table_id }
    ensures shares { (view_in result.caller.pass).shares ≡ (view_in caller.pass).shares }
    ensures numbers { (view_in result.caller.pass).numbers ≡ result.caller.number ∷ [] }
    ensures end { ServedIf result.short (S.holds result.source) (S.asked result.source)
        result.caller.number (view_in result.caller.pass).seen }
    ensures unasked { asks_by weight result.caller.number (view_in result.caller.pass).seen ≡ [] }
    ensures holds { S.holds result.source ≡ S.holds source }
{
    worker(rt, alloc, modules, bell, import_map, caller, source)
}

// The run with a worker for each of these callers, and for each source but the first. Threads nest, the last worker's
// outermost, and the calling thread has the first source: where a thread can't be made its worker runs last, when the map
// is shut.
fn with_workers<R: Threads + Wait + Sync, S: Source + Send>(
    rt: &R,
    alloc: Global,
    modules: &ModuleMap<Posted>,
    bell: &Bell,
    guide: &Arc<ImportMap, Global>,
    entry: &Text,
    trace: bool,
    caller: Caller<Posted>,
    workers: Vec<Caller<Posted>>,
    sources: Vec<S>,
) -> Led<S>
    requires usable { is_usable entry.now ≡ true }
    requires own { table_of modules.now.lock.table.shared.table_id caller.pass
        ≡ modules.now.lock.table.shared.table_id }
    requires guide { guide_in (view_in caller.pass).seen ≡ Some (arc_value guide.now) }
    requires guides { All (λ w. IsGuided (arc_value guide.now) w.pass) workers.items }
    requires new { IsNew caller.number (view_in caller.pass) }
    requires workers { All (λ w. IsToWork modules.now.lock.table.shared.table_id w.number w.pass) workers.items }
    requires many { length sources.items ≡ length workers.items + 1 }
    requires fresh { All (λ s. S.asked s ≡ []) sources.items }
    ensures own { table_of modules.now.lock.table.shared.table_id result.caller.pass
        ≡ modules.now.lock.table.shared.table_id }
    ensures shares { (view_in result.caller.pass).shares
        ≡ (view_in caller.pass).shares + length workers.items }
    ensures makers { HasAllMakers maker_of (view_in result.caller.pass) }
    ensures kept { map S.holds result.sources.items ≡ map S.holds sources.items }
    ensures room { vec_capacity result.sources ≡ vec_capacity sources }
    ensures led { IsShared S.holds S.asked (arc_value guide.now) entry.now trace
        (view_in result.caller.pass) result.machine (deliveries_of result.taken.items)
        result.sources.items }
{
    let mut workers = workers;
    let mut sources = sources;
    match workers.pop() {
        None => lead(
            rt, alloc, modules, bell, guide, entry, trace, caller, sources,
        ),
        Some(mine) => {
            let Some(source) = sources.pop() else {
                unreachable!()
            };
            let (end, led) = join(
                rt,
                || -> WorkerEnd<S>
                    requires { IsSync R.row × (S.asked source ≡ [])
                        × IsCallerOf modules.now.lock.table.shared.table_id (arc_value guide.now) mine.number mine.pass }
                    ensures { HasWorked modules.entry.now.lock.table.shared.table_id
                        S.holds S.asked (view_in mine.pass).shares (S.holds source) result }
                { begin_worker(rt, alloc, modules, bell, guide, mine, source) },
                || -> Led<S>
                    requires { IsSync R.row × (is_usable entry.now ≡ true)
                        × IsCallerOf modules.now.lock.table.shared.table_id (arc_value guide.now) caller.number caller.pass
                        × All (λ w. IsGuided (arc_value guide.now) w.pass) workers.items
                        × All (λ w. IsToWork modules.now.lock.table.shared.table_id w.number w.pass) workers.items
                        × (length sources.items ≡ length workers.items + 1) × All (λ s. S.asked s ≡ []) sources.items }
                    ensures { HasLed modules.entry.now.lock.table.shared.table_id S.holds
                        ((view_in caller.pass).shares + length workers.items) (map S.holds sources.items) (vec_capacity sources) result
                        × IsShared S.holds S.asked (arc_value guide.entry.now) entry.entry.now trace (view_in result.caller.pass) result.machine (deliveries_of result.taken.items) result.sources.items }
                {
                    with_workers(
                        rt, alloc, modules, bell, guide, entry, trace, caller, workers, sources,
                    )
                },
            );
            gather(modules, led, end)
        }
    }
}

// A caller that has just enrolled.
fn enrol_one<R: Wait>(
    rt: &R,
    modules: &ModuleMap<Posted>,
    pass: Pass<MapState<Posted>>,
) -> Result<Caller<Posted>, Memory>
    requires own { IsPassOf modules.now.lock pass }
    requires none { (knows pass).number ≡ None }
    requires numbers { (knows pass).numbers ≡ [] }
    ensures own { IfOk result (λ w. table_of modules.now.lock.table.shared.table_id w.pass
        ≡ modules.now.lock.table.shared.table_id) }
    ensures shares { IfOk result (λ w. (view_in w.pass).shares ≡ (knows pass).shares) }
    ensures begins { IfOk result (λ w. Begins (knows pass).seen (view_in w.pass).seen) }
    ensures new { IfOk result (λ w. IsNew w.number (view_in w.pass)) }
{
    match modules.enrol(rt, pass) {
        Ok(caller) => Ok(caller),
        Err(_) => Err(Memory),
    }
}

// Callers for so many workers.
fn enrol_workers<R: Wait>(
    rt: &R,
    alloc: Global,
    modules: &ModuleMap<Posted>,
    caller: &mut Caller<Posted>,
    count: usize,
) -> Result<Vec<Caller<Posted>>, Memory>
    requires own { table_of modules.now.lock.table.shared.table_id caller.old.pass
        ≡ modules.now.lock.table.shared.table_id }
    requires shares { count < (view_in caller.old.pass).shares }
    requires new { IsNew caller.old.number (view_in caller.old.pass) }
    ensures own { table_of modules.now.lock.table.shared.table_id caller.new.pass
        ≡ modules.now.lock.table.shared.table_id }
    ensures shares { OnOk result ((view_in caller.new.pass).shares + count
        ≡ (view_in caller.old.pass).shares) }
    ensures new { IsNew caller.new.number (view_in caller.new.pass) }
    ensures seen { (view_in caller.new.pass).seen ≡ (view_in caller.old.pass).seen }
    ensures guides { (maps : Maps) → guide_in (view_in caller.old.pass).seen ≡ Some maps
        → IfOk result (λ v. All (λ w. guide_in (view_in w.pass).seen ≡ Some maps) v.items) }
    ensures workers { IfOk result (λ v. All (λ w.
        (table_of modules.now.lock.table.shared.table_id w.pass
        ≡ modules.now.lock.table.shared.table_id) × ((view_in w.pass).shares ≡ 1)
        × IsNew w.number (view_in w.pass)) v.items) }
    ensures many { IfOk result (λ v. length v.items ≡ count) }
{
    map_laws::guide_stays::<Posted>();
    let mut workers = Vec::new(alloc);
    while workers.len() < count {
        let pass = modules.split(caller);
        let Ok(one) = enrol_one(rt, modules, pass) else {
            return Err(Memory);
        };
        let Ok(()) = workers.push(one) else {
            return Err(Memory);
        };
    }
    Ok(workers)
}

// All that a run with so many workers beside the calling thread begins with.
fn prepare<R: Wait>(rt: &R, alloc: Global, map: ImportMap, count: usize) -> Result<Ready, Memory>
    requires few { count < 1024 }
    ensures map { IfOk result (λ r. arc_value r.map ≡ map) }
    ensures guide { IfOk result (λ r. guide_in (view_in r.caller.pass).seen ≡ Some map) }
    ensures guides { IfOk result
        (λ r. All (λ w. guide_in (view_in w.pass).seen ≡ Some map) r.workers.items) }
    ensures own { IfOk result (λ r. table_of r.modules.lock.table.shared.table_id r.caller.pass
        ≡ r.modules.lock.table.shared.table_id) }
    ensures shares { IfOk result (λ r. (view_in r.caller.pass).shares + count ≡ 1024) }
    ensures new { IfOk result (λ r. IsNew r.caller.number (view_in r.caller.pass)) }
    ensures workers { IfOk result (λ r. All (λ w.
        (table_of r.modules.lock.table.shared.table_id w.pass
        ≡ r.modules.lock.table.shared.table_id) × ((view_in w.pass).shares ≡ 1)
        × IsNew w.number (view_in w.pass)) r.workers.items) }
    ensures many { IfOk result (λ r. length r.workers.items ≡ count) }
{
    map_laws::guide_stays::<Posted>();
    let Ok(map) = Arc::new(alloc, map) else {
        return Err(Memory);
    };
    let Ok(guide) = Arc::try_clone(&map) else {
        return Err(Memory);
    };
    let Ok((modules, pass)) = ModuleMap::new(alloc, guide) else {
        return Err(Memory);
    };
    let Ok(mut caller) = enrol_one(rt, &modules, pass) else {
        return Err(Memory);
    };
    let Ok(workers) = enrol_workers(rt, alloc, &modules, &mut caller, count) else {
        return Err(Memory);
    };
    Ok(Ready {
        map,
        modules,
        caller,
        workers,
    })
}

// Nothing was run: memory ran out before.
fn unrun<S>(alloc: Global, sources: Vec<S>) -> GraphEnd<S>
    ensures machine { result.machine ≡ None }
    ensures taken { result.taken.items ≡ [] }
    ensures sources { result.sources ≡ sources }
{
    GraphEnd {
        machine: None,
        taken: Vec::new(alloc),
        sources,
        modules: None,
    }
}

/// Runs the entry under an import map over the first sources, as many as there are to be workers: the calling thread has
/// the first of them, and each other has a thread of its own. The other sources are as given.
pub(crate) fn run_graph<R: Threads + Wait + Sync, S: Source + Send>(
    rt: &R,
    alloc: Global,
    map: ImportMap,
    entry: &Text,
    trace: bool,
    workers: usize,
    sources: Vec<S>,
) -> GraphEnd<S>
    requires usable { is_usable entry.now ≡ true }
    requires some { 0 < workers }
    requires few { (workers ≤ 16) × (workers ≤ vec_len sources) }
    requires fresh { All (λ s. S.asked s ≡ []) sources.items }
    ensures { IsGraphRun S.asked S.holds map entry.now trace workers result.machine
        (deliveries_of result.taken.items) sources.items result.sources.items }
{
    map_laws::callers::<Posted>();
    laws::deliveries();
    laws::has_standard_run();
    let mut sources = sources;
    let Ok(ready) = prepare(rt, alloc, map, workers - 1) else {
        return unrun(alloc, sources);
    };
    let Ok(rest) = sources.split_off(workers) else {
        return unrun(alloc, sources);
    };
    let mut rest = rest;
    let Ready {
        map,
        modules,
        caller,
        workers: callers,
    } = ready;
    let bell = Bell::new();
    let led = with_workers(
        rt, alloc, &modules, &bell, &map, entry, trace, caller, callers, sources,
    );
    let Led {
        machine,
        taken,
        caller: _caller,
        mut sources,
    } = led;
    let Ok(()) = sources.append(&mut rest) else {
        unreachable!()
    };
    GraphEnd {
        machine,
        taken,
        sources,
        modules: Some(modules),
    }
}
