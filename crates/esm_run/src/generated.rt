// A run over generated input, with a summary in place of the log.
ghost use Rattle.std.specs.Prelude.{◌≡◌, ◌≤◌, ◌<◌, ◌-◌, ◌^◌, ℕ, List, [], All, IfOk, IfSome, is_some, length, true, vec_len};
ghost use Rattle.esm_base.specs.Urls.{is_usable};
ghost use Rattle.esm_gen.specs.Generated.{module_url};
ghost use Rattle.esm_machine.specs.Machine.{state_of};
ghost use Rattle.esm_machine.specs.Represents.{ShownBy, ending_of};
ghost use Rattle.esm_record.specs.Delivered.{deliveries_of};
ghost use Rattle.esm_run.specs.Generated.{EndsSummed, RunsGenerated};
ghost use Rattle.esm_run.specs.Summed.{line_count as lines_of, line_feeds as feeds_of};
ghost use Rattle.esm_run.specs.Inner.Generating.{EndsGenerated, HoldsGenerated};
ghost use Rattle.esm_run.specs.Written.{change_of};

use crate::ending::finish;
use crate::report::{Left, RunReport};
use crate::workers::{GraphEnd, run_graph};
use esm_arguments::Generation;
use esm_base::{Memory, Status, Text};
use esm_gen::{GeneratedSource, Summary, entry_url};
use esm_import_map::ImportMap;
use esm_machine::Machine;
use esm_ports::Sink;
use esm_world::laws;
use std::alloc::Global;
use std::marker::Sync;
use std::sync::Wait;
use std::thread::Threads;

// A source of the generated modules for each worker.
fn generated_sources(alloc: Global, generation: &Generation) -> Result<Vec<GeneratedSource>, Memory>
    ensures many { IfOk result (λ v. vec_len v ≡ generation.now.workers) }
    ensures fresh { IfOk result (λ v. All (λ s. s.asked ≡ []) v.items) }
    ensures holds { IfOk result (λ v. All (HoldsGenerated generation.now) v.items) }
{
    let mut sources = Vec::new(alloc);
    for _ in 0..generation.workers {
        sources.push(GeneratedSource::new(alloc, generation.start, generation.count))?;
    }
    Ok(sources)
}

// One where the byte is a line feed.
fn line_feeds(byte: u8) -> usize
    ensures value { result ≡ feeds_of byte }
    ensures small { result ≤ 1 }
{
    if byte == b'\n' { 1 } else { 0 }
}

// How many lines there are.
fn line_count(text: &[u8]) -> usize
    ensures { result ≡ lines_of text.now }
{
    let mut count = 0;
    for byte in text {
        count += line_feeds(*byte);
    }
    count
}

// Writes the summary of a machine's run that has ended, and gives the status that this comes to.
fn write_summary<K: Sink>(alloc: Global, machine: &Machine, count: u32, out: &mut K) -> Status
    requires ended { is_some (ending_of (state_of machine.now)) ≡ true }
    requires room { K.faults out.old < 2 ^ 64 - 1 }
    ensures { ShownBy (state_of machine.now)
        (EndsSummed count result (change_of K.written K.faults out.old out.new)) }
{
    let Some(status) = machine.end() else {
        unreachable!();
    };
    let starts = machine.started();
    let lines = line_count(machine.log());
    let summary = Summary {
        modules: u64::from(count),
        started: starts as u64,
        lines: lines as u64,
        status,
    };
    match summary.text(alloc) {
        Ok(text) => finish(out, status, text.as_str().as_bytes()),
        Err(_) => Status::Memory,
    }
}

// Ends a run over generated input.
fn end_generated<K: Sink>(
    alloc: Global,
    machine: &Option<Machine>,
    count: u32,
    out: &mut K,
) -> Status
    requires ended { IfSome machine.now (λ m. is_some (ending_of (state_of m)) ≡ true) }
    requires room { K.faults out.old < 2 ^ 64 - 1 }
    ensures { EndsGenerated machine.now count result
        (change_of K.written K.faults out.old out.new) }
{
    match machine {
        Some(machine) => write_summary(alloc, machine, count, out),
        None => Status::Memory,
    }
}

/// What a run over generated input begins with.
#[derive(Drop)]
struct Prepared {
    /// The entry's URL.
    entry: Text,
    /// A source for each worker.
    sources: Vec<GeneratedSource>,
}

// All that a run over generated input begins with.
fn prepare(alloc: Global, generation: &Generation) -> Result<Prepared, Memory>
    ensures entry { IfOk result (λ p. p.entry ≡ module_url 0) }
    ensures usable { IfOk result (λ p. is_usable p.entry ≡ true) }
    ensures many { IfOk result (λ p. vec_len p.sources ≡ generation.now.workers) }
    ensures fresh { IfOk result (λ p. All (λ s. s.asked ≡ []) p.sources.items) }
    ensures holds { IfOk result (λ p. All (HoldsGenerated generation.now) p.sources.items) }
{
    let entry = entry_url(alloc)?;
    let sources = generated_sources(alloc, generation)?;
    Ok(Prepared { entry, sources })
}

/// Runs generated input over as many sources of it as there are to be workers, and writes the summary. The given sources
/// are handed back as they are.
pub(crate) fn run_generated<R: Threads + Wait + Sync, S, K: Sink>(
    rt: &R,
    alloc: Global,
    generation: &Generation,
    sources: Vec<S>,
    out: &mut K,
) -> RunReport<S>
    requires some { 0 < generation.now.workers }
    requires few { generation.now.workers ≤ 16 }
    requires room { K.faults out.old < 2 ^ 64 - 1 }
    ensures run { RunsGenerated generation.now (deliveries_of result.taken.items) result.status
        (change_of K.written K.faults out.old out.new) }
    ensures sources { result.sources ≡ sources }
{
    laws::has_standard_run();
    let Ok(prepared) = prepare(alloc, generation) else {
        return RunReport {
            status: Status::Memory,
            taken: Vec::new(alloc),
            sources,
            left: Left::nothing(),
        };
    };
    let Prepared {
        entry,
        sources: generated,
    } = prepared;
    let map = ImportMap::empty(alloc);
    let GraphEnd {
        machine,
        taken,
        sources: _generated,
        modules,
    } = run_graph(rt, alloc, map, &entry, false, generation.workers, generated);
    let status = end_generated(alloc, &machine, generation.count, out);
    RunReport {
        status,
        taken,
        sources,
        left: Left::of(machine, modules),
    }
}
