//! Tests that cross crates: whole runs over sources and sinks in memory.
#![tactic(auto)]

ghost use Rattle.std.specs.Prelude.{◌≡◌, ◌≢◌, ◌<◌, [], All, vec_len};
ghost use Rattle.esm_base.specs.declared.status.Status.TheVariants.{WriteFault};

#[cfg(test)]
mod gates;
#[cfg(test)]
mod generated;
#[cfg(test)]
mod maps;
#[cfg(test)]
mod records;
#[cfg(test)]
mod runs;
#[cfg(test)]
mod shop;
#[cfg(test)]
mod sites;
#[cfg(test)]
mod told;
#[cfg(test)]
mod traces;
#[cfg(test)]
mod workers;

use esm_ports::{SureSink, SureSource};
use esm_run::{RunReport, run};
use std::alloc::Global;
use std::marker::Sync;
use std::sync::Wait;
use std::thread::Threads;

/// Runs the words over sources and a sink that never fail; no write fault is reported then.
pub fn sure_run<R: Threads + Wait + Sync>(
    rt: &R,
    alloc: Global,
    words: &[String],
    desk: &mut SureSource,
    sources: Vec<SureSource>,
    out: &mut SureSink,
) -> RunReport<SureSource>
    requires some { 0 < vec_len sources }
    requires fresh { All (λ s. s.asked ≡ []) sources.items }
    requires fresh_desk { desk.old.asked ≡ [] }
    ensures { result.status ≢ WriteFault }
{
    run(rt, alloc, words, desk, sources, out)
}
