// Runs, and what looks at them when they are over.
ghost use Rattle.std.specs.Prelude.{◌≡◌, ◌<◌, [], All, vec_len};

use esm_base::{Memory, Status};
use esm_ports::{MemSink, Source};
use esm_run::{Delivery, run};
use esm_sites::words;
use std::alloc::Global;
use std::marker::{Send, Sync};
use std::sync::Wait;
use std::thread::Threads;

/// Looks at a run that is over.
pub trait Judge<S> {
    /// Whether it is as it should be: how it ended, what it wrote and took, and what its desk and its sources have become.
    fn is_right(
        &mut self,
        alloc: Global,
        status: Status,
        written: &[u8],
        taken: &[Delivery],
        desk: &S,
        sources: &[S],
    ) -> Result<bool, Memory>;
}

// Runs these words. Tests call `run` here alone: a call costs the proof of its caller all that `run` says, and who lets a
// report go all its parts.
fn words_judged<R: Threads + Wait + Sync, S: Source + Send, J: Judge<S>>(
    rt: &R,
    alloc: Global,
    words: &[String],
    mut desk: S,
    sources: Vec<S>,
    mut out: MemSink,
    judge: &mut J,
) -> Result<bool, Memory>
    requires some { 0 < vec_len sources }
    requires fresh { All (λ s. S.asked s ≡ []) sources.items }
    requires fresh_desk { S.asked desk ≡ [] }
    requires room { out.faults ≡ 0 }
{
    let report = run(rt, alloc, words, &mut desk, sources, &mut out);
    judge.is_right(
        alloc,
        report.status,
        out.written(),
        report.taken.as_slice(),
        &desk,
        report.sources.as_slice(),
    )
}

/// Runs the words of this line over this desk, these sources and this sink, and lets what it came to be judged.
pub fn judged<R: Threads + Wait + Sync, S: Source + Send, J: Judge<S>>(
    rt: &R,
    alloc: Global,
    line: &str,
    desk: S,
    sources: Vec<S>,
    out: MemSink,
    judge: &mut J,
) -> Result<bool, Memory>
    requires some { 0 < vec_len sources }
    requires fresh { All (λ s. S.asked s ≡ []) sources.items }
    requires fresh_desk { S.asked desk ≡ [] }
    requires room { out.faults ≡ 0 }
{
    match words(alloc, line) {
        Ok(words) => words_judged(rt, alloc, words.as_slice(), desk, sources, out, judge),
        Err(Memory) => Err(Memory),
    }
}
