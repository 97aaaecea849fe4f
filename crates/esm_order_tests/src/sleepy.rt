// Sources over files in memory that sleep before they answer.
ghost use Rattle.std.specs.Prelude.{◌≡◌, ◌<◌, [], All, IfOk, None, refl, vec_len};
ghost use Rattle.esm_ports.specs.Asks.{failed_count};

use esm_base::Memory;
use esm_ports::{FetchEnd, MemSource, Source};
use esm_sites::files_of;
use std::alloc::Global;
use std::thread::sleep;
use std::time::{Clock, Duration};

/// A source over files in memory. Before each answer it sleeps up to two milliseconds, by a draw of its own.
#[derive(Drop)]
pub struct SleepySource<R> {
    rt: R,
    files: MemSource,
    draw: u64,
}

// The draw behind this one: a number that looks random.
fn next_draw(draw: u64) -> u64 {
    draw.wrapping_mul(6_364_136_223_846_793_005)
        .wrapping_add(1_442_695_040_888_963_407)
}

impl<R: Clock + Drop> Source for SleepySource<R> {
    ghost asked = { λ s. s.files.asked };

    ghost holds = { λ s. None };

    ghost faults = { λ s. failed_count s.files.asked };

    ghost counted = { λ s. refl };

    fn fetch(&mut self, alloc: Global, url: &str) -> Result<Vec<u8>, FetchEnd> {
        self.draw = next_draw(self.draw);
        sleep(&self.rt, Duration::from_micros(self.draw >> 53));
        self.files.fetch(alloc, url)
    }

    fn faults(&self) -> u64 {
        self.files.faults()
    }
}

/// A source over the files of a site that fails at its call with this number, counted from 1; none fails by 0.
pub fn sleepy<R: Clock + Clone + Drop>(
    rt: &R,
    alloc: Global,
    site: &str,
    draw: u64,
    fail_at: u64,
) -> Result<SleepySource<R>, Memory>
    ensures { IfOk result (λ s. s.files.asked ≡ []) }
{
    let files = MemSource::new(alloc, files_of(alloc, site)?, vec![in alloc; fail_at]?)?;
    Ok(SleepySource {
        rt: rt.clone()?,
        files,
        draw,
    })
}

/// So many sources over the files of a site, each of which sleeps by a draw of its own.
pub fn all_sleepy<R: Clock + Clone + Drop>(
    rt: &R,
    alloc: Global,
    site: &str,
    count: u64,
    seed: u64,
    fail_at: u64,
) -> Result<Vec<SleepySource<R>>, Memory>
    requires { 0 < count }
    ensures some { IfOk result (λ v. 0 < vec_len v) }
    ensures fresh { IfOk result (λ v. All (λ s. s.files.asked ≡ []) v.items) }
{
    let mut sources = Vec::new(alloc);
    let mut draw = seed;
    for _ in 0..count {
        draw = next_draw(draw);
        sources.push(sleepy(rt, alloc, site, draw, fail_at)?)?;
    }
    Ok(sources)
}
