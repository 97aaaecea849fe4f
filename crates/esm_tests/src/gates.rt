// Sources that answer only once others have been asked too: that fetches go on at the same time.
ghost use Rattle.std.specs.Prelude.{◌≡◌, ◌<◌, [], All, IfOk, None, refl, vec_len};
ghost use Rattle.esm_ports.specs.Asks.{failed_count};

use esm_base::Memory;
use esm_ports::{FetchEnd, MemSource, Source};
use esm_site_runs::{Ends, judged};
use esm_sites::{COMMAND, Told, ending, files_of, holds, sure_sink};
use std::alloc::Global;
use std::marker::{Send, Sync};
use std::sync::{Arc, Mutex, Wait};
use std::thread::Threads;

// How often a source looks whether the others have begun, before it goes on without them.
const LOOKS: u64 = 20_000_000;

/// A source over files in memory. A fetch of another file than the entry counts itself, and answers once as many have
/// begun as are wanted. Where it gives up waiting it answers want of memory, which ends the run.
#[derive(Drop)]
struct GatedSource<R> {
    rt: R,
    files: MemSource,
    begun: Arc<Mutex<u64>, Global>,
    wanted: u64,
}

// Counts one more.
fn begin<R: Wait>(rt: &R, begun: &Mutex<u64>) {
    let mut count = begun.lock(rt);
    *count = count.saturating_add(1);
}

// Whether so many have begun, or do while it looks.
fn all_begin<R: Wait>(rt: &R, begun: &Mutex<u64>, wanted: u64) -> bool {
    for _ in 0..LOOKS {
        if *begun.lock(rt) >= wanted {
            return true;
        }
    }
    false
}

impl<R: Wait + Drop> Source for GatedSource<R> {
    ghost asked = { λ s. s.files.asked };

    ghost holds = { λ s. None };

    ghost faults = { λ s. failed_count s.files.asked };

    ghost counted = { λ s. refl };

    fn fetch(&mut self, alloc: Global, url: &str) -> Result<Vec<u8>, FetchEnd> {
        if url != "https://a.test/main.js" {
            begin(&self.rt, &self.begun);
            if !all_begin(&self.rt, &self.begun, self.wanted) {
                return Err(FetchEnd::Memory);
            }
        }
        self.files.fetch(alloc, url)
    }

    fn faults(&self) -> u64 {
        self.files.faults()
    }
}

// A source over these files that waits until so many fetches have begun.
fn gated<R: Wait + Clone + Drop>(
    rt: &R,
    alloc: Global,
    site: &str,
    begun: &Arc<Mutex<u64>, Global>,
    wanted: u64,
) -> Result<GatedSource<R>, Memory>
    ensures { IfOk result (λ s. s.files.asked ≡ []) }
{
    let files = MemSource::new(alloc, files_of(alloc, site)?, Vec::new(alloc))?;
    Ok(GatedSource {
        rt: rt.clone()?,
        files,
        begun: Arc::try_clone(begun)?,
        wanted,
    })
}

// So many sources over the same files, each of which waits for as many fetches as there are sources.
fn all_gated<R: Wait + Clone + Drop>(
    rt: &R,
    alloc: Global,
    site: &str,
    count: u64,
) -> Result<Vec<GatedSource<R>>, Memory>
    requires { 0 < count }
    ensures some { IfOk result (λ v. 0 < vec_len v) }
    ensures fresh { IfOk result (λ v. All (λ s. s.files.asked ≡ []) v.items) }
{
    let begun = Arc::new(alloc, Mutex::new(0))?;
    let mut sources = Vec::new(alloc);
    for _ in 0..count {
        sources.push(gated(rt, alloc, site, &begun, count)?)?;
    }
    Ok(sources)
}

// Whether the run over as many workers as there are sources ends well and writes nothing, which none does where a source gave up.
fn runs_at_once<R: Threads + Wait + Sync + Send + Clone + Drop>(
    rt: &R,
    alloc: Global,
    site: &str,
    count: u64,
) -> Result<bool, Memory>
    requires { 0 < count }
{
    let line = format!(in alloc; "{COMMAND} --workers {count}")?;
    let begun = Arc::new(alloc, Mutex::new(0))?;
    let desk = gated(rt, alloc, "", &begun, 1)?;
    let sources = all_gated(rt, alloc, site, count)?;
    let mut ends = Ends {
        wanted: ending("Fulfilled"),
    };
    judged(
        rt,
        alloc,
        line.as_str(),
        desk,
        sources,
        sure_sink(alloc),
        &mut ends,
    )
}

const TWO: &str = r#"== two files
-- main.js
import "./a.js";import "./b.js";
-- a.js
-- b.js"#;

const FOUR: &str = r#"== four files
-- main.js
import "./a.js";import "./b.js";import "./c.js";import "./d.js";
-- a.js
-- b.js
-- c.js
-- d.js"#;

#[test]
fn fetches_go_on_at_the_same_time(rt: HostRuntime) -> Told {
    holds(runs_at_once(&rt, rt.alloc(), TWO, 2), "two files").and(holds(
        runs_at_once(&rt, rt.alloc(), FOUR, 4),
        "four files",
    ))
}
