// Whole runs over sources that sleep: what is written is what the standard run of the order that was taken writes.
use crate::sleepy::{all_sleepy, sleepy};
use crate::standard::standard_end;
use esm_base::{Memory, Status};
use esm_run::Delivery;
use esm_site_runs::{Judge, judged};
use esm_sites::{COMMAND, Told, Wanted, ending, holds, is_wanted, sure_sink, title, wanted_of};
use std::alloc::Global;
use std::marker::{Send, Sync};
use std::sync::Wait;
use std::thread::Threads;
use std::time::Clock;

// Sites whose fetches end in many orders, each with the status of its run where no source fails.
const SITES: &str = r#"== a tree of seven modules
-- main.js
import "./a.js"; import "./b.js"; print("m");
-- a.js
import "./c.js"; import "./d.js"; print("a");
-- b.js
import "./e.js"; import "./f.js"; print("b");
-- c.js
print("c");
-- d.js
print("d");
-- e.js
print("e");
-- f.js
import "./main.js"; print("f");
>> Fulfilled

== modules that await
-- main.js
import "./p1.js"; import "./p2.js"; import "./r.js"; print("main");
-- p1.js
import "./l.js"; print("p1");
-- p2.js
import "./l.js"; print("p2");
-- r.js
import "./p1.js"; print("r");
-- l.js
await undefined; print("l");
>> Fulfilled

== four calls of import() that race
-- main.js
const p = import("./a.js"); const q = import("./b.js"); const r = import("./c.js"); const s = import("./d.js"); await p; await q; await r; await s; print("m");
-- a.js
print("A");
-- b.js
print("B");
-- c.js
import "./d.js"; print("C");
-- d.js
print("D");
>> Fulfilled

== three missing files, one of which is named
-- main.js
import "./a.js"; import "./b.js"; import "./c.js"; print("m");
>> EntryFailed

== a missing file and a text that is no module
-- main.js
import "./a.js"; import "./b.js"; import "./c.js"; print("m");
-- b.js
let a; let a;
-- c.js
print("c");
>> EntryFailed

== a throw behind an await
-- main.js
import "./a.js"; import "./b.js"; print("m");
-- a.js
await undefined; throw new Error("boom");
-- b.js
await undefined; print("b");
>> EntryFailed

== an import() that fails and is caught, and one that waits for itself
-- main.js
import("./b.js"); try { await import("./none.js"); } catch (e) { print(e); } await import("./a.js"); print("after");
-- a.js
import "./main.js"; print("a");
-- b.js
print("b");
>> Unsettled"#;

// Whether the order that a run took is allowed, the standard run of it ends so too, and its status is this, if one is given.
#[derive(Drop)]
struct Standard<'a> {
    wanted: Option<Wanted<'a>>,
}

impl<'a, S> Judge<S> for Standard<'a> {
    fn is_right(
        &mut self,
        alloc: Global,
        status: Status,
        written: &[u8],
        taken: &[Delivery],
        _desk: &S,
        _sources: &[S],
    ) -> Result<bool, Memory> {
        let right = match self.wanted {
            Some(wanted) => is_wanted(wanted, status, b""),
            None => true,
        };
        match standard_end(alloc, taken) {
            Ok(Some(end)) => { Ok(right && end.status == status && end.text.as_slice() == written) }
            Ok(None) => Ok(false),
            Err(Memory) => Err(Memory),
        }
    }
}

// Whether a run over sleepy sources, of which each fails at its call with this number, is the standard run of its order, and has
// this status, if one is given.
fn is_standard<R: Threads + Wait + Sync + Send + Clone + Drop + Clock>(
    rt: &R,
    alloc: Global,
    site: &str,
    workers: &str,
    seed: u64,
    fail_at: u64,
    wanted: Option<Wanted<'_>>,
) -> Result<bool, Memory> {
    let line = format!(in alloc; "{COMMAND} --workers {workers}")?;
    let desk = sleepy(rt, alloc, "", seed, 0)?;
    let sources = all_sleepy(rt, alloc, site, 16, seed, fail_at)?;
    let mut standard = Standard { wanted };
    judged(
        rt,
        alloc,
        line.as_str(),
        desk,
        sources,
        sure_sink(alloc),
        &mut standard,
    )
}

// Tells the first of the sites that doesn't run as the standard says, by so many workers, of which each has a source that
// fails at its call with this number. Where none fails, the status is that of the site.
fn sites_hold<R: Threads + Wait + Sync + Send + Clone + Drop + Clock>(
    rt: &R,
    alloc: Global,
    workers: &str,
    seed: u64,
    fail_at: u64,
) -> Told {
    let mut told = Ok(());
    for site in SITES.split("\n\n== ") {
        let wanted = (fail_at == 0).then_some(wanted_of(site));
        let found = is_standard(rt, alloc, site, workers, seed, fail_at, wanted);
        told = told.and(holds(found, title(site)));
    }
    told
}

// So many workers; no source fails, or each at its first call, or at its second.
const SETTINGS: &str =
    "1 none\n1 first\n1 second\n2 none\n2 first\n2 second\n4 none\n4 first\n4 second\n16 none\n16 first\n16 second";

// The call that fails by this word.
fn number_of(word: &str) -> u64 {
    if word == "first" {
        return 1;
    }
    if word == "second" {
        return 2;
    }
    0
}

/// What is wrong: the number of workers and the call that fails, and the site.
type Wrong = (&'static str, &'static str);

// Tells of a setting the first site that doesn't run so by one of two draws.
fn setting_holds<R: Threads + Wait + Sync + Send + Clone + Drop + Clock>(
    rt: &R,
    alloc: Global,
    setting: &'static str,
) -> Result<(), Wrong> {
    let (workers, word) = setting.split_once(' ').unwrap_or((setting, ""));
    let fail_at = number_of(word);
    let once = sites_hold(rt, alloc, workers, 0, fail_at);
    match once.and(sites_hold(rt, alloc, workers, 1, fail_at)) {
        Ok(()) => Ok(()),
        Err(site) => Err((setting, site)),
    }
}

// The same of all settings.
fn settings_hold<R: Threads + Wait + Sync + Send + Clone + Drop + Clock>(
    rt: &R,
    alloc: Global,
) -> Result<(), Wrong> {
    let mut told = Ok(());
    for setting in SETTINGS.lines() {
        told = told.and(setting_holds(rt, alloc, setting));
    }
    told
}

// A site with more calls of `import()` than may be made. Up to seven fetches are under way where the limit stops its run.
fn many_calls(alloc: Global) -> Result<String, Memory> {
    let mut site = String::from_str(
        alloc,
        r#"== more calls than may be made
-- main.js
import("./a.js"); import("./b.js"); import("./c.js"); import("./d.js"); import("./e.js"); import("./f.js"); import("./g.js"); import("./h.js");
-- b.js
print("b");
-- c.js
print("c");
-- d.js
print("d");
-- a.js
"#,
    )?;
    for _ in 0..4097u64 {
        site.push_str("import(\"./b.js\");")?;
    }
    Ok(site)
}

// Tells this where the limit doesn't stop the run of this site by so many workers, which all end.
fn all_end<R: Threads + Wait + Sync + Send + Clone + Drop + Clock>(
    rt: &R,
    alloc: Global,
    site: &str,
    workers: &'static str,
) -> Told {
    let limit = Some(ending("Limit"));
    holds(is_standard(rt, alloc, site, workers, 0, 0, limit), workers).and(holds(
        is_standard(rt, alloc, site, workers, 1, 0, limit),
        workers,
    ))
}

// The same by one worker and more.
fn all_stop<R: Threads + Wait + Sync + Send + Clone + Drop + Clock>(
    rt: &R,
    alloc: Global,
) -> Result<(), Wrong> {
    let Ok(site) = many_calls(alloc) else {
        return Err(("a limit", "memory ran out"));
    };
    let mut told = Ok(());
    for workers in ["1", "2", "4", "16"] {
        told = told.and(all_end(rt, alloc, site.as_str(), workers));
    }
    match told {
        Ok(()) => Ok(()),
        Err(workers) => Err(("a limit", workers)),
    }
}

// A run over sources that take their time is the standard run of its order; a limit ends all its workers.
#[test]
fn a_run_is_the_standard_run_of_its_order(rt: HostRuntime) -> Result<(), Wrong> {
    settings_hold(&rt, rt.alloc()).and(all_stop(&rt, rt.alloc()))
}
