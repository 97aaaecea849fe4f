// Runs over large graphs of modules.
use esm_base::Memory;
use esm_site_runs::{Takes, site_judged};
use esm_sites::{Told, ending, holds};
use std::alloc::Global;
use std::marker::Sync;
use std::sync::Wait;
use std::thread::Threads;

// A site whose entry imports so many others and prints nothing.
fn with_imports(alloc: Global, many: u64) -> Result<String, Memory> {
    let mut site = String::from_str(alloc, "== imports\n-- main.js")?;
    for i in 0..many {
        let line = format!(in alloc; "\nimport \"./m{i}.js\";")?;
        site.push_str(line.as_str())?;
    }
    Ok(site)
}

// One whose entry imports 4,095 others, with these, which print nothing.
fn with_all_imports(alloc: Global) -> Result<String, Memory> {
    let mut site = with_imports(alloc, 4095)?;
    for i in 0..4095u64 {
        let file = format!(in alloc; "\n-- m{i}.js")?;
        site.push_str(file.as_str())?;
    }
    Ok(site)
}

// Whether a run of this site ends so, and takes so many files.
fn takes<R: Threads + Wait + Sync>(
    rt: &R,
    alloc: Global,
    site: Result<String, Memory>,
    end: &str,
    count: usize,
) -> Result<bool, Memory> {
    let wanted = ending(end);
    match site {
        Ok(site) => site_judged(rt, alloc, site.as_str(), &mut Takes { wanted, count }),
        Err(Memory) => Err(Memory),
    }
}

// Whether an entry that imports 4,096 others is stopped.
fn is_stopped<R: Threads + Wait + Sync>(rt: &R, alloc: Global) -> Result<bool, Memory> {
    takes(rt, alloc, with_imports(alloc, 4096), "Limit\nLimit L1", 1)
}

// Whether one that imports 4,095 runs, and all are taken.
fn is_loaded<R: Threads + Wait + Sync>(rt: &R, alloc: Global) -> Result<bool, Memory> {
    takes(rt, alloc, with_all_imports(alloc), "Fulfilled", 4096)
}

#[test]
fn as_many_as_4096_urls_are_loaded(rt: HostRuntime) -> Told {
    holds(is_stopped(&rt, rt.alloc()), "4,096 imports").and(holds(
        is_loaded(&rt, rt.alloc()),
        "4,095 imports",
    ))
}

// A chain of 4,096 modules, each of which imports the next and then prints its number; the last has this text.
fn chain(alloc: Global, foot: &str) -> Result<String, Memory> {
    let main = "== a chain\n-- main.js\nimport \"./m1.js\";print(\"0\")";
    let mut site = String::from_str(alloc, main)?;
    for i in 1..4095u64 {
        let next = i.saturating_add(1);
        let file = format!(in alloc; "\n-- m{i}.js\nimport \"./m{next}.js\";print(\"{i}\")")?;
        site.push_str(file.as_str())?;
    }
    site.push_str("\n-- m4095.js\n")?;
    site.push_str(foot)?;
    Ok(site)
}

// The status, and on the lines below what the foot prints, and then the modules above it, but for the last line feed.
fn with_numbers(alloc: Global, foot: &str) -> Result<String, Memory> {
    let mut text = String::from_str(alloc, foot)?;
    for i in (0..4095u64).rev() {
        let line = format!(in alloc; "\n{i}")?;
        text.push_str(line.as_str())?;
    }
    Ok(text)
}

// Whether a chain with this foot runs to its end and writes this first, and then its numbers.
fn prints_all<R: Threads + Wait + Sync>(
    rt: &R,
    alloc: Global,
    foot: &str,
    first: &str,
) -> Result<bool, Memory> {
    match with_numbers(alloc, first) {
        Ok(end) => takes(rt, alloc, chain(alloc, foot), end.as_str(), 4096),
        Err(Memory) => Err(Memory),
    }
}

const FOOT: &str = "print(\"foot\")";

const LONG_FOOT: &str = "print(\"foot\");await undefined;print(\"again\")";

const THROWING_FOOT: &str = "print(\"foot\");await undefined;throw \"x\"";

// Whether one whose foot throws behind an await fails with it.
fn fails_with_its_foot<R: Threads + Wait + Sync>(rt: &R, alloc: Global) -> Result<bool, Memory> {
    let end = "EntryFailed\nfoot\nUncaught x";
    takes(rt, alloc, chain(alloc, THROWING_FOOT), end, 4096)
}

// A chain of 4,096 modules runs from its end, waits for its foot, and fails with it.
#[test]
fn a_chain_of_4096_modules_runs_from_its_end(rt: HostRuntime) -> Told {
    let alloc = rt.alloc();
    let again = "Fulfilled\nfoot\nagain";
    holds(prints_all(&rt, alloc, FOOT, "Fulfilled\nfoot"), "a chain")
        .and(holds(
            prints_all(&rt, alloc, LONG_FOOT, again),
            "a foot that awaits",
        ))
        .and(holds(fails_with_its_foot(&rt, alloc), "a foot that throws"))
}
