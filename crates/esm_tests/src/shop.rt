// A site of forty modules in three packages under an import map with a scope.
use esm_base::{Memory, Status};
use esm_ports::{AskKind, MemSource, Source};
use esm_run::Delivery;
use esm_site_runs::{Judge, Setting, Takes, set_judged};
use esm_sites::{Told, Wanted, holds};
use std::alloc::Global;
use std::marker::Sync;
use std::sync::Wait;
use std::thread::Threads;

const COMMAND: &str = "run https://a.test/ app/main.js --map map.json";

const BY_ONE: &str = "run https://a.test/ app/main.js --map map.json --workers 1";

const MAP: &str =
    r#"{"imports":{"ui/":"/pkg/ui-2/","store":"/pkg/store/index.js","fmt/":"/pkg/fmt/src/"},"scopes":{"/legacy/":{"ui/":"/pkg/ui-1/"}}}"#;

const OUTPUT: &str = "- old\n== shop 3\n* item 1 * item 12\n";

// How the run ends.
const END: Wanted<'static> = Wanted {
    status: "Fulfilled",
    lines: Some("- old\n== shop 3\n* item 1 * item 12"),
};

// Its files: an entry that imports twelve pages, each of which shows its data.
const SHOP: &str = r#"== the shop
-- app/main.js
import { title } from "ui/title.js"; import { total } from "store"; import * as p1 from "./page1.js"; import * as p2 from "./page2.js"; import * as p3 from "./page3.js"; import * as p4 from "./page4.js"; import * as p5 from "./page5.js"; import * as p6 from "./page6.js"; import * as p7 from "./page7.js"; import * as p8 from "./page8.js"; import * as p9 from "./page9.js"; import * as p10 from "./page10.js"; import * as p11 from "./page11.js"; import * as p12 from "./page12.js"; import "../legacy/old.js"; print(title("shop"), total()); print(p1.name, p12.name);
-- app/page1.js
import { data } from "./data/d1.js"; import { row } from "ui/row.js"; export const name = row(data);
-- app/data/d1.js
export const data = await "item 1";
-- app/page2.js
import { data } from "./data/d2.js"; import { row } from "ui/row.js"; export const name = row(data);
-- app/data/d2.js
export const data = await "item 2";
-- app/page3.js
import { data } from "./data/d3.js"; import { row } from "ui/row.js"; export const name = row(data);
-- app/data/d3.js
export const data = await "item 3";
-- app/page4.js
import { data } from "./data/d4.js"; import { row } from "ui/row.js"; export const name = row(data);
-- app/data/d4.js
export const data = await "item 4";
-- app/page5.js
import { data } from "./data/d5.js"; import { row } from "ui/row.js"; export const name = row(data);
-- app/data/d5.js
export const data = await "item 5";
-- app/page6.js
import { data } from "./data/d6.js"; import { row } from "ui/row.js"; export const name = row(data);
-- app/data/d6.js
export const data = await "item 6";
-- app/page7.js
import { data } from "./data/d7.js"; import { row } from "ui/row.js"; export const name = row(data);
-- app/data/d7.js
export const data = await "item 7";
-- app/page8.js
import { data } from "./data/d8.js"; import { row } from "ui/row.js"; export const name = row(data);
-- app/data/d8.js
export const data = await "item 8";
-- app/page9.js
import { data } from "./data/d9.js"; import { row } from "ui/row.js"; export const name = row(data);
-- app/data/d9.js
export const data = await "item 9";
-- app/page10.js
import { data } from "./data/d10.js"; import { row } from "ui/row.js"; export const name = row(data);
-- app/data/d10.js
export const data = await "item 10";
-- app/page11.js
import { data } from "./data/d11.js"; import { row } from "ui/row.js"; export const name = row(data);
-- app/data/d11.js
export const data = await "item 11";
-- app/page12.js
import { data } from "./data/d12.js"; import { row } from "ui/row.js"; export const name = row(data);
-- app/data/d12.js
export const data = await "item 12";
-- pkg/ui-2/row.js
import { sep } from "./sep.js"; export function row(x) { return sep + x; }
-- pkg/ui-2/sep.js
export const sep = "* ";
-- pkg/ui-2/title.js
import { head } from "fmt/index.js"; export function title(x) { return head + x; }
-- pkg/fmt/src/index.js
export * from "./l1.js"; export * from "./l2.js"; export * from "./l3.js"; export * from "./l4.js"; export * from "./l5.js"; export * from "./l6.js"; export * from "./l7.js"; export const head = "== ";
-- pkg/store/index.js
export { total } from "./core.js";
-- pkg/store/core.js
let n = "3"; export function total() { return n; }
-- legacy/old.js
import { row } from "ui/row.js"; print(row("old"));
-- pkg/ui-1/row.js
export function row(x) { return "- " + x; }
-- pkg/fmt/src/l1.js
export const word1 = "1";
-- pkg/fmt/src/l2.js
export const word2 = "2";
-- pkg/fmt/src/l3.js
export const word3 = "3";
-- pkg/fmt/src/l4.js
export const word4 = "4";
-- pkg/fmt/src/l5.js
export const word5 = "5";
-- pkg/fmt/src/l6.js
export const word6 = "6";
-- pkg/fmt/src/l7.js
export const word7 = "7";"#;

// The shop over so many sources.
fn shop_over(sources: usize) -> Setting<'static> {
    Setting {
        sources,
        map: MAP,
        ..Setting::of(SHOP)
    }
}

// Runs the shop over four sources with these words behind the command.
fn is_judged<R: Threads + Wait + Sync, J: Judge<MemSource>>(
    rt: &R,
    alloc: Global,
    rest: &str,
    judge: &mut J,
) -> Result<bool, Memory> {
    let line = format!(in alloc; "{COMMAND}{rest}")?;
    set_judged(rt, alloc, line.as_str(), &shop_over(4), judge)
}

// Tells these words where the shop, with them behind the command, doesn't write what it is to write, or takes other than forty files.
fn runs_so<R: Threads + Wait + Sync>(rt: &R, alloc: Global, rest: &'static str) -> Told {
    let mut takes = Takes {
        wanted: END,
        count: 40,
    };
    holds(is_judged(rt, alloc, rest, &mut takes), rest)
}

// What the first run wrote.
#[derive(Drop)]
struct Traced {
    written: Vec<u8>,
}

// Whether a run ends well, and writes the same as the first in 83 lines: one for each start and end of forty bodies, and three
// that they print.
impl<S> Judge<S> for Traced {
    fn is_right(
        &mut self,
        alloc: Global,
        status: Status,
        written: &[u8],
        _taken: &[Delivery],
        _desk: &S,
        _sources: &[S],
    ) -> Result<bool, Memory> {
        if self.written.is_empty() {
            self.written = Vec::from_slice(alloc, written)?;
        }
        let lines = written.iter().filter(|byte| **byte == b'\n').count();
        Ok(status == Status::Fulfilled && self.written.as_slice() == written && lines == 83)
    }
}

// Whether it is traced the same over one worker and four.
fn is_traced_the_same<R: Threads + Wait + Sync>(rt: &R, alloc: Global) -> Result<bool, Memory> {
    let mut traced = Traced {
        written: Vec::new(alloc),
    };
    let one = is_judged(rt, alloc, " --trace --workers 1", &mut traced)?;
    let four = is_judged(rt, alloc, " --trace --workers 4", &mut traced)?;
    Ok(one && four)
}

#[test]
fn the_shop_runs_the_same_over_one_worker_and_four(rt: HostRuntime) -> Told {
    let alloc = rt.alloc();
    runs_so(&rt, alloc, "")
        .and(runs_so(&rt, alloc, " --workers 1"))
        .and(runs_so(&rt, alloc, " --workers 4"))
        .and(holds(is_traced_the_same(&rt, alloc), "trace lines"))
}

// The line of the first fetch that failed.
fn failed_line(alloc: Global, source: &MemSource) -> Result<String, Memory> {
    for asked in source.asked() {
        if asked.kind == AskKind::Failed {
            return Ok(format!(in alloc; "Uncaught TypeError: cannot fetch {}\n", asked.url)?);
        }
    }
    Ok(String::new(alloc))
}

// Whether a run over one source ended because a fetch failed, whose URL it tells.
#[derive(Drop)]
struct NamesTheFailed;

impl Judge<MemSource> for NamesTheFailed {
    fn is_right(
        &mut self,
        alloc: Global,
        status: Status,
        written: &[u8],
        _taken: &[Delivery],
        _desk: &MemSource,
        sources: &[MemSource],
    ) -> Result<bool, Memory> {
        match sources {
            [source] => Ok(
                status == Status::EntryFailed
                    && source.faults() == 1
                    && failed_line(alloc, source)?.as_bytes() == written,
            ),
            _ => Ok(false),
        }
    }
}

// Whether the run over one source whose fetch of this number fails tells which.
fn fails_so<R: Threads + Wait + Sync>(
    rt: &R,
    alloc: Global,
    fetch_fails: u64,
) -> Result<bool, Memory> {
    let setting = Setting {
        fetch_fails,
        ..shop_over(1)
    };
    set_judged(rt, alloc, BY_ONE, &setting, &mut NamesTheFailed)
}

// Tells where the failure of a fetch isn't told so. Each of the forty files is fetched once.
fn fetches_are_told<R: Threads + Wait + Sync>(rt: &R, alloc: Global) -> Told {
    let mut told = Ok(());
    for number in 1..41u64 {
        told = told.and(holds(fails_so(rt, alloc, number), "a fetch that fails"));
    }
    told
}

// Whether a run ends so, and so many bytes are taken of what the shop writes.
#[derive(Drop)]
struct Front {
    status: Status,
    count: usize,
}

impl<S> Judge<S> for Front {
    fn is_right(
        &mut self,
        _alloc: Global,
        status: Status,
        written: &[u8],
        _taken: &[Delivery],
        _desk: &S,
        _sources: &[S],
    ) -> Result<bool, Memory> {
        Ok(
            status == self.status
                && written.len() == self.count
                && OUTPUT.as_bytes().starts_with(written),
        )
    }
}

// Whether the run whose sink takes seven bytes at a time and fails at this write ends so, with so many bytes taken.
fn is_cut_so<R: Threads + Wait + Sync>(
    rt: &R,
    alloc: Global,
    write_fails: u64,
    status: Status,
    count: usize,
) -> Result<bool, Memory> {
    let setting = Setting {
        piece: 7,
        write_fails,
        ..shop_over(4)
    };
    set_judged(rt, alloc, COMMAND, &setting, &mut Front { status, count })
}

// Tells where the failure of a write doesn't end the run, with the pieces before it taken. There are five writes: behind them the
// run ends well.
fn writes_are_told<R: Threads + Wait + Sync>(rt: &R, alloc: Global) -> Told {
    let mut told = holds(
        is_cut_so(rt, alloc, 6, Status::Fulfilled, 35),
        "no write that fails",
    );
    for before in 0..5usize {
        let number = before as u64 + 1;
        let cut = is_cut_so(rt, alloc, number, Status::WriteFault, before * 7);
        told = told.and(holds(cut, "a write that fails"));
    }
    told
}

#[test]
fn whichever_fetch_or_write_of_the_shop_fails_is_told(rt: HostRuntime) -> Told {
    fetches_are_told(&rt, rt.alloc()).and(writes_are_told(&rt, rt.alloc()))
}
