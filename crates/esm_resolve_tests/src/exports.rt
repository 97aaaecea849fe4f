// A graph of lists, and what its names resolve to.
ghost use Rattle.std.specs.Prelude.{◌≡◌, ◌<◌, ◌^◌, length, vec_len};

use crate::reading::{RowCheck, Told, holds, number, rows_hold};
use esm_ast::{Entries, IndirectExport, LocalExport, Wanted};
use esm_base::{Memory, ModuleId, Text};
use esm_resolve::{
    Binding, ExportGraph, Resolution, exported_names, is_sound, namespace_keys, resolve_export,
};
use std::alloc::Global;
use std::time::{Clock, Instant};

#[derive(Drop)]
struct Module {
    entries: Entries,
    targets: Vec<u32>,
    ghost all_targets: { length entries.requests ≡ length targets.items },
}

#[derive(Drop)]
struct Lists {
    modules: Vec<Module>,
    ghost few: { vec_len modules < 2 ^ 32 },
}

impl ExportGraph for Lists {
    ghost use Rattle.std.specs.Prelude.{vec_len, slice_get, slice_index};
    ghost use Rattle.std.specs.Option.{option_map_or};
    ghost use Rattle.esm_ast.specs.Entries.{no_entries};

    ghost graph = { λ s. record {
      size = vec_len s.modules;
      entries = λ x. option_map_or (λ m. m.entries) (slice_get s.modules.items x) no_entries;
      target = λ x r. option_map_or (λ m. slice_index m.targets.items r) (slice_get s.modules.items x) 0;
    } };

    fn size(&self) -> u32 {
        self.modules.len() as u32
    }

    fn entries(&self, m: ModuleId) -> &Entries {
        &self.modules[m.0 as usize].entries
    }

    fn target(&self, m: ModuleId, request: usize) -> ModuleId {
        ModuleId(self.modules[m.0 as usize].targets[request])
    }
}

// What a module exports, and the targets of its requests.
#[derive(Drop)]
struct Draft {
    requests: Vec<Text>,
    targets: Vec<u32>,
    locals: Vec<LocalExport>,
    indirects: Vec<IndirectExport>,
    stars: Vec<usize>,
}

impl Draft {
    // A module that exports nothing.
    fn new(alloc: Global) -> Draft {
        Draft {
            requests: Vec::new(alloc),
            targets: Vec::new(alloc),
            locals: Vec::new(alloc),
            indirects: Vec::new(alloc),
            stars: Vec::new(alloc),
        }
    }

    // Requests this module, and gives the request's place.
    fn request(&mut self, alloc: Global, target: u32) -> Result<usize, Memory> {
        let place = self.targets.len();
        self.requests.push(Text::copy(alloc, "./m.js")?)?;
        self.targets.push(target)?;
        Ok(place)
    }

    // Exports a name of its own.
    fn add_own(&mut self, alloc: Global, text: &str) -> Result<(), Memory> {
        let name = Text::copy(alloc, text)?;
        let local = Text::copy(alloc, text)?;
        self.locals.push(LocalExport { name, local })?;
        Ok(())
    }

    // Exports by this name what another module has.
    fn add_passed(&mut self, alloc: Global, name: &str, from: &str) -> Result<(), Memory> {
        let request = self.request(alloc, target_of(from))?;
        let wanted = wanted_of(alloc, from)?;
        let name = Text::copy(alloc, name)?;
        self.indirects.push(IndirectExport {
            name,
            request,
            wanted,
        })?;
        Ok(())
    }

    // Exports everything of this module.
    fn add_star(&mut self, alloc: Global, target: u32) -> Result<(), Memory> {
        let request = self.request(alloc, target)?;
        self.stars.push(request)?;
        Ok(())
    }

    // Exports everything of the modules from this one to before that one.
    fn add_stars(&mut self, alloc: Global, from: u32, to: u32) -> Result<(), Memory> {
        for target in from..to {
            self.add_star(alloc, target)?;
        }
        Ok(())
    }

    // Exports what a word of a row says.
    fn add(&mut self, alloc: Global, word: &str) -> Result<(), Memory> {
        if word == "*" {
            self.stars.push(0)?;
            return Ok(());
        }
        if let Some(module) = word.strip_prefix('*') {
            return self.add_star(alloc, number(module));
        }
        match word.split_once('=') {
            Some((name, from)) => self.add_passed(alloc, name, from),
            None => self.add_own(alloc, word),
        }
    }

    // Exports what the words of a row say.
    fn add_all(&mut self, alloc: Global, words: &str) -> Result<(), Memory> {
        for word in words.split_whitespace() {
            self.add(alloc, word)?;
        }
        Ok(())
    }
}

// The module of `5.x` or `5`.
fn target_of(from: &str) -> u32 {
    match from.split_once('.') {
        Some((module, _name)) => number(module),
        None => number(from),
    }
}

// What is exported of it: the name behind the dot, or its namespace.
fn wanted_of(alloc: Global, from: &str) -> Result<Wanted, Memory> {
    match from.split_once('.') {
        Some((_module, name)) => Ok(Wanted::Named(Text::copy(alloc, name)?)),
        None => Ok(Wanted::Whole),
    }
}

// The module, which has a request for each target.
fn made(alloc: Global, draft: Draft) -> Result<Module, Memory> {
    if draft.requests.len() != draft.targets.len() {
        return Err(Memory);
    }
    let imports = Vec::new(alloc);
    Ok(Module {
        entries: Entries::new(
            draft.requests,
            imports,
            draft.locals,
            draft.indirects,
            draft.stars,
            false,
        ),
        targets: draft.targets,
    })
}

// Adds the module.
fn add_module(alloc: Global, modules: &mut Vec<Module>, draft: Draft) -> Result<(), Memory> {
    modules.push(made(alloc, draft)?)?;
    Ok(())
}

// Adds the module that a row of words says.
fn add_row(alloc: Global, modules: &mut Vec<Module>, words: &str) -> Result<(), Memory> {
    let mut draft = Draft::new(alloc);
    let added = draft.add_all(alloc, words);
    add_module(alloc, modules, draft).and(added)
}

// Adds a module that exports everything of those from this one to before that one.
fn add_starred(alloc: Global, modules: &mut Vec<Module>, from: u32, to: u32) -> Result<(), Memory> {
    let mut draft = Draft::new(alloc);
    let added = draft.add_stars(alloc, from, to);
    add_module(alloc, modules, draft).and(added)
}

// A module a line, with its number: the names that it declares and exports; `n=5.x` for an export of module 5's `x` by the
// name `n`, and `n=5` for one of its namespace; `*5` for an export of everything of module 5, and `*` for one of everything
// of its first request, which it doesn't make.
//
// 2: two stars with an `x` each. 5: three stars, behind two of which one module's `x` stands. 7: a `default` behind a star.
// 8 and 9: an `x` from each other. 11: a namespace. 12: a name that is its own and behind a star. 13: one that is its own
// and another's. 14 and 15: a cycle of stars. 16: another's name by a name of its own.
const GRAPH: &str = "\
0: x
1: x
2: *0 *1
3: *0
4: y *0
5: default *3 *4 *6
6: default z
7: *6
8: x=9.x
9: x=8.x
10: \u{FF21} \u{10400} *2
11: n=0
12: x *1
13: x x=0.x
14: a *15
15: b *14
16: w=5.x";

// Adds the modules of these rows.
fn add_rows(alloc: Global, modules: &mut Vec<Module>, rows: &str) -> Result<(), Memory> {
    for row in rows.lines() {
        match row.split_once(": ") {
            Some((_number, words)) => add_row(alloc, modules, words)?,
            None => return Err(Memory),
        }
    }
    Ok(())
}

const MANY: u32 = 4096;

// Each module exports everything of the next, and the last has `x`.
fn add_chain(alloc: Global, modules: &mut Vec<Module>) -> Result<(), Memory> {
    for next in 1..MANY {
        add_starred(alloc, modules, next, next + 1)?;
    }
    add_row(alloc, modules, "x")
}

// The first module exports everything of all others, each of which has `x`.
fn add_fan(alloc: Global, modules: &mut Vec<Module>) -> Result<(), Memory> {
    add_starred(alloc, modules, 1, MANY)?;
    for _ in 1..MANY {
        add_row(alloc, modules, "x")?;
    }
    Ok(())
}

fn graph_of(modules: Vec<Module>) -> Result<Lists, Memory> {
    if modules.len() > 10_000 {
        return Err(Memory);
    }
    Ok(Lists { modules })
}

// The graph of these rows; the chain, or the fan.
fn graph(alloc: Global, rows: &str) -> Result<Lists, Memory> {
    let mut modules = Vec::new(alloc);
    let added = match rows {
        "chain" => add_chain(alloc, &mut modules),
        "fan" => add_fan(alloc, &mut modules),
        _ => add_rows(alloc, &mut modules, rows),
    };
    match added {
        Ok(()) => graph_of(modules),
        Err(Memory) => Err(Memory),
    }
}

fn resolution(alloc: Global, graph: &Lists, m: u32, name: &str) -> Result<Resolution, Memory> {
    if is_sound(graph) && m < graph.size() {
        resolve_export(alloc, graph, ModuleId(m), name)
    } else {
        Err(Memory)
    }
}

fn names_of(alloc: Global, graph: &Lists, m: u32) -> Result<Vec<Text>, Memory> {
    if is_sound(graph) && m < graph.size() {
        exported_names(alloc, graph, ModuleId(m))
    } else {
        Err(Memory)
    }
}

fn keys_of(alloc: Global, graph: &Lists, m: u32) -> Result<Vec<Text>, Memory> {
    if is_sound(graph) && m < graph.size() {
        namespace_keys(alloc, graph, ModuleId(m))
    } else {
        Err(Memory)
    }
}

// Whether a resolution is told so: how it went, or the module and its binding.
fn is_shown(resolution: &Resolution, wanted: &str) -> bool {
    match resolution {
        Resolution::Missing => wanted == "missing",
        Resolution::Ambiguous => wanted == "ambiguous",
        Resolution::One(home, binding) => match wanted.split_once(' ') {
            Some((module, name)) => number(module) == home.0 && is_named(binding, name),
            None => false,
        },
    }
}

// Whether a binding has this name, or `*` where it is a namespace.
fn is_named(binding: &Binding, name: &str) -> bool {
    match binding {
        Binding::Whole => name == "*",
        Binding::Local(local) => local.is(name),
    }
}

// The names, with a blank behind each.
fn joined(alloc: Global, names: &[Text]) -> Result<String, Memory> {
    let mut text = String::new(alloc);
    for name in names {
        text.push_str(name.as_str())?;
        text.push_str(" ")?;
    }
    Ok(text)
}

// Whether the names are these.
fn are_names(
    alloc: Global,
    names: Result<Vec<Text>, Memory>,
    wanted: &str,
) -> Result<bool, Memory> {
    let names = names?;
    let text = joined(alloc, names.as_slice())?;
    Ok(text.as_str().trim() == wanted)
}

// Whether a name of a module denotes this; of `(names)` the names that it exports, of `(keys)` the keys of its namespace.
fn is_told(
    alloc: Global,
    graph: &Lists,
    m: u32,
    asked: &str,
    wanted: &str,
) -> Result<bool, Memory> {
    if asked == "(names)" {
        return are_names(alloc, names_of(alloc, graph, m), wanted);
    }
    if asked == "(keys)" {
        return are_names(alloc, keys_of(alloc, graph, m), wanted);
    }
    match resolution(alloc, graph, m, asked) {
        Ok(found) => Ok(is_shown(&found, wanted)),
        Err(Memory) => Err(Memory),
    }
}

impl RowCheck for Lists {
    fn is_so(&self, alloc: Global, row: &str) -> Result<bool, Memory> {
        match row.split_once(" =") {
            Some((question, wanted)) => match question.split_once(' ') {
                Some((module, asked)) => {
                    is_told(alloc, self, number(module), asked, wanted.trim())
                }
                None => Ok(false),
            },
            None => Ok(false),
        }
    }
}

// A module of `GRAPH`, what is asked of it, and what is told: how a name's resolution goes, or the module and the name that
// it leads to, or `*` for a namespace.
const TOLD: &str = "\
2 x = ambiguous
5 x = 0 x
7 default = missing
7 z = 6 z
8 x = missing
11 n = 0 *
12 x = 12 x
13 x = 13 x
14 b = 15 b
14 c = missing
16 w = 0 x
2 (names) = x
2 (keys) =
5 (names) = default x y z
5 (keys) = default x y z
10 (names) = \u{FF21} \u{10400} x
10 (keys) = \u{10400} \u{FF21}
14 (names) = a b
14 (keys) = a b";

// Tells the first of these rows that isn't told so of the graph.
fn graph_tells(alloc: Global, graph_rows: &str, rows: &'static str) -> Told {
    match graph(alloc, graph_rows) {
        Ok(graph) => rows_hold(alloc, &graph, rows),
        Err(Memory) => Err("memory ran out"),
    }
}

// Whether the graph of these rows is sound.
fn is_graph_sound(alloc: Global, rows: &str) -> Result<bool, Memory> {
    match graph(alloc, rows) {
        Ok(graph) => Ok(is_sound(&graph)),
        Err(Memory) => Err(Memory),
    }
}

// Whether that is found so.
fn is_sound_so(alloc: Global, rows: &'static str, wanted: bool) -> Told {
    match is_graph_sound(alloc, rows) {
        Ok(sound) => holds(Ok(sound == wanted), rows),
        Err(Memory) => Err("memory ran out"),
    }
}

// Names denote and are exported; a graph is sound unless a module leads out of it, or a star is no request of its module.
#[test]
fn names_denote_and_are_exported(rt: HostRuntime) -> Told {
    let alloc = rt.alloc();
    graph_tells(alloc, GRAPH, TOLD)
        .and(is_sound_so(alloc, "0: *1", false))
        .and(is_sound_so(alloc, "0: *", false))
        .and(is_sound_so(alloc, "0: *0", true))
}

// Tells where a second has passed.
fn is_fast<C: Clock>(clock: &C, start: Instant) -> Told {
    match start.elapsed(clock) {
        Ok(took) => holds(Ok(took.as_secs() < 1), "a second has passed"),
        Err(_fault) => Err("no clock"),
    }
}

// Tells where these rows aren't told of the graph within a second.
fn is_told_fast<C: Clock>(clock: &C, alloc: Global, graph: &Lists, rows: &'static str) -> Told {
    match Instant::now(clock) {
        Ok(start) => rows_hold(alloc, graph, rows).and(is_fast(clock, start)),
        Err(_fault) => Err("no clock"),
    }
}

// The same of the graph that is named.
fn graph_tells_fast<C: Clock>(
    clock: &C,
    alloc: Global,
    graph_name: &str,
    rows: &'static str,
) -> Told {
    match graph(alloc, graph_name) {
        Ok(graph) => is_told_fast(clock, alloc, &graph, rows),
        Err(Memory) => Err("memory ran out"),
    }
}

#[test]
fn long_chains_and_wide_fans_are_fast(rt: HostRuntime) -> Told {
    let alloc = rt.alloc();
    graph_tells_fast(&rt, alloc, "chain", "0 x = 4095 x").and(graph_tells_fast(
        &rt,
        alloc,
        "fan",
        "0 y = missing\n0 x = ambiguous",
    ))
}
