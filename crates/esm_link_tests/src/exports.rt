// Exports of sites: what their names denote.
ghost use Rattle.std.specs.Prelude.{◌≤◌, length};
ghost use Rattle.esm_base.specs.declared.limits.TheConstants.{MAX_URLS};
ghost use Rattle.esm_realm.specs.Sound.{records_of};

use crate::building::{Site, build};
use crate::sites::name_at;
use esm_ast::Entries;
use esm_base::{MAX_URLS, Memory, ModuleId, Text};
use esm_realm::Realm;
use esm_resolve::{
    Binding, ExportGraph, Resolution, exported_names, is_sound, namespace_keys, resolve_export,
};
use std::alloc::Global;

// The records of a site, whose requests have loaded their modules.
#[derive(Drop)]
struct Loaded<'a> {
    realm: &'a Realm,
    ghost few: { length (records_of realm.now) ≤ MAX_URLS },
}

impl<'a> ExportGraph for Loaded<'a> {
    ghost use Rattle.std.specs.Prelude.{length};
    ghost use Rattle.esm_realm.specs.Sound.{records_of};
    ghost use Rattle.esm_realm.specs.ById.{entries_at, target_at};

    ghost graph = { λ s. record {
      size = length (records_of s.realm.now);
      entries = entries_at (records_of s.realm.now);
      target = target_at (records_of s.realm.now);
    } };

    fn size(&self) -> u32 {
        self.realm.records.len() as u32
    }

    fn entries(&self, m: ModuleId) -> &Entries {
        &self.realm.records[m.0 as usize].entries
    }

    fn target(&self, m: ModuleId, request: usize) -> ModuleId {
        match self.realm.records[m.0 as usize].loaded.get(request) {
            Some(Some(target)) => *target,
            _ => ModuleId(0),
        }
    }
}

// The graph of a site.
fn graph(site: &Site) -> Result<Loaded<'_>, Memory> {
    if site.realm.records.len() > MAX_URLS {
        return Err(Memory);
    }
    Ok(Loaded { realm: &site.realm })
}

// What a name of a module denotes.
fn resolution(
    alloc: Global,
    graph: &Loaded<'_>,
    m: ModuleId,
    name: &str,
) -> Result<Resolution, Memory> {
    if is_sound(graph) && m.0 < graph.size() {
        resolve_export(alloc, graph, m, name)
    } else {
        Err(Memory)
    }
}

// The names that a module exports.
fn names_of(alloc: Global, graph: &Loaded<'_>, m: ModuleId) -> Result<Vec<Text>, Memory> {
    if is_sound(graph) && m.0 < graph.size() {
        exported_names(alloc, graph, m)
    } else {
        Err(Memory)
    }
}

// The keys of its namespace.
fn keys_of(alloc: Global, graph: &Loaded<'_>, m: ModuleId) -> Result<Vec<Text>, Memory> {
    if is_sound(graph) && m.0 < graph.size() {
        namespace_keys(alloc, graph, m)
    } else {
        Err(Memory)
    }
}

// A resolution as a text: how it went, or the module and its binding.
fn shown(alloc: Global, text: &str, found: &Resolution) -> Result<String, Memory> {
    match found {
        Resolution::Missing => Ok(String::from_str(alloc, "missing")?),
        Resolution::Ambiguous => Ok(String::from_str(alloc, "ambiguous")?),
        Resolution::One(home, Binding::Whole) => {
            Ok(format!(in alloc; "{} *", name_at(text, home.0 as usize))?)
        }
        Resolution::One(home, Binding::Local(name)) => {
            Ok(format!(in alloc; "{} {name}", name_at(text, home.0 as usize))?)
        }
    }
}

// The names, with blanks between, or `nothing`.
fn joined(alloc: Global, names: &[Text]) -> Result<String, Memory> {
    let mut text = String::new(alloc);
    let mut gap = "";
    for name in names {
        text.push_str(gap)?;
        text.push_str(name.as_str())?;
        gap = " ";
    }
    if names.is_empty() {
        text.push_str("nothing")?;
    }
    Ok(text)
}

// What a name of the first module denotes; of `(names)` the names that it exports, of `(keys)` the keys of its namespace.
fn told(alloc: Global, graph: &Loaded<'_>, text: &str, asked: &str) -> Result<String, Memory> {
    let m = ModuleId(0);
    if asked == "(names)" {
        return joined(alloc, names_of(alloc, graph, m)?.as_slice());
    }
    if asked == "(keys)" {
        return joined(alloc, keys_of(alloc, graph, m)?.as_slice());
    }
    shown(alloc, text, &resolution(alloc, graph, m, asked)?)
}

// Whether this is told of a site.
fn is_told(alloc: Global, site: &Site, text: &str, row: &str) -> Result<bool, Memory> {
    let Some((asked, wanted)) = row.split_once(" = ") else {
        return Ok(false);
    };
    let found = told(alloc, &graph(site)?, text, asked)?;
    Ok(found.as_str() == wanted)
}

// A site, what is asked of its first module, and what is told: how a name's resolution goes, or the module and the name that
// it leads to. There are a name behind two stars, two stars that lead to one binding, a default behind a star, two modules
// that export each other's name, and names whose code units stand in another order.
const EXPORTS: &str = "\
s~export * from 'a'; export * from 'b';|a~export const x = 'a';|b~export const x = 'b'; => x = ambiguous
s~export * from 'a'; export * from 'b';|a~export * from 'c';|b~export * from 'c';|c~export const x = 'c'; => x = c x
s~export * from 'd';|d~export default 'v'; => default = missing
a~export {x} from 'b';|b~export {x} from 'a'; => x = missing
s~export * from 'a'; export * from 'b';|a~export const x = 'a';|b~export const x = 'b'; => (names) = x
s~export * from 'a'; export * from 'b';|a~export const x = 'a';|b~export const x = 'b'; => (keys) = nothing
s~export * from 'a'; export * from 'b';|a~export * from 'c';|b~export * from 'c';|c~export const x = 'c'; => (names) = x
s~export * from 'a'; export * from 'b';|a~export * from 'c';|b~export * from 'c';|c~export const x = 'c'; => (keys) = x
k~export const \u{FF21} = '1'; export const \u{10400} = '2'; => (names) = \u{FF21} \u{10400}
k~export const \u{FF21} = '1'; export const \u{10400} = '2'; => (keys) = \u{10400} \u{FF21}";

// Whether a row of `EXPORTS` is as it says.
fn is_row_told(alloc: Global, row: &str) -> Result<bool, Memory> {
    let Some((text, rest)) = row.split_once(" => ") else {
        return Ok(false);
    };
    let site = build(alloc, text)?;
    is_told(alloc, &site, text, rest)
}

// The first row of `EXPORTS` that isn't as it says, if there is one.
fn wrong_row(alloc: Global) -> Result<Option<&'static str>, Memory> {
    for row in EXPORTS.lines() {
        if !is_row_told(alloc, row)? {
            return Ok(Some(row));
        }
    }
    Ok(None)
}

#[test]
fn names_denote_and_are_exported(rt: HostRuntime) -> Result<(), Memory> {
    assert_eq!(rt; wrong_row(rt.alloc())?, None);
    assert!(rt; EXPORTS.lines().count() == 10);
    Ok(())
}
