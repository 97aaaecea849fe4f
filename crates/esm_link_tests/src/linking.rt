// Linking of sites, with what it comes to as a text.
ghost use Rattle.std.specs.Prelude.{◌<◌, map, length};
ghost use Rattle.std.specs.Arc.{arc_value};
ghost use Rattle.esm_realm.specs.Sound.{records_of};
ghost use Rattle.esm_link_tests.specs.Built.{IsBuilt};

use crate::building::{Site, build};
use crate::sites::{SITES, SOUGHT, name_at};
use esm_base::{MAX_URLS, Memory, ModuleId};
use esm_env::{Envs, Read, Wrote};
use esm_link::{LinkEnd, LinkFault, LinkKind, laws, link};
use esm_realm::ModuleStatus;
use esm_values::{RcText, Value};
use std::alloc::Global;

// A fault as a text: its kind, its module, its name and its target.
fn fault_text(alloc: Global, text: &str, fault: &LinkFault) -> Result<String, Memory> {
    let kind = match fault.kind {
        LinkKind::K1 => "K1",
        LinkKind::K2 => "K2",
        LinkKind::K3 => "K3",
        LinkKind::K4 => "K4",
    };
    let m = name_at(text, fault.module.0 as usize);
    let target = name_at(text, fault.target.0 as usize);
    let name = fault.name.as_str();
    Ok(format!(in alloc; "{kind} {m} {name} {target}: ")?)
}

// What linking came to, as a text.
fn end_text(alloc: Global, text: &str, end: Result<(), LinkEnd>) -> Result<String, Memory> {
    match end {
        Ok(()) => Ok(String::from_str(alloc, "fine: ")?),
        Err(LinkEnd::Fault(fault)) => fault_text(alloc, text, &fault),
        Err(LinkEnd::Memory) => Err(Memory),
    }
}

// How a module stands.
fn mark(site: &Site, envs: &Envs, m: usize) -> &'static str {
    if m >= site.realm.records.len() || m >= MAX_URLS {
        return "?";
    }
    match site.realm.records[m].status {
        ModuleStatus::New => "new",
        ModuleStatus::Unlinked => "-",
        ModuleStatus::Linking => "linking",
        ModuleStatus::Linked => match envs.scope(ModuleId(m as u32)) {
            Some(_scope) => "+",
            None => "no scope",
        },
    }
}

// Links a module, and tells what it came to.
fn linked(
    alloc: Global,
    site: &mut Site,
    envs: &mut Envs,
    text: &str,
    root: ModuleId,
) -> Result<String, Memory>
    requires built { IsBuilt (map arc_value site.old.trees.items) (records_of site.old.realm) }
    requires root { root.0 < length (records_of site.old.realm) }
    ensures { IsBuilt (map arc_value site.new.trees.items) (records_of site.new.realm) }
{
    laws::spelled_is_bound();
    laws::link_leaves_records();
    let end = link(alloc, &mut site.realm, envs, site.trees.as_slice(), root);
    end_text(alloc, text, end)
}

// What comes of linking a module, and how each module stands then.
fn told(
    alloc: Global,
    site: &mut Site,
    envs: &mut Envs,
    text: &str,
    root: ModuleId,
) -> Result<String, Memory>
    requires { IsBuilt (map arc_value site.old.trees.items) (records_of site.old.realm) }
    ensures { IsBuilt (map arc_value site.new.trees.items) (records_of site.new.realm) }
{
    if root.0 as usize >= site.realm.records.len() {
        return Err(Memory);
    }
    let mut told = linked(alloc, site, envs, text, root)?;
    for m in 0..site.realm.records.len() {
        told.push_str(mark(site, envs, m))?;
    }
    Ok(told)
}

// Whether linking a module comes to this.
fn is_told(
    alloc: Global,
    site: &mut Site,
    envs: &mut Envs,
    text: &str,
    root: u32,
    expected: &str,
) -> Result<bool, Memory>
    requires { IsBuilt (map arc_value site.old.trees.items) (records_of site.old.realm) }
    ensures { IsBuilt (map arc_value site.new.trees.items) (records_of site.new.realm) }
{
    let told = told(alloc, site, envs, text, ModuleId(root))?;
    Ok(told.as_str() == expected)
}

// Whether linking the first module comes to this, and linking it again.
fn is_told_twice(
    alloc: Global,
    site: &mut Site,
    envs: &mut Envs,
    text: &str,
    expected: &str,
) -> Result<bool, Memory>
    requires { IsBuilt (map arc_value site.old.trees.items) (records_of site.old.realm) }
{
    if is_told(alloc, site, envs, text, 0, expected)? {
        is_told(alloc, site, envs, text, 0, expected)
    } else {
        Ok(false)
    }
}

// The same with a new site.
fn comes_to(alloc: Global, text: &str, expected: &str) -> Result<bool, Memory> {
    let mut site = build(alloc, text)?;
    let mut envs = Envs::new(alloc);
    is_told_twice(alloc, &mut site, &mut envs, text, expected)
}

// Whether a row is a heading, which begins with `# `.
fn is_heading(row: &str) -> bool {
    match row.split_once("# ") {
        Some((before, _words)) => before.is_empty(),
        None => false,
    }
}

// How many rows of a table are no headings.
fn rows_in(table: &str) -> usize {
    table.lines().filter(|row| !is_heading(row)).count()
}

// Whether the site of a row links as the row says; a heading says nothing.
fn is_row_told(alloc: Global, row: &str) -> Result<bool, Memory> {
    match row.split_once(" => ") {
        Some((text, expected)) => comes_to(alloc, text, expected),
        None => Ok(is_heading(row)),
    }
}

// The first row of both tables whose site links otherwise, if there is one.
fn wrong_row(alloc: Global) -> Result<Option<&'static str>, Memory> {
    for row in SITES.lines().chain(SOUGHT.lines()) {
        if !is_row_told(alloc, row)? {
            return Ok(Some(row));
        }
    }
    Ok(None)
}

#[test]
fn sites_link_as_the_standard_says(rt: HostRuntime) -> Result<(), Memory> {
    assert_eq!(rt; wrong_row(rt.alloc())?, None);
    assert!(rt; rows_in(SITES) == 30 && rows_in(SOUGHT) == 4);
    Ok(())
}

const CYCLE: &str =
    "m~import 'a';|a~import 'b'; export let x;|b~import 'a'; import {n} from 'c';|c~|d~import 'c'; import 'e';|e~import 'd';";

// Whether the first module of `CYCLE` has its fault, the fifth links over what has closed, and the second has the fault again.
fn is_cut_short(alloc: Global, site: &mut Site, envs: &mut Envs) -> Result<bool, Memory>
    requires { IsBuilt (map arc_value site.old.trees.items) (records_of site.old.realm) }
{
    if !is_told(alloc, site, envs, CYCLE, 0, "K1 b n c: ---+--")? {
        return Ok(false);
    }
    if !is_told(alloc, site, envs, CYCLE, 4, "fine: ---+++")? {
        return Ok(false);
    }
    is_told(alloc, site, envs, CYCLE, 1, "K1 b n c: ---+++")
}

fn cycle_is_cut_short(alloc: Global) -> Result<bool, Memory> {
    let mut site = build(alloc, CYCLE)?;
    let mut envs = Envs::new(alloc);
    is_cut_short(alloc, &mut site, &mut envs)
}

// Behind a fault in a cycle another root is linked, over what had closed; from the first the fault is the same again.
#[test]
fn links_again_behind_a_fault_in_a_cycle(rt: HostRuntime) -> Result<(), Memory> {
    assert!(rt; cycle_is_cut_short(rt.alloc())?);
    Ok(())
}

// What a name of a module reads as, in short.
fn reads_as(envs: &Envs, m: ModuleId, name: &str) -> &'static str {
    match envs.read(m, name) {
        Read::Value(_value) => "value",
        Read::Unset => "unset",
        Read::Undeclared => "undeclared",
    }
}

// Whether a name of a module reads as this text.
fn reads_text(envs: &Envs, m: ModuleId, name: &str, text: &str) -> bool {
    match envs.read(m, name) {
        Read::Value(value) => match value {
            Value::Text(value) => value.as_str() == text,
            _ => false,
        },
        Read::Unset => false,
        Read::Undeclared => false,
    }
}

const DECLARED: &str = "m~export let x = '1';";

// Whether `x` of the first module is unset, and then initialised and written, and `y` is undeclared.
fn is_set_and_written(alloc: Global, envs: &mut Envs) -> Result<bool, Memory> {
    let m = ModuleId(0);
    if reads_as(envs, m, "x") != "unset" {
        return Ok(false);
    }
    envs.initialise(m, "x", Value::Text(RcText::copy(alloc, "1")?));
    Ok(
        reads_text(envs, m, "x", "1")
            && envs.write(m, "x", Value::Undefined) == Wrote::Done
            && reads_as(envs, m, "y") == "undeclared",
    )
}

fn links_and_is_set(alloc: Global, site: &mut Site, envs: &mut Envs) -> Result<bool, Memory>
    requires { IsBuilt (map arc_value site.old.trees.items) (records_of site.old.realm) }
{
    if is_told(alloc, site, envs, DECLARED, 0, "fine: +")? {
        is_set_and_written(alloc, envs)
    } else {
        Ok(false)
    }
}

fn declared_is_set(alloc: Global) -> Result<bool, Memory> {
    let mut site = build(alloc, DECLARED)?;
    let mut envs = Envs::new(alloc);
    links_and_is_set(alloc, &mut site, &mut envs)
}

// A name is unset until it is initialised, and may then be written.
#[test]
fn a_declared_name_is_set_and_written(rt: HostRuntime) -> Result<(), Memory> {
    assert!(rt; declared_is_set(rt.alloc())?);
    Ok(())
}

const BOUND: &str =
    "m~import {x, f, y as z} from 's'; import * as n from 'a';|s~export * from 'a';|a~export const x = ''; export function f() {} let y; export {y};";

// How names of the first module of `BOUND` read once it is linked, and once `x` of the third is initialised.
const READ: &str = "x unset\nz unset\nf value\nn value\ny undeclared";

const READ_BEHIND: &str = "x value\nz unset";

// Whether the names of these rows read so.
fn all_read_so(envs: &Envs, rows: &str) -> bool {
    for row in rows.lines() {
        match row.split_once(' ') {
            Some((name, wanted)) if reads_as(envs, ModuleId(0), name) == wanted => {}
            _ => return false,
        }
    }
    true
}

fn links_and_reads(alloc: Global, site: &mut Site, envs: &mut Envs) -> Result<bool, Memory>
    requires { IsBuilt (map arc_value site.old.trees.items) (records_of site.old.realm) }
{
    if !is_told(alloc, site, envs, BOUND, 0, "fine: +++")? || !all_read_so(envs, READ) {
        return Ok(false);
    }
    envs.initialise(ModuleId(2), "x", Value::Undefined);
    Ok(all_read_so(envs, READ_BEHIND))
}

fn bound_reads(alloc: Global) -> Result<bool, Memory> {
    let mut site = build(alloc, BOUND)?;
    let mut envs = Envs::new(alloc);
    links_and_reads(alloc, &mut site, &mut envs)
}

// An import reads as what it is bound to: unset before its declaration has run, and a function at once.
#[test]
fn imports_read_where_they_are_bound(rt: HostRuntime) -> Result<(), Memory> {
    assert!(rt; bound_reads(rt.alloc())?);
    Ok(())
}
