// Module texts with their entries, and texts that are handed back, worked out from the rules.
use crate::telling::{Told, has_rows, holds, none};
use crate::tokens::{is_heading, rows_in, unmarked};
use esm_ast::{Entries, Wanted};
use esm_base::{ReadEnd, TextFault};
use esm_script::read_script;
use std::alloc::{AllocError, Global};

// Adds one more to the entries that are shown, behind this gap.
fn add(shown: &mut String, gap: &str, entry: &str) -> Result<(), AllocError> {
    shown.push_str(gap)?;
    shown.push_str(entry)
}

fn name_of(wanted: &Wanted) -> &str {
    match wanted {
        Wanted::Named(name) => name.as_str(),
        Wanted::Whole => "*",
    }
}

// The specifiers.
fn add_requests(shown: &mut String, entries: &Entries) -> Result<(), AllocError> {
    let mut gap = "";
    for specifier in entries.requests() {
        add(shown, gap, specifier.as_str())?;
        gap = ", ";
    }
    Ok(())
}

// LOCAL=REQUEST.WANTED, where `*` is the whole namespace.
fn add_imports(alloc: Global, shown: &mut String, entries: &Entries) -> Result<(), AllocError> {
    let mut gap = "";
    for entry in entries.imports() {
        let (local, request, wanted) = (
            entry.local.as_str(),
            entry.request,
            name_of(&entry.wanted),
        );
        let one = format!(in alloc; "{local}={request}.{wanted}")?;
        add(shown, gap, one.as_str())?;
        gap = ", ";
    }
    Ok(())
}

// NAME=LOCAL.
fn add_locals(alloc: Global, shown: &mut String, entries: &Entries) -> Result<(), AllocError> {
    let mut gap = "";
    for entry in entries.locals() {
        let (name, local) = (entry.name.as_str(), entry.local.as_str());
        let one = format!(in alloc; "{name}={local}")?;
        add(shown, gap, one.as_str())?;
        gap = ", ";
    }
    Ok(())
}

// NAME=REQUEST.WANTED, where `*` is the whole namespace.
fn add_indirects(alloc: Global, shown: &mut String, entries: &Entries) -> Result<(), AllocError> {
    let mut gap = "";
    for entry in entries.indirects() {
        let (name, request, wanted) = (entry.name.as_str(), entry.request, name_of(&entry.wanted));
        let one = format!(in alloc; "{name}={request}.{wanted}")?;
        add(shown, gap, one.as_str())?;
        gap = ", ";
    }
    Ok(())
}

// The requests.
fn add_stars(alloc: Global, shown: &mut String, entries: &Entries) -> Result<(), AllocError> {
    let mut gap = "";
    for request in entries.stars() {
        let one = format!(in alloc; "{request}")?;
        add(shown, gap, one.as_str())?;
        gap = ", ";
    }
    Ok(())
}

// [requests] [imports] [local exports] [indirect exports] [stars], and whether there is top-level await.
fn show(alloc: Global, shown: &mut String, entries: &Entries) -> Result<(), AllocError> {
    shown.push_str("[")?;
    add_requests(shown, entries)?;
    shown.push_str("] [")?;
    add_imports(alloc, shown, entries)?;
    shown.push_str("] [")?;
    add_locals(alloc, shown, entries)?;
    shown.push_str("] [")?;
    add_indirects(alloc, shown, entries)?;
    shown.push_str("] [")?;
    add_stars(alloc, shown, entries)?;
    shown.push_str(if entries.awaits() {
        "] true"
    } else {
        "] false"
    })
}

// Whether the entries of a text are shown so.
fn has_entries(alloc: Global, text: &str, wanted: &str) -> Result<bool, AllocError> {
    let mut shown = String::new(alloc);
    let body = text.as_bytes().to_vec(alloc)?;
    let end = match read_script(alloc, body) {
        Ok(script) => show(alloc, &mut shown, script.entries()),
        Err(_refusal) => Ok(()),
    };
    end?;
    Ok(shown.as_str() == wanted)
}

// A text, where ↵ is a line feed, and its entries. A line of `#` says what the rows below it show.
const ENTRIES: &str = r#" => [] [] [] [] [] false
# Each specifier once, in order of first appearance, by its value.
import "b"; import "a"; import {} from "b"; import "\x61" => [b, a] [] [] [] [] false
import x from "a"; import * as ns from "b"; import y, { z, w as v, "odd name" as u, } from "a" => [a, b] [x=0.default, ns=1.*, y=0.default, z=0.z, v=0.w, u=0.odd name] [] [] [] false
export * from "b"; export * as n from "a"; export * from "c"; export * from "b" => [b, a, c] [] [] [n=1.*] [0, 2, 0] false
export { a as b, "c d" as default, e } from "m"; export {} from "n" => [m, n] [] [] [b=0.a, default=0.c d, e=0.e] [] false
# A name that was imported by name is exported from where it came; a namespace is a binding of the module.
export { c as x, ns, own, c as y, d };↵import { b as c } from "m"; import d, * as ns from "n"; const own = "1" => [m, n] [c=0.b, d=1.default, ns=1.*] [ns=ns, own=own] [x=0.b, y=0.b, d=1.default] [] false
export { x } from "b"; import "a"; import { y } from "b"; export * from "c"; export { y as "a z" } => [b, a, c] [y=0.y] [] [x=0.x, a z=0.y] [2] false
export const a = "1", b = "2"; export let c; export function f(p) { let d; return p } => [] [] [a=a, b=b, c=c, f=f] [] [] false
export default "x" + "y"; export { f as g, f }; function f() {} => [] [] [default=*default*, g=f, f=f] [] [] false
export default function () { return } => [] [] [default=*default*] [] [] false
export default function f() {} export { f as g } => [] [] [default=f, g=f] [] [] false
# What a body does requests nothing.
import("a"); print(import.meta.url); function f() { return import("b") } => [] [] [] [] [] false
export const a = "1", b = await f(); function f() {} => [] [] [a=a, b=b] [] [] true
export default await "x" => [] [] [default=*default*] [] [] true
# It counts whether it runs or not.
if (false) { try { print("x") } catch (e) { { print(await e) } } } import "a" => [a] [] [] [] [] true"#;

// Whether the text of a row has the entries of the row; a heading says nothing.
fn is_row_told(alloc: Global, row: &str) -> Result<bool, AllocError> {
    let Some((text, wanted)) = row.split_once(" => ") else {
        return Ok(is_heading(row));
    };
    let text = unmarked(alloc, text)?;
    has_entries(alloc, text.as_str(), wanted)
}

// The first row of `ENTRIES` whose text has others, if there is one.
fn wrong_row(alloc: Global) -> Result<Option<&'static str>, AllocError> {
    for row in ENTRIES.lines() {
        if !is_row_told(alloc, row)? {
            return Ok(Some(row));
        }
    }
    Ok(None)
}

#[test]
fn texts_have_their_entries(rt: HostRuntime) -> Told {
    none(wrong_row(rt.alloc())).and(has_rows(rows_in(ENTRIES), 15))
}

// Whether a body is refused for this fault, and comes back.
fn comes_back(alloc: Global, body: &[u8], fault: TextFault) -> Result<bool, AllocError> {
    match read_script(alloc, body.to_vec(alloc)?) {
        Ok(_script) => Ok(false),
        Err((end, back)) => Ok(end == ReadEnd::Fault(fault) && back.as_slice() == body),
    }
}

#[test]
fn a_refused_body_comes_back(rt: HostRuntime) -> Told {
    let alloc = rt.alloc();
    let bytes = b"print(\"a\xFF\")";
    let signs = b"import { a } form \"m\"";
    let names = b"let a; export { a as b }; export { a as b }";
    holds(
        comes_back(alloc, bytes, TextFault::P1),
        "bytes that are no text",
    )
    .and(holds(comes_back(alloc, signs, TextFault::P2), "no module text"))
    .and(holds(comes_back(alloc, names, TextFault::P3), "one name twice"))
}
