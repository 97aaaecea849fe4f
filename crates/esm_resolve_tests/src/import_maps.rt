// Texts that are import maps, and texts that aren't.
use crate::reading::{RowCheck, Told, holds, number, read_map, row_parts, rows_hold};
use esm_base::Memory;
use esm_import_map::ImportMap;
use std::alloc::{AllocError, Global};

// The fault of a text, or `ok`.
fn fault_of(alloc: Global, text: &[u8]) -> &'static str {
    match read_map(alloc, text, "https://a.test/") {
        Ok(_map) => "ok",
        Err(fault) => fault,
    }
}

// The fault of each text, or `ok`. A text stands between two bars.
const TEXTS: &str = r##"# no JSON text
M1 |{|
M1 ||
M1 |{}x|
M1 |{"imports":{"a":"\ud800"}}|
M1 |{"other":"\ud800"}|
M1 |{"other":1e999}|
ok | {} |
ok |{"other":1e99,"integrity":[]}|
# no object
M2 |[]|
M2 |null|
M2 |7|
M2 |"{}"|
# a part that is no object
M3 |{"imports":[]}|
M3 |{"imports":null}|
M3 |{"scopes":7}|
M3 |{"scopes":{"/a/":{},"/b/":"x"}}|
M3 |{"scopes":{"https://:x/":7}}|
M3 |{"imports":{"./a":1,"/a":1},"scopes":[]}|
ok |{"imports":7,"imports":{}}|
ok |{"imports":{},"scopes":{"/a/":{}}}|
# two keys that become one
M4 |{"imports":{"./a":"/b","https://a.test/a":"/c"}}|
M4 |{"imports":{"./a":null,"/a":7}}|
M4 |{"scopes":{"/x/":{},"https://a.test/x/":{}}}|
M4 |{"scopes":{"/x/":{"./a":"/b","/a":"/c"}}}|
ok |{"imports":{"a":"/b","./a":"/c"}}|
ok |{"imports":{"a":"/b","a":"/c"}}|
ok |{"imports":{"/a":"/b"},"scopes":{"/x/":{"/a":"/c"}}}|
ok |{"scopes":{"https://:x/":{"./a":"/b","/a":"/c"}}}|
ok |{"scopes":{"https://:x/":{},"https://:y/":{}}}|"##;

// Marks of the byte order: two, and one.
const MARKED: &str = "M1 |\u{FEFF}\u{FEFF}{}|\nok |\u{FEFF}{}|";

// So many blanks before `{}`, so many behind a mark of the byte order and `{}`, and so many lists within one another, on both
// sides of the greatest length and of the greatest depth.
const BOUNDS: &str = "\
ok 1048574 blanks
M1 1048575 blanks
ok 1048571 marked
M1 1048572 marked
M2 127 lists
M1 128 lists";

// Puts what a row of `BOUNDS` tells by its size behind what is there, which is nothing.
fn add_of_size(text: &mut Vec<u8>, count: usize, kind: &str) -> Result<(), AllocError> {
    if kind == "blanks" {
        text.resize(count, b' ')?;
        return text.extend_from_slice(b"{}");
    }
    if kind == "marked" {
        text.extend_from_slice(b"\xEF\xBB\xBF{}")?;
        return text.resize(count.saturating_add(5), b' ');
    }
    text.resize(count, b'[')?;
    text.resize(count.saturating_mul(2), b']')
}

// The fault of a text that is told by its size.
fn fault_of_size(alloc: Global, count: &str, kind: &str) -> &'static str {
    let mut text = Vec::new(alloc);
    match add_of_size(&mut text, number(count) as usize, kind) {
        Ok(()) => fault_of(alloc, text.as_slice()),
        Err(AllocError) => "Memory",
    }
}

// Whether a row without bars has the fault that it says.
fn has_fault_of_size(alloc: Global, row: &str) -> bool {
    match row.split_once(' ') {
        Some((wanted, text)) => match text.split_once(' ') {
            Some((count, kind)) => fault_of_size(alloc, count, kind) == wanted,
            None => false,
        },
        None => false,
    }
}

// Texts have the faults that rows say.
struct Faults;

impl RowCheck for Faults {
    fn is_so(&self, alloc: Global, row: &str) -> Result<bool, Memory> {
        match row_parts(row) {
            Some((wanted, text)) => Ok(fault_of(alloc, text.as_bytes()) == wanted),
            None => Ok(row.starts_with("# ") || has_fault_of_size(alloc, row)),
        }
    }
}

// What the imports have at a key.
fn import_of(map: &ImportMap, key: &str) -> &'static str {
    match map.imports().get(key) {
        None => "nothing",
        Some(None) => "null",
        Some(Some(_)) => "address",
    }
}

const KEPT: &str = r#"{"imports":{"":"/b","./a":"/b","b":"c","c/":"/c","d/":"/d/","e":7}}"#;

// What is kept of `KEPT` at each key.
const KEYS: &str = "\
nothing ||
nothing |./a|
address |https://a.test/d/a|
null |b|
null |c/|
address |d/|
null |e|";

// The imports have at each key what a row says.
#[derive(Clone, Copy)]
struct Kept<'a> {
    map: &'a ImportMap,
}

impl<'a> RowCheck for Kept<'a> {
    fn is_so(&self, _alloc: Global, row: &str) -> Result<bool, Memory> {
        match row_parts(row) {
            Some((wanted, key)) => Ok(import_of(self.map, key) == wanted),
            None => Ok(false),
        }
    }
}

// What is kept of `KEPT`.
fn entries_are_kept(alloc: Global) -> Told {
    match read_map(alloc, KEPT.as_bytes(), "https://a.test/d/") {
        Ok(map) => rows_hold(alloc, &Kept { map: &map }, KEYS),
        Err(fault) => Err(fault),
    }
}

// Whether a map has none of these entries.
fn is_empty(map: &ImportMap) -> bool {
    map.imports().get("b").is_none() && map.scopes().get("https://a.test/").is_none()
}

// The faults of all texts, and of bytes that are no text.
fn faults_are_told(alloc: Global) -> Told {
    let no_text = Ok(fault_of(alloc, b"{\"a\":\"\xFF\"}") == "M1");
    rows_hold(alloc, &Faults, TEXTS)
        .and(rows_hold(alloc, &Faults, MARKED))
        .and(rows_hold(alloc, &Faults, BOUNDS))
        .and(holds(no_text, "bytes that are no text"))
}

// Texts have their faults, as do bytes that are no text; what they say is kept; the empty map has no entries.
#[test]
fn texts_have_their_faults(rt: HostRuntime) -> Told {
    let alloc = rt.alloc();
    let empty = Ok(is_empty(&ImportMap::empty(alloc)));
    faults_are_told(alloc)
        .and(entries_are_kept(alloc))
        .and(holds(empty, "the empty map has entries"))
}
