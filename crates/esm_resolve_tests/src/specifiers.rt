// What specifiers resolve to, by the rules of the HTML Standard and the URL Standard.
use crate::reading::{RowCheck, Told, holds, read_map, rows_hold};
use esm_base::{Memory, is_canonical};
use esm_import_map::ImportMap;
use esm_specifier::{SpecEnd, SpecFault, resolve};
use std::alloc::Global;

// The name of what is wrong with a specifier.
fn fault_name(end: SpecEnd) -> &'static str {
    match end {
        SpecEnd::Fault(SpecFault::S1) => "S1",
        SpecEnd::Fault(SpecFault::S2) => "S2",
        SpecEnd::Fault(SpecFault::S3) => "S3",
        SpecEnd::Fault(SpecFault::S4) => "S4",
        SpecEnd::Fault(SpecFault::S5) => "S5",
        SpecEnd::Memory => "Memory",
    }
}

// Whether a specifier resolves to this URL, or has the fault of this name.
fn resolves_to(
    alloc: Global,
    map: &ImportMap,
    referrer: &str,
    specifier: &str,
    wanted: &str,
) -> Result<bool, Memory> {
    if !is_canonical(alloc, referrer)? {
        return Err(Memory);
    }
    match resolve(alloc, map, referrer, specifier) {
        Ok(url) => Ok(url.is(wanted)),
        Err(end) => Ok(fault_name(end) == wanted),
    }
}

// Each map, followed by what it shows and by rows of a referrer, a specifier and what it resolves to.
const TABLE: &str =
    r##"{"imports":{"lib/":"/v1/","lib/x/":"/v2/","bad":7},"scopes":{"/old/":{"lib/":"/v0/"}}}
# The longest key decides, and scopes come before the imports.
https://a.test/main.js lib/x/a.js https://a.test/v2/a.js
https://a.test/old/m.js lib/x/a.js https://a.test/v0/x/a.js
https://a.test/main.js lib/a.js https://a.test/v1/a.js
https://a.test/main.js lib/x https://a.test/v1/x
https://a.test/main.js lib/ https://a.test/v1/
https://a.test/main.js lib S4
https://a.test/main.js lib/../../etc.js S3
https://a.test/main.js lib/%2e%2e/x.js S3
https://a.test/main.js lib/x/../y.js S3
https://a.test/main.js lib/y/../z.js https://a.test/v1/z.js
https://a.test/main.js lib/https://:x/ S2
https://a.test/main.js lib/https://a.test/v1/z.js https://a.test/v1/z.js
https://a.test/main.js lib/https://b.test/ S3
https://a.test/main.js bad S1
https://a.test/old/m.js bad S1
https://a.test/main.js react S4
https://a.test/old lib/a.js https://a.test/v1/a.js

{"scopes":{"/a/":{"x":"/1","y":"/2"},"/a/b/":{"x":"/3","z":null}},"imports":{"y":"/4","z":"/5"}}
# Scopes: the longest in which a key matches.
https://a.test/a/b/m.js x https://a.test/3
https://a.test/a/m.js x https://a.test/1
https://a.test/a/b/m.js y https://a.test/2
https://a.test/main.js y https://a.test/4
https://a.test/a/b/m.js z S1
https://a.test/a/m.js z https://a.test/5

{"scopes":{"/old":{"x":"/1"}}}
https://a.test/old x https://a.test/1
https://a.test/old/m.js x S4

{"scopes":{"./old/":{"x":"/1"}}}
https://a.test/old/m.js x https://a.test/1

{"scopes":{"https://:x/":{"x":"/1"}}}
https://a.test/main.js x S4

{"imports":{"a/":"/1/","a/b/":null}}
# Null entries decide.
https://a.test/main.js a/b/c S1
https://a.test/main.js a/c https://a.test/1/c

{"imports":{"a":"b","b":"https://:x","c/":"/b","d":"/b","e":"./b","f":"../b","":"/b"}}
https://a.test/main.js a S1
https://a.test/main.js b S1
https://a.test/main.js c/d S1
https://a.test/main.js d https://a.test/b
https://a.test/a/b/m.js e https://a.test/b
https://a.test/main.js f https://a.test/b
https://a.test/main.js  S4

{"imports":{"https://b.test":"/x"}}
# The key as written ends in no slash, and its URL does.
https://a.test/main.js https://b.test https://a.test/x
https://a.test/main.js https://b.test/y S3

{"imports":{"./a.js":"/b.js","https://b.test/":"/m/","data:text/":"/m/","data:text/y":"/d.js"}}
# URL-like keys and specifiers.
https://a.test/main.js ./a.js https://a.test/b.js
https://a.test/main.js /a.js https://a.test/b.js
https://a.test/old/m.js ../a.js https://a.test/b.js
https://a.test/old/m.js ./a.js https://a.test/old/a.js
https://a.test/main.js https://a.test/a.js https://a.test/b.js
https://a.test/main.js a.js S4
https://a.test/main.js https://b.test/x.js https://a.test/m/x.js
https://a.test/main.js https://c.test/x.js https://c.test/x.js
https://a.test/main.js data:text/x data:text/x
https://a.test/main.js data:text/y https://a.test/d.js

{"imports":{"a.js":"/b.js"}}
https://a.test/main.js ./a.js https://a.test/a.js
https://a.test/main.js a.js https://a.test/b.js

{"imports":{"ftp://h/":"/m/","file:///f/":"/m/","http://h/":"/m/","ws://h/":"/m/","wss://h/":"/m/","no://h/":"/m/"}}
# Prefixes count for the special schemes alone.
https://a.test/main.js ftp://h/x https://a.test/m/x
https://a.test/main.js file:///f/x https://a.test/m/x
https://a.test/main.js http://h/x https://a.test/m/x
https://a.test/main.js ws://h/x https://a.test/m/x
https://a.test/main.js wss://h/x https://a.test/m/x
https://a.test/main.js no://h/x no://h/x
https://a.test/main.js no://h/ https://a.test/m/

{"imports":{"a":"/1","a":"/2"}}
# Where a JSON key stands twice, the last counts.
https://a.test/main.js a https://a.test/2

{"imports":{"a":"/1"},"imports":{"b":"/2"}}
https://a.test/main.js a S4
https://a.test/main.js b https://a.test/2

{}
# Without a match.
https://a.test/main.js ./x.js https://a.test/x.js
https://a.test/main.js ./x.js?y#z https://a.test/x.js?y#z
https://a.test/main.js HTTPS://A.test/%41 https://a.test/%41
https://a.test/main.js //b.test/x https://b.test/x
https://a.test/main.js .x S4
https://a.test/main.js .. S4
https://a.test/main.js https://:x S4
data:text/x ./y S4
data:text/x https://b.test/ https://b.test/"##;

// Specifiers resolve under this map as rows say.
#[derive(Clone, Copy)]
struct Under<'a> {
    map: &'a ImportMap,
}

impl<'a> RowCheck for Under<'a> {
    fn is_so(&self, alloc: Global, row: &str) -> Result<bool, Memory> {
        if row.starts_with("# ") {
            return Ok(true);
        }
        match row.split_once(' ') {
            Some((referrer, rest)) => match rest.split_once(' ') {
                Some((specifier, wanted)) => {
                    resolves_to(alloc, self.map, referrer, specifier, wanted)
                }
                None => Ok(false),
            },
            None => Ok(false),
        }
    }
}

// Tells the first row of a block whose specifier resolves to something else.
fn block_holds(alloc: Global, block: &'static str) -> Told {
    match block.split_once('\n') {
        Some((map, rows)) => match read_map(alloc, map.as_bytes(), "https://a.test/") {
            Ok(map) => rows_hold(alloc, &Under { map: &map }, rows),
            Err(fault) => Err(fault),
        },
        None => Err(block),
    }
}

// The same of all blocks.
fn blocks_hold(alloc: Global) -> Told {
    let mut told = Ok(());
    for block in TABLE.split("\n\n") {
        told = told.and(block_holds(alloc, block));
    }
    told
}

// A URL below `https://a.test/` of so many bytes behind it.
fn long_url(alloc: Global, rest: usize) -> Result<String, Memory> {
    let mut text = String::from_str(alloc, "https://a.test/")?;
    for _ in 0..rest {
        text.push('x')?;
    }
    Ok(text)
}

// Whether it resolves to this under the empty map.
fn is_answer(alloc: Global, specifier: &str, wanted: &str) -> Result<bool, Memory> {
    let map = ImportMap::empty(alloc);
    resolves_to(alloc, &map, "https://a.test/main.js", specifier, wanted)
}

// A URL of 8,192 bytes resolves to itself, one of a byte more to nothing.
fn bound_is_exact(alloc: Global) -> Result<bool, Memory> {
    let mut url = long_url(alloc, 8177)?;
    let longest = is_answer(alloc, url.as_str(), url.as_str())?;
    url.push('x')?;
    Ok(longest && is_answer(alloc, url.as_str(), "S5")?)
}

// Specifiers resolve, and the longest URL has 8,192 bytes. There are fourteen maps with thirteen empty lines between them,
// eight lines on what they show, and 69 rows.
#[test]
fn specifiers_resolve(rt: HostRuntime) -> Told {
    let alloc = rt.alloc();
    let lines = Ok(TABLE.lines().count() == 104);
    blocks_hold(alloc)
        .and(holds(lines, "another number of lines"))
        .and(holds(bound_is_exact(alloc), "the longest URL"))
}
