// What a specifier names under an import map.
use esm_base::{End, Memory};
use esm_examples::import_maps::{Unresolved, resolve_under};
use esm_specifier::SpecFault;
use std::alloc::Global;

const PAGE: &str = "https://a.test/";

const MAP: &[u8] = br#"{"imports":{"lib/":"/v1/"},"scopes":{"/old/":{"lib/":"/v0/"}}}"#;

// Whether a specifier in a module names this URL; nothing where it is bare and isn't in the map.
fn names(alloc: Global, referrer: &str, specifier: &str, wanted: &str) -> bool {
    match resolve_under(alloc, PAGE, MAP, referrer, specifier) {
        Ok(url) => url.as_str() == wanted,
        Err(End::Fault(Unresolved::Specifier(SpecFault::S4))) => wanted.is_empty(),
        Err(_end) => false,
    }
}

// HTML, "resolve a module specifier": the longest key that matches decides, and a scope before the imports.
#[test]
fn a_map_decides(rt: HostRuntime) -> Result<(), Memory> {
    let alloc = rt.alloc();
    let main = "https://a.test/main.js";
    assert!(rt; names(alloc, main, "lib/x.js", "https://a.test/v1/x.js"));
    assert!(rt;
        names(
            alloc,
            "https://a.test/old/m.js",
            "lib/x.js",
            "https://a.test/v0/x.js"
        )
    );
    assert!(rt; names(alloc, main, "react", ""));
    Ok(())
}
