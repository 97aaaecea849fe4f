// A source that is the text in a window, and a sink that is a page.
use esm_base::{Memory, Text};
use esm_examples::pages::{OpenText, Page};
use esm_ports::{FetchEnd, Sink, Source, put_all};
use std::alloc::Global;

const URL: &str = "https://a.test/main.js";

const BODY: &[u8] = b"print(\"one\");";

// Whether the open text is fetched.
fn is_fetched(alloc: Global, open: &mut OpenText) -> bool {
    match open.fetch(alloc, URL) {
        Ok(body) => body.as_slice() == BODY,
        Err(_end) => false,
    }
}

// Whether nothing is fetched at another URL.
fn is_absent(alloc: Global, open: &mut OpenText) -> bool {
    match open.fetch(alloc, "https://a.test/other.js") {
        Err(FetchEnd::Absent) => true,
        _ => false,
    }
}

// Whether the open text stands at its URL alone.
fn stands_alone(alloc: Global, open: &mut OpenText) -> bool {
    is_fetched(alloc, open) && is_absent(alloc, open) && open.asked.len() == 2 && open.faults() == 0
}

#[test]
fn an_open_text_is_fetched(rt: HostRuntime) -> Result<(), Memory> {
    let alloc = rt.alloc();
    let url = Text::copy(alloc, URL)?;
    let body = Vec::from_slice(alloc, BODY)?;
    assert!(rt; stands_alone(alloc, &mut OpenText::new(alloc, url, body)));
    Ok(())
}

// Whether a page with so much room has this text, and so many writes have failed.
fn is_filled(alloc: Global, room: usize, text: &str, faults: u64) -> bool {
    let mut page = Page::new(alloc, room);
    let _ = put_all(&mut page, b"one\ntwo\n");
    page.text() == text.as_bytes() && page.faults() == faults
}

// A page takes the first bytes that it has room for, and then fails.
#[test]
fn a_page_is_filled(rt: HostRuntime) -> Result<(), Memory> {
    assert!(rt; is_filled(rt.alloc(), 100, "one\ntwo\n", 0));
    assert!(rt; is_filled(rt.alloc(), 5, "one\nt", 1));
    Ok(())
}
