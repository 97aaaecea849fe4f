// The record of what was given and taken, byte by byte.
use esm_ast::Outcome;
use esm_base::{Memory, Text};
use esm_record::{Delivery, append_record};
use std::alloc::Global;

// A delivery of this outcome.
fn delivery(alloc: Global, url: &str, outcome: Outcome) -> Result<Delivery, Memory> {
    Ok(Delivery {
        url: Text::copy(alloc, url)?,
        outcome,
    })
}

// What is taken: what is absent, and what failed.
fn deliveries(alloc: Global) -> Result<Vec<Delivery>, Memory> {
    let mut taken = Vec::new(alloc);
    taken.push(delivery(alloc, "https://a.test/main.js", Outcome::Absent)?)?;
    taken.push(delivery(alloc, "https://a.test/b.js", Outcome::Failed)?)?;
    Ok(taken)
}

const RECORD: &[u8] =
    b"xesm-record 1\nbase https://a.test/\nentry https://a.test/main.js\nmap 4 https://a.test/map.json\n{\xff}\n\ntaken 2\nabsent https://a.test/main.js\nfailed https://a.test/b.js\nend\n";

// Whether the record of these deliveries, with a map, stands behind what is there.
fn is_recorded(alloc: Global, taken: &[Delivery]) -> Result<bool, Memory> {
    let entry = Text::copy(alloc, "https://a.test/main.js")?;
    let map = Text::copy(alloc, "https://a.test/map.json")?;
    let mut text = Vec::from_slice(alloc, b"x")?;
    append_record(
        alloc,
        &mut text,
        "https://a.test/",
        &entry,
        Some((&map, b"{\xff}\n")),
        taken,
    )?;
    Ok(text.as_slice() == RECORD)
}

const NOTHING: &[u8] = b"esm-record 1\nbase a:b\nentry a:c\nmap none\ntaken 0\nend\n";

// Whether the record where nothing is given and nothing taken is this.
fn nothing_is_recorded(alloc: Global) -> Result<bool, Memory> {
    let mut text = Vec::new(alloc);
    let entry = Text::copy(alloc, "a:c")?;
    append_record(alloc, &mut text, "a:b", &entry, None, &[])?;
    Ok(text.as_slice() == NOTHING)
}

#[test]
fn a_record_stands_behind_what_is_there(rt: HostRuntime) -> Result<(), Memory> {
    let taken = deliveries(rt.alloc())?;
    let holds = is_recorded(rt.alloc(), taken.as_slice())?;
    assert!(rt; holds && nothing_is_recorded(rt.alloc())?);
    Ok(())
}
