// Sources and sinks in memory, through their traits; and the edges: real files, and standard output.
ghost use Rattle.std.specs.Prelude.{◌≡◌, ◌<◌, ◌-◌, ◌^◌, ◌∷◌, []};

use esm_base::{Memory, Text};
use esm_ports::{
    FetchEnd, FileSource, MemSink, MemSource, Sink, SinkEnd, Source, StdSink, SureSink, SureSource,
    put_all,
};
use std::alloc::Global;
use std::{fs, io};

const ENTRY: &str = "https://a.test/main.js";

// The file at `ENTRY`.
fn files(alloc: Global, body: &[u8]) -> Result<Vec<(Text, Vec<u8>)>, Memory> {
    let mut files = Vec::new(alloc);
    files.push((Text::copy(alloc, ENTRY)?, Vec::from_slice(alloc, body)?))?;
    Ok(files)
}

// Whether a URL is fetched as this: a text, or an end.
fn is_fetched<S: Source>(
    alloc: Global,
    source: &mut S,
    url: &str,
    wanted: Result<&str, FetchEnd>,
) -> bool {
    match (source.fetch(alloc, url), wanted) {
        (Ok(body), Ok(text)) => body.as_slice() == text.as_bytes(),
        (Err(end), Err(wanted)) => end == wanted,
        _ => false,
    }
}

const NONE: &str = "https://a.test/none.js";

// Whether a source that is to fail at its second fetch does so, and counts it among three.
fn fails_at_two(alloc: Global, source: &mut MemSource) -> bool {
    is_fetched(alloc, source, ENTRY, Ok("x"))
        && is_fetched(alloc, source, ENTRY, Err(FetchEnd::Failed))
        && source.faults() == 1
        && is_fetched(alloc, source, NONE, Err(FetchEnd::Absent))
        && source.asked().len() == 3
}

// Whether a source whose one file is longer gives the first 1,048,577 bytes of it, and nothing else.
fn gives_the_first(alloc: Global, source: &mut SureSource) -> bool {
    let first = match source.fetch(alloc, ENTRY) {
        Ok(body) => body.len(),
        Err(_end) => 0,
    };
    first == 1_048_577
        && is_fetched(alloc, source, NONE, Err(FetchEnd::Absent))
        && source.faults() == 0
}

// A sink that takes four bytes at a time takes six in two calls, and none in no call.
fn takes_in_pieces(alloc: Global) -> bool {
    let mut out = MemSink::new(alloc, 4, Vec::new(alloc));
    put_all(&mut out, b"abcdef") == Ok(())
        && out.written() == b"abcdef".as_slice()
        && out.calls() == 2
        && out.faults() == 0
        && put_all(&mut out, b"") == Ok(())
        && out.calls() == 2
}

// One that fails at the second call keeps what the first has taken.
fn keeps_the_first(alloc: Global, fail_at: Vec<u64>) -> bool {
    let mut out = MemSink::new(alloc, 4, fail_at);
    put_all(&mut out, b"abcdef") == Err(SinkEnd::Failed)
        && out.written() == b"abcd".as_slice()
        && out.faults() == 1
}

// A sink that never fails takes two pieces whole, one behind the other.
fn takes_all(alloc: Global) -> bool {
    let mut out = SureSink::new(alloc);
    put_all(&mut out, b"ab") == Ok(())
        && put_all(&mut out, b"cdef") == Ok(())
        && out.written() == b"abcdef".as_slice()
        && out.faults() == 0
}

// Whether a source fails at the calls that it is told.
fn fails_so(alloc: Global) -> Result<bool, Memory> {
    let mut source = MemSource::new(alloc, files(alloc, b"x")?, vec![in alloc; 2]?)?;
    Ok(fails_at_two(alloc, &mut source))
}

// Whether a sure source gives the first bytes of a long file.
fn gives_so(alloc: Global) -> Result<bool, Memory> {
    let mut long = Vec::new(alloc);
    long.resize(1_048_578, b' ')?;
    let mut source = SureSource::new(alloc, files(alloc, long.as_slice())?)?;
    Ok(gives_the_first(alloc, &mut source))
}

// Sources in memory fail as they are told, and give the first bytes; all bytes are written in as few calls as the sink wants.
#[test]
fn sources_and_sinks_in_memory(rt: HostRuntime) -> Result<(), Memory> {
    assert!(rt; fails_so(rt.alloc())?);
    assert!(rt; gives_so(rt.alloc())?);
    assert!(rt; takes_in_pieces(rt.alloc()) && takes_all(rt.alloc()));
    assert!(rt; keeps_the_first(rt.alloc(), vec![in rt.alloc(); 2]?));
    Ok(())
}

fn make_files(rt: &HostRuntime) -> io::Result<()> {
    fs::create_dir(rt, "a.test")?;
    fs::create_dir(rt, "a.test/folder")?;
    fs::create_dir(rt, "b.test:8080")?;
    fs::write(rt, "a.test/main.js", "print(\"hi\")")?;
    fs::write(rt, "a.test/two words.js", "two")?;
    fs::write(rt, "b.test:8080/port.js", "port")?;
    fs::write(rt, "bare.js", "bare")
}

// A URL, and the text that its file has, between bars, or how its fetch ends.
const FETCHES: &str = r#"https://a.test/main.js?q#f |print("hi")|
http://a.test/two%20words.js |two|
http://b.test:8080/port.js |port|
file:///bare.js |bare|
https://a.test/none.js Absent
https://none.test/main.js Absent
https://a.test/folder/ Absent
https://a.test//main.js Absent
https://a.test/a%2Fb.js Absent
https://a.test/%00.js Absent
https://a.test/%ff.js Absent
https://./bare.js Absent
data:text/javascript,x Absent
https://a.test/folder Failed
https://a.test/main.js/x.js Failed"#;

// What a row says of its fetch.
fn wanted_of(text: &str) -> Result<&str, FetchEnd> {
    if text == "Absent" {
        return Err(FetchEnd::Absent);
    }
    if text == "Failed" {
        return Err(FetchEnd::Failed);
    }
    match text.strip_prefix('|') {
        Some(text) => Ok(text.strip_suffix('|').unwrap_or(text)),
        None => Err(FetchEnd::Memory),
    }
}

// The first row whose fetch is answered otherwise, if there is one.
fn wrong_fetch<S: Source>(alloc: Global, source: &mut S) -> Option<&'static str> {
    for row in FETCHES.lines() {
        match row.split_once(' ') {
            Some((url, text)) if is_fetched(alloc, source, url, wanted_of(text)) => {}
            _ => return Some(row),
        }
    }
    None
}

#[test]
fn a_file_source_reads_below_its_root(rt: HostRuntime) -> io::Result<()> {
    make_files(&rt)?;
    let root = Text::copy(rt.alloc(), ".").expect(&rt, "ample memory");
    let mut source = FileSource::new(rt.clone()?, rt.alloc(), root);
    assert_eq!(rt; wrong_fetch(rt.alloc(), &mut source), None);
    assert!(rt; source.faults() == 2 && FETCHES.lines().count() == 15);
    Ok(())
}

#[test]
fn standard_output_is_a_sink(rt: HostRuntime) -> io::Result<()> {
    let mut out = StdSink::new(rt.clone()?);
    put_all(&mut out, b"written\n").expect(&rt, "a write");
    assert!(rt; out.faults() == 0);
    Ok(())
}
