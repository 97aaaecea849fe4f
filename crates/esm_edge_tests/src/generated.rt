// Worked examples of generated input, and the ends of its range.
use esm_base::{Memory, Status, Text};
use esm_gen::{GeneratedSource, Summary, entry_url, files};
use esm_ports::{FetchEnd, Source};
use std::alloc::Global;

// The files' URLs and texts, one behind another.
fn shown(alloc: Global, files: &[(Text, Vec<u8>)]) -> Result<Vec<u8>, Memory> {
    let mut text = Vec::new(alloc);
    for (url, body) in files {
        text.extend_from_slice(url.as_str().as_bytes())?;
        text.push(b'\n')?;
        text.extend_from_slice(body)?;
    }
    Ok(text)
}

const THREE: &str = "https://gen.test/m0.js
import \"./m1.js\";
import \"./m2.js\";
import \"./m1.js\";
await undefined;
print(\"0\");
https://gen.test/m1.js
import \"./m2.js\";
await undefined;
print(\"1\");
https://gen.test/m2.js
import \"./m1.js\";
print(\"2\");
";

const ONE: &str = "https://gen.test/m0.js
import \"./m0.js\";
await undefined;
print(\"0\");
";

// Whether START and COUNT make these files.
fn are_made(alloc: Global, start: u32, count: u32, text: &str) -> Result<bool, Memory> {
    let files = files(alloc, start, count)?;
    Ok(shown(alloc, &files)?.as_slice() == text.as_bytes())
}

// Whether the last of 4,096 modules is the one that was worked out.
fn is_last_made(alloc: Global) -> Result<bool, Memory> {
    let files = files(alloc, 2_147_483_647, 4096)?;
    match files.last() {
        Some((url, body)) => Ok(
            files.len() == 4096
                && url.as_str() == "https://gen.test/m4095.js"
                && body.as_slice() == b"import \"./m4090.js\";\nprint(\"4095\");\n".as_slice(),
        ),
        None => Ok(false),
    }
}

// What stands at a URL where 1 generates two modules, with `|` for the ends of lines; nothing where no text stands behind it.
// By hand from the rule: both await, and the last import of each is the module 1.
const OF_TWO: &str =
    r#"https://gen.test/m0.js import "./m1.js";|import "./m1.js";|await undefined;|print("0");|
https://gen.test/m1.js import "./m1.js";|await undefined;|print("1");|
https://gen.test/m2.js
https://gen.test/m00.js
https://gen.test/m+1.js
https://gen.test/m4294967296.js
https://gen.test/m.js
https://gen.test/m1
https://b.test/m1.js"#;

// The text that stands in a row.
fn text_of(alloc: Global, row: &str) -> Result<String, Memory> {
    let mut text = String::new(alloc);
    for c in row.chars() {
        text.push(if c == '|' { '\n' } else { c })?;
    }
    Ok(text)
}

// Whether the source answers with this text, and with nothing where it is empty.
fn is_answered(
    alloc: Global,
    source: &mut GeneratedSource,
    url: &str,
    text: &str,
) -> Result<bool, Memory> {
    match source.fetch(alloc, url) {
        Ok(body) => Ok(!text.is_empty() && body.as_slice() == text.as_bytes()),
        Err(FetchEnd::Absent) => Ok(text.is_empty()),
        Err(FetchEnd::Failed) => Ok(false),
        Err(FetchEnd::Memory) => Err(Memory),
    }
}

// The first row of `OF_TWO` that is answered otherwise, if there is one.
fn wrong_answer(
    alloc: Global,
    source: &mut GeneratedSource,
) -> Result<Option<&'static str>, Memory> {
    for row in OF_TWO.lines() {
        let (url, rest) = row.split_once(' ').unwrap_or((row, ""));
        let text = text_of(alloc, rest)?;
        if !is_answered(alloc, source, url, text.as_str())? {
            return Ok(Some(row));
        }
    }
    Ok(None)
}

// Whether a source makes its own modules alone.
fn makes_its_own(alloc: Global, source: &mut GeneratedSource) -> Result<bool, Memory> {
    let wrong = wrong_answer(alloc, source)?;
    Ok(wrong.is_none() && source.asked.len() == 9 && source.faults() == 0)
}

// Whether a summary has four lines.
fn is_summed_up(alloc: Global) -> Result<bool, Memory> {
    let run = Summary {
        modules: 64,
        started: 63,
        lines: 0,
        status: Status::Limit,
    };
    Ok(run.text(alloc)?.as_str() == "modules 64\nstarted 63\nlines 0\nstatus 5\n")
}

// Modules import the next and one more; a source makes its own alone; a summary has four lines.
#[test]
fn modules_import_the_next_and_one_more(rt: HostRuntime) -> Result<(), Memory> {
    let alloc = rt.alloc();
    assert!(rt; are_made(alloc, 1, 3, THREE)?);
    assert!(rt; are_made(alloc, 1, 1, ONE)?);
    assert!(rt; is_last_made(alloc)?);
    assert!(rt; entry_url(alloc)?.as_str() == "https://gen.test/m0.js");
    assert!(rt; makes_its_own(alloc, &mut GeneratedSource::new(alloc, 1, 2))?);
    assert!(rt; is_summed_up(alloc)?);
    Ok(())
}
