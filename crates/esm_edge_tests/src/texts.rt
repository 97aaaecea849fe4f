// Texts with ample memory, a table of them, and the order of texts by code units: outside values.
use esm_base::{Memory, Text, code_unit_cmp};
use esm_text_table::TextTable;
use std::alloc::Global;
use std::cmp::Ordering;

// Whether a text and its clone have these bytes, are one text, and are shown so.
fn are_copied(alloc: Global) -> Result<bool, Memory> {
    let text = Text::copy(alloc, "é")?;
    let twin = text.clone()?;
    let shown = format!(in alloc; "<{text}>")?;
    Ok(
        text.as_str().as_bytes() == b"\xc3\xa9".as_slice()
            && twin == text
            && twin.is("é")
            && shown.as_str() == "<é>",
    )
}

// The table of the lines of a text.
fn table_of(alloc: Global, lines: &str) -> Result<TextTable, Memory> {
    let mut table = TextTable::with_capacity(alloc, 1)?;
    for line in lines.lines() {
        table.insert(Text::copy(alloc, line)?)?;
    }
    Ok(table)
}

// The place of a line in the table of a text.
fn place_in(alloc: Global, lines: &str, line: &str) -> Result<Option<usize>, Memory> {
    let table = table_of(alloc, lines)?;
    let line = Text::copy(alloc, line)?;
    Ok(table.find(&line))
}

// Whether a table keeps texts in the order in which they came, each once.
fn are_listed(alloc: Global) -> Result<bool, Memory> {
    let table = table_of(alloc, "b\na\nb\nc\na")?;
    let count = table.len();
    let second = match table.get(1) {
        Some(text) => text.is("a"),
        None => false,
    };
    let last = match table.into_texts().last() {
        Some(text) => text.is("c"),
        None => false,
    };
    Ok(second && last && count == 3 && TextTable::new(alloc).len() == 0)
}

// Twelve texts that have one mark, as `scripts/hostile_hashes.py` reckons them, more than have slots, and another among them.
const OF_ONE_MARK: &str = "\
./alclzi4u6qm4kkVQeR2hj90098qpxz
a
./alclzi4u6qm4kkVQeR2hj900bbbbbb
./alclzi4u6qm4kkVQeR2hj900cccccc
./alclzi4u6qm4kkVQeR2hj900dddddd
./alclzi4u6qm4kkVQeR2hj900eeeeee
./alclzi4u6qm4kkVQeR2hj900ffffff
./alclzi4u6qm4kkVQeR2hj900gggggg
./alclzi4u6qm4kkVQeR2hj900hhhhhh
./alclzi4u6qm4kkVQeR2hj900iiiiii
./alclzi4u6qm4kkVQeR2hj900jjjjjj
./alclzi4u6qm4kkVQeR2hj900kkkkkk
./alclzi4u6qm4kkVQeR2hj900ciyx7a";

// One more text with that mark.
const OF_THAT_MARK: &str = "./alclzi4u6qm4kkVQeR2hj900ibwoso";

// Whether a table that was let go has the one text that came since, and none of those before.
fn is_begun_anew(alloc: Global) -> Result<bool, Memory> {
    let mut table = table_of(alloc, OF_ONE_MARK)?;
    table.clear();
    table.insert_new(Text::copy(alloc, OF_THAT_MARK)?)?;
    for line in OF_ONE_MARK.lines() {
        if table.find(&Text::copy(alloc, line)?).is_some() {
            return Ok(false);
        }
    }
    let came = Text::copy(alloc, OF_THAT_MARK)?;
    Ok(table.find(&came) == Some(0) && table.len() == 1)
}

// Two texts with their order between them. U+10400 is the code units D801 DC00, and U+FF21 is one code unit, though its bytes
// are less.
const ORDERED: &str = "\
\u{10400} < \u{FF21}
\u{FF21} > \u{10400}
\u{D7FF} < \u{10400}
a\u{10401} > a\u{10400}b
ab < abc
 = ";

// A sign that stands between two texts.
fn sign_of(order: Ordering) -> &'static str {
    match order {
        Ordering::Less => "<",
        Ordering::Equal => "=",
        Ordering::Greater => ">",
    }
}

// Whether the texts of a row stand in the order that the row says.
fn is_ordered(row: &str) -> bool {
    let (a, rest) = row.split_once(' ').unwrap_or((row, ""));
    let (sign, b) = rest.split_once(' ').unwrap_or((rest, ""));
    sign_of(code_unit_cmp(a, b)) == sign
}

// The first row of `ORDERED` whose texts stand otherwise, if there is one.
fn wrong_order() -> Option<&'static str> {
    for row in ORDERED.lines() {
        if !is_ordered(row) {
            return Some(row);
        }
    }
    None
}

#[test]
fn texts_are_copied_and_ordered(rt: HostRuntime) -> Result<(), Memory> {
    assert!(rt; are_copied(rt.alloc())?);
    assert!(rt; are_listed(rt.alloc())?);
    assert_eq!(rt; place_in(rt.alloc(), "b\na\nb\nc\na", "c")?, Some(2));
    assert_eq!(rt; place_in(rt.alloc(), "b\na\nb\nc\na", "d")?, None);
    assert_eq!(rt; place_in(rt.alloc(), OF_ONE_MARK, OF_THAT_MARK)?, None);
    let last = "./alclzi4u6qm4kkVQeR2hj900ciyx7a";
    assert_eq!(rt; place_in(rt.alloc(), OF_ONE_MARK, last)?, Some(12));
    assert!(rt; is_begun_anew(rt.alloc())?);
    assert_eq!(rt; wrong_order(), None);
    assert!(rt; ORDERED.lines().count() == 6);
    Ok(())
}
