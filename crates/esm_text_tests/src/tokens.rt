// Texts and their tokens, worked out from the rules.
use crate::telling::{Told, has_rows, holds, none};
use bumpalo::Bump;
use esm_base::{ReadEnd, TextFault};
use esm_lexer::{lexemes, tokens};
use esm_tree::TokenKind;
use std::alloc::{AllocError, Global};

/// What a row's text stands for: these signs are characters that would not be seen in a row.
pub fn unmarked(alloc: Global, row: &str) -> Result<String, AllocError> {
    let mut text = String::new(alloc);
    for c in row.chars() {
        let meant = match c {
            '↵' => '\n',
            '␍' => '\r',
            '⇥' => '\t',
            '␀' => '\0',
            '␈' => '\u{8}',
            '␋' => '\u{b}',
            '␌' => '\u{c}',
            '␣' => '\u{feff}',
            '¶' => '\u{2028}',
            '␤' => '\u{85}',
            _ => c,
        };
        text.push(meant)?;
    }
    Ok(text)
}

fn fault(end: ReadEnd) -> &'static str {
    match end {
        ReadEnd::Fault(TextFault::P1) => "P1",
        ReadEnd::Fault(TextFault::P2) => "P2",
        ReadEnd::Fault(TextFault::P3) => "P3",
        ReadEnd::Fault(TextFault::P4) => "P4",
        ReadEnd::Fault(TextFault::P6) => "P6",
        ReadEnd::Memory => "Memory",
    }
}

fn kind(kind: TokenKind) -> &'static str {
    match kind {
        TokenKind::Word => "word@",
        TokenKind::Literal => "literal@",
        TokenKind::Sign => "sign@",
    }
}

// The tokens of a text with their places, `newline+` before those that a line terminator stands before, or its fault.
fn places(alloc: Global, text: &[u8]) -> Result<String, AllocError> {
    let mut shown = String::new(alloc);
    match tokens(alloc, text) {
        Ok(found) => {
            for token in &found {
                let gap = if shown.is_empty() { "" } else { " " };
                let line = if token.newline_before { "newline+" } else { "" };
                let letter = kind(token.kind);
                let (from, to) = (token.from, token.to);
                let one = format!(in alloc; "{gap}{line}{letter}{from}-{to}")?;
                shown.push_str(&one)?;
            }
        }
        Err(end) => shown.push_str(fault(end))?,
    }
    Ok(shown)
}

// The terminal symbols of a text with what they spell, or its fault.
fn spelled(alloc: Global, text: &[u8]) -> Result<String, AllocError> {
    let mut shown = String::new(alloc);
    if text.len() > 1000 {
        return Ok(shown);
    }
    let arena = Bump::new(alloc);
    match lexemes(alloc, &arena, text) {
        Ok((found, whole)) => {
            for at in 0..found.len() {
                let gap = if shown.is_empty() { "" } else { " " };
                let terminal = found.terminal(at);
                let text = found.text(at);
                let one = format!(in alloc; "{gap}{terminal:?}:{text}")?;
                shown.push_str(&one)?;
            }
            if !whole {
                shown.push_str(" P2")?;
            }
        }
        Err(end) => shown.push_str(fault(end))?,
    }
    Ok(shown)
}

// What is expected, and behind ` | ` the text.
const PLACES: &str = r#" | 
word@0-1 sign@1-2 word@2-3 | a.b
word@2-3 |   a
word@0-1 word@2-3 | a b
P2 | 1
P2 | 1a
word@0-3 | $_1
word@0-2 | é
P2 | a-b
P2 | a/b
P2 | a:b
P2 | `a`
P2 | a\u0062
sign@0-3 sign@3-4 | !===
sign@0-3 sign@3-4 | ====
word@0-1 sign@1-2 sign@2-3 word@3-4 | a==b
word@0-1 sign@1-4 word@4-5 | a!==b
sign@0-2 sign@2-4 | &&||
P2 | &&&
P2 | a|b
literal@0-4 | "ab"
literal@0-5 | 'a"b'
literal@0-2 literal@2-4 | ""''
P2 | "a
P2 | "a'
P2 | "a↵"
P2 | "a␍"
literal@0-6 | "a¶"
word@0-1 newline+word@2-3 | a↵b
newline+word@1-2 | ↵a
word@0-1 newline+word@2-3 | a␍b
word@0-1 newline+word@4-5 | a¶b
P2 | a␤b
word@0-1 newline+word@5-6 | a//x↵b
word@0-1 | a//x
word@0-1 word@6-7 | a/*x*/b
word@0-1 newline+word@6-7 | a/*↵*/b
word@0-1 newline+word@10-11 | a/*↵*//**/b
word@4-5 | /**/a
P2 | /*/
P2 | /*
P2 | <!-- a
newline+word@4-5 | #!x↵a
 | #!x
P2 |  #!x
P2 | a#!x
word@3-4 | ␣a
word@6-7 | ␣␣a
newline+word@7-8 | ␣#!x↵a
word@0-1 word@4-5 | a␣b
"#;

const SPELLED: &str = r#"Name:a Dot: Import:import | a.import
As:as From:from Meta:meta Url:url | as from meta url
Reserved:class Reserved:eval Name:of | class eval of
Print:print Undefined:undefined | print undefined
Literal:ab | "ab"
Literal: | ''
Literal:a"b | 'a"b'
Literal:a¶b | "a¶b"
Literal:↵⇥␍␈␋␌ | "\n\t\r\b\v\f"
Literal:q'\ | "\q\'\\"
Literal:␀ | "\0"
Literal:a␀b | "a\0b"
 P2 | "\01"
 P2 | "\1"
 P2 | "\9"
Literal:A | "\x41"
 P2 | "\x4"
 P2 | "\x4g"
Literal:AB | "\u0041\u{42}"
Literal:A | "\u{0000000041}"
 P2 | "\u004"
 P2 | "\u{}"
 P2 | "\u{41"
 P2 | "\u{110000}"
Literal:😀 | "\ud83d\ude00"
Literal:😀 | "\u{1f600}"
 P2 | "\ud83d"
 P2 | "\ud83d\u{de00}"
 P2 | "\ude00"
 P2 | "\u{d83d}"
Literal:ab | "a\↵b"
Literal:ab | "a\␍↵b"
Literal:ab | "a\¶b"
 P2 | "a\↵␍b"
 P2 | "a\"
Name:a P2 | a 1 b
"#;

// Whether the tokens of a row's text are as the row says.
fn has_places(alloc: Global, row: &str) -> Result<bool, AllocError> {
    let Some((wanted, text)) = row.split_once(" | ") else {
        return Ok(false);
    };
    let text = unmarked(alloc, text)?;
    Ok(places(alloc, text.as_bytes())?.as_str() == wanted)
}

// Whether they spell what the row says.
fn is_spelled(alloc: Global, row: &str) -> Result<bool, AllocError> {
    let Some((wanted, text)) = row.split_once(" | ") else {
        return Ok(false);
    };
    let text = unmarked(alloc, text)?;
    let meant = unmarked(alloc, wanted)?;
    Ok(spelled(alloc, text.as_bytes())?.as_str() == meant.as_str())
}

// The fault of a text made of one that is repeated, and of what stands behind it.
fn repeated(
    alloc: Global,
    unit: &str,
    count: usize,
    behind: &[u8],
) -> Result<&'static str, AllocError> {
    let mut text = Vec::new(alloc);
    for _turn in 0..count {
        text.extend_from_slice(unit.as_bytes())?;
    }
    text.extend_from_slice(behind)?;
    match tokens(alloc, &text) {
        Ok(_) => Ok("ok"),
        Err(end) => Ok(fault(end)),
    }
}

// How often a text is repeated, and behind ` | ` the text.
const NESTED: &str = "\
64 ok | (
65 P4 | (
64 ok | {
65 P4 | {
32 ok | ({
33 P4 | ({
65 ok | ()
65 ok | )
64 ok | !
65 P4 | !
65 P4 | ! /*↵*/
65 ok | !a
65 ok | !==";

/// Whether a row is a heading, which begins with `# `.
pub fn is_heading(row: &str) -> bool {
    match row.split_once("# ") {
        Some((before, _words)) => before.is_empty(),
        None => false,
    }
}

/// How many rows of a table are no headings.
pub fn rows_in(table: &str) -> usize {
    table.lines().filter(|row| !is_heading(row)).count()
}

/// The number that some digits are; none where there are none, or another sign.
pub fn count_of(digits: &str) -> Option<usize> {
    if digits.is_empty() {
        return None;
    }
    let mut count = 0_usize;
    for c in digits.chars() {
        let digit = c.to_digit(10)?;
        count = count.saturating_mul(10).saturating_add(digit as usize);
    }
    Some(count)
}

// Whether the repeated text of a row has the fault that the row says.
fn is_nested(alloc: Global, row: &str) -> Result<bool, AllocError> {
    let Some((wanted, unit)) = row.split_once(" | ") else {
        return Ok(false);
    };
    let Some((count, wanted)) = wanted.split_once(' ') else {
        return Ok(false);
    };
    match count_of(count) {
        Some(count) => Ok(repeated(alloc, unit, count, b"")? == wanted),
        None => Ok(false),
    }
}

// The first row of the three tables that isn't as it says, if there is one.
fn wrong_row(alloc: Global) -> Result<Option<&'static str>, AllocError> {
    for row in PLACES.lines() {
        if !has_places(alloc, row)? {
            return Ok(Some(row));
        }
    }
    for row in SPELLED.lines() {
        if !is_spelled(alloc, row)? {
            return Ok(Some(row));
        }
    }
    for row in NESTED.lines() {
        if !is_nested(alloc, row)? {
            return Ok(Some(row));
        }
    }
    Ok(None)
}

#[test]
fn texts_have_their_tokens(rt: HostRuntime) -> Told {
    none(wrong_row(rt.alloc()))
        .and(has_rows(rows_in(PLACES), 50))
        .and(has_rows(rows_in(SPELLED), 36))
        .and(has_rows(rows_in(NESTED), 13))
}

// Whether a text has a fault, which is told in place of its tokens.
fn is_refused(alloc: Global, text: &[u8], fault: &str) -> Result<bool, AllocError> {
    match places(alloc, text) {
        Ok(places) => Ok(places.as_str() == fault),
        Err(AllocError) => Err(AllocError),
    }
}

// Whether a text of so many brackets has a fault.
fn is_too_deep(
    alloc: Global,
    count: usize,
    behind: &[u8],
    fault: &str,
) -> Result<bool, AllocError> {
    match repeated(alloc, "(", count, behind) {
        Ok(found) => Ok(found == fault),
        Err(AllocError) => Err(AllocError),
    }
}

#[test]
fn bytes_come_before_nesting_and_nesting_before_signs(rt: HostRuntime) -> Told {
    let alloc = rt.alloc();
    holds(is_refused(alloc, b"\xff", "P1"), "a byte")
        .and(holds(is_refused(alloc, b"a\xed\xa0\x80", "P1"), "half of a pair"))
        .and(holds(is_too_deep(alloc, 65, b"1", "P4"), "65 brackets"))
        .and(holds(is_too_deep(alloc, 64, b"1(", "P2"), "64 brackets"))
        .and(holds(
            is_too_deep(alloc, 65, b"\xff", "P1"),
            "65 brackets and a byte",
        ))
}
