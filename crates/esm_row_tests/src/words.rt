// What a row does, in words: its operations in the order in which they are done.
use esm_base::Memory;
use esm_rows::{Op, Row};
use std::alloc::Global;

// An operation without numbers.
fn put(out: &mut String, word: &str) -> Result<(), Memory> {
    out.push_str(word)?;
    out.push_str("; ")?;
    Ok(())
}

// One with a number.
fn put_one(alloc: Global, out: &mut String, word: &str, n: u32) -> Result<(), Memory> {
    let text = format!(in alloc; "{word} {n}; ")?;
    out.push_str(text.as_str())?;
    Ok(())
}

// One with two.
fn put_two(alloc: Global, out: &mut String, word: &str, n: u32, m: u32) -> Result<(), Memory> {
    let text = format!(in alloc; "{word} {n} {m}; ")?;
    out.push_str(text.as_str())?;
    Ok(())
}

// The text at this place of a row, or nothing where there is none.
fn text_at(row: &Row, at: u32) -> &str {
    match row.texts.get(at as usize) {
        Some(text) => text.as_str(),
        None => "",
    }
}

// One with a text.
fn put_text(alloc: Global, out: &mut String, word: &str, row: &Row, at: u32) -> Result<(), Memory> {
    let name = text_at(row, at);
    let text = format!(in alloc; "{word} {name}; ")?;
    out.push_str(text.as_str())?;
    Ok(())
}

// One with a place and a name.
fn put_place(
    alloc: Global,
    out: &mut String,
    word: &str,
    row: &Row,
    n: u32,
    at: u32,
) -> Result<(), Memory> {
    let name = text_at(row, at);
    let text = format!(in alloc; "{word} {n} {name}; ")?;
    out.push_str(text.as_str())?;
    Ok(())
}

// An operation that tells a place or a text.
fn put_told(alloc: Global, out: &mut String, row: &Row, op: Op) -> Result<(), Memory> {
    match op {
        Op::Text(at) => put_text(alloc, out, "text", row, at),
        Op::Local(n, at) => put_place(alloc, out, "local", row, n, at),
        Op::Name(at) => put_text(alloc, out, "name", row, at),
        Op::Member(at) => put_text(alloc, out, "member", row, at),
        Op::SetName(at) => put_text(alloc, out, "set", row, at),
        Op::WriteLocal(n, at) => put_place(alloc, out, "write", row, n, at),
        Op::WriteConstant(n, at) => put_place(alloc, out, "constant", row, n, at),
        Op::WriteName(at) => put_text(alloc, out, "write", row, at),
        _ => put(out, "other"),
    }
}

// An operation with numbers.
fn put_counted(alloc: Global, out: &mut String, row: &Row, op: Op) -> Result<(), Memory> {
    match op {
        Op::Own(n) => put_one(alloc, out, "own", n),
        Op::OrElse(n) => put_one(alloc, out, "or", n),
        Op::AndAlso(n) => put_one(alloc, out, "and", n),
        Op::Call(n) => put_one(alloc, out, "call", n),
        Op::Print(n) => put_one(alloc, out, "print", n),
        Op::SetLocal(n) => put_one(alloc, out, "set", n),
        Op::Choose(n) => put_one(alloc, out, "choose", n),
        Op::Enter(n) => put_one(alloc, out, "enter", n),
        Op::Leave(n, m) => put_two(alloc, out, "leave", n, m),
        Op::Try(n, m) => put_two(alloc, out, "try", n, m),
        Op::EndTry(n, m) => put_two(alloc, out, "endtry", n, m),
        Op::Caught(n) => put_one(alloc, out, "caught", n),
        Op::CaughtUnnamed(n) => put_one(alloc, out, "unnamed", n),
        _ => put_told(alloc, out, row, op),
    }
}

// Any operation.
fn put_op(alloc: Global, out: &mut String, row: &Row, op: Op) -> Result<(), Memory> {
    match op {
        Op::Step => put(out, "step"),
        Op::Truth(true) => put(out, "true"),
        Op::Truth(false) => put(out, "false"),
        Op::Undefined => put(out, "undefined"),
        Op::Url => put(out, "url"),
        Op::Compare(true) => put(out, "same"),
        Op::Compare(false) => put(out, "differs"),
        Op::Add => put(out, "add"),
        Op::Not => put(out, "not"),
        Op::NewError => put(out, "error"),
        Op::Import => put(out, "import"),
        Op::Drop => put(out, "drop"),
        Op::Throw => put(out, "throw"),
        Op::Return => put(out, "return"),
        Op::End => put(out, "end"),
        _ => put_counted(alloc, out, row, op),
    }
}

/// The row in words: how many parameters and names it has, and its operations.
pub fn words_of(alloc: Global, row: &Row) -> Result<String, Memory> {
    let parameters = row.parameters;
    let names = row.names;
    let mut out = format!(in alloc; "{parameters} {names}: ")?;
    for at in (0..row.ops.len()).rev() {
        put_op(alloc, &mut out, row, row.ops[at])?;
    }
    Ok(out)
}
