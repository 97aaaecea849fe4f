// Each call once, with ample memory: no clause says that it doesn't run out.
use crate::rows::{made, number_of, tree_of};
use esm_base::{Memory, ModuleId, Text};
use esm_env::{Envs, Read, Target, Wrote};
use esm_values::{RcText, Value};
use std::alloc::Global;

// Its names are declared, and its initializer doesn't run.
const MODULE: &str = "export let x; const y = x;";

fn text(alloc: Global, text: &str) -> Result<Value, Memory> {
    Ok(Value::Text(RcText::copy(alloc, text)?))
}

// Makes two modules, of which the second has imported `x` of the first as `i`.
fn make_two(alloc: Global, envs: &mut Envs) -> Result<(), Memory> {
    made(alloc, envs, tree_of(alloc, MODULE)?)?;
    let local = Text::copy(alloc, "i")?;
    let of = Text::copy(alloc, "x")?;
    let mut imports = Vec::new(alloc);
    imports.push((local, Target::Cell(ModuleId(0), of)))?;
    let tree = tree_of(alloc, MODULE)?;
    envs.make_module(alloc, ModuleId(1), tree, imports)
}

// Whether this was read: a text, `unset` or `undeclared`.
fn tells(read: Read<'_>, text: &str) -> bool {
    match read {
        Read::Value(value) => match value {
            Value::Text(value) => value.as_str() == text,
            _ => false,
        },
        Read::Unset => text == "unset",
        Read::Undeclared => text == "undeclared",
    }
}

fn wrote(wrote: Wrote) -> &'static str {
    match wrote {
        Wrote::Done => "done",
        Wrote::Unset => "unset",
        Wrote::Constant => "constant",
        Wrote::Undeclared => "undeclared",
    }
}

// Whether a call that changes nothing answers so.
fn is_so(envs: &Envs, call: &str, m: ModuleId, of: &str, answer: &str) -> bool {
    let place = number_of(of) as usize;
    if call == "read" {
        tells(envs.read(m, of), answer)
    } else if call == "value" {
        tells(envs.value(m, place), answer)
    } else if call == "name" {
        envs.name_at(m, place) == answer
    } else if call == "place" {
        match envs.place(m, of) {
            Some(place) => place == number_of(answer) as usize,
            None => answer == "none",
        }
    } else {
        false
    }
}

// Does a call of a row, with what stands behind its `=` as the value, and tells whether it answers so.
fn answers(
    alloc: Global,
    envs: &mut Envs,
    call: &str,
    m: ModuleId,
    of: &str,
    answer: &str,
) -> Result<bool, Memory> {
    let (name, value) = of.split_once('=').unwrap_or((of, ""));
    if call == "initialise" {
        envs.initialise(m, name, text(alloc, value)?);
        Ok(answer == "done")
    } else if call == "write" {
        Ok(wrote(envs.write(m, name, text(alloc, value)?)) == answer)
    } else if call == "write_at" {
        let place = number_of(name) as usize;
        Ok(wrote(envs.write_at(m, place, text(alloc, value)?)) == answer)
    } else {
        Ok(is_so(envs, call, m, name, answer))
    }
}

// Whether the call of a row answers as the row says.
fn is_row_so(alloc: Global, envs: &mut Envs, row: &str) -> Result<bool, Memory> {
    let (asked, answer) = row.split_once(" | ").unwrap_or((row, ""));
    let (call, rest) = asked.split_once(' ').unwrap_or((asked, ""));
    let (m, of) = rest.split_once(' ').unwrap_or((rest, ""));
    answers(alloc, envs, call, ModuleId(number_of(m)), of, answer)
}

// A call, the module, and a name or a place; and what it answers.
const NAMES: &str = "\
read 0 x | unset
write 0 x=0 | unset
initialise 0 x=1 | done
read 0 x | 1
write 0 x=2 | done
read 1 i | 2
read 1 x | unset
write 1 i=3 | constant
initialise 0 y=4 | done
write 0 y=5 | constant
read 0 z | undeclared
write 0 z=6 | undeclared";

const PLACES: &str = "\
place 0 x | 0
place 0 y | 1
place 0 z | none
name 0 1 | y
name 0 2 | \n\
value 0 0 | unset
write_at 0 0=0 | unset
initialise 0 x=1 | done
write_at 0 0=2 | done
value 0 0 | 2
initialise 0 y=3 | done
write_at 0 1=4 | constant
value 0 1 | 3";

// The first row of a table whose call answers otherwise, if there is one.
fn wrong_row(
    alloc: Global,
    envs: &mut Envs,
    table: &'static str,
) -> Result<Option<&'static str>, Memory> {
    make_two(alloc, envs)?;
    for row in table.lines() {
        if !is_row_so(alloc, envs, row)? {
            return Ok(Some(row));
        }
    }
    Ok(None)
}

#[test]
fn names_are_set_and_written(rt: HostRuntime) -> Result<(), Memory> {
    let alloc = rt.alloc();
    assert_eq!(rt; wrong_row(alloc, &mut Envs::new(alloc), NAMES)?, None);
    assert_eq!(rt; wrong_row(alloc, &mut Envs::new(alloc), PLACES)?, None);
    assert!(rt; NAMES.lines().count() == 12 && PLACES.lines().count() == 13);
    Ok(())
}
