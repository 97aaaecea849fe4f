// Rows of functions, each worked out by hand from what the statements do.
ghost use Rattle.std.specs.Prelude.{◌<◌, ◌^◌, length, IfOk, IsTrue};
ghost use Rattle.std.specs.Arc.{arc_value};

use crate::words::words_of;
use esm_ast::Script;
use esm_base::{Memory, ModuleId};
use esm_env::Envs;
use esm_rows::lower;
use esm_script::read_script;
use esm_tree::Tree;
use std::alloc::Global;
use std::sync::Arc;

// The number of a function, the text of its module, and behind ` => ` what its row does, in words. A line of `#` says what the
// rows below it show.
const ROWS: &str = r#"# Expressions
0 function f(a, b) { return a + b || "no"; } => 2 0: step; local 0 a; local 1 b; add; or 2; text no; return; end;
0 function f(a) { return a && (a !== undefined) && true; } => 1 0: step; local 0 a; and 2; local 0 a; undefined; differs; and 2; true; return; end;
0 function f(a) { g(a, !a)().message.name; } => 1 0: step; name g; local 0 a; local 0 a; not; call 2; call 0; member message; member name; drop; end;
0 function f() { print("a", import.meta.url); throw new Error("b"); } => 0 0: step; text a; url; print 2; drop; step; text b; error; throw; end;
0 function f() { return (new Error()) === import("x"); } => 0 0: step; undefined; error; text x; import; same; return; end;
0 export default function () { return; } => 0 0: step; undefined; return; end;
0 function f() { return false; ; } => 0 0: step; false; return; step; end;
# Statements
0 let z = "1"; function f(x) { if (x === "a") { const y = x; return y; } else { z = x; } } => 1 0: step; local 0 x; text a; same; choose 6; enter 1; step; local 0 x; set 1; step; local 1 y; return; leave 1 1; enter 0; step; local 0 x; write z; leave 0 1; end;
0 function f() { try { throw "a"; } catch (e) { let d = e; print(d); } } => 0 0: step; try 0 10; step; text a; throw; endtry 0 1; caught 1; step; local 0 e; set 1; step; local 1 d; print 1; drop; leave 2 1; end;
0 function f() { try { let a; } catch { return; } f(); } => 0 0: step; try 1 10; step; undefined; set 0; endtry 1 5; unnamed 0; step; undefined; return; leave 0 5; step; own 0; call 0; drop; end;
0 function f(a) { let b = a; { let a = b; b = a; } if (a) { } } => 1 1: step; local 0 a; set 1; step; enter 1; step; local 1 b; set 2; step; local 2 a; write 1 b; leave 1 8; step; local 0 a; choose 3; enter 0; leave 0 1; enter 0; leave 0 1; end;
0 function f() { const c = "x", d = c; c = d; } => 0 2: step; text x; set 0; local 0 c; set 1; step; local 1 d; constant 0 c; end;
# The names of a module are those of its statements, then its functions
0 let a = "1"; const b = a, c = a; function f(d) { return b + d + f + g; } => 1 0: step; own 1; local 0 d; add; own 3; add; name g; add; return; end;
0 export function f(a) { const f = a; return f; } let a; => 1 1: step; local 0 a; set 1; step; local 1 f; return; end;
0 import { i as j } from "m"; function f() { return j; } let i; => 0 0: step; name j; return; end;
0 function f() { a = a; return g().a; } let a; function g() { } => 0 0: step; own 0; write a; step; own 2; call 0; member a; return; end;
# Of up to sixteen names of a block one is looked for one by one, of more by an index
0 function f(a, b, c, d, e, g, h, i, j, k, l, m, n, o, p, q) { return a + q + r; } => 16 0: step; local 0 a; local 15 q; add; name r; add; return; end;
0 function f(a, b, c, d, e, g, h, i, j, k, l, m, n, o, p, q, r) { return a + q + r + s; } => 17 0: step; local 0 a; local 15 q; add; local 16 r; add; name s; add; return; end;
0 function f(p0, p1, p2, p3, p4, p5, p6, p7, p8, p9, p10, p11, p12, p13, p14, p15, p16, p17, p18, p19, p20, p21, p22, p23, p24, p25, p26, p27, p28, p29, p30, p31, p32, p33, p34, p35, p36, p37) { const y = p16, z = y; { let p0 = z; p0 = p37; z = p0; } return p0; } => 38 2: step; local 16 p16; set 38; local 38 y; set 39; step; enter 1; step; local 39 z; set 40; step; local 37 p37; write 40 p0; step; local 40 p0; constant 39 z; leave 1 4; step; local 0 p0; return; end;
0 function f(z) { { let a, b, c, d, e, g, h, i, j, k, l, m, n, o, p, q, r = z; a = r; q = z; } } => 1 0: step; enter 17; step; undefined; set 1; undefined; set 2; undefined; set 3; undefined; set 4; undefined; set 5; undefined; set 6; undefined; set 7; undefined; set 8; undefined; set 9; undefined; set 10; undefined; set 11; undefined; set 12; undefined; set 13; undefined; set 14; undefined; set 15; undefined; set 16; local 0 z; set 17; step; local 17 r; write 1 a; step; local 0 z; write 16 q; leave 17 1; end;
# Functions are counted
0 print("a"); function f() { } export function g(a) { } let z; => 0 0: end;
1 print("a"); function f() { } export function g(a) { } let z; => 1 0: end;
2 print("a"); function f() { } export function g(a) { } let z; => none"#;

/// The script of a text.
pub fn read(alloc: Global, text: &str) -> Result<Script, Memory> {
    let text = String::from_str(alloc, text)?;
    match read_script(alloc, text.into_bytes()) {
        Ok(script) => Ok(script),
        Err(_refused) => Err(Memory),
    }
}

// Whether a tree has few items.
fn has_few(tree: &Tree) -> bool
    ensures { IsTrue result → length tree.now.items < 2 ^ 31 }
{
    tree.items().len() < 1000
}

// What the function with this number does, in words, or `none`.
fn told(alloc: Global, envs: &Envs, index: u32) -> Result<String, Memory> {
    match envs.scope(ModuleId(0)) {
        Some(scope) => match lower(alloc, scope, index)? {
            Some(row) => words_of(alloc, &row),
            None => Ok(String::from_str(alloc, "none")?),
        },
        None => Err(Memory),
    }
}

/// The tree of a text.
pub fn tree_of(alloc: Global, text: &str) -> Result<Arc<Tree>, Memory>
    ensures { IfOk result (λ t. length (arc_value t).items < 2 ^ 31) }
{
    let script = read(alloc, text)?;
    if has_few(script.tree()) {
        let tree = script.share_tree()?;
        Ok(tree)
    } else {
        Err(Memory)
    }
}

/// Makes a tree the first module.
pub fn made(alloc: Global, envs: &mut Envs, tree: Arc<Tree>) -> Result<(), Memory>
    requires { length (arc_value tree).items < 2 ^ 31 }
{
    envs.make_module(alloc, ModuleId(0), tree, Vec::new(alloc))
}

fn told_of(alloc: Global, envs: &mut Envs, tree: Arc<Tree>, index: u32) -> Result<String, Memory>
    requires { length (arc_value tree).items < 2 ^ 31 }
{
    made(alloc, envs, tree)?;
    told(alloc, envs, index)
}

// What the function with this number of a text does, in words.
fn row_told(alloc: Global, text: &str, index: u32) -> Result<String, Memory> {
    let tree = tree_of(alloc, text)?;
    told_of(alloc, &mut Envs::new(alloc), tree, index)
}

// Whether the function of a row does what the row says; a heading says nothing.
fn is_row_told(alloc: Global, row: &str) -> Result<bool, Memory> {
    let Some((of, expected)) = row.split_once(" => ") else {
        return Ok(row.starts_with('#'));
    };
    let (number, text) = of.split_once(' ').unwrap_or((of, ""));
    Ok(
        row_told(alloc, text, number_of(number))?
            .as_str()
            .trim_end()
            == expected,
    )
}

/// The first digit of a text, or a number that no function has.
pub fn number_of(text: &str) -> u32 {
    for c in text.chars() {
        if let Some(number) = c.to_digit(10) {
            return number;
        }
    }
    9
}

// The first row of `ROWS` whose function does otherwise, if there is one.
fn wrong_row(alloc: Global) -> Result<Option<&'static str>, Memory> {
    for row in ROWS.lines() {
        if !is_row_told(alloc, row)? {
            return Ok(Some(row));
        }
    }
    Ok(None)
}

// Twenty-three rows below five headings.
#[test]
fn functions_are_rows(rt: HostRuntime) -> Result<(), Memory> {
    assert_eq!(rt; wrong_row(rt.alloc())?, None);
    assert!(rt; ROWS.lines().count() == 28);
    Ok(())
}
