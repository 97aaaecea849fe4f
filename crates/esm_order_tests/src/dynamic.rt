// Worked sites with `import()`.
use crate::orders::{Table, orders_hold};
use esm_sites::Told;

/// Modules that load, or are there.
const LOADS: &str = r#"== a module that nobody has asked for
-- main.js
print("m1"); const n = await import("./a.js"); print(n.x, n);
-- a.js
export const x = "1"; print("a");
>> Fulfilled
m1
a
1 [module x]

== a module that is evaluated
-- main.js
import "./a.js";await import("./a.js");print("m");
-- a.js
print("a");
>> Fulfilled
a
m

== a module that is evaluated gives the namespace that an import names
-- main.js
import * as n from "./a.js"; const k = await import("./a.js"); print(n === k);
-- a.js
>> Fulfilled
true

== a promise is shown
-- main.js
print(import("./a.js"));
-- a.js
print("a");
>> Fulfilled
[promise]
a

== each call gives a promise of its own
-- main.js
const p = import("./a.js"); print(p === p, p === import("./a.js"));
-- a.js
print("a");
>> Fulfilled
true false
a

== a module that is loading
-- main.js
import("./a.js"); import("./a.js");print("m");
-- a.js
print("a");
>> Fulfilled
m
a

== a module that is loading, by another spelling
-- main.js
const p = await import("./a.js"); const q = await import("././a.js"); print(p === q);
-- a.js
print("a");
>> Fulfilled
a
true

== an import that nobody awaits
-- main.js
import("./a.js");print("m");
-- a.js
print("a1");await undefined;print("a2");
>> Fulfilled
m
a1
a2

== an import waits for the awaits of its module
-- main.js
print("m1");await import("./a.js");print("m2");
-- a.js
print("a1");await undefined;print("a2");
>> Fulfilled
m1
a1
a2
m2"#;

/// Modules that lead to themselves.
const CIRCLES: &str = r#"== the entry imports itself and waits for itself
-- main.js
print("m1");await import("./main.js");print("m2");
>> Unsettled
m1
Unsettled

== the entry imports itself and does not wait
-- main.js
import("./main.js");print("m");
>> Fulfilled
m

== a dependency waits for the entry
-- main.js
import "./a.js";print("m");
-- a.js
print("a1");await import("./main.js");print("a2");
>> Unsettled
a1
Unsettled

== a dependency imports the entry and does not wait
-- main.js
import "./a.js";print("m");
-- a.js
import("./main.js");print("a");
>> Fulfilled
a
m

== two modules wait for each other
-- main.js
await import("./a.js");print("m");
-- a.js
print("a");await import("./b.js");
-- b.js
print("b");await import("./a.js");
>> Unsettled
a
b
Unsettled"#;

/// Files and texts that fail, and specifiers.
const MISSING: &str = r#"== a file that is missing
-- main.js
await import("./no.js");
>> EntryFailed
Uncaught TypeError: cannot fetch https://a.test/no.js

== a file that is missing is caught
-- main.js
try { await import("./no.js"); } catch (e) { print(e); }print("m");
>> Fulfilled
TypeError: cannot fetch https://a.test/no.js
m

== a file that is missing has an error for each import
-- main.js
let e; let f; try { await import("./no.js"); } catch (x) { e = x; } try { await import("./no.js"); } catch (x) { f = x; } print(e === f, e.message === f.message);
>> Fulfilled
false true

== a broken text has one error
-- main.js
let e; let f; try { await import("./b.js"); } catch (x) { e = x; } try { await import("./b.js"); } catch (x) { f = x; } print(e === f, e);
-- b.js
const
>> Fulfilled
true SyntaxError: https://a.test/b.js: P2 no module text

== a broken text below what is imported has that error too
-- main.js
let e; let f; try { await import("./b.js"); } catch (x) { e = x; } try { await import("./a.js"); } catch (x) { f = x; } print(e === f);
-- a.js
import "./b.js";print("a");
-- b.js
const
>> Fulfilled
true

== a specifier that is not mapped
-- main.js
try { await import("x"); } catch (e) { print(e); }
>> Fulfilled
TypeError: https://a.test/main.js: specifier x: S4 bare and not mapped

== a specifier that is not mapped, below what is imported
-- main.js
try { await import("./a.js"); } catch (e) { print(e); }
-- a.js
import "x";
>> Fulfilled
TypeError: https://a.test/a.js: specifier x: S4 bare and not mapped

== a URL of 8,192 bytes is asked for, and one of a byte more isn't
-- main.js
const a = "x", b = a + a, c = b + b, d = c + c, f = d + d, g = f + f, h = g + g, i = h + h, j = i + i, k = j + j, l = k + k, m = l + l, n = m + m; const most = n + m + l + k + j + i + h + g + f + a; try { await import("./" + most); } catch (e) { print(e.message === "cannot fetch https://a.test/" + most); } try { await import("./" + most + "x"); } catch (e) { print(e.message === "https://a.test/main.js: specifier ./" + most + "x: S5 no usable URL"); }
>> Fulfilled
true
true

== undefined is a specifier
-- main.js
try { await import(undefined); } catch (e) { print(e); }
>> Fulfilled
TypeError: https://a.test/main.js: specifier undefined: S4 bare and not mapped

== a value that is no text rejects the promise
-- main.js
function f(){} const p = import(f); print(p);try { await p; } catch (e) { print(e); }
>> Fulfilled
[promise]
TypeError: cannot convert to text

== the operand throws
-- main.js
try { import(x); } catch (e) { print(e); }
>> Fulfilled
ReferenceError: x is not defined"#;

/// Links and bodies that fail.
const FAILURES: &str = r#"== a name that is missing
-- main.js
try { await import("./a.js"); } catch (e) { print(e); }print("m");
-- a.js
import {q} from "./b.js";
-- b.js
>> Fulfilled
SyntaxError: https://a.test/a.js: no export q in https://a.test/b.js
m

== a name that is missing has an error for each import
-- main.js
let e; let f; try { await import("./a.js"); } catch (x) { e = x; } try { await import("./a.js"); } catch (x) { f = x; } print(e === f);
-- a.js
import {q} from "./b.js";
-- b.js
>> Fulfilled
false

== a name that is missing leaves its target linked
-- main.js
try { await import("./a.js"); } catch (e) { print(e); }await import("./b.js");print("m");
-- a.js
import {q} from "./b.js";
-- b.js
print("b");
>> Fulfilled
SyntaxError: https://a.test/a.js: no export q in https://a.test/b.js
b
m

== a body that throws has one error
-- main.js
let e; let f; try { await import("./a.js"); } catch (x) { e = x; } try { await import("./a.js"); } catch (x) { f = x; } print(e === f, e);
-- a.js
print("a");throw new Error("x");
>> Fulfilled
a
true Error: x

== an evaluation meets a module that was rejected
-- main.js
try { await import("./a.js"); } catch (e) { print(e); }try { await import("./b.js"); } catch (e) { print(e); }
-- a.js
print("a");throw "x";
-- b.js
import "./a.js";print("b");
>> Fulfilled
a
x
x

== an evaluation meets a module that was rejected behind an await
-- main.js
try { await import("./a.js"); } catch (e) { print(e); }try { await import("./b.js"); } catch (e) { print(e); }
-- a.js
print("a");await undefined;throw "x";
-- b.js
import "./a.js";print("b");
>> Fulfilled
a
x
x

== an evaluation meets a module that waits
-- main.js
const p = import("./a.js"); const q = import("./b.js"); await q;print("m");
-- a.js
print("a1");await import("./z.js");print("a2");
-- b.js
import "./a.js";print("b");
-- z.js
print("z");
>> Fulfilled
a1
z
a2
b
m

== an import of a module that waits
-- main.js
const p = import("./a.js"); const q = import("./b.js"); await q;print("m");
-- a.js
print("a1");await import("./z.js");print("a2");
-- b.js
await import("./a.js");print("b");
-- z.js
print("z");
>> Fulfilled
a1
z
a2
b
m

== an import that fails and that nobody awaits
-- main.js
import("./no.js");print("m");
>> Fulfilled
m

== a body that throws and that nobody awaits
-- main.js
import("./a.js");print("m");
-- a.js
print("a");throw "x";
>> Fulfilled
m
a"#;

/// Loads side by side.
const SIDE_BY_SIDE: &str = r#"== the entry fails while an import goes on
-- main.js
import("./a.js"); throw "x";
-- a.js
print("a");
>> EntryFailed
a
Uncaught x

== a function of another module imports against its own URL
-- main.js
import {f} from "./d/a.js"; await f();print("m");
-- d/a.js
export function f(){ return import("./b.js"); }
-- d/b.js
print("d/b");
-- b.js
print("b");
>> Fulfilled
d/b
m

== two loads share a module that is missing
-- main.js
const p = import("./a.js"); const q = import("./b.js");try { await p; } catch (e) { print(e); }try { await q; } catch (e) { print(e); }print("m");
-- a.js
import "./no.js";print("a");
-- b.js
import "./no.js";print("b");
>> Fulfilled
TypeError: cannot fetch https://a.test/no.js
TypeError: cannot fetch https://a.test/no.js
m"#;

/// Promises as values.
const PROMISES: &str = r#"== three jobs between an import() and the body behind its await
-- main.js
import "./x.js";import "./t.js";print("m");
-- x.js
import "./a.js";print("x1");await import("./a.js");print("x2");
-- a.js
print("a");
-- t.js
print("t1");await undefined;print("t2");await undefined;print("t3");await undefined;print("t4");await undefined;print("t5");await undefined;print("t6");await undefined;print("t7");await undefined;print("t8");await undefined;print("t9");
>> Fulfilled
a
x1
t1
t2
t3
x2
t4
t5
t6
t7
t8
t9
m

== a member of a promise
-- main.js
try { import("./a.js").x; } catch (e) { print(e); }
-- a.js
print("a");
>> Fulfilled
TypeError: no members
a

== a promise is no operand
-- main.js
try { "a" + import("./a.js"); } catch (e) { print(e); }
-- a.js
print("a");
>> Fulfilled
TypeError: bad operands
a

== a promise is true
-- main.js
if (import("./a.js")) { print("m"); }
-- a.js
print("a");
>> Fulfilled
m
a

== a promise is awaited twice
-- main.js
const p = import("./a.js"); const n = await p; const k = await p; print(n === k);
-- a.js
print("a");
>> Fulfilled
a
true

== a rejected promise is awaited twice
-- main.js
const p = import("./no.js"); let e; try { await p; } catch (x) { e = x; } try { await p; } catch (x) { print(e === x); }
>> Fulfilled
true"#;

/// What an import reaches.
const REACHES: &str = r#"== a live binding by a namespace that was imported
-- main.js
const n = await import("./a.js"); print(n.x); n.set("2"); print(n.x);
-- a.js
export let x = "1"; export function set(v){ x = v; }
>> Fulfilled
1
2

== an import in a function that nobody calls
-- main.js
function f(){ return import("./no.js"); }print("m");
>> Fulfilled
m

== a module is imported from what it imports
-- main.js
import "./a.js";print("m");
-- a.js
export function f(){ return import("./b.js"); }f();print("a");
-- b.js
import "./a.js";print("b");
>> Fulfilled
a
m
b

== an import of an import
-- main.js
await import("./a.js");print("m");
-- a.js
print("a1");await import("./b.js");print("a2");
-- b.js
print("b1");await import("./c.js");print("b2");
-- c.js
print("c");
>> Fulfilled
a1
b1
c
b2
a2
m"#;

/// Sites whose run depends on the order in which their fetches end, with all orders of each. Each run ends Fulfilled: behind
/// `>> ` stands what is delivered, in order, and on the lines below what is written then; first the order of asking.
pub const RACES: &str = r#"== two files that nothing else imports
-- main.js
const p = import("./a.js"); const q = import("./b.js"); await p; await q;
-- a.js
print("A");
-- b.js
print("B");
>> main.js a.js b.js
A
B
>> main.js b.js a.js
B
A

== two loads share a module that is not there yet
-- main.js
import("./a.js"); import("./b.js");print("m");
-- a.js
import "./c.js";print("a");
-- b.js
import "./c.js";print("b");
-- c.js
print("c");
>> main.js a.js b.js c.js
m
c
a
b
>> main.js a.js c.js b.js
m
c
a
b
>> main.js b.js a.js c.js
m
c
b
a
>> main.js b.js c.js a.js
m
c
b
a

== a load fails while another goes on
-- main.js
const p = import("./a.js"); const q = import("./b.js");try { await p; } catch (e) { print(e); }await q;print("m");
-- a.js
import "./no.js";print("a");
-- b.js
print("b");
>> main.js a.js b.js no.js
b
TypeError: cannot fetch https://a.test/no.js
m
>> main.js a.js no.js b.js
TypeError: cannot fetch https://a.test/no.js
b
m
>> main.js b.js a.js no.js
b
TypeError: cannot fetch https://a.test/no.js
m"#;

const TABLES: &[Table] = &[
    (LOADS, 9),
    (CIRCLES, 5),
    (MISSING, 11),
    (FAILURES, 14),
    (SIDE_BY_SIDE, 6),
    (PROMISES, 8),
    (REACHES, 4),
];

#[test]
fn calls_import(rt: HostRuntime) -> Told {
    orders_hold(&rt, rt.alloc(), TABLES)
}
