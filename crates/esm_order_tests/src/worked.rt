// Worked sites of each kind, each run in every order in which its fetches may end.
use crate::orders::{Table, orders_hold};
use esm_sites::{SITES, Told};

// Names that another module declares.
const LIVE: &str = r#"== a live binding is read at that moment
-- main.js
import {x, bump} from "./c.js"; print(x); bump(); print(x);
-- c.js
export let x = "1"; export function bump() { x = "2"; }
>> Fulfilled
1
2

== a name is unset before its declaration has run
-- main.js
import "./b.js"; export const a = "A"; print(a);
-- b.js
import {a} from "./main.js"; print(a);
>> EntryFailed
Uncaught ReferenceError: a is not initialized

== a function can be called before its module has run
-- main.js
import "./b.js"; export function f() { return "early"; } print("m");
-- b.js
import {f} from "./main.js"; print(f());
>> Fulfilled
early
m"#;

// Names behind `export *` and `export .. from`.
const STARS: &str = r#"== a name that two stars export is ambiguous
-- main.js
import {x} from "./s.js"; print(x);
-- s.js
export * from "./a.js"; export * from "./b.js";
-- a.js
export const x = "a";
-- b.js
export const x = "b";
>> EntryFailed
Uncaught SyntaxError: https://a.test/main.js: export x in https://a.test/s.js is ambiguous

== two stars may lead to one binding
-- main.js
import {x} from "./s.js"; print(x);
-- s.js
export * from "./a.js"; export * from "./b.js";
-- a.js
export * from "./c.js";
-- b.js
export * from "./c.js";
-- c.js
export const x = "c";
>> Fulfilled
c

== a star passes no default on
-- main.js
import d from "./s.js"; print(d);
-- s.js
export * from "./d.js";
-- d.js
export default "v";
>> EntryFailed
Uncaught SyntaxError: https://a.test/main.js: no export default in https://a.test/s.js

== two modules export a name of each other that neither has
-- main.js
import {x} from "./a.js";
-- a.js
export {x} from "./b.js";
-- b.js
export {x} from "./a.js";
>> EntryFailed
Uncaught SyntaxError: https://a.test/b.js: no binding for export x

== a name that two stars export can't be exported by another name
-- main.js
import "./k.js";
-- k.js
export {x as y} from "./s.js";
-- s.js
export * from "./a.js"; export * from "./b.js";
-- a.js
export const x = "a";
-- b.js
export const x = "b";
>> EntryFailed
Uncaught SyntaxError: https://a.test/k.js: binding for export y is ambiguous

== one namespace behind two stars is one binding
-- main.js
import {n} from "./s.js"; print(n);
-- s.js
export * from "./a.js"; export * from "./b.js";
-- a.js
export * as n from "./c.js";
-- b.js
export * as n from "./c.js";
-- c.js
export const x = "c";
>> Fulfilled
[module x]

== a namespace and a name that is bound to it are two bindings
-- main.js
import {n} from "./s.js"; print(n);
-- s.js
export * from "./a.js"; export * from "./b.js";
-- a.js
import * as n from "./c.js"; export {n};
-- b.js
export * as n from "./c.js";
-- c.js
export const x = "c";
>> EntryFailed
Uncaught SyntaxError: https://a.test/main.js: export n in https://a.test/s.js is ambiguous"#;

// Keys of namespaces.
const KEYS: &str = r#"== keys of a namespace come through stars too
-- main.js
import * as n from "./a.js"; print(n);
-- a.js
export * from "./b.js"; export const z = "z"; export function f() { g(); }
-- b.js
export const y = "y"; export default "d";
>> Fulfilled
[module f, y, z]

== a name behind two stars is one key
-- main.js
import * as n from "./s.js"; print(n);
-- s.js
export * from "./a.js"; export * from "./b.js";
-- a.js
export * from "./c.js";
-- b.js
export * from "./c.js";
-- c.js
export const x = "c";
>> Fulfilled
[module x]

== an import is exported by another name
-- main.js
import * as n from "./m.js"; print(n);
-- m.js
import {a} from "./a.js"; export {a as b};
-- a.js
export const a = "a";
>> Fulfilled
[module b]"#;

// Small bodies.
const BODIES: &str = r#"== two URLs that differ behind # are two modules
-- main.js
import "./t.js#1"; import "./t.js#2";
-- t.js#1
print(import.meta.url);
-- t.js#2
print(import.meta.url);
>> Fulfilled
https://a.test/t.js#1
https://a.test/t.js#2

== a name that nothing declares
-- main.js
let t = "x"; t = u; 
>> EntryFailed
Uncaught ReferenceError: u is not defined

== a constant is written
-- main.js
const c = "x"; c = "y";
>> EntryFailed
Uncaught TypeError: c is constant

== an error with an empty message
-- main.js
print(new Error(""));
>> Fulfilled
Error

== a text and a truth value are joined
-- main.js
print("a" + true);
>> Fulfilled
atrue

== a call gives what its function returns
-- main.js
function f(x) { return "y"; } print(f("x"));
>> Fulfilled
y

== a throw ends the entry
-- main.js
throw "x";
>> EntryFailed
Uncaught x

== a function that calls itself without end
-- main.js
function f() { f(); } f();
>> EntryFailed
Uncaught RangeError: call depth

== a text of 65,536 bytes
-- main.js
let t = "x";t = t + t;t = t + t;t = t + t;t = t + t;t = t + t;t = t + t;t = t + t;t = t + t;t = t + t;t = t + t;t = t + t;t = t + t;t = t + t;t = t + t;t = t + t;t = t + t;
>> Fulfilled

== a text of twice as many bytes
-- main.js
let t = "x";t = t + t;t = t + t;t = t + t;t = t + t;t = t + t;t = t + t;t = t + t;t = t + t;t = t + t;t = t + t;t = t + t;t = t + t;t = t + t;t = t + t;t = t + t;t = t + t;t = t + t;
>> EntryFailed
Uncaught RangeError: text length"#;

// Characters that are written as escapes here: a mark of the byte order, and two names of which the one with the greater
// code point has the smaller code units.
const ESCAPED: &str = "\
== a mark of the byte order and a line of #!
-- main.js
\u{FEFF}#!/usr/bin/env esm
print(import.meta.url)
>> Fulfilled
https://a.test/main.js

== keys of a namespace stand in the order of code units
-- main.js
import * as ns from \"./k.js\"; print(ns);
-- k.js
export const \u{FF21} = \"1\"; export const \u{10400} = \"2\";
>> Fulfilled
[module \u{10400}, \u{FF21}]";

// Texts that are nested, and two that are no module.
const NESTED: &str = r#"== blocks within blocks
-- main.js
{{{"a"}}}
>> Fulfilled

== 64 brackets
-- main.js
(((((((((((((((((((((((((((((((((((((((((((((((((((((((((((((((("a"))))))))))))))))))))))))))))))))))))))))))))))))))))))))))))))))
>> Fulfilled

== 64 signs of not
-- main.js
!!!!!!!!!!!!!!!!!!!!!!!!!!!!!!!!!!!!!!!!!!!!!!!!!!!!!!!!!!!!!!!!true
>> Fulfilled

== 65 brackets
-- main.js
((((((((((((((((((((((((((((((((((((((((((((((((((((((((((((((((("a")))))))))))))))))))))))))))))))))))))))))))))))))))))))))))))))))
>> EntryFailed
Uncaught SyntaxError: https://a.test/main.js: P4 nested too deep

== 65 signs of not
-- main.js
!!!!!!!!!!!!!!!!!!!!!!!!!!!!!!!!!!!!!!!!!!!!!!!!!!!!!!!!!!!!!!!!!true
>> EntryFailed
Uncaught SyntaxError: https://a.test/main.js: P4 nested too deep

== a line ends behind throw
-- main.js
throw
a
>> EntryFailed
Uncaught SyntaxError: https://a.test/main.js: P2 no module text

== a number
-- main.js
1
>> EntryFailed
Uncaught SyntaxError: https://a.test/main.js: P2 no module text"#;

// Modules that await.
const WAITS: &str = r#"== two bodies await side by side
-- main.js
import "./a.js"; import "./b.js"; print("m");
-- a.js
print("a1"); await undefined; print("a2");
-- b.js
print("b1"); await undefined; print("b2");
>> Fulfilled
a1
b1
a2
b2
m

== modules that wait for one go on in the order in which they came to wait
-- main.js
import "./p1.js"; import "./p2.js"; import "./r.js"; print("main");
-- p1.js
import "./l.js"; print("p1");
-- p2.js
import "./l.js"; print("p2");
-- r.js
import "./p1.js"; print("r");
-- l.js
await undefined; print("l");
>> Fulfilled
l
p1
p2
r
main

== one target under two spellings is waited for
-- main.js
import "./t.js"; import "././t.js"; print("m");
-- t.js
await undefined; print("t");
>> Fulfilled
t
m

== what fails behind an await holds up no other body
-- main.js
import "./a.js"; import "./b.js"; print("m");
-- a.js
await undefined; throw new Error("boom");
-- b.js
await undefined; print("b");
>> EntryFailed
b
Uncaught Error: boom

== an await between two prints
-- main.js
print("a"); await undefined; print("b");
>> Fulfilled
a
b

== a cycle of two that await
-- main.js
import "./m1.js";
import "./m2.js";
import "./m1.js";
await undefined;
print("0");

-- m1.js
import "./m2.js";
await undefined;
print("1");

-- m2.js
import "./m1.js";
print("2");

>> Fulfilled
2
1
0"#;

// Sites with `import()`.
const IMPORTS: &str = r#"== a module that awaits what imports it is never settled
-- main.js
print("1"); await import("./b.js"); print("2");
-- b.js
import "./main.js"; print("b");
>> Unsettled
1
Unsettled

== a body that has thrown isn't run again
-- main.js
try { await import("./t.js"); } catch (e) { print(e); } try { await import("./t.js"); } catch (e) { print(e); } 
-- t.js
print("t"); throw new Error("x");
>> Fulfilled
t
Error: x
Error: x

== a missing file is caught
-- main.js
try { await import("./none.js"); } catch (e) { print(e); } print("after");
>> Fulfilled
TypeError: cannot fetch https://a.test/none.js
after

== two calls give two promises and run one body
-- main.js
const p = import("./t.js"); const q = import("./t.js"); print(await p); print(p === q);
-- t.js
print("t"); export const k = "k";
>> Fulfilled
t
[module k]
false

== a module that failed within another evaluation
-- main.js
try { await import("./a.js"); } catch (e) { print(e); } try { await import("./t.js"); } catch (e) { print(e); }
-- a.js
import "./t.js"; print("a");
-- t.js
throw new Error("x");
>> Fulfilled
Error: x
Error: x

== the body goes on while a file is fetched
-- main.js
const p = import("./a.js"); await undefined; print("m"); await p;
-- a.js
print("A");
>> Fulfilled
m
A"#;

const TABLES: &[Table] = &[
    (SITES, 17),
    (LIVE, 3),
    (STARS, 18),
    (KEYS, 6),
    (BODIES, 11),
    (ESCAPED, 2),
    (NESTED, 7),
    (WAITS, 24),
    (IMPORTS, 6),
];

#[test]
fn worked_sites_run(rt: HostRuntime) -> Told {
    orders_hold(&rt, rt.alloc(), TABLES)
}
