// Worked bodies: the order of evaluation, names, scopes and imports.
use crate::large_blocks::MANY;

/// The order of evaluation.
const ORDERS: &str = r#"== operands from left to right
-- main.js
function p(x){ print(x); return x; } p("a") + p("b") + p("c");
>> Fulfilled
a
b
c

== both sides of === are evaluated
-- main.js
function p(x){ print(x); return x; } p("a") === p("b");
>> Fulfilled
a
b

== arguments from left to right
-- main.js
function p(x){ print(x); return x; } function f(a,b){ return a + b; } print(f(p("1"),p("2")));
>> Fulfilled
1
2
12

== the callee comes before its arguments
-- main.js
function p(x){ print(x); return x; } function g(){ print("g"); return p; } g()(p("a"));
>> Fulfilled
g
a
a

== the operands come before the complaint
-- main.js
function p(x){ print(x); return x; } try { p(true) + p(false); } catch (e) { print(e); }
>> Fulfilled
true
false
TypeError: bad operands

== arguments come before the complaint on the callee
-- main.js
function p(x){ print(x); return x; } try { undefined(p("a")); } catch (e) { print(e); }
>> Fulfilled
a
TypeError: not a function

== further arguments are evaluated and dropped
-- main.js
function p(x){ print(x); return x; } function f(a){ return a; } print(f(p("a"),p("b")));
>> Fulfilled
a
b
a

== the right side comes before the write
-- main.js
function p(x){ print(x); return x; } const c = "1"; try { c = p("a"); } catch (e) { print(e); }
>> Fulfilled
a
TypeError: c is constant

== arguments of new Error come first
-- main.js
function p(x){ print(x); return x; } print(new Error(p("a")));
>> Fulfilled
a
Error: a

== a throw leaves later operands out
-- main.js
function p(x){ print(x); return x; } try { x + p("a"); } catch (e) { print(e); }
>> Fulfilled
ReferenceError: x is not defined"#;

/// Names before and behind their declarations.
const UNSET: &str = r#"== a name that nobody declares
-- main.js
print(a);
>> EntryFailed
Uncaught ReferenceError: a is not defined

== a const before its declaration
-- main.js
print(a); const a = "1";
>> EntryFailed
Uncaught ReferenceError: a is not initialized

== a let before its declaration
-- main.js
try { a; } catch (e) { print(e); } let a; print(a);
>> Fulfilled
ReferenceError: a is not initialized
undefined

== a const reads itself in its own declaration
-- main.js
const a = a;
>> EntryFailed
Uncaught ReferenceError: a is not initialized

== a declaration of two names
-- main.js
const a = "1", b = a + "2"; print(a, b);
>> Fulfilled
1 12

== a later name of a declaration is unset
-- main.js
try { f(); } catch (e) { print(e); } function f(){ return b; } const a = "1", b = "2"; print(f());
>> Fulfilled
ReferenceError: b is not initialized
2

== a let without a value is undefined
-- main.js
let a, b = "1"; print(a, b);
>> Fulfilled
undefined 1

== a function before its declaration
-- main.js
print(f()); function f(){ return "a"; }
>> Fulfilled
a"#;

/// Names that hide others.
const SHADOWS: &str = r#"== a block shadows
-- main.js
const a = "1"; { const a = "2"; print(a); } print(a);
>> Fulfilled
2
1

== an unset name of a block hides the outer one
-- main.js
const a = "1"; { try { print(a); } catch (e) { print(e); } const a = "2"; }
>> Fulfilled
ReferenceError: a is not initialized

== a block is left, and its names with it
-- main.js
{ let a = "1"; } print(a);
>> EntryFailed
Uncaught ReferenceError: a is not defined

== each call has names of its own
-- main.js
function f(n){ let y = n; if (n === "1") { f("2"); } y = y + "!"; print(y); } f("1");
>> Fulfilled
2!
1!

== a parameter hides a name of the module
-- main.js
const a = "1"; function f(a){ return a; } print(f("2"), a);
>> Fulfilled
2 1

== a missing argument is undefined
-- main.js
function f(a,b){ print(a,b); } f("1"); f();
>> Fulfilled
1 undefined
undefined undefined"#;

/// Names that are written.
const WRITES: &str = r#"== a parameter may be written
-- main.js
function f(a){ a = a + "b"; return a; } print(f("a"));
>> Fulfilled
ab

== a function name may be written
-- main.js
function f(){} f = "a"; print(f);
>> Fulfilled
a

== a let may be written from a function
-- main.js
let a = "1"; function f(){ a = "2"; } f(); print(a);
>> Fulfilled
2

== a const may not be written
-- main.js
const a = "1"; a = "2";
>> EntryFailed
Uncaught TypeError: a is constant

== an unset const is unset before it is constant
-- main.js
a = "2"; const a = "1";
>> EntryFailed
Uncaught ReferenceError: a is not initialized

== an unset let may not be written
-- main.js
a = "2"; let a = "1";
>> EntryFailed
Uncaught ReferenceError: a is not initialized

== an undeclared name may not be written
-- main.js
a = "2";
>> EntryFailed
Uncaught ReferenceError: a is not defined

== a body of a function sees what is set when it runs
-- main.js
function f(){ return a; } const a = "1"; print(f());
>> Fulfilled
1

== the names of a call are its own
-- main.js
function f(n,x){ const y = x; if (n) { f("", "2"); } print(y); } f("1","1");
>> Fulfilled
2
1"#;

/// Imports and exports.
const BINDINGS: &str = r#"== an import is live
-- main.js
import {a, set} from "./a.js"; print(a); set("2"); print(a);
-- a.js
export let a = "1"; export function set(x){ a = x; }
>> Fulfilled
1
2

== a function reads a live import
-- main.js
import {a, set} from "./a.js"; function f(){ return a; } set("2"); print(f());
-- a.js
export let a = "1"; export function set(x){ a = x; }
>> Fulfilled
2

== an import may not be written
-- main.js
import {a} from "./a.js"; try { a = "2"; } catch (e) { print(e); } print(a);
-- a.js
export let a = "1";
>> Fulfilled
TypeError: a is constant
1

== an unset import may not be written either
-- main.js
import {a} from "./main.js"; try { a = "2"; } catch (e) { print(e); } export let a1 = "1"; export {a1 as a};
>> Fulfilled
TypeError: a is constant

== an import is unset under the name as it is written
-- main.js
import {a as b} from "./main.js"; try { b; } catch (e) { print(e); } export const a = "1"; print(b);
>> Fulfilled
ReferenceError: b is not initialized
1

== a cycle meets a const that is unset
-- main.js
import "./a.js"; export const m = "1";
-- a.js
import {m} from "./main.js"; print(m);
>> EntryFailed
Uncaught ReferenceError: m is not initialized

== a cycle meets a function that is set
-- main.js
import "./a.js"; export function m(){ return "1"; }
-- a.js
import {m} from "./main.js"; print(m());
>> Fulfilled
1

== the default of an expression is unset until its statement
-- main.js
import d from "./main.js"; try { d; } catch (e) { print(e); } export default "1"; print(d);
>> Fulfilled
ReferenceError: d is not initialized
1

== the default of a name is a copy
-- main.js
import d from "./main.js"; let a = "1"; export default a; a = "2"; print(d, a);
>> Fulfilled
1 2

== a default that was exported as a name is live
-- main.js
import d from "./main.js"; let a = "1"; export {a as default}; a = "2"; print(d);
>> Fulfilled
2"#;

/// Members.
const MEMBERS: &str = r#"== a key of a namespace is its binding
-- main.js
import * as n from "./a.js"; print(n.a, n.b); n.set("2"); print(n.a);
-- a.js
export let a = "1"; export function set(x){ a = x; }
>> Fulfilled
1 undefined
2

== a key of a namespace that is unset
-- main.js
import * as n from "./main.js"; n.a; export const a = "1";
>> EntryFailed
Uncaught ReferenceError: a is not initialized

== the default key
-- main.js
import * as n from "./a.js"; print(n.default);
-- a.js
export default "1";
>> Fulfilled
1

== members of an error
-- main.js
const e = new Error("m"); print(e.message, e.name, e.other);
>> Fulfilled
m Error undefined

== members of an error of the program
-- main.js
try { x; } catch (e) { print(e.name); print(e.message); }
>> Fulfilled
ReferenceError
x is not defined

== a text has no members
-- main.js
"a".length;
>> EntryFailed
Uncaught TypeError: no members

== undefined has no members
-- main.js
undefined.a;
>> EntryFailed
Uncaught TypeError: no members

== a function has no members
-- main.js
function f(){} f.name;
>> EntryFailed
Uncaught TypeError: no members

== a truth value has no members
-- main.js
true.a;
>> EntryFailed
Uncaught TypeError: no members

== a member that is a function is called
-- main.js
import * as n from "./a.js"; print(n.f("1"));
-- a.js
export function f(x){ return x + "!"; }
>> Fulfilled
1!

== import.meta.url is the URL of the module
-- main.js
print(import.meta.url);
>> Fulfilled
https://a.test/main.js

== import.meta.url of a function is that of its own module
-- main.js
import {f} from "./a.js"; print(f());
-- a.js
export function f(){ return import.meta.url; }
>> Fulfilled
https://a.test/a.js"#;

/// The tables of this file, and blocks of many names.
pub const TABLES: &[&str] = &[ORDERS, UNSET, SHADOWS, WRITES, BINDINGS, MEMBERS, MANY];
