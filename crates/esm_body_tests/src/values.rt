// Worked bodies: values, their display texts and operators.

/// What is printed.
const PRINTED: &str = r#"== print of no argument
-- main.js
print();
>> Fulfilled


== print of each simple value
-- main.js
print("a",true,false,undefined);
>> Fulfilled
a true false undefined

== the empty text is printed as nothing
-- main.js
print("","","");
>> Fulfilled
  

== print gives undefined
-- main.js
print(print("a"));
>> Fulfilled
a
undefined

== a function has its name
-- main.js
function f(){} print(f);
>> Fulfilled
[function f]

== a default function without a name
-- main.js
import d from "./main.js"; export default function(){}; print(d);
>> Fulfilled
[function default]

== a default function with a name
-- main.js
import d from "./main.js"; export default function g(){} print(d, d === g);
>> Fulfilled
[function g] true

== an error has its kind and message
-- main.js
print(new Error("m"));
>> Fulfilled
Error: m

== an error without a message
-- main.js
print(new Error(), new Error(""), new Error(undefined));
>> Fulfilled
Error Error Error

== a namespace has its keys in order of code units
-- main.js
import * as n from "./main.js"; export {b, a, A}; const b = "1"; const a = "2"; const A = "3"; print(n);
>> Fulfilled
[module A, a, b]

== a namespace without keys
-- main.js
import * as n from "./e.js"; print(n);
-- e.js
>> Fulfilled
[module]

== code units put a pair before U+FF21
-- main.js
import * as n from "./main.js"; const a = "1"; export {a as "\u{10000}", a as "\uFF21"}; print(n);
>> Fulfilled
[module 𐀀, Ａ]"#;

/// `!`, `&&` and `||`.
const LOGIC: &str = r#"== not of each value
-- main.js
function f(){} print(!undefined,!false,!"",!true,!"a",!f,!new Error());
>> Fulfilled
true true true false false false false

== not twice
-- main.js
print(!!"", !!"0", !!undefined);
>> Fulfilled
false true false

== and gives an operand
-- main.js
print("" && "b", "a" && "b", undefined && "b", "a" && undefined);
>> Fulfilled
 b undefined undefined

== or gives an operand
-- main.js
print("" || "b", "a" || "b", undefined || false, false || undefined);
>> Fulfilled
b a false undefined

== and skips the right one
-- main.js
false && print("no"); true && print("yes");
>> Fulfilled
yes

== or skips the right one
-- main.js
true || print("no"); "" || print("yes");
>> Fulfilled
yes

== and binds closer than or
-- main.js
print("a" || "b" && "", "" || "b" && "c");
>> Fulfilled
a c

== a skipped operand takes no error
-- main.js
print(true || x, false && x);
>> Fulfilled
true false

== and leaves out the rest
-- main.js
print("" && y && z);
>> Fulfilled
"#;

/// `===` and `!==`.
const SAME: &str = r#"== texts are the same by characters
-- main.js
print("a" === "a", "a" === "b", "a" === "A", "ab" === "a" + "b");
>> Fulfilled
true false false true

== truth values and undefined are the same by value
-- main.js
print(true === true, true === false, undefined === undefined, undefined === false, "" === false);
>> Fulfilled
true false true false false

== a text is never a truth value
-- main.js
print("true" === true, "undefined" === undefined);
>> Fulfilled
false false

== functions are the same by identity
-- main.js
function f(){} function g(){} const h = f; print(f === f, f === g, f === h);
>> Fulfilled
true false true

== errors are the same by identity
-- main.js
const e = new Error("a"); const f = e; print(e === e, e === f, e === new Error("a"));
>> Fulfilled
true true false

== a namespace is one value
-- main.js
import * as n from "./a.js"; import * as m from "././a.js"; import * as o from "./b.js"; print(n === m, n === o);
-- a.js
-- b.js
>> Fulfilled
true false

== the same and its opposite
-- main.js
print("a" !== "a", "a" !== "b", undefined !== undefined);
>> Fulfilled
false true false

== === goes from left to right
-- main.js
print("a" === "a" === true, "a" === "a" === "a", true !== false === true);
>> Fulfilled
true false true"#;

/// `+` that gives a text.
const JOINS: &str = r#"== texts are joined
-- main.js
print("a" + "b", "" + "", "a" + "");
>> Fulfilled
ab  a

== a text and a truth value
-- main.js
print("a" + true, false + "a");
>> Fulfilled
atrue falsea

== a text and undefined
-- main.js
print("a" + undefined, undefined + "a");
>> Fulfilled
aundefined undefineda

== an error is its display text
-- main.js
print("a" + new Error("m"), new Error("m") + "a", new Error("a") + new Error("b"));
>> Fulfilled
aError: m Error: ma Error: aError: b

== an error and a truth value
-- main.js
print(new Error("m") + true, undefined + new Error());
>> Fulfilled
Error: mtrue undefinedError

== + goes from left to right
-- main.js
print("a" + true + false, "a" + "b" + "c");
>> Fulfilled
atruefalse abc"#;

/// `+` that throws, and how closely operators bind.
const COMPLAINTS: &str = r#"== two truth values are no operands
-- main.js
true + false;
>> EntryFailed
Uncaught TypeError: bad operands

== undefined twice is no operands
-- main.js
undefined + undefined;
>> EntryFailed
Uncaught TypeError: bad operands

== a truth value and undefined are no operands
-- main.js
print(true + undefined + "a");
>> EntryFailed
Uncaught TypeError: bad operands

== a function is no operand
-- main.js
function f(){} print("a" + f);
>> EntryFailed
Uncaught TypeError: bad operands

== a function on the left is no operand
-- main.js
function f(){} f + "a";
>> EntryFailed
Uncaught TypeError: bad operands

== an error and a function are no operands
-- main.js
function f(){} new Error() + f;
>> EntryFailed
Uncaught TypeError: bad operands

== a namespace is no operand
-- main.js
import * as n from "./main.js"; "a" + n;
>> EntryFailed
Uncaught TypeError: bad operands

== + binds closer than ===
-- main.js
print("a" + "b" === "ab");
>> Fulfilled
true

== not binds closer than +
-- main.js
print(!"" + "a");
>> Fulfilled
truea"#;

/// The tables of this file.
pub const TABLES: &[&str] = &[PRINTED, LOGIC, SAME, JOINS, COMPLAINTS];
