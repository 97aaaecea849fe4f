// Worked bodies: calls, errors, throws and what takes them.

/// Calls.
const CALLS: &str = r#"== a call without return
-- main.js
function f(){ "a"; } print(f());
>> Fulfilled
undefined

== a return without a value
-- main.js
function f(){ return; } print(f());
>> Fulfilled
undefined

== a return behind a line feed has no value
-- main.js
function f(){ return
"a"; } print(f());
>> Fulfilled
undefined

== statements behind return do not run
-- main.js
function f(){ return "a"; print("no"); } print(f());
>> Fulfilled
a

== return leaves blocks
-- main.js
function f(){ { { return "a"; } } } print(f());
>> Fulfilled
a

== a text is no function
-- main.js
"a"();
>> EntryFailed
Uncaught TypeError: not a function

== what an expression gives is called
-- main.js
function f(){ return g; } function g(){ return "a"; } print(f()(), (f)()());
>> Fulfilled
a a

== 256 calls may be active
-- main.js
const a = "x", b = a + a, c = b + b, d = c + c, g = d + d, h = g + g, i = h + h, j = i + i, most = a + b + c + d + g + h + i + j; function f(n){ if (n === most) { return "end"; } return f(n + "x"); } print(f(""));
>> Fulfilled
end

== call 257 is an error that can be caught
-- main.js
const a = "x", b = a + a, c = b + b, d = c + c, g = d + d, h = g + g, i = h + h, j = i + i, more = j + j; function f(n){ if (n === more) { return "end"; } return f(n + "x"); } try { print(f("")); } catch (e) { print(e); }
>> Fulfilled
RangeError: call depth

== the depth falls when calls end
-- main.js
function f(){ f(); } try { f(); } catch (e) {} try { f(); } catch (e) { print(e); } function g(){ return "a"; } print(g());
>> Fulfilled
RangeError: call depth
a

== a callee that is none comes before the depth
-- main.js
let first = true; function f(){ try { f(); } catch (e) { if (first) { first = false; try { undefined(); } catch (d) { print(d); } } throw e; } } try { f(); } catch (e) { print(e); }
>> Fulfilled
TypeError: not a function
RangeError: call depth"#;

/// Errors that are made.
const MESSAGES: &str = r#"== new Error of each simple value
-- main.js
print(new Error(true), new Error(false), new Error("a"));
>> Fulfilled
Error: true Error: false Error: a

== new Error of an error
-- main.js
print(new Error(new Error("a")));
>> Fulfilled
Error: Error: a

== new Error of a function
-- main.js
function f(){} new Error(f);
>> EntryFailed
Uncaught TypeError: cannot convert to text

== new Error of a namespace
-- main.js
import * as n from "./main.js"; try { new Error(n); } catch (e) { print(e); }
>> Fulfilled
TypeError: cannot convert to text"#;

/// Throws.
const THROWS: &str = r#"== a throw of a text
-- main.js
throw "a";
>> EntryFailed
Uncaught a

== a throw of an error
-- main.js
throw new Error("a");
>> EntryFailed
Uncaught Error: a

== a throw of undefined
-- main.js
throw undefined;
>> EntryFailed
Uncaught undefined

== a throw of the empty text leaves a space at the end
-- main.js
throw "";
>> EntryFailed
Uncaught 

== a throw of a function
-- main.js
function f(){} throw f;
>> EntryFailed
Uncaught [function f]

== a throw ends the statements
-- main.js
print("1"); throw "a"; print("2");
>> EntryFailed
1
Uncaught a"#;

/// `try` and `catch`.
const HANDLERS: &str = r#"== try takes a throw
-- main.js
try { throw "a"; } catch (e) { print("caught", e); }
>> Fulfilled
caught a

== try without a throw leaves catch out
-- main.js
try { print("a"); } catch (e) { print("no"); } print("b");
>> Fulfilled
a
b

== catch without a name
-- main.js
try { throw "a"; } catch { print("caught"); }
>> Fulfilled
caught

== what stands behind a throw in try
-- main.js
try { print("1"); throw "a"; print("no"); } catch (e) { print(e); } print("2");
>> Fulfilled
1
a
2

== try in catch
-- main.js
try { throw "a"; } catch (e) { try { throw "b"; } catch (d) { print(e, d); } }
>> Fulfilled
a b

== a throw in catch goes out
-- main.js
try { try { throw "a"; } catch (e) { throw e + "b"; } } catch (e) { print(e); }
>> Fulfilled
ab

== a throw in an inner try is taken there
-- main.js
try { try { throw "a"; } catch (e) { print("in", e); } print("on"); } catch (e) { print("no"); }
>> Fulfilled
in a
on

== a throw goes through calls
-- main.js
function f(){ g(); print("no"); } function g(){ throw "a"; } try { f(); } catch (e) { print(e); }
>> Fulfilled
a

== a throw leaves the names of its block
-- main.js
const a = "1"; try { const a = "2"; throw a; } catch (e) { print(a, e); }
>> Fulfilled
1 2

== a catch parameter may be written
-- main.js
try { throw "a"; } catch (e) { e = e + "b"; print(e); }
>> Fulfilled
ab

== a catch parameter hides
-- main.js
const e = "1"; try { throw "2"; } catch (e) { print(e); } print(e);
>> Fulfilled
2
1"#;

/// `return` through `try`, and `if`.
const RETURNS: &str = r#"== return through try
-- main.js
function f(){ try { return "a"; } catch (e) { return "no"; } } print(f());
>> Fulfilled
a

== return through try, and a throw behind it
-- main.js
function f(){ try { return "a"; } catch (e) { print("no"); } } try { f(); throw "b"; } catch (e) { print(e); }
>> Fulfilled
b

== return in catch
-- main.js
function f(){ try { throw "a"; } catch (e) { return e + "!"; } print("no"); } print(f());
>> Fulfilled
a!

== a throw while a return is evaluated
-- main.js
function f(){ try { return x; } catch (e) { return "caught"; } } print(f());
>> Fulfilled
caught

== an error keeps what it is when it is thrown again
-- main.js
const e = new Error("a"); try { try { throw e; } catch (d) { throw d; } } catch (c) { print(c === e); }
>> Fulfilled
true

== if of each value
-- main.js
function f(){} if ("") { print("1"); } else { print("2"); } if (f) { print("3"); } if (undefined) { print("4"); }
>> Fulfilled
2
3

== if without else
-- main.js
if (false) { print("no"); } print("on");
>> Fulfilled
on

== the condition throws
-- main.js
try { if (x) { print("no"); } else { print("no"); } } catch (e) { print(e); }
>> Fulfilled
ReferenceError: x is not defined

== if has a scope of its own
-- main.js
const a = "1"; if (true) { const a = "2"; print(a); } else { } print(a);
>> Fulfilled
2
1"#;

/// How texts and statements are written.
const SPELLINGS: &str = r#"== a line feed in a text is printed
-- main.js
print("a\nb");
>> Fulfilled
a
b

== a text over several lines of source
-- main.js
print("a\
b");
>> Fulfilled
ab

== semicolons may be left out at line ends
-- main.js
const a = "1"
print(a)
let b
print(b)
>> Fulfilled
1
undefined

== a call goes on over a line end
-- main.js
function f(){ return "a"; }
const g = f
();print(g);
>> Fulfilled
a

== empty statements
-- main.js
; ; print("a") ; ;
>> Fulfilled
a

== a throw in the middle leaves what was printed
-- main.js
print("1"); print("2" + undefined + x);
>> EntryFailed
1
Uncaught ReferenceError: x is not defined

== a text of 65,536 bytes
-- main.js
let a = "0123456789abcdef"; function d(){ a = a + a; } d();d();d();d();d();d();d();d();d();d();d();d(); try { a + ""; print("fits"); a + "b"; } catch (e) { print(e); }
>> Fulfilled
fits
RangeError: text length"#;

// One that prints a tab.
const ESCAPES: &str =
    "== escapes\n-- main.js\nprint(\"a\\tb\\x41\\u0042\\u{43}\\'\\q\");\n>> Fulfilled\na\tbABC'q";

/// The tables of this file.
pub const TABLES: &[&str] = &[
    CALLS, MESSAGES, THROWS, HANDLERS, RETURNS, SPELLINGS, ESCAPES,
];
