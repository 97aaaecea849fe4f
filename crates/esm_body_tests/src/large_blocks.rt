// Worked bodies: blocks of so many names that the code finds them by an index.

/// Names of blocks that declare more than sixteen.
pub const MANY: &str = r#"== sixteen names, and seventeen
-- main.js
{ let a = "a", b = "b", c = "c", d = "d", e = "e", f = "f", g = "g", h = "h", i = "i", j = "j", k = "k", l = "l", m = "m", n = "n", o = "o", p = "p"; print(a + b + c + d + e + f + g + h + i + j + k + l + m + n + o + p); } { let a = "a", b = "b", c = "c", d = "d", e = "e", f = "f", g = "g", h = "h", i = "i", j = "j", k = "k", l = "l", m = "m", n = "n", o = "o", p = "p", q = "q"; print(a + b + c + d + e + f + g + h + i + j + k + l + m + n + o + p + q); }
>> Fulfilled
abcdefghijklmnop
abcdefghijklmnopq

== each of twenty names is written
-- main.js
{ let a, b, c, d, e, f, g, h, i, j, k, l, m, n, o, p, q, r, s, t; t = "T"; s = "S"; r = "R"; q = "Q"; p = "P"; o = "O"; n = "N"; m = "M"; l = "L"; k = "K"; j = "J"; i = "I"; h = "H"; g = "G"; f = "F"; e = "E"; d = "D"; c = "C"; b = "B"; a = "A"; print(a + b + c + d + e + f + g + h + i + j + k + l + m + n + o + p + q + r + s + t); }
>> Fulfilled
ABCDEFGHIJKLMNOPQRST

== the first and the last of twenty constants stay
-- main.js
{ const a = "a", b = "b", c = "c", d = "d", e = "e", f = "f", g = "g", h = "h", i = "i", j = "j", k = "k", l = "l", m = "m", n = "n", o = "o", p = "p", q = "q", r = "r", s = "s", t = "t"; try { a = "x"; } catch (e) { print(e); } try { t = "x"; } catch (e) { print(e); } print(a + b + c + d + e + f + g + h + i + j + k + l + m + n + o + p + q + r + s + t); }
>> Fulfilled
TypeError: a is constant
TypeError: t is constant
abcdefghijklmnopqrst

== a name of many is unset up to its declaration
-- main.js
const t = "far"; { let a = "a", b = "b", c = "c", d = "d", e = "e", f = "f", g = "g", h = "h", i = "i", j = "j", k = "k", l = "l", m = "m", n = "n", o = "o", p = "p", q = "q", r = "r", s = "s"; try { print(t); } catch (e) { print(e); } try { t = "x"; } catch (e) { print(e); } let t = "near"; print(t); } print(t);
>> Fulfilled
ReferenceError: t is not initialized
ReferenceError: t is not initialized
near
far

== names of many hide others, and are hidden
-- main.js
let a = "1", u = "2"; { let a = "a", b = "b", c = "c", d = "d", e = "e", f = "f", g = "g", h = "h", i = "i", j = "j", k = "k", l = "l", m = "m", n = "n", o = "o", p = "p", q = "q", r = "r", s = "s", t = "t"; { let t = "3"; t = t + "4"; a = a + t; u = u + "5"; print(a, t, u); } print(a, t, u); } print(a, u);
>> Fulfilled
a34 34 25
a34 t 25
1 25

== a name that none of many is
-- main.js
{ let a = "a", b = "b", c = "c", d = "d", e = "e", f = "f", g = "g", h = "h", i = "i", j = "j", k = "k", l = "l", m = "m", n = "n", o = "o", p = "p", q = "q", r = "r", s = "s", t = "t"; try { print(z); } catch (u) { print(u); } try { z = "x"; } catch (u) { print(u); } print(a + b + c + d + e + f + g + h + i + j + k + l + m + n + o + p + q + r + s + t); }
>> Fulfilled
ReferenceError: z is not defined
ReferenceError: z is not defined
abcdefghijklmnopqrst

== a handler of many names has the one that it catches
-- main.js
try { throw "T"; } catch (t) { let a = "a", b = "b", c = "c", d = "d", e = "e", f = "f", g = "g", h = "h", i = "i", j = "j", k = "k", l = "l", m = "m", n = "n", o = "o", p = "p", q = "q", r = "r", s = "s"; print(t); t = t + "!"; print(a, s, t); }
>> Fulfilled
T
a s T!

== a block of many names goes on behind an await
-- main.js
{ let a = "a", b = "b", c = "c", d = "d", e = "e", f = "f", g = "g", h = "h", i = "i", j = "j", k = "k", l = "l", m = "m", n = "n", o = "o", p = "p", q = "q", r = "r", s = "s"; await a; a = a + "1"; const t = await a; print(a, s, t); }
>> Fulfilled
a1 s a1"#;
