// Worked sites, as texts: their files, and what a run of their `main.js` writes.

/// Sites whose run is the same in every order in which their fetches end.
pub const SITES: &str = r#"== a cycle
-- main.js
import "./a.js";import "./b.js";print("m");
-- a.js
import "./b.js";print("a");
-- b.js
import "./main.js";print("b");
>> Fulfilled
b
a
m

== one target under two spellings
-- main.js
import "./t.js";import "././t.js";print("m");
-- t.js
print("t")
>> Fulfilled
t
m

== a module that imports itself
-- main.js
import "./main.js";print("m")
>> Fulfilled
m

== a module that two others import
-- main.js
import "./a.js";import "./b.js";print("m");
-- a.js
import "./s.js";print("a");
-- b.js
import "./s.js";print("b");
-- s.js
print("s")
>> Fulfilled
s
a
b
m

== a cycle through a folder
-- main.js
print("m");import "./a.js";import "./b.js";
-- a.js
import "./d/c.js";print("a");
-- b.js
print("b");import "./d/c.js";
-- d/c.js
print("c");import "../main.js";
>> Fulfilled
c
a
b
m

== specifiers against the URL of their module
-- main.js
import "/d/x.js";print("m");
-- d/x.js
import "./y.js";print("x");
-- d/y.js
print("y")
>> Fulfilled
y
x
m

== a cycle that the entry is not in
-- main.js
import "./x.js";print("m");
-- x.js
import "./y.js";print("x");
-- y.js
import "./z.js";print("y");
-- z.js
import "./x.js";print("z")
>> Fulfilled
z
y
x
m

== a specifier that the URL parser rewrites
-- main.js
import "HTTPS://A.TEST:443/a.js";print("m");
-- a.js
print("a")
>> Fulfilled
a
m

== a module that is imported three times
-- main.js
import "./a.js";import "./a.js";import "./b.js";import "./a.js";print("m");
-- a.js
print("a")
-- b.js
import "./a.js";print("b")
>> Fulfilled
a
b
m"#;
