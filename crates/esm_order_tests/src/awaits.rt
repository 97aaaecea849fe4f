// Worked graphs of modules that await.
use crate::orders::{Table, orders_hold};
use esm_sites::Told;

/// Bodies that await, and diamonds.
const AWAITS: &str = r#"== a body that awaits
-- main.js
print("m1");await undefined;print("m2");
>> Fulfilled
m1
m2

== a body that awaits three times
-- main.js
print("m1");await undefined;print("m2");await undefined;print("m3");await undefined;print("m4");
>> Fulfilled
m1
m2
m3
m4

== a dependency that awaits
-- main.js
import "./a.js";print("m");
-- a.js
print("a1");await undefined;print("a2");
>> Fulfilled
a1
a2
m

== two dependencies that await
-- main.js
import "./a.js";import "./b.js";print("m");
-- a.js
print("a1");await undefined;print("a2");
-- b.js
print("b1");await undefined;print("b2");
>> Fulfilled
a1
b1
a2
b2
m

== a dependency without await runs beside one with
-- main.js
import "./a.js";import "./b.js";print("m");
-- a.js
print("a1");await undefined;print("a2");
-- b.js
print("b");
>> Fulfilled
a1
b
a2
m

== a dependency without await before one with
-- main.js
import "./b.js";import "./a.js";print("m");
-- a.js
print("a1");await undefined;print("a2");
-- b.js
print("b");
>> Fulfilled
b
a1
a2
m

== an await at the bottom of a diamond
-- main.js
import "./a.js";import "./b.js";print("m");
-- a.js
import "./d.js";print("a");
-- b.js
import "./d.js";print("b");
-- d.js
print("d1");await undefined;print("d2");
>> Fulfilled
d1
d2
a
b
m

== an await on one side of a diamond
-- main.js
import "./a.js";import "./b.js";print("m");
-- a.js
import "./d.js";print("a1");await undefined;print("a2");
-- b.js
import "./d.js";print("b");
-- d.js
print("d");
>> Fulfilled
d
a1
b
a2
m

== awaits on both sides of a diamond
-- main.js
import "./a.js";import "./b.js";print("m");
-- a.js
import "./d.js";print("a1");await undefined;print("a2");
-- b.js
import "./d.js";print("b1");await undefined;print("b2");await undefined;print("b3");
-- d.js
print("d");
>> Fulfilled
d
a1
b1
a2
b2
b3
m

== an await at the bottom and on one side
-- main.js
import "./a.js";import "./b.js";print("m");
-- a.js
import "./d.js";print("a1");await undefined;print("a2");
-- b.js
import "./d.js";print("b");
-- d.js
print("d1");await undefined;print("d2");
>> Fulfilled
d1
d2
a1
b
a2
m

== an await at the top of a diamond
-- main.js
import "./a.js";import "./b.js";print("m1");await undefined;print("m2");
-- a.js
import "./d.js";print("a");
-- b.js
import "./d.js";print("b");
-- d.js
print("d");
>> Fulfilled
d
a
b
m1
m2"#;

/// Chains, and the order of ready modules.
const CHAINS: &str = r#"== a chain in which all await
-- main.js
import "./a.js";print("m1");await undefined;print("m2");
-- a.js
import "./b.js";print("a1");await undefined;print("a2");
-- b.js
print("b1");await undefined;print("b2");
>> Fulfilled
b1
b2
a1
a2
m1
m2

== a chain in which the last awaits
-- main.js
import "./a.js";print("m");
-- a.js
import "./b.js";print("a");
-- b.js
import "./c.js";print("b");
-- c.js
print("c1");await undefined;print("c2");
>> Fulfilled
c1
c2
b
a
m

== bodies go on in the order in which they came to their awaits
-- main.js
import "./a.js";import "./b.js";import "./c.js";print("m");
-- a.js
print("a1");await undefined;print("a2");
-- b.js
print("b1");await undefined;print("b2");await undefined;print("b3");await undefined;print("b4");
-- c.js
print("c1");await undefined;print("c2");await undefined;print("c3");
>> Fulfilled
a1
b1
c1
a2
b2
c2
b3
c3
b4
m

== a module behind an await runs in the job of its end
-- main.js
import "./p.js";import "./b.js";print("m");
-- p.js
import "./a.js";print("p");
-- a.js
print("a1");await undefined;print("a2");
-- b.js
print("b1");await undefined;print("b2");await undefined;print("b3");await undefined;print("b4");
>> Fulfilled
a1
b1
a2
b2
p
b3
b4
m

== a module with await behind an await starts in the job of its end
-- main.js
import "./p.js";import "./b.js";print("m");
-- p.js
import "./a.js";print("p1");await undefined;print("p2");
-- a.js
print("a1");await undefined;print("a2");
-- b.js
print("b1");await undefined;print("b2");await undefined;print("b3");await undefined;print("b4");
>> Fulfilled
a1
b1
a2
b2
p1
b3
p2
b4
m

== deeper awaits come first where they began first
-- main.js
import "./a.js";import "./b.js";print("m");
-- a.js
import "./c.js";print("a");
-- b.js
print("b1");await undefined;print("b2");
-- c.js
print("c1");await undefined;print("c2");
>> Fulfilled
c1
b1
c2
b2
a
m

== ready modules run by their stamps, not by who waits first
-- main.js
import "./a.js";import "./b.js";import "./p.js";print("m");
-- a.js
import "./d.js";print("a");
-- b.js
import "./d.js";print("b");
-- p.js
import "./a.js";print("p");
-- d.js
print("d1");await undefined;print("d2");
>> Fulfilled
d1
d2
a
b
p
m

== a module that waits for two ends
-- main.js
import "./a.js";import "./b.js";print("m");
-- a.js
print("a1");await undefined;print("a2");await undefined;print("a3");
-- b.js
print("b1");await undefined;print("b2");
>> Fulfilled
a1
b1
a2
b2
a3
m

== one module by two specifiers
-- main.js
import "./a.js";import "././a.js";print("m");
-- a.js
print("a1");await undefined;print("a2");
>> Fulfilled
a1
a2
m

== an await that is never reached
-- main.js
import "./a.js";print("m");
-- a.js
if (false) { await undefined; } print("a");
>> Fulfilled
a
m

== a module with an await that is never reached is waited for
-- main.js
import "./p.js";import "./b.js";print("m");
-- p.js
import "./a.js";print("p");
-- a.js
if (false) { await undefined; } print("a");
-- b.js
print("b");
>> Fulfilled
a
b
p
m"#;

/// Cycles.
const CYCLES: &str = r#"== a cycle whose last member awaits
-- main.js
import "./a.js";print("m");
-- a.js
import "./b.js";print("a");
-- b.js
import "./main.js";print("b1");await undefined;print("b2");
>> Fulfilled
b1
b2
a
m

== a cycle whose middle member awaits
-- main.js
import "./a.js";print("m");
-- a.js
import "./b.js";print("a1");await undefined;print("a2");
-- b.js
import "./main.js";print("b");
>> Fulfilled
b
a1
a2
m

== a cycle whose root awaits
-- main.js
import "./a.js";print("m1");await undefined;print("m2");
-- a.js
import "./b.js";print("a");
-- b.js
import "./main.js";print("b");
>> Fulfilled
b
a
m1
m2

== a cycle in which all await
-- main.js
import "./a.js";print("m1");await undefined;print("m2");
-- a.js
import "./b.js";print("a1");await undefined;print("a2");
-- b.js
import "./main.js";print("b1");await undefined;print("b2");
>> Fulfilled
b1
b2
a1
a2
m1
m2

== a cycle whose first and last members await
-- main.js
import "./a.js";print("m1");await undefined;print("m2");
-- a.js
import "./b.js";print("a");
-- b.js
import "./main.js";print("b1");await undefined;print("b2");
>> Fulfilled
b1
b2
a
m1
m2

== a module that imports itself and awaits
-- main.js
import "./main.js";print("m1");await undefined;print("m2");
>> Fulfilled
m1
m2

== two cycles that share their root
-- main.js
import "./a.js";import "./b.js";print("m");
-- a.js
import "./main.js";print("a1");await undefined;print("a2");
-- b.js
import "./main.js";print("b");
>> Fulfilled
a1
b
a2
m

== two cycles that share a member
-- main.js
import "./a.js";print("m");
-- a.js
import "./s.js";print("a");
-- s.js
import "./a.js";import "./b.js";print("s");
-- b.js
import "./s.js";print("b1");await undefined;print("b2");
>> Fulfilled
b1
b2
s
a
m

== a cycle that waits for a module outside
-- main.js
import "./a.js";print("m");
-- a.js
import "./b.js";print("a");
-- b.js
import "./a.js";import "./c.js";print("b");
-- c.js
print("c1");await undefined;print("c2");
>> Fulfilled
c1
c2
b
a
m

== who imports a member waits for the root of its cycle
-- main.js
import "./a.js";import "./y.js";print("m");
-- a.js
import "./b.js";print("a1");await undefined;print("a2");
-- b.js
import "./a.js";print("b");
-- y.js
import "./b.js";print("y");
>> Fulfilled
b
a1
a2
y
m

== who imports a member that awaits waits for the whole cycle
-- main.js
import "./a.js";import "./y.js";print("m");
-- a.js
import "./b.js";print("a");
-- b.js
import "./a.js";print("b1");await undefined;print("b2");
-- y.js
import "./b.js";print("y");
>> Fulfilled
b1
b2
a
y
m

== a cycle and a sibling that awaits
-- main.js
import "./a.js";import "./c.js";print("m");
-- a.js
import "./b.js";print("a");
-- b.js
import "./a.js";print("b");
-- c.js
print("c1");await undefined;print("c2");
>> Fulfilled
b
a
c1
c2
m"#;

/// Throws of modules in no cycle.
const REJECTIONS: &str = r#"== a throw before the await of a dependency
-- main.js
import "./a.js";print("m");
-- a.js
print("a1");throw "x";await undefined;
>> EntryFailed
a1
Uncaught x

== a throw behind the await of a dependency
-- main.js
import "./a.js";print("m");
-- a.js
print("a1");await undefined;throw "x";
>> EntryFailed
a1
Uncaught x

== a throw behind the await of the entry
-- main.js
print("m1");await undefined;throw "x";
>> EntryFailed
m1
Uncaught x

== a throw before the await of the entry
-- main.js
print("m1");throw "x";await undefined;
>> EntryFailed
m1
Uncaught x

== a throw without await while another body goes on
-- main.js
import "./a.js";import "./b.js";print("m");
-- a.js
print("a1");await undefined;print("a2");
-- b.js
print("b");throw "x";
>> EntryFailed
a1
b
a2
Uncaught x

== a rejected dependency of several importers
-- main.js
import "./a.js";import "./b.js";print("m");
-- a.js
import "./d.js";print("a");
-- b.js
import "./d.js";print("b");
-- d.js
print("d1");await undefined;throw "x";
>> EntryFailed
d1
Uncaught x

== a rejection leaves other bodies going
-- main.js
import "./a.js";import "./c.js";print("m");
-- a.js
import "./d.js";print("a");
-- d.js
print("d1");await undefined;throw "x";
-- c.js
print("c1");await undefined;print("c2");await undefined;print("c3");
>> EntryFailed
d1
c1
c2
c3
Uncaught x

== a throw of a ready module leaves the others ready
-- main.js
import "./p.js";import "./q.js";print("m");
-- p.js
import "./a.js";print("p");throw "x";
-- q.js
import "./a.js";print("q");
-- a.js
print("a1");await undefined;print("a2");
>> EntryFailed
a1
a2
p
q
Uncaught x

== a throw of a ready module that awaits
-- main.js
import "./p.js";import "./q.js";print("m");
-- p.js
import "./a.js";print("p");throw "x";await undefined;
-- q.js
import "./a.js";print("q");
-- a.js
print("a1");await undefined;print("a2");
>> EntryFailed
a1
a2
p
q
Uncaught x"#;

/// Throws in cycles, and which is told.
const CYCLE_THROWS: &str = r#"== the last member of a cycle rejects
-- main.js
import "./a.js";print("m");
-- a.js
import "./b.js";print("a");
-- b.js
import "./main.js";print("b1");await undefined;throw "x";
>> EntryFailed
b1
Uncaught x

== the middle member of a cycle rejects
-- main.js
import "./a.js";print("m");
-- a.js
import "./b.js";print("a1");await undefined;throw "x";
-- b.js
import "./main.js";print("b");
>> EntryFailed
b
a1
Uncaught x

== the root of a cycle throws without await
-- main.js
import "./a.js";print("m");throw "x";
-- a.js
import "./b.js";print("a");
-- b.js
import "./main.js";print("b");
>> EntryFailed
b
a
m
Uncaught x

== a member of a cycle throws without await
-- main.js
import "./a.js";print("m");
-- a.js
import "./b.js";print("a");throw "x";
-- b.js
import "./main.js";print("b");
>> EntryFailed
b
a
Uncaught x

== the first throw is the one that is told
-- main.js
import "./a.js";import "./b.js";print("m");
-- a.js
print("a1");await undefined;throw "x";
-- b.js
print("b1");await undefined;throw "y";
>> EntryFailed
a1
b1
Uncaught x

== a throw of a dependency comes before one of its importer
-- main.js
import "./a.js";print("m");throw "y";
-- a.js
print("a1");await undefined;throw "x";
>> EntryFailed
a1
Uncaught x"#;

/// What an await gives.
const AWAITED: &str = r#"== an await gives its value
-- main.js
const a = await "1"; print(a); print(await "2"); let b; b = await "3"; print(b);
>> Fulfilled
1
2
3

== an await in try
-- main.js
try { await undefined; throw "a"; } catch (e) { print(e); } print("on");
>> Fulfilled
a
on

== the operand of an await throws
-- main.js
try { await x; } catch (e) { print(e); }
>> Fulfilled
ReferenceError: x is not defined

== an await in a block
-- main.js
const a = "1"; { const a = "2"; await undefined; print(a); } print(a);
>> Fulfilled
2
1

== an await in catch
-- main.js
try { throw "a"; } catch (e) { await undefined; print(e); } print("b");
>> Fulfilled
a
b

== a name behind an await is read by who waits
-- main.js
import {x} from "./a.js"; print(x);
-- a.js
await undefined; export const x = "1";
>> Fulfilled
1

== a default behind an await
-- main.js
import d from "./a.js"; print(d);
-- a.js
export default await "1";
>> Fulfilled
1

== a name behind an await is unset in a cycle
-- main.js
import {x} from "./a.js"; export const m = "1"; print(x);
-- a.js
import {m} from "./main.js"; await undefined; try { print(m); } catch (e) { print(e.message); } export const x = "2";
>> Fulfilled
m is not initialized
2

== a live binding changes between two awaits
-- main.js
import {x} from "./a.js"; import "./b.js"; print(x);
-- a.js
export let x = "1"; export function set(v){ x = v; }
-- b.js
import {x, set} from "./a.js"; print(x); await undefined; set("2"); print(x);
>> Fulfilled
1
2
2"#;

const TABLES: &[Table] = &[
    (AWAITS, 29),
    (CHAINS, 40),
    (CYCLES, 21),
    (REJECTIONS, 21),
    (CYCLE_THROWS, 7),
    (AWAITED, 10),
];

#[test]
fn graphs_await(rt: HostRuntime) -> Told {
    orders_hold(&rt, rt.alloc(), TABLES)
}
