// Whole runs with trace lines: the start and the end of each body, among the lines that it prints.
use crate::told::LineCheck;
use esm_sites::{Told, rows_hold};

const FILES: &str = r#"== files
-- hi.js
print("hi")
-- throws.js
print("a"); throw new Error("x");
-- awaits.js
print("a"); await undefined; print("b");
-- late.js
print("a"); await undefined; throw new Error("x");
-- stays.js
print("a"); await import("./stays.js");
-- above.js
import "./throws.js"; print("never");
-- two.js
import "./hi.js"; print("two");
-- missing.js
import "./none.js"; print("never");
-- race.js
import "./awaits.js"; import "./hi.js"; print("race");
>> Fulfilled"#;

// Words, how their run ends, and what it writes.
const TRACES: &str = r#"== run https://a.test/ hi.js --trace
>> Fulfilled
# start https://a.test/hi.js
hi
# end https://a.test/hi.js

== run --trace https://a.test/ -- hi.js
>> Fulfilled
# start https://a.test/hi.js
hi
# end https://a.test/hi.js

== run https://a.test/ hi.js
>> Fulfilled
hi

== run https://a.test/ --trace throws.js
>> EntryFailed
# start https://a.test/throws.js
a
# throw https://a.test/throws.js
Uncaught Error: x

== run https://a.test/ awaits.js --trace
>> Fulfilled
# start https://a.test/awaits.js
a
b
# end https://a.test/awaits.js

== run https://a.test/ late.js --trace
>> EntryFailed
# start https://a.test/late.js
a
# throw https://a.test/late.js
Uncaught Error: x

== run https://a.test/ stays.js --trace
>> Unsettled
# start https://a.test/stays.js
a
Unsettled

== run https://a.test/ above.js --trace
>> EntryFailed
# start https://a.test/throws.js
a
# throw https://a.test/throws.js
Uncaught Error: x

== run https://a.test/ two.js --trace
>> Fulfilled
# start https://a.test/hi.js
hi
# end https://a.test/hi.js
# start https://a.test/two.js
two
# end https://a.test/two.js

== run https://a.test/ missing.js --trace
>> EntryFailed
Uncaught TypeError: cannot fetch https://a.test/none.js

== run https://a.test/ race.js --workers 1 --trace
>> Fulfilled
# start https://a.test/awaits.js
a
# start https://a.test/hi.js
hi
# end https://a.test/hi.js
b
# end https://a.test/awaits.js
# start https://a.test/race.js
race
# end https://a.test/race.js"#;

#[test]
fn bodies_are_traced(rt: HostRuntime) -> Told {
    rows_hold(&rt, rt.alloc(), &LineCheck { site: FILES }, TRACES)
}
