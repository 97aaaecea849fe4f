// Worked sites of imports and prints, and what one file writes.
use esm_site_runs::RunsAsSaid;
use esm_sites::{SITES, Told, tables_hold};

// Sites whose entry fails, where fetches end in the order in which they begin.
const FAILING: &str = r#"== two missing files
-- main.js
import "./a.js";import "./b.js";print("m");
>> EntryFailed
Uncaught TypeError: cannot fetch https://a.test/a.js

== a bare specifier
-- main.js
import "react";print("m");
>> EntryFailed
Uncaught TypeError: https://a.test/main.js: specifier react: S4 bare and not mapped

== a bare specifier behind a file
-- main.js
import "./b.js";import "a.js";
-- a.js
print("a")
>> EntryFailed
Uncaught TypeError: https://a.test/main.js: specifier a.js: S4 bare and not mapped

== no module text
-- main.js
import "./a.js";print("m");
-- a.js
let;
>> EntryFailed
Uncaught SyntaxError: https://a.test/a.js: P2 no module text

== a missing file behind one that is there
-- main.js
import "./a.js";import "./b.js";
-- a.js
import "./x.js";print("a");
>> EntryFailed
Uncaught TypeError: cannot fetch https://a.test/b.js

== a missing file in a cycle
-- main.js
import "./a.js";
-- a.js
import "./main.js";import "./x.js";print("a");
>> EntryFailed
Uncaught TypeError: cannot fetch https://a.test/x.js

== an empty specifier
-- main.js
import "./a.js";print("m");
-- a.js
import "";
>> EntryFailed
Uncaught TypeError: https://a.test/a.js: specifier : S4 bare and not mapped

== a missing file in a folder
-- main.js
import "./d/a.js";
-- d/a.js
print("a");import "./b.js";
>> EntryFailed
Uncaught TypeError: cannot fetch https://a.test/d/b.js"#;

// What a file prints.
const PRINTS: &str = r#"== the empty text
-- main.js
>> Fulfilled

== one print
-- main.js
print("hi")
>> Fulfilled
hi

== prints with and without semicolons
-- main.js
print("a");
print("")
print("b c");print("d")

>> Fulfilled
a

b c
d

== a declaration
-- main.js
const a = "x";
>> Fulfilled"#;

// One with line ends of both kinds.
const LINE_ENDS: &str =
    "== comments and escapes\n-- main.js\n\n/* é */;print('a\\u00e9',)\r\n;// b\nprint(\"\\x62\")\n>> Fulfilled\naé\nb";

// Entries that aren't there, are no modules, or request what isn't mapped.
const REFUSED: &str = r#"== no file
>> EntryFailed
Uncaught TypeError: cannot fetch https://a.test/main.js

== two texts side by side
-- main.js
print("a" "b")
>> EntryFailed
Uncaught SyntaxError: https://a.test/main.js: P2 no module text

== two statements side by side
-- main.js
print("a")print("b")
>> EntryFailed
Uncaught SyntaxError: https://a.test/main.js: P2 no module text

== a text that is cut short
-- main.js
import {a} from "./a
>> EntryFailed
Uncaught SyntaxError: https://a.test/main.js: P2 no module text

== a name that is declared twice
-- main.js
let a; let a;
>> EntryFailed
Uncaught SyntaxError: https://a.test/main.js: P3 early error

== a bare specifier
-- main.js
import "react"; import {} from "./a.js";
>> EntryFailed
Uncaught TypeError: https://a.test/main.js: specifier react: S4 bare and not mapped"#;

#[test]
fn sites_run_and_fail(rt: HostRuntime) -> Told {
    let tables = &[SITES, FAILING, PRINTS, LINE_ENDS, REFUSED];
    tables_hold(&rt, rt.alloc(), &RunsAsSaid, tables)
}
