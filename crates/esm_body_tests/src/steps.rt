// Worked bodies that take as many steps as they may, and one more.
//
// A table has its forms with an empty line between them. Below the name of a form stand how many steps what comes before it
// takes, and that; and on the next line how many it takes, and its text. Then comes how a run ends in which just so many steps
// are left, and how one ends in which there is one fewer.
use crate::running::{counted, push_times, text_ends_so};
use esm_base::Memory;
use esm_sites::{RowCheck, Told, ending, rows_hold, wanted_of};
use std::alloc::Global;
use std::marker::Sync;
use std::sync::Wait;
use std::thread::Threads;

const MAX_STEPS: u64 = 1_000_000;

// Blocks, declarations and branches.
const STATEMENTS: &str = r#"== the empty statement
0
1 ;
>> Fulfilled
>> Limit
Limit L3

== a block
0
1 {}
>> Fulfilled
>> Limit
Limit L3

== a block with a statement
0
2 {;}
>> Fulfilled
>> Limit
Limit L3

== a const
0
1 const a = "1";
>> Fulfilled
>> Limit
Limit L3

== a let without a value
0
1 let a;
>> Fulfilled
>> Limit
Limit L3

== a write
1 let a;
1 a = "1";
>> Fulfilled
>> Limit
Limit L3

== if
0
1 if (true) {}
>> Fulfilled
>> Limit
Limit L3

== if with a statement
0
2 if (true) {;}
>> Fulfilled
>> Limit
Limit L3

== else with a statement
0
2 if (false) {} else {;}
>> Fulfilled
>> Limit
Limit L3"#;

// Handlers, values, prints and awaits.
const VALUES: &str = r#"== try
0
1 try {} catch {}
>> Fulfilled
>> Limit
Limit L3

== catch
0
3 try { throw "a"; } catch (e) {;}
>> Fulfilled
>> Limit
Limit L3

== a limit is no throw
0
2 try { ; } catch { print("no"); }
>> Fulfilled
>> Limit
Limit L3

== an expression
0
1 "a" === "b" || true;
>> Fulfilled
>> Limit
Limit L3

== new Error
0
2 new Error("a");
>> Fulfilled
>> Limit
Limit L3

== a throw that nobody takes
0
1 throw "a";
>> EntryFailed
Uncaught a
>> Limit
Limit L3

== a print
0
2 print("a");
>> Fulfilled
a
>> Limit
Limit L3

== two prints
0
4 print("a"); print("b");
>> Fulfilled
a
b
>> Limit
a
Limit L3

== an await
0
1 await undefined;
>> Fulfilled
>> Limit
Limit L3

== a const of an await
0
1 const a = await "1";
>> Fulfilled
>> Limit
Limit L3

== a print of an await
0
2 print(await "a");
>> Fulfilled
a
>> Limit
Limit L3

== a statement behind an await
0
3 await undefined; print("a");
>> Fulfilled
a
>> Limit
Limit L3"#;

// Calls, exports, and texts that are joined.
const CALLS: &str = r#"== a call
0 function g(){}
2 g();
>> Fulfilled
>> Limit
Limit L3

== a call with a return
0 function g(){return;}
3 g();
>> Fulfilled
>> Limit
Limit L3

== a call of import()
0
2 import("a");
>> Fulfilled
>> Limit
Limit L3

== export of a const
0
1 export const a = "1";
>> Fulfilled
>> Limit
Limit L3

== export default of a text
0
1 export default "1";
>> Fulfilled
>> Limit
Limit L3

== export of a list
0
1 const a = "1"; export {a};
>> Fulfilled
>> Limit
Limit L3

== a concatenation of 63 bytes
0
1 "aaaaaaaaaaaaaaaaaaaaaaaaaaaaaaaaaaaaaaaaaaaaaaaaaaaaaaaaaaaaaa" + "b";
>> Fulfilled
>> Limit
Limit L3

== a concatenation of 64 bytes
0
2 "aaaaaaaaaaaaaaaaaaaaaaaaaaaaaaaaaaaaaaaaaaaaaaaaaaaaaaaaaaaaaaa" + "b";
>> Fulfilled
>> Limit
Limit L3

== a concatenation of 128 bytes
0
3 "aaaaaaaaaaaaaaaaaaaaaaaaaaaaaaaaaaaaaaaaaaaaaaaaaaaaaaaaaaaaaaaaaaaaaaaaaaaaaaaaaaaaaaaaaaaaaaaaaaaaaaaaaaaaaaaaaaaaaaaaaaaaaaa" + "b";
>> Fulfilled
>> Limit
Limit L3"#;

// Functions whose calls, as statements, take 100, 1,000, 10,000 and 100,000 steps.
fn push_functions(text: &mut String) -> Result<(), Memory> {
    text.push_str("function f0(){")?;
    push_times(text, 98, ";")?;
    text.push_str("}function f1(){")?;
    push_times(text, 9, "f0();")?;
    push_times(text, 98, ";")?;
    text.push_str("}function f2(){")?;
    push_times(text, 9, "f1();")?;
    push_times(text, 9, "f0();")?;
    push_times(text, 98, ";")?;
    text.push_str("}function f3(){")?;
    push_times(text, 9, "f2();")?;
    push_times(text, 9, "f1();")?;
    push_times(text, 9, "f0();")?;
    push_times(text, 98, ";")?;
    text.push_str("}")?;
    Ok(())
}

// Statements that take so many steps.
fn push_steps(text: &mut String, many: u64) -> Result<(), Memory> {
    push_times(text, many / 100_000, "f3();")?;
    push_times(text, many % 100_000 / 10_000, "f2();")?;
    push_times(text, many % 10_000 / 1_000, "f1();")?;
    push_times(text, many % 1_000 / 100, "f0();")?;
    push_times(text, many % 100, ";")?;
    Ok(())
}

// A body that has taken so many steps when a form begins that just so many are missing.
fn body_of(alloc: Global, form: &str, missing: u64) -> Result<String, Memory> {
    let (steps_before, before) = counted(form.lines().nth(1).unwrap_or(""));
    let (steps, rest) = counted(form.lines().nth(2).unwrap_or(""));
    let taken = MAX_STEPS.wrapping_sub(steps).wrapping_add(missing);
    let mut text = String::new(alloc);
    push_functions(&mut text)?;
    text.push_str(before)?;
    push_steps(&mut text, taken.wrapping_sub(steps_before))?;
    text.push_str(rest)?;
    Ok(text)
}

// Whether the run in which so many steps are missing ends so.
fn form_ends_so<R: Threads + Wait + Sync>(
    rt: &R,
    alloc: Global,
    form: &str,
    missing: u64,
    end: &str,
) -> Result<bool, Memory> {
    let body = body_of(alloc, form, missing)?;
    text_ends_so(rt, alloc, body.as_str(), ending(end))
}

// Checks that a form runs with just as many steps left as it takes, and meets the limit with one fewer.
struct StepCheck;

impl RowCheck for StepCheck {
    fn is_so<R: Threads + Wait + Sync>(
        &self,
        rt: &R,
        alloc: Global,
        row: &str,
    ) -> Result<bool, Memory> {
        let whole = row.split("\n>> ").nth(1).unwrap_or("");
        let short = row.split("\n>> ").nth(2).unwrap_or("");
        Ok(form_ends_so(rt, alloc, row, 0, whole)? && form_ends_so(rt, alloc, row, 1, short)?)
    }
}

#[test]
fn statements_take_their_steps_and_no_more(rt: HostRuntime) -> Told {
    rows_hold(&rt, rt.alloc(), &StepCheck, STATEMENTS)
}

#[test]
fn values_take_their_steps_and_no_more(rt: HostRuntime) -> Told {
    rows_hold(&rt, rt.alloc(), &StepCheck, VALUES)
}

#[test]
fn calls_take_their_steps_and_no_more(rt: HostRuntime) -> Told {
    rows_hold(&rt, rt.alloc(), &StepCheck, CALLS)
}

// A body that begins so many calls of `import()` behind others.
fn body_of_imports(alloc: Global, before: &str, many: u64) -> Result<String, Memory> {
    let mut text = String::new(alloc);
    text.push_str("function c1(){")?;
    push_times(&mut text, 16, "import(\"./main.js\");")?;
    text.push_str("}function c2(){")?;
    push_times(&mut text, 16, "c1();")?;
    text.push_str("}")?;
    text.push_str(before)?;
    push_times(&mut text, many / 256, "c2();")?;
    push_times(&mut text, many % 256, "import(\"./main.js\");")?;
    text.push_str("print(\"m\");")?;
    Ok(text)
}

// How often `import()` is called behind a text, and how the run ends: 4,096 calls are allowed.
const IMPORTS: &str = r#"== as many calls as there may be
4096
>> Fulfilled
m

== one more
4097
>> Limit
Limit L4

== a value that is no text isn't counted
4096 import(c1);
>> Fulfilled
m

== a specifier that isn't mapped is
4096 import("x");
>> Limit
Limit L4"#;

// Checks that a run with so many calls ends as the row says.
struct ImportCheck;

impl RowCheck for ImportCheck {
    fn is_so<R: Threads + Wait + Sync>(
        &self,
        rt: &R,
        alloc: Global,
        row: &str,
    ) -> Result<bool, Memory> {
        let (many, before) = counted(row.lines().nth(1).unwrap_or(""));
        let body = body_of_imports(alloc, before, many)?;
        text_ends_so(rt, alloc, body.as_str(), wanted_of(row))
    }
}

#[test]
fn import_may_be_called_4096_times(rt: HostRuntime) -> Told {
    rows_hold(&rt, rt.alloc(), &ImportCheck, IMPORTS)
}
