// Module texts and their verdicts, worked out from the rules of the language: those of the grammar stand in
// `grammar_rows`, those of the early errors, of nesting, and of the order of faults here.
use crate::grammar_rows::GRAMMAR;
use crate::telling::{Told, has_rows, none};
use crate::tokens::{is_heading, rows_in};
use esm_base::{ReadEnd, TextFault};
use esm_parse_mod::parse;
use std::alloc::{AllocError, Global};

// A heading begins with `# `. A row is the number of the text's items, or its fault; `|`; and the text. In a text
// ⏎ is U+000A, ␍ U+000D, ␉ U+0009, ␌ U+000C, ␠ U+00A0, ␅ U+0085, ⇩ U+2028, ⇟ U+2029, ◆ the bytes EF BB BF, ☒ the byte FF;
// what stands between ⟦ and ⟧ stands there 64 times, between ⟪ and ⟫ 63 times; ⌘ is as many
// spaces as make the text 1,048,576 bytes long up to it.
const ERRORS: &str = r#"# A name exported twice
P3|let a;export{a,a};
2|let a;export{a,a as b};
P3|export let a;export{a};
P3|export*as a from "b";export{a}from "c";
2|export*from "a";export*from "b";
P3|export default a;export default b;
P3|export{default}from "a";export default function(){}
P3|export{a as "\u0062"}from "c";export{a as b}from "d";
2|export{a as "c"}from "c";export{a as b}from "d";
P3|export let a,b;export{b};
P3|export function f(){}let g;export{g as f};
P3|export const a=b;export*as a from "c";
P3|export{a as b,c as b}from "d";
2|export{a as b}from "c";export{b as c}from "d";
P3|let a;export{a as default};export default b;
P3|export default function a(){}export default function b(){}
P3|export*as "\x61" from "b";export*as a from "c";
# What a list without from names
P3|export{"a"};
P3|let a;export{"a"};
P3|export{if as a};
P3|export{print};
2|let a;export{a as if};
P3|export{a};
2|export{a};let a;
2|import{b as a}from "c";export{a};
P3|import{b as a}from "c";export{b};
2|import a from "b";export{a};
2|import*as a from "b";export{a};
2|function a(){}export{a};
2|export default function a(){}export{a};
P3|export default function(){}export{a};
P3|{let a}export{a};
P3|function f(a){let b}export{a};
P3|export{"a"as b};
2|let as;export{as};
P3|let a;export{a,if as b};
P3|let a;export{a,b};
2|const a=b;export{a};
2|export let a;export{a as b};
2|export function a(){}export{a as b};
2|export{a};function a(){}
2|import a,{b}from "c";export{a,b};
P3|export{a}from "b";export{a as c};
P3|export*as a from "b";export{a as c};
P3|try{}catch(a){}export{a};
P3|a=b;export{a};
# A name declared twice at the top level
P3|let a;let a;
P3|let a;const a=b;
P3|let a,a;
P3|import{a}from "b";let a;
P3|import a from "b";import*as a from "c";
P3|import{a,b as a}from "c";
1|import{a,a as b}from "c";
P3|function f(){}function f(){}
P3|export default function f(){}let f;
P3|export let a;let a;
2|let a;{let a}
2|function f(f){}let g;
P3|let a,b,c,a;
P3|import a,{a}from "b";
P3|import a,*as a from "b";
P3|import{a}from "b";function a(){}
P3|export const a=b;import a from "c";
P3|const a=b;export default function a(){}
P3|let a;export function a(){}
2|export default function(){}let a;
2|import{a as b}from "c";let a;
2|import "a";import "a";
2|let a;export{b as a}from "c";
2|if(a){let b}let b;
2|try{}catch(a){}let a;
# A name declared twice in a block
P3|{let a;let a}
2|{let a}{let a}
1|{let a;{let a}}
P3|{{let a;const a=b}}
P3|if(a){let b;let b}
P3|if(a){}else{let b,b}
P3|try{let a;let a}catch{}
P3|try{}catch{let a;let a}
P3|function f(){let a;let a}
P3|function f(){if(b){let a;let a}}
1|function f(){let a;{let a}}
1|if(a){let b}else{let b}
1|try{let a}catch{let a}
1|{let a;{let a;{let a}}}
P3|{if(a){let b;let b}}
P3|{try{let a,a}catch{}}
P3|export function f(){let a;const a=b}
P3|export default function(){{let a,a}}
P3|function f(){try{}catch{let a;let a}}
P3|function f(){if(a){}else{let b;let b}}
1|function f(){let f}
# A parameter's name
P3|function f(a,a){}
P3|function f(a){let a}
1|function f(a){{let a}}
P3|export function f(a,b,a){}
P3|export default function(a){const a=b}
P3|try{}catch(a){let a}
1|try{}catch(a){{let a}}
1|try{let a}catch(a){}
1|function f(a,b){let c}
P3|function f(a,b){let c,b}
1|function f(a){if(a){let a}}
1|function f(a){try{}catch(a){}}
2|function f(a){}function g(a){}
1|function f(f){}
P3|function f(a){try{}catch(b){let b}}
P3|export default function f(a,a){}
P3|if(a){try{}catch(b){const b=c}}
1|try{}catch(a){try{}catch(a){}}
# then as an exported name
P3|export let then;
P3|let a;export{a as then};
P3|export*as then from "a";
P3|export{a as "then"}from "b";
1|let then;
1|export{then as a}from "b";
1|import{then}from "a";
P3|export function then(){}
1|export default function then(){}
1|export default then;
P3|export{then}from "a";
P3|let then;export{then};
2|let then;export{then as a};
P3|export*as "then" from "a";
P3|export{a as "the\u006e"}from "b";
1|export*as Then from "a";
1|export{a as "then "}from "b";
# Nesting: 64 and 65
1|⟦(⟧a⟦)⟧
P4|(⟦(⟧a⟦)⟧)
1|⟦a(⟧⟦)⟧
P4|⟦a(⟧a()⟦)⟧
1|⟦{⟧⟦}⟧
P4|{⟦{⟧⟦}⟧}
1|⟦if(a){⟧⟦}⟧
P4|⟦if(a){⟧if(a){}⟦}⟧
1|⟦try{⟧⟦}catch{}⟧
P4|try{⟦try{⟧⟦}catch{}⟧}catch{}
P4|function f(){⟦{⟧⟦}⟧}
P4|import{⟦{⟧
1|⟦!⟧a
P4|!⟦!⟧a
P4|!⏎⟦!/**/⟧a
1|⟦!⟧(⟦!⟧a)
1|⟦(a)+⟧!a
P2|⟦(⟧
P2|⟦)⟧)
P4|⟦)⟧⟦(⟧(
1|a(⟪(⟫b⟪)⟫)
1|⟦print(⟧⟦)⟧
P4|print(⟦print(⟧⟦)⟧)
1|⟦new Error(⟧⟦)⟧
P4|new Error(⟦new Error(⟧⟦)⟧)
1|⟦import(⟧a⟦)⟧
P4|import(⟦import(⟧a⟦)⟧)
1|if(⟪(⟫a⟪)⟫){}
P4|if(⟦(⟧a⟦)⟧){}
1|if(a){⟪{⟫⟪}⟫}
P4|if(a){⟦{⟧⟦}⟧}
1|if(a){}else{⟪{⟫⟪}⟫}
P4|if(a){}else{⟦{⟧⟦}⟧}
1|try{}catch(a){⟪{⟫⟪}⟫}
P4|try{}catch(a){⟦{⟧⟦}⟧}
1|⟪{⟫try{}catch(a){}⟪}⟫
P4|⟦{⟧try{}catch(a){}⟦}⟧
1|function f(a){⟪{⟫⟪}⟫}
1|function f(){return ⟪(⟫a⟪)⟫}
P4|function f(){return ⟦(⟧a⟦)⟧}
1|export default function(){⟪{⟫⟪}⟫}
P4|export default function(){⟦{⟧⟦}⟧}
1|⟪{⟫(a)⟪}⟫
P4|⟦{⟧(a)⟦}⟧
1|⟪{⟫a()⟪}⟫
P4|⟦{⟧a()⟦}⟧
1|print(await ⟪(⟫a⟪)⟫)
P4|print(await ⟦(⟧a⟦)⟧)
2|⟦(⟧a⟦)⟧;⟦{⟧⟦}⟧
1|await ⟦!⟧a
P4|await !⟦!⟧a
1|⟦!⟧a!==⟦!⟧b
P4|a===!⟦!⟧b
# Where two faults are there
P1|⟦(⟧(☒
P1|let a;let a;☒
P1|☒"
P4|⟦(⟧(#
P2|#⟦(⟧(
P4|let a;let a;⟦(⟧(
P4|)⟦(⟧(
P2|let a;let a;#
P2|let a;let a;)
P3|let a;let a
P1|#☒
P4|!⟦!⟧;
P2|"\u{110000}";let a;let a;
P4|⟦(⟧()⟦)⟧;let a;let a
# The longest text
0|⌘
P6|⌘;
P6|☒⌘;
P6|⟦(⟧(⌘;
P6|◆⌘;
P6|#⌘;
P6|let a;let a;⌘;"#;

const LONGEST: usize = 1_048_576;

fn add(alloc: Global, bytes: &mut Vec<u8>, c: char) -> Result<(), AllocError> {
    let spelled: &[u8] = match c {
        '⏎' => b"\n",
        '␍' => b"\r",
        '␉' => b"\t",
        '␌' => b"\x0c",
        '␠' => b"\xc2\xa0",
        '␅' => b"\xc2\x85",
        '⇩' => b"\xe2\x80\xa8",
        '⇟' => b"\xe2\x80\xa9",
        '◆' => b"\xef\xbb\xbf",
        '☒' => b"\xff",
        _ => {
            let mut text = String::new(alloc);
            text.push(c)?;
            return bytes.extend_from_slice(text.as_bytes());
        }
    };
    bytes.extend_from_slice(spelled)
}

fn fill(bytes: &mut Vec<u8>) -> Result<(), AllocError> {
    for _ in bytes.len()..LONGEST {
        bytes.push(b' ')?;
    }
    Ok(())
}

fn repeat(bytes: &mut Vec<u8>, group: &[u8], times: usize) -> Result<(), AllocError> {
    for _ in 0..times {
        bytes.extend_from_slice(group)?;
    }
    Ok(())
}

fn written(alloc: Global, row: &str) -> Result<Vec<u8>, AllocError> {
    let mut bytes = Vec::new(alloc);
    let mut group = Vec::new(alloc);
    let mut repeats = false;
    for c in row.chars() {
        match c {
            '⟦' | '⟪' => {
                group.clear();
                repeats = true;
            }
            '⟧' => {
                repeat(&mut bytes, &group, 64)?;
                repeats = false;
            }
            '⟫' => {
                repeat(&mut bytes, &group, 63)?;
                repeats = false;
            }
            '⌘' => fill(&mut bytes)?,
            _ => {
                if repeats {
                    add(alloc, &mut group, c)?;
                } else {
                    add(alloc, &mut bytes, c)?;
                }
            }
        }
    }
    Ok(bytes)
}

fn fault(end: ReadEnd) -> &'static str {
    match end {
        ReadEnd::Fault(TextFault::P1) => "P1",
        ReadEnd::Fault(TextFault::P2) => "P2",
        ReadEnd::Fault(TextFault::P3) => "P3",
        ReadEnd::Fault(TextFault::P4) => "P4",
        ReadEnd::Fault(TextFault::P6) => "P6",
        ReadEnd::Memory => "out of memory",
    }
}

fn verdict(alloc: Global, bytes: &[u8]) -> Result<String, AllocError> {
    match parse(alloc, bytes) {
        Ok(tree) => {
            let count = tree.items().len();
            format!(in alloc; "{count}")
        }
        Err(end) => String::from_str(alloc, fault(end)),
    }
}

// Whether the text of a row has the verdict of the row; a heading says nothing.
fn is_judged(alloc: Global, row: &str) -> Result<bool, AllocError> {
    let Some((expected, text)) = row.split_once("|") else {
        return Ok(is_heading(row));
    };
    let bytes = written(alloc, text)?;
    Ok(verdict(alloc, &bytes)?.as_str() == expected)
}

// The first row of both tables whose text has another verdict, if there is one.
fn wrong_row(alloc: Global) -> Result<Option<&'static str>, AllocError> {
    for row in GRAMMAR.lines().chain(ERRORS.lines()) {
        if !is_judged(alloc, row)? {
            return Ok(Some(row));
        }
    }
    Ok(None)
}

#[test]
fn texts_have_their_verdicts(rt: HostRuntime) -> Told {
    none(wrong_row(rt.alloc()))
        .and(has_rows(rows_in(GRAMMAR), 527))
        .and(has_rows(rows_in(ERRORS), 201))
}
