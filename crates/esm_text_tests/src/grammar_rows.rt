// Texts of the grammar: each production once accepted and once just missed, and what the tokens are.

// The rows are written as in `verdicts`.
pub(crate) const GRAMMAR: &str = r#"# Characters, comments and white space
0|
0| ␉␠␌
1|#!a⏎;
0|#! import "a"
1|#!a⇩;
P2|⏎#!a
P2| #!a
1|◆#!a⏎;
1|◆◆;
P2|◆◆#!a⏎;
1|a//b
1|a//b⏎
P2|a/*b*/c
2|a/*⏎*/c
2|a/*⇟*/c
P2|a/*
P2|/*/
2|a⇩b
2|a␍b
P2|a␠b
P2|␅;
P2|<!--a
P1|a☒
P1|//☒
0|◆
0|◆◆
1|#!␍;
1|#!⇟;
0|#!/*⏎
P2|#!a⏎#!b
P2|#
P2|/**/#!a
P2|/*/**/*/
2|a/*␍*/b
2|a/*⇩*/b
2|a//b␍c
2|a//b⇟c
P2|a/**//**/b
# Words
1|$_a1;
1|é;
P2|1a;
P2|\u0061;
P2|this;
P2|eval;
P2|static;
1|as(from,meta,url,async,of,get,set);
P2|a\u{62};
1|yielded;
P2|yield;
P2|arguments;
P2|Error;
P2|implements;
P2|null;
P2|@a;
# Strings and their escapes
1|"";
1|'"';
1|"'";
1|"⇩";
P2|"a⏎";
P2|"a␍";
P2|"a;
P2|'a";
1|"\n\t\r\b\v\f";
1|"\0";
1|"\0a";
P2|"\01";
P2|"\09";
P2|"\1";
1|"\x41";
P2|"\x4";
P2|"\xg1";
1|"\u0041";
P2|"\u004";
1|"\u{000041}";
1|"\u{10FFFF}";
P2|"\u{110000}";
P2|"\u{}";
P2|"\u{41";
1|"\uD83D\uDE00";
P2|"\uD83D";
P2|"\uD83Da";
P2|"\uD83D\u0041";
P2|"\uDE00";
P2|"\u{D83D}";
1|"\⏎";
1|"\␍⏎";
P2|"\⏎␍";
1|"\q\"\'\\";
P2|"\
1|'\'';
P2|'a⏎';
P2|'";
1|"␅";
1|"⇟";
1|"\⇩";
1|"\⇟";
1|"\␍";
P2|"\8";
P2|"\00";
P2|"\x";
P2|"\u";
1|"\u{0}";
P2|"\u{g}";
1|"\uDBFF\uDFFF";
P2|"\uDBFF\uE000";
1|"\uD7FF\uE000";
P2|"\uD7FF\uDC00";
P2|"\uD83D\u{DE00}";
P2|"\u{DFFF}";
# The longest sign
1|a===b;
1|a!==b;
P2|a==b;
P2|a====b;
P2|a!=b;
1|a&&b;
P2|a&b;
P2|a&&&b;
P2|a-b;
P2|[a];
P2|a!===b;
P2|a|||b;
P2|a**b;
1|a===!b;
1|a!==!b;
# Expressions
1|a||b||c;
P2|a||;
P2|||a;
1|a&&b||c&&d;
P2|a&&;
1|a===b!==c;
P2|a===;
1|a+b+"c";
P2|a+;
P2|+a;
1|!!a;
P2|!;
P2|a!;
1|a.b.if;
P2|a.;
P2|a."b";
P2|.a;
1|a();
1|a(b,c,);
P2|a(,);
P2|a(b,,c);
P2|a(b c);
P2|a(b;
1|a()(b).c();
1|"a".b+true+false+undefined;
1|(a);
P2|();
P2|(a,b);
P2|(a;
1|print();
1|print(a,b,).c;
P2|print;
P2|print.a;
1|new Error();
1|new Error(a,).message;
P2|new Error(a,b);
P2|new Error(,);
P2|new Error;
P2|new a();
P2|Error(a);
1|import(a);
1|import⏎(a)
P2|import();
P2|import(a,);
1|import.meta.url.a;
P2|import.meta;
P2|import.meta.a;
P2|import.a.url;
P2|&&a;
P2|===a;
1|a.true.import.await;
P2|a..b;
P2|a.(b);
P2|a.1;
1|(a)(b);
1|((a));
P2|a);
1|undefined();
P2|print(a b);
P2|print(,);
P2|print(a,,);
P2|new Error(a;
P2|new Error(a,;
P2|new Error.a;
P2|new print();
1|new Error(a)();
1|import("a").b();
P2|import(a;
P2|import(a)b;
P2|import.meta.url=a;
1|import⏎.meta⏎.url
# Statements
1|;
1|{}
1|{a⏎b}
1|{a;b}
P2|{a b}
P2|{
P2|}
1|const a=b,c=d;
P2|const a;
P2|const a=b,c;
P2|const a=;
P2|const a=b,;
P2|const if=a;
1|let a,b=c,d;
P2|let;
P2|let a,;
P2|let "a";
P2|let print;
1|a⏎=⏎b;
P2|a=;
P2|a=b=c;
P2|a.b=c;
P2|print=a;
1|if(a){}
1|if(a){}else{}
P2|if(){}
P2|if a{}
P2|if(a);
P2|if(a){}else;
P2|if(a){}else if(b){}
P2|else{}
1|try{}catch{}
1|try{}catch(a){}
P2|try{}
P2|try{}catch(){}
P2|try{}catch(a,b){}
P2|try{}catch("a"){}
P2|try{}catch(print){}
1|throw a;
1|throw/**/a;
P2|throw;
P2|throw⏎a;
P2|throw/*⏎*/a;
1|function f(){return}
1|function f(){return⏎a}
1|function f(){return a;return;{return b}}
P2|function f(){return a b}
P2|return;
P2|{return}
P2|let a b;
P2|let a=b c;
P2|let{a};
P2|const "a"=b;
P2|const a==b;
P2|if a;
P2|if(a{}
P2|if(a)else{}
P2|if(a){}else b
1|if(a){}else{if(b){}}
P2|try;
P2|try{}catch
P2|try{}catch(a
P2|try{}catch(a){
P2|try{}catch(if){}
P2|try a;catch{}
P2|try{}finally{}
P2|catch{}
P2|{throw}
1|function f(){return;}
1|function f(){return/*⏎*/a}
1|function f(){if(a){return}}
P2|function f(){return,}
P2|if(a){return}
P2|try{return}catch{}
# The forms with await
1|await a;
1|await !a.b;
P2|await;
P2|await a+b;
P2|await await a;
1|print(await a);
P2|print(await a,b);
P2|print(await a).b;
P2|print(a,await b);
P2|a(await b);
1|const a=await b;
1|let a=await b,c;
1|a=await b;
P2|a=await b+c;
P2|(await a);
P2|throw await a;
P2|if(await a){}
1|{await a}
1|if(a){await b}else{print(await c)}
P2|function f(){await a}
P2|function f(){print(await a)}
P2|function f(){{let a=await b}}
P2|function f(){a=await b}
P2|function f(){const a=await b}
1|await(a);
1|await⏎a
1|await a(b).c
P2|await=a;
1|await import("a");
1|print⏎(await(a))
P2|print(await);
P2|print(await a;
P2|print(await a+b);
P2|import(await a);
P2|!await a;
P2|a+await b;
1|const a=await b,c=await d;
1|try{await a}catch{await b}
P2|function f(){return await a}
P2|export function f(){await a}
P2|export default function(){await a}
# A missing semicolon
P2|a b
2|a⏎b
1|a⏎;
2|a;;
P2|a⏎}
1|{let a}
1|{throw a}
P2|{a⏎
1|a⏎(b)
1|a⏎.b
1|a⏎+b
2|a⏎!b
1|a⏎!==b
1|await a⏎(b)
P2|print(await a)⏎(b)
2|print(await a)⏎b
1|let a⏎=b
2|let a⏎let b
P2|let a let b
2|{}a
2|if(a){}b
2|function f(){};
2|import "a"⏎export*from "b"
P2|import "a" import "b"
2|import a from "b"⏎;;
1|{a=b}
1|{const a=b}
1|{print(await a)}
1|print(await a)
2|a=b⏎c
P2|a=b c
2|const a=b⏎c
P2|const a=b c
2|throw a⏎b
P2|throw a b
2|await a⏎b
P2|await a b
P2|print(await a)b
2|a⇟b
2|a//c⏎b
1|a⏎===b
1|a⏎&&b
1|a⏎||b
2|a⏎"b"
P2|a "b"
1|let a⏎,b
P2|a⏎,b
P2|a⏎)
P2|a⏎*b
2|a⏎{}
P2|a{}
2|a⏎;b
2|import a from "b"⏎c
P2|import a from "b"c
P2|import "a"}
P2|export*from "a"b
2|export*as a from "b"⏎c
P2|export*as a from "b"c
2|export{a}from "b"⏎c
P2|export{a}from "b"c
1|export{}
2|export{}⏎a
P2|export{}a
2|export const a=b⏎c
P2|export const a=b c
2|export let a⏎b
P2|export let a b
2|export default a⏎b
P2|export default a b
1|export default a⏎(b)
2|export default function(){}(a)
2|export function f(){}a
# Import
1|import "a";
1|import⏎"a"
P2|import;
P2|import a;
P2|import "a" from "b";
1|import a from "b";
P2|import a from b;
P2|import a "b";
1|import from from "a";
1|import*as a from "b";
P2|import*from "b";
P2|import*as "a" from "b";
P2|import*as if from "b";
1|import{}from "a";
1|import{a,b,}from "c";
P2|import{,}from "a";
P2|import{a,,}from "b";
P2|import{a b}from "c";
1|import{a as b,if as c,"d e" as f}from "g";
P2|import{if}from "a";
P2|import{"a"}from "b";
P2|import{a as if}from "b";
P2|import{a as "b"}from "c";
1|import{as}from "a";
P2|import{as as}from "a";
1|import{as as as}from "a";
1|import{default as a}from "b";
1|import a,{b}from "c";
1|import a,*as b from "c";
P2|import a,b from "c";
P2|import a,from "b";
P2|import{a},b from "c";
P2|{import "a"}
P2|function f(){import "a"}
1|import⏎a⏎from⏎"b"
P2|import "a" as b;
P2|import*a from "b";
P2|import*as a,b from "c";
P2|import*as print from "a";
1|import*as as from "a";
P2|import if from "a";
P2|import{a from "b";
P2|import{a}"b";
P2|import{a};
P2|import a{b}from "c";
P2|import a,"b";
P2|import a,*from "b";
1|import a,{}from "b";
1|import as,{from}from "a";
P2|import{+ as a}from "b";
1|import{""as a}from "b";
1|import{"\u0061"as a}from "b";
P2|import{"\uD83D"as a}from "b";
1|import{print as a}from "b";
P2|import{print}from "a";
P2|if(a){import "b"}
# Export
1|export*from "a";
1|export*as if from "b";
1|export*as "a b" from "c";
P2|export*as from "b";
1|export*as from from "b";
P2|export*;
1|export{};
1|export{}from "a";
1|export{a,if as else,"b" as "c",}from "d";
1|export{a}⏎from "b"
P2|export{a}⏎from
P2|export{,}from "a";
P2|export{a b}from "c";
P2|export{a as}from "b";
1|export{as}from "b";
P2|export{as as}from "b";
1|export{as as as}from "b";
1|export const a=await b;
1|export let a,b;
P2|export a;
P2|export a=b;
P2|export;
P2|export{a};}
1|export function f(){}
P2|export function(){}
1|export default function(){}
1|export default function f(){}
P2|export default function f;
1|export default a
1|export default await a;
P2|export default;
P2|export default a=b;
P2|export default let a;
P2|{export{}}
P2|function f(){export{}}
P2|export*"a";
P2|export*from a;
P2|export*as a;
P2|export*as+from "b";
P2|export*,a from "b";
1|export⏎*⏎as⏎""⏎from⏎"a"
P2|export{a,,}from "b";
P2|export{a from "b";
P2|export{a}from b;
P2|export{a}"b";
P2|export{a as+}from "b";
1|export{if}from "a";
1|export{"a"}from "b";
1|export{""as""}from "a";
P2|export{a as "\uDE00"}from "b";
P2|export const a;
P2|export let a=;
P2|export var a;
P2|export if(a){}
P2|export "a";
P2|export import "a";
1|export⏎default⏎(a)
1|export default as
P2|export default await;
P2|export default a,b;
P2|export default const a=b;
P2|export default if(a){}
P2|export default{};
P2|export default function if(){}
1|export default function(a,){}
P2|if(a){export{}}
P2|function f(){export let a}
# Functions
1|function f(a,b,){}
1|function as(from){}
P2|function f(,){}
P2|function f(a b){}
P2|function f("a"){}
P2|function f(if){}
P2|function if(){}
P2|function(){}
P2|function f()
P2|function f(){
P2|{function f(){}}
P2|function f(){function g(){}}
2|async⏎function f(){}
P2|function f;
P2|function f{}
P2|function f();
P2|function f(a,,b){}
P2|function f(a,b{}
P2|function f(a=b){}
P2|function "f"(){}
P2|if(a){function f(){}}
P2|a=function(){}"#;
