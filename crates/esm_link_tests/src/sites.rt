// Small sites, each with what ECMA-262 says comes of linking its first module.

/// A site is its modules with `|` between them, each its name, `~` and its text; a name is a letter, and requests are names.
/// Behind ` => ` stands what comes of it: the fault, as kind, module, name and target, or `fine`, and then for each module
/// `+` where it is Linked and has a scope, `-` where it is Unlinked. A line of `#` says what the rows below it show.
pub const SITES: &str = "\
# an import that the target doesn't export
m~import {n} from 'a';|a~ => K1 m n a: -+
m~import {n as k} from 'a';|a~let n; => K1 m n a: -+
m~import d from 'a';|a~export let x; => K1 m default a: -+
m~import {z} from 'a'; import {w} from 'b';|a~|b~ => K1 m z a: -++
# one that it exports in two ways
m~import {x} from 's';|s~export * from 'a'; export * from 'b';|a~export let x;|b~export let x; => K2 m x s: -+++
# an export of what the target doesn't export
m~import 's';|s~export {x} from 'a';|a~ => K3 s x a: --+
m~import 's';|s~import {x} from 'a'; export {x as y};|a~ => K3 s y a: --+
m~import {x} from 'm'; export {x}; => K3 m x m: -
# an export of what it exports in two ways
m~import 's';|s~export {x as y} from 't';|t~export * from 'a'; export * from 'b';|a~export let x;|b~export let x; => K4 s y t: --+++
# exports come before imports
m~import {n} from 'a'; export {k} from 'a';|a~ => K3 m k a: -+
# faults in a cycle
m~import 'a';|a~import {y} from 'b'; export let x;|b~import {z} from 'a'; export let y; => K1 b z a: ---
m~import 'a';|a~export {x} from 'b';|b~export {x} from 'a'; => K3 b x a: ---
m~import 'c'; import 'a';|a~import 'b'; import {n} from 'c';|b~import 'a';|c~ => K1 a n c: ---+
# names through three stars, to one binding, to two, by two paths to one, and round a cycle
m~import {x} from 'p';|p~export * from 'q';|q~export * from 'r';|r~export * from 'a';|a~export let x; => fine: +++++
m~import {x} from 'p';|p~export * from 'q';|q~export * from 'r';|r~export * from 'a'; export * from 'b';|a~export let x;|b~export let x; => K2 m x p: -+++++
m~import {x} from 'p';|p~export * from 'q'; export * from 'r';|q~export * from 'a';|r~export * from 'a';|a~export let x; => fine: +++++
m~import {x} from 'p';|p~export * from 'q'; export * from 'r';|q~export {x} from 'a';|r~export * from 'a';|a~export let x; => fine: +++++
m~import {x, y} from 'p';|p~export * from 'm'; export * from 'a'; export let y;|a~export * from 'p'; export let x; => fine: +++
# a name of its own, or an export of another's, comes before stars
m~import {x} from 's';|s~export * from 'a'; export let x;|a~export let x; => fine: +++
m~import {x} from 's';|s~export * from 'a'; export {x} from 'b';|a~export let x;|b~export let x; => fine: ++++
# default
m~import {default as d} from 's';|s~export * from 'a';|a~export default ''; => K1 m default s: -++
m~import d from 's';|s~export {default} from 'a';|a~export default ''; => fine: +++
m~import d from 'a';|a~export default function () {} => fine: ++
m~import d from 'a';|a~export {x as default}; let x; => fine: ++
# namespaces
m~import * as n from 's';|s~export * from 'a'; export * from 'b';|a~export let x;|b~export let x; => fine: ++++
m~import {n} from 's';|s~export * as n from 'a';|a~ => fine: +++
m~import {n} from 's';|s~import * as n from 'a'; export {n};|a~ => fine: +++
m~import * as n from 'm'; => fine: +
# one module, and a cycle of two
m~ => fine: +
m~import 'a'; import 'b';|a~import 'b';|b~import 'a'; => fine: +++";

/// Sites in which a name is sought over other modules.
pub const SOUGHT: &str = "\
# two stars, behind which two bindings or one stand; a default, which no star passes on
m~import {x} from 's'; print(x);|s~export * from 'a'; export * from 'b';|a~export const x = 'a';|b~export const x = 'b'; => K2 m x s: -+++
m~import {x} from 's'; print(x);|s~export * from 'a'; export * from 'b';|a~export * from 'c';|b~export * from 'c';|c~export const x = 'c'; => fine: +++++
m~import d from 's'; print(d);|s~export * from 'd';|d~export default 'v'; => K1 m default s: -++
# a cycle, of which b is left first
m~import {x} from 'a';|a~export {x} from 'b';|b~export {x} from 'a'; => K3 b x a: ---";

/// The place of a module in a site.
pub fn place_of(site: &str, name: &str) -> usize {
    site.split('|')
        .take_while(|part| !part.starts_with(name))
        .count()
}

/// The name of the module at a place.
pub fn name_at(site: &str, place: usize) -> &str {
    match site.split('|').nth(place) {
        Some(part) => match part.split_once('~') {
            Some((name, _text)) => name,
            None => "?",
        },
        None => "?",
    }
}
