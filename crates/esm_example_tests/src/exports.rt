// Which bindings the names of two modules denote.
use esm_base::Memory;
use esm_examples::exports::{Module, Modules, binding_of};
use esm_resolve::{Binding, Resolution};
use std::alloc::Global;

// `shop.js`, which exports of `cart.js`.
const SHOP: &str = "export * from './cart.js';
export { total as sum } from './cart.js';
export * as cart from './cart.js';
export { gone } from './cart.js';
";

const CART: &str = "export function total() {}\nexport default 'cart';\n";

// The module of a text, whose requests lead to these modules.
fn module(alloc: Global, text: &str, targets: &[u32]) -> Result<Module, Memory> {
    let bytes = Vec::from_slice(alloc, text.as_bytes())?;
    let targets = Vec::from_slice(alloc, targets)?;
    match Module::read(alloc, bytes, targets) {
        Ok(module) => Ok(module),
        Err(_end) => Err(Memory),
    }
}

// Both modules, held.
fn shop(alloc: Global) -> Result<Modules, Memory> {
    let mut modules = Vec::with_capacity(alloc, 2)?;
    modules.push(module(alloc, SHOP, &[1])?)?;
    modules.push(module(alloc, CART, &[])?)?;
    Ok(Modules { modules })
}

// A resolution as a text: how it went, or the module and its binding.
fn shown(alloc: Global, found: &Resolution) -> Result<String, Memory> {
    match found {
        Resolution::Missing => Ok(String::from_str(alloc, "missing")?),
        Resolution::Ambiguous => Ok(String::from_str(alloc, "ambiguous")?),
        Resolution::One(home, Binding::Whole) => Ok(format!(in alloc; "{} *", home.0)?),
        Resolution::One(home, Binding::Local(name)) => {
            Ok(format!(in alloc; "{} {}", home.0, name)?)
        }
    }
}

// A name of `shop.js`, and what it denotes. ECMA-262, ResolveExport: a star passes every name on but `default`, and a name
// that leads nowhere is null.
const NAMES: &str = "\
total = 1 total
sum = 1 total
cart = 1 *
default = missing
gone = missing";

// Whether the name of a row denotes what the row says.
fn is_row_told(alloc: Global, modules: &Modules, row: &str) -> Result<bool, Memory> {
    let (name, wanted) = row.split_once(" = ").unwrap_or((row, ""));
    match binding_of(alloc, modules, 0, name)? {
        Some(found) => Ok(shown(alloc, &found)?.as_str() == wanted),
        None => Ok(false),
    }
}

// The first row of `NAMES` that isn't as it says, if there is one; or what a module that isn't there has.
fn wrong_row(alloc: Global, modules: &Modules) -> Result<Option<&'static str>, Memory> {
    for row in NAMES.lines() {
        if !is_row_told(alloc, modules, row)? {
            return Ok(Some(row));
        }
    }
    match binding_of(alloc, modules, 2, "total")? {
        Some(_found) => Ok(Some("a third module")),
        None => Ok(None),
    }
}

fn wrong_in_shop(alloc: Global) -> Result<Option<&'static str>, Memory> {
    let modules = shop(alloc)?;
    wrong_row(alloc, &modules)
}

#[test]
fn names_denote(rt: HostRuntime) -> Result<(), Memory> {
    assert_eq!(rt; wrong_in_shop(rt.alloc())?, None);
    assert!(rt; NAMES.lines().count() == 5);
    Ok(())
}
