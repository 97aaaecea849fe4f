// The entries of a tree.
ghost use Rattle.std.specs.Prelude.{◌≡◌, IfOk};
ghost use Rattle.esm_ast.specs.Entries as entries;

use crate::awaits::has_await;
use crate::exports::exports_of;
use crate::imports::imports_of;
use crate::requests::requests_of;
use crate::stars::stars_of;
use esm_ast::{Entries, Tree};
use esm_base::Memory;
use std::alloc::Global;

/// What a module with this tree requests, imports and exports, and whether it has top-level await. In time linear
/// in the size of the tree, but for names, which are found by comparisons in balanced trees.
///
/// ECMA-262, ParseModule: its steps from requestedModules on.
pub fn entries_of(alloc: Global, tree: &Tree) -> Result<Entries, Memory>
    ensures { IfOk result (λ e. e ≡ entries.entries_of tree.now.items) }
{
    let requests = requests_of(alloc, tree)?;
    let imports = imports_of(alloc, &requests, tree)?;
    let exports = exports_of(alloc, &requests, &imports, tree)?;
    let stars = stars_of(alloc, &requests, tree)?;
    let requests = requests.into_texts();
    Ok(Entries::new(
        requests,
        imports,
        exports.locals,
        exports.indirects,
        stars,
        has_await(tree),
    ))
}
