// What a module exports of others by `export *`.
ghost use Rattle.std.specs.Prelude.{◌≡◌, ◌++◌, ◌∷◌, [], List, IfOk, OnOk};
ghost use Rattle.esm_tree.specs.Syntax.{Stmt};
ghost use Rattle.esm_tree.specs.Flat.{item_of};
ghost use Rattle.esm_ast.specs.Entries as entries;

use crate::requests::place_of;
use esm_ast::{ItemNode, Tree};
use esm_base::Memory;
use esm_text_table::TextTable;
use std::alloc::Global;

// Adds the request of an item `export *`.
fn add_star(stars: &mut Vec<usize>, requests: &TextTable, item: &ItemNode) -> Result<(), Memory>
    ensures { (stmts : List Stmt)
        → OnOk result (stars.new.items
        ≡ stars.old.items ++ entries.stars_of requests.now (item_of stmts item.now ∷ [])) }
{
    match item {
        ItemNode::ExportAll(specifier) => {
            stars.push(place_of(requests, specifier))?;
            Ok(())
        }
        _ => Ok(()),
    }
}

// The requests of which everything but `default` is exported, in order.
pub(crate) fn stars_of(
    alloc: Global,
    requests: &TextTable,
    tree: &Tree,
) -> Result<Vec<usize>, Memory>
    ensures { IfOk result (λ v. v.items ≡ entries.stars_of requests.now tree.now.items) }
{
    let mut stars = Vec::new(alloc);
    for item in tree.items() {
        add_star(&mut stars, requests, item)?;
    }
    Ok(stars)
}
