// Reading a script.
ghost use Rattle.std.specs.Prelude.{◌≡◌, IfOk, IfErr, MatchResult};
ghost use Rattle.std.specs.Arc.{arc_value};
ghost use Rattle.esm_grammar.specs.ModuleText.{Spells, IsRefusedFor};
ghost use Rattle.esm_ast.specs.Entries as entries;
ghost use Rattle.esm_ast.specs.ModuleTree.{IsModuleTree};
ghost use Rattle.esm_ast.specs.Script.{IsScriptOf};

use crate::entries::entries_of;
use esm_ast::{Entries, Script, Tree, laws};
use esm_base::{Memory, ReadEnd};
use esm_parse_mod::parse;
use std::alloc::Global;
use std::sync::Arc;

// The tree that the bytes spell, to be shared. It keeps no room for further parts.
fn shared_tree(alloc: Global, bytes: &[u8]) -> Result<Arc<Tree>, ReadEnd>
    ensures { MatchResult result
        (λ tree. Spells bytes.now (arc_value tree).items) (IsRefusedFor bytes.now) }
{
    match parse(alloc, bytes) {
        Ok(mut tree) => {
            tree.shrink_to_fit();
            match Arc::new(alloc, tree) {
                Ok(tree) => Ok(tree),
                Err(_) => Err(ReadEnd::Memory),
            }
        }
        Err(end) => Err(end),
    }
}

// The entries of a tree, to be shared.
fn shared_entries(alloc: Global, tree: &Tree) -> Result<Arc<Entries>, Memory>
    ensures { IfOk result (λ e. arc_value e ≡ entries.entries_of tree.now.items) }
{
    let entries = entries_of(alloc, tree)?;
    Ok(Arc::new(alloc, entries)?)
}

/// Reads a module text: the script of the tree that the bytes spell. Where it is refused, for the fault that the bytes
/// have, or because memory ran out, the bytes are handed back. No byte of them is copied. The tree is a module's: no
/// `return` stands outside functions, no `await` inside one, and the names that it exports, and those that it declares
/// outside functions and blocks, are UTF-8.
///
/// HTML, "create a JavaScript module script"; ECMA-262, ParseModule.
pub fn read_script(alloc: Global, bytes: Vec<u8>) -> Result<Script, (ReadEnd, Vec<u8>)>
    ensures ok { IfOk result (IsScriptOf bytes.items) }
    ensures module_tree { IfOk result (λ script. IsModuleTree script.tree.items) }
    ensures refused { IfErr result (λ refusal. IsRefusedFor bytes.items refusal.0) }
    ensures handed_back { IfErr result (λ refusal. refusal.1 ≡ bytes) }
{
    laws::spelled_is_module_tree();
    match shared_tree(alloc, &bytes) {
        Ok(tree) => match shared_entries(alloc, &tree) {
            Ok(entries) => Ok(Script::from_shared(bytes, tree, entries)),
            Err(_) => Err((ReadEnd::Memory, bytes)),
        },
        Err(end) => Err((end, bytes)),
    }
}
