// A module text that was read.
ghost use Rattle.std.specs.Prelude.{◌≡◌, ◌≤◌, IfOk, length};
ghost use Rattle.std.specs.Arc.{arc_value};
ghost use Rattle.esm_base.specs.declared.limits.TheConstants.{MAX_FILE_BYTES};
ghost use Rattle.esm_grammar.specs.ModuleText.{Spells};
ghost use Rattle.esm_ast.specs.Entries.{NamesRequests, entries_of};
ghost use Rattle.esm_ast.specs.Script.{script_parts};

use crate::{Entries, Tree};
use esm_base::Memory;
use std::alloc::Global;
use std::marker::Model;
use std::sync::Arc;

/// A module text: its bytes, the tree that they spell, and the entries of that tree.
#[derive(Drop)]
pub struct Script {
    bytes: Vec<u8>,
    tree: Arc<Tree>,
    entries: Arc<Entries>,
}

impl Model for Script {
    ghost use Rattle.std.specs.Prelude.{◌≡◌};
    ghost use Rattle.esm_ast.specs.Script.{ScriptParts, script_parts};
    ghost use Rattle.esm_grammar.specs.ModuleText.{Spells};
    ghost use Rattle.esm_ast.specs.Entries.{entries_of};
    ghost use Rattle.std.specs.Coded.{codes};
    ghost use Rattle.esm_tree.specs.Syntax.{coded_parts};

    ghost Value = { ScriptParts };

    ghost coded = { Prim.hlevel (codes, coded_parts) };

    ghost view = { λ s. script_parts s.bytes.items s.tree.value s.entries.value };

    ghost invariant = { λ s. Spells s.bytes.items s.tree.value.items × (s.entries.value ≡ entries_of s.tree.value.items) };
}

impl Script {
    /// The script of these bytes, with their tree and its entries.
    pub fn new(
        alloc: Global,
        bytes: Vec<u8>,
        tree: Tree,
        entries: Entries,
    ) -> Result<Script, Memory>
        requires spelled { Spells bytes.items tree.items }
        requires entries { entries ≡ entries_of tree.items }
        ensures { IfOk result (λ s. s ≡ script_parts bytes.items tree entries) }
    {
        let tree = Arc::new(alloc, tree)?;
        let entries = Arc::new(alloc, entries)?;
        Ok(Script::from_shared(bytes, tree, entries))
    }

    /// The same of parts that are shared already. It takes no memory.
    pub fn from_shared(bytes: Vec<u8>, tree: Arc<Tree>, entries: Arc<Entries>) -> Script
        requires spelled { Spells bytes.items (arc_value tree).items }
        requires entries { arc_value entries ≡ entries_of (arc_value tree).items }
        ensures { result ≡ script_parts bytes.items (arc_value tree) (arc_value entries) }
    {
        Script {
            bytes,
            tree,
            entries,
        }
    }

    /// The bytes.
    pub fn bytes(&self) -> &[u8]
        ensures { result.now ≡ self.now.bytes }
    {
        self.bytes.as_slice()
    }

    /// The tree, which is the one that the bytes spell.
    pub fn tree(&self) -> &Tree
        ensures tree { result.now ≡ self.now.tree }
        ensures spelled { Spells self.now.bytes self.now.tree.items }
    {
        &self.tree
    }

    /// The entries, which are those of the tree. They name at most 1,048,576 requests, and no others.
    pub fn entries(&self) -> &Entries
        ensures entries { result.now ≡ self.now.entries }
        ensures of_tree { self.now.entries ≡ entries_of self.now.tree.items }
        ensures few { length self.now.entries.requests ≤ MAX_FILE_BYTES }
        ensures named { NamesRequests self.now.entries (length self.now.entries.requests) }
    {
        &self.entries
    }

    /// One more owner of the tree.
    pub fn share_tree(&self) -> Result<Arc<Tree>, Memory>
        ensures { IfOk result (λ t. arc_value t ≡ self.now.tree) }
    {
        Ok(Arc::try_clone(&self.tree)?)
    }

    /// One more owner of the entries.
    pub fn share_entries(&self) -> Result<Arc<Entries>, Memory>
        ensures { IfOk result (λ e. arc_value e ≡ self.now.entries) }
    {
        Ok(Arc::try_clone(&self.entries)?)
    }
}
