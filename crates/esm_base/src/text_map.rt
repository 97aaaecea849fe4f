// Finite maps from texts.
ghost use Rattle.std.specs.Prelude.{◌≡◌, [], Ok, IfOk, OnErr, Some, None, false, option_copied, string_bytes, if◌then◌else◌};
ghost use Rattle.esm_base.specs.TextMap.{at, with_new};

use crate::Memory;
use std::alloc::Global;
use std::collections::BTreeMap;
use std::marker::Model;

/// A finite map from texts. Contracts see the list of its entries in the order of the keys' bytes, each key once.
#[derive(Drop)]
pub struct TextMap<V> {
    tree: BTreeMap<String, V>,
}

impl<V> Model for TextMap<V> {
    ghost use Rattle.std.specs.Prelude.{List, ℕ, map, string_bytes};

    ghost Value = { List (List ℕ × V) };

    ghost view = { λ m. map (λ e. (string_bytes e.0, e.1)) m.tree.entries };
}

impl<V> TextMap<V> {
    /// The map without entries. It doesn't allocate.
    pub fn empty(alloc: Global) -> TextMap<V>
        ensures { result ≡ [] }
    {
        TextMap {
            tree: BTreeMap::new(alloc),
        }
    }

    /// What the map has at a key.
    pub fn get(&self, key: &str) -> Option<&V>
        ensures { option_copied result ≡ at key.now self.now }
    {
        self.tree.get(key)
    }
}

impl<V: Drop> TextMap<V> {
    /// Puts a new key in. It answers `false` where the map has the key already, and `Memory` where memory runs out;
    /// after both the map is as before.
    pub fn insert_new(&mut self, key: String, value: V) -> Result<bool, Memory>
        ensures inserted { IfOk result (λ fresh. with_new (string_bytes key) value self.old
            ≡ (if fresh then Some self.new else None)) }
        ensures known { result ≡ Ok false → self.new ≡ self.old }
        ensures refused { OnErr result (self.new ≡ self.old) }
    {
        if self.tree.contains_key(key.as_str()) {
            return Ok(false);
        }
        match self.tree.insert(key, value) {
            Ok(_) => Ok(true),
            Err(_) => Err(Memory),
        }
    }
}
