// The imported bindings by their local names.
ghost use Rattle.std.specs.Prelude.{◌≡◌, ℕ, List, IfOk, OnOk, Some, option_copied, bytes_eq};
ghost use Rattle.std.specs.Map.{update};
ghost use Rattle.esm_ast.specs.declared.entries.ImportEntry.{ImportEntry as Entry};
ghost use Rattle.esm_ast.specs.Entries.{import_named};
ghost use Rattle.esm_script.specs.Inner.{IsIndexOf, found_in};

use esm_ast::ImportEntry;
use esm_base::Memory;
use std::alloc::Global;
use std::collections::BTreeMap;

// Imported bindings by their local names.
#[derive(Drop)]
pub(crate) struct ImportIndex<'a> {
    by_local: BTreeMap<&'a str, &'a ImportEntry>,
}

// Puts a binding in place of one of the same local name.
fn put<'a>(
    by_local: &mut BTreeMap<&'a str, &'a ImportEntry>,
    entry: &'a ImportEntry,
) -> Result<(), Memory>
    ensures { OnOk result ((name : List ℕ) → found_in by_local.new name
        ≡ update bytes_eq (found_in by_local.old) entry.now.local (Some entry.now) name) }
{
    by_local.insert(entry.local.as_str(), entry)?;
    Ok(())
}

impl<'a> ImportIndex<'a> {
    // The index of these bindings. The first of a name stays.
    pub(crate) fn new(alloc: Global, imports: &'a [ImportEntry]) -> Result<ImportIndex<'a>, Memory>
        ensures { IfOk result (IsIndexOf imports.now) }
    {
        let mut by_local = BTreeMap::new(alloc);
        for i in (0..imports.len()).rev() {
            put(&mut by_local, &imports[i])?;
        }
        Ok(ImportIndex { by_local })
    }

    // The binding of a local name.
    pub(crate) fn find(&self, name: &str) -> Option<&'a ImportEntry>
        ensures { (imports : List Entry)
            → IsIndexOf imports self.now → option_copied result ≡ import_named imports name.now }
    {
        self.by_local.get(name).copied()
    }
}
