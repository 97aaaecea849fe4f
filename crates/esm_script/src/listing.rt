// What an export list names: bindings of the module, or those that it imports.
ghost use Rattle.std.specs.Prelude.{◌≡◌, ◌∷◌, [], List, OnOk, map, option_copied};
ghost use Rattle.esm_ast.specs.declared.entries.ImportEntry.{ImportEntry as Entry};
ghost use Rattle.esm_ast.specs.Entries.{local_export, indirect_export, own_export, passed_on, listed, listed_by};
ghost use Rattle.esm_script.specs.Inner.{Adds, IsIndexOf};

use crate::index::ImportIndex;
use esm_ast::{ExportSpecifier, ImportEntry, IndirectExport, LocalExport, Wanted};
use esm_base::{Memory, Text};
use std::alloc::Global;

// Exports that are gathered.
#[derive(Drop)]
pub(crate) struct Exports {
    pub(crate) locals: Vec<LocalExport>,
    pub(crate) indirects: Vec<IndirectExport>,
}

impl Exports {
    // None so far. It takes no memory.
    pub(crate) fn new(alloc: Global) -> Exports
        ensures locals { result.locals.items ≡ [] }
        ensures indirects { result.indirects.items ≡ [] }
    {
        Exports {
            locals: Vec::new(alloc),
            indirects: Vec::new(alloc),
        }
    }

    // Adds a binding of the module.
    pub(crate) fn add_local(&mut self, name: Text, local: Text) -> Result<(), Memory>
        ensures { OnOk result (Adds self.old self.new (local_export name local ∷ [])) }
    {
        self.locals.push(LocalExport { name, local })?;
        Ok(())
    }

    // Adds a binding of another module.
    fn add_indirect(&mut self, name: Text, request: usize, wanted: Wanted) -> Result<(), Memory>
        ensures { OnOk result (Adds self.old self.new (indirect_export name request wanted ∷ [])) }
    {
        self.indirects.push(IndirectExport {
            name,
            request,
            wanted,
        })?;
        Ok(())
    }

    // Adds a binding of the module under its own name.
    pub(crate) fn add_own(&mut self, name: &Text) -> Result<(), Memory>
        ensures { OnOk result (Adds self.old self.new (own_export name.now ∷ [])) }
    {
        let exported = name.clone()?;
        let local = name.clone()?;
        self.add_local(exported, local)
    }

    // Adds the namespace of another module.
    pub(crate) fn add_space(&mut self, name: &Text, request: usize) -> Result<(), Memory>
        ensures { OnOk result (Adds self.old self.new
            (indirect_export name.now request Wanted.Whole ∷ [])) }
    {
        let exported = name.clone()?;
        self.add_indirect(exported, request, Wanted::Whole)
    }

    // Adds one element of a list with `from`.
    fn add_passed(&mut self, request: usize, specifier: &ExportSpecifier) -> Result<(), Memory>
        ensures { OnOk result (Adds self.old self.new (passed_on request specifier.now ∷ [])) }
    {
        let exported = specifier.exported.clone()?;
        let wanted = specifier.first.clone()?;
        self.add_indirect(exported, request, Wanted::Named(wanted))
    }

    // Adds a list with `from`.
    pub(crate) fn add_all_passed(
        &mut self,
        request: usize,
        specifiers: &[ExportSpecifier],
    ) -> Result<(), Memory>
        ensures { OnOk result (Adds self.old self.new (map (passed_on request) specifiers.now)) }
    {
        for specifier in specifiers {
            self.add_passed(request, specifier)?;
        }
        Ok(())
    }
}

impl Exports {
    // Adds a listed name, with the import entry of that name, if there is one.
    fn add_found(
        &mut self,
        specifier: &ExportSpecifier,
        found: Option<&ImportEntry>,
    ) -> Result<(), Memory>
        ensures { OnOk result (Adds self.old self.new
            (listed_by specifier.now.exported specifier.now.first
            (option_copied found.entry) ∷ [])) }
    {
        let exported = specifier.exported.clone()?;
        match found {
            Some(entry) => match &entry.wanted {
                Wanted::Named(wanted) => {
                    let wanted = wanted.clone()?;
                    self.add_indirect(exported, entry.request, Wanted::Named(wanted))
                }
                Wanted::Whole => {
                    let local = specifier.first.clone()?;
                    self.add_local(exported, local)
                }
            },
            None => {
                let local = specifier.first.clone()?;
                self.add_local(exported, local)
            }
        }
    }

    // Adds a list without `from`.
    pub(crate) fn add_all_listed(
        &mut self,
        index: &ImportIndex,
        specifiers: &[ExportSpecifier],
    ) -> Result<(), Memory>
        ensures { (imports : List Entry)
            → IsIndexOf imports index.now
            → OnOk result (Adds self.old self.new (map (listed imports) specifiers.now)) }
    {
        for specifier in specifiers {
            let found = index.find(specifier.first.as_str());
            self.add_found(specifier, found)?;
        }
        Ok(())
    }
}
