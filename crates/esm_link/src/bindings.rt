// What the imports of a module are bound to. ECMA-262, InitializeEnvironment.
ghost use Rattle.std.specs.Prelude.{◌≡◌, ◌<◌, ◌++◌, ◌∷◌, [], length, IfOk, OnOk, MatchResult};
ghost use Rattle.esm_env.specs.Modules.{entries};
ghost use Rattle.esm_link.specs.Inner.Graph.{modules_in, AreIndexes, IsWholeGraph};
ghost use Rattle.esm_link.specs.Inner.Imports.{AreBoundImports, HasFault, HasImportFault, IsBound, IsBoundTo, IsNameBoundTo, cell_or, end_target};

use crate::fault::export_fault;
use crate::graph::RealmGraph;
use crate::indexes::Indexes;
use crate::{LinkEnd, LinkFault, LinkKind};
use esm_ast::{ImportEntry, Wanted};
use esm_base::{Memory, ModuleId, Text};
use esm_env::Target;
use esm_resolve::{Binding, ExportGraph, Resolution, resolve_with};
use std::alloc::Global;

/// The imports of a module, each with what it is bound to: an indirect export, or else an import, that doesn't resolve
/// to one binding is its fault.
pub fn bind(
    alloc: Global,
    graph: &RealmGraph<'_>,
    indexes: &mut Indexes,
    x: ModuleId,
) -> Result<Vec<(Text, Target)>, LinkEnd>
    requires inside { IsWholeGraph graph.now }
    requires within { x.0 < (modules_in graph.now).size }
    requires indexes { AreIndexes (modules_in graph.now) indexes.old }
    ensures indexes { OnOk result (AreIndexes (modules_in graph.now) indexes.new) }
    ensures bound { MatchResult result (λ bound. IsBound (modules_in graph.now) x.0 bound.items)
        (HasFault (modules_in graph.now) x.0) }
{
    let entries = graph.entries(x);
    match export_fault(alloc, graph, indexes, x, entries.indirects()) {
        Ok(None) => bind_imports(alloc, graph, indexes, x, entries.imports()),
        Ok(Some(fault)) => Err(LinkEnd::Fault(fault)),
        Err(_memory) => Err(LinkEnd::Memory),
    }
}

fn bind_imports(
    alloc: Global,
    graph: &RealmGraph<'_>,
    indexes: &mut Indexes,
    x: ModuleId,
    imports: &[ImportEntry],
) -> Result<Vec<(Text, Target)>, LinkEnd>
    requires inside { IsWholeGraph graph.now }
    requires within { x.0 < (modules_in graph.now).size }
    requires own { imports.now ≡ (entries (modules_in graph.now) x.0).imports }
    requires indexes { AreIndexes (modules_in graph.now) indexes.old }
    ensures indexes { OnOk result (AreIndexes (modules_in graph.now) indexes.new) }
    ensures bound { MatchResult result
        (λ bound. AreBoundImports (modules_in graph.now) x.0 imports.now bound.items)
        (HasImportFault (modules_in graph.now) x.0 imports.now) }
{
    let mut bound = Vec::new(alloc);
    for i in 0..imports.len() {
        let entry = &imports[i];
        let target = match bind_import(alloc, graph, indexes, x, entry) {
            Ok(target) => target,
            Err(end) => return Err(end),
        };
        push_bound(alloc, &mut bound, entry.local.as_str(), target)?;
    }
    Ok(bound)
}

fn push_bound(
    alloc: Global,
    bound: &mut Vec<(Text, Target)>,
    local: &str,
    target: Target,
) -> Result<(), Memory>
    ensures { OnOk result (bound.new.items ≡ bound.old.items ++ (local.now, target) ∷ []) }
{
    let name = Text::copy(alloc, local)?;
    bound.push((name, target))?;
    Ok(())
}

/// What an import is bound to.
fn bind_import(
    alloc: Global,
    graph: &RealmGraph<'_>,
    indexes: &mut Indexes,
    x: ModuleId,
    entry: &ImportEntry,
) -> Result<Target, LinkEnd>
    requires inside { IsWholeGraph graph.now }
    requires within { x.0 < (modules_in graph.now).size }
    requires request { entry.now.request < length (entries (modules_in graph.now) x.0).requests }
    requires indexes { AreIndexes (modules_in graph.now) indexes.old }
    ensures indexes { OnOk result (AreIndexes (modules_in graph.now) indexes.new) }
    ensures bound { IsBoundTo (modules_in graph.now) x.0 entry.now result }
{
    let target = graph.target(x, entry.request);
    match &entry.wanted {
        Wanted::Whole => Ok(Target::Whole(target)),
        Wanted::Named(name) => bind_name(alloc, graph, indexes, x, target, name),
    }
}

/// What an import of a name of a module is bound to.
fn bind_name(
    alloc: Global,
    graph: &RealmGraph<'_>,
    indexes: &mut Indexes,
    x: ModuleId,
    target: ModuleId,
    name: &Text,
) -> Result<Target, LinkEnd>
    requires inside { IsWholeGraph graph.now }
    requires within { target.0 < (modules_in graph.now).size }
    requires indexes { AreIndexes (modules_in graph.now) indexes.old }
    ensures indexes { OnOk result (AreIndexes (modules_in graph.now) indexes.new) }
    ensures bound { IsNameBoundTo (modules_in graph.now) x.0 target.0 name.now result }
{
    let kind = match resolve_with(alloc, graph, &mut indexes.exports, target, name.as_str())? {
        Resolution::One(home, binding) => {
            return Ok(end_target(alloc, graph, indexes, home, binding)?);
        }
        Resolution::Missing => LinkKind::K1,
        Resolution::Ambiguous => LinkKind::K2,
    };
    let name = Text::copy(alloc, name.as_str())?;
    Err(LinkEnd::Fault(LinkFault {
        kind,
        module: x,
        name,
        target,
    }))
}

/// Where the binding of a module stands: in a cell of it, or it is a whole namespace.
fn end_target(
    alloc: Global,
    graph: &RealmGraph<'_>,
    indexes: &mut Indexes,
    home: ModuleId,
    binding: Binding,
) -> Result<Target, Memory>
    requires inside { IsWholeGraph graph.now }
    requires within { home.0 < (modules_in graph.now).size }
    requires indexes { AreIndexes (modules_in graph.now) indexes.old }
    ensures indexes { OnOk result (AreIndexes (modules_in graph.now) indexes.new) }
    ensures target { IfOk result (λ t. t ≡ end_target (modules_in graph.now) home binding) }
{
    match binding {
        Binding::Whole => Ok(Target::Whole(home)),
        Binding::Local(name) => {
            let found = indexes.namespaces.find(alloc, graph, home, name.as_str())?;
            Ok(cell_or(home, name, found))
        }
    }
}

/// The namespace that was found, or else a cell.
fn cell_or(home: ModuleId, name: Text, found: Option<ModuleId>) -> Target
    ensures { result ≡ cell_or home name found }
{
    match found {
        Some(of) => Target::Whole(of),
        None => Target::Cell(home, name),
    }
}
