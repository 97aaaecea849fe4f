// The fault of a module's indirect exports.
ghost use Rattle.std.specs.Prelude.{◌≡◌, ◌<◌, Option, IfOk, OnOk};
ghost use Rattle.std.specs.Option.{option_map};
ghost use Rattle.esm_env.specs.Modules.{entries};
ghost use Rattle.esm_resolve.specs.Keys.{is_one};
ghost use Rattle.esm_link.specs.Faults.{ExportFault, export_kind, import_kind};
ghost use Rattle.esm_link.specs.Realm.{fault_of};
ghost use Rattle.esm_link.specs.Inner.Graph.{modules_in, AreIndexes, IsWholeGraph};

use crate::graph::RealmGraph;
use crate::indexes::Indexes;
use crate::{LinkFault, LinkKind};
use esm_ast::IndirectExport;
use esm_base::{Memory, ModuleId, Text};
use esm_resolve::{ExportGraph, Resolution, resolve_with};
use std::alloc::Global;

/// The first of a module's indirect exports that doesn't resolve to one binding.
pub fn export_fault(
    alloc: Global,
    graph: &RealmGraph<'_>,
    indexes: &mut Indexes,
    x: ModuleId,
    exports: &[IndirectExport],
) -> Result<Option<LinkFault>, Memory>
    requires inside { IsWholeGraph graph.now }
    requires within { x.0 < (modules_in graph.now).size }
    requires own { exports.now ≡ (entries (modules_in graph.now) x.0).indirects }
    requires indexes { AreIndexes (modules_in graph.now) indexes.old }
    ensures indexes { OnOk result (AreIndexes (modules_in graph.now) indexes.new) }
    ensures fault { IfOk result (λ f.
        ExportFault (modules_in graph.now) x.0 exports.now (option_map fault_of f)) }
{
    for i in 0..exports.len() {
        let entry = &exports[i];
        let resolution = resolve_with(alloc, graph, &mut indexes.exports, x, entry.name.as_str())?;
        if !is_one_binding(&resolution) {
            let kind = export_kind(&resolution);
            let name = Text::copy(alloc, entry.name.as_str())?;
            let target = graph.target(x, entry.request);
            return Ok(Some(LinkFault {
                kind,
                module: x,
                name,
                target,
            }));
        }
    }
    Ok(None)
}

/// Whether a resolution is one binding.
fn is_one_binding(resolution: &Resolution) -> bool
    ensures { result ≡ is_one resolution.now }
{
    matches!(resolution, Resolution::One(_, _))
}

fn export_kind(resolution: &Resolution) -> LinkKind
    ensures { result ≡ export_kind resolution.now }
{
    match resolution {
        Resolution::Ambiguous => LinkKind::K4,
        Resolution::Missing => LinkKind::K3,
        Resolution::One(_, _) => LinkKind::K3,
    }
}
