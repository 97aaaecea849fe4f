// Whether a graph may be asked for each of its modules.
ghost use Rattle.std.specs.Prelude.{◌≡◌, ◌<◌, ◌↔◌, IsTrue};
ghost use Rattle.std.specs.List.{list_all};
ghost use Rattle.esm_resolve.specs.Graph.{AreAllSound};
ghost use Rattle.esm_resolve.specs.Inner.Inside as inner;

use crate::ExportGraph;
use esm_ast::IndirectExport;
use esm_base::ModuleId;

/// Whether each module of a graph may be asked for: whether what each exports of others is of its own requests, and
/// leads to modules of the graph. It takes no memory, and looks at each export of another module once.
pub fn is_sound<G: ExportGraph>(graph: &G) -> bool
    ensures { IsTrue result ↔ AreAllSound (G.graph graph.now) }
{
    for x in 0..graph.size() {
        if !is_sound_at(graph, ModuleId(x)) {
            return false;
        }
    }
    true
}

// Whether what a module exports of others is so.
fn is_sound_at<G: ExportGraph>(graph: &G, m: ModuleId) -> bool
    requires { m.0 < (G.graph graph.now).size }
    ensures { result ≡ inner.is_sound_at (G.graph graph.now) m.0 }
{
    let entries = graph.entries(m);
    are_indirects_inside(graph, m, entries.indirects())
        && are_stars_inside(graph, m, entries.stars())
}

// The same of exports by name.
fn are_indirects_inside<G: ExportGraph>(
    graph: &G,
    m: ModuleId,
    indirects: &[IndirectExport],
) -> bool
    requires { m.0 < (G.graph graph.now).size }
    ensures { result
        ≡ list_all (λ e. inner.is_inside (G.graph graph.now) m.0 e.request) indirects.now }
{
    for entry in indirects {
        if !is_inside(graph, m, entry.request) {
            return false;
        }
    }
    true
}

// The same of exports of everything.
fn are_stars_inside<G: ExportGraph>(graph: &G, m: ModuleId, stars: &[usize]) -> bool
    requires { m.0 < (G.graph graph.now).size }
    ensures { result ≡ list_all (inner.is_inside (G.graph graph.now) m.0) stars.now }
{
    for request in stars {
        if !is_inside(graph, m, *request) {
            return false;
        }
    }
    true
}

// Whether a request is one of the module's own and leads to a module of the graph.
fn is_inside<G: ExportGraph>(graph: &G, m: ModuleId, request: usize) -> bool
    requires { m.0 < (G.graph graph.now).size }
    ensures { result ≡ inner.is_inside (G.graph graph.now) m.0 request }
{
    request < graph.entries(m).requests().len() && graph.target(m, request).0 < graph.size()
}
