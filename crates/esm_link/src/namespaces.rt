// Which modules a module imports as `* as`, by local name.
ghost use Rattle.std.specs.Prelude.{◌≡◌, ◌<◌, ℕ, List, IfOk, OnOk};
ghost use Rattle.std.specs.Option.{option_or};
ghost use Rattle.esm_base.specs.TextMap.{at};
ghost use Rattle.esm_env.specs.Modules.{Modules};
ghost use Rattle.esm_link.specs.Inner.Graph.{modules_in, namespace_of, only_if_named, AreNamespaces, AreNames, IsWholeGraph};

use crate::graph::RealmGraph;
use esm_ast::Wanted;
use esm_base::{Memory, ModuleId, TextMap};
use esm_resolve::ExportGraph;
use std::alloc::Global;
use std::collections::HashMap;

/// The namespaces that the modules which were asked for import, by module and local name.
#[derive(Drop)]
pub struct Namespaces {
    modules: HashMap<u32, TextMap<ModuleId>>,
}

impl Namespaces {
    /// The namespaces of no modules. It doesn't allocate.
    pub fn new(alloc: Global) -> Namespaces
        ensures { (g : Modules ℕ) → AreNamespaces g result }
    {
        Namespaces {
            modules: HashMap::new(alloc),
        }
    }

    /// The module that a module imports as `* as` by a local name.
    pub fn find(
        &mut self,
        alloc: Global,
        graph: &RealmGraph<'_>,
        m: ModuleId,
        name: &str,
    ) -> Result<Option<ModuleId>, Memory>
        requires inside { IsWholeGraph graph.now }
        requires within { m.0 < (modules_in graph.now).size }
        requires right { AreNamespaces (modules_in graph.now) self.old }
        ensures right { OnOk result (AreNamespaces (modules_in graph.now) self.new) }
        ensures found { IfOk result (λ n. n ≡ namespace_of (modules_in graph.now) m.0 name.now) }
    {
        match self.modules.get(&m.0) {
            Some(names) => Ok(find_name(names, name)),
            None => {
                let names = names_of(alloc, graph, m)?;
                let found = find_name(&names, name);
                self.modules.insert(m.0, names)?;
                Ok(found)
            }
        }
    }
}

fn find_name(names: &TextMap<ModuleId>, name: &str) -> Option<ModuleId>
    ensures { result ≡ at name.now names.now }
{
    names.get(name).copied()
}

/// The namespaces that a module imports, by local name.
fn names_of(alloc: Global, graph: &RealmGraph<'_>, m: ModuleId) -> Result<TextMap<ModuleId>, Memory>
    requires inside { IsWholeGraph graph.now }
    requires within { m.0 < (modules_in graph.now).size }
    ensures { IfOk result (AreNames (modules_in graph.now) m.0) }
{
    let imports = graph.entries(m).imports();
    let mut names = TextMap::empty(alloc);
    for i in 0..imports.len() {
        let entry = &imports[i];
        match &entry.wanted {
            Wanted::Whole => {
                let target = graph.target(m, entry.request);
                add_name(alloc, &mut names, entry.local.as_str(), target)?;
            }
            Wanted::Named(_) => {}
        }
    }
    Ok(names)
}

/// Adds the module of a name, unless the name has one.
fn add_name(
    alloc: Global,
    names: &mut TextMap<ModuleId>,
    name: &str,
    target: ModuleId,
) -> Result<(), Memory>
    ensures { OnOk result ((x : List ℕ) → at x names.new
        ≡ option_or (at x names.old) (only_if_named name.now target x)) }
{
    let key = String::from_str(alloc, name)?;
    match names.insert_new(key, target) {
        Ok(_fresh) => Ok(()),
        Err(end) => Err(end),
    }
}
