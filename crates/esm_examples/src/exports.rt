//! What a linter or a bundler wants to know: which binding a name denotes, over modules that it holds itself.
ghost use Rattle.std.specs.Prelude.{◌≡◌, ◌<◌, IfErr, IfOk, IfSome, IsSome, length};
ghost use Rattle.esm_ast.specs.Script.{IsScriptOf};
ghost use Rattle.esm_examples.specs.Exports.{IsUnusable};
ghost use Rattle.esm_resolve.specs.Graph.{AreAllSound};
ghost use Rattle.esm_resolve.specs.Resolution.{IsResolutionOf, pair_of};

use esm_ast::{Entries, Script};
use esm_base::{End, Memory, ModuleId, ReadEnd, TextFault};
use esm_resolve::{ExportGraph, Resolution, is_sound, resolve_export};
use esm_script::read_script;
use std::alloc::Global;

/// A module that is held: its text as it was read, and for each of its requests the number of the module that it
/// leads to.
#[derive(Drop)]
pub struct Module {
    script: Script,
    targets: Vec<u32>,
    ghost all_targets: { length script.entries.requests ≡ length targets.items },
}

/// Why a module isn't held.
#[derive(Clone, Copy, Debug, PartialEq, Eq)]
pub enum Unusable {
    /// Its bytes are no module text.
    Text(TextFault),
    /// There are more or fewer targets than requests.
    Targets,
}

impl Module {
    /// The module with these bytes, whose requests, in order of first appearance, lead to these modules.
    pub fn read(alloc: Global, bytes: Vec<u8>, targets: Vec<u32>) -> Result<Module, End<Unusable>>
        ensures held { IfOk result (λ m. IsScriptOf bytes.items m.script × (m.targets ≡ targets)) }
        ensures refused { IfErr result (IsUnusable bytes.items targets.items) }
    {
        match read_script(alloc, bytes) {
            Ok(script) => {
                if script.entries().requests().len() != targets.len() {
                    return Err(End::Fault(Unusable::Targets));
                }
                Ok(Module { script, targets })
            }
            Err((ReadEnd::Fault(fault), _)) => Err(End::Fault(Unusable::Text(fault))),
            Err((ReadEnd::Memory, _)) => Err(End::Memory),
        }
    }
}

/// Modules by number, from 0 on.
#[derive(Drop)]
pub struct Modules {
    /// The modules.
    pub modules: Vec<Module>,
}

impl ExportGraph for Modules {
    ghost use Rattle.std.specs.Prelude.{vec_len, min, slice_get, slice_index};
    ghost use Rattle.std.specs.Option.{option_map_or};
    ghost use Rattle.esm_ast.specs.Entries.{no_entries};

    ghost graph = { λ s. record {
      size = min (vec_len s.modules) 4294967295;
      entries = λ x. option_map_or (λ m. m.script.entries) (slice_get s.modules.items x) no_entries;
      target = λ x r. option_map_or (λ m. slice_index m.targets.items r) (slice_get s.modules.items x) 0;
    } };

    fn size(&self) -> u32 {
        self.modules.len().min(u32::MAX as usize) as u32
    }

    fn entries(&self, m: ModuleId) -> &Entries {
        self.modules[m.0 as usize].script.entries()
    }

    fn target(&self, m: ModuleId, request: usize) -> ModuleId {
        ModuleId(self.modules[m.0 as usize].targets[request])
    }
}

/// What a name denotes that a module exports; none where there is no such module, or where one of the modules exports
/// something of a module that isn't held.
///
/// ECMA-262, ResolveExport.
pub fn binding_of(
    alloc: Global,
    modules: &Modules,
    number: u32,
    name: &str,
) -> Result<Option<Resolution>, Memory>
    ensures found { IfOk result (λ found. IfSome found
        (IsResolutionOf (⟦<Modules as ExportGraph>⟧.graph modules.now) (pair_of number name.now))) }
    ensures held { IfOk result (λ found. AreAllSound (⟦<Modules as ExportGraph>⟧.graph modules.now)
        → number < (⟦<Modules as ExportGraph>⟧.graph modules.now).size → IsSome found) }
{
    if !is_sound(modules) || number >= modules.size() {
        return Ok(None);
    }
    let resolution = resolve_export(alloc, modules, ModuleId(number), name)?;
    Ok(Some(resolution))
}
