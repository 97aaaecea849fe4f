// Linking and evaluation of the root of a load that is complete.
ghost use Rattle.std.specs.Prelude.{◌≡◌, true, OnOk, IfOk, None, Ok, Err, is_some};
ghost use Rattle.esm_values.specs.Code.{value_of};
ghost use Rattle.esm_values.specs.Value.{Error};
ghost use Rattle.esm_values.specs.Errors.{fault, next_error};
ghost use Rattle.esm_values.specs.declared.errors.FaultKind.TheVariants as kinds;
ghost use Rattle.esm_link.specs.Faults.{link_error, message};
ghost use Rattle.esm_link.specs.Realm.{fault_of};
ghost use Rattle.esm_loads.specs.Loading as loading;
ghost use Rattle.esm_world.specs.World.{World};
ghost use Rattle.esm_machine.specs.Seen.{linked, modules, names};
ghost use Rattle.esm_machine.specs.Inner.Parts.{AreInOrder, AreLive, TakeCalls, seen_in, with_fault};
ghost use Rattle.esm_machine.specs.Linking.{HasIds, NamesRecords};
ghost use Rattle.esm_machine.specs.Inner.Leads.{EvaluatesModule, EvaluatesUnless, LinksAndEvaluates, LinksRoot, TellsFault};

use crate::TurnEnd;
use crate::host::{BodyHost, turn_end};
use crate::parts::Parts;
use esm_base::{Memory, ModuleId, Text};
use esm_body::Importer;
use esm_eval::evaluate;
use esm_eval::laws::hosts_may_evaluate;
use esm_link::{LinkEnd, LinkFault, LinkKind};
use esm_values::{FaultKind, PromiseId, Value};
use esm_world::fits::worlds_stay_sound;
use std::alloc::Global;

/// What linking and evaluating a root comes to.
#[derive(Drop)]
pub(crate) enum Linked {
    /// The promise of its evaluation.
    Evaluates(PromiseId),
    /// The error of a link fault.
    Fault(Value),
}

/// The text of a link fault of a module with this URL, and of what it requests under that of the target.
fn fault_line(
    alloc: Global,
    kind: LinkKind,
    url: &str,
    name: &str,
    target: &str,
) -> Result<Text, Memory>
    ensures { IfOk result (λ text. text ≡ message url.now name.now target.now kind) }
{
    match kind {
        LinkKind::K1 => {
            let line = format!(in alloc; "{url}: no export {name} in {target}")?;
            Ok(Text::from_string(line))
        }
        LinkKind::K2 => {
            let line = format!(in alloc; "{url}: export {name} in {target} is ambiguous")?;
            Ok(Text::from_string(line))
        }
        LinkKind::K3 => {
            let line = format!(in alloc; "{url}: no binding for export {name}")?;
            Ok(Text::from_string(line))
        }
        LinkKind::K4 => {
            let line = format!(in alloc; "{url}: binding for export {name} is ambiguous")?;
            Ok(Text::from_string(line))
        }
    }
}

/// The text of a link fault.
fn fault_text(parts: &Parts, found: &LinkFault) -> Result<Text, Memory>
    requires ids { HasIds (seen_in parts.now) (fault_of found.now) }
    ensures { IfOk result (λ text. fault kinds.SyntaxError text
        ≡ link_error (modules (seen_in parts.now)) (fault_of found.now)) }
{
    let imports = &parts.host.bodies.imports;
    let referrer = imports.url(found.module);
    let target = imports.url(found.target);
    fault_line(
        parts.alloc,
        found.kind,
        referrer,
        found.name.as_str(),
        target,
    )
}

/// The SyntaxError of a link fault.
fn fault_error(parts: &mut Parts, found: &LinkFault) -> Result<Value, Memory>
    requires ids { HasIds (seen_in parts.old) (fault_of found.now) }
    ensures value { IfOk result (λ v. value_of v
        ≡ Error (next_error parts.old.host.bodies.errors)) }
    ensures made { OnOk result (parts.new ≡ with_fault parts.old (fault_of found.now)) }
{
    let text = fault_text(parts, found)?;
    let error = parts
        .host
        .bodies
        .errors
        .make(parts.alloc, FaultKind::SyntaxError, text.as_str())?;
    Ok(Value::Error(error))
}

/// The error of what has refused the linking, which is a fault or want of memory.
fn refusal(parts: &mut Parts, end: LinkEnd) -> Result<Option<Value>, Memory>
    requires { NamesRecords (seen_in parts.old) (Err end) }
    ensures { IfOk result (λ error. TellsFault parts.old end error parts.new) }
{
    match end {
        LinkEnd::Fault(fault) => Ok(Some(fault_error(parts, &fault)?)),
        LinkEnd::Memory => Err(Memory),
    }
}

/// Links a module that is loaded with all that it reaches. Answers the error of a link fault, if there is one.
///
/// ECMA-262, Link.
fn link_root(parts: &mut Parts, root: ModuleId) -> Result<Option<Value>, Memory>
    requires ready { TakeCalls parts.old }
    requires loaded { (seen_in parts.old).loading.unlinked
        ((names (seen_in parts.old)).name root.0) ≡ true }
    ensures links { (w : World) → AreLive parts.old w
        → IfOk result (λ error. LinksRoot w ((names (seen_in parts.old)).name root.0) error parts.new) }
    ensures linked { result ≡ Ok None → linked (seen_in parts.new) root.0 ≡ true }
    ensures urls { OnOk result ((seen_in parts.new).urls ≡ (seen_in parts.old).urls) }
    ensures ready { OnOk result (TakeCalls parts.new) }
{
    worlds_stay_sound();
    match parts
        .host
        .bodies
        .imports
        .link(parts.alloc, &mut parts.host.bodies.envs, root)
    {
        Ok(()) => Ok(None),
        Err(end) => refusal(parts, end),
    }
}

/// Evaluates a module that is linked. Answers the promise of its evaluation.
///
/// ECMA-262, Evaluate.
fn evaluate_root(parts: &mut Parts, root: ModuleId) -> Result<PromiseId, TurnEnd>
    requires ready { TakeCalls parts.old }
    requires linked { linked (seen_in parts.old) root.0 ≡ true }
    ensures evaluates { (w : World) → AreLive parts.old w
        → EvaluatesModule w ((names (seen_in parts.old)).name root.0) result parts.new }
    ensures order { OnOk result (AreInOrder parts.new) }
{
    hosts_may_evaluate::<BodyHost>();
    match evaluate(parts.alloc, &mut parts.host, root) {
        Ok(promise) => Ok(promise),
        Err(end) => Err(turn_end(end)),
    }
}

/// Evaluates a root that is linked, unless linking it had a fault, whose error this is.
fn evaluate_unless(
    parts: &mut Parts,
    root: ModuleId,
    error: Option<Value>,
) -> Result<Linked, TurnEnd>
    requires ready { TakeCalls parts.old }
    requires linked { error ≡ None → linked (seen_in parts.old) root.0 ≡ true }
    ensures comes { EvaluatesUnless parts.old root.0 error result parts.new }
    ensures order { OnOk result (AreInOrder parts.new) }
{
    match error {
        Some(value) => Ok(Linked::Fault(value)),
        None => match evaluate_root(parts, root) {
            Ok(promise) => Ok(Linked::Evaluates(promise)),
            Err(end) => Err(end),
        },
    }
}

/// Links the root of a load that is complete, and evaluates it where it has no link fault.
pub(crate) fn link_and_evaluate(parts: &mut Parts, load: usize) -> Result<Linked, TurnEnd>
    requires ready { TakeCalls parts.old }
    requires complete { is_some (loading.root_of_load (seen_in parts.old).loading load) ≡ true }
    ensures comes { (w : World) → AreLive parts.old w → LinksAndEvaluates w load result parts.new }
    ensures order { OnOk result (AreInOrder parts.new) }
{
    let Some(root) = parts.host.bodies.imports.root_of_load(load) else {
        unreachable!()
    };
    match link_root(parts, root) {
        Ok(error) => evaluate_unless(parts, root, error),
        Err(Memory) => Err(TurnEnd::Memory),
    }
}
