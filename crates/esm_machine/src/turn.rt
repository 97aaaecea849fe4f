// One turn: a fetch has ended, and all that follows from it.
ghost use Rattle.std.specs.Prelude.{◌≡◌, ◌<◌, true, false, None, Ok, OnOk};
ghost use Rattle.esm_ast.specs.Outcome.{outcome_view};
ghost use Rattle.esm_base.specs.Urls.{has};
ghost use Rattle.esm_loads.specs.Arrival.{AreResolved, next, open_asks, pending_left};
ghost use Rattle.esm_world.specs.World.{World};
ghost use Rattle.esm_world.specs.Run.{HasModuleTree};
ghost use Rattle.esm_world.specs.Turn.{Tasks, Turn, fetched};
ghost use Rattle.esm_machine.specs.Inner.Parts.{AreLive, AreSound, seen_in, with_node_behind};
ghost use Rattle.esm_machine.specs.Inner.Leads.{IsFetched, LeadsBehind, LeadsByTask, LeadsFrom};

use crate::TurnEnd;
use crate::jobs::run_jobs;
use crate::laws::{arrivals_are_of_the_world, records_show, scopes_stay};
use crate::parts::Parts;
use esm_ast::Outcome;
use esm_base::{Memory, Text};
use esm_loads::laws::fewer_left;
use esm_specifier::Targets;
use esm_world::fits::worlds_stay_sound;

/// The tree of a script is a module's.
fn has_module_tree(outcome: &Outcome)
    ensures { HasModuleTree (outcome_view outcome.now) }
{
    match outcome {
        Outcome::Script(script) => {
            let _tree = script.tree();
            esm_ast::laws::spelled_is_module_tree()
        }
        Outcome::Broken(_broken) => {}
        Outcome::Absent => {}
        Outcome::Failed => {}
    }
}

/// Each record has a node, where one record more may have come.
fn add_node(parts: &mut Parts, had: usize) -> Result<(), Memory>
    ensures { OnOk result (parts.new ≡ with_node_behind had parts.old) }
{
    if parts.host.bodies.imports.count() > had {
        return parts.host.nodes.add(parts.alloc);
    }
    Ok(())
}

/// The bytes of an outcome are counted, and it stands in the table. The targets are what its requests resolve to.
///
/// HTML, fetch a single module script and create a JavaScript module script.
fn arrive(
    parts: &mut Parts,
    url: &Text,
    near: usize,
    outcome: &Outcome,
    targets: &Targets,
) -> Result<(), TurnEnd>
    requires sound { AreSound parts.old }
    requires open { has (open_asks (seen_in parts.old).loading) url.now ≡ true }
    requires answered { next (seen_in parts.old).loading ≡ None }
    requires targets { AreResolved (seen_in parts.old).loading.maps url.now
        (outcome_view outcome.now) targets.now }
    requires tree { HasModuleTree (outcome_view outcome.now) }
    ensures fetched { LeadsFrom parts.old
        (IsFetched url.now (outcome_view outcome.now)) result parts.new }
    ensures sound { OnOk result (AreSound parts.new) }
{
    arrivals_are_of_the_world();
    worlds_stay_sound();
    scopes_stay();
    records_show();
    parts.host.bodies.imports.known();
    let had = parts.host.bodies.imports.count();
    let bodies = &mut parts.host.bodies;
    match bodies
        .imports
        .arrive_resolved(&mut bodies.errors, url, near, outcome, targets)
    {
        Ok(()) => match add_node(parts, had) {
            Ok(()) => Ok(()),
            Err(Memory) => Err(TurnEnd::Memory),
        },
        Err(end) => Err(end),
    }
}

/// All jobs run, where a request was answered.
fn jobs_behind(parts: &mut Parts, answered: bool) -> Result<bool, TurnEnd>
    requires sound { AreSound parts.old }
    ensures jobs { LeadsBehind answered parts.old result parts.new }
    ensures sound { OnOk result (AreSound parts.new) }
{
    if !answered {
        return Ok(false);
    }
    match run_jobs(parts) {
        Ok(()) => Ok(true),
        Err(end) => Err(end),
    }
}

/// One task: the first pending request of a fetched URL is answered, and all jobs run behind it. False where none is left.
fn run_task(parts: &mut Parts) -> Result<bool, TurnEnd>
    requires sound { AreSound parts.old }
    ensures task { (w : World) → AreLive parts.old w → LeadsByTask w result parts.new }
    ensures sound { OnOk result (AreSound parts.new) }
    ensures falls { result ≡ Ok true
        → pending_left (seen_in parts.new).loading < pending_left (seen_in parts.old).loading }
    ensures none { result ≡ Ok false → next (seen_in parts.new).loading ≡ None }
{
    arrivals_are_of_the_world();
    worlds_stay_sound();
    scopes_stay();
    fewer_left();
    let host = &mut parts.host;
    let bodies = &mut host.bodies;
    match bodies.imports.step(&mut host.promises, &mut bodies.errors) {
        Ok(answered) => jobs_behind(parts, answered),
        Err(end) => Err(end),
    }
}

/// All tasks of a turn, in order of asking.
fn run_tasks(parts: &mut Parts) -> Result<(), TurnEnd>
    requires sound { AreSound parts.old }
    ensures tasks { LeadsFrom parts.old Tasks result parts.new }
    ensures sound { OnOk result (AreSound parts.new) }
    ensures none { OnOk result (next (seen_in parts.new).loading ≡ None) }
{
    loop {
        match run_task(parts) {
            Ok(true) => {}
            Ok(false) => return Ok(()),
            Err(end) => return Err(end),
        }
    }
}

/// The fetch of an open ask has ended so, and all that follows from it is done. The targets are what its requests resolve
/// to.
///
/// ECMA-262, FinishLoadingImportedModule, for all pending requests of the URL, with all jobs behind each.
pub(crate) fn run_turn(
    parts: &mut Parts,
    url: &Text,
    near: usize,
    outcome: &Outcome,
    targets: &Targets,
) -> Result<(), TurnEnd>
    requires sound { AreSound parts.old }
    requires open { has (open_asks (seen_in parts.old).loading) url.now ≡ true }
    requires answered { next (seen_in parts.old).loading ≡ None }
    requires targets { AreResolved (seen_in parts.old).loading.maps url.now
        (outcome_view outcome.now) targets.now }
    ensures turn { LeadsFrom parts.old
        (λ w. Turn w url.now (outcome_view outcome.now)) result parts.new }
    ensures sound { OnOk result (AreSound parts.new) }
    ensures answered { OnOk result (next (seen_in parts.new).loading ≡ None) }
    ensures tree { HasModuleTree (outcome_view outcome.now) }
{
    has_module_tree(outcome);
    match arrive(parts, url, near, outcome, targets) {
        Ok(()) => run_tasks(parts),
        Err(end) => Err(end),
    }
}
