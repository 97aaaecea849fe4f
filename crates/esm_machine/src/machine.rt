// The machine: an entry, and the deliveries that it has taken.
ghost use Rattle.std.specs.Prelude.{◌≡◌, ◌≤◌, ◌∷◌, All, [], length, map, true, IfOk, IfErr, OnOk, Some, None, Err, IsSome, is_some, option_map, codes, ◌++◌, ◌↔◌};
ghost use Rattle.std.specs.Arc.{arc_value};
ghost use Rattle.esm_ast.specs.Outcome.{outcome_view};
ghost use Rattle.esm_base.specs.declared.end.End.TheVariants as ends;
ghost use Rattle.esm_base.specs.Limits.{limit_name};
ghost use Rattle.esm_base.specs.Urls.{has, is_usable, IsUsable};
ghost use Rattle.esm_values.specs.Code.{value_of};
ghost use Rattle.esm_loads.specs.Arrival.{AreResolved};
ghost use Rattle.esm_rewriting.specs.Keeps.{started as started_in};
ghost use Rattle.esm_body.specs.Noted.{event_of};
ghost use Rattle.esm_world.specs.LastLine.{exit_status};
ghost use Rattle.esm_machine.specs.Held.{Failed, Held, opening_held};
ghost use Rattle.esm_machine.specs.Represents.{IsEnded, IsLineBy, IsLineByStop, IsLineOf, MayTake, Represents, ShownBy, StoppedAs, TakesDelivery, TurnEnd as EndOf, asks_of, ending_by_stop, ending_of, maps_of};
ghost use Rattle.esm_machine.specs.Inner.Parts.{AreSound, KnowsBy};
ghost use Rattle.esm_machine.specs.Machine.{held_of, state_of};

use crate::TurnEnd;
use crate::host::BodyHost;
use crate::module_store::ModuleStore;
use crate::parts::{EntryState, Parts};
use crate::turn::run_turn;
use esm_ast::Outcome;
use esm_base::{Limit, Memory, Status, Text};
use esm_body::{Engine, Event, display_text};
use esm_env::Envs;
use esm_eval::{EvalHost, Nodes};
use esm_import_map::ImportMap;
use esm_loads::NOWHERE;
use esm_promise::{Promises, Reaction, ReactionKind};
use esm_specifier::Targets;
use esm_values::{Errors, Value};
use std::alloc::Global;
use std::marker::Model;
use std::sync::Arc;

/// An entry, and the deliveries that were taken. Contracts see what it holds, by the ids of modules, and how it has
/// stopped (`state_of`); `Represents` says which lists of deliveries it represents.
///
/// HTML, "fetch the descendants of and link a module script" and "run a module script", over fetches that end in any
/// order, each in one turn.
#[derive(Drop)]
pub struct Machine {
    parts: Parts,
    stopped: Option<TurnEnd>,
}

impl Model for Machine {
    ghost use Rattle.std.specs.Coded.{codes};
    ghost use Rattle.esm_tree.specs.Syntax.{coded_item, coded_parts};
    ghost use Rattle.esm_import_map.specs.ImportMap.{maps_code};
    ghost use Rattle.esm_machine.specs.Machine.{MachineParts};

    ghost Value = { MachineParts };

    ghost coded = { Prim.hlevel (codes, maps_code, coded_item, coded_parts) };

    ghost use Rattle.esm_machine.specs.Inner.Between.{IsBetweenTurns};

    ghost view = { λ m. record { parts = m.parts; stopped = m.stopped } };

    ghost invariant = { λ m. IsBetweenTurns m.stopped m.parts };
}

/// The last line where a limit has stopped the run.
fn limit_line(alloc: Global, limit: Limit) -> Result<Text, Memory>
    ensures { IfOk result (λ line. line ≡ codes "Limit " ++ limit_name limit) }
{
    let name = limit.name();
    let line = format!(in alloc; "Limit {name}")?;
    Ok(Text::from_string(line))
}

/// The last line where an uncaught value has this display text.
fn uncaught_text(alloc: Global, shown: &str) -> Result<Text, Memory>
    ensures { IfOk result (λ line. line ≡ codes "Uncaught " ++ shown.now) }
{
    let line = format!(in alloc; "Uncaught {shown}")?;
    Ok(Text::from_string(line))
}

/// The last line where the entry failed with this value.
fn uncaught_line(parts: &Parts, value: &Value) -> Result<Text, Memory>
    requires sound { AreSound parts.now }
    requires known { KnowsBy parts.now.host.bodies (value_of value.now) }
    ensures { IfOk result (IsLineBy (held_of parts.now) [] (Failed (value_of value.now))) }
{
    let bodies = &parts.host.bodies;
    let shown = display_text(
        parts.alloc,
        &bodies.errors,
        &bodies.envs,
        &bodies.imports,
        value,
    )?;
    uncaught_text(parts.alloc, shown.as_str())
}

/// The last line of a run that no limit has stopped, and in which no ask is open.
fn live_line(parts: &Parts) -> Result<Text, Memory>
    requires { AreSound parts.now }
    ensures { IfOk result (IsLineBy (held_of parts.now) [] (held_of parts.now).entry) }
{
    match &parts.entry {
        EntryState::Underway => Text::copy(parts.alloc, "Unsettled"),
        EntryState::Ended => Text::copy(parts.alloc, ""),
        EntryState::Failed(value) => uncaught_line(parts, value),
    }
}

/// The status of a run that no limit has stopped; none while an ask is open.
fn live_status(parts: &Parts) -> Option<Status>
    requires { AreSound parts.now }
    ensures { result ≡ option_map exit_status (ending_by_stop None (held_of parts.now)) }
{
    if !parts.host.bodies.imports.asks().is_empty() {
        return None;
    }
    match parts.entry {
        EntryState::Underway => Some(Status::Unsettled),
        EntryState::Ended => Some(Status::Fulfilled),
        EntryState::Failed(_) => Some(Status::EntryFailed),
    }
}

/// The status of a run that has stopped so.
fn stopped_status(end: TurnEnd) -> Option<Status>
    ensures { (h : Held) → result ≡ option_map exit_status (ending_by_stop (Some end) h) }
{
    match end {
        TurnEnd::Fault(_limit) => Some(Status::Limit),
        TurnEnd::Memory => None,
    }
}

/// The last line of a run that has stopped so.
fn stopped_line(alloc: Global, end: TurnEnd) -> Result<Text, Memory>
    ensures { (h : Held) → IfOk result (IsLineByStop (Some end) h) }
{
    match end {
        TurnEnd::Fault(limit) => limit_line(alloc, limit),
        TurnEnd::Memory => Err(Memory),
    }
}

/// The parts of the machine that asks for this entry.
fn opened(alloc: Global, map: Arc<ImportMap>, entry: &Text, trace: bool) -> Result<Parts, Memory>
    requires { is_usable entry.now ≡ true }
    ensures opens { IfOk result (λ p. held_of p ≡ opening_held (arc_value map) entry.now trace) }
    ensures sound { IfOk result AreSound }
{
    esm_world::fits::worlds_stay_sound();
    let mut promises = Promises::new(alloc);
    let reaction = Reaction {
        kind: ReactionKind::EntryLoaded,
        subject: 0,
    };
    let promise = promises.make_with(alloc, reaction)?;
    let imports = ModuleStore::opening(alloc, map, entry, promise)?;
    Ok(Parts {
        alloc,
        host: EvalHost {
            nodes: Nodes::new(alloc),
            promises,
            bodies: BodyHost {
                imports,
                errors: Errors::new(alloc),
                envs: Envs::new(alloc),
                engine: Engine::new(alloc, trace),
            },
            alloc,
        },
        entry: EntryState::Underway,
    })
}

/// One for the start of a body, and none for its end.
fn starts_of(event: Event) -> usize
    ensures value { result ≡ length (started_in (event_of event ∷ [])) }
    ensures small { result ≤ 1 }
{
    match event {
        Event::Begins(_m) => 1,
        Event::Ends(_m) => 0,
        Event::Throws(_m) => 0,
    }
}

/// How many of these are starts of bodies.
fn starts_in(events: &[Event]) -> usize
    ensures { result ≡ length (started_in (map event_of events.now)) }
{
    let mut count = 0;
    for event in events {
        count += starts_of(*event);
    }
    count
}

impl Machine {
    /// The machine that has asked for the entry, whose URL is canonical and at most 8,192 bytes long. Its specifiers
    /// resolve by this import map. With `trace`, the log has a line for each start and end of a body too.
    pub fn new(
        alloc: Global,
        map: Arc<ImportMap>,
        entry: Text,
        trace: bool,
    ) -> Result<Machine, Memory>
        requires { is_usable entry ≡ true }
        ensures represents { IfOk result
            (λ m. Represents (arc_value map) entry trace (state_of m) []) }
        ensures live { IfOk result (λ m. (state_of m).stopped ≡ None) }
    {
        let parts = opened(alloc, map, &entry, trace)?;
        Ok(Machine {
            parts,
            stopped: None,
        })
    }

    /// The URLs that are asked for and not delivered, in order of asking; none where the machine has stopped.
    /// Each is canonical and at most 8,192 bytes long. It doesn't allocate.
    pub fn asks(&self) -> &[Text]
        ensures usable { All IsUsable result.now }
        ensures open { result.now ≡ asks_of (state_of self.now) }
        ensures standard { ShownBy (state_of self.now) (λ what. result.now ≡ what.asks) }
    {
        let asks = self.parts.host.bodies.imports.asks();
        match self.stopped {
            None => asks,
            Some(_) => &asks[..0],
        }
    }

    /// The place of each open ask in the machine's table of URLs, in order of asking. Who gives it to `is_open` and
    /// `deliver_resolved` spares them a look-up; nothing else depends on it. It doesn't allocate.
    pub fn ask_places(&self) -> &[usize] {
        self.parts.host.bodies.imports.ask_places()
    }

    /// Whether a URL is an open ask. It is looked for at the place `near` first, which may be any number. It doesn't allocate.
    pub fn is_open(&self, url: &Text, near: usize) -> bool
        ensures { result ≡ has (asks_of (state_of self.now)) url.now }
    {
        match self.stopped {
            None => self.parts.host.bodies.imports.is_open(url, near),
            Some(_) => false,
        }
    }

    /// One turn: the fetch of an open ask has ended so, and all that follows from it is done. Where the machine had
    /// stopped it answers the same again and changes nothing. Where memory runs out it stops, and represents nothing.
    ///
    /// A limit comes exactly where the standard run of the deliveries stops by it in this turn: L1 where more
    /// than 4,096 URLs are asked for, L2 where more than 16,777,216 bytes were delivered, L3 at step 1,000,001, L4 at the
    /// 4,097th call of `import()`, L5 where the log would have more than 16,777,216 bytes.
    pub fn deliver(&mut self, url: &Text, outcome: &Outcome) -> Result<(), TurnEnd>
        requires { MayTake (state_of self.old) url.now }
        ensures turn { (state_of self.old).stopped ≡ None
            → TakesDelivery (state_of self.old) url.now (outcome_view outcome.now) result (state_of self.new) }
        ensures again { (end : EndOf) → (state_of self.old).stopped ≡ Some end
            → (result ≡ Err end) × (self.new ≡ self.old) }
        ensures goes_on { OnOk result ((state_of self.new).stopped ≡ None) }
        ensures stops { IfErr result (λ end. (state_of self.new).stopped ≡ Some end) }
    {
        match self.stopped() {
            Some(end) => Err(end),
            None => self.resolve_and_deliver(url, outcome),
        }
    }

    /// As `deliver`, where the requests are resolved already: these targets are what they resolve to under the import map. The
    /// URL is looked for at the place `near` first, which may be any number.
    pub fn deliver_resolved(
        &mut self,
        url: &Text,
        near: usize,
        outcome: &Outcome,
        targets: &Targets,
    ) -> Result<(), TurnEnd>
        requires may { MayTake (state_of self.old) url.now }
        requires targets { (state_of self.old).stopped ≡ None → AreResolved
            (maps_of (state_of self.old)) url.now (outcome_view outcome.now) targets.now }
        ensures turn { (state_of self.old).stopped ≡ None
            → TakesDelivery (state_of self.old) url.now (outcome_view outcome.now) result (state_of self.new) }
        ensures again { (end : EndOf) → (state_of self.old).stopped ≡ Some end
            → (result ≡ Err end) × (self.new ≡ self.old) }
        ensures goes_on { OnOk result ((state_of self.new).stopped ≡ None) }
        ensures stops { IfErr result (λ end. (state_of self.new).stopped ≡ Some end) }
    {
        match self.stopped {
            Some(end) => Err(end),
            None => match run_turn(&mut self.parts, url, near, outcome, targets) {
                Ok(()) => Ok(()),
                Err(end) => {
                    self.stopped = Some(end);
                    Err(end)
                }
            },
        }
    }

    /// What the requests of an outcome resolve to under the import map, where its URL is an open ask.
    fn resolve(&self, url: &Text, outcome: &Outcome) -> Result<Targets, Memory>
        requires live { (state_of self.now).stopped ≡ None }
        requires may { MayTake (state_of self.now) url.now }
        ensures { IfOk result
            (AreResolved (maps_of (state_of self.now)) url.now (outcome_view outcome.now)) }
    {
        self.parts.host.bodies.imports.resolve(url, outcome)
    }

    /// Memory ran out.
    fn run_out(&mut self) -> TurnEnd
        ensures end { result ≡ ends.Memory }
        ensures stopped { (state_of self.new).stopped ≡ Some ends.Memory }
    {
        self.stopped = Some(TurnEnd::Memory);
        TurnEnd::Memory
    }

    /// A turn of a machine that hasn't stopped.
    fn resolve_and_deliver(&mut self, url: &Text, outcome: &Outcome) -> Result<(), TurnEnd>
        requires live { (state_of self.old).stopped ≡ None }
        requires may { MayTake (state_of self.old) url.now }
        ensures turn { TakesDelivery (state_of self.old) url.now (outcome_view outcome.now)
            result (state_of self.new) }
        ensures goes_on { OnOk result ((state_of self.new).stopped ≡ None) }
        ensures stops { IfErr result (λ end. (state_of self.new).stopped ≡ Some end) }
    {
        let Ok(targets) = self.resolve(url, outcome) else {
            return Err(self.run_out());
        };
        self.deliver_resolved(url, NOWHERE, outcome, &targets)
    }

    /// How the machine has stopped, if it has. It doesn't allocate.
    pub fn stopped(&self) -> Option<TurnEnd>
        ensures state { result ≡ (state_of self.now).stopped }
        ensures standard { ShownBy (state_of self.now) (StoppedAs result) }
    {
        self.stopped
    }

    /// What the bodies have written, without the last line. It doesn't allocate.
    pub fn log(&self) -> &[u8]
        ensures state { result.now ≡ (state_of self.now).held.engine.log }
        ensures standard { ShownBy (state_of self.now) (λ what. result.now ≡ what.log) }
    {
        self.parts.host.bodies.engine.log().as_bytes()
    }

    /// The same, given away: the machine ends here. It doesn't allocate.
    pub fn into_log(self) -> Vec<u8>
        ensures state { result.items ≡ (state_of self).held.engine.log }
        ensures standard { ShownBy (state_of self) (λ what. result.items ≡ what.log) }
    {
        let host = self.parts.host;
        let bodies = host.bodies;
        bodies.engine.into_log().into_bytes()
    }

    /// How many bodies have begun. It doesn't allocate.
    pub fn started(&self) -> usize
        ensures state { result ≡ length (started_in (state_of self.now).held.engine.events) }
        ensures standard { ShownBy (state_of self.now)
            (λ what. result ≡ length (started_in what.events)) }
    {
        starts_in(self.parts.host.bodies.engine.events())
    }

    /// The status of the run; none while an ask is open, and after memory ran out. It doesn't allocate.
    pub fn end(&self) -> Option<Status>
        ensures state { result ≡ option_map exit_status (ending_of (state_of self.now)) }
        ensures known { is_some result ≡ is_some (ending_of (state_of self.now)) }
        ensures exactly { IsSome result ↔ IsEnded (state_of self.now) }
        ensures memory { (state_of self.now).stopped ≡ Some ends.Memory → result ≡ None }
        ensures standard { ShownBy (state_of self.now) (λ what. result ≡ what.status) }
        ensures ended { ShownBy (state_of self.now) (λ what. is_some result ≡ what.ended) }
    {
        match self.stopped {
            Some(end) => stopped_status(end),
            None => live_status(&self.parts),
        }
    }

    /// The last line of a run that has ended, without a line feed; empty where the status is Fulfilled. Of an uncaught value
    /// it has the display text. It answers `Memory` where memory runs out.
    pub fn last_line(&self) -> Result<Text, Memory>
        requires { is_some (ending_of (state_of self.now)) ≡ true }
        ensures state { IfOk result (IsLineOf (state_of self.now)) }
        ensures standard { ShownBy (state_of self.now)
            (λ what. IfOk result (λ line. line ≡ what.last_line)) }
    {
        match self.stopped {
            Some(end) => stopped_line(self.parts.alloc, end),
            None => live_line(&self.parts),
        }
    }
}
