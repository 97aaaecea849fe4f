//! Laws of the definitions, each the contract of a function without effect.
ghost use Rattle.esm_world.specs.Laws.{AsksOnce, AsksStay, BytesStopFirst, DeliversAll, DeliversOnce, DeliversOnlyAsked, FewDeliveries, HasStandardRun, HasTurn, KeepsMaps, OneStandardRun, OneTurn, OpenAsks, StartsOnce, StoppedAsksNothing, StopsAreTold, StopsAtOnce};
ghost use Rattle.esm_world.specs.Limits.{LimitsAreExact};
ghost use Rattle.esm_world.specs.Measure.{JobsLower};
ghost use Rattle.esm_world.specs.Outcomes.{TurnsEnd};
ghost use Rattle.esm_world.specs.Plain.{PlainEvaluation};
ghost use Rattle.esm_world.specs.RunLaws.{LoadsHaveEnded, TurnsLeaveNothing};

use esm_resolve::laws::shared_set;

/// A turn has at most one outcome.
pub fn one_turn()
    ensures { OneTurn }
{}

/// A list of deliveries has at most one standard run.
pub fn one_standard_run()
    ensures { OneStandardRun }
{}

/// No URL is asked twice.
pub fn asks_once()
    ensures { AsksOnce }
{}

/// What was asked stays asked, whatever is delivered behind it.
pub fn asks_stay()
    ensures { AsksStay }
{}

/// A run that a limit has stopped has no open ask, and does nothing more.
pub fn limit_stops()
    ensures asks { StoppedAsksNothing }
    ensures at_once { StopsAtOnce }
    ensures bytes { BytesStopFirst }
{}

/// A limit is told only where one has stopped the world.
pub fn limits_are_told()
    ensures { StopsAreTold }
{}

/// In a world that no limit has stopped, a call for a body, an evaluation, what follows the end of a body, and a body that
/// goes on tell the limit that stops them, or none where none does.
pub fn limits_are_exact()
    ensures { LimitsAreExact }
{}

/// A turn keeps the import map, and which module texts can be run.
pub fn keeps_maps()
    ensures { KeepsMaps }
{}

/// An open ask was asked and isn't delivered.
pub fn open_asks()
    ensures { OpenAsks }
{}

/// No URL is delivered twice, each was asked, and while an ask is open there are fewer than 4,096 deliveries. Where no
/// limit has stopped the run, each URL that was asked is an open ask or was delivered.
pub fn deliveries()
    ensures once { DeliversOnce }
    ensures asked { DeliversOnlyAsked }
    ensures few { FewDeliveries }
    ensures all { DeliversAll }
{}

/// Where no module awaits, evaluation runs the bodies in the order in which the walk leaves them.
pub fn plain_evaluation()
    ensures { PlainEvaluation }
{}

/// No body begins twice.
pub fn starts_once()
    ensures { StartsOnce }
{}

/// Worlds that fit, of any kind. The law ranges over all of them.
pub trait FitWorlds {
    ghost use Rattle.esm_world.specs.World.{World};

    /// Which worlds fit.
    ghost fits: { World → Type 0 };
}

/// Tasks and jobs come to an end: where each job and each answer has an outcome, each allowed delivery has a turn.
pub fn turns_end<F: FitWorlds>()
    ensures { TurnsEnd F.fits }
{}

/// A job that no limit stops takes a step, of which there are only so many, or leaves less by a measure (`left`): of
/// reactions that are still to run, and of bodies at an await.
pub fn jobs_lower()
    ensures { JobsLower }
{}

/// Each allowed delivery has a turn.
pub fn has_turn()
    ensures { HasTurn }
{
    shared_set()
}

/// Each allowed list of deliveries has a standard run.
pub fn has_standard_run()
    ensures { HasStandardRun }
{
    shared_set()
}

/// A turn leaves no job and no pending request of a fetched URL, unless a limit has stopped the world.
pub fn turns_leave_nothing()
    ensures { TurnsLeaveNothing }
{}

/// Where no ask is open and no limit has stopped the run, each load has ended.
pub fn loads_have_ended()
    ensures { LoadsHaveEnded }
{
    shared_set()
}
