//! Worked examples of the definitions, as functions without effect.
ghost use Rattle.esm_eval.specs.Examples.{CycleOfWhichOneAwaits, MeetsAWaitingCycle, NothingBehindAThrow, ReadyHoldsBack, ReadyThrows, RootFails, SharedRejection, SmallWorldsAreLawful, StopsAtOnce, ThrowInCycle};

/// Two modules in a cycle, of which one awaits.
pub fn cycle_of_which_one_awaits()
    ensures { CycleOfWhichOneAwaits }
{}

/// A body in a cycle throws.
pub fn throw_in_cycle()
    ensures { ThrowInCycle }
{}

/// Behind a throw no module is entered and no body begins.
pub fn nothing_behind_a_throw()
    ensures { NothingBehindAThrow }
{}

/// A dependency that two modules share is rejected.
pub fn shared_rejection()
    ensures { SharedRejection }
{}

/// An evaluation meets a cycle that still waits.
pub fn meets_a_waiting_cycle()
    ensures { MeetsAWaitingCycle }
{}

/// The world of the examples meets the conditions of the laws.
pub fn small_worlds_are_lawful()
    ensures { SmallWorldsAreLawful }
{}

/// The root of a cycle fails, and with it what imports another member.
pub fn root_fails()
    ensures { RootFails }
{}

/// Of two modules that are ready the first throws, and the second is skipped.
pub fn ready_throws()
    ensures { ReadyThrows }
{}

/// A module that is ready and awaits holds back the one that waits for it.
pub fn ready_holds_back()
    ensures { ReadyHoldsBack }
{}

/// A limit stops a call for a body, and nothing more is done.
pub fn stops_at_once()
    ensures { StopsAtOnce }
{}
