//! Laws of the definitions, each the contract of a function without effect.
ghost use Rattle.esm_direct_laws.specs.Asks.{AsksClosure};
ghost use Rattle.esm_direct_laws.specs.Closures.{HasClosure};
ghost use Rattle.esm_world.specs.OnOrder.{HasDirectRun, NeverStops, OrderFreeShown, OrderFreeWithin};

use esm_resolve::laws::shared_set;

/// Where some list has each URL of the closure, there is a list of these alone, each once.
pub fn has_closure()
    ensures { HasClosure }
{}

/// Clean files have a direct run, which shows something.
pub fn has_direct_run()
    ensures { HasDirectRun }
{
    shared_set()
}

/// A run of clean files that has ended, and not by a limit, shows the direct run.
pub fn order_free_shown()
    ensures { OrderFreeShown }
{
    shared_set()
}

/// Where the direct run meets no limit, none stops any run of these files, and each that has no open ask shows the direct
/// run.
pub fn order_free_within()
    ensures never { NeverStops }
    ensures shown { OrderFreeWithin }
{
    shared_set()
}

/// What a run over clean files has fetched is of their closure and is what they have, also where the latter is known of URLs
/// of the closure alone, and is all of the closure where the run has ended, and not by a limit.
pub fn asks_closure()
    ensures { AsksClosure }
{}
