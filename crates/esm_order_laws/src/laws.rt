//! Laws of the definitions, each the contract of a function without effect.
ghost use Rattle.esm_order_laws.specs.OrderFree.{NeverStoppedElse, OrderFree};
ghost use Rattle.esm_world.specs.OnOrder.{OneDirectRun};

/// All direct runs of clean files show the same, in whatever order their closure is listed.
pub fn one_direct_run()
    ensures { OneDirectRun }
{}

/// Where a run of clean files has ended within the limits, no limit stops any run of these files, in whatever order they
/// come.
pub fn never_stopped_else()
    ensures { NeverStoppedElse }
{}

/// The order of deliveries doesn't matter: where a run of clean files has ended within the limits, each run of these files
/// that has no open ask shows the same log, starts and ends of bodies, status and last line, and has asked for the same
/// URLs.
pub fn order_free()
    ensures { OrderFree }
{}
