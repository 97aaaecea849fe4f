//! Laws of the definitions, each the contract of a function without effect.
ghost use Rattle.esm_limit_laws.specs.Loaded.{NeverStoppedLoading, OrderFreeLoaded};

/// Where a run of clean files has ended, and no limit of loading (on URLs or delivered bytes) has stopped it, none stops
/// any run of these files, in whatever order they come.
pub fn never_stopped_loading()
    ensures { NeverStoppedLoading }
{}

/// The order of deliveries doesn't matter once all files are loaded: where a run of clean files has ended, and no limit of
/// loading (on URLs or delivered bytes) has stopped it, each run of these files that has no open ask shows the same, also
/// where the limit of steps or of bytes of the log stops them.
pub fn order_free_loaded()
    ensures { OrderFreeLoaded }
{}
