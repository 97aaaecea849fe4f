//! Laws of what the promises of loads tell, each the contract of a function without effect.
ghost use Rattle.esm_world.specs.Followed.{ImportsGoOn};
ghost use Rattle.esm_world.specs.Told.{RunsAreTold, StaysComplete, StaysTold};

/// The promise of a load is settled by the end of that load alone, in each step of a world; so the job of a reaction to it
/// finds the load complete where it was fulfilled.
pub fn loads_are_told()
    ensures told { StaysTold }
    ensures complete { StaysComplete }
{}

/// That holds of each world of a run.
pub fn runs_are_told()
    ensures { RunsAreTold }
{}

/// No `import()` is forgotten, unless a limit has stopped the run: behind each turn its promise is settled, or its load
/// hasn't ended, or a pending promise has the reaction that settles it.
pub fn imports_go_on()
    ensures { ImportsGoOn }
{}
