//! Worked examples of the definitions: whole standard runs, as functions without effect.
ghost use Rattle.esm_world.specs.Examples.{AwaitsImport, CatchesImport, ImportsItself, LiveBinding, NoSuchExport, ThrowsInCycle, WaitsForItself};

/// A module that awaits an `import()` of itself waits for ever: nothing is left to do, and the run is unsettled.
pub fn waits_for_itself()
    ensures { WaitsForItself }
{}

/// A module imports itself by an `import()` that it doesn't await: nothing runs a second time.
pub fn imports_itself()
    ensures { ImportsItself }
{}

/// A body in a cycle throws: no other body of the cycle begins, and the entry fails.
pub fn throws_in_cycle()
    ensures { ThrowsInCycle }
{}

/// An awaited `import()` of a URL that cannot be fetched throws at the await, and is caught there.
pub fn catches_import()
    ensures { CatchesImport }
{}

/// An `import()` that is awaited: the imported body runs once it is there, and then the importing one goes on.
pub fn awaits_import()
    ensures { AwaitsImport }
{}

/// An import of what isn't exported: the entry isn't linked, and no body runs.
pub fn no_such_export()
    ensures { NoSuchExport }
{}

/// A binding that a function of its module changes, read before and after.
pub fn live_binding()
    ensures { LiveBinding }
{}
