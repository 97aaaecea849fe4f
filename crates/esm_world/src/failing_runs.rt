//! Worked examples of what fails: whole standard runs, as functions without effect. And a law of entries with too many imports.
ghost use Rattle.esm_world.specs.FailingRuns.{BareSpecifier, CatchesFault, CatchesRefusal, CatchesThrow, EntryAbsent, LimitFirst, NoModuleText, ThrowsBehindAwait, TooManyImports};

/// The entry isn't there: the error of its URL is uncaught, and no body runs.
pub fn entry_absent()
    ensures { EntryAbsent }
{}

/// Behind an entry that failed, the bytes of a delivery pass their limit: that is told, and not the failure.
pub fn limit_first()
    ensures { LimitFirst }
{}

/// A body throws behind its await: the module gets the error in the job of its end, and the entry fails with it.
pub fn throws_behind_await()
    ensures { ThrowsBehindAwait }
{}

/// An awaited `import()` of a module whose body throws: the value is thrown at the await, and is caught there.
pub fn catches_throw()
    ensures { CatchesThrow }
{}

/// An awaited `import()` of a module that imports what isn't exported: the SyntaxError is thrown at the await, and is caught there.
pub fn catches_fault()
    ensures { CatchesFault }
{}

/// An awaited `import()` of a module that imports a URL which cannot be fetched: the load throws, which is caught at the await.
pub fn catches_refusal()
    ensures { CatchesRefusal }
{}

/// An entry with a request that names no URL, and that no import map maps: it is broken, and nothing of it is asked.
pub fn bare_specifier()
    ensures { BareSpecifier }
{}

/// An entry that is no module text: the error of its fault is uncaught.
pub fn no_module_text()
    ensures { NoModuleText }
{}

/// An entry that can be run, of at most 16,777,216 bytes, whose requests all resolve, to 4,096 different URLs or more beside its
/// own, by whatever import map: behind its one delivery the run has ended with `Limit L1`, nothing is printed, and no body has
/// begun.
pub fn too_many_imports()
    ensures { TooManyImports }
{}
