//! Worked examples of the definitions, as functions without effect.
ghost use Rattle.esm_loads.specs.Examples.{KeptError, LateAnswer, MappedImport, RefusedRoot, SharedUrl};

/// The entry isn't there: its promise is rejected.
pub fn refused_root()
    ensures { RefusedRoot }
{}

/// Of two requests of the entry one fails; what the other comes to is told late.
pub fn late_answer()
    ensures { LateAnswer }
{}

/// Two loads wait for one URL, which is asked for once.
pub fn shared_url()
    ensures { SharedUrl }
{}

/// Two calls of `import()` of a broken text are rejected with one error value, two of a missing URL with one each.
pub fn kept_error()
    ensures { KeptError }
{}

/// A bare specifier in a call of `import()`, with an import map and without one.
pub fn mapped_import()
    ensures { MappedImport }
{}
