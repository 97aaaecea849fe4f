// Reactions, and what settles a promise.
ghost use Rattle.std.specs.Prelude.{◌<◌};
ghost use Rattle.esm_promise.specs.Subjects.{subjects};

use esm_values::Value;

/// What follows the settling of a promise.
#[derive(Clone, Copy, Debug, PartialEq, Eq)]
pub enum ReactionKind {
    /// The body of a module goes on behind its await. ECMA-262, Await.
    Await,
    /// The body of a module, which awaits, has ended. ECMA-262, ExecuteAsyncModule.
    BodyEnd,
    /// A load, which an `import()` began, has ended. ECMA-262, ContinueDynamicImport.
    Loaded,
    /// The root of a load was evaluated. ECMA-262, ContinueDynamicImport.
    Evaluated,
    /// The entry's load has ended. HTML, fetch the descendants of and link a module script.
    EntryLoaded,
    /// The entry was evaluated. HTML, run a module script.
    EntryDone,
}

/// A reaction, with the module or the load that it is of.
#[derive(Clone, Copy)]
pub struct Reaction {
    /// Its kind.
    pub kind: ReactionKind,
    /// The id of the module for `Await` and `BodyEnd`, and the number of the load for `Loaded` and `Evaluated`. The
    /// two kinds of the entry don't look at it.
    pub subject: u64,
    pub ghost fits: { subject < subjects kind },
}

/// What a promise is settled with.
///
/// ECMA-262, [[PromiseState]] and [[PromiseResult]].
#[derive(Drop)]
pub enum Settled {
    /// It is fulfilled with this value.
    Fulfilled(Value),
    /// It is rejected with this value.
    Rejected(Value),
}
