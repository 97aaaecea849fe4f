//! Laws of the definitions, each the contract of a function without effect.
ghost use Rattle.esm_rewriting.specs.Laws.{HaveOneOutcome, StatementsTakeSteps, StopsAreNotCaught, UnsetThrows, HasSegment, HaveOutcomes};
ghost use Rattle.esm_rewriting.specs.Examples.{ThrowLeaves, AwaitDivides};
ghost use Rattle.esm_rewriting.specs.Naming.{FollowsNames};
ghost use Rattle.esm_rewriting.specs.Keeps.{BodiesBegin, BodiesKeep};

/// A rewriting, a segment of a body, and each call for a body (start, run, resume) has at most one outcome, where `import()`
/// is a function.
pub fn one_outcome()
    ensures { HaveOneOutcome }
{}

/// A statement that begins takes one step.
pub fn statements_take_steps()
    ensures { StatementsTakeSteps }
{}

/// A limit that is passed in the block of a `try` stops all: its handler doesn't go on.
pub fn stops_are_not_caught()
    ensures { StopsAreNotCaught }
{}

/// An unset name throws a ReferenceError.
pub fn unset_throws()
    ensures { UnsetThrows }
{}

/// `throw "x";` takes one step, and leaves by its throw.
pub fn throw_leaves()
    ensures { ThrowLeaves }
{}

/// `print("a"); await undefined; print("b");` prints `a` and stands at its await; the job prints `b`, and the promise of the
/// body's end is fulfilled.
pub fn await_divides()
    ensures { AwaitDivides }
{}

/// From each state that fits, a segment has an outcome, and what it leaves fits.
pub fn has_segment()
    ensures { HasSegment }
{
    esm_resolve::laws::shared_set()
}

/// From each state that fits, each call for a body has an outcome: a body starts, runs, or goes on behind its await.
pub fn has_outcomes()
    ensures { HaveOutcomes }
{
    esm_resolve::laws::shared_set()
}

/// Modules with names, by other names, and what import() reads and writes on both sides.
pub trait Named {
    ghost use Rattle.std.specs.Prelude.{Bool};
    ghost use Rattle.esm_values.specs.Naming.{Naming};
    ghost use Rattle.esm_env.specs.Modules.{Modules};
    ghost use Rattle.esm_rewriting.specs.State.{Importing};

    /// What names a module.
    type Name;
    /// What names it otherwise.
    type Other;
    /// What import() reads and writes.
    type Seen;
    /// What it reads and writes on the other side.
    type Images;

    /// The other names.
    ghost names: { Naming Self.Name Self.Other };
    /// What import() reads and writes, as the other side sees it.
    ghost image: { Self.Seen → Self.Images };
    /// Where the modules are the same by their names, and import() is.
    ghost good: { Self.Seen → Type 0 };
    /// Two names are the same.
    ghost same: { Self.Name → Self.Name → Bool };
    /// Two of the other names are.
    ghost other: { Self.Other → Self.Other → Bool };
    /// The modules that are there.
    ghost modules: { Self.Seen → Modules Self.Name };
    /// The same on the other side.
    ghost images: { Self.Images → Modules Self.Other };
    /// How import() begins.
    ghost begins: { Importing Self.Name Self.Seen };
    /// How it begins on the other side.
    ghost others: { Importing Self.Other Self.Images };
}

/// From a good state, what bodies do follows the names of modules, a segment, and each call for a body, and leaves a good
/// state, where each `import()` does.
pub fn follows_names<A: Named>()
    ensures { FollowsNames A.names A.image A.good A.same A.other A.modules A.images
        A.begins A.others }
{}

/// Modules, and how `import()` begins.
pub trait CallsOfImport {
    ghost use Rattle.std.specs.Prelude.{Bool};
    ghost use Rattle.esm_env.specs.Modules.{Modules};
    ghost use Rattle.esm_rewriting.specs.State.{Importing};

    /// What names a module.
    ghost Name: { Type 0 };
    /// What import() reads and writes.
    ghost Seen: { Type 0 };

    /// Two names are the same.
    ghost same: { Name → Name → Bool };
    /// The modules that are there.
    ghost modules: { Seen → Modules Name };
    /// How import() begins.
    ghost begins: { Importing Name Seen };
}

/// A call for a body changes what `import()` reads and writes beside promises and errors by `import()` alone, and begins no
/// other body; where no limit is passed, one that starts or runs has begun.
pub fn bodies_keep<A: CallsOfImport>()
    ensures keeps { BodiesKeep A.same A.modules A.begins }
    ensures begins { BodiesBegin A.same A.modules A.begins }
{}
