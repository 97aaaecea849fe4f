//! Laws of the definitions, as functions without effect.
ghost use Rattle.esm_promise.specs.Laws.{SettlesOnce, JobsAreOfSettled, MadePending, JobsAreInOrder};
ghost use Rattle.esm_promise.specs.Renaming.{FollowsNames};

/// What is settled stays settled as it is, whatever is made, registered, or settled besides.
pub fn settles_once()
    ensures { SettlesOnce }
{}

/// Each job is that of a settled promise, so that there is a result that it is given.
pub fn jobs_are_of_settled()
    ensures { JobsAreOfSettled }
{}

/// A promise that is made is there under its id, pending with its reactions or fulfilled with its value, and adds no job.
pub fn made_pending()
    ensures { MadePending }
{}

/// Jobs are added at the end, and taken from the front: none by a reaction on a pending promise, which keeps it behind its
/// others; one at once by a reaction on a settled one; and one for each reaction, in order, by the settling of a promise.
pub fn jobs_are_in_order()
    ensures { JobsAreInOrder }
{}

/// What the numbers of modules name.
pub trait Naming {
    ghost use Rattle.std.specs.Prelude.{ℕ};

    /// What names a module.
    type Name;

    /// The name of the module with a number.
    ghost name: { ℕ → Self.Name };
}

/// What is done to promises whose modules are renamed is what was done to them before, renamed.
pub fn follows_names<A: Naming>()
    ensures { FollowsNames A.name }
{}
