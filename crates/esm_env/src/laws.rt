//! Laws of the definitions, each the contract of a function without effect.
ghost use Rattle.esm_env.specs.Laws.{ReadsOne, BeginsUnset, ReadsRight, EndsRight, WritesRight, PlacesRight, MadeFits};
ghost use Rattle.esm_env.specs.Naming.{FollowsNames, PulledAreNamed};

/// An import is bound to one thing at most, and a name, and a member of a namespace, reads as one thing at most.
pub fn one_reading()
    ensures { ReadsOne }
{}

/// Before anything is written, a `const` or `let` of a module is unset, and a function is set.
pub fn begins_unset()
    ensures { BeginsUnset }
{}

/// Over scopes that were made from the trees, with their imports bound as linking binds them, what the code reads is
/// what the name reads as, where an import of that name is bound to a module that has a scope.
pub fn reads_right()
    ensures { ReadsRight }
{}

/// A scope that was made from a tree has the names that the tree declares, each as the tree says that it begins.
pub fn made_fits()
    ensures { MadeFits }
{}

/// Over such scopes, what a write comes to is the writing of the name, where each import of the module is bound; what a
/// declaration sets is its cell, and the scopes fit as before.
pub fn writes_right()
    ensures { WritesRight }
{}

/// A place is that of one name at most, and the write at it is the write of the name, and one at a place that no name has
/// writes no cell.
pub fn places_right()
    ensures { PlacesRight }
{}

/// Over such scopes, what is read where a resolution ends, at a local export of a module that has a scope, is the member of
/// the namespace that is asked for, where an import of that name is bound to a module that has a scope.
pub fn ends_right()
    ensures { EndsRight }
{}

/// Modules with names, by other names.
pub trait Named {
    ghost use Rattle.std.specs.Prelude.{Bool};
    ghost use Rattle.esm_values.specs.Naming.{Naming};

    /// What names a module.
    type Name;
    /// What names it otherwise.
    type Other;

    /// The other names.
    ghost names: { Naming Self.Name Self.Other };
    /// Two names are the same.
    ghost same: { Self.Name → Self.Name → Bool };
    /// Two of the other names are.
    ghost other: { Self.Other → Self.Other → Bool };
}

/// What names and members read as, which keys a namespace has, and what is written, follows the names of modules.
pub fn follows_names<A: Named>()
    ensures { FollowsNames A.names A.same A.other }
{}

/// Modules that are read by other names, each of which is of a module, are the same modules by their names, whichever are
/// there.
pub fn pulled_are_named<A: Named>()
    ensures { PulledAreNamed A.names }
{}
