//! Laws of the definitions, each the contract of a function without effect.
ghost use Rattle.esm_link.specs.Laws.{ClosesWhole, HasLinking, LinkedScopesAreFaithful, LinksWhole, OneLinking};
ghost use Rattle.esm_link.specs.Local.{ClosingIsLocal, LinkingIsLocal, LinksFromLinked, RecordsAgree};
ghost use Rattle.esm_link.specs.Naming.{LinkingFollowsNames};
ghost use Rattle.esm_link.specs.Parsed.{SpelledIsBound};
ghost use Rattle.esm_link.specs.Scopes.{LinkKeepsScopes, LinkLeavesRecords, RecordsKeepScopes, ScopesAreLocal};

/// Linking a module has one outcome: a fault or none, and the modules that are closed then.
pub fn one_linking<N>()
    ensures { OneLinking N }
{}

/// Without a fault each module that was closed, and each that the walk enters, is closed.
pub fn links_whole<N>()
    ensures { LinksWhole N }
{}

/// Linking a module of a finite graph in which each name has a resolution has an outcome.
pub fn has_linking<N>()
    ensures { HasLinking N }
{}

/// With a fault or without one, what is closed behind linking is closed under requests.
pub fn closes_whole<N>()
    ensures { ClosesWhole N }
{}

/// The scope that linking makes of a module reads as the module's names do: it fits its tree, and its imports are bound.
pub fn linked_scopes_are_faithful()
    ensures { LinkedScopesAreFaithful }
{}

/// Linking is local: where two graphs agree on what a root reaches, their linkings from it are the same, with the same
/// faults, and so are the bindings of the imports there.
pub fn linking_is_local<N>()
    ensures { LinkingIsLocal N }
{}

/// Of the modules that are closed when linking begins only those that the root reaches matter.
pub fn closing_is_local<N>()
    ensures { ClosingIsLocal N }
{}

/// Where the root reaches only what is Unlinked or Linked, linking with the Linked modules closed is what `link` does.
pub fn links_from_linked()
    ensures { LinksFromLinked }
{}

/// Records that are the same but for their statuses are the same modules, where they request nothing else.
pub fn records_agree()
    ensures { RecordsAgree }
{}

/// Linking keeps scopes right, whatever it answers: each Linked module has its own, each import of which is bound to what
/// has a scope, nothing is written in what isn't Linked, and what a Linked module requests is Linked. All that was written
/// stays.
pub fn link_keeps_scopes()
    ensures { LinkKeepsScopes }
{}

/// Linking leaves each record as it was but for its status, whatever it answers: Unlinked modules may have become Linked.
pub fn link_leaves_records()
    ensures { LinkLeavesRecords }
{}

/// What keeps the records and the trees of all that have scopes, and links nothing, keeps scopes right.
pub fn records_keep_scopes()
    ensures { RecordsKeepScopes }
{}

/// Scopes that are right over some modules are right over others that agree on all that have scopes, which have numbers there.
pub fn scopes_are_local()
    ensures { ScopesAreLocal }
{}

/// What was read from texts meets the conditions of linking: each name that a module exports as its own is declared once, and
/// its items are few.
pub fn spelled_is_bound()
    ensures { SpelledIsBound }
{}

/// Modules with names, by other names.
pub trait Named {
    ghost use Rattle.std.specs.Prelude.{Bool};
    ghost use Rattle.esm_values.specs.Naming.{Naming};

    /// What names a module.
    type Name;
    /// What names it otherwise.
    type Other;

    /// The other names.
    ghost names: { Naming Self.Name Self.Other };
    /// Two names are the same.
    ghost same: { Self.Name → Self.Name → Bool };
    /// Two of the other names are the same.
    ghost other: { Self.Other → Self.Other → Bool };
}

/// Linking modules is linking them by their names: with the same fault or none, whose error has the same text.
pub fn linking_follows_names<A: Named>()
    ensures { LinkingFollowsNames A.names A.same A.other }
{}
