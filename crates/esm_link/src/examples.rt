//! Worked examples of the definitions, each the contract of a function without effect.
ghost use Rattle.esm_link.specs.Examples.{ClosedBeforeFault, UnboundCycle};

/// Two modules export a name of each other, which is bound nowhere: K3 at the one that is left first, and all stay unlinked.
pub fn unbound_cycle()
    ensures { UnboundCycle }
{}

/// A module imports what isn't exported: K1, and the module that it imports from, which was closed before, is linked.
pub fn closed_before_fault()
    ensures { ClosedBeforeFault }
{}
