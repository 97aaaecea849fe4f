//! Laws of what loading brings to linking and bodies, each the contract of a function without effect.
ghost use Rattle.esm_world.specs.Loaded.{HasLink, LinkedStaysLinked, LoadedAreLinked, LoadingStaysFit, UnlinkedStays};

use esm_resolve::laws::shared_set;

/// Loading stays orderly and whole, and each module keeps its tree and a target for each request.
pub fn loading_stays_fit()
    ensures { LoadingStaysFit }
{}

/// What is Unlinked are modules in which bodies can run.
pub fn loaded_are_linked()
    ensures { LoadedAreLinked }
{}

/// Linking an Unlinked module has an outcome, and the root of a load that is complete is one.
pub fn has_link()
    ensures { HasLink }
{
    shared_set();
}

/// What is linked are modules in which bodies can run, also behind linking, with a fault or without one.
pub fn linked_stays_linked()
    ensures { LinkedStaysLinked }
{}

/// What is Unlinked stays so.
pub fn unlinked_stays()
    ensures { UnlinkedStays }
{}
