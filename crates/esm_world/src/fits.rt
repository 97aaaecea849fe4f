//! Laws of worlds that fit, each the contract of a function without effect.
ghost use Rattle.esm_world.specs.FitLaws.{WorldsFit, HasFitEvaluation, HasFitResumption};
ghost use Rattle.esm_world.specs.RunLaws.{HoldsOfRuns, RunsFit};
ghost use Rattle.esm_world.specs.Sound.{IsSound, LinkingStaysReady, WorldsStaySound};

/// The opening world fits, and the end of a fetch, an answer of a pending request, and that more modules are linked, keep
/// it.
pub fn worlds_fit()
    ensures { WorldsFit }
{}

/// In worlds that fit each call of evaluation has an outcome, and so has a body that goes on behind its await; what they
/// leave fits.
pub fn has_fit_outcomes()
    ensures evaluation { HasFitEvaluation }
    ensures resumption { HasFitResumption }
{
    esm_resolve::laws::shared_set()
}

/// Each world of a run that no limit has stopped fits.
pub fn runs_fit()
    ensures { RunsFit }
{
    esm_resolve::laws::shared_set()
}

/// Each world of a run that no limit has stopped is sound: each step that no limit stops leaves a sound world, and each job
/// can be done. Linking keeps that a world is ready for evaluation and bodies.
pub fn worlds_stay_sound()
    ensures steps { WorldsStaySound }
    ensures links { LinkingStaysReady }
    ensures runs { HoldsOfRuns IsSound }
{
    esm_resolve::laws::shared_set()
}
