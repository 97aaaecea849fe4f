//! Laws of bodies that stand at an await, each the contract of a function without effect.
ghost use Rattle.esm_world.specs.Awaits.{AwaitsKeepBodies, RunsHaveBodies};

/// Each reaction to an await has a body that stands at one, and each job's promise is settled: so each job has a result,
/// and the body that goes on in it is there.
pub fn awaits_keep_bodies()
    ensures { AwaitsKeepBodies }
{}

/// So it is in each world of a run, and no body stands at two awaits.
pub fn runs_have_bodies()
    ensures { RunsHaveBodies }
{}
