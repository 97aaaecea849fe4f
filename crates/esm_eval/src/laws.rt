//! Laws of the definitions, as functions without effect.
ghost use Rattle.esm_eval.specs.Between.{HostsStayBetween, StaysBetween};
ghost use Rattle.esm_eval.specs.Keeping.{HasEvaluation};
ghost use Rattle.esm_eval.specs.Naming.{EvaluationFollowsNames};
ghost use Rattle.esm_eval.specs.Laws.{BeginsOnce, OneEvaluation, WaitsStayOpen};
ghost use Rattle.esm_eval.specs.Whole.{HostsMayEvaluate};

use crate::bodies::Bodies;

/// A world of any kind, with a relation for what the calls for bodies do in it. The laws range over all of them.
pub trait AnyWorld {
    ghost use Rattle.esm_eval.specs.Nodes.{BodyCalls};
    ghost use Rattle.esm_eval.specs.Evaluation.{Evaluation};

    /// What names a module.
    type Name;
    /// What a body throws.
    type Value;
    /// The world.
    type World;
    /// Why a call for a body stops all.
    type Stop;

    /// What evaluation reads and writes of the world.
    ghost evaluation: { Evaluation Self.Name Self.Value Self.World };
    /// What a call for a body does.
    ghost acts: { BodyCalls Self.Name Self.Value Self.World Self.Stop };
}

/// Where each call for a body has at most one outcome, so has an evaluation, and so has what follows the end of a body.
pub fn one_evaluation<A: AnyWorld>()
    ensures { OneEvaluation A.evaluation A.acts }
{}

/// Between two calls of evaluation a module that is evaluating-async, whose body hasn't begun and whose cycle root has no error,
/// waits for one that isn't done.
pub fn waits_stay_open<A: AnyWorld>()
    ensures { WaitsStayOpen A.evaluation A.acts }
{}

/// No body begins twice.
pub fn begins_once<A: AnyWorld>()
    ensures { BeginsOnce A.evaluation A.acts }
{}

/// What holds between two calls of evaluation holds wherever evaluation has come as far: the same was written of modules,
/// and the same bodies have begun.
pub fn stays_between<A: AnyWorld>()
    ensures { StaysBetween A.evaluation }
{}

/// Over nodes, promises and bodies it holds at the opening, and stays whatever is done to promises and modules, as long as no
/// other body begins, and also where a module more has a node.
pub fn hosts_stay_between<B: Bodies>()
    ensures { HostsStayBetween B.targets B.awaits B.begun }
{}

/// Over nodes, promises and bodies that fit an evaluation may begin at each linked module, where what is linked has targets
/// among the linked modules alone.
pub fn hosts_may_evaluate<B: Bodies>()
    ensures { HostsMayEvaluate B.targets B.awaits B.begun B.linked B.knows B.fits }
{}

/// Worlds in which evaluation has an outcome.
pub trait FitWorld: AnyWorld {
    /// The worlds.
    ghost fits: { Self.World → Type 0 };
    /// The modules that are linked.
    ghost is_module: { Self.Name → Type 0 };
    /// The values that are thrown.
    ghost is_known: { Self.Value → Type 0 };
}

/// Where calls for bodies have outcomes, an evaluation has one, and so has what follows the end of a body.
pub fn has_evaluation<F: FitWorld>()
    ensures { HasEvaluation F.evaluation F.acts F.fits F.is_module F.is_known }
{}

/// A world whose modules have other names in another world, as which it is read.
pub trait NamedWorld: AnyWorld {
    /// The other world.
    type Other: AnyWorld<Stop = Self::Stop>;

    ghost use Rattle.esm_values.specs.Naming.{Naming};

    /// The names of modules.
    ghost names: { Naming Self.Name Self.Other.Name };
    /// The values in the place of those that bodies throw.
    ghost value: { Self.Value → Self.Other.Value };
    /// The worlds of which this is so.
    ghost good: { Self.World → Type 0 };
    /// The modules that are linked.
    ghost is_linked: { Self.Name → Type 0 };
    /// The world as the other.
    ghost world: { Self.World → Self.Other.World };
}

/// From a good world evaluation follows names: evaluating a module, and what follows the end of a body, are so of the other
/// world, and leave a good one, where the calls for bodies that evaluation may make do.
pub fn evaluation_follows_names<A: NamedWorld>()
    ensures { EvaluationFollowsNames A.names A.value A.good A.evaluation A.Other.evaluation A.world
        A.is_linked A.acts A.Other.acts }
{}
