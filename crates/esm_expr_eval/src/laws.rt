//! Laws of the definitions, each the contract of a function without effect.
ghost use Rattle.esm_expr_eval.specs.Laws.{RewritesOnce, HasRewriting};
ghost use Rattle.esm_expr_eval.specs.Naming.{FollowsNames};

use crate::World;

/// Over a world in which each call has at most one outcome, so has a rewriting, and an expression leads to at most one end.
pub fn one_rewriting<W: World>()
    ensures { RewritesOnce W.url_of W.acts }
{}

/// Over a world in which each call has an outcome, what remains of an expression is a value or has a rewriting, where no
/// call is under way in it, and it leads to an end.
pub fn has_rewriting<W: World>()
    ensures { HasRewriting W.url_of W.acts }
{}

/// Two worlds, with values that stand for values.
pub trait Named {
    ghost use Rattle.std.specs.Prelude.{ℕ, List};
    ghost use Rattle.esm_values.specs.Operators.{Values};
    ghost use Rattle.esm_values.specs.Plans.{Acting};

    /// The values of the one world.
    type Value;
    /// Those of the other.
    type Other;
    /// The one world.
    type World;
    /// The other.
    type Image;
    /// Why a call stops all.
    type Stop;

    /// The value that a value stands for.
    ghost value: { Self.Value → Self.Other };
    /// The worlds of which this is so.
    ghost good: { Self.World → Type 0 };
    /// The world that a world stands for.
    ghost world: { Self.World → Self.Image };
    /// What the language asks of the one values.
    ghost values: { Values Self.Value };
    /// And of the others.
    ghost others: { Values Self.Other };
    /// The URL of the module in which an expression stands.
    ghost url: { Self.World → List ℕ };
    /// The same in the other world.
    ghost other_url: { Self.Image → List ℕ };
    /// What a call on the one world does.
    ghost acts: { Acting Self.World Self.Value Self.Stop };
    /// And on the other.
    ghost other_acts: { Acting Self.Image Self.Other Self.Stop };
}

/// What an expression is rewritten to, and where it leads, follows the names of modules: where each call on a good world is
/// a call on the other world and leaves a good one, so it is of each rewriting.
pub fn follows_names<A: Named>()
    ensures { FollowsNames A.value A.good A.world A.values A.others A.url A.other_url A.acts
        A.other_acts }
{}
