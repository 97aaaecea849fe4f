//! Laws of the definitions, each the contract of a function without effect.
ghost use Rattle.esm_world.specs.OnOrder.{NeedsFirst};

/// In each standard run: before the body of a module begins, the bodies of what it requests, and of what these reach, have
/// ended normally, where the request doesn't lead back to it.
pub fn needs_first()
    ensures { NeedsFirst }
{
    esm_world::fits::runs_fit()
}
