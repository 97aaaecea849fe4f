//! A worked run of which the law speaks.
ghost use Rattle.esm_needs_laws.specs.Examples.{NeedsOfRun};

/// An entry that imports a module, which only prints: the body of the entry begins, and its request doesn't lead back to it,
/// so the law says of the other body that it has ended before.
pub fn needs_of_run()
    ensures { NeedsOfRun }
{
    esm_world::traced_run::trace_lines()
}
