//! A worked example of trace lines: a whole standard run, as a function without effect.
ghost use Rattle.esm_world.specs.TracedRun.{TraceLines};

/// A module that imports another: the lines of the starts and ends of both stand in the log.
pub fn trace_lines()
    ensures { TraceLines }
{}
