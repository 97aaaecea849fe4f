// What refusals leave of what lies outside of bodies.
ghost use Rattle.std.specs.Prelude.{◌≡◌, Bool, Err};
ghost use Rattle.esm_machine.specs.Linking.{condition_linked};
ghost use Rattle.esm_machine.specs.ModuleStore.{condition_by, is_whole, stop_by};

use esm_base::Limit;
use esm_link::LinkEnd;
use esm_loads::LoadEnd;
use esm_rewriting::Stop;

/// What is known of what lies outside of bodies.
#[derive(Clone, Copy, Debug, PartialEq, Eq)]
pub enum Condition {
    /// All: nothing was refused.
    Whole,
    /// A limit has stopped an `import()` or an answer: what was linked is there still.
    Stopped(Limit),
    /// Nothing: memory ran out, or a limit has stopped the end of a fetch.
    Lost,
}

impl Condition {
    /// Whether nothing was refused.
    pub fn is_whole(self) -> bool
        ensures { result ≡ is_whole self }
    {
        match self {
            Condition::Whole => true,
            Condition::Stopped(_limit) => false,
            Condition::Lost => false,
        }
    }
}

/// What an `import()` or an answer that was refused leaves.
pub fn condition_after(end: LoadEnd) -> Condition
    ensures { result ≡ condition_by end }
{
    match end {
        LoadEnd::Fault(limit) => Condition::Stopped(limit),
        LoadEnd::Memory => Condition::Lost,
    }
}

/// What a linking that was refused leaves: a fault changes nothing of what is known.
pub fn condition_unlinked(end: &LinkEnd) -> Condition
    ensures { result ≡ condition_linked (Err end.now) }
{
    match end {
        LinkEnd::Fault(_fault) => Condition::Whole,
        LinkEnd::Memory => Condition::Lost,
    }
}

/// The same refusal, as bodies know it.
pub fn stop_after(end: LoadEnd) -> Stop
    ensures { result ≡ stop_by end }
{
    match end {
        LoadEnd::Fault(limit) => Stop::Limit(limit),
        LoadEnd::Memory => Stop::Memory,
    }
}
