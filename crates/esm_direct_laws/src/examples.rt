//! A worked example of the laws, as a function without effect.
ghost use Rattle.esm_direct_laws.specs.Examples.{CleanDirect, CleanRun, SecondFirst};

use esm_resolve::laws::shared_set;

/// An entry that imports two modules: its files are clean, and a run of them ends within the limits; where the file of the
/// second request is there first the same is shown; and there is a direct run, which shows it too and meets no limit.
pub fn clean_run()
    ensures run { CleanRun }
    ensures second_first { SecondFirst }
    ensures direct { CleanDirect }
{
    shared_set()
}
