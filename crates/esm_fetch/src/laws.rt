//! Laws of histories with what workers post, each the contract of a function without effect.
ghost use Rattle.esm_fetch.specs.Laws.{PostsResolve};

use crate::posted::Posted;
use esm_module_map::laws as map_laws;
use esm_specifier::laws as specifier_laws;

/// In a history whose posts fit, what is posted has the targets of its requests by the import map of the history.
pub fn posts_resolve()
    ensures { PostsResolve }
{
    map_laws::posts_fit::<Posted>();
    specifier_laws::targets_are_tested();
}
