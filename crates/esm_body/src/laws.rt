//! A law of what the calls of the engine ask, as the contract of a function without effect.
ghost use Rattle.esm_body.specs.Engines.{StillTakesBodies};

use crate::importer::Importer;

/// What takes bodies takes them still where a fetch, linking, promises and errors change what lies outside: where
/// linked modules keep their trees, the scopes are those of the modules, and the state fits. It fits where promises, errors
/// and modules fit, what was known is known, and each cell has a known value.
pub fn still_takes_bodies<I: Importer>()
    ensures { StillTakesBodies I.modules I.linked I.fits I.begins }
{}
