// What workers post.
ghost use Rattle.std.specs.Prelude.{◌≡◌};
ghost use Rattle.esm_ast.specs.Outcome.{outcome_view};
ghost use Rattle.esm_fetch.specs.Answered.{size_of};

use esm_ast::Outcome;
use esm_import_map::ImportMap;
use esm_module_map::Payload;
use esm_specifier::Targets;

/// What a fetch came to, as a payload of the module map. Its guide is the import map.
#[derive(Drop)]
pub struct Posted {
    /// What it came to.
    pub outcome: Outcome,
    /// What its requests resolve to, where they were resolved ahead.
    pub targets: Option<Targets>,
}

// How many bytes an outcome keeps.
fn size_of_outcome(outcome: &Outcome) -> usize
    ensures { result ≡ size_of (outcome_view outcome.now) }
{
    match outcome {
        Outcome::Script(script) => script.bytes().len(),
        Outcome::Broken(broken) => broken.bytes().len(),
        Outcome::Absent => 0,
        Outcome::Failed => 0,
    }
}

impl Payload for Posted {
    type Guide = ImportMap;

    ghost use Rattle.esm_ast.specs.Outcome.{outcome_view};
    ghost use Rattle.esm_fetch.specs.Answered.{size_of, requests_in, is_ahead, requests_url};

    ghost weight = { λ p. size_of (outcome_view p.outcome) };

    ghost leads = { λ maps p from to. requests_url maps from (outcome_view p.outcome) to };

    ghost fits = { λ maps p url.
        is_ahead maps url (requests_in (outcome_view p.outcome)) p.targets };

    fn size(&self) -> usize {
        size_of_outcome(&self.outcome)
    }
}
