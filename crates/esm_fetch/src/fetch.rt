// One fetch, what its body is read as, and what its requests resolve to.
ghost use Rattle.std.specs.Prelude.{◌≡◌, ◌⊎◌, true, IfOk, OnErr, IfSome};
ghost use Rattle.esm_ports.specs.declared.asked.AskKind.TheVariants.{Body};
ghost use Rattle.esm_ports.specs.Asks.{asks_with};
ghost use Rattle.esm_ast.specs.Outcome.{outcome_view, OutcomeOf};
ghost use Rattle.esm_base.specs.Urls.{IsUsable};
ghost use Rattle.esm_fetch.specs.Answered.{kind_of, requests_in, is_ahead, IsRead, IsToldOutcome};

use esm_ast::{BrokenText, Outcome};
use esm_base::{Memory, ReadEnd, Text};
use esm_import_map::ImportMap;
use esm_ports::{FetchEnd, Source};
use esm_script::read_script;
use esm_specifier::{Targets, laws as specifier_laws, targets_of};
use std::alloc::Global;
use std::sync::Arc;

// What a body is read as.
fn outcome_of(alloc: Global, body: Vec<u8>) -> Result<Outcome, Memory>
    ensures { IfOk result (λ o. OutcomeOf body.items (outcome_view o)) }
{
    match read_script(alloc, body) {
        Ok(script) => Ok(Outcome::Script(Arc::new(alloc, script)?)),
        Err((ReadEnd::Fault(fault), body)) => Ok(Outcome::Broken(BrokenText::new(
            alloc, fault, body,
        )?)),
        Err((ReadEnd::Memory, _)) => Err(Memory),
    }
}

/// Fetches and reads what is at a URL, by one fetch. Where memory runs out the source was asked at most once, and
/// answered a body.
pub fn fetch_outcome<S: Source>(
    alloc: Global,
    source: &mut S,
    url: &Text,
) -> Result<Outcome, Memory>
    ensures asked { IfOk result (λ o. S.asked source.new
        ≡ asks_with (S.asked source.old) url.now (kind_of (outcome_view o))) }
    ensures told { IfSome (S.holds source.old) (λ contents. IfOk result (λ o.
        IsToldOutcome contents url.now (outcome_view o))) }
    ensures read { IfOk result (λ o. IsRead (outcome_view o)) }
    ensures holds { S.holds source.new ≡ S.holds source.old }
    ensures memory { OnErr result ((S.asked source.new ≡ S.asked source.old)
        ⊎ (S.asked source.new ≡ asks_with (S.asked source.old) url.now Body)) }
{
    match source.fetch(alloc, url.as_str()) {
        Ok(body) => outcome_of(alloc, body),
        Err(FetchEnd::Absent) => Ok(Outcome::Absent),
        Err(FetchEnd::Failed) => Ok(Outcome::Failed),
        Err(FetchEnd::Memory) => Err(Memory),
    }
}

// How many bytes the targets of a module may take that are resolved ahead, at the most, where specifiers are short: as many
// URLs as it has requests, each as long as its own. They are held twice, and up to the end of the run, so this is bounded.
// Specifiers that are long themselves stand in the body, whose bytes are counted.
const MAX_AHEAD: usize = 16 * 1024;

// What these requests of the module at the URL resolve to, unless that may take more than is resolved ahead.
fn resolve_few(
    alloc: Global,
    guide: &ImportMap,
    url: &Text,
    requests: &[Text],
) -> Result<Option<Targets>, Memory>
    requires { IsUsable url.now }
    ensures { IfOk result
        (λ targets. is_ahead guide.now url.now requests.now targets ≡ true) }
{
    specifier_laws::targets_are_tested();
    if requests.len().saturating_mul(url.as_str().len()) > MAX_AHEAD {
        return Ok(None);
    }
    match targets_of(alloc, guide, url, requests) {
        Ok(targets) => Ok(Some(targets)),
        Err(_) => Err(Memory),
    }
}

// What the requests of what was fetched at a URL resolve to, where they are resolved ahead.
pub(crate) fn resolve_ahead(
    alloc: Global,
    guide: &ImportMap,
    url: &Text,
    outcome: &Outcome,
) -> Result<Option<Targets>, Memory>
    requires { IsUsable url.now }
    ensures { IfOk result (λ targets.
        is_ahead guide.now url.now (requests_in (outcome_view outcome.now)) targets ≡ true) }
{
    match outcome {
        Outcome::Script(script) => resolve_few(alloc, guide, url, script.entries().requests()),
        Outcome::Broken(_broken) => Ok(None),
        Outcome::Absent => Ok(None),
        Outcome::Failed => Ok(None),
    }
}
