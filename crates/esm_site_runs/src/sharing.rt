// Outcomes that a run took, shared.
use crate::judging::Judge;
use esm_ast::Outcome;
use esm_base::{Memory, Status};
use esm_run::Delivery;
use std::alloc::Global;

// Whether an outcome, shared, is a script of this text with so many items and no requests, or a broken one of this text
// where no number is given.
fn is_shared(shared: Outcome, body: &str, printed: Option<usize>) -> Result<bool, Memory> {
    match (shared, printed) {
        (Outcome::Script(script), Some(printed)) => Ok(
            script.bytes() == body.as_bytes()
                && script.share_tree()?.items().len() == printed
                && script.share_entries()?.requests().len() == 0,
        ),
        (Outcome::Broken(broken), None) => Ok(broken.bytes() == body.as_bytes()),
        _ => Ok(false),
    }
}

/// Whether a run took one text, whose outcome can be shared: a script with so many items and no requests, or a broken text
/// where no number is given.
#[derive(Drop)]
pub struct Shared<'a> {
    /// The text.
    pub body: &'a str,
    /// How many items it has.
    pub printed: Option<usize>,
}

impl<'a, S> Judge<S> for Shared<'a> {
    fn is_right(
        &mut self,
        _alloc: Global,
        _status: Status,
        _written: &[u8],
        taken: &[Delivery],
        _desk: &S,
        _sources: &[S],
    ) -> Result<bool, Memory> {
        match taken {
            [delivery] => is_shared(delivery.outcome.share()?, self.body, self.printed),
            _ => Ok(false),
        }
    }
}
