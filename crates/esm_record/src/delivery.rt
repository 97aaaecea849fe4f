// One outcome that a run took.
use esm_ast::Outcome;
use esm_base::Text;

/// One outcome that a run took.
#[derive(Drop)]
pub struct Delivery {
    /// The URL that was fetched.
    pub url: Text,
    /// What its fetch came to.
    pub outcome: Outcome,
}
