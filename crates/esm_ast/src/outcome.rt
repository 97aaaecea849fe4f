// What a fetch of a module text comes to.
ghost use Rattle.std.specs.Prelude.{◌≡◌, IfOk};
ghost use Rattle.esm_grammar.specs.ModuleText.{FaultOf};

use crate::Script;
use esm_base::{Memory, TextFault};
use std::alloc::Global;
use std::marker::Model;
use std::sync::Arc;

/// A body that is no module text: its bytes, and the fault that they have.
#[derive(Drop)]
pub struct BrokenText {
    fault: TextFault,
    bytes: Arc<Vec<u8>>,
}

impl Model for BrokenText {
    ghost use Rattle.esm_ast.specs.Script.{BrokenParts};
    ghost use Rattle.esm_grammar.specs.ModuleText.{FaultOf};

    ghost Value = { BrokenParts };

    ghost view = { λ b. record { fault = b.fault; bytes = b.bytes.value.items } };

    ghost invariant = { λ b. FaultOf b.bytes.value.items b.fault };
}

impl BrokenText {
    /// The body with this fault, which is that of the bytes. It answers `Memory` where memory runs out.
    pub fn new(alloc: Global, fault: TextFault, bytes: Vec<u8>) -> Result<BrokenText, Memory>
        requires { FaultOf bytes.items fault }
        ensures { IfOk result (λ b. b ≡ record { fault = fault; bytes = bytes.items }) }
    {
        let bytes = Arc::new(alloc, bytes)?;
        Ok(BrokenText { fault, bytes })
    }

    /// The fault, which is that of the bytes.
    pub fn fault(&self) -> TextFault
        ensures fault { result ≡ self.now.fault }
        ensures of_bytes { FaultOf self.now.bytes self.now.fault }
    {
        self.fault
    }

    /// The bytes.
    pub fn bytes(&self) -> &[u8]
        ensures { result.now ≡ self.now.bytes }
    {
        self.bytes.as_slice()
    }

    /// One more owner of the same body.
    pub fn share(&self) -> Result<BrokenText, Memory>
        ensures { IfOk result (λ b. b ≡ self.now) }
    {
        let bytes = Arc::try_clone(&self.bytes)?;
        Ok(BrokenText {
            fault: self.fault,
            bytes,
        })
    }
}

/// What a fetch comes to. Contracts see it as an `OutcomeView`.
#[derive(Drop)]
pub enum Outcome {
    /// A body that is a module text.
    Script(Arc<Script>),
    /// A body that is no module text.
    Broken(BrokenText),
    /// There is nothing at the URL.
    Absent,
    /// The fetch failed.
    Failed,
}

impl Outcome {
    ghost use Rattle.esm_ast.specs.Outcome.{outcome_view};

    /// One more owner of the same outcome.
    pub fn share(&self) -> Result<Outcome, Memory>
        ensures { IfOk result (λ o. outcome_view o ≡ outcome_view self.now) }
    {
        match self {
            Outcome::Script(script) => Ok(Outcome::Script(Arc::try_clone(script)?)),
            Outcome::Broken(broken) => Ok(Outcome::Broken(broken.share()?)),
            Outcome::Absent => Ok(Outcome::Absent),
            Outcome::Failed => Ok(Outcome::Failed),
        }
    }
}
