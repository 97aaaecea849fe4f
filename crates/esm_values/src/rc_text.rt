// Shared texts.
ghost use Rattle.std.specs.Prelude.{◌≡◌, ◌++◌, IfOk, string_bytes};

use esm_base::Memory;
use std::alloc::{AllocError, Global};
use std::marker::Model;
use std::rc::RcStr;

/// A shared UTF-8 text. Contracts see its bytes. A clone copies no bytes; it answers `Memory` where it can't be counted.
#[derive(Drop)]
pub struct RcText {
    text: RcStr<Global>,
}

impl Model for RcText {
    ghost use Rattle.std.specs.Prelude.{List, ℕ};
    ghost use Rattle.std.specs.Rc.{rc_str_bytes};

    ghost Value = { List ℕ };

    ghost view = { λ t. rc_str_bytes t.text };
}

impl RcText {
    /// The same text, shared from now on. It answers `Memory` where memory runs out.
    pub fn copy(alloc: Global, from: &str) -> Result<RcText, Memory>
        ensures { IfOk result (λ t. t ≡ from.now) }
    {
        let text = RcStr::from_str(alloc, from)?;
        Ok(RcText { text })
    }

    /// Both texts, one behind the other. It answers `Memory` where memory runs out.
    pub fn join(alloc: Global, left: &str, right: &str) -> Result<RcText, Memory>
        ensures { IfOk result (λ t. t ≡ left.now ++ right.now) }
    {
        let mut text = String::from_str(alloc, left)?;
        text.push_str(right)?;
        let text = RcStr::from_string(text)?;
        Ok(RcText { text })
    }

    /// The text of a string, shared from now on. It answers `Memory` where memory runs out.
    pub fn from_string(text: String) -> Result<RcText, Memory>
        ensures { IfOk result (λ t. t ≡ string_bytes text) }
    {
        let text = RcStr::from_string(text)?;
        Ok(RcText { text })
    }

    /// The text. It doesn't allocate.
    pub fn as_str(&self) -> &str
        ensures { result.now ≡ self.now }
    {
        &self.text
    }
}

impl Clone for RcText {
    fn clone(&self) -> Result<RcText, AllocError>
        ensures { IfOk result (λ t. t ≡ self.now) }
    {
        let text = self.text.clone()?;
        Ok(RcText { text })
    }
}
