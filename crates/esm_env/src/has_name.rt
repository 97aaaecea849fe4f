// What has a name.
ghost use Rattle.std.specs.Prelude.{◌≡◌, ℕ, List};

use crate::scope::Target;
use crate::slots::Slot;
use esm_base::Text;

/// A value that has a name.
pub trait HasName {
    // Its name.
    ghost own_name: { Self → List ℕ };

    /// Its name. It doesn't allocate.
    fn name(&self) -> &str
        ensures { result.now ≡ own_name self.now };
}

impl HasName for Slot {
    ghost own_name = { λ s. s.name };

    fn name(&self) -> &str {
        self.name.as_str()
    }
}

impl HasName for (Text, Target) {
    ghost own_name = { λ i. i.0 };

    fn name(&self) -> &str {
        self.0.as_str()
    }
}
