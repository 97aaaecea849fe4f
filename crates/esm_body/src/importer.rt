// What lies outside of bodies.
ghost use Rattle.std.specs.Prelude.{◌≡◌};

use esm_base::ModuleId;
use esm_promise::Promises;
use esm_resolve::ExportGraph;
use esm_rewriting::Stop;
use esm_values::{Errors, PromiseId};
use std::alloc::Global;

/// The modules that are there, and what begins an `import()`.
pub trait Importer: ExportGraph + Drop {
    ghost use Rattle.std.specs.Prelude.{◌≡◌, ℕ, Bool, List};
    ghost use Rattle.esm_env.specs.Modules.{Modules};
    ghost use Rattle.esm_rewriting.specs.Fits.{AreLinked};
    ghost use Rattle.esm_resolve.specs.Graph.{AreAllSound};
    ghost use Rattle.esm_promise.specs.Outer.{Outer};
    ghost use Rattle.std.specs.Prelude.{Result};
    ghost use Rattle.esm_base.specs.declared.limits.Limit.{Limit};
    ghost use Rattle.esm_body.specs.Importers.{Begun, MayBegin, outer_with, HasLinked, ImportsAreLawful};

    /// What contracts see of it.
    ghost Seen: { Type 0 };

    /// What they see of this one.
    ghost seen: { Self → Seen };

    /// The modules that are there.
    ghost modules: { Seen → Modules ℕ };

    /// Which of them are linked.
    ghost linked: { Seen → ℕ → Bool };

    /// The URL that it gives of each id.
    ghost urls: { Self → ℕ → List ℕ };

    /// What holds of promises, errors and modules between two calls.
    ghost fits: { Outer ℕ Seen → Type 0 };

    /// How an `import()` begins.
    ghost begins: { Outer ℕ Seen → ℕ → List ℕ → ℕ → Result (Unit {0}) Limit → Outer ℕ Seen
        → Type 0 };

    /// Begins an `import()` of a specifier that stands written in the referrer, whose promise is there.
    fn begin(
        &mut self,
        alloc: Global,
        promises: &mut Promises,
        errors: &mut Errors,
        referrer: ModuleId,
        specifier: &str,
        promise: PromiseId,
    ) -> Result<(), Stop>
        ensures { MayBegin modules linked fits begins
            (outer_with promises.old errors.old (seen self.old)) referrer.0 promise.0
            → Begun begins (outer_with promises.old errors.old (seen self.old)) referrer.0
            specifier.now promise.0 result
            (outer_with promises.new errors.new (seen self.new)) };

    /// The URL of a module.
    fn url(&self, m: ModuleId) -> &str
        ensures { result.now ≡ urls self.now m.0 };

    /// What is linked is there, by ids. It may have other numbers in the graph of the modules.
    ghost has_linked: { (i : Self) → AreLinked (modules (seen i)) (linked (seen i))
        → HasLinked (modules (seen i)) (linked (seen i)) (Self.graph i) (urls i) };

    /// Exports can be resolved from each id that is there.
    ghost sound: { (i : Self) → AreAllSound (Self.graph i) };

    /// What bodies rely on.
    ghost lawful: { ImportsAreLawful modules linked fits begins };
}
