// What `import()` does beside its importer.
ghost use Rattle.esm_values.specs.Code.{value_of};
ghost use Rattle.esm_body.specs.Importers.{outer_with};
ghost use Rattle.esm_body.specs.Inner.Displayed.{BeginsTold, RefusesTold};
ghost use Rattle.esm_body.specs.Inner.Functions.{ImportsFrom};

use crate::displays::specifier_of;
use crate::importer::Importer;
use crate::inside::Inside;
use esm_base::{Memory, ModuleId};
use esm_promise::{Promises, Settled};
use esm_rewriting::Stop;
use esm_values::{Errors, FaultKind, Value};
use std::alloc::Global;

/// Begins an `import()` of a specifier that stands written in this module, and gives its promise.
///
/// ECMA-262, EvaluateImportCall.
fn begin_import<I: Importer>(
    alloc: Global,
    promises: &mut Promises,
    errors: &mut Errors,
    imports: &mut I,
    at: ModuleId,
    specifier: &str,
) -> Result<Value, Stop>
    ensures { BeginsTold I.modules I.linked I.fits I.begins
        (outer_with promises.old errors.old (I.seen imports.old)) at.0 specifier.now result
        (outer_with promises.new errors.new (I.seen imports.new)) }
{
    match promises.make(alloc) {
        Ok(promise) => {
            match imports.begin(alloc, promises, errors, at, specifier, promise) {
                Ok(()) => Ok(Value::Promise(promise)),
                Err(stop) => Err(stop),
            }
        }
        Err(Memory) => Err(Stop::Memory),
    }
}

/// Gives a promise that is rejected at once, since the specifier has no text.
///
/// ECMA-262, IfAbruptRejectPromise.
fn refuse_import(
    alloc: Global,
    promises: &mut Promises,
    errors: &mut Errors,
) -> Result<Value, Memory>
    ensures { RefusesTold promises.old errors.old result promises.new errors.new }
{
    let id = errors.make(alloc, FaultKind::TypeError, "cannot convert to text")?;
    let promise = promises.make(alloc)?;
    promises.settle(promise, Settled::Rejected(Value::Error(id)));
    Ok(Value::Promise(promise))
}

/// Begins an `import()` that stands written in this module, and gives its promise.
pub(crate) fn import_from<I: Importer>(
    inside: &mut Inside<'_, I>,
    m: ModuleId,
    of: Value,
) -> Result<Value, Stop>
    ensures { ImportsFrom I.seen I.modules I.linked I.fits I.begins m.0 inside.old (value_of of)
        result inside.new }
{
    esm_promise::laws::made_pending();
    match specifier_of(inside.alloc, inside.errors, &of) {
        Ok(specifier) => match specifier {
            Some(specifier) => begin_import(
                inside.alloc,
                inside.promises,
                inside.errors,
                inside.imports,
                m,
                specifier.as_str(),
            ),
            None => match refuse_import(inside.alloc, inside.promises, inside.errors) {
                Ok(promise) => Ok(promise),
                Err(Memory) => Err(Stop::Memory),
            },
        },
        Err(Memory) => Err(Stop::Memory),
    }
}
