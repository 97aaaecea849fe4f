// Names: read, set and written.
ghost use Rattle.std.specs.Prelude.{◌≡◌, ◌++◌, IfOk};
ghost use Rattle.esm_env.specs.Calls.{scopes_of, told_read};
ghost use Rattle.esm_body.specs.Inner.Names.{IsFound, found_reading, reading_in, IsThrown, Tells, seen_slot};
ghost use Rattle.esm_body.specs.Inner.Stack.{scopes_round};

use crate::work::{Level, Slot};
use esm_base::{Memory, ModuleId};
use esm_env::{Envs, Read};
use esm_expr_eval::Out;
use esm_values::{Errors, FaultKind, RcText, Value};
use std::alloc::Global;

/// What reading a name gives, owned.
#[derive(Drop)]
pub(crate) enum Found {
    /// Its value.
    Value(Value),
    /// It isn't set yet.
    Unset,
    /// It isn't declared.
    Undeclared,
}

/// The same value once more. Where it is a function, nothing is counted.
#[inline(always)]
pub(crate) fn copied(value: &Value) -> Result<Value, Memory>
    ensures { IfOk result (λ v. v ≡ value.now) }
{
    match value {
        Value::Func(id) => Ok(Value::Func(*id)),
        _ => {
            let value = value.clone()?;
            Ok(value)
        }
    }
}

/// What is read, owned.
pub(crate) fn owned(read: Read<'_>) -> Result<Found, Memory>
    ensures { IfOk result (λ found. found_reading found ≡ told_read read.entry) }
{
    match read {
        Read::Value(value) => {
            let value = value.clone()?;
            Ok(Found::Value(value))
        }
        Read::Unset => Ok(Found::Unset),
        Read::Undeclared => Ok(Found::Undeclared),
    }
}

/// The innermost block that declares a name, and the name's place there. The outermost level declares none.
pub(crate) fn find(levels: &[Level], name: &str) -> Option<(usize, usize)>
    ensures { IsFound levels.now name.now result }
{
    let mut at = levels.len();
    while at > 1 {
        at = at - 1;
        match levels[at].slots.place(name) {
            Some(found) => return Some((at, found)),
            None => {}
        }
    }
    None
}

/// The value of a name of a block, if it is set.
fn slot_value(slot: &Slot) -> Result<Found, Memory>
    ensures { IfOk result (λ found. found_reading found ≡ seen_slot slot.now) }
{
    match &slot.value {
        Some(value) => {
            let value = value.clone()?;
            Ok(Found::Value(value))
        }
        None => Ok(Found::Unset),
    }
}

/// Reads a name: in the innermost block that declares it, else in the module.
///
/// ECMA-262, ResolveBinding and GetBindingValue.
pub(crate) fn read_name(
    levels: &[Level],
    envs: &Envs,
    at: ModuleId,
    name: &str,
) -> Result<Found, Memory>
    ensures { IfOk result (λ found. found_reading found
        ≡ reading_in (scopes_round levels.now) (scopes_of envs.now) at.0 name.now) }
{
    match find(levels, name) {
        Some((level, place)) => slot_value(levels[level].slots.get(place)),
        None => owned(envs.read(at, name)),
    }
}

/// A new error with this message, to be thrown.
pub(crate) fn throw_new(
    alloc: Global,
    errors: &mut Errors,
    kind: FaultKind,
    message: &str,
) -> Result<Value, Memory>
    ensures { IsThrown errors.old kind message.now result errors.new }
{
    let id = errors.make(alloc, kind, message)?;
    Ok(Value::Error(id))
}

/// The same, whose message is a name and these words.
pub(crate) fn throw_named(
    alloc: Global,
    errors: &mut Errors,
    kind: FaultKind,
    name: &str,
    words: &str,
) -> Result<Value, Memory>
    ensures { IsThrown errors.old kind (name.now ++ words.now) result errors.new }
{
    let message = RcText::join(alloc, name, words)?;
    throw_new(alloc, errors, kind, message.as_str())
}

/// The value that was read, or the throw where there is none.
#[cold]
#[inline(never)]
pub(crate) fn tell(
    alloc: Global,
    errors: &mut Errors,
    name: &str,
    found: Found,
) -> Result<Out, Memory>
    ensures { Tells name.now (found_reading found) errors.old result errors.new }
{
    match found {
        Found::Value(value) => Ok(Out::Value(value)),
        Found::Unset => {
            let kind = FaultKind::ReferenceError;
            match throw_named(alloc, errors, kind, name, " is not initialized") {
                Ok(error) => Ok(Out::Thrown(error)),
                Err(end) => Err(end),
            }
        }
        Found::Undeclared => {
            let kind = FaultKind::ReferenceError;
            match throw_named(alloc, errors, kind, name, " is not defined") {
                Ok(error) => Ok(Out::Thrown(error)),
                Err(end) => Err(end),
            }
        }
    }
}

/// The same of what was read just now.
#[cold]
#[inline(never)]
pub(crate) fn tell_read(
    alloc: Global,
    errors: &mut Errors,
    name: &str,
    read: Read<'_>,
) -> Result<Out, Memory>
    ensures { Tells name.now (told_read read.entry) errors.old result errors.new }
{
    let found = owned(read)?;
    tell(alloc, errors, name, found)
}
