// What stands on the stacks, one value at a time.
ghost use Rattle.std.specs.Prelude.{◌≡◌, ◌+◌, ◌++◌, ◌∷◌, ◌-◌, [], take, length, replicate, slice_get, slice_set, Option, is_some, OnOk, IfOk};
ghost use Rattle.esm_values.specs.declared.value.Value.{Value};

use crate::machine::Handler;
use esm_base::Memory;
use esm_values::Value;

/// A value is put on top.
#[inline(always)]
pub(crate) fn push(operands: &mut Vec<Value>, value: Value) -> Result<(), Memory>
    ensures { OnOk result (operands.new.items ≡ operands.old.items ++ value ∷ []) }
{
    if operands.len() < operands.capacity() {
        operands.push_reserved(value);
        Ok(())
    } else {
        push_growing(operands, value)
    }
}

/// The same where the stack has to grow.
#[cold]
#[inline(never)]
fn push_growing(operands: &mut Vec<Value>, value: Value) -> Result<(), Memory>
    ensures { OnOk result (operands.new.items ≡ operands.old.items ++ value ∷ []) }
{
    operands.push(value)?;
    Ok(())
}

/// The value on top is taken.
#[inline(always)]
pub(crate) fn pop(operands: &mut Vec<Value>) -> Result<Value, Memory>
    ensures { IfOk result (λ v. operands.old.items ≡ operands.new.items ++ v ∷ []) }
{
    match operands.pop() {
        Some(value) => Ok(value),
        None => Err(Memory),
    }
}

/// The value of the name at a place, where it is set.
pub(crate) fn value_at(names: &[Option<Value>], at: usize) -> Result<Option<Value>, Memory>
    ensures { IfOk result (λ v. slice_get names.now at ≡ Some v) }
{
    if at < names.len() {
        match &names[at] {
            Some(value) => {
                let value = value.clone()?;
                Ok(Some(value))
            }
            None => Ok(None),
        }
    } else {
        Err(Memory)
    }
}

/// Whether the name at a place is set.
pub(crate) fn is_set(names: &[Option<Value>], at: usize) -> Result<bool, Memory>
    ensures { IfOk result (λ b. (v : Option Value) × (slice_get names.now at ≡ Some v)
        × (b ≡ is_some v)) }
{
    if at < names.len() {
        Ok(names[at].is_some())
    } else {
        Err(Memory)
    }
}

/// The name at a place is set.
pub(crate) fn set_at(names: &mut Vec<Option<Value>>, at: usize, value: Value) -> Result<(), Memory>
    ensures { OnOk result (names.new.items ≡ slice_set names.old.items at (Some value)) }
{
    if at < names.len() {
        names[at] = Some(value);
        Ok(())
    } else {
        Err(Memory)
    }
}

/// So many names begin, unset.
pub(crate) fn begin_names(names: &mut Vec<Option<Value>>, count: u32) -> Result<(), Memory>
    ensures { OnOk result (names.new.items ≡ names.old.items ++ replicate count None) }
{
    for begun in 0..count {
        let _ = begun;
        names.push(None)?;
    }
    Ok(())
}

/// So many names go.
pub(crate) fn end_names(names: &mut Vec<Option<Value>>, count: u32) -> Result<(), Memory>
    ensures { OnOk result (names.new.items
        ≡ take (length names.old.items - count) names.old.items) }
{
    let many = count as usize;
    let len = names.len();
    if many <= len {
        names.truncate(len - many);
        Ok(())
    } else {
        Err(Memory)
    }
}

/// So many names stay.
#[inline(always)]
pub(crate) fn keep_names(names: &mut Vec<Option<Value>>, count: usize)
    ensures { names.new.items ≡ take count names.old.items }
{
    if names.len() <= count {
        return;
    }
    names.truncate(count);
}

/// So many handlers stay.
#[inline(always)]
pub(crate) fn keep_handlers(handlers: &mut Vec<Handler>, count: usize)
    ensures { handlers.new.items ≡ take count handlers.old.items }
{
    if handlers.len() <= count {
        return;
    }
    handlers.truncate(count);
}

/// A throw leads to a handler from now on.
pub(crate) fn push_handler(handlers: &mut Vec<Handler>, handler: Handler) -> Result<(), Memory>
    ensures { OnOk result (handlers.new.items ≡ handlers.old.items ++ handler ∷ []) }
{
    handlers.push(handler)?;
    Ok(())
}

/// It leads to the innermost handler no longer.
pub(crate) fn pop_handler(handlers: &mut Vec<Handler>) -> Result<Handler, Memory>
    ensures { IfOk result (λ h. handlers.old.items ≡ handlers.new.items ++ h ∷ []) }
{
    match handlers.pop() {
        Some(handler) => Ok(handler),
        None => Err(Memory),
    }
}

/// The place of a name of a function, whose names begin here.
pub(crate) fn place_of(names: usize, place: u32) -> Result<usize, Memory>
    ensures { IfOk result (λ at. at ≡ names + place) }
{
    match names.checked_add(place as usize) {
        Some(at) => Ok(at),
        None => Err(Memory),
    }
}
