// What becomes of the values of parts.
ghost use Rattle.std.specs.Prelude.{◌≡◌, ◌++◌, ◌∷◌, [], not, nat_eq, IfOk};
ghost use Rattle.esm_values.specs.Code.{value_of, values_of};
ghost use Rattle.esm_values.specs.Value.{same_value};
ghost use Rattle.esm_values.specs.Operators as spec;
ghost use Rattle.esm_values.specs.Operators.{look_of};
ghost use Rattle.esm_row_machine.specs.Changes.{Decides, Popped, PoppedTwo, Put};
ghost use Rattle.esm_row_machine.specs.Asking.{Heard, PoppedMany, WithName};
ghost use Rattle.esm_row_machine.specs.Outside as said;

use crate::machine::Frame;
use crate::outside::Outside;
use crate::reading::{put, take};
use crate::stacks::pop;
use crate::turn::Turn;
use esm_base::Memory;
use esm_rewriting::Stop;
use esm_values::{RcText, Value, is_same, is_true};

/// Where the value on top is this, it stays, and so many operations are left; else it goes.
fn decide(
    operands: &mut Vec<Value>,
    value: Value,
    stays: bool,
    skip: u32,
    left: usize,
) -> Result<Turn, Stop>
    ensures { Decides stays operands.old.items value skip left result operands.new.items }
{
    if stays {
        put(operands, value, skip as usize)
    } else {
        Ok(Turn::On(left))
    }
}

/// `||` behind its left side.
pub(crate) fn or_else(operands: &mut Vec<Value>, skip: u32, left: usize) -> Result<Turn, Stop>
    ensures { Popped operands.old.items (λ vs v r. Decides (spec.is_true (look_of (value_of v))) vs
        v skip left r operands.new.items) result }
{
    match pop(operands) {
        Ok(value) => {
            let stays = is_true(&value);
            decide(operands, value, stays, skip, left)
        }
        Err(Memory) => Err(Stop::Memory),
    }
}

/// `&&` behind its left side.
pub(crate) fn and_also(operands: &mut Vec<Value>, skip: u32, left: usize) -> Result<Turn, Stop>
    ensures { Popped operands.old.items (λ vs v r. Decides
        (not (spec.is_true (look_of (value_of v)))) vs v skip left r operands.new.items) result }
{
    match pop(operands) {
        Ok(value) => {
            let stays = !is_true(&value);
            decide(operands, value, stays, skip, left)
        }
        Err(Memory) => Err(Stop::Memory),
    }
}

/// Two values are taken, the lower one first.
fn pop_two(operands: &mut Vec<Value>) -> Result<(Value, Value), Memory>
    ensures { IfOk result (λ p. operands.old.items
        ≡ operands.new.items ++ p.0 ∷ p.1 ∷ []) }
{
    let right = pop(operands)?;
    let left = pop(operands)?;
    Ok((left, right))
}

/// Whether two values are the same, or aren't.
fn compared(alike: bool, left: &Value, right: &Value) -> bool
    ensures { result ≡ spec.compare alike
        (same_value nat_eq (value_of left.now) (value_of right.now)) }
{
    let same = is_same(left, right);
    if alike { same } else { !same }
}

/// `===` or `!==` behind both sides.
pub(crate) fn compare(operands: &mut Vec<Value>, alike: bool, left: usize) -> Result<Turn, Stop>
    ensures { PoppedTwo operands.old.items (λ vs u v r. Put vs (Value.Bool (spec.compare alike
        (same_value nat_eq (value_of u) (value_of v)))) left r operands.new.items) result }
{
    match pop_two(operands) {
        Ok((first, second)) => {
            let truth = compared(alike, &first, &second);
            put(operands, Value::Bool(truth), left)
        }
        Err(Memory) => Err(Stop::Memory),
    }
}

/// `+` behind both sides.
pub(crate) fn add<W: Outside>(
    world: &mut W,
    operands: &mut Vec<Value>,
    left: usize,
) -> Result<Turn, Stop>
    ensures { PoppedTwo operands.old.items (λ vs u v r. Heard vs (λ told. said.Asked W.state
        W.modules W.linked W.begins W.ready W.keeps world.old (value_of u ∷ value_of v ∷ [])
        (said.sum_plan (value_of u) (value_of v)) told world.new) left r operands.new.items) result }
{
    match pop_two(operands) {
        Ok((first, second)) => {
            let told = world.add(&first, &second);
            take(operands, told, left)
        }
        Err(Memory) => Err(Stop::Memory),
    }
}

/// `!` behind its value.
pub(crate) fn turn_over(operands: &mut Vec<Value>, left: usize) -> Result<Turn, Stop>
    ensures { Popped operands.old.items (λ vs v r. Put vs
        (Value.Bool (not (spec.is_true (look_of (value_of v))))) left r operands.new.items) result }
{
    match pop(operands) {
        Ok(value) => {
            let truth = !is_true(&value);
            put(operands, Value::Bool(truth), left)
        }
        Err(Memory) => Err(Stop::Memory),
    }
}

/// A member of the value on top.
pub(crate) fn member<W: Outside>(
    world: &mut W,
    operands: &mut Vec<Value>,
    name: Option<&RcText>,
    left: usize,
) -> Result<Turn, Stop>
    ensures { WithName name.entry (λ x. Popped operands.old.items (λ vs v r. Heard vs
        (λ told. said.Asked W.state W.modules W.linked W.begins W.ready W.keeps world.old
        (value_of v ∷ []) (said.member_plan (value_of v) x) told world.new) left r
        operands.new.items) result) result }
{
    match name {
        Some(name) => member_named(world, operands, name, left),
        None => Err(Stop::Memory),
    }
}

/// The member with this name.
fn member_named<W: Outside>(
    world: &mut W,
    operands: &mut Vec<Value>,
    name: &RcText,
    left: usize,
) -> Result<Turn, Stop>
    ensures { Popped operands.old.items (λ vs v r. Heard vs (λ told. said.Asked W.state W.modules
        W.linked W.begins W.ready W.keeps world.old (value_of v ∷ [])
        (said.member_plan (value_of v) name.now) told world.new) left r operands.new.items) result }
{
    match pop(operands) {
        Ok(value) => {
            let told = world.member(value, name.as_str());
            take(operands, told, left)
        }
        Err(Memory) => Err(Stop::Memory),
    }
}

/// So many values are printed.
pub(crate) fn print<W: Outside>(
    world: &mut W,
    operands: &mut Vec<Value>,
    count: u32,
    left: usize,
) -> Result<Turn, Stop>
    ensures { PoppedMany operands.old.items count (λ vs us r. Heard vs (λ told. said.Asked W.state
        W.modules W.linked W.begins W.ready W.keeps world.old (values_of us)
        (said.print_plan (values_of us)) told world.new) left r operands.new.items) result }
{
    let many = count as usize;
    let len = operands.len();
    if many <= len {
        let from = len - many;
        let told = world.print(&operands[from..]);
        operands.truncate(from);
        take(operands, told, left)
    } else {
        Err(Stop::Memory)
    }
}

/// An error is made of the value on top.
pub(crate) fn make_error<W: Outside>(
    world: &mut W,
    operands: &mut Vec<Value>,
    left: usize,
) -> Result<Turn, Stop>
    ensures { Popped operands.old.items (λ vs v r. Heard vs (λ told. said.Asked W.state W.modules
        W.linked W.begins W.ready W.keeps world.old (value_of v ∷ []) (said.error_plan (value_of v))
        told world.new) left r operands.new.items) result }
{
    match pop(operands) {
        Ok(value) => {
            let told = world.new_error(&value);
            take(operands, told, left)
        }
        Err(Memory) => Err(Stop::Memory),
    }
}

/// An `import()` of the value on top begins.
pub(crate) fn import<W: Outside>(
    world: &mut W,
    operands: &mut Vec<Value>,
    frame: Frame,
    left: usize,
) -> Result<Turn, Stop>
    ensures { Popped operands.old.items (λ vs v r. Heard vs (λ told. said.AskedIn W.state W.modules
        W.linked W.begins W.ready W.keeps frame.at.0 world.old (value_of v ∷ [])
        (said.import_plan (value_of v)) told world.new) left r operands.new.items) result }
{
    match pop(operands) {
        Ok(value) => {
            let told = world.import(frame.at, value);
            take(operands, told, left)
        }
        Err(Memory) => Err(Stop::Memory),
    }
}
