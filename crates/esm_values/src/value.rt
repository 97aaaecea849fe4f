// Values.
ghost use Rattle.std.specs.Prelude.{◌≡◌, IfOk, nat_eq};
ghost use Rattle.esm_values.specs.Value.{same_value};
ghost use Rattle.esm_values.specs.Operators as operators;
ghost use Rattle.esm_values.specs.Code.{value_of};

use crate::RcText;
use esm_base::ModuleId;
use std::alloc::AllocError;

/// A function of a module, by its place among the module's functions.
#[derive(Clone, Copy, Debug, PartialEq, Eq)]
pub struct FuncId {
    /// The module in which it stands written.
    pub module: ModuleId,
    /// Its place.
    pub index: u32,
}

/// An error value, by its place in order of making.
#[derive(Clone, Copy, Debug, PartialEq, Eq)]
pub struct ErrorId(pub u64);

/// A promise, by its place in order of making.
#[derive(Clone, Copy, Debug, PartialEq, Eq)]
pub struct PromiseId(pub u64);

/// A value of the body language.
#[derive(Drop)]
pub enum Value {
    /// `undefined`.
    Undefined,
    /// `true` or `false`.
    Bool(bool),
    /// A text.
    Text(RcText),
    /// A function.
    Func(FuncId),
    /// An error value.
    Error(ErrorId),
    /// The namespace of a module.
    Namespace(ModuleId),
    /// A promise.
    Promise(PromiseId),
}

/// How a body that doesn't await ended.
#[derive(Drop)]
pub enum Ran {
    /// At its end.
    Normal,
    /// By this throw.
    Thrown(Value),
}

impl Clone for Value {
    fn clone(&self) -> Result<Value, AllocError>
        ensures { IfOk result (λ v. v ≡ self.now) }
    {
        match self {
            Value::Undefined => Ok(Value::Undefined),
            Value::Bool(truth) => Ok(Value::Bool(*truth)),
            Value::Text(text) => {
                let text = text.clone()?;
                Ok(Value::Text(text))
            }
            Value::Func(id) => Ok(Value::Func(*id)),
            Value::Error(id) => Ok(Value::Error(*id)),
            Value::Namespace(id) => Ok(Value::Namespace(*id)),
            Value::Promise(id) => Ok(Value::Promise(*id)),
        }
    }
}

/// What `!`, `&&`, `||` and `if` take the value as.
///
/// ECMA-262, ToBoolean. It doesn't allocate.
pub fn is_true(value: &Value) -> bool
    ensures { result ≡ operators.is_true (operators.look_of (value_of value.now)) }
{
    match value {
        Value::Undefined => false,
        Value::Bool(truth) => *truth,
        Value::Text(text) => !text.as_str().is_empty(),
        _ => true,
    }
}

/// Whether `===` holds between the values.
///
/// ECMA-262, IsStrictlyEqual. It doesn't allocate.
pub fn is_same(a: &Value, b: &Value) -> bool
    ensures { result ≡ same_value nat_eq (value_of a.now) (value_of b.now) }
{
    match a {
        Value::Undefined => matches!(b, Value::Undefined),
        Value::Bool(x) => match b {
            Value::Bool(y) => *x == *y,
            _ => false,
        },
        Value::Text(x) => match b {
            Value::Text(y) => x.as_str() == y.as_str(),
            _ => false,
        },
        Value::Func(x) => match b {
            Value::Func(y) => x.module.0 == y.module.0 && x.index == y.index,
            _ => false,
        },
        Value::Error(x) => match b {
            Value::Error(y) => x.0 == y.0,
            _ => false,
        },
        Value::Namespace(x) => match b {
            Value::Namespace(y) => x.0 == y.0,
            _ => false,
        },
        Value::Promise(x) => match b {
            Value::Promise(y) => x.0 == y.0,
            _ => false,
        },
    }
}
