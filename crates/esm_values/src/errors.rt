// Error values.
ghost use Rattle.std.specs.Prelude.{◌≡◌, ◌<◌, length, slice_get, Some, [], IfOk, OnOk, OnErr};
ghost use Rattle.esm_values.specs.Errors as spec;

use crate::RcText;
use crate::value::ErrorId;
use esm_base::{Memory, Text};
use std::alloc::Global;
use std::marker::Model;

/// The kind of an error value: which of ECMA-262's error constructors made it.
#[derive(Clone, Copy, Debug, PartialEq, Eq)]
pub enum FaultKind {
    /// What `new Error` makes.
    Error,
    /// A value of the wrong type.
    TypeError,
    /// A name that isn't there, or not yet.
    ReferenceError,
    /// A text that is no module text, or an import that isn't there.
    SyntaxError,
    /// A bound of the language.
    RangeError,
}

/// What is known of an error value.
#[derive(Drop)]
pub struct Fault {
    /// Its kind.
    pub kind: FaultKind,
    /// Its message.
    pub message: RcText,
}

/// The error values that were made, in order of making.
#[derive(Drop)]
pub struct Errors {
    made: Vec<Fault>,
}

impl Model for Errors {
    ghost use Rattle.esm_values.specs.Errors.{Errors};

    ghost Value = { Errors };

    ghost view = { λ e. e.made.items };
}

impl Errors {
    /// Without error values. It doesn't allocate.
    pub fn new(alloc: Global) -> Errors
        ensures { result ≡ [] }
    {
        Errors {
            made: Vec::new(alloc),
        }
    }

    /// A new error value, whose id is its place in order of making. It answers `Memory` where memory runs out; then
    /// nothing has changed.
    ///
    /// ECMA-262, Error Objects.
    pub fn make(&mut self, alloc: Global, kind: FaultKind, message: &str) -> Result<ErrorId, Memory>
        ensures id { IfOk result (λ id. id.0 ≡ spec.next_error self.old) }
        ensures ok { OnOk result (self.new
            ≡ spec.make_error self.old (spec.fault kind message.now)) }
        ensures err { OnErr result (self.new ≡ self.old) }
    {
        let message = RcText::copy(alloc, message)?;
        let id = ErrorId(self.made.len() as u64);
        self.made.push(Fault { kind, message })?;
        Ok(id)
    }

    /// How many error values were made: their ids are below it. It doesn't allocate.
    pub fn len(&self) -> u64
        ensures { result ≡ length self.now }
    {
        self.made.len() as u64
    }

    /// What is known of an error value that was made. It doesn't allocate.
    pub fn fault(&self, id: ErrorId) -> &Fault
        requires { id.0 < length self.now }
        ensures { slice_get self.now id.0 ≡ Some result.now }
    {
        &self.made[id.0 as usize]
    }
}

/// The name of a kind, as `name` and the display text of an error have it. It doesn't allocate.
pub fn kind_name(kind: FaultKind) -> &'static str
    ensures { result.now ≡ spec.kind_name kind }
{
    match kind {
        FaultKind::Error => "Error",
        FaultKind::TypeError => "TypeError",
        FaultKind::ReferenceError => "ReferenceError",
        FaultKind::SyntaxError => "SyntaxError",
        FaultKind::RangeError => "RangeError",
    }
}

/// The display text of an error value that was made. It answers `Memory` where memory runs out.
///
/// ECMA-262, Error.prototype.toString.
pub fn error_text(alloc: Global, errors: &Errors, id: ErrorId) -> Result<Text, Memory>
    requires { id.0 < length errors.now }
    ensures { IfOk result (λ t. t ≡ spec.error_text errors.now id.0) }
{
    let fault = errors.fault(id);
    let mut text = String::from_str(alloc, kind_name(fault.kind))?;
    let message = fault.message.as_str();
    if !message.is_empty() {
        text.push_str(": ")?;
        text.push_str(message)?;
    }
    Ok(Text::from_string(text))
}
