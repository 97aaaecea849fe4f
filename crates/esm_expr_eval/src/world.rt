// What expressions are evaluated over.
use esm_values::{FaultKind, RcText, Value};

/// A value, or a throw.
#[derive(Drop)]
pub enum Out {
    /// A value.
    Value(Value),
    /// A throw.
    Thrown(Value),
}

/// Why an evaluation doesn't go on.
#[derive(Drop)]
pub enum ExprEnd<T> {
    /// A call on the world stopped.
    Stopped(T),
    /// Memory ran out.
    Memory,
}

/// What an expression reads and does outside itself. Each call is one step of the relation `acts`.
pub trait World: Drop {
    ghost use Rattle.std.specs.Prelude.{◌≡◌, ℕ, List, Result, map};
    ghost use Rattle.esm_values.specs.Code.{CodeValue, value_of, values_of, valued};
    ghost use Rattle.esm_values.specs.Acts.{Act, AnswerTo};
    ghost use Rattle.esm_values.specs.Acts.{Act as act};
    ghost use Rattle.esm_expr_eval.specs.Instance.{said};

    /// Why a call stops.
    type Stop: Drop;

    /// One step: what is held, the call, its answer, and what is held afterwards.
    ghost acts: { Self → (a : Act CodeValue) → Result (AnswerTo a) Self.Stop → Self → Type 0 };

    /// The URL of the module in which the expression stands written.
    ghost url_of: { Self → List ℕ };

    /// Reads a name.
    fn read(&mut self, name: &str) -> Result<Out, Self::Stop>
        ensures { acts self.old (act.Read name.now) (said result) self.new };

    /// Reads a member of a value.
    fn member(&mut self, of: Value, name: &str) -> Result<Out, Self::Stop>
        ensures { acts self.old (act.Member (value_of of) name.now) (said result) self.new };

    /// The display text of a value.
    fn display(&mut self, of: &Value) -> Result<RcText, Self::Stop>
        ensures { acts self.old (act.Display (value_of of.now)) result self.new };

    /// Prints values.
    fn print(&mut self, values: Vec<Value>) -> Result<(), Self::Stop>
        ensures { acts self.old (act.Print (values_of values.items)) result self.new };

    /// Makes a new error value.
    fn fault(&mut self, kind: FaultKind, message: &str) -> Result<Value, Self::Stop>
        ensures { acts self.old (act.Fault kind message.now) (valued result) self.new };

    /// Takes so many steps.
    fn step(&mut self, n: u64) -> Result<(), Self::Stop>
        ensures { acts self.old (act.Step n) result self.new };

    /// Begins an `import()` of the value, and gives its promise.
    fn import(&mut self, of: Value) -> Result<Value, Self::Stop>
        ensures { acts self.old (act.Import (value_of of)) (valued result) self.new };

    /// The URL of the module in which the expression stands written.
    fn url(&self) -> &str
        ensures { result.now ≡ url_of self.now };
}
