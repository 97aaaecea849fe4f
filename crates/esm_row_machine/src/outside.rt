// What rows ask of the world around functions.
use esm_base::{Memory, ModuleId};
use esm_expr_eval::Out;
use esm_rewriting::Stop;
use esm_rows::Row;
use esm_values::{FaultKind, Value};

/// What rows ask of the world around functions. Each call is what the definitions say, where the world is ready and the
/// values that are handed in are known; where memory ran out nothing is said.
pub trait Outside: Drop {
    ghost use Rattle.std.specs.Prelude.{◌≡◌, ℕ, Bool, List, [], ◌∷◌, ◌++◌, Result};
    ghost use Rattle.esm_base.specs.declared.limits.Limit.{Limit};
    ghost use Rattle.esm_promise.specs.Outer.{Outer};
    ghost use Rattle.esm_env.specs.Modules.{Modules};
    ghost use Rattle.esm_values.specs.Code.{value_of, values_of};
    ghost use Rattle.esm_rewriting.specs.State.{State};
    ghost use Rattle.esm_row_machine.specs.Outside as said;

    /// What contracts see of modules and `import()`.
    ghost Seen: { Type 0 };

    /// The modules that are there.
    ghost modules: { Seen → Modules ℕ };

    /// Which of them are linked.
    ghost linked: { Seen → ℕ → Bool };

    /// How an `import()` begins.
    ghost begins: { Outer ℕ Seen → ℕ → List ℕ → ℕ → Result (Unit {0}) Limit → Outer ℕ Seen
        → Type 0 };

    /// The names that a module itself declares, in the order of its scope.
    ghost owns: { Seen → ℕ → List (List ℕ) };

    /// The state of the definitions.
    ghost state: { Self → State ℕ Seen };

    /// What holds between two calls.
    ghost ready: { Self → Type 0 };

    /// What each call keeps.
    ghost keeps: { Self → Self → Type 0 };

    /// Takes a step. Memory never runs out.
    fn step(&mut self) -> Result<(), Stop>
        ensures { said.Steps state modules linked begins ready keeps self.old result self.new };

    /// Makes a new error value.
    fn fault(&mut self, kind: FaultKind, message: &str) -> Result<Value, Stop>
        ensures { said.Faults state modules linked begins ready keeps self.old kind message.now
            result self.new };

    /// The same, whose message is a name and these words.
    fn fault_named(&mut self, kind: FaultKind, name: &str, words: &str) -> Result<Value, Stop>
        ensures { said.Faults state modules linked begins ready keeps self.old kind
            (name.now ++ words.now) result self.new };

    /// Reads a name of a module.
    fn read(&mut self, m: ModuleId, name: &str) -> Result<Out, Stop>
        ensures { said.Reads state modules linked begins ready keeps self.old m.0 name.now result
            self.new };

    /// Reads the name at a place among those that a module itself declares.
    fn read_own(&mut self, m: ModuleId, place: u32) -> Result<Out, Stop>
        ensures { said.ReadsPlace state modules linked begins ready keeps owns self.old m.0 place
            result self.new };

    /// Writes a name of a module, and gives what is thrown.
    fn write(&mut self, m: ModuleId, name: &str, value: Value) -> Result<Option<Value>, Stop>
        ensures { said.Writes state modules linked begins ready keeps self.old m.0 name.now
            (value_of value) result self.new };

    /// Reads a member of a value.
    fn member(&mut self, of: Value, name: &str) -> Result<Out, Stop>
        ensures { said.Asked state modules linked begins ready keeps self.old (value_of of ∷ [])
            (said.member_plan (value_of of) name.now) result self.new };

    /// Adds two values.
    fn add(&mut self, left: &Value, right: &Value) -> Result<Out, Stop>
        ensures { said.Asked state modules linked begins ready keeps self.old
            (value_of left.now ∷ value_of right.now ∷ [])
            (said.sum_plan (value_of left.now) (value_of right.now)) result self.new };

    /// Takes a step and prints values as one line.
    fn print(&mut self, values: &[Value]) -> Result<Out, Stop>
        ensures { said.Asked state modules linked begins ready keeps self.old
            (values_of values.now) (said.print_plan (values_of values.now)) result self.new };

    /// Takes a step and makes an error of a value.
    fn new_error(&mut self, of: &Value) -> Result<Out, Stop>
        ensures { said.Asked state modules linked begins ready keeps self.old
            (value_of of.now ∷ []) (said.error_plan (value_of of.now)) result self.new };

    /// Takes a step and begins an `import()` that stands written in a module.
    fn import(&mut self, m: ModuleId, of: Value) -> Result<Out, Stop>
        ensures { said.AskedIn state modules linked begins ready keeps m.0 self.old
            (value_of of ∷ []) (said.import_plan (value_of of)) result self.new };

    /// The URL of a module, as a value.
    fn url(&self, m: ModuleId) -> Result<Value, Memory>
        ensures { said.IsUrl state modules linked begins ready keeps self.now m.0 result };

    /// The row of the function with this number of a module, if there is one.
    fn row(&self, m: ModuleId, function: u32) -> Result<Option<Row>, Memory>
        ensures { said.IsRowIn state modules linked begins ready keeps owns self.now m.0 function
            result };

    /// Nothing is kept by doing nothing.
    ghost keeps_itself: { (w : Self) → keeps w w };

    /// What two calls keep one after the other.
    ghost keeps_both: { (w mid after : Self) → keeps w mid → keeps mid after → keeps w after };

    /// Linked modules stay linked, with their trees and names.
    ghost stays: { (w after : Self) → keeps w after
        → said.Stays state modules linked begins ready keeps owns w after };
}
