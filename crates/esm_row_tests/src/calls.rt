// Functions that run in rows and call one another, over a world of which nothing is claimed.
use crate::rows::{made, number_of, tree_of};
use esm_base::{Limit, Memory, ModuleId};
use esm_env::Envs;
use esm_expr_eval::Out;
use esm_rewriting::Stop;
use esm_row_machine::{Ending, Machine, Outside, Rows, call};
use esm_rows::{Row, lower};
use esm_values::{ErrorId, FaultKind, FuncId, RcText, Value};
use std::alloc::Global;

/// A world over the functions of the first module: each name is the function with the number 1, and a name of the module the
/// function with the number of its place. It is never ready, so that its calls say nothing.
#[derive(Drop)]
struct Fake {
    alloc: Global,
    envs: Envs,
    steps: u64,
    errors: u64,
}

impl Outside for Fake {
    ghost use Rattle.std.specs.Prelude.{[], ℕ, true, false, zero, Bool, refl, ⊤};
    ghost use Rattle.esm_env.specs.Cells.{no_cells};
    ghost use Rattle.esm_promise.specs.Promises.{no_promises};
    ghost use Rattle.esm_rewriting.specs.State.{opening_engine};

    ghost Seen = { Unit {0} };

    ghost modules = { λ i. record { url = λ m. []; tree = λ m. []; target = λ m k. 0; size = 0; number = λ m. m; named = λ n. n } };

    ghost linked = { λ i m. false };

    ghost begins = { λ o m text p result after. Unit {0} };

    ghost owns = { λ i m. [] };

    ghost state = { λ w. record { engine = opening_engine false; cells = no_cells; outer = record { promises = no_promises; errors = []; imports = tt } } };

    ghost ready = { λ w. ⊥ };

    ghost keeps = { λ w after. Unit {0} };

    ghost keeps_itself = { λ w. tt };

    ghost keeps_both = { λ w mid after h k. tt };

    ghost stays = { λ w after h. record { links = λ m e. e; trees = λ m e. refl; names = λ m e. refl } };

    fn step(&mut self) -> Result<(), Stop> {
        if self.steps >= 100 {
            Err(Stop::Limit(Limit::L3))
        } else {
            self.steps = self.steps + 1;
            Ok(())
        }
    }

    fn fault(&mut self, _kind: FaultKind, _message: &str) -> Result<Value, Stop> {
        let id = self.errors;
        self.errors = id.saturating_add(1);
        Ok(Value::Error(ErrorId(id)))
    }

    fn fault_named(&mut self, kind: FaultKind, name: &str, _words: &str) -> Result<Value, Stop> {
        self.fault(kind, name)
    }

    fn read(&mut self, _m: ModuleId, _name: &str) -> Result<Out, Stop> {
        Ok(Out::Value(Value::Func(FuncId {
            module: ModuleId(0),
            index: 1,
        })))
    }

    fn read_own(&mut self, m: ModuleId, place: u32) -> Result<Out, Stop> {
        Ok(Out::Value(Value::Func(FuncId {
            module: m,
            index: place,
        })))
    }

    fn write(&mut self, _m: ModuleId, _name: &str, _value: Value) -> Result<Option<Value>, Stop> {
        Ok(None)
    }

    fn member(&mut self, _of: Value, _name: &str) -> Result<Out, Stop> {
        Ok(Out::Value(Value::Undefined))
    }

    fn add(&mut self, left: &Value, right: &Value) -> Result<Out, Stop> {
        match left {
            Value::Text(left) => match right {
                Value::Text(right) => match RcText::join(
                    self.alloc,
                    left.as_str(),
                    right.as_str(),
                ) {
                    Ok(text) => Ok(Out::Value(Value::Text(text))),
                    Err(Memory) => Err(Stop::Memory),
                },
                _ => Ok(Out::Value(Value::Undefined)),
            },
            _ => Ok(Out::Value(Value::Undefined)),
        }
    }

    fn print(&mut self, _values: &[Value]) -> Result<Out, Stop> {
        Ok(Out::Value(Value::Undefined))
    }

    fn new_error(&mut self, _of: &Value) -> Result<Out, Stop> {
        Ok(Out::Value(Value::Error(ErrorId(7))))
    }

    fn import(&mut self, _m: ModuleId, _of: Value) -> Result<Out, Stop> {
        Ok(Out::Value(Value::Undefined))
    }

    fn url(&self, _m: ModuleId) -> Result<Value, Memory> {
        Ok(Value::Undefined)
    }

    fn row(&self, m: ModuleId, function: u32) -> Result<Option<Row>, Memory> {
        match self.envs.scope(m) {
            Some(scope) => lower(self.alloc, scope, function),
            None => Ok(None),
        }
    }
}

// The functions 0 to 6, and a name that isn't among them.
const FUNCTIONS: &str = r#"function f(a) { try { g(a); } catch (e) { return e + "!"; } return "!"; }
function g(x) { throw x; }
function h() { let y; other("g"); }
function t(a) { k(a); return k(a) + "!"; }
function k(x) { try { return x; } catch {} }
function e(x) {}
function u(a) { e(a); e(a); return a; }"#;

// The number of a function, and what comes of a call with the text `a`. What a callee throws is caught; what is thrown leaves
// the outermost function; a throw of a callee leaves its caller; a second call gives its value; a caller goes on behind an end.
const CALLS: &str = "\
0 gives a!
1 throws a
2 throws g
3 gives a!
6 gives a";

// A call of a function with these values, with nothing on the stacks and no rows.
fn called(world: &mut Fake, function: u32, values: Vec<Value>) -> Result<Ending, Stop> {
    let mut machine = Machine::new(world.alloc);
    let mut rows = Rows::new(world.alloc);
    let id = FuncId {
        module: ModuleId(0),
        index: function,
    };
    call(world, &mut machine, &mut rows, id, values)
}

// Whether a call ends so.
fn ends_so(told: &Result<Ending, Stop>, ending: &str) -> bool {
    let (way, text) = ending.split_once(' ').unwrap_or((ending, ""));
    match told {
        Ok(Ending::Value(Value::Text(value))) => way == "gives" && value.as_str() == text,
        Ok(Ending::Thrown(Value::Text(value))) => way == "throws" && value.as_str() == text,
        _ => false,
    }
}

fn one_text(alloc: Global, text: &str) -> Result<Vec<Value>, Memory> {
    let mut values = Vec::new(alloc);
    values.push(Value::Text(RcText::copy(alloc, text)?))?;
    Ok(values)
}

// Whether the call of a row ends as the row says.
fn is_row_told(world: &mut Fake, row: &str) -> Result<bool, Memory> {
    let (number, ending) = row.split_once(' ').unwrap_or((row, ""));
    let values = one_text(world.alloc, "a")?;
    world.steps = 0;
    let told = called(world, number_of(number), values);
    Ok(ends_so(&told, ending))
}

// The first row of `CALLS` that ends otherwise, if there is one.
fn wrong_call(world: &mut Fake) -> Result<Option<&'static str>, Memory> {
    for row in CALLS.lines() {
        if !is_row_told(world, row)? {
            return Ok(Some(row));
        }
    }
    Ok(None)
}

// The same over the functions of a text.
fn wrong_in(alloc: Global, envs: Envs) -> Result<Option<&'static str>, Memory> {
    let mut world = Fake {
        alloc,
        envs,
        steps: 0,
        errors: 0,
    };
    wrong_call(&mut world)
}

fn scopes(alloc: Global) -> Result<Envs, Memory> {
    let tree = tree_of(alloc, FUNCTIONS)?;
    let mut envs = Envs::new(alloc);
    match made(alloc, &mut envs, tree) {
        Ok(()) => Ok(envs),
        Err(Memory) => Err(Memory),
    }
}

#[test]
fn functions_call_one_another(rt: HostRuntime) -> Result<(), Memory> {
    let envs = scopes(rt.alloc())?;
    assert_eq!(rt; wrong_in(rt.alloc(), envs)?, None);
    assert!(rt; CALLS.lines().count() == 5);
    Ok(())
}
