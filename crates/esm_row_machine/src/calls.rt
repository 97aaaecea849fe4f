// Calls of functions.
ghost use Rattle.std.specs.Prelude.{◌≡◌, ◌<◌, ◌-◌, ◌++◌, ◌∷◌, [], drop, replicate, take, IfOk, OnOk};
ghost use Rattle.std.specs.Vec.{vec_capacity, vec_len};
ghost use Rattle.esm_values.specs.Code.{value_of, values_of};
ghost use Rattle.esm_rewriting.specs.Scopes.{argument_of};
ghost use Rattle.esm_row_machine.specs.Stacks.{names_on};
ghost use Rattle.esm_row_machine.specs.Entering.{func_in, passed, BeginsFirst, BegunBy, EntersAs, IsCallee, IsStacked, WaitsFor};
ghost use Rattle.esm_row_machine.specs.Calling.{BeginsFirstBy, BeginsIn, Refuses};
ghost use Rattle.esm_row_machine.specs.Follows.{Calls};

use crate::machine::{Frame, Machine};
use crate::outside::Outside;
use crate::rows::Rows;
use crate::runs::Next;
use crate::stacks::begin_names;
use crate::throws::fly;
use esm_base::{MAX_CALL_DEPTH, Memory};
use esm_rewriting::Stop;
use esm_rows::Row;
use esm_values::{FaultKind, FuncId, Value};

/// The value for the parameter at a place; a missing one is undefined.
#[inline(always)]
fn argument(values: &[Value], place: usize) -> Result<Value, Memory>
    ensures { IfOk result (λ v. value_of v ≡ argument_of (values_of (drop place values.now))) }
{
    if place < values.len() {
        let value = values[place].clone()?;
        Ok(value)
    } else {
        Ok(Value::Undefined)
    }
}

/// So many parameters begin with these values; further ones are dropped.
///
/// ECMA-262, FunctionDeclarationInstantiation.
fn pass(names: &mut Vec<Option<Value>>, values: &[Value], parameters: u32) -> Result<(), Memory>
    ensures { OnOk result (names_on names.new.items
        ≡ names_on names.old.items ++ passed parameters (values_of values.now)) }
{
    'passing: for place in 0..parameters {
        let value = argument(values, place as usize)?;
        names.push(Some(value))?;
    }
    Ok(())
}

/// The same, without a call where there are no parameters.
#[inline(always)]
fn pass_any(names: &mut Vec<Option<Value>>, values: &[Value], parameters: u32) -> Result<(), Memory>
    ensures { OnOk result (names_on names.new.items
        ≡ names_on names.old.items ++ passed parameters (values_of values.now)) }
{
    if parameters == 0 {
        return Ok(());
    }
    pass(names, values, parameters)
}

/// So many names begin, unset; where there are none, without a call.
#[inline(always)]
fn begin_any(names: &mut Vec<Option<Value>>, count: u32) -> Result<(), Memory>
    ensures { OnOk result (names.new.items ≡ names.old.items ++ replicate count None) }
{
    if count == 0 {
        return Ok(());
    }
    begin_names(names, count)
}

/// The callee and its arguments go, the first of which stands, or would stand, at this place.
#[inline(always)]
fn take_callee(operands: &mut Vec<Value>, first: usize)
    requires { 0 < first }
    ensures { operands.new.items ≡ take (first - 1) operands.old.items }
{
    if operands.len() == first {
        let _callee = operands.pop();
    } else {
        operands.truncate(first - 1);
    }
}

/// A function begins: its arguments and the callee are taken, and its names begin.
#[inline(always)]
pub(crate) fn enter(
    machine: &mut Machine,
    row: &Row,
    function: FuncId,
    arguments: usize,
) -> Result<Frame, Memory>
    ensures { IfOk result (λ frame. EntersAs machine.old function row.now arguments frame
        machine.new) }
{
    let there = machine.operands.len();
    if arguments < there {
        let first = there - arguments;
        let names = machine.names.len();
        let handlers = machine.handlers.len();
        let left = row.ops.len();
        pass_any(
            &mut machine.names,
            &machine.operands[first..],
            row.parameters,
        )?;
        begin_any(&mut machine.names, row.names)?;
        take_callee(&mut machine.operands, first);
        Ok(Frame {
            at: function.module,
            function: function.index,
            left,
            names,
            operands: first - 1,
            handlers,
        })
    } else {
        Err(Memory)
    }
}

/// The function that a value is, if it is one.
#[inline(always)]
fn function_of(value: &Value) -> Option<FuncId>
    ensures { result ≡ func_in value.now }
{
    match value {
        Value::Undefined => None,
        Value::Bool(_) => None,
        Value::Text(_) => None,
        Value::Func(id) => Some(FuncId {
            module: id.module,
            index: id.index,
        }),
        Value::Error(_) => None,
        Value::Namespace(_) => None,
        Value::Promise(_) => None,
    }
}

/// The callee below so many arguments, if it is a function.
#[inline(always)]
pub(crate) fn callee(operands: &[Value], arguments: usize) -> Option<FuncId>
    ensures { IsCallee operands.now arguments result }
{
    let there = operands.len();
    if arguments < there {
        let place = there - arguments - 1;
        function_of(&operands[place])
    } else {
        None
    }
}

/// A call throws a new error.
fn refuse<W: Outside>(
    world: &mut W,
    machine: &mut Machine,
    frame: Frame,
    kind: FaultKind,
    message: &str,
) -> Result<Next, Stop>
    ensures { Refuses W.state W.modules W.linked W.begins W.ready W.keeps W.owns world.old
        machine.old frame kind message.now result world.new machine.new }
{
    match world.fault(kind, message) {
        Ok(error) => fly(world, machine, frame, error),
        Err(stop) => Err(stop),
    }
}

/// One function more waits.
#[inline(always)]
pub(crate) fn push_frame(frames: &mut Vec<Frame>, frame: Frame) -> Result<(), Memory>
    ensures { OnOk result (frames.new.items ≡ frames.old.items ++ frame ∷ []) }
{
    room_for_frame(frames)?;
    frames.push_reserved(frame);
    Ok(())
}

/// There is room for one function more that waits.
#[inline(always)]
fn room_for_frame(frames: &mut Vec<Frame>) -> Result<(), Memory>
    ensures items { frames.new.items ≡ frames.old.items }
    ensures room { OnOk result (vec_len frames.new < vec_capacity frames.new) }
{
    if frames.len() < frames.capacity() {
        return Ok(());
    }
    grow_frames(frames)
}

/// The same where the stack has to grow.
#[cold]
#[inline(never)]
fn grow_frames(frames: &mut Vec<Frame>) -> Result<(), Memory>
    ensures items { frames.new.items ≡ frames.old.items }
    ensures room { OnOk result (vec_len frames.new < vec_capacity frames.new) }
{
    frames.reserve(1)?;
    Ok(())
}

/// One function more waits, and its callee runs.
fn wait(frames: &mut Vec<Frame>, frame: Frame, callee: Frame) -> Result<Next, Stop>
    ensures { WaitsFor frames.old.items frame callee result frames.new.items }
{
    match push_frame(frames, frame) {
        Ok(()) => Ok(Next::Goes(callee)),
        Err(Memory) => Err(Stop::Memory),
    }
}

/// The function, whose row is there, begins, and its caller waits.
fn begin(
    machine: &mut Machine,
    rows: &Rows,
    frame: Frame,
    function: FuncId,
    arguments: usize,
) -> Result<Next, Stop>
    ensures { BegunBy machine.old rows.now frame function arguments result machine.new }
{
    match rows.find(function.module, function.index) {
        Some(row) => match enter(machine, row, function, arguments) {
            Ok(callee) => wait(&mut machine.frames, frame, callee),
            Err(Memory) => Err(Stop::Memory),
        },
        None => Err(Stop::Memory),
    }
}

/// The call of a function begins, and its caller waits.
fn call_function<W: Outside>(
    world: &W,
    machine: &mut Machine,
    rows: &mut Rows,
    frame: Frame,
    function: FuncId,
    arguments: usize,
) -> Result<Next, Stop>
    ensures { BeginsIn W.state W.modules W.linked W.begins W.ready W.keeps W.owns world.now
        machine.old rows.old frame function arguments result machine.new rows.new }
{
    match rows.make(world, function.module, function.index) {
        Ok(()) => begin(machine, rows, frame, function, arguments),
        Err(Memory) => Err(Stop::Memory),
    }
}

/// A value is called with so many arguments, which stand above it: the step, what it is, and how many functions are
/// active.
///
/// ECMA-262, EvaluateCall.
pub(crate) fn call_value<W: Outside>(
    world: &mut W,
    machine: &mut Machine,
    rows: &mut Rows,
    frame: Frame,
    arguments: u32,
) -> Result<Next, Stop>
    ensures { Calls W.state W.modules W.linked W.begins W.ready W.keeps W.owns
        world.old machine.old rows.old frame arguments result world.new machine.new rows.new }
{
    let many = arguments as usize;
    match world.step() {
        Ok(()) => match callee(machine.operands.as_slice(), many) {
            Some(function) => {
                if machine.frames.len() + 1 < MAX_CALL_DEPTH as usize {
                    call_function(world, machine, rows, frame, function, many)
                } else {
                    refuse(world, machine, frame, FaultKind::RangeError, "call depth")
                }
            }
            None => refuse(
                world,
                machine,
                frame,
                FaultKind::TypeError,
                "not a function",
            ),
        },
        Err(stop) => Err(stop),
    }
}

/// The stacks have a callee and its arguments, and nothing else.
fn stack(machine: &mut Machine, function: FuncId, mut values: Vec<Value>) -> Result<(), Memory>
    ensures { OnOk result (IsStacked function values.items machine.new) }
{
    machine.operands.clear();
    machine.names.clear();
    machine.handlers.clear();
    machine.frames.clear();
    machine.operands.push(Value::Func(function))?;
    machine.operands.append(&mut values)?;
    Ok(())
}

/// The function, whose row is there, begins with the arguments on the stacks, and nothing waits for it.
fn begin_first(
    machine: &mut Machine,
    rows: &Rows,
    function: FuncId,
    arguments: usize,
) -> Result<Frame, Memory>
    ensures { IfOk result (λ frame. BeginsFirst machine.old rows.now function arguments frame
        machine.new) }
{
    match rows.find(function.module, function.index) {
        Some(row) => enter(machine, row, function, arguments),
        None => Err(Memory),
    }
}

/// The outermost function begins with these values: the stacks have nothing else.
pub(crate) fn first<W: Outside>(
    world: &W,
    machine: &mut Machine,
    rows: &mut Rows,
    function: FuncId,
    values: Vec<Value>,
) -> Result<Frame, Memory>
    ensures { IfOk result (λ frame. BeginsFirstBy W.state W.modules W.linked W.begins W.ready
        W.keeps W.owns world.now rows.old function values.items frame machine.new rows.new) }
{
    let many = values.len();
    stack(machine, function, values)?;
    rows.make(world, function.module, function.index)?;
    begin_first(machine, rows, function, many)
}
