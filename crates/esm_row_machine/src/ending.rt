// The end of a function: its value is given to its caller.
ghost use Rattle.esm_row_machine.specs.Follows.{GivenTo, Returns};

use crate::machine::{Frame, Machine};
use crate::outside::Outside;
use crate::runs::Next;
use crate::stacks::push;
use esm_base::Memory;
use esm_rewriting::Stop;
use esm_values::Value;

/// A value is put on top for the function that waited, which goes on.
pub(crate) fn go_back(operands: &mut Vec<Value>, caller: Frame, value: Value) -> Result<Next, Stop>
    ensures { GivenTo operands.old.items caller value result operands.new.items }
{
    match push(operands, value) {
        Ok(()) => Ok(Next::Goes(caller)),
        Err(Memory) => Err(Stop::Memory),
    }
}

/// A function is over, and its value is given to its caller.
pub(crate) fn give_back<W: Outside>(
    _world: &W,
    machine: &mut Machine,
    frame: Frame,
    value: Value,
) -> Result<Next, Stop>
    ensures { Returns W.state W.modules W.linked W.begins W.ready W.keeps W.owns
        _world.now machine.old frame value result machine.new }
{
    machine.names.truncate(frame.names);
    machine.handlers.truncate(frame.handlers);
    match machine.frames.pop() {
        Some(caller) => go_back(&mut machine.operands, caller, value),
        None => Ok(Next::Gave(value)),
    }
}
