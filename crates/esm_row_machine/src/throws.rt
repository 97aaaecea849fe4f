// Throws: into the innermost handler of the function, else into its caller.
ghost use Rattle.esm_row_machine.specs.Follows.{Landed, Lands, ThrowsBack};

use crate::ending::go_back;
use crate::machine::{Frame, Machine};
use crate::outside::Outside;
use crate::runs::Next;
use crate::stacks::pop_handler;
use esm_base::Memory;
use esm_rewriting::Stop;
use esm_values::Value;

/// A throw leads to the innermost handler of this function, which has one.
fn land(machine: &mut Machine, frame: Frame, thrown: Value) -> Result<Next, Stop>
    ensures { Landed machine.old frame thrown result machine.new }
{
    match pop_handler(&mut machine.handlers) {
        Ok(handler) => {
            machine.names.truncate(handler.names);
            machine.operands.truncate(frame.operands);
            let left = handler.left;
            go_back(&mut machine.operands, Frame { left, ..frame }, thrown)
        }
        Err(Memory) => Err(Stop::Memory),
    }
}

/// A throw is under way: it leads to the innermost handler, or leaves all functions.
pub(crate) fn fly<W: Outside>(
    _world: &W,
    machine: &mut Machine,
    frame: Frame,
    thrown: Value,
) -> Result<Next, Stop>
    ensures { Lands W.state W.modules W.linked W.begins W.ready W.keeps W.owns
        _world.now machine.old frame thrown result machine.new }
{
    let mut here = frame;
    'leaving: loop {
        if machine.handlers.len() > here.handlers {
            return land(machine, here, thrown);
        }
        machine.names.truncate(here.names);
        match machine.frames.pop() {
            Some(caller) => here = caller,
            None => return Ok(Next::Thrown(thrown)),
        }
    }
}

/// A function throws.
pub(crate) fn throw<W: Outside>(
    world: &W,
    machine: &mut Machine,
    frame: Frame,
    thrown: Value,
) -> Result<Next, Stop>
    ensures { ThrowsBack W.state W.modules W.linked W.begins W.ready W.keeps W.owns
        world.now machine.old frame thrown result machine.new }
{
    fly(world, machine, frame, thrown)
}
