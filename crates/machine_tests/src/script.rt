ghost use Rattle.machine_tests.specs.Script.{task_of};

use evaluation_kit::Jump;
use machine_kit::{Begun, Host, Locals, Operands};
use std::alloc::{AllocError, Global};

/// What a host does with the small language.
#[derive(Clone, Copy)]
pub enum Item {
    /// Makes this the state.
    Put(u64),
    /// Ends the run.
    Stop,
    /// Calls this function on this operand, and makes its result the state.
    Call(u32, u64),
}

/// A host that does items.
pub struct Caller;

impl Host<u64, u64> for Caller {
    type Item = Item;

    ghost task = { λ caller item. task_of item };

    fn begin(&self, alloc: Global, item: &Item, state: &mut u64) -> Result<Begun<u64>, AllocError> {
        match item {
            Item::Put(value) => {
                *state = *value;
                Ok(Begun::Changed(None))
            }
            Item::Stop => Ok(Begun::Changed(Some(Jump::Trap))),
            Item::Call(func, operand) => {
                let mut operands = Operands::new(alloc);
                operands.push(*operand)?;
                Ok(Begun::Call(*func, operands))
            }
        }
    }

    fn end(
        &self,
        _item: &Item,
        jump: Option<Jump>,
        operands: &Operands<u64>,
        _locals: &Locals<u64>,
        state: &mut u64,
    ) -> Result<Option<Jump>, AllocError> {
        if jump.is_none() {
            *state = operands.peek(0).unwrap_or(0);
        }
        Ok(jump)
    }
}
