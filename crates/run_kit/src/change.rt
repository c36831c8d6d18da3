ghost use Rattle.std.specs.Prelude.{◌≡◌, IfOk, OnOk};
ghost use Rattle.run_kit.specs.Changes.{after, jump_of};

use evaluation_kit::Jump;
use machine_kit::Operands;
use std::alloc::AllocError;

/// What a plain instruction does to the operands, where it ends, and how.
#[derive(Clone, Copy)]
pub enum Change<V> {
    /// It takes so many from the top.
    Take(usize),
    /// It takes so many from the top, and puts this one there.
    Put(usize, V),
    /// It takes so many from the top, and ends by a jump.
    Exit(usize, Jump),
}

/// Makes a change to the operands. The answer is the jump by which the instruction ends, if it does not end at its end.
/// It fails for want of memory alone.
#[inline(always)]
pub fn settle<V: Copy>(
    change: Change<V>,
    operands: &mut Operands<V>,
) -> Result<Option<Jump>, AllocError>
    ensures jump { IfOk result (λ jump. jump ≡ jump_of change) }
    ensures operands { OnOk result (operands.new ≡ record operands.old { used = after change operands.old.used }) }
{
    match change {
        Change::Take(count) => {
            operands.drop_top(count);
            Ok(None)
        }
        Change::Put(count, value) => {
            operands.put(count, value)?;
            Ok(None)
        }
        Change::Exit(count, jump) => {
            operands.drop_top(count);
            Ok(Some(jump))
        }
    }
}
