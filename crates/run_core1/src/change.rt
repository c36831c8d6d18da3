use crate::slot::Slot;
use evaluation_kit::Jump;

/// What a plain instruction does to the operands, where it ends, and how.
#[derive(Clone, Copy)]
pub enum Change {
    /// It takes so many from the top.
    Take(usize),
    /// It takes so many from the top, and puts this one there.
    Put(usize, Slot),
    /// It takes so many from the top, and ends by a jump.
    Exit(usize, Jump),
}
