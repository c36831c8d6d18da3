use crate::frame::Frame;
use crate::locals::Locals;
use crate::operands::Operands;

/// A run that is under way: the code that is left of the innermost form, the operands and locals, and the forms and calls
/// that are open.
#[derive(Drop)]
pub(crate) struct Machine<'a, I, V> {
    pub(crate) code: &'a [I],
    pub(crate) operands: Operands<V>,
    pub(crate) locals: Locals<V>,
    pub(crate) frames: Vec<Frame<'a, I>>,
}
