/// An operand of the stack while code is typed.
#[derive(Clone, Copy)]
pub enum Operand<T> {
    /// A value of this type.
    Known(T),
    /// An operand that code which cannot be reached takes from nowhere: the type bot, which matches every type.
    Bottom,
}
