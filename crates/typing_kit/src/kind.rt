/// Which operands an instruction takes that takes one of several types.
#[derive(Clone, Copy)]
pub enum Kind {
    /// Any value: drop.
    Every,
    /// A reference: ref.is_null.
    Reference,
    /// A number or a vector: select without a type.
    Plain,
}
