use crate::kind::Kind;
use crate::operand::Operand;

/// What typing of an instruction does to the operands: its form, with lists that are borrowed. Where a plan has types
/// and one type more, that one lies on top of the others.
#[derive(Clone, Copy)]
pub enum Plan<'a, T> {
    /// No rule types the instruction.
    Untyped,
    /// It takes the first types and leaves the last ones.
    Flat(&'a [T], Option<T>, &'a [T]),
    /// It takes one operand of the kind, and leaves the types.
    Any(Kind, &'a [T]),
    /// Select without a type.
    Select,
    /// It takes the types, and nothing follows it.
    Leaves(&'a [T], Option<T>),
    /// br_table: what the last label takes, and what each other label takes.
    Table(&'a [T], &'a [&'a [T]]),
    /// It holds code, which is typed apart.
    Nested,
}

/// What an instruction met on the operand stack.
#[derive(Clone, Copy)]
pub enum Met<T> {
    /// The instruction is not typed over these operands.
    Untyped,
    /// The types of its plan.
    Planned,
    /// An operand of this type, where the plan leaves the type open.
    One(Operand<T>),
}
