use num_core::operators::{Bin, Cmp, Un, Width};

/// A conversion of one integer that 1.0 has (the standard's "Conversions").
#[derive(Clone, Copy, Debug, PartialEq, Eq)]
pub enum Conv1 {
    /// i32.wrap_i64: the lowest 32 bits of an i64.
    Wrap,
    /// i64.extend_i32_s: an i32, read as a signed number.
    Ext32S,
    /// i64.extend_i32_u: an i32, read as an unsigned number.
    Ext32U,
}

/// An instruction of 1.0 that takes operands and gives results or traps, and touches no state
/// (the standard's "Numeric Instructions").
#[derive(Clone, Copy, Debug, PartialEq, Eq)]
pub enum Op1 {
    /// i32.const with these 32 bits.
    I32Const(u32),
    /// i64.const with these 64 bits.
    I64Const(u64),
    /// Whether an integer of the width is 0.
    Eqz(Width),
    /// A comparison of two integers of the width.
    Compare(Width, Cmp),
    /// A unary operator on one integer of the width.
    Unary(Width, Un),
    /// A binary operator on two integers of the width.
    Binary(Width, Bin),
    /// A conversion of one integer.
    Convert(Conv1),
}
