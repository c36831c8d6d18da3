use num_core::operators::{Bin, Cmp, Conv, Un, Width};

/// An instruction that takes and gives integers and has no immediates (the standard's "Numeric Instructions").
#[derive(Clone, Copy)]
pub enum IntOp {
    /// Whether an integer of the width is 0.
    Eqz(Width),
    /// A comparison of two integers of the width.
    Compare(Width, Cmp),
    /// A unary operator on one integer of the width.
    Unary(Width, Un),
    /// A binary operator on two integers of the width.
    Binary(Width, Bin),
    /// A conversion of one integer, or the extension of a sign in it.
    Convert(Conv),
}
