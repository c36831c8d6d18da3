use super::ty::Ty;
use lane_core::operators::{Lane1, Lane2, LaneExtract, LaneShift, LaneTest};
use lane_core::vector::{Shape, V};
use num_core::operators::{Bin, Cmp, Conv, Un, Width};

/// An instruction that takes operands and gives results or traps, and touches no state
/// (the standard's "Numeric Instructions", "Vector Instructions" and "Reference Instructions").
#[derive(Clone, Copy)]
pub enum Op {
    /// i32.const with these 32 bits.
    I32Const(u32),
    /// i64.const with these 64 bits.
    I64Const(u64),
    /// Whether an integer of the width is 0.
    Eqz(Width),
    /// A comparison of two integers of the width.
    Compare(Width, Cmp),
    /// A unary operator on one integer of the width.
    Unary(Width, Un),
    /// A binary operator on two integers of the width.
    Binary(Width, Bin),
    /// A conversion of one integer.
    Convert(Conv),
    /// v128.const with these 128 bits.
    V128Const(V),
    /// i8x16.shuffle: lanes of two vectors, by 16 places below 32.
    Shuffle([u8; 16]),
    /// One integer in each lane of this shape.
    Splat(Shape),
    /// The integer in one lane, by the number of the lane.
    Extract(LaneExtract, u8),
    /// A vector of this shape with one lane replaced, by the number of the lane.
    Replace(Shape, u8),
    /// v128.bitselect: bits of the first vector where the third has 1, else of the second.
    Bitselect,
    /// A vector from one vector.
    Lanes1(Lane1),
    /// A vector from two vectors.
    Lanes2(Lane2),
    /// A vector from a vector and a count.
    ShiftLanes(LaneShift),
    /// An i32 from one vector.
    TestLanes(LaneTest),
    /// ref.null of this reference type.
    RefNull(Ty),
    /// ref.is_null.
    RefIsNull,
    /// ref.func of the function with this index.
    RefFunc(u32),
}
