// The operators on single lanes, and the ways in which the vector operators are made of them.
use crate::vector::{Shape, V};
use num_core::operators::Cmp;

/// How the bits of a lane are read where that makes a difference.
#[derive(Clone, Copy)]
pub enum Sign {
    /// As a signed number.
    Signed,
    /// As an unsigned number.
    Unsigned,
}

/// The shapes of lanes that are two lanes of another shape.
#[derive(Clone, Copy)]
pub enum Paired {
    /// 8 lanes of two lanes of 8 bits.
    I16x8,
    /// 4 lanes of two lanes of 16 bits.
    I32x4,
    /// 2 lanes of two lanes of 32 bits.
    I64x2,
}

/// A lane from one lane.
#[derive(Clone, Copy)]
pub enum Unary {
    /// The absolute value.
    Abs,
    /// The number negated.
    Neg,
    /// How many bits are set.
    Ones,
    /// Shifted to the left by this count.
    Shl(u32),
    /// Shifted to the right by this count, with copies of the sign.
    ShrS(u32),
    /// Shifted to the right by this count, with zeros.
    ShrU(u32),
    /// The sum of both halves of the lane.
    PairSum(Sign),
    /// A lane of the shape from one half as wide.
    Extend(Sign),
    /// A lane half as wide, from a signed one of the shape, saturated.
    Saturate(Sign),
    /// The top bit, as a number of 1 bit.
    Top,
    /// The byte of this vector that has this number.
    ByteOf(V),
    /// The byte of these two vectors that has this number.
    ByteOfBoth(V, V),
}

/// A lane from two lanes.
#[derive(Clone, Copy)]
pub enum Binary {
    /// The sum.
    Add,
    /// The difference.
    Sub,
    /// The product.
    Mul,
    /// The sum, saturated.
    AddSat(Sign),
    /// The difference, saturated.
    SubSat(Sign),
    /// The lesser.
    Min(Sign),
    /// The greater.
    Max(Sign),
    /// The average of unsigned lanes, rounded up.
    Average,
    /// The product of fixed-point lanes with 15 fraction bits.
    Q15Product,
    /// The sum of the products of the lower and of the upper halves, signed.
    Dot,
    /// All ones where the comparison holds, else zeros.
    Compare(Cmp),
}

/// A vector from one vector.
#[derive(Clone, Copy)]
pub enum Row1 {
    /// Each bit turned over.
    Not,
    /// Lane by lane.
    Each(Unary, Shape),
    /// The sums of neighbours, in lanes of this shape.
    AddPairs(Sign, Paired),
    /// The lower half of the lanes, in lanes of this shape.
    ExtendLow(Sign, Paired),
    /// The upper half of the lanes, in lanes of this shape.
    ExtendHigh(Sign, Paired),
}

/// A vector from two vectors.
#[derive(Clone, Copy)]
pub enum Row2 {
    /// The bits that both have.
    And,
    /// The bits of the first that the second lacks.
    AndNot,
    /// The bits that either has.
    Or,
    /// The bits that one of both has.
    Xor,
    /// Lane by lane.
    Both(Binary, Shape),
    /// Lanes of the first by the places in the second.
    Swizzle,
    /// The signed lanes of this shape, saturated to half the width.
    Narrow(Sign, Paired),
    /// The products of the lower halves, in lanes of this shape.
    MultiplyLow(Sign, Paired),
    /// The products of the upper halves, in lanes of this shape.
    MultiplyHigh(Sign, Paired),
    /// The sums of the products of two neighbouring signed lanes.
    Dot,
}
