// How each vector operator is carried out. Most are an operator on single lanes, done for all lanes of a shape.
ghost use Rattle.std.specs.Prelude.{◌≡◌, ℕ};
ghost use Rattle.lane_core.specs.Operators.{lanes1, lanes2};
ghost use Rattle.lane_core.specs.Rows.{row1, row2};

use super::all_lanes::{both_lanes, each_lane};
use super::lane_operators::{Binary, Paired, Row1, Row2, Sign, Unary};
use super::rearranged::{
    add_pairs, dot, extend_high, extend_low, multiply_high, multiply_low, narrow, swizzle,
};
use crate::operators::{Lane1, Lane2};
use crate::vector::Shape;
use num_core::operators::Cmp;

/// How an operator on one vector is carried out.
pub(super) fn row_of_one(op: Lane1) -> Row1
    ensures { (v : ℕ) → row1 result v ≡ lanes1 op v }
{
    ONES[op as usize]
}

/// How an operator on two vectors is carried out.
pub(super) fn row_of_two(op: Lane2) -> Row2
    ensures { (v w : ℕ) → row2 result v w ≡ lanes2 op v w }
{
    TWOS[op as usize]
}

/// A vector from one vector.
pub(super) fn row1(row: Row1, v: u128) -> u128
    ensures { result ≡ row1 row v }
{
    match row {
        Row1::Not => !v,
        Row1::Each(op, shape) => each_lane(op, shape, v),
        Row1::AddPairs(sign, paired) => add_pairs(sign, paired, v),
        Row1::ExtendLow(sign, paired) => extend_low(sign, paired, v),
        Row1::ExtendHigh(sign, paired) => extend_high(sign, paired, v),
    }
}

/// A vector from two vectors.
pub(super) fn row2(row: Row2, v: u128, w: u128) -> u128
    ensures { result ≡ row2 row v w }
{
    match row {
        Row2::And => v & w,
        Row2::AndNot => v & !w,
        Row2::Or => v | w,
        Row2::Xor => v ^ w,
        Row2::Both(op, shape) => both_lanes(op, shape, v, w),
        Row2::Swizzle => swizzle(v, w),
        Row2::Narrow(sign, paired) => narrow(sign, paired, v, w),
        Row2::MultiplyLow(sign, paired) => multiply_low(sign, paired, v, w),
        Row2::MultiplyHigh(sign, paired) => multiply_high(sign, paired, v, w),
        Row2::Dot => dot(v, w),
    }
}

/// The rows, in the order of the variants.
static ONES: [Row1; 26] = [
    Row1::Not,
    Row1::Each(Unary::Abs, Shape::I8x16),
    Row1::Each(Unary::Neg, Shape::I8x16),
    Row1::Each(Unary::Ones, Shape::I8x16),
    Row1::Each(Unary::Abs, Shape::I16x8),
    Row1::Each(Unary::Neg, Shape::I16x8),
    Row1::AddPairs(Sign::Signed, Paired::I16x8),
    Row1::AddPairs(Sign::Unsigned, Paired::I16x8),
    Row1::ExtendLow(Sign::Signed, Paired::I16x8),
    Row1::ExtendHigh(Sign::Signed, Paired::I16x8),
    Row1::ExtendLow(Sign::Unsigned, Paired::I16x8),
    Row1::ExtendHigh(Sign::Unsigned, Paired::I16x8),
    Row1::Each(Unary::Abs, Shape::I32x4),
    Row1::Each(Unary::Neg, Shape::I32x4),
    Row1::AddPairs(Sign::Signed, Paired::I32x4),
    Row1::AddPairs(Sign::Unsigned, Paired::I32x4),
    Row1::ExtendLow(Sign::Signed, Paired::I32x4),
    Row1::ExtendHigh(Sign::Signed, Paired::I32x4),
    Row1::ExtendLow(Sign::Unsigned, Paired::I32x4),
    Row1::ExtendHigh(Sign::Unsigned, Paired::I32x4),
    Row1::Each(Unary::Abs, Shape::I64x2),
    Row1::Each(Unary::Neg, Shape::I64x2),
    Row1::ExtendLow(Sign::Signed, Paired::I64x2),
    Row1::ExtendHigh(Sign::Signed, Paired::I64x2),
    Row1::ExtendLow(Sign::Unsigned, Paired::I64x2),
    Row1::ExtendHigh(Sign::Unsigned, Paired::I64x2),
];

/// The rows, in the order of the variants.
static TWOS: [Row2; 92] = [
    Row2::Swizzle,
    Row2::Both(Binary::Compare(Cmp::Eq), Shape::I8x16),
    Row2::Both(Binary::Compare(Cmp::Ne), Shape::I8x16),
    Row2::Both(Binary::Compare(Cmp::LtS), Shape::I8x16),
    Row2::Both(Binary::Compare(Cmp::LtU), Shape::I8x16),
    Row2::Both(Binary::Compare(Cmp::GtS), Shape::I8x16),
    Row2::Both(Binary::Compare(Cmp::GtU), Shape::I8x16),
    Row2::Both(Binary::Compare(Cmp::LeS), Shape::I8x16),
    Row2::Both(Binary::Compare(Cmp::LeU), Shape::I8x16),
    Row2::Both(Binary::Compare(Cmp::GeS), Shape::I8x16),
    Row2::Both(Binary::Compare(Cmp::GeU), Shape::I8x16),
    Row2::Both(Binary::Compare(Cmp::Eq), Shape::I16x8),
    Row2::Both(Binary::Compare(Cmp::Ne), Shape::I16x8),
    Row2::Both(Binary::Compare(Cmp::LtS), Shape::I16x8),
    Row2::Both(Binary::Compare(Cmp::LtU), Shape::I16x8),
    Row2::Both(Binary::Compare(Cmp::GtS), Shape::I16x8),
    Row2::Both(Binary::Compare(Cmp::GtU), Shape::I16x8),
    Row2::Both(Binary::Compare(Cmp::LeS), Shape::I16x8),
    Row2::Both(Binary::Compare(Cmp::LeU), Shape::I16x8),
    Row2::Both(Binary::Compare(Cmp::GeS), Shape::I16x8),
    Row2::Both(Binary::Compare(Cmp::GeU), Shape::I16x8),
    Row2::Both(Binary::Compare(Cmp::Eq), Shape::I32x4),
    Row2::Both(Binary::Compare(Cmp::Ne), Shape::I32x4),
    Row2::Both(Binary::Compare(Cmp::LtS), Shape::I32x4),
    Row2::Both(Binary::Compare(Cmp::LtU), Shape::I32x4),
    Row2::Both(Binary::Compare(Cmp::GtS), Shape::I32x4),
    Row2::Both(Binary::Compare(Cmp::GtU), Shape::I32x4),
    Row2::Both(Binary::Compare(Cmp::LeS), Shape::I32x4),
    Row2::Both(Binary::Compare(Cmp::LeU), Shape::I32x4),
    Row2::Both(Binary::Compare(Cmp::GeS), Shape::I32x4),
    Row2::Both(Binary::Compare(Cmp::GeU), Shape::I32x4),
    Row2::Both(Binary::Compare(Cmp::Eq), Shape::I64x2),
    Row2::Both(Binary::Compare(Cmp::Ne), Shape::I64x2),
    Row2::Both(Binary::Compare(Cmp::LtS), Shape::I64x2),
    Row2::Both(Binary::Compare(Cmp::GtS), Shape::I64x2),
    Row2::Both(Binary::Compare(Cmp::LeS), Shape::I64x2),
    Row2::Both(Binary::Compare(Cmp::GeS), Shape::I64x2),
    Row2::And,
    Row2::AndNot,
    Row2::Or,
    Row2::Xor,
    Row2::Narrow(Sign::Signed, Paired::I16x8),
    Row2::Narrow(Sign::Unsigned, Paired::I16x8),
    Row2::Narrow(Sign::Signed, Paired::I32x4),
    Row2::Narrow(Sign::Unsigned, Paired::I32x4),
    Row2::Both(Binary::Add, Shape::I8x16),
    Row2::Both(Binary::AddSat(Sign::Signed), Shape::I8x16),
    Row2::Both(Binary::AddSat(Sign::Unsigned), Shape::I8x16),
    Row2::Both(Binary::Sub, Shape::I8x16),
    Row2::Both(Binary::SubSat(Sign::Signed), Shape::I8x16),
    Row2::Both(Binary::SubSat(Sign::Unsigned), Shape::I8x16),
    Row2::Both(Binary::Min(Sign::Signed), Shape::I8x16),
    Row2::Both(Binary::Min(Sign::Unsigned), Shape::I8x16),
    Row2::Both(Binary::Max(Sign::Signed), Shape::I8x16),
    Row2::Both(Binary::Max(Sign::Unsigned), Shape::I8x16),
    Row2::Both(Binary::Average, Shape::I8x16),
    Row2::Both(Binary::Add, Shape::I16x8),
    Row2::Both(Binary::AddSat(Sign::Signed), Shape::I16x8),
    Row2::Both(Binary::AddSat(Sign::Unsigned), Shape::I16x8),
    Row2::Both(Binary::Sub, Shape::I16x8),
    Row2::Both(Binary::SubSat(Sign::Signed), Shape::I16x8),
    Row2::Both(Binary::SubSat(Sign::Unsigned), Shape::I16x8),
    Row2::Both(Binary::Mul, Shape::I16x8),
    Row2::Both(Binary::Min(Sign::Signed), Shape::I16x8),
    Row2::Both(Binary::Min(Sign::Unsigned), Shape::I16x8),
    Row2::Both(Binary::Max(Sign::Signed), Shape::I16x8),
    Row2::Both(Binary::Max(Sign::Unsigned), Shape::I16x8),
    Row2::Both(Binary::Average, Shape::I16x8),
    Row2::Both(Binary::Q15Product, Shape::I16x8),
    Row2::MultiplyLow(Sign::Signed, Paired::I16x8),
    Row2::MultiplyHigh(Sign::Signed, Paired::I16x8),
    Row2::MultiplyLow(Sign::Unsigned, Paired::I16x8),
    Row2::MultiplyHigh(Sign::Unsigned, Paired::I16x8),
    Row2::Both(Binary::Add, Shape::I32x4),
    Row2::Both(Binary::Sub, Shape::I32x4),
    Row2::Both(Binary::Mul, Shape::I32x4),
    Row2::Both(Binary::Min(Sign::Signed), Shape::I32x4),
    Row2::Both(Binary::Min(Sign::Unsigned), Shape::I32x4),
    Row2::Both(Binary::Max(Sign::Signed), Shape::I32x4),
    Row2::Both(Binary::Max(Sign::Unsigned), Shape::I32x4),
    Row2::Dot,
    Row2::MultiplyLow(Sign::Signed, Paired::I32x4),
    Row2::MultiplyHigh(Sign::Signed, Paired::I32x4),
    Row2::MultiplyLow(Sign::Unsigned, Paired::I32x4),
    Row2::MultiplyHigh(Sign::Unsigned, Paired::I32x4),
    Row2::Both(Binary::Add, Shape::I64x2),
    Row2::Both(Binary::Sub, Shape::I64x2),
    Row2::Both(Binary::Mul, Shape::I64x2),
    Row2::MultiplyLow(Sign::Signed, Paired::I64x2),
    Row2::MultiplyHigh(Sign::Signed, Paired::I64x2),
    Row2::MultiplyLow(Sign::Unsigned, Paired::I64x2),
    Row2::MultiplyHigh(Sign::Unsigned, Paired::I64x2),
];
