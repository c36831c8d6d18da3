// Operators on single lanes. A lane stands in the lower bits of a u64.
ghost use Rattle.std.specs.Prelude.{◌≡◌, ◌<◌, ◌-◌, ◌^◌, ◌/◌, ◌%◌};
ghost use Rattle.num_core.specs.Integers.{add_of, sub_of, mul_of, shift_left, shift_right_signed, shift_right_unsigned};
ghost use Rattle.lane_core.specs.Lanes.{lane_bits};
ghost use Rattle.lane_core.specs.LaneNumbers.{abs_of};
ghost use Rattle.lane_core.specs.Shapes.{extract_shape};
ghost use Rattle.lane_core.specs.Rearranging.{extended};
ghost use Rattle.lane_core.specs.Rows.{integer_bits, extend_by, half_bits, low_part, high_part, bits_read, unary_lane};

use super::lane_operators::{Sign, Unary};
use super::saturation::{saturate, signed_number};
use super::shapes::{all_ones, lane_at, lane_bits, narrower, top_bit, wrap};
use crate::operators::LaneExtract;
use crate::vector::Shape;
use num_core::operations::convert;
use num_core::operators::Conv;

/// The lane that an operator makes of one lane.
pub(super) fn unary_lane(op: Unary, shape: Shape, i: u64) -> u64
    requires { i < 2 ^ bits_read op shape }
    ensures { result ≡ unary_lane op shape i }
{
    match op {
        Unary::Abs => absolute(shape, i),
        Unary::Neg => subtract(shape, 0, i),
        Unary::Ones => i.count_ones().into(),
        Unary::Shl(count) => shift_left(shape, i, count),
        Unary::ShrS(count) => shift_right_signed(shape, i, count),
        Unary::ShrU(count) => shift_right_unsigned(shape, i, count),
        Unary::PairSum(sign) => add(
            shape,
            extend(sign, shape, low_part(shape, i)),
            extend(sign, shape, high_part(shape, i)),
        ),
        Unary::Extend(sign) => extend(sign, shape, i),
        Unary::Saturate(sign) => saturate(sign, narrower(shape), signed_number(shape, i)),
        Unary::Top => i / top_bit(shape),
        Unary::ByteOf(v) => lane_at(Shape::I8x16, v.0, i),
        Unary::ByteOfBoth(v, w) => if i < 16 {
            lane_at(Shape::I8x16, v.0, i)
        } else {
            lane_at(Shape::I8x16, w.0, i - 16)
        },
    }
}

/// The sum.
pub(super) fn add(shape: Shape, i: u64, j: u64) -> u64
    requires left { i < 2 ^ lane_bits shape }
    requires right { j < 2 ^ lane_bits shape }
    ensures { result ≡ add_of (lane_bits shape) i j }
{
    wrap(shape, i.wrapping_add(j))
}

/// The difference.
pub(super) fn subtract(shape: Shape, i: u64, j: u64) -> u64
    requires left { i < 2 ^ lane_bits shape }
    requires right { j < 2 ^ lane_bits shape }
    ensures { result ≡ sub_of (lane_bits shape) i j }
{
    wrap(shape, i.wrapping_sub(j))
}

/// The product.
pub(super) fn multiply(shape: Shape, i: u64, j: u64) -> u64
    requires left { i < 2 ^ lane_bits shape }
    requires right { j < 2 ^ lane_bits shape }
    ensures { result ≡ mul_of (lane_bits shape) i j }
{
    wrap(shape, i.wrapping_mul(j))
}

/// The absolute value.
fn absolute(shape: Shape, i: u64) -> u64
    requires { i < 2 ^ lane_bits shape }
    ensures { result ≡ abs_of (lane_bits shape) i }
{
    if i < top_bit(shape) {
        i
    } else {
        subtract(shape, 0, i)
    }
}

/// A shift to the left.
fn shift_left(shape: Shape, i: u64, count: u32) -> u64
    requires { i < 2 ^ lane_bits shape }
    ensures { result ≡ shift_left (lane_bits shape) i count }
{
    wrap(shape, i << (count % lane_bits(shape)))
}

/// A shift to the right, with zeros.
fn shift_right_unsigned(shape: Shape, i: u64, count: u32) -> u64
    requires { i < 2 ^ lane_bits shape }
    ensures { result ≡ shift_right_unsigned (lane_bits shape) i count }
{
    i >> (count % lane_bits(shape))
}

/// A shift to the right, with copies of the sign.
fn shift_right_signed(shape: Shape, i: u64, count: u32) -> u64
    requires { i < 2 ^ lane_bits shape }
    ensures { result ≡ shift_right_signed (lane_bits shape) i count }
{
    let count = count % lane_bits(shape);
    let shifted = i >> count;
    if i < top_bit(shape) {
        shifted
    } else {
        let all = all_ones(shape);
        shifted + (all - (all >> count))
    }
}

/// The lower half of a lane.
pub(super) fn low_part(shape: Shape, i: u64) -> u64
    requires { i < 2 ^ lane_bits shape }
    ensures value { result ≡ low_part shape i }
    ensures below { result < 2 ^ half_bits shape }
{
    wrap(narrower(shape), i)
}

/// The upper half of a lane.
pub(super) fn high_part(shape: Shape, i: u64) -> u64
    requires { i < 2 ^ lane_bits shape }
    ensures value { result ≡ high_part shape i }
    ensures below { result < 2 ^ half_bits shape }
{
    i >> lane_bits(narrower(shape))
}

/// A lane of the shape from one that is half as wide.
pub(super) fn extend(sign: Sign, shape: Shape, i: u64) -> u64
    requires { i < 2 ^ half_bits shape }
    ensures value { result ≡ extend_by sign shape i }
    ensures below { result < 2 ^ lane_bits shape }
{
    match sign {
        Sign::Signed => if i < top_bit(narrower(shape)) {
            i
        } else {
            i + (all_ones(shape) - all_ones(narrower(shape)))
        },
        Sign::Unsigned => i,
    }
}

/// The integer that has the signed or the unsigned value of a lane.
pub(super) fn extended(op: LaneExtract, i: u64) -> u64
    requires { i < 2 ^ lane_bits (extract_shape op) }
    ensures value { result ≡ extended op i }
    ensures below { result < 2 ^ integer_bits (extract_shape op) }
{
    match op {
        LaneExtract::I8x16S => convert(Conv::S8of32, i),
        LaneExtract::I16x8S => convert(Conv::S16of32, i),
        LaneExtract::I8x16U | LaneExtract::I16x8U | LaneExtract::I32x4 | LaneExtract::I64x2 => i,
    }
}
