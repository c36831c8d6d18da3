// Operators that change how wide lanes are.
ghost use Rattle.std.specs.Prelude.{◌≡◌};
ghost use Rattle.num_core.specs.Integers.{wrap};
ghost use Rattle.lane_core.specs.Rearranging.{extend_low, extend_high, add_pairs, multiply_low, multiply_high, dot, narrow, swizzle, shuffle, splat, replace};
ghost use Rattle.lane_core.specs.Rows.{extend_by, saturate_by, pair_shape};

use super::all_lanes::{both_lanes, each_lane};
use super::lane_operators::{Binary, Paired, Sign, Unary};
use super::little_endian::sixteen;
use super::shapes::{lane_at, lane_bits, lane_count, one_in_each, pair_shape, wrap};
use crate::vector::{Shape, V};

/// The sums of neighbours.
pub(super) fn add_pairs(sign: Sign, paired: Paired, v: u128) -> u128
    ensures { result ≡ add_pairs (extend_by sign) (pair_shape paired) v }
{
    each_lane(Unary::PairSum(sign), pair_shape(paired), v)
}

/// The lower half of the lanes, in wider lanes.
pub(super) fn extend_low(sign: Sign, paired: Paired, v: u128) -> u128
    ensures { result ≡ extend_low (extend_by sign) (pair_shape paired) v }
{
    each_lane(Unary::Extend(sign), pair_shape(paired), v)
}

/// The upper half of the lanes, in wider lanes.
pub(super) fn extend_high(sign: Sign, paired: Paired, v: u128) -> u128
    ensures { result ≡ extend_high (extend_by sign) (pair_shape paired) v }
{
    each_lane(Unary::Extend(sign), pair_shape(paired), v >> 64)
}

/// The products of the lower halves.
pub(super) fn multiply_low(sign: Sign, paired: Paired, v: u128, w: u128) -> u128
    ensures { result ≡ multiply_low (extend_by sign) (pair_shape paired) v w }
{
    let (left, right) = (extend_low(sign, paired, v), extend_low(sign, paired, w));
    both_lanes(Binary::Mul, pair_shape(paired), left, right)
}

/// The products of the upper halves.
pub(super) fn multiply_high(sign: Sign, paired: Paired, v: u128, w: u128) -> u128
    ensures { result ≡ multiply_high (extend_by sign) (pair_shape paired) v w }
{
    let (left, right) = (extend_high(sign, paired, v), extend_high(sign, paired, w));
    both_lanes(Binary::Mul, pair_shape(paired), left, right)
}

/// The sums of the products of two neighbouring signed lanes.
pub(super) fn dot(v: u128, w: u128) -> u128
    ensures { result ≡ dot v w }
{
    both_lanes(Binary::Dot, Shape::I32x4, v, w)
}

/// The signed lanes, saturated to half the width, those of the first vector low.
pub(super) fn narrow(sign: Sign, paired: Paired, v: u128, w: u128) -> u128
    ensures { result ≡ narrow (saturate_by sign) (pair_shape paired) v w }
{
    let shape = pair_shape(paired);
    let low = each_lane(Unary::Saturate(sign), shape, v);
    let high = each_lane(Unary::Saturate(sign), shape, w);
    high << 64 | low
}

/// Bytes of the first vector by the places in the second.
pub(super) fn swizzle(v: u128, places: u128) -> u128
    ensures { result ≡ swizzle v places }
{
    each_lane(Unary::ByteOf(V(v)), Shape::I8x16, places)
}

/// Bytes of both vectors by these places.
pub(super) fn shuffle(places: [u8; 16], v: u128, w: u128) -> u128
    ensures { result ≡ shuffle places v w }
{
    let op = Unary::ByteOfBoth(V(v), V(w));
    each_lane(op, Shape::I8x16, sixteen(&places))
}

/// The lowest bits of an integer in each lane.
pub(super) fn splat(shape: Shape, i: u64) -> u128
    ensures { result ≡ splat shape i }
{
    u128::from(wrap(shape, i)) * one_in_each(shape)
}

/// The vector with the lowest bits of an integer in one lane.
pub(super) fn replace(shape: Shape, lane: u8, v: u128, i: u64) -> u128
    ensures { result ≡ replace shape lane v i }
{
    if u32::from(lane) < lane_count(shape) {
        let at = lane_bits(shape) * u32::from(lane);
        let old = u128::from(lane_at(shape, v, lane.into()));
        v - (old << at) + (u128::from(wrap(shape, i)) << at)
    } else {
        v
    }
}
