// Operators on two lanes. A lane stands in the lower bits of a u64.
ghost use Rattle.std.specs.Prelude.{◌≡◌, ◌<◌, ◌^◌};
ghost use Rattle.lane_core.specs.Lanes.{lane_bits, mask};
ghost use Rattle.lane_core.specs.LaneNumbers.{most_signed, average, q15_product};
ghost use Rattle.lane_core.specs.Rows.{binary_lane, lanes_compare, most_by, min_by, max_by};

use super::lane_operators::{Binary, Sign};
use super::one_lane::{add, extend, high_part, low_part, multiply, subtract};
use super::saturation::{number, saturate, signed_number};
use super::shapes::all_ones;
use crate::vector::Shape;
use num_core::operators::Cmp;

/// The lane that an operator makes of two lanes.
pub(super) fn binary_lane(op: Binary, shape: Shape, i: u64, j: u64) -> u64
    requires left { i < 2 ^ lane_bits shape }
    requires right { j < 2 ^ lane_bits shape }
    ensures { result ≡ binary_lane op shape i j }
{
    match op {
        Binary::Add => add(shape, i, j),
        Binary::Sub => subtract(shape, i, j),
        Binary::Mul => multiply(shape, i, j),
        Binary::AddSat(sign) => saturate(
            sign,
            shape,
            number(sign, shape, i) + number(sign, shape, j),
        ),
        Binary::SubSat(sign) => saturate(
            sign,
            shape,
            number(sign, shape, i) - number(sign, shape, j),
        ),
        Binary::Min(sign) => least(sign, shape, i, j),
        Binary::Max(sign) => greatest(sign, shape, i, j),
        Binary::Average => average(i, j),
        Binary::Q15Product => q15_product(shape, i, j),
        Binary::Dot => dot(shape, i, j),
        Binary::Compare(op) => if lanes_compare(op, shape, i, j) {
            all_ones(shape)
        } else {
            0
        },
    }
}

/// Whether the number of the first lane is at most that of the second.
fn at_most(sign: Sign, shape: Shape, i: u64, j: u64) -> bool
    requires left { i < 2 ^ lane_bits shape }
    requires right { j < 2 ^ lane_bits shape }
    ensures { result ≡ most_by sign (lane_bits shape) i j }
{
    match sign {
        Sign::Signed => signed_number(shape, i) <= signed_number(shape, j),
        Sign::Unsigned => i <= j,
    }
}

/// The lesser lane.
fn least(sign: Sign, shape: Shape, i: u64, j: u64) -> u64
    requires left { i < 2 ^ lane_bits shape }
    requires right { j < 2 ^ lane_bits shape }
    ensures { result ≡ min_by sign (lane_bits shape) i j }
{
    if at_most(sign, shape, i, j) { i } else { j }
}

/// The greater lane.
fn greatest(sign: Sign, shape: Shape, i: u64, j: u64) -> u64
    requires left { i < 2 ^ lane_bits shape }
    requires right { j < 2 ^ lane_bits shape }
    ensures { result ≡ max_by sign (lane_bits shape) i j }
{
    if at_most(sign, shape, i, j) { j } else { i }
}

/// The average of unsigned lanes, rounded up.
fn average(i: u64, j: u64) -> u64
    ensures { result ≡ average 64 i j }
{
    i / 2 + j / 2 + (i % 2 + j % 2 + 1) / 2
}

/// The product of fixed-point lanes with 15 fraction bits, rounded and saturated.
fn q15_product(shape: Shape, i: u64, j: u64) -> u64
    requires left { i < 2 ^ lane_bits shape }
    requires right { j < 2 ^ lane_bits shape }
    ensures { result ≡ q15_product (lane_bits shape) i j }
{
    let product = signed_number(shape, i) * signed_number(shape, j);
    saturate(Sign::Signed, shape, (product + 0x4000) >> 15)
}

/// The sum of the products of the lower and of the upper halves, signed.
fn dot(shape: Shape, i: u64, j: u64) -> u64
    requires left { i < 2 ^ lane_bits shape }
    requires right { j < 2 ^ lane_bits shape }
    ensures { result ≡ binary_lane Binary.Dot shape i j }
{
    let low = multiply(
        shape,
        extend(Sign::Signed, shape, low_part(shape, i)),
        extend(Sign::Signed, shape, low_part(shape, j)),
    );
    let high = multiply(
        shape,
        extend(Sign::Signed, shape, high_part(shape, i)),
        extend(Sign::Signed, shape, high_part(shape, j)),
    );
    add(shape, low, high)
}

/// Whether a comparison of two lanes holds.
fn lanes_compare(op: Cmp, shape: Shape, i: u64, j: u64) -> bool
    requires left { i < 2 ^ lane_bits shape }
    requires right { j < 2 ^ lane_bits shape }
    ensures { result ≡ lanes_compare op (lane_bits shape) i j }
{
    match op {
        Cmp::Eq => i == j,
        Cmp::Ne => i != j,
        Cmp::LtS => signed_number(shape, i) < signed_number(shape, j),
        Cmp::LtU => i < j,
        Cmp::GtS => signed_number(shape, i) > signed_number(shape, j),
        Cmp::GtU => i > j,
        Cmp::LeS => signed_number(shape, i) <= signed_number(shape, j),
        Cmp::LeU => i <= j,
        Cmp::GeS => signed_number(shape, i) >= signed_number(shape, j),
        Cmp::GeU => i >= j,
    }
}
