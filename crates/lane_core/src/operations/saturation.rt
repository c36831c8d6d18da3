// Signed and unsigned numbers of lanes, and the nearest such number.
ghost use Rattle.std.specs.Prelude.{◌≡◌, ◌<◌, ◌≤◌, ◌-◌, ◌^◌, ℤ, unsigned_abs};
ghost use Rattle.num_core.specs.Integers.{signed};
ghost use Rattle.lane_core.specs.Lanes.{lane_bits};
ghost use Rattle.lane_core.specs.LaneNumbers.{saturate_signed, saturate_unsigned};
ghost use Rattle.lane_core.specs.Rows.{number_by, saturate_by};

use super::lane_operators::Sign;
use super::shapes::{all_ones, top_bit};
use crate::vector::Shape;

/// The signed number of a lane.
pub(super) fn signed_number(shape: Shape, i: u64) -> i128
    requires { i < 2 ^ lane_bits shape }
    ensures value { result ≡ signed (lane_bits shape) i }
    ensures small { unsigned_abs result ≤ 2 ^ 63 }
{
    let number = i128::from(i);
    if i < top_bit(shape) {
        number
    } else {
        number - i128::from(all_ones(shape)) - 1
    }
}

/// The signed or the unsigned number of a lane.
pub(super) fn number(sign: Sign, shape: Shape, i: u64) -> i128
    requires { i < 2 ^ lane_bits shape }
    ensures value { result ≡ number_by sign (lane_bits shape) i }
    ensures small { unsigned_abs result < 2 ^ 64 }
{
    match sign {
        Sign::Signed => signed_number(shape, i),
        Sign::Unsigned => i128::from(i),
    }
}

/// The lane whose signed or unsigned number is the nearest.
pub(super) fn saturate(sign: Sign, shape: Shape, number: i128) -> u64
    ensures value { result ≡ saturate_by sign (lane_bits shape) number }
    ensures below { result < 2 ^ lane_bits shape }
{
    match sign {
        Sign::Signed => saturate_signed(shape, number),
        Sign::Unsigned => saturate_unsigned(shape, number),
    }
}

/// The lane whose signed number is the nearest.
fn saturate_signed(shape: Shape, number: i128) -> u64
    ensures { result ≡ saturate_signed (lane_bits shape) number }
{
    let top = top_bit(shape);
    let least = -i128::from(top);
    if number < least {
        top
    } else if number >= i128::from(top) {
        top - 1
    } else if number < 0 {
        top + (number - least) as u64
    } else {
        number as u64
    }
}

/// The lane whose unsigned number is the nearest.
fn saturate_unsigned(shape: Shape, number: i128) -> u64
    ensures { result ≡ saturate_unsigned (lane_bits shape) number }
{
    let most = all_ones(shape);
    if number < 0 {
        0
    } else if number > i128::from(most) {
        most
    } else {
        number as u64
    }
}
