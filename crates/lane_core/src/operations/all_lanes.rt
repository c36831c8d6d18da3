// Operators on single lanes, done for all lanes of a vector. The lanes are read from the highest to the lowest, and each
// goes below those that are made.
ghost use Rattle.std.specs.Prelude.{◌≡◌, ◌*◌, ◌<◌, ◌≤◌, not, nat_eq};
ghost use Rattle.std.specs.List.{list_all};
ghost use Rattle.lane_core.specs.Shapes.{lane_count};
ghost use Rattle.lane_core.specs.Lanes.{lanes};
ghost use Rattle.lane_core.specs.Rows.{bits_read, bits_given, each_of, both_of};

use super::lane_operators::{Binary, Unary};
use super::one_lane::unary_lane;
use super::shapes::{lane_bits, lane_count, lowest, narrower};
use super::two_lanes::binary_lane;
use crate::vector::Shape;

/// How many bits of each lane an operator reads.
fn bits_read(op: Unary, shape: Shape) -> u32
    ensures value { result ≡ bits_read op shape }
    ensures all { result * lane_count shape ≤ 128 }
    ensures some { 0 < result }
    ensures bound { result ≤ 64 }
{
    match op {
        Unary::Extend(_) => lane_bits(narrower(shape)),
        _ => lane_bits(shape),
    }
}

/// How many bits an operator gives for each lane.
fn bits_given(op: Unary, shape: Shape) -> u32
    ensures value { result ≡ bits_given op shape }
    ensures all { result * lane_count shape ≤ 128 }
    ensures bound { result ≤ 64 }
{
    match op {
        Unary::Saturate(_) => lane_bits(narrower(shape)),
        Unary::Top => 1,
        _ => lane_bits(shape),
    }
}

/// What an operator makes of each lane, one beside the other.
pub(super) fn each_lane(op: Unary, shape: Shape, v: u128) -> u128
    ensures { result ≡ each_of op shape v }
{
    let read = bits_read(op, shape);
    let given = bits_given(op, shape);
    let count = lane_count(shape);
    let mut made = 0;
    for lane in 0..count {
        let part = lowest(read, v >> (read * (count - 1 - lane)));
        made = made << given | u128::from(unary_lane(op, shape, part));
    }
    made
}

/// What an operator makes of each two lanes at one place, one beside the other.
pub(super) fn both_lanes(op: Binary, shape: Shape, v: u128, w: u128) -> u128
    ensures { result ≡ both_of op shape v w }
{
    let bits = lane_bits(shape);
    let count = lane_count(shape);
    let mut made = 0;
    for lane in 0..count {
        let at = bits * (count - 1 - lane);
        let value = binary_lane(op, shape, lowest(bits, v >> at), lowest(bits, w >> at));
        made = made << bits | u128::from(value);
    }
    made
}

/// Whether no lane is 0.
pub(super) fn all_true(shape: Shape, v: u128) -> bool
    ensures { result ≡ list_all (λ i. not (nat_eq i 0)) (lanes shape v) }
{
    let bits = lane_bits(shape);
    let mut rest = v;
    for _lane in 0..lane_count(shape) {
        if lowest(bits, rest) == 0 {
            return false;
        }
        rest >>= bits;
    }
    true
}
