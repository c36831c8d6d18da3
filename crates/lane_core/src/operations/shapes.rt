// The numbers of a shape, and single lanes.
ghost use Rattle.std.specs.Prelude.{◌≡◌, ◌<◌, ◌≤◌, ◌-◌, ◌^◌, ◌%◌, replicate};
ghost use Rattle.num_core.specs.Integers.{wrap};
ghost use Rattle.lane_core.specs.Shapes.{lane_count, extract_shape};
ghost use Rattle.lane_core.specs.Lanes.{lane_bits, narrower, from_lanes};
ghost use Rattle.lane_core.specs.Rearranging.{lane_at};
ghost use Rattle.lane_core.specs.Rows.{pair_shape};

use super::lane_operators::Paired;
use crate::operators::LaneExtract;
use crate::vector::Shape;

/// The shape of which extract_lane takes a lane.
pub(super) fn extract_shape(op: LaneExtract) -> Shape
    ensures { result ≡ extract_shape op }
{
    match op {
        LaneExtract::I8x16S | LaneExtract::I8x16U => Shape::I8x16,
        LaneExtract::I16x8S | LaneExtract::I16x8U => Shape::I16x8,
        LaneExtract::I32x4 => Shape::I32x4,
        LaneExtract::I64x2 => Shape::I64x2,
    }
}

/// How many lanes a vector has.
pub(super) fn lane_count(shape: Shape) -> u32
    ensures { result ≡ lane_count shape }
{
    match shape {
        Shape::I8x16 => 16,
        Shape::I16x8 => 8,
        Shape::I32x4 => 4,
        Shape::I64x2 => 2,
    }
}

/// How many bits a lane has.
pub(super) fn lane_bits(shape: Shape) -> u32
    ensures { result ≡ lane_bits shape }
{
    match shape {
        Shape::I8x16 => 8,
        Shape::I16x8 => 16,
        Shape::I32x4 => 32,
        Shape::I64x2 => 64,
    }
}

/// The shape whose lanes are half as wide.
pub(super) fn narrower(shape: Shape) -> Shape
    ensures { result ≡ narrower shape }
{
    match shape {
        Shape::I8x16 | Shape::I16x8 => Shape::I8x16,
        Shape::I32x4 => Shape::I16x8,
        Shape::I64x2 => Shape::I32x4,
    }
}

/// The shape of lanes that are two lanes of another.
pub(super) fn pair_shape(paired: Paired) -> Shape
    ensures { result ≡ pair_shape paired }
{
    match paired {
        Paired::I16x8 => Shape::I16x8,
        Paired::I32x4 => Shape::I32x4,
        Paired::I64x2 => Shape::I64x2,
    }
}

/// A lane of all ones, which is its greatest unsigned number.
pub(super) fn all_ones(shape: Shape) -> u64
    ensures { result ≡ 2 ^ lane_bits shape - 1 }
{
    match shape {
        Shape::I8x16 => 0xff,
        Shape::I16x8 => 0xffff,
        Shape::I32x4 => 0xffff_ffff,
        Shape::I64x2 => 0xffff_ffff_ffff_ffff,
    }
}

/// A lane whose top bit alone is set: from there on its signed numbers are negative.
pub(super) fn top_bit(shape: Shape) -> u64
    ensures { result ≡ 2 ^ (lane_bits shape - 1) }
{
    match shape {
        Shape::I8x16 => 0x80,
        Shape::I16x8 => 0x8000,
        Shape::I32x4 => 0x8000_0000,
        Shape::I64x2 => 0x8000_0000_0000_0000,
    }
}

/// The vector that has 1 in each lane.
pub(super) fn one_in_each(shape: Shape) -> u128
    ensures { result ≡ from_lanes shape (replicate (lane_count shape) 1) }
{
    match shape {
        Shape::I8x16 => 0x0101_0101_0101_0101_0101_0101_0101_0101,
        Shape::I16x8 => 0x0001_0001_0001_0001_0001_0001_0001_0001,
        Shape::I32x4 => 0x0000_0001_0000_0001_0000_0001_0000_0001,
        Shape::I64x2 => 0x0000_0000_0000_0001_0000_0000_0000_0001,
    }
}

/// The lowest bits of an integer, as many as a lane has.
pub(super) fn wrap(shape: Shape, i: u64) -> u64
    ensures { result ≡ wrap (lane_bits shape) i }
{
    i & all_ones(shape)
}

/// The lowest bits of a vector, which are at most 64.
pub(super) fn lowest(bits: u32, v: u128) -> u64
    requires { bits ≤ 64 }
    ensures { result ≡ v % 2 ^ bits }
{
    (v % (1 << bits)) as u64
}

/// One lane, or 0 where there is none of this number.
pub(super) fn lane_at(shape: Shape, v: u128, lane: u64) -> u64
    ensures value { result ≡ lane_at shape lane v }
    ensures below { result < 2 ^ lane_bits shape }
{
    if lane < u64::from(lane_count(shape)) {
        let bits = lane_bits(shape);
        lowest(bits, v >> (bits * lane as u32))
    } else {
        0
    }
}
