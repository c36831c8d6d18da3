// What loads and stores of vectors make of bytes.
ghost use Rattle.std.specs.Prelude.{◌≡◌, length, take};
ghost use Rattle.lane_core.specs.Shapes.{lane_bytes, lane_load_bytes};
ghost use Rattle.lane_core.specs.Memory.{load_extended, loaded_vector, vector_bytes, stored_lane, loaded_lane};
ghost use Rattle.lane_core.specs.Rows.{extend_by, pair_shape};

use super::all_lanes::each_lane;
use super::lane_operators::{Paired, Sign, Unary};
use super::little_endian::{eight, four, of_lane, sixteen, two};
use super::rearranged::{replace, splat};
use super::shapes::{lane_at, pair_shape};
use crate::operators::LaneLoad;
use crate::vector::{Shape, V};

/// How many bytes a load of a vector reads (the standard's "Memory Instructions").
pub fn load_bytes(op: LaneLoad) -> usize
    ensures { result ≡ lane_load_bytes op }
{
    match op {
        LaneLoad::Load8Splat => 1,
        LaneLoad::Load16Splat => 2,
        LaneLoad::Load32Splat | LaneLoad::Load32Zero => 4,
        LaneLoad::Whole => 16,
        LaneLoad::Load8x8S
        | LaneLoad::Load8x8U
        | LaneLoad::Load16x4S
        | LaneLoad::Load16x4U
        | LaneLoad::Load32x2S
        | LaneLoad::Load32x2U
        | LaneLoad::Load64Splat
        | LaneLoad::Load64Zero => 8,
    }
}

/// The vector that a load makes of the bytes that it reads, the lowest first (the standard's "Memory Instructions").
pub fn loaded(op: LaneLoad, bytes: &[u8]) -> V
    requires { length bytes.now ≡ lane_load_bytes op }
    ensures { result.0 ≡ loaded_vector op bytes.now }
{
    V(match op {
        LaneLoad::Whole => sixteen(bytes),
        LaneLoad::Load8x8S => load_extended(Sign::Signed, Paired::I16x8, bytes),
        LaneLoad::Load8x8U => load_extended(Sign::Unsigned, Paired::I16x8, bytes),
        LaneLoad::Load16x4S => load_extended(Sign::Signed, Paired::I32x4, bytes),
        LaneLoad::Load16x4U => load_extended(Sign::Unsigned, Paired::I32x4, bytes),
        LaneLoad::Load32x2S => load_extended(Sign::Signed, Paired::I64x2, bytes),
        LaneLoad::Load32x2U => load_extended(Sign::Unsigned, Paired::I64x2, bytes),
        LaneLoad::Load8Splat => splat(Shape::I8x16, bytes[0].into()),
        LaneLoad::Load16Splat => splat(Shape::I16x8, two(bytes).into()),
        LaneLoad::Load32Splat => splat(Shape::I32x4, four(bytes).into()),
        LaneLoad::Load64Splat => splat(Shape::I64x2, eight(bytes)),
        LaneLoad::Load32Zero => four(bytes).into(),
        LaneLoad::Load64Zero => eight(bytes).into(),
    })
}

/// Eight bytes as numbers of half the width of a lane, each in a lane.
fn load_extended(sign: Sign, paired: Paired, bytes: &[u8]) -> u128
    requires { length bytes.now ≡ 8 }
    ensures { result ≡ load_extended (extend_by sign) (pair_shape paired) bytes.now }
{
    each_lane(Unary::Extend(sign), pair_shape(paired), eight(bytes).into())
}

/// How many bytes a lane has, which is how many a load or a store of one lane moves.
pub fn lane_bytes(shape: Shape) -> usize
    ensures { result ≡ lane_bytes shape }
{
    match shape {
        Shape::I8x16 => 1,
        Shape::I16x8 => 2,
        Shape::I32x4 => 4,
        Shape::I64x2 => 8,
    }
}

/// The vector with one lane from bytes, the lowest first (the standard's "Memory Instructions"). It is unchanged where
/// there is no lane of this number.
pub fn loaded_lane(shape: Shape, a: V, lane: u8, bytes: &[u8]) -> V
    requires { length bytes.now ≡ lane_bytes shape }
    ensures { result.0 ≡ loaded_lane shape lane a.0 bytes.now }
{
    V(replace(shape, lane, a.0, of_lane(shape, bytes)))
}

/// The bytes of a vector, the lowest first (the standard's "Memory Instructions").
pub fn vector_bytes(a: V) -> [u8; 16]
    ensures { result ≡ vector_bytes a.0 }
{
    a.0.to_le_bytes()
}

/// Bytes that begin with those of one lane, the lowest first (the standard's "Memory Instructions"). They are zeros
/// where there is no lane of this number.
pub fn stored_lane(shape: Shape, a: V, lane: u8) -> [u8; 8]
    ensures { take (lane_bytes shape) result ≡ stored_lane shape lane a.0 }
{
    lane_at(shape, a.0, lane.into()).to_le_bytes()
}
