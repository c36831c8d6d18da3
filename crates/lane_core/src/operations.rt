// The vector operators as calls: each gives what its definition says, for all operands. None takes memory.
ghost use Rattle.std.specs.Prelude.{◌≡◌, ◌<◌, ◌^◌};
ghost use Rattle.lane_core.specs.Shapes.{extract_shape};
ghost use Rattle.lane_core.specs.Operators.{lanes1, lanes2, shift_lanes, test_lanes};
ghost use Rattle.lane_core.specs.Rearranging.{bitmask, bitselect, shuffle, splat, extract, replace};
ghost use Rattle.lane_core.specs.Rows.{integer_bits};

mod all_lanes;
mod lane_operators;
mod little_endian;
mod memory_access;
mod one_lane;
mod rearranged;
mod rows;
mod saturation;
mod shapes;
mod two_lanes;

use crate::operators::{Lane1, Lane2, LaneExtract, LaneShift, LaneTest};
use crate::vector::{Shape, V};
use all_lanes::{all_true, each_lane};
use lane_operators::Unary;
pub use memory_access::{lane_bytes, load_bytes, loaded, loaded_lane, stored_lane, vector_bytes};
use one_lane::extended;
use rows::{row_of_one, row_of_two, row1, row2};
use shapes::{extract_shape, lane_at};

/// The vector that an operator makes of one vector (the standard's "Vector Operations").
pub fn lanes1(op: Lane1, a: V) -> V
    ensures { result.0 ≡ lanes1 op a.0 }
{
    V(row1(row_of_one(op), a.0))
}

/// The vector that an operator makes of two vectors (the standard's "Vector Operations").
pub fn lanes2(op: Lane2, a: V, b: V) -> V
    ensures { result.0 ≡ lanes2 op a.0 b.0 }
{
    V(row2(row_of_two(op), a.0, b.0))
}

/// The vector with each lane shifted by a count, which is taken modulo the width of a lane (the standard's "Vector
/// Operations").
pub fn shift(op: LaneShift, a: V, count: u32) -> V
    ensures { result.0 ≡ shift_lanes op a.0 count }
{
    V(match op {
        LaneShift::I8x16Shl => each_lane(Unary::Shl(count), Shape::I8x16, a.0),
        LaneShift::I8x16ShrS => each_lane(Unary::ShrS(count), Shape::I8x16, a.0),
        LaneShift::I8x16ShrU => each_lane(Unary::ShrU(count), Shape::I8x16, a.0),
        LaneShift::I16x8Shl => each_lane(Unary::Shl(count), Shape::I16x8, a.0),
        LaneShift::I16x8ShrS => each_lane(Unary::ShrS(count), Shape::I16x8, a.0),
        LaneShift::I16x8ShrU => each_lane(Unary::ShrU(count), Shape::I16x8, a.0),
        LaneShift::I32x4Shl => each_lane(Unary::Shl(count), Shape::I32x4, a.0),
        LaneShift::I32x4ShrS => each_lane(Unary::ShrS(count), Shape::I32x4, a.0),
        LaneShift::I32x4ShrU => each_lane(Unary::ShrU(count), Shape::I32x4, a.0),
        LaneShift::I64x2Shl => each_lane(Unary::Shl(count), Shape::I64x2, a.0),
        LaneShift::I64x2ShrS => each_lane(Unary::ShrS(count), Shape::I64x2, a.0),
        LaneShift::I64x2ShrU => each_lane(Unary::ShrU(count), Shape::I64x2, a.0),
    })
}

/// The i32 that a test or a bit mask makes of a vector (the standard's "Vector Operations").
pub fn test(op: LaneTest, a: V) -> u32
    ensures { result ≡ test_lanes op a.0 }
{
    match op {
        LaneTest::V128AnyTrue => u32::from(a.0 != 0),
        LaneTest::I8x16AllTrue => u32::from(all_true(Shape::I8x16, a.0)),
        LaneTest::I8x16Bitmask => bitmask(Shape::I8x16, a.0),
        LaneTest::I16x8AllTrue => u32::from(all_true(Shape::I16x8, a.0)),
        LaneTest::I16x8Bitmask => bitmask(Shape::I16x8, a.0),
        LaneTest::I32x4AllTrue => u32::from(all_true(Shape::I32x4, a.0)),
        LaneTest::I32x4Bitmask => bitmask(Shape::I32x4, a.0),
        LaneTest::I64x2AllTrue => u32::from(all_true(Shape::I64x2, a.0)),
        LaneTest::I64x2Bitmask => bitmask(Shape::I64x2, a.0),
    }
}

/// The top bit of lane i as bit i.
fn bitmask(shape: Shape, v: u128) -> u32
    ensures { result ≡ bitmask shape v }
{
    each_lane(Unary::Top, shape, v) as u32
}

/// The bits of the first vector where the third has 1, else of the second (the standard's "Vector Operations").
pub fn bitselect(a: V, b: V, choice: V) -> V
    ensures { result.0 ≡ bitselect a.0 b.0 choice.0 }
{
    V(a.0 & choice.0 | b.0 & !choice.0)
}

/// Bytes of both vectors, those of the first before those of the second, by these places. It is 0 for a place of 32 or
/// more (the standard's "Vector Instructions", shuffle).
pub fn shuffle(a: V, b: V, places: [u8; 16]) -> V
    ensures { result.0 ≡ shuffle places a.0 b.0 }
{
    V(rearranged::shuffle(places, a.0, b.0))
}

/// The vector with the lowest bits of an integer in each lane (the standard's "Vector Instructions", splat).
pub fn splat(shape: Shape, i: u64) -> V
    ensures { result.0 ≡ splat shape i }
{
    V(rearranged::splat(shape, i))
}

/// The integer from one lane. It is 0 where there is no lane of this number (the standard's "Vector Instructions",
/// extract_lane).
pub fn extract(op: LaneExtract, a: V, lane: u8) -> u64
    ensures value { result ≡ extract op lane a.0 }
    ensures below { result < 2 ^ integer_bits (extract_shape op) }
{
    extended(op, lane_at(extract_shape(op), a.0, lane.into()))
}

/// The vector with the lowest bits of an integer in the place of one lane. It is unchanged where there is no lane of
/// this number (the standard's "Vector Instructions", replace_lane).
pub fn replace(shape: Shape, a: V, lane: u8, i: u64) -> V
    ensures { result.0 ≡ replace shape lane a.0 i }
{
    V(rearranged::replace(shape, lane, a.0, i))
}
