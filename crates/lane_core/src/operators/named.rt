use super::lanes::{Lane1, LaneShift, LaneTest};
use super::memory::{LaneExtract, LaneLoad};
use super::pairs::Lane2;
use crate::vector::Shape;

/// A vector instruction of integer lanes, without its immediates. Each instruction is exactly one value.
#[derive(Clone, Copy, Debug, PartialEq, Eq)]
pub enum LaneOp {
    /// A load of a vector, with its memory argument.
    Load(LaneLoad),
    /// v128.store, with its memory argument.
    Store,
    /// v128.load8_lane to load64_lane: one lane of this shape from memory, with a memory argument and a lane.
    LoadLane(Shape),
    /// v128.store8_lane to store64_lane: one lane of this shape into memory, with a memory argument and a lane.
    StoreLane(Shape),
    /// v128.const, with 16 bytes.
    Const,
    /// i8x16.shuffle, with 16 places.
    Shuffle,
    /// The splat of this shape: one integer in each lane.
    Splat(Shape),
    /// An integer from one lane, with the lane.
    Extract(LaneExtract),
    /// The replace_lane of this shape, with the lane.
    Replace(Shape),
    /// v128.bitselect.
    Bitselect,
    /// A vector from one vector.
    One(Lane1),
    /// A vector from two vectors.
    Two(Lane2),
    /// A vector from a vector and a count.
    Shift(LaneShift),
    /// An i32 from one vector.
    Test(LaneTest),
}
