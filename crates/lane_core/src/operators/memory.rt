/// An integer from one lane of a vector (the standard's "Vector Instructions", extract_lane).
#[derive(Clone, Copy, Debug, PartialEq, Eq)]
pub enum LaneExtract {
    /// i8x16.extract_lane_s: an i32 with the signed value of the lane.
    I8x16S,
    /// i8x16.extract_lane_u: an i32 with the unsigned value of the lane.
    I8x16U,
    /// i16x8.extract_lane_s: an i32 with the signed value of the lane.
    I16x8S,
    /// i16x8.extract_lane_u: an i32 with the unsigned value of the lane.
    I16x8U,
    /// i32x4.extract_lane: the lane as an i32.
    I32x4,
    /// i64x2.extract_lane: the lane as an i64.
    I64x2,
}

/// What a load makes of the bytes of a memory (the standard's "Memory Instructions", loads of vectors).
#[derive(Clone, Copy, Debug, PartialEq, Eq)]
pub enum LaneLoad {
    /// v128.load: 16 bytes, the lowest first.
    Whole,
    /// v128.load8x8_s: 8 signed numbers of 8 bits, each in a lane of 16.
    Load8x8S,
    /// v128.load8x8_u: 8 unsigned numbers of 8 bits, each in a lane of 16.
    Load8x8U,
    /// v128.load16x4_s: 4 signed numbers of 16 bits, each in a lane of 32.
    Load16x4S,
    /// v128.load16x4_u: 4 unsigned numbers of 16 bits, each in a lane of 32.
    Load16x4U,
    /// v128.load32x2_s: 2 signed numbers of 32 bits, each in a lane of 64.
    Load32x2S,
    /// v128.load32x2_u: 2 unsigned numbers of 32 bits, each in a lane of 64.
    Load32x2U,
    /// v128.load8_splat: one number of 8 bits in each lane.
    Load8Splat,
    /// v128.load16_splat: one number of 16 bits in each lane.
    Load16Splat,
    /// v128.load32_splat: one number of 32 bits in each lane.
    Load32Splat,
    /// v128.load64_splat: one number of 64 bits in each lane.
    Load64Splat,
    /// v128.load32_zero: one number of 32 bits in the lowest lane, with zeros above it.
    Load32Zero,
    /// v128.load64_zero: one number of 64 bits in the lowest lane, with zeros above it.
    Load64Zero,
}
