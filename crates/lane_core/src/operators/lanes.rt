/// A vector from one vector (the standard's "Vector Instructions", unary operators and extensions).
#[derive(Clone, Copy, Debug, PartialEq, Eq)]
pub enum Lane1 {
    /// v128.not: each bit turned over.
    V128Not,
    /// i8x16.abs: the absolute value of each lane, modulo the range of a lane.
    I8x16Abs,
    /// i8x16.neg: each lane negated, modulo the range of a lane.
    I8x16Neg,
    /// i8x16.popcnt: how many bits of each lane are set.
    I8x16Popcnt,
    /// i16x8.abs: the absolute value of each lane, modulo the range of a lane.
    I16x8Abs,
    /// i16x8.neg: each lane negated, modulo the range of a lane.
    I16x8Neg,
    /// i16x8.extadd_pairwise_i8x16_s: the sums of neighbouring signed lanes, in lanes twice as wide.
    I16x8ExtaddPairwiseI8x16S,
    /// i16x8.extadd_pairwise_i8x16_u: the sums of neighbouring unsigned lanes, in lanes twice as wide.
    I16x8ExtaddPairwiseI8x16U,
    /// i16x8.extend_low_i8x16_s: the low half of the signed lanes, in lanes twice as wide.
    I16x8ExtendLowI8x16S,
    /// i16x8.extend_high_i8x16_s: the high half of the signed lanes, in lanes twice as wide.
    I16x8ExtendHighI8x16S,
    /// i16x8.extend_low_i8x16_u: the low half of the unsigned lanes, in lanes twice as wide.
    I16x8ExtendLowI8x16U,
    /// i16x8.extend_high_i8x16_u: the high half of the unsigned lanes, in lanes twice as wide.
    I16x8ExtendHighI8x16U,
    /// i32x4.abs: the absolute value of each lane, modulo the range of a lane.
    I32x4Abs,
    /// i32x4.neg: each lane negated, modulo the range of a lane.
    I32x4Neg,
    /// i32x4.extadd_pairwise_i16x8_s: the sums of neighbouring signed lanes, in lanes twice as wide.
    I32x4ExtaddPairwiseI16x8S,
    /// i32x4.extadd_pairwise_i16x8_u: the sums of neighbouring unsigned lanes, in lanes twice as wide.
    I32x4ExtaddPairwiseI16x8U,
    /// i32x4.extend_low_i16x8_s: the low half of the signed lanes, in lanes twice as wide.
    I32x4ExtendLowI16x8S,
    /// i32x4.extend_high_i16x8_s: the high half of the signed lanes, in lanes twice as wide.
    I32x4ExtendHighI16x8S,
    /// i32x4.extend_low_i16x8_u: the low half of the unsigned lanes, in lanes twice as wide.
    I32x4ExtendLowI16x8U,
    /// i32x4.extend_high_i16x8_u: the high half of the unsigned lanes, in lanes twice as wide.
    I32x4ExtendHighI16x8U,
    /// i64x2.abs: the absolute value of each lane, modulo the range of a lane.
    I64x2Abs,
    /// i64x2.neg: each lane negated, modulo the range of a lane.
    I64x2Neg,
    /// i64x2.extend_low_i32x4_s: the low half of the signed lanes, in lanes twice as wide.
    I64x2ExtendLowI32x4S,
    /// i64x2.extend_high_i32x4_s: the high half of the signed lanes, in lanes twice as wide.
    I64x2ExtendHighI32x4S,
    /// i64x2.extend_low_i32x4_u: the low half of the unsigned lanes, in lanes twice as wide.
    I64x2ExtendLowI32x4U,
    /// i64x2.extend_high_i32x4_u: the high half of the unsigned lanes, in lanes twice as wide.
    I64x2ExtendHighI32x4U,
}

/// A vector from a vector and an i32, the count, which is taken modulo the width of a lane
/// (the standard's "Vector Instructions", shifts).
#[derive(Clone, Copy, Debug, PartialEq, Eq)]
pub enum LaneShift {
    /// i8x16.shl: each lane shifted to the left.
    I8x16Shl,
    /// i8x16.shr_s: each lane shifted to the right, with copies of its sign.
    I8x16ShrS,
    /// i8x16.shr_u: each lane shifted to the right, with zeros.
    I8x16ShrU,
    /// i16x8.shl: each lane shifted to the left.
    I16x8Shl,
    /// i16x8.shr_s: each lane shifted to the right, with copies of its sign.
    I16x8ShrS,
    /// i16x8.shr_u: each lane shifted to the right, with zeros.
    I16x8ShrU,
    /// i32x4.shl: each lane shifted to the left.
    I32x4Shl,
    /// i32x4.shr_s: each lane shifted to the right, with copies of its sign.
    I32x4ShrS,
    /// i32x4.shr_u: each lane shifted to the right, with zeros.
    I32x4ShrU,
    /// i64x2.shl: each lane shifted to the left.
    I64x2Shl,
    /// i64x2.shr_s: each lane shifted to the right, with copies of its sign.
    I64x2ShrS,
    /// i64x2.shr_u: each lane shifted to the right, with zeros.
    I64x2ShrU,
}

/// An i32 from one vector (the standard's "Vector Instructions", tests and bit masks).
#[derive(Clone, Copy, Debug, PartialEq, Eq)]
pub enum LaneTest {
    /// v128.any_true: 1 where a bit is set, else 0.
    V128AnyTrue,
    /// i8x16.all_true: 1 where no lane is 0, else 0.
    I8x16AllTrue,
    /// i8x16.bitmask: the top bit of lane i as bit i.
    I8x16Bitmask,
    /// i16x8.all_true: 1 where no lane is 0, else 0.
    I16x8AllTrue,
    /// i16x8.bitmask: the top bit of lane i as bit i.
    I16x8Bitmask,
    /// i32x4.all_true: 1 where no lane is 0, else 0.
    I32x4AllTrue,
    /// i32x4.bitmask: the top bit of lane i as bit i.
    I32x4Bitmask,
    /// i64x2.all_true: 1 where no lane is 0, else 0.
    I64x2AllTrue,
    /// i64x2.bitmask: the top bit of lane i as bit i.
    I64x2Bitmask,
}
