/// A vector from two vectors (the standard's "Vector Instructions", binary operators, comparisons and narrowing).
#[derive(Clone, Copy, Debug, PartialEq, Eq)]
pub enum Lane2 {
    /// i8x16.swizzle: lanes of the first operand by the places in the second; 0 for a place of 16 or more.
    I8x16Swizzle,
    /// i8x16.eq: all ones in each lane where the first is equal, else zeros.
    I8x16Eq,
    /// i8x16.ne: all ones in each lane where the first is not equal, else zeros.
    I8x16Ne,
    /// i8x16.lt_s: all ones in each lane where the first is less, signed, else zeros.
    I8x16LtS,
    /// i8x16.lt_u: all ones in each lane where the first is less, unsigned, else zeros.
    I8x16LtU,
    /// i8x16.gt_s: all ones in each lane where the first is greater, signed, else zeros.
    I8x16GtS,
    /// i8x16.gt_u: all ones in each lane where the first is greater, unsigned, else zeros.
    I8x16GtU,
    /// i8x16.le_s: all ones in each lane where the first is less or equal, signed, else zeros.
    I8x16LeS,
    /// i8x16.le_u: all ones in each lane where the first is less or equal, unsigned, else zeros.
    I8x16LeU,
    /// i8x16.ge_s: all ones in each lane where the first is greater or equal, signed, else zeros.
    I8x16GeS,
    /// i8x16.ge_u: all ones in each lane where the first is greater or equal, unsigned, else zeros.
    I8x16GeU,
    /// i16x8.eq: all ones in each lane where the first is equal, else zeros.
    I16x8Eq,
    /// i16x8.ne: all ones in each lane where the first is not equal, else zeros.
    I16x8Ne,
    /// i16x8.lt_s: all ones in each lane where the first is less, signed, else zeros.
    I16x8LtS,
    /// i16x8.lt_u: all ones in each lane where the first is less, unsigned, else zeros.
    I16x8LtU,
    /// i16x8.gt_s: all ones in each lane where the first is greater, signed, else zeros.
    I16x8GtS,
    /// i16x8.gt_u: all ones in each lane where the first is greater, unsigned, else zeros.
    I16x8GtU,
    /// i16x8.le_s: all ones in each lane where the first is less or equal, signed, else zeros.
    I16x8LeS,
    /// i16x8.le_u: all ones in each lane where the first is less or equal, unsigned, else zeros.
    I16x8LeU,
    /// i16x8.ge_s: all ones in each lane where the first is greater or equal, signed, else zeros.
    I16x8GeS,
    /// i16x8.ge_u: all ones in each lane where the first is greater or equal, unsigned, else zeros.
    I16x8GeU,
    /// i32x4.eq: all ones in each lane where the first is equal, else zeros.
    I32x4Eq,
    /// i32x4.ne: all ones in each lane where the first is not equal, else zeros.
    I32x4Ne,
    /// i32x4.lt_s: all ones in each lane where the first is less, signed, else zeros.
    I32x4LtS,
    /// i32x4.lt_u: all ones in each lane where the first is less, unsigned, else zeros.
    I32x4LtU,
    /// i32x4.gt_s: all ones in each lane where the first is greater, signed, else zeros.
    I32x4GtS,
    /// i32x4.gt_u: all ones in each lane where the first is greater, unsigned, else zeros.
    I32x4GtU,
    /// i32x4.le_s: all ones in each lane where the first is less or equal, signed, else zeros.
    I32x4LeS,
    /// i32x4.le_u: all ones in each lane where the first is less or equal, unsigned, else zeros.
    I32x4LeU,
    /// i32x4.ge_s: all ones in each lane where the first is greater or equal, signed, else zeros.
    I32x4GeS,
    /// i32x4.ge_u: all ones in each lane where the first is greater or equal, unsigned, else zeros.
    I32x4GeU,
    /// i64x2.eq: all ones in each lane where the first is equal, else zeros.
    I64x2Eq,
    /// i64x2.ne: all ones in each lane where the first is not equal, else zeros.
    I64x2Ne,
    /// i64x2.lt_s: all ones in each lane where the first is less, signed, else zeros.
    I64x2LtS,
    /// i64x2.gt_s: all ones in each lane where the first is greater, signed, else zeros.
    I64x2GtS,
    /// i64x2.le_s: all ones in each lane where the first is less or equal, signed, else zeros.
    I64x2LeS,
    /// i64x2.ge_s: all ones in each lane where the first is greater or equal, signed, else zeros.
    I64x2GeS,
    /// v128.and: the bits that both have.
    V128And,
    /// v128.andnot: the bits of the first that the second lacks.
    V128Andnot,
    /// v128.or: the bits that either has.
    V128Or,
    /// v128.xor: the bits that one of both has.
    V128Xor,
    /// i8x16.narrow_i16x8_s: both operands' signed lanes in lanes half as wide, saturated to signed numbers; the first operand low.
    I8x16NarrowI16x8S,
    /// i8x16.narrow_i16x8_u: both operands' signed lanes in lanes half as wide, saturated to unsigned numbers; the first operand low.
    I8x16NarrowI16x8U,
    /// i16x8.narrow_i32x4_s: both operands' signed lanes in lanes half as wide, saturated to signed numbers; the first operand low.
    I16x8NarrowI32x4S,
    /// i16x8.narrow_i32x4_u: both operands' signed lanes in lanes half as wide, saturated to unsigned numbers; the first operand low.
    I16x8NarrowI32x4U,
    /// i8x16.add: sums of lanes, modulo their range.
    I8x16Add,
    /// i8x16.add_sat_s: sums of signed lanes, saturated.
    I8x16AddSatS,
    /// i8x16.add_sat_u: sums of unsigned lanes, saturated.
    I8x16AddSatU,
    /// i8x16.sub: differences of lanes, modulo their range.
    I8x16Sub,
    /// i8x16.sub_sat_s: differences of signed lanes, saturated.
    I8x16SubSatS,
    /// i8x16.sub_sat_u: differences of unsigned lanes, saturated.
    I8x16SubSatU,
    /// i8x16.min_s: the lesser of both signed lanes.
    I8x16MinS,
    /// i8x16.min_u: the lesser of both unsigned lanes.
    I8x16MinU,
    /// i8x16.max_s: the greater of both signed lanes.
    I8x16MaxS,
    /// i8x16.max_u: the greater of both unsigned lanes.
    I8x16MaxU,
    /// i8x16.avgr_u: averages of unsigned lanes, rounded up.
    I8x16AvgrU,
    /// i16x8.add: sums of lanes, modulo their range.
    I16x8Add,
    /// i16x8.add_sat_s: sums of signed lanes, saturated.
    I16x8AddSatS,
    /// i16x8.add_sat_u: sums of unsigned lanes, saturated.
    I16x8AddSatU,
    /// i16x8.sub: differences of lanes, modulo their range.
    I16x8Sub,
    /// i16x8.sub_sat_s: differences of signed lanes, saturated.
    I16x8SubSatS,
    /// i16x8.sub_sat_u: differences of unsigned lanes, saturated.
    I16x8SubSatU,
    /// i16x8.mul: products of lanes, modulo their range.
    I16x8Mul,
    /// i16x8.min_s: the lesser of both signed lanes.
    I16x8MinS,
    /// i16x8.min_u: the lesser of both unsigned lanes.
    I16x8MinU,
    /// i16x8.max_s: the greater of both signed lanes.
    I16x8MaxS,
    /// i16x8.max_u: the greater of both unsigned lanes.
    I16x8MaxU,
    /// i16x8.avgr_u: averages of unsigned lanes, rounded up.
    I16x8AvgrU,
    /// i16x8.q15mulr_sat_s: products of signed fixed-point lanes with 15 fraction bits, rounded and saturated.
    I16x8Q15mulrSatS,
    /// i16x8.extmul_low_i8x16_s: products of the low halves of the signed lanes, in lanes twice as wide.
    I16x8ExtmulLowI8x16S,
    /// i16x8.extmul_high_i8x16_s: products of the high halves of the signed lanes, in lanes twice as wide.
    I16x8ExtmulHighI8x16S,
    /// i16x8.extmul_low_i8x16_u: products of the low halves of the unsigned lanes, in lanes twice as wide.
    I16x8ExtmulLowI8x16U,
    /// i16x8.extmul_high_i8x16_u: products of the high halves of the unsigned lanes, in lanes twice as wide.
    I16x8ExtmulHighI8x16U,
    /// i32x4.add: sums of lanes, modulo their range.
    I32x4Add,
    /// i32x4.sub: differences of lanes, modulo their range.
    I32x4Sub,
    /// i32x4.mul: products of lanes, modulo their range.
    I32x4Mul,
    /// i32x4.min_s: the lesser of both signed lanes.
    I32x4MinS,
    /// i32x4.min_u: the lesser of both unsigned lanes.
    I32x4MinU,
    /// i32x4.max_s: the greater of both signed lanes.
    I32x4MaxS,
    /// i32x4.max_u: the greater of both unsigned lanes.
    I32x4MaxU,
    /// i32x4.dot_i16x8_s: sums of the products of two neighbouring signed lanes, modulo 2^32.
    I32x4DotI16x8S,
    /// i32x4.extmul_low_i16x8_s: products of the low halves of the signed lanes, in lanes twice as wide.
    I32x4ExtmulLowI16x8S,
    /// i32x4.extmul_high_i16x8_s: products of the high halves of the signed lanes, in lanes twice as wide.
    I32x4ExtmulHighI16x8S,
    /// i32x4.extmul_low_i16x8_u: products of the low halves of the unsigned lanes, in lanes twice as wide.
    I32x4ExtmulLowI16x8U,
    /// i32x4.extmul_high_i16x8_u: products of the high halves of the unsigned lanes, in lanes twice as wide.
    I32x4ExtmulHighI16x8U,
    /// i64x2.add: sums of lanes, modulo their range.
    I64x2Add,
    /// i64x2.sub: differences of lanes, modulo their range.
    I64x2Sub,
    /// i64x2.mul: products of lanes, modulo their range.
    I64x2Mul,
    /// i64x2.extmul_low_i32x4_s: products of the low halves of the signed lanes, in lanes twice as wide.
    I64x2ExtmulLowI32x4S,
    /// i64x2.extmul_high_i32x4_s: products of the high halves of the signed lanes, in lanes twice as wide.
    I64x2ExtmulHighI32x4S,
    /// i64x2.extmul_low_i32x4_u: products of the low halves of the unsigned lanes, in lanes twice as wide.
    I64x2ExtmulLowI32x4U,
    /// i64x2.extmul_high_i32x4_u: products of the high halves of the unsigned lanes, in lanes twice as wide.
    I64x2ExtmulHighI32x4U,
}
