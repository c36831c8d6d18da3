// What operators that move lanes give. An operand is given by its number.
use lane_core::operators::LaneExtract;
use lane_core::vector::Shape;

/// The operand, the lane, and the integer.
pub static EXTRACTS: [(LaneExtract, usize, u8, u64); 18] = [
    (LaneExtract::I8x16S, 0, 3, 0xffffff80),
    (LaneExtract::I8x16S, 1, 15, 0xffffff81),
    (LaneExtract::I8x16S, 2, 8, 0xffffff80),
    (LaneExtract::I8x16U, 0, 3, 0x80),
    (LaneExtract::I8x16U, 1, 15, 0x81),
    (LaneExtract::I8x16U, 2, 8, 0x80),
    (LaneExtract::I16x8S, 3, 3, 0xffff8000),
    (LaneExtract::I16x8S, 4, 7, 0xffff8000),
    (LaneExtract::I16x8S, 5, 0, 0xffff8000),
    (LaneExtract::I16x8U, 3, 3, 0x8000),
    (LaneExtract::I16x8U, 4, 7, 0x8000),
    (LaneExtract::I16x8U, 5, 0, 0x8000),
    (LaneExtract::I32x4, 6, 2, 0x80000000),
    (LaneExtract::I32x4, 7, 3, 0xffff7fff),
    (LaneExtract::I32x4, 8, 0, 0x80000000),
    (LaneExtract::I64x2, 9, 1, 0x7fffffffffffffff),
    (LaneExtract::I64x2, 10, 0, 0x8000000000000000),
    (LaneExtract::I64x2, 11, 0, 0x8000000000000001),
];

/// The operand, the lane, the integer, and the result.
pub static REPLACES: [(Shape, usize, u8, u64, u128); 12] = [
    (
        Shape::I8x16,
        0,
        3,
        0xfedcba9876543210,
        0x3f_02_f0_0f_10_c0_40_aa_55_ff_fe_81_10_7f_01_00,
    ),
    (
        Shape::I8x16,
        1,
        15,
        0x8000000080008080,
        0x80_7e_02_fe_ff_7f_80_01_00_00_ff_ff_7f_7f_80_80,
    ),
    (
        Shape::I8x16,
        2,
        8,
        0x7fffffff7fff7f7f,
        0x80_c0_3f_00_81_7f_ff_7f_7f_fe_00_01_80_ff_01_7f,
    ),
    (
        Shape::I16x8,
        3,
        3,
        0xfedcba9876543210,
        0x0100_00ff_ffff_8001_3210_7fff_0001_0000,
    ),
    (
        Shape::I16x8,
        4,
        7,
        0x8000000080008080,
        0x8080_ffff_0100_00ff_ff7f_ff80_0080_007f,
    ),
    (
        Shape::I16x8,
        5,
        0,
        0x7fffffff7fff7f7f,
        0x4001_0000_ffff_ffff_7fff_7fff_8000_7f7f,
    ),
    (
        Shape::I32x4,
        6,
        2,
        0xfedcba9876543210,
        0xffffffff_76543210_7fffffff_00000000,
    ),
    (
        Shape::I32x4,
        7,
        3,
        0x8000000080008080,
        0x80008080_ffff8000_00008000_00007fff,
    ),
    (
        Shape::I32x4,
        8,
        0,
        0x7fffffff7fff7f7f,
        0x00000001_7fffffff_80000001_7fff7f7f,
    ),
    (
        Shape::I64x2,
        9,
        1,
        0xfedcba9876543210,
        0xfedcba9876543210_0000000000000000,
    ),
    (
        Shape::I64x2,
        10,
        0,
        0x8000000080008080,
        0xffffffffffffffff_8000000080008080,
    ),
    (
        Shape::I64x2,
        11,
        0,
        0x7fffffff7fff7f7f,
        0x00000000ffffffff_7fffffff7fff7f7f,
    ),
];

/// The integer, and the result.
pub static SPLATS: [(Shape, u64, u128); 12] = [
    (
        Shape::I8x16,
        0xfedcba9876543210,
        0x10_10_10_10_10_10_10_10_10_10_10_10_10_10_10_10,
    ),
    (
        Shape::I8x16,
        0x8000000080008080,
        0x80_80_80_80_80_80_80_80_80_80_80_80_80_80_80_80,
    ),
    (
        Shape::I8x16,
        0x7fffffff7fff7f7f,
        0x7f_7f_7f_7f_7f_7f_7f_7f_7f_7f_7f_7f_7f_7f_7f_7f,
    ),
    (
        Shape::I16x8,
        0xfedcba9876543210,
        0x3210_3210_3210_3210_3210_3210_3210_3210,
    ),
    (
        Shape::I16x8,
        0x8000000080008080,
        0x8080_8080_8080_8080_8080_8080_8080_8080,
    ),
    (
        Shape::I16x8,
        0x7fffffff7fff7f7f,
        0x7f7f_7f7f_7f7f_7f7f_7f7f_7f7f_7f7f_7f7f,
    ),
    (
        Shape::I32x4,
        0xfedcba9876543210,
        0x76543210_76543210_76543210_76543210,
    ),
    (
        Shape::I32x4,
        0x8000000080008080,
        0x80008080_80008080_80008080_80008080,
    ),
    (
        Shape::I32x4,
        0x7fffffff7fff7f7f,
        0x7fff7f7f_7fff7f7f_7fff7f7f_7fff7f7f,
    ),
    (
        Shape::I64x2,
        0xfedcba9876543210,
        0xfedcba9876543210_fedcba9876543210,
    ),
    (
        Shape::I64x2,
        0x8000000080008080,
        0x8000000080008080_8000000080008080,
    ),
    (
        Shape::I64x2,
        0x7fffffff7fff7f7f,
        0x7fffffff7fff7f7f_7fffffff7fff7f7f,
    ),
];

/// The places, and the result: the operands are the pair of the same number.
pub static SHUFFLES: [([u8; 16], u128); 3] = [
    (
        [0, 31, 15, 16, 1, 30, 14, 17, 2, 29, 13, 18, 3, 28, 12, 19],
        0x80_0f_f1_80_7f_f0_10_7f_ff_02_81_01_00_3f_c1_00,
    ),
    (
        [0, 1, 2, 3, 4, 5, 6, 7, 8, 9, 10, 11, 12, 13, 14, 15],
        0x81_7e_02_fe_ff_7f_80_01_00_00_ff_ff_7f_7f_80_80,
    ),
    (
        [
            16, 16, 16, 16, 16, 16, 16, 16, 31, 31, 31, 31, 15, 15, 15, 15,
        ],
        0x80_80_80_80_01_01_01_01_01_01_01_01_01_01_01_01,
    ),
];

/// The operands and the result.
pub static BITSELECTS: [(u128, u128, u128, u128); 3] = [
    (
        0x3f02f00f10c040aa_55fffe81807f0100,
        0xc18110f1f0bf4055_aaff0180807fff00,
        0x817e02feff7f8001_0000ffff7f7f8080,
        0x4183100f10c04054_aafffe81807f7f00,
    ),
    (
        0xffffffffffffffff_ffffffffffffffff,
        0x0000000000000000_0000000000000000,
        0x007fff8000017fff_80007fffffff0000,
        0x007fff8000017fff_80007fffffff0000,
    ),
    (
        0x7fffffffffffffff_0000000000000000,
        0xfffffffffffffffe_8000000000000000,
        0x8000000000000000_0000000000000001,
        0x7ffffffffffffffe_8000000000000000,
    ),
];
