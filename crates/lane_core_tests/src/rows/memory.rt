// What loads and stores make of bytes. Bytes and an operand are given by their numbers.
use lane_core::operators::LaneLoad;
use lane_core::vector::Shape;

/// The bytes, and the vector.
pub static LOADS: [(LaneLoad, usize, u128); 39] = [
    (
        LaneLoad::Whole,
        0,
        0xc0_03_aa_55_f0_10_80_00_7f_fe_81_01_00_ff_7f_80,
    ),
    (
        LaneLoad::Whole,
        1,
        0x80_00_00_00_80_00_00_01_7f_ff_ff_ff_80_00_7f_ff,
    ),
    (
        LaneLoad::Whole,
        2,
        0x7f_ff_ff_ff_ff_ff_ff_ff_80_00_00_7f_80_80_00_01,
    ),
    (
        LaneLoad::Load8x8S,
        0,
        0x007f_fffe_ff81_0001_0000_ffff_007f_ff80,
    ),
    (
        LaneLoad::Load8x8S,
        1,
        0x007f_ffff_ffff_ffff_ff80_0000_007f_ffff,
    ),
    (
        LaneLoad::Load8x8S,
        2,
        0xff80_0000_0000_007f_ff80_ff80_0000_0001,
    ),
    (
        LaneLoad::Load8x8U,
        0,
        0x007f_00fe_0081_0001_0000_00ff_007f_0080,
    ),
    (
        LaneLoad::Load8x8U,
        1,
        0x007f_00ff_00ff_00ff_0080_0000_007f_00ff,
    ),
    (
        LaneLoad::Load8x8U,
        2,
        0x0080_0000_0000_007f_0080_0080_0000_0001,
    ),
    (
        LaneLoad::Load16x4S,
        0,
        0x00007ffe_ffff8101_000000ff_00007f80,
    ),
    (
        LaneLoad::Load16x4S,
        1,
        0x00007fff_ffffffff_ffff8000_00007fff,
    ),
    (
        LaneLoad::Load16x4S,
        2,
        0xffff8000_0000007f_ffff8080_00000001,
    ),
    (
        LaneLoad::Load16x4U,
        0,
        0x00007ffe_00008101_000000ff_00007f80,
    ),
    (
        LaneLoad::Load16x4U,
        1,
        0x00007fff_0000ffff_00008000_00007fff,
    ),
    (
        LaneLoad::Load16x4U,
        2,
        0x00008000_0000007f_00008080_00000001,
    ),
    (LaneLoad::Load32x2S, 0, 0x000000007ffe8101_0000000000ff7f80),
    (LaneLoad::Load32x2S, 1, 0x000000007fffffff_ffffffff80007fff),
    (LaneLoad::Load32x2S, 2, 0xffffffff8000007f_ffffffff80800001),
    (LaneLoad::Load32x2U, 0, 0x000000007ffe8101_0000000000ff7f80),
    (LaneLoad::Load32x2U, 1, 0x000000007fffffff_0000000080007fff),
    (LaneLoad::Load32x2U, 2, 0x000000008000007f_0000000080800001),
    (
        LaneLoad::Load8Splat,
        0,
        0x80_80_80_80_80_80_80_80_80_80_80_80_80_80_80_80,
    ),
    (
        LaneLoad::Load8Splat,
        1,
        0xff_ff_ff_ff_ff_ff_ff_ff_ff_ff_ff_ff_ff_ff_ff_ff,
    ),
    (
        LaneLoad::Load8Splat,
        2,
        0x01_01_01_01_01_01_01_01_01_01_01_01_01_01_01_01,
    ),
    (
        LaneLoad::Load16Splat,
        0,
        0x7f80_7f80_7f80_7f80_7f80_7f80_7f80_7f80,
    ),
    (
        LaneLoad::Load16Splat,
        1,
        0x7fff_7fff_7fff_7fff_7fff_7fff_7fff_7fff,
    ),
    (
        LaneLoad::Load16Splat,
        2,
        0x0001_0001_0001_0001_0001_0001_0001_0001,
    ),
    (
        LaneLoad::Load32Splat,
        0,
        0x00ff7f80_00ff7f80_00ff7f80_00ff7f80,
    ),
    (
        LaneLoad::Load32Splat,
        1,
        0x80007fff_80007fff_80007fff_80007fff,
    ),
    (
        LaneLoad::Load32Splat,
        2,
        0x80800001_80800001_80800001_80800001,
    ),
    (
        LaneLoad::Load64Splat,
        0,
        0x7ffe810100ff7f80_7ffe810100ff7f80,
    ),
    (
        LaneLoad::Load64Splat,
        1,
        0x7fffffff80007fff_7fffffff80007fff,
    ),
    (
        LaneLoad::Load64Splat,
        2,
        0x8000007f80800001_8000007f80800001,
    ),
    (
        LaneLoad::Load32Zero,
        0,
        0x00000000_00000000_00000000_00ff7f80,
    ),
    (
        LaneLoad::Load32Zero,
        1,
        0x00000000_00000000_00000000_80007fff,
    ),
    (
        LaneLoad::Load32Zero,
        2,
        0x00000000_00000000_00000000_80800001,
    ),
    (LaneLoad::Load64Zero, 0, 0x0000000000000000_7ffe810100ff7f80),
    (LaneLoad::Load64Zero, 1, 0x0000000000000000_7fffffff80007fff),
    (LaneLoad::Load64Zero, 2, 0x0000000000000000_8000007f80800001),
];

/// The operand, the lane, the bytes, and the result.
pub static LANE_LOADS: [(Shape, usize, u8, usize, u128); 12] = [
    (
        Shape::I8x16,
        0,
        3,
        0,
        0x3f_02_f0_0f_10_c0_40_aa_55_ff_fe_81_80_7f_01_00,
    ),
    (
        Shape::I8x16,
        1,
        15,
        1,
        0xff_7e_02_fe_ff_7f_80_01_00_00_ff_ff_7f_7f_80_80,
    ),
    (
        Shape::I8x16,
        2,
        8,
        2,
        0x80_c0_3f_00_81_7f_ff_01_7f_fe_00_01_80_ff_01_7f,
    ),
    (
        Shape::I16x8,
        3,
        3,
        0,
        0x0100_00ff_ffff_8001_7f80_7fff_0001_0000,
    ),
    (
        Shape::I16x8,
        4,
        7,
        1,
        0x7fff_ffff_0100_00ff_ff7f_ff80_0080_007f,
    ),
    (
        Shape::I16x8,
        5,
        0,
        2,
        0x4001_0000_ffff_ffff_7fff_7fff_8000_0001,
    ),
    (Shape::I32x4, 6, 2, 0, 0xffffffff_00ff7f80_7fffffff_00000000),
    (Shape::I32x4, 7, 3, 1, 0x80007fff_ffff8000_00008000_00007fff),
    (Shape::I32x4, 8, 0, 2, 0x00000001_7fffffff_80000001_80800001),
    (Shape::I64x2, 9, 1, 0, 0x7ffe810100ff7f80_0000000000000000),
    (Shape::I64x2, 10, 0, 1, 0xffffffffffffffff_7fffffff80007fff),
    (Shape::I64x2, 11, 0, 2, 0x00000000ffffffff_8000007f80800001),
];

/// The operand, the lane, and the bytes.
pub static LANE_STORES: [(Shape, usize, u8, &[u8]); 12] = [
    (Shape::I8x16, 0, 3, &[0x80]),
    (Shape::I8x16, 1, 15, &[0x81]),
    (Shape::I8x16, 2, 8, &[0x80]),
    (Shape::I16x8, 3, 3, &[0x00, 0x80]),
    (Shape::I16x8, 4, 7, &[0x00, 0x80]),
    (Shape::I16x8, 5, 0, &[0x00, 0x80]),
    (Shape::I32x4, 6, 2, &[0x00, 0x00, 0x00, 0x80]),
    (Shape::I32x4, 7, 3, &[0xff, 0x7f, 0xff, 0xff]),
    (Shape::I32x4, 8, 0, &[0x00, 0x00, 0x00, 0x80]),
    (
        Shape::I64x2,
        9,
        1,
        &[0xff, 0xff, 0xff, 0xff, 0xff, 0xff, 0xff, 0x7f],
    ),
    (
        Shape::I64x2,
        10,
        0,
        &[0x00, 0x00, 0x00, 0x00, 0x00, 0x00, 0x00, 0x80],
    ),
    (
        Shape::I64x2,
        11,
        0,
        &[0x01, 0x00, 0x00, 0x00, 0x00, 0x00, 0x00, 0x80],
    ),
];

/// The vector, and its bytes.
pub static STORES: [(u128, [u8; 16]); 3] = [
    (
        0x3f_02_f0_0f_10_c0_40_aa_55_ff_fe_81_80_7f_01_00,
        [
            0x00, 0x01, 0x7f, 0x80, 0x81, 0xfe, 0xff, 0x55, 0xaa, 0x40, 0xc0, 0x10, 0x0f, 0xf0,
            0x02, 0x3f,
        ],
    ),
    (
        0x80_00_ff_ff_01_00_00_ff_ff_7f_ff_80_00_80_00_7f,
        [
            0x7f, 0x00, 0x80, 0x00, 0x80, 0xff, 0x7f, 0xff, 0xff, 0x00, 0x00, 0x01, 0xff, 0xff,
            0x00, 0x80,
        ],
    ),
    (
        0x00_00_00_00_ff_ff_ff_ff_80_00_00_00_00_00_00_01,
        [
            0x01, 0x00, 0x00, 0x00, 0x00, 0x00, 0x00, 0x80, 0xff, 0xff, 0xff, 0xff, 0x00, 0x00,
            0x00, 0x00,
        ],
    ),
];
