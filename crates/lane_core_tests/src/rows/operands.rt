// Operands with lanes at the edges of their width: three pairs for lanes of 8, 16, 32 and 64 bits, and three of bytes and
// places.

pub static PAIRS: [(u128, u128); 15] = [
    (
        0x3f_02_f0_0f_10_c0_40_aa_55_ff_fe_81_80_7f_01_00,
        0xc1_81_10_f1_f0_bf_40_55_aa_ff_01_80_80_7f_ff_00,
    ),
    (
        0x81_7e_02_fe_ff_7f_80_01_00_00_ff_ff_7f_7f_80_80,
        0xff_02_fe_7f_80_01_01_ff_7f_80_01_00_7f_80_7f_80,
    ),
    (
        0x80_c0_3f_00_81_7f_ff_80_7f_fe_00_01_80_ff_01_7f,
        0x01_c0_41_ff_7f_7f_ff_80_fe_7f_01_00_ff_80_7f_01,
    ),
    (
        0x0100_00ff_ffff_8001_8000_7fff_0001_0000,
        0x007f_ff80_0001_7fff_8000_7fff_ffff_0000,
    ),
    (
        0x8000_ffff_0100_00ff_ff7f_ff80_0080_007f,
        0x0001_8001_0081_fffe_c000_4000_8000_7fff,
    ),
    (
        0x4001_0000_ffff_ffff_7fff_7fff_8000_8000,
        0x0002_7fff_ffff_8000_0001_8000_8000_8000,
    ),
    (
        0xffffffff_80000000_7fffffff_00000000,
        0xffffffff_80000000_00000001_ffffffff,
    ),
    (
        0xffff7fff_ffff8000_00008000_00007fff,
        0xfffffffe_80000001_00010000_0000ffff,
    ),
    (
        0x00000001_7fffffff_80000001_80000000,
        0x80000000_7fffffff_ffffffff_7fffffff,
    ),
    (
        0x7fffffffffffffff_0000000000000000,
        0x0000000000000001_ffffffffffffffff,
    ),
    (
        0xffffffffffffffff_8000000000000000,
        0xfffffffffffffffe_8000000000000000,
    ),
    (
        0x00000000ffffffff_8000000000000001,
        0x0000000100000001_7fffffffffffffff,
    ),
    (
        0x3f_02_f0_0f_10_c0_40_aa_55_ff_fe_81_80_7f_01_00,
        0x07_40_20_1f_03_02_7f_0d_0e_80_ff_11_10_0f_01_00,
    ),
    (
        0x81_7e_02_fe_ff_7f_80_01_00_00_ff_ff_7f_7f_80_80,
        0x00_01_02_03_04_05_06_07_08_09_0a_0b_0c_0d_0e_0f,
    ),
    (
        0x80_c0_3f_00_81_7f_ff_80_7f_fe_00_01_80_ff_01_7f,
        0x0f_0f_0f_0f_0f_0f_0f_0f_10_10_10_10_10_10_10_10,
    ),
];

/// Bytes of a memory.
pub static BYTES: [[u8; 16]; 3] = [
    [
        0x80, 0x7f, 0xff, 0x00, 0x01, 0x81, 0xfe, 0x7f, 0x00, 0x80, 0x10, 0xf0, 0x55, 0xaa, 0x03,
        0xc0,
    ],
    [
        0xff, 0x7f, 0x00, 0x80, 0xff, 0xff, 0xff, 0x7f, 0x01, 0x00, 0x00, 0x80, 0x00, 0x00, 0x00,
        0x80,
    ],
    [
        0x01, 0x00, 0x80, 0x80, 0x7f, 0x00, 0x00, 0x80, 0xff, 0xff, 0xff, 0xff, 0xff, 0xff, 0xff,
        0x7f,
    ],
];
