// The integer operators as calls, on rows like those of the standard's test suite, whose values were computed apart.

use num_core::operations::{binary, compare, convert, eqz, unary};
use num_core::operators::{Bin, Cmp, Conv, Un, Width};

static BINARY32: [(Bin, u32, u32, Option<u64>); 35] = [
    (Bin::Add, 0x7FFF_FFFF, 1, Some(0x8000_0000)),
    (Bin::Sub, 0x8000_0000, 1, Some(0x7FFF_FFFF)),
    (Bin::Mul, 0x0123_4567, 0x7654_3210, Some(0x358E_7470)),
    (Bin::DivS, 0x8000_0000, 0xFFFF_FFFF, None),
    (Bin::DivS, 1, 0, None),
    (Bin::DivS, 0xFFFF_FFFB, 2, Some(0xFFFF_FFFE)),
    (Bin::DivS, 0x8000_0001, 0x3E8, Some(0xFFDF_3B65)),
    (Bin::DivU, 0x8000_0000, 0xFFFF_FFFF, Some(0)),
    (Bin::DivU, 0x8FF0_0FF0, 0x0001_0001, Some(0x8FEF)),
    (Bin::DivU, 1, 0, None),
    (Bin::RemS, 0x8000_0000, 0xFFFF_FFFF, Some(0)),
    (Bin::RemS, 0xFFFF_FFFB, 2, Some(0xFFFF_FFFF)),
    (Bin::RemS, 5, 0xFFFF_FFFE, Some(1)),
    (Bin::RemS, 1, 0, None),
    (Bin::RemU, 0x8FF0_0FF0, 0x0001_0001, Some(0x8001)),
    (Bin::RemU, 1, 0, None),
    (Bin::And, 0xF0F0_FFFF, 0xFFFF_F0F0, Some(0xF0F0_F0F0)),
    (Bin::Or, 0xF0F0_FFFF, 0xFFFF_F0F0, Some(0xFFFF_FFFF)),
    (Bin::Xor, 0xF0F0_FFFF, 0xFFFF_F0F0, Some(0x0F0F_0F0F)),
    (Bin::Shl, 1, 0x1F, Some(0x8000_0000)),
    (Bin::Shl, 1, 0x20, Some(1)),
    (Bin::Shl, 1, 0x21, Some(2)),
    (Bin::ShrS, 0x8000_0000, 0x1F, Some(0xFFFF_FFFF)),
    (Bin::ShrS, 0x4000_0000, 1, Some(0x2000_0000)),
    (Bin::ShrS, 0xFFFF_FFFE, 0x21, Some(0xFFFF_FFFF)),
    (Bin::ShrU, 0x8000_0000, 0x1F, Some(1)),
    (Bin::ShrU, 0xFFFF_FFFF, 0x20, Some(0xFFFF_FFFF)),
    (Bin::Rotl, 0xABCD_9876, 1, Some(0x579B_30ED)),
    (Bin::Rotl, 0xB0C1_D2E3, 5, Some(0x183A_5C76)),
    (Bin::Rotl, 0x8000, 0x25, Some(0x0010_0000)),
    (Bin::Rotl, 1, 0x20, Some(1)),
    (Bin::Rotr, 0xFF00_CC00, 1, Some(0x7F80_6600)),
    (Bin::Rotr, 0xB0C1_D2E3, 5, Some(0x1D86_0E97)),
    (Bin::Rotr, 1, 0x20, Some(1)),
    (Bin::Rotr, 1, 1, Some(0x8000_0000)),
];

static BINARY64: [(Bin, u64, u64, Option<u64>); 29] = [
    (
        Bin::Add,
        0x7FFF_FFFF_FFFF_FFFF,
        1,
        Some(0x8000_0000_0000_0000),
    ),
    (
        Bin::Sub,
        0x8000_0000_0000_0000,
        1,
        Some(0x7FFF_FFFF_FFFF_FFFF),
    ),
    (
        Bin::Mul,
        0x0123_4567_89AB_CDEF,
        0xFEDC_BA98_7654_3210,
        Some(0x2236_D88F_E561_8CF0),
    ),
    (
        Bin::DivS,
        0x8000_0000_0000_0000,
        0xFFFF_FFFF_FFFF_FFFF,
        None,
    ),
    (Bin::DivS, 1, 0, None),
    (
        Bin::DivS,
        0x8000_0000_0000_0001,
        0x3E8,
        Some(0xFFDF_3B64_5A1C_AC09),
    ),
    (
        Bin::DivU,
        0x8FF0_0FF0_0FF0_0FF0,
        0x0001_0000_0001,
        Some(0x8FF0_0FEF),
    ),
    (Bin::DivU, 1, 0, None),
    (
        Bin::RemS,
        0x8000_0000_0000_0000,
        0xFFFF_FFFF_FFFF_FFFF,
        Some(0),
    ),
    (
        Bin::RemS,
        0x8000_0000_0000_0001,
        0x3E8,
        Some(0xFFFF_FFFF_FFFF_FCD9),
    ),
    (Bin::RemS, 1, 0, None),
    (
        Bin::RemU,
        0x8FF0_0FF0_0FF0_0FF0,
        0x0001_0000_0001,
        Some(0x8000_0001),
    ),
    (Bin::RemU, 1, 0, None),
    (Bin::And, 0xF0F0_FFFF, 0xFFFF_F0F0, Some(0xF0F0_F0F0)),
    (Bin::Or, 0xF0F0_FFFF, 0xFFFF_F0F0, Some(0xFFFF_FFFF)),
    (Bin::Xor, 0xF0F0_FFFF, 0xFFFF_F0F0, Some(0x0F0F_0F0F)),
    (Bin::Shl, 1, 0x3F, Some(0x8000_0000_0000_0000)),
    (Bin::Shl, 1, 0x40, Some(1)),
    (Bin::Shl, 1, 0x41, Some(2)),
    (
        Bin::ShrS,
        0x8000_0000_0000_0000,
        0x3F,
        Some(0xFFFF_FFFF_FFFF_FFFF),
    ),
    (
        Bin::ShrS,
        0xFFFF_FFFF_FFFF_FFFE,
        0x41,
        Some(0xFFFF_FFFF_FFFF_FFFF),
    ),
    (Bin::ShrU, 0x8000_0000_0000_0000, 0x3F, Some(1)),
    (
        Bin::ShrU,
        0xFFFF_FFFF_FFFF_FFFF,
        0x40,
        Some(0xFFFF_FFFF_FFFF_FFFF),
    ),
    (
        Bin::Rotl,
        0xABCD_9876_0246_8ACE,
        1,
        Some(0x579B_30EC_048D_159D),
    ),
    (
        Bin::Rotl,
        0xFE00_0000_DC00_0000,
        4,
        Some(0xE000_000D_C000_000F),
    ),
    (Bin::Rotl, 1, 0x40, Some(1)),
    (
        Bin::Rotr,
        0xABCD_9876_0246_8ACE,
        1,
        Some(0x55E6_CC3B_0123_4567),
    ),
    (Bin::Rotr, 1, 0x40, Some(1)),
    (Bin::Rotr, 1, 1, Some(0x8000_0000_0000_0000)),
];

#[test]
fn binary_operators(rt: HostRuntime) {
    let mut wrong = 0;
    for (op, a, b, value) in &BINARY32 {
        if binary(Width::W32, *op, (*a).into(), (*b).into()) != *value {
            wrong = 1;
        }
    }
    for (op, a, b, value) in &BINARY64 {
        if binary(Width::W64, *op, *a, *b) != *value {
            wrong = 1;
        }
    }
    assert_eq!(rt; wrong, 0);
}

static UNARY32: [(Un, u32, u64); 10] = [
    (Un::Clz, 0, 32),
    (Un::Clz, 1, 31),
    (Un::Clz, 0x8000, 16),
    (Un::Clz, 0xFFFF_FFFF, 0),
    (Un::Ctz, 0, 32),
    (Un::Ctz, 0x8000, 15),
    (Un::Ctz, 0x8000_0000, 31),
    (Un::Popcnt, 0xAAAA_AAAA, 16),
    (Un::Popcnt, 0xDEAD_BEEF, 24),
    (Un::Popcnt, 0, 0),
];

static UNARY64: [(Un, u64, u64); 7] = [
    (Un::Clz, 0, 64),
    (Un::Clz, 0x8000, 48),
    (Un::Clz, 0xFFFF_FFFF_FFFF_FFFF, 0),
    (Un::Ctz, 0, 64),
    (Un::Ctz, 0x0008_0000_0000, 35),
    (Un::Popcnt, 0xFFFF_FFFF_FFFF_FFFF, 64),
    (Un::Popcnt, 0xDEAD_BEEF_DEAD_BEEF, 48),
];

#[test]
fn unary_operators(rt: HostRuntime) {
    let mut wrong = 0;
    for (op, a, value) in &UNARY32 {
        if unary(Width::W32, *op, (*a).into()) != *value {
            wrong = 1;
        }
    }
    for (op, a, value) in &UNARY64 {
        if unary(Width::W64, *op, *a) != *value {
            wrong = 1;
        }
    }
    assert_eq!(rt; wrong, 0);
}

/// A comparison, and whether it holds of 0 and 0, of 1 and the number whose highest bit alone is set, and of these in the
/// other order.
static COMPARISONS: [(Cmp, [bool; 3]); 10] = [
    (Cmp::Eq, [true, false, false]),
    (Cmp::Ne, [false, true, true]),
    (Cmp::LtS, [false, false, true]),
    (Cmp::LtU, [false, true, false]),
    (Cmp::GtS, [false, true, false]),
    (Cmp::GtU, [false, false, true]),
    (Cmp::LeS, [true, false, true]),
    (Cmp::LeU, [true, true, false]),
    (Cmp::GeS, [true, true, false]),
    (Cmp::GeU, [true, false, true]),
];

#[test]
fn comparisons(rt: HostRuntime) {
    let mut wrong = 0;
    for (op, [same, up, down]) in &COMPARISONS {
        for (width, top) in &[
            (Width::W32, 0x8000_0000),
            (Width::W64, 0x8000_0000_0000_0000),
        ] {
            if !compares(*width, *op, *top, *same, *up, *down) {
                wrong = 1;
            }
        }
    }
    let zeros = eqz(Width::W32, 0) && !eqz(Width::W32, 0x8000_0000) && !eqz(Width::W64, 1 << 63);
    assert!(rt; zeros);
    assert_eq!(rt; wrong, 0);
}

/// Whether a comparison answers so.
fn compares(width: Width, op: Cmp, top: u64, same: bool, up: bool, down: bool) -> bool {
    let top = if let Width::W32 = width {
        top & 0xFFFF_FFFF
    } else {
        top
    };
    compare(width, op, 0, 0) == same
        && compare(width, op, 1, top) == up
        && compare(width, op, top, 1) == down
}

static CONVERSIONS: [(Conv, u64, u64); 12] = [
    (Conv::Wrap, 0xFFFF_FFFF_0000_0001, 1),
    (Conv::Ext32S, 0x8000_0000, 0xFFFF_FFFF_8000_0000),
    (Conv::Ext32S, 0x7FFF_FFFF, 0x7FFF_FFFF),
    (Conv::Ext32U, 0x8000_0000, 0x8000_0000),
    (Conv::S8of32, 0x80, 0xFFFF_FF80),
    (Conv::S8of32, 0x0001_237F, 0x7F),
    (Conv::S16of32, 0x8000, 0xFFFF_8000),
    (Conv::S16of32, 0x1234_5678, 0x5678),
    (Conv::S8of64, 0xFF80, 0xFFFF_FFFF_FFFF_FF80),
    (Conv::S16of64, 0x8000, 0xFFFF_FFFF_FFFF_8000),
    (Conv::S32of64, 0x0001_8000_0000, 0xFFFF_FFFF_8000_0000),
    (Conv::S32of64, 0xFEDC_BA98_7654_3210, 0x7654_3210),
];

#[test]
fn conversions(rt: HostRuntime) {
    let mut wrong = 0;
    for (op, a, value) in &CONVERSIONS {
        if !converts(*op, *a, *value) {
            wrong = 1;
        }
    }
    assert_eq!(rt; wrong, 0);
}

/// Whether the value of a conversion is this. An operand has the width that the conversion takes.
fn converts(op: Conv, a: u64, value: u64) -> bool {
    match op {
        Conv::Ext32S | Conv::Ext32U | Conv::S8of32 | Conv::S16of32 => {
            a < 1 << 32 && convert(op, a) == value
        }
        Conv::Wrap | Conv::S8of64 | Conv::S16of64 | Conv::S32of64 => convert(op, a) == value,
    }
}
