// The integer operators as calls: each gives what its definition says. An integer is passed by its bits, and an i32
// stands in the lower half of a u64.
ghost use Rattle.std.specs.Prelude.{◌≡◌, ◌<◌, ◌^◌};
ghost use Rattle.num_core.specs.Integers.{bits, binary, unary, is_zero, compares, convert, width_from};

mod extensions;
mod int32;
mod int64;

use super::operators::{Bin, Cmp, Conv, Un, Width};
use extensions::{extend8, extend16, extend32, narrow8, narrow16};

/// The value of a binary operator on integers of this width, or `None` where the instruction traps: a quotient or a
/// remainder by 0, and the signed quotient that is no signed number (the standard's "Integer Operations").
#[inline(always)]
pub fn binary(width: Width, op: Bin, a: u64, b: u64) -> Option<u64>
    requires left { a < 2 ^ bits width }
    requires right { b < 2 ^ bits width }
    ensures { result ≡ binary width op a b }
{
    match width {
        Width::W32 => int32::binary(op, a as u32, b as u32).map(u64::from),
        Width::W64 => int64::binary(op, a, b),
    }
}

/// The value of a unary operator on an integer of this width (the standard's "Integer Operations").
#[inline(always)]
pub fn unary(width: Width, op: Un, a: u64) -> u64
    requires { a < 2 ^ bits width }
    ensures { result ≡ unary width op a }
{
    match width {
        Width::W32 => int32::unary(op, a as u32),
        Width::W64 => int64::unary(op, a),
    }
}

/// Whether an integer of this width is 0 (the standard's "Integer Operations", ieqz).
#[inline(always)]
pub fn eqz(width: Width, a: u64) -> bool
    requires { a < 2 ^ bits width }
    ensures { result ≡ is_zero a }
{
    a == 0
}

/// Whether a comparison of two integers of this width holds (the standard's "Integer Operations").
#[inline(always)]
pub fn compare(width: Width, op: Cmp, a: u64, b: u64) -> bool
    requires left { a < 2 ^ bits width }
    requires right { b < 2 ^ bits width }
    ensures { result ≡ compares width op a b }
{
    match width {
        Width::W32 => int32::compare(op, a as u32, b as u32),
        Width::W64 => int64::compare(op, a, b),
    }
}

/// The value of a conversion of an integer (the standard's "Conversions").
#[inline(always)]
pub fn convert(op: Conv, a: u64) -> u64
    requires { a < 2 ^ bits (width_from op) }
    ensures { result ≡ convert op a }
{
    match op {
        Conv::Wrap => a % 0x1_0000_0000,
        Conv::Ext32S => extend32(a as u32),
        Conv::Ext32U => a,
        Conv::S8of32 => narrow8((a % 0x100) as u8).into(),
        Conv::S16of32 => narrow16((a % 0x1_0000) as u16).into(),
        Conv::S8of64 => extend8((a % 0x100) as u8),
        Conv::S16of64 => extend16((a % 0x1_0000) as u16),
        Conv::S32of64 => extend32((a % 0x1_0000_0000) as u32),
    }
}
