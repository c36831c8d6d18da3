// The operators on integers of 32 bits.
ghost use Rattle.std.specs.Prelude.{◌≡◌};
ghost use Rattle.num_core.specs.Integers.{binary, unary, compares, div_signed, rem_signed, shift_right_signed};

use crate::operators::{Bin, Cmp, Un, Width};

/// The value of a binary operator, or `None` where the instruction traps.
#[inline(always)]
pub(super) fn binary(op: Bin, a: u32, b: u32) -> Option<u32>
    ensures { result ≡ binary Width.W32 op a b }
{
    match op {
        Bin::Add => Some(a.wrapping_add(b)),
        Bin::Sub => Some(a.wrapping_sub(b)),
        Bin::Mul => Some(a.wrapping_mul(b)),
        Bin::DivS => divide_signed(a, b),
        Bin::DivU => a.checked_div(b),
        Bin::RemS => remainder_signed(a, b),
        Bin::RemU => a.checked_rem(b),
        Bin::And => Some(a & b),
        Bin::Or => Some(a | b),
        Bin::Xor => Some(a ^ b),
        Bin::Shl => Some(a.wrapping_shl(b)),
        Bin::ShrS => Some(shift_signed(a, b)),
        Bin::ShrU => Some(a.wrapping_shr(b)),
        Bin::Rotl => Some(a.rotate_left(b)),
        Bin::Rotr => Some(a.rotate_right(b)),
    }
}

/// The quotient of two signed numbers, rounded toward zero.
#[inline(always)]
fn divide_signed(a: u32, b: u32) -> Option<u32>
    ensures { result ≡ div_signed 32 a b }
{
    let quotient = a.cast_signed().checked_div(b.cast_signed())?;
    Some(quotient.cast_unsigned())
}

/// The remainder of two signed numbers, which is 0 for the least by -1.
#[inline(always)]
fn remainder_signed(a: u32, b: u32) -> Option<u32>
    ensures { result ≡ rem_signed 32 a b }
{
    if b == 0 {
        return None;
    }
    let remainder = a.cast_signed().wrapping_rem(b.cast_signed());
    Some(remainder.cast_unsigned())
}

/// A shift to the right that copies the sign.
#[inline(always)]
fn shift_signed(a: u32, b: u32) -> u32
    ensures { result ≡ shift_right_signed 32 a b }
{
    a.cast_signed().wrapping_shr(b).cast_unsigned()
}

/// The value of a unary operator.
#[inline(always)]
pub(super) fn unary(op: Un, a: u32) -> u64
    ensures { result ≡ unary Width.W32 op a }
{
    match op {
        Un::Clz => a.leading_zeros().into(),
        Un::Ctz => a.trailing_zeros().into(),
        Un::Popcnt => a.count_ones().into(),
    }
}

/// Whether a comparison holds.
#[inline(always)]
pub(super) fn compare(op: Cmp, a: u32, b: u32) -> bool
    ensures { result ≡ compares Width.W32 op a b }
{
    match op {
        Cmp::Eq => a == b,
        Cmp::Ne => a != b,
        Cmp::LtS => a.cast_signed() < b.cast_signed(),
        Cmp::LtU => a < b,
        Cmp::GtS => a.cast_signed() > b.cast_signed(),
        Cmp::GtU => a > b,
        Cmp::LeS => a.cast_signed() <= b.cast_signed(),
        Cmp::LeU => a <= b,
        Cmp::GeS => a.cast_signed() >= b.cast_signed(),
        Cmp::GeU => a >= b,
    }
}
