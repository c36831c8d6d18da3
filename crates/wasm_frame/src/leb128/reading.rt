ghost use Rattle.std.specs.Prelude.{◌≡◌, ℕ, ◌<◌, ◌≤◌, ◌^◌, IfSome, IfNone};
ghost use Rattle.grammar_kit.specs.Gives.{GivesOption};
ghost use Rattle.wasm_frame.specs.Leb128.{integer, IsAtFront, u32, u64, s32, s64, s33};
ghost use Rattle.wasm_frame.specs.Signed.{bits_of, FitsBits};

use super::Sign;
use super::last_byte::last_value;

/// The bits of the number at the front, and the bytes after it. `None` exactly where no spelling stands in front.
#[tactic(auto, using(crate::proofs::Powers::seven_more, crate::proofs::Powers::within_64), unfolding(crate::specs::Leb128::read_leb))]
fn number(sign: Sign, width: u32, bytes: &[u8]) -> Option<(u64, &[u8])>
    requires some { 0 < width }
    requires fits { width ≤ 64 }
    ensures gives { GivesOption (λ p. (p.0, p.1.now)) result ((integer sign width).read bytes.now) }
    ensures range { IfSome result (λ p. p.0 < 2 ^ width) }
{
    let (first, rest) = bytes.split_first()?;
    if *first < 128 {
        let bits = last_value(sign, width, *first)?;
        return Some((bits, rest));
    }
    if width <= 7 {
        return None;
    }
    let (high, rest) = number(sign, width - 7, rest)?;
    let low = u64::from(*first - 128);
    Some((low + 128 * high, rest))
}

/// The bits of the number at the front, and the length of its spelling.
fn front(sign: Sign, width: u32, bytes: &[u8]) -> Option<(u64, usize)>
    requires some { 0 < width }
    requires fits { width ≤ 64 }
    ensures found { IfSome result (λ p. IsAtFront sign width bytes.now p.0 p.1) }
    ensures range { IfSome result (λ p. p.0 < 2 ^ width) }
    ensures none { IfNone result ((n len : ℕ) → IsAtFront sign width bytes.now n len → ⊥) }
{
    let (bits, rest) = number(sign, width, bytes)?;
    Some((bits, bytes.len() - rest.len()))
}

/// The unsigned number of 32 bits at the front, and the length of its spelling. `None` exactly where no spelling
/// of such a number is a front of the bytes.
pub fn read_u32(bytes: &[u8]) -> Option<(u32, usize)>
    ensures found { IfSome result (λ p. IsAtFront Sign.Unsigned 32 bytes.now p.0 p.1) }
    ensures none { IfNone result ((n len : ℕ) → IsAtFront Sign.Unsigned 32 bytes.now n len → ⊥) }
{
    let (bits, len) = front(Sign::Unsigned, 32, bytes)?;
    Some((bits as u32, len))
}

/// The unsigned number of 64 bits at the front, and the length of its spelling. `None` exactly where no spelling
/// of such a number is a front of the bytes.
pub fn read_u64(bytes: &[u8]) -> Option<(u64, usize)>
    ensures found { IfSome result (λ p. IsAtFront Sign.Unsigned 64 bytes.now p.0 p.1) }
    ensures none { IfNone result ((n len : ℕ) → IsAtFront Sign.Unsigned 64 bytes.now n len → ⊥) }
{
    front(Sign::Unsigned, 64, bytes)
}

/// The signed number of 32 bits at the front, and the length of its spelling. `None` exactly where no spelling of
/// such a number is a front of the bytes.
pub fn read_s32(bytes: &[u8]) -> Option<(i32, usize)>
    ensures found { IfSome result (λ p. IsAtFront Sign.Signed 32 bytes.now (bits_of 32 p.0) p.1) }
    ensures none { IfNone result ((n len : ℕ) → IsAtFront Sign.Signed 32 bytes.now n len → ⊥) }
{
    let (bits, len) = front(Sign::Signed, 32, bytes)?;
    Some(((bits as u32).cast_signed(), len))
}

/// The signed number of 64 bits at the front, and the length of its spelling. `None` exactly where no spelling of
/// such a number is a front of the bytes.
pub fn read_s64(bytes: &[u8]) -> Option<(i64, usize)>
    ensures found { IfSome result (λ p. IsAtFront Sign.Signed 64 bytes.now (bits_of 64 p.0) p.1) }
    ensures none { IfNone result ((n len : ℕ) → IsAtFront Sign.Signed 64 bytes.now n len → ⊥) }
{
    let (bits, len) = front(Sign::Signed, 64, bytes)?;
    Some((bits.cast_signed(), len))
}

/// The signed number of 33 bits at the front, and the length of its spelling. `None` exactly where no spelling of
/// such a number is a front of the bytes.
pub fn read_s33(bytes: &[u8]) -> Option<(i64, usize)>
    ensures range { IfSome result (λ p. FitsBits 33 p.0) }
    ensures found { IfSome result (λ p. IsAtFront Sign.Signed 33 bytes.now (bits_of 33 p.0) p.1) }
    ensures none { IfNone result ((n len : ℕ) → IsAtFront Sign.Signed 33 bytes.now n len → ⊥) }
{
    let (bits, len) = front(Sign::Signed, 33, bytes)?;
    let value = bits as i64;
    let half = 1i64 << 32;
    Some((
        if value < half {
            value
        } else {
            value - 2 * half
        },
        len,
    ))
}

/// The unsigned number of 32 bits at the front, and the bytes after it. `None` exactly where none stands there.
pub fn split_u32(bytes: &[u8]) -> Option<(u32, &[u8])>
    ensures { GivesOption (λ p. (p.0, p.1.now)) result (u32.read bytes.now) }
{
    let (bits, rest) = number(Sign::Unsigned, 32, bytes)?;
    Some((bits as u32, rest))
}

/// The unsigned number of 64 bits at the front, and the bytes after it. `None` exactly where none stands there.
pub fn split_u64(bytes: &[u8]) -> Option<(u64, &[u8])>
    ensures { GivesOption (λ p. (p.0, p.1.now)) result (u64.read bytes.now) }
{
    number(Sign::Unsigned, 64, bytes)
}

/// The 32 bits of the signed number at the front, and the bytes after it. `None` exactly where none stands there.
pub fn split_s32(bytes: &[u8]) -> Option<(u32, &[u8])>
    ensures { GivesOption (λ p. (p.0, p.1.now)) result (s32.read bytes.now) }
{
    let (bits, rest) = number(Sign::Signed, 32, bytes)?;
    Some((bits as u32, rest))
}

/// The 64 bits of the signed number at the front, and the bytes after it. `None` exactly where none stands there.
pub fn split_s64(bytes: &[u8]) -> Option<(u64, &[u8])>
    ensures { GivesOption (λ p. (p.0, p.1.now)) result (s64.read bytes.now) }
{
    number(Sign::Signed, 64, bytes)
}

/// The 33 bits of the signed number at the front, and the bytes after it. `None` exactly where none stands there.
pub fn split_s33(bytes: &[u8]) -> Option<(u64, &[u8])>
    ensures gives { GivesOption (λ p. (p.0, p.1.now)) result (s33.read bytes.now) }
    ensures range { IfSome result (λ p. p.0 < 2 ^ 33) }
{
    number(Sign::Signed, 33, bytes)
}
