ghost use Rattle.std.specs.Prelude.{◌≡◌, ◌<◌, ◌≤◌, ◌^◌, OnOk, OnErr};
ghost use Rattle.wasm_frame.specs.Leb128.{IsShortest, AppendsShortest};
ghost use Rattle.wasm_frame.specs.Signed.{bits_of, FitsBits};

use super::Sign;
use super::last_byte::last_byte;
use arrayvec::ArrayVec;
use num_core::lists::Bytes;
use std::alloc::AllocError;

/// The shortest spelling of a number of `width` bits.
fn shortest(sign: Sign, width: u32, bits: u64) -> ArrayVec<u8, 10>
    requires some { 0 < width }
    requires fits { width ≤ 64 }
    requires range { bits < 2 ^ width }
    ensures { IsShortest sign width result.items bits }
{
    let mut spelling = ArrayVec::new();
    let mut left = width;
    let mut rest = bits;
    loop {
        match last_byte(sign, left, rest) {
            Some(byte) => {
                spelling.push(byte);
                return spelling;
            }
            None => {
                spelling.push(128 + (rest % 128) as u8);
                rest /= 128;
                left -= 7;
            }
        }
    }
}

/// Appends the shortest spelling of a number of `width` bits. For want of memory nothing changes.
fn put(out: &mut Bytes, sign: Sign, width: u32, bits: u64) -> Result<(), AllocError>
    requires some { 0 < width }
    requires fits { width ≤ 64 }
    requires range { bits < 2 ^ width }
    ensures ok { OnOk result (AppendsShortest sign width out.old out.new bits) }
    ensures err { OnErr result (out.new ≡ out.old) }
{
    out.extend_from_slice(shortest(sign, width, bits).as_slice())
}

/// Appends the shortest spelling of an unsigned number of 32 bits. For want of memory nothing changes.
pub fn put_u32(out: &mut Bytes, v: u32) -> Result<(), AllocError>
    ensures ok { OnOk result (AppendsShortest Sign.Unsigned 32 out.old out.new v) }
    ensures err { OnErr result (out.new ≡ out.old) }
{
    put(out, Sign::Unsigned, 32, u64::from(v))
}

/// Appends the shortest spelling of an unsigned number of 64 bits. For want of memory nothing changes.
pub fn put_u64(out: &mut Bytes, v: u64) -> Result<(), AllocError>
    ensures ok { OnOk result (AppendsShortest Sign.Unsigned 64 out.old out.new v) }
    ensures err { OnErr result (out.new ≡ out.old) }
{
    put(out, Sign::Unsigned, 64, v)
}

/// Appends the shortest spelling of a signed number of 32 bits. For want of memory nothing changes.
pub fn put_s32(out: &mut Bytes, v: i32) -> Result<(), AllocError>
    ensures ok { OnOk result (AppendsShortest Sign.Signed 32 out.old out.new (bits_of 32 v)) }
    ensures err { OnErr result (out.new ≡ out.old) }
{
    put(out, Sign::Signed, 32, u64::from(v.cast_unsigned()))
}

/// Appends the shortest spelling of a signed number of 64 bits. For want of memory nothing changes.
pub fn put_s64(out: &mut Bytes, v: i64) -> Result<(), AllocError>
    ensures ok { OnOk result (AppendsShortest Sign.Signed 64 out.old out.new (bits_of 64 v)) }
    ensures err { OnErr result (out.new ≡ out.old) }
{
    put(out, Sign::Signed, 64, v.cast_unsigned())
}

/// Appends the shortest spelling of a signed number of 33 bits. For want of memory nothing changes.
pub fn put_s33(out: &mut Bytes, v: i64) -> Result<(), AllocError>
    requires { FitsBits 33 v }
    ensures ok { OnOk result (AppendsShortest Sign.Signed 33 out.old out.new (bits_of 33 v)) }
    ensures err { OnErr result (out.new ≡ out.old) }
{
    let bits = if v < 0 {
        (v + (1 << 33)) as u64
    } else {
        v as u64
    };
    put(out, Sign::Signed, 33, bits)
}
