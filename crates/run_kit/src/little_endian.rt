// Integers as bytes, the lowest first.
ghost use Rattle.std.specs.Prelude.{◌≡◌, ℕ, ◌≤◌, ◌<◌, ◌^◌, length};
ghost use Rattle.num_core.specs.Accesses.{load_bytes, load_width, store_bytes};
ghost use Rattle.num_core.specs.Bytes.{from_bytes, loaded, stored};
ghost use Rattle.num_core.specs.Integers.{bits, convert};

use num_core::operations::convert;
use num_core::operators::{Conv, Load, Store, Width};

/// The number that two bytes make.
fn two(bytes: &[u8]) -> u16
    requires { length bytes.now ≡ 2 }
    ensures { result ≡ from_bytes bytes.now }
{
    u16::from_le_bytes([bytes[0], bytes[1]])
}

/// The number that four bytes make.
fn four(bytes: &[u8]) -> u32
    requires { length bytes.now ≡ 4 }
    ensures { result ≡ from_bytes bytes.now }
{
    u32::from_le_bytes([bytes[0], bytes[1], bytes[2], bytes[3]])
}

/// The number that eight bytes make.
fn eight(bytes: &[u8]) -> u64
    requires { length bytes.now ≡ 8 }
    ensures { result ≡ from_bytes bytes.now }
{
    u64::from_le_bytes([
        bytes[0], bytes[1], bytes[2], bytes[3], bytes[4], bytes[5], bytes[6], bytes[7],
    ])
}

/// How many bytes a load reads (the standard's "Memory Instructions").
pub fn load_bytes(op: Load) -> usize
    ensures { result ≡ load_bytes op }
{
    match op {
        Load::I32From8S | Load::I32From8U | Load::I64From8S | Load::I64From8U => 1,
        Load::I32From16S | Load::I32From16U | Load::I64From16S | Load::I64From16U => 2,
        Load::I32 | Load::I64From32S | Load::I64From32U => 4,
        Load::I64 => 8,
    }
}

/// The width of the value of a load (the standard's "Memory Instructions").
pub fn load_width(op: Load) -> Width
    ensures { result ≡ load_width op }
{
    match op {
        Load::I32 | Load::I32From8S | Load::I32From8U | Load::I32From16S | Load::I32From16U =>
            Width::W32,
        Load::I64
        | Load::I64From8S
        | Load::I64From8U
        | Load::I64From16S
        | Load::I64From16U
        | Load::I64From32S
        | Load::I64From32U => Width::W64,
    }
}

/// How many bytes a store writes (the standard's "Memory Instructions").
pub fn store_bytes(op: Store) -> usize
    ensures { result ≡ store_bytes op }
{
    match op {
        Store::I32To8 | Store::I64To8 => 1,
        Store::I32To16 | Store::I64To16 => 2,
        Store::I32 | Store::I64To32 => 4,
        Store::I64 => 8,
    }
}

/// The integer that a load makes of the bytes that it reads (the standard's "Numerics", "Storage").
pub fn loaded(op: Load, bytes: &[u8]) -> u64
    requires { length bytes.now ≡ load_bytes op }
    ensures value { result ≡ loaded op bytes.now }
    ensures below { result < 2 ^ bits (load_width op) }
{
    match op {
        Load::I32 | Load::I64From32U => four(bytes).into(),
        Load::I64 => eight(bytes),
        Load::I32From8S => convert(Conv::S8of32, bytes[0].into()),
        Load::I64From8S => convert(Conv::S8of64, bytes[0].into()),
        Load::I32From8U | Load::I64From8U => bytes[0].into(),
        Load::I32From16S => convert(Conv::S16of32, two(bytes).into()),
        Load::I64From16S => convert(Conv::S16of64, two(bytes).into()),
        Load::I32From16U | Load::I64From16U => two(bytes).into(),
        Load::I64From32S => convert(Conv::S32of64, four(bytes).into()),
    }
}
