// Writing by forms: what is appended spells the value.

ghost use Rattle.std.specs.Prelude.{◌<◌, ◌^◌, length as list_length, OnOk, All};
ghost use Rattle.grammar_kit.specs.Form.{byte, many, vector};
ghost use Rattle.wasm_frame.specs.Leb128.{u32};
ghost use Rattle.wasm_frame.specs.Name.{byte_vector};
ghost use Rattle.core1_bytes.specs.Appends.{Appends};

use crate::reading::IndexEntry;
use grammar_kit::Entry;
use num_core::lists::Bytes;
use std::alloc::{AllocError, Global};
use wasm_frame::leb128::put_u32;

/// How an entry of a vector is written: so that it is spelled by the form by which it is read.
pub trait WriteEntry: Entry {
    /// Which entries are written: all but those whose code no rule types.
    ghost is_written: { Self.Value → Type 0 } = { λ _. Unit {0} };

    /// Appends bytes that spell the entry. It fails for want of memory alone, and then bytes of a part of the
    /// entry may stand at the end.
    fn write(alloc: Global, out: &mut Bytes, entry: &Self::Value) -> Result<(), AllocError>
        requires { is_written entry.now }
        ensures { OnOk result (Appends Self.form out.old out.new entry.now) };
}

/// Appends bytes that spell the entries, one after the other.
fn write_many<E: WriteEntry>(
    alloc: Global,
    out: &mut Bytes,
    entries: &[E::Value],
) -> Result<(), AllocError>
    requires { All E.is_written entries.now }
    ensures { OnOk result (Appends (many E.form (list_length entries.now)) out.old out.new entries.now) }
{
    for entry in entries {
        E::write(alloc, out, entry)?;
    }
    Ok(())
}

/// Appends a vector: the count of the entries, and bytes that spell them.
pub fn write_vector<E: WriteEntry>(
    alloc: Global,
    out: &mut Bytes,
    entries: &[E::Value],
) -> Result<(), AllocError>
    requires { All E.is_written entries.now }
    ensures { OnOk result (Appends (vector u32 E.form) out.old out.new entries.now) }
{
    write_length(out, entries.len())?;
    write_many::<E>(alloc, out, entries)
}

/// Appends a length as the count of a vector. A count past 2^32 - 1 is want of memory, since a list has no room for
/// more.
pub fn write_length(out: &mut Bytes, length: usize) -> Result<(), AllocError>
    ensures spelled { OnOk result (Appends u32 out.old out.new length) }
    ensures short { OnOk result (length < 2 ^ 32) }
{
    match u32::try_from(length) {
        Ok(length) => write_u32(out, length),
        Err(_) => Err(AllocError),
    }
}

/// Appends a number.
pub fn write_u32(out: &mut Bytes, value: u32) -> Result<(), AllocError>
    ensures { OnOk result (Appends u32 out.old out.new value) }
{
    put_u32(out, value)
}

/// Appends a byte that spells itself.
pub fn write_byte(out: &mut Bytes, value: u8) -> Result<(), AllocError>
    ensures { OnOk result (Appends byte out.old out.new value) }
{
    out.push(value)
}

/// Appends bytes behind their count.
pub fn write_bytes(out: &mut Bytes, bytes: &[u8]) -> Result<(), AllocError>
    ensures { OnOk result (Appends byte_vector out.old out.new bytes.now) }
{
    write_length(out, bytes.len())?;
    out.extend_from_slice(bytes)
}

impl WriteEntry for IndexEntry {
    fn write(_alloc: Global, out: &mut Bytes, entry: &u32) -> Result<(), AllocError> {
        write_u32(out, *entry)
    }
}
