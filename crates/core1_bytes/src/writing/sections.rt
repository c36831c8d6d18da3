// The sections of a module, and the whole file.

ghost use Rattle.std.specs.Prelude.{◌≡◌, [], OnOk, IfOk, All, None};
ghost use Rattle.grammar_kit.specs.Form.{vector};
ghost use Rattle.wasm_frame.specs.Frame.{section};
ghost use Rattle.wasm_frame.specs.Leb128.{u32};
ghost use Rattle.core1_ast.specs.Typing.{Typed1};
ghost use Rattle.core1_bytes.specs.Parts.{start_section};
ghost use Rattle.core1_bytes.specs.Spells.{Spells1};
ghost use Rattle.core1_bytes.specs.Appends.{Appends, AppendsSection};

use super::entry::{WriteEntry, write_byte, write_bytes, write_u32, write_vector};
use crate::reading::{
    BodyEntry, ElementEntry, ExportEntry, GlobalEntry, ImportEntry, IndexEntry, MemoryEntry,
    SegmentEntry, TableEntry, TypeEntry,
};
use core1_ast::module::Module1;
use num_core::lists::Bytes;
use std::alloc::{AllocError, Global};
use wasm_frame::sections::HEAD;

/// Bytes that spell a typed module of 1.0: the head, and a section for each kind of part that the module has. It fails
/// for want of memory alone. A body, and a section with more than 2^32 - 1 bytes or entries, is want of memory too, since
/// no list has room for it.
pub fn write1(alloc: Global, source: &Module1) -> Result<Bytes, AllocError>
    requires { Typed1 source.now }
    ensures { IfOk result (λ bytes. Spells1 bytes source.now) }
{
    let mut out = Bytes::new(alloc);
    out.extend_from_slice(&HEAD)?;
    write_section::<TypeEntry>(alloc, &mut out, 1, source.types.as_slice())?;
    write_section::<ImportEntry>(alloc, &mut out, 2, source.imports.as_slice())?;
    write_section::<IndexEntry>(alloc, &mut out, 3, source.funcs.as_slice())?;
    write_section::<TableEntry>(alloc, &mut out, 4, source.tables.as_slice())?;
    write_section::<MemoryEntry>(alloc, &mut out, 5, source.memories.as_slice())?;
    write_section::<GlobalEntry>(alloc, &mut out, 6, source.globals.as_slice())?;
    write_section::<ExportEntry>(alloc, &mut out, 7, source.exports.as_slice())?;
    write_start(alloc, &mut out, source.start)?;
    write_section::<ElementEntry>(alloc, &mut out, 9, source.elems.as_slice())?;
    write_section::<BodyEntry>(alloc, &mut out, 10, source.codes.as_slice())?;
    write_section::<SegmentEntry>(alloc, &mut out, 11, source.datas.as_slice())?;
    Ok(out)
}

/// Appends a section: the id, the count of the payload's bytes, and the payload.
fn put_section(out: &mut Bytes, id: u8, payload: &Bytes) -> Result<(), AllocError>
    ensures { OnOk result (Appends section out.old out.new (record { id = id; payload = payload.now })) }
{
    write_byte(out, id)?;
    write_bytes(out, payload.as_slice())
}

/// Appends the section of an id, with these entries. Nothing is appended where there are none.
fn write_section<E: WriteEntry>(
    alloc: Global,
    out: &mut Bytes,
    id: u8,
    entries: &[E::Value],
) -> Result<(), AllocError>
    requires { All E.is_written entries.now }
    ensures { OnOk result (AppendsSection id (entries.now ≡ []) (λ p. (vector u32 E.form).text p entries.now) out.old out.new) }
{
    if entries.is_empty() {
        return Ok(());
    }
    let mut payload = Bytes::new(alloc);
    write_vector::<E>(alloc, &mut payload, entries)?;
    put_section(out, id, &payload)
}

/// Appends the start section. Nothing is appended where there is no start function.
fn write_start(alloc: Global, out: &mut Bytes, start: Option<u32>) -> Result<(), AllocError>
    ensures { OnOk result (AppendsSection 8 (start ≡ None) (λ p. start_section.text p start) out.old out.new) }
{
    let Some(index) = start else {
        return Ok(());
    };
    let mut payload = Bytes::new(alloc);
    write_u32(&mut payload, index)?;
    put_section(out, 8, &payload)
}
