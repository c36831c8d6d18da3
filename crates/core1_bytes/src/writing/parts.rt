// The parts of a module, each by the form of its section's entries.

ghost use Rattle.std.specs.Prelude.{◌≡◌, OnOk, IsUtf8};
ghost use Rattle.wasm_frame.specs.Name.{name};
ghost use Rattle.core1_bytes.specs.Parts.{import_desc, export_desc};
ghost use Rattle.core1_bytes.specs.Appends.{Appends, Exports, export_index, IsTypedCode};

use super::code::write_expr;
use super::entry::{WriteEntry, write_byte, write_bytes, write_u32, write_vector};
use super::types::{write_global_type, write_limits, write_table_type};
use crate::reading::{
    ElementEntry, ExportEntry, GlobalEntry, ImportEntry, IndexEntry, SegmentEntry,
};
use core1_ast::module::{Element1, Export1, ExportDesc1, Global1, Import1, ImportDesc1, Segment1};
use num_core::lists::Bytes;
use std::alloc::{AllocError, Global};

/// Appends a name: the count of its bytes in UTF-8, and the bytes.
fn write_name(out: &mut Bytes, text: &str) -> Result<(), AllocError>
    requires { IsUtf8 text.now }
    ensures { OnOk result (Appends name out.old out.new text.now) }
{
    write_bytes(out, text.as_bytes())
}

/// Appends what is imported.
fn write_import_desc(out: &mut Bytes, desc: ImportDesc1) -> Result<(), AllocError>
    ensures { OnOk result (Appends import_desc out.old out.new desc) }
{
    match desc {
        ImportDesc1::Func(index) => {
            write_byte(out, 0x00)?;
            write_u32(out, index)
        }
        ImportDesc1::Table(table) => {
            write_byte(out, 0x01)?;
            write_table_type(out, table)
        }
        ImportDesc1::Memory(memory) => {
            write_byte(out, 0x02)?;
            write_limits(out, memory)
        }
        ImportDesc1::Global(ty, mutable) => {
            write_byte(out, 0x03)?;
            write_global_type(out, ty, mutable)
        }
    }
}

impl WriteEntry for ImportEntry {
    fn write(_alloc: Global, out: &mut Bytes, entry: &Import1) -> Result<(), AllocError> {
        write_name(out, entry.module.as_str())?;
        write_name(out, entry.name.as_str())?;
        write_import_desc(out, entry.desc)
    }
}

impl WriteEntry for GlobalEntry {
    ghost is_written = { λ g. IsTypedCode g.init };

    fn write(alloc: Global, out: &mut Bytes, entry: &Global1) -> Result<(), AllocError> {
        write_global_type(out, entry.ty, entry.mutable)?;
        write_expr(alloc, out, &entry.init)
    }
}

/// The byte of the kind that is exported.
#[tactic(auto, using(crate::proofs::Written::export_rules))]
fn export_kind(desc: ExportDesc1) -> u8
    ensures { Exports desc result }
{
    match desc {
        ExportDesc1::Func(_) => 0x00,
        ExportDesc1::Table(_) => 0x01,
        ExportDesc1::Memory(_) => 0x02,
        ExportDesc1::Global(_) => 0x03,
    }
}

/// The index of what is exported, among its kind.
fn export_index(desc: ExportDesc1) -> u32
    ensures { result ≡ export_index desc }
{
    match desc {
        ExportDesc1::Func(index)
        | ExportDesc1::Table(index)
        | ExportDesc1::Memory(index)
        | ExportDesc1::Global(index) => index,
    }
}

/// Appends what is exported.
fn write_export_desc(out: &mut Bytes, desc: ExportDesc1) -> Result<(), AllocError>
    ensures { OnOk result (Appends export_desc out.old out.new desc) }
{
    write_byte(out, export_kind(desc))?;
    write_u32(out, export_index(desc))
}

impl WriteEntry for ExportEntry {
    fn write(_alloc: Global, out: &mut Bytes, entry: &Export1) -> Result<(), AllocError> {
        write_name(out, entry.name.as_str())?;
        write_export_desc(out, entry.desc)
    }
}

impl WriteEntry for ElementEntry {
    ghost is_written = { λ e. IsTypedCode e.offset };

    fn write(alloc: Global, out: &mut Bytes, entry: &Element1) -> Result<(), AllocError> {
        write_u32(out, entry.table)?;
        write_expr(alloc, out, &entry.offset)?;
        write_vector::<IndexEntry>(alloc, out, entry.items.as_slice())
    }
}

impl WriteEntry for SegmentEntry {
    ghost is_written = { λ s. IsTypedCode s.offset };

    fn write(alloc: Global, out: &mut Bytes, entry: &Segment1) -> Result<(), AllocError> {
        write_u32(out, entry.memory)?;
        write_expr(alloc, out, &entry.offset)?;
        write_bytes(out, entry.bytes.as_slice())
    }
}
