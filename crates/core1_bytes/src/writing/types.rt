// Types, each by its form.

ghost use Rattle.std.specs.Prelude.{OnOk};
ghost use Rattle.core1_bytes.specs.Appends.{Appends};
ghost use Rattle.core1_bytes.specs.Types.{value_type, block_type, limits, table_type, mutability, global_type};

use super::entry::{WriteEntry, write_byte, write_u32, write_vector};
use super::opcodes::type_byte;
use crate::reading::{MemoryEntry, TableEntry, TypeEntry, ValueTypeEntry};
use core1_ast::module::{BlockType1, FuncType1, Limits1, Ty1};
use num_core::lists::Bytes;
use std::alloc::{AllocError, Global};

/// Appends a value type.
pub fn write_value_type(out: &mut Bytes, ty: Ty1) -> Result<(), AllocError>
    ensures { OnOk result (Appends value_type out.old out.new ty) }
{
    write_byte(out, type_byte(ty))
}

impl WriteEntry for ValueTypeEntry {
    fn write(_alloc: Global, out: &mut Bytes, entry: &Ty1) -> Result<(), AllocError> {
        write_value_type(out, *entry)
    }
}

/// Appends the type of a block.
pub fn write_block_type(out: &mut Bytes, ty: BlockType1) -> Result<(), AllocError>
    ensures { OnOk result (Appends block_type out.old out.new ty) }
{
    match ty {
        BlockType1::Empty => write_byte(out, 0x40),
        BlockType1::One(ty) => write_byte(out, type_byte(ty)),
    }
}

impl WriteEntry for TypeEntry {
    fn write(alloc: Global, out: &mut Bytes, entry: &FuncType1) -> Result<(), AllocError> {
        write_byte(out, 0x60)?;
        write_vector::<ValueTypeEntry>(alloc, out, entry.params.as_slice())?;
        write_vector::<ValueTypeEntry>(alloc, out, entry.results.as_slice())
    }
}

/// Appends the limits of a memory.
pub fn write_limits(out: &mut Bytes, size: Limits1) -> Result<(), AllocError>
    ensures { OnOk result (Appends limits out.old out.new size) }
{
    match size.max {
        None => {
            write_byte(out, 0x00)?;
            write_u32(out, size.min)
        }
        Some(max) => {
            write_byte(out, 0x01)?;
            write_u32(out, size.min)?;
            write_u32(out, max)
        }
    }
}

impl WriteEntry for MemoryEntry {
    fn write(_alloc: Global, out: &mut Bytes, entry: &Limits1) -> Result<(), AllocError> {
        write_limits(out, *entry)
    }
}

/// Appends the type of a table.
pub fn write_table_type(out: &mut Bytes, table: Limits1) -> Result<(), AllocError>
    ensures { OnOk result (Appends table_type out.old out.new table) }
{
    write_byte(out, 0x70)?;
    write_limits(out, table)
}

impl WriteEntry for TableEntry {
    fn write(_alloc: Global, out: &mut Bytes, entry: &Limits1) -> Result<(), AllocError> {
        write_table_type(out, *entry)
    }
}

/// Appends the type of a global, and whether it is mutable.
pub fn write_global_type(out: &mut Bytes, ty: Ty1, mutable: bool) -> Result<(), AllocError>
    ensures { OnOk result (Appends global_type out.old out.new (record { type = ty; mutable = mutable })) }
{
    write_value_type(out, ty)?;
    write_mutability(out, mutable)
}

fn write_mutability(out: &mut Bytes, mutable: bool) -> Result<(), AllocError>
    ensures { OnOk result (Appends mutability out.old out.new mutable) }
{
    if mutable {
        write_byte(out, 0x01)
    } else {
        write_byte(out, 0x00)
    }
}
