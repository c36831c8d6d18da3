// The entries of sections.

ghost use Rattle.std.specs.Prelude.{◌≡◌};
ghost use Rattle.grammar_kit.specs.Gives.{Gives, GivesOption};
ghost use Rattle.core1_bytes.specs.Types.{limits, table_type};
ghost use Rattle.core1_bytes.specs.Parts.{import_desc, import, global, export_of, export_desc, export, element, segment};

use super::code::read_expr;
use super::instructions::IndexEntry;
use super::types::{read_list, split_global_type, split_limits, split_table_type};
use core1_ast::module::{
    Element1, Export1, ExportDesc1, Global1, Import1, ImportDesc1, Limits1, Segment1,
};
use grammar_kit::{Entry, FormError, read_byte};
use num_core::lists::{Bytes, Text};
use std::alloc::Global;
use wasm_frame::leb128::split_u32;
use wasm_frame::names::{split_byte_vector, split_name};

/// What an import asks for, at the front, and the bytes after it.
#[tactic(auto, unfolding(crate::specs::Parts::import_desc))]
pub fn split_import_desc(bytes: &[u8]) -> Option<(ImportDesc1, &[u8])>
    ensures { GivesOption (λ p. (p.0, p.1.now)) result (import_desc.read bytes.now) }
{
    let (kind, rest) = read_byte(bytes)?;
    match kind {
        0x00 => {
            let (ty, rest) = split_u32(rest)?;
            Some((ImportDesc1::Func(ty), rest))
        }
        0x01 => {
            let (table, rest) = split_table_type(rest)?;
            Some((ImportDesc1::Table(table), rest))
        }
        0x02 => {
            let (memory, rest) = split_limits(rest)?;
            Some((ImportDesc1::Memory(memory), rest))
        }
        0x03 => {
            let (ty, mutable, rest) = split_global_type(rest)?;
            Some((ImportDesc1::Global(ty, mutable), rest))
        }
        _ => None,
    }
}

/// An entry of the import section.
pub struct ImportEntry;

impl Entry for ImportEntry {
    type Value = Import1;

    ghost form = { import };

    #[tactic(auto, unfolding(crate::specs::Parts::import))]
    fn entry(alloc: Global, bytes: &[u8]) -> Result<(Import1, &[u8]), FormError> {
        let (module, rest) = split_name(bytes).ok_or(FormError::Malformed)?;
        let (name, rest) = split_name(rest).ok_or(FormError::Malformed)?;
        let (desc, rest) = split_import_desc(rest).ok_or(FormError::Malformed)?;
        let module = Text::new(alloc, module)?;
        let name = Text::new(alloc, name)?;
        Ok((Import1 { module, name, desc }, rest))
    }
}

/// An entry of the table section.
pub struct TableEntry;

impl Entry for TableEntry {
    type Value = Limits1;

    ghost form = { table_type };

    fn entry(_alloc: Global, bytes: &[u8]) -> Result<(Limits1, &[u8]), FormError> {
        split_table_type(bytes).ok_or(FormError::Malformed)
    }
}

/// An entry of the memory section.
pub struct MemoryEntry;

impl Entry for MemoryEntry {
    type Value = Limits1;

    ghost form = { limits };

    fn entry(_alloc: Global, bytes: &[u8]) -> Result<(Limits1, &[u8]), FormError> {
        split_limits(bytes).ok_or(FormError::Malformed)
    }
}

/// An entry of the global section.
pub struct GlobalEntry;

impl Entry for GlobalEntry {
    type Value = Global1;

    ghost form = { global };

    #[tactic(auto, unfolding(crate::specs::Parts::global))]
    fn entry(alloc: Global, bytes: &[u8]) -> Result<(Global1, &[u8]), FormError> {
        let (ty, mutable, rest) = split_global_type(bytes).ok_or(FormError::Malformed)?;
        let (init, rest) = read_expr(alloc, rest)?;
        Ok((Global1 { ty, mutable, init }, rest))
    }
}

/// What an export of this kind names, by its index.
#[tactic(auto, unfolding(crate::specs::Parts::export_of))]
fn export_of(kind: u8, index: u32) -> Option<ExportDesc1>
    ensures { result ≡ export_of kind index }
{
    match kind {
        0x00 => Some(ExportDesc1::Func(index)),
        0x01 => Some(ExportDesc1::Table(index)),
        0x02 => Some(ExportDesc1::Memory(index)),
        0x03 => Some(ExportDesc1::Global(index)),
        _ => None,
    }
}

/// What an export names, at the front, and the bytes after it.
#[tactic(auto, unfolding(crate::specs::Parts::export_desc))]
fn split_export_desc(bytes: &[u8]) -> Option<(ExportDesc1, &[u8])>
    ensures { GivesOption (λ p. (p.0, p.1.now)) result (export_desc.read bytes.now) }
{
    let (kind, rest) = read_byte(bytes)?;
    let (index, rest) = split_u32(rest)?;
    let desc = export_of(kind, index)?;
    Some((desc, rest))
}

/// An entry of the export section.
pub struct ExportEntry;

impl Entry for ExportEntry {
    type Value = Export1;

    ghost form = { export };

    #[tactic(auto, unfolding(crate::specs::Parts::export))]
    fn entry(alloc: Global, bytes: &[u8]) -> Result<(Export1, &[u8]), FormError> {
        let (name, rest) = split_name(bytes).ok_or(FormError::Malformed)?;
        let (desc, rest) = split_export_desc(rest).ok_or(FormError::Malformed)?;
        let name = Text::new(alloc, name)?;
        Ok((Export1 { name, desc }, rest))
    }
}

/// An entry of the element section.
pub struct ElementEntry;

impl Entry for ElementEntry {
    type Value = Element1;

    ghost form = { element };

    #[tactic(auto, unfolding(crate::specs::Parts::element))]
    fn entry(alloc: Global, bytes: &[u8]) -> Result<(Element1, &[u8]), FormError> {
        let (table, rest) = split_u32(bytes).ok_or(FormError::Malformed)?;
        let (offset, rest) = read_expr(alloc, rest)?;
        let (items, rest) = read_list::<IndexEntry>(alloc, rest)?;
        Ok((
            Element1 {
                table,
                offset,
                items,
            },
            rest,
        ))
    }
}

/// An entry of the data section.
pub struct SegmentEntry;

impl Entry for SegmentEntry {
    type Value = Segment1;

    ghost form = { segment };

    #[tactic(auto, unfolding(crate::specs::Parts::segment))]
    fn entry(alloc: Global, bytes: &[u8]) -> Result<(Segment1, &[u8]), FormError> {
        let (memory, rest) = split_u32(bytes).ok_or(FormError::Malformed)?;
        let (offset, rest) = read_expr(alloc, rest)?;
        let (content, rest) = split_byte_vector(rest).ok_or(FormError::Malformed)?;
        let bytes = Bytes::from_slice(alloc, content)?;
        Ok((
            Segment1 {
                memory,
                offset,
                bytes,
            },
            rest,
        ))
    }
}
