ghost use Rattle.grammar_kit.specs.Gives.{GivesOption};
ghost use Rattle.read_new.specs.Parts.{export_desc, export};

use grammar_kit::{Entry, FormError, read_byte};
use num_core::lists::Text;
use std::alloc::Global;
use wasm_ast::module::{Export, ExportDesc};
use wasm_frame::leb128::split_u32;
use wasm_frame::names::split_name;

/// What an export names, and the bytes after it.
#[tactic(auto, unfolding(crate::specs::Parts::export_desc))]
fn split_desc(bytes: &[u8]) -> Option<(ExportDesc, &[u8])>
    ensures { GivesOption (λ p. (p.0, p.1.now)) result (export_desc.read bytes.now) }
{
    let (kind, rest) = read_byte(bytes)?;
    if kind > 0x04 {
        return None;
    }
    let (index, rest) = split_u32(rest)?;
    match kind {
        0x00 => Some((ExportDesc::Func(index), rest)),
        0x01 => Some((ExportDesc::Table(index), rest)),
        0x02 => Some((ExportDesc::Memory(index), rest)),
        0x03 => Some((ExportDesc::Global(index), rest)),
        _ => Some((ExportDesc::Tag(index), rest)),
    }
}

/// An entry of the export section.
pub struct ExportEntry;

impl Entry for ExportEntry {
    type Value = Export;

    ghost form = { export };

    #[tactic(auto, unfolding(crate::specs::Parts::export))]
    fn entry(alloc: Global, bytes: &[u8]) -> Result<(Export, &[u8]), FormError> {
        let (name, rest) = split_name(bytes).ok_or(FormError::Malformed)?;
        let (desc, rest) = split_desc(rest).ok_or(FormError::Malformed)?;
        let name = Text::new(alloc, name)?;
        Ok((Export { name, desc }, rest))
    }
}
