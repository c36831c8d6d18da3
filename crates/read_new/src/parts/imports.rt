ghost use Rattle.std.specs.Prelude.{◌≡◌};
ghost use Rattle.grammar_kit.specs.Gives.{Gives, GivesOption};
ghost use Rattle.grammar_kit.specs.Measures.{through};
ghost use Rattle.read_new.specs.Limits.{func_count};
ghost use Rattle.read_new.specs.Parts.{imported_table, imported_global, import_desc, import};

use super::globals::split_mutability;
use super::tables::{split_limits, split_tag};
use code_new::types::{split_ref_type, split_value_type};
use grammar_kit::{Entry, FormError, Measure, read_byte};
use num_core::lists::Text;
use std::alloc::Global;
use wasm_ast::module::{Import, ImportDesc};
use wasm_frame::leb128::split_u32;
use wasm_frame::names::split_name;

/// A table type, as what an import asks for, and the bytes after it.
#[tactic(auto, unfolding(crate::specs::Parts::imported_table))]
fn split_table(bytes: &[u8]) -> Option<(ImportDesc, &[u8])>
    ensures { GivesOption (λ p. (p.0, p.1.now)) result (imported_table.read bytes.now) }
{
    let (ty, rest) = split_ref_type(bytes)?;
    let (limits, rest) = split_limits(rest)?;
    Some((ImportDesc::Table(ty, limits), rest))
}

/// A global type, as what an import asks for, and the bytes after it.
#[tactic(auto, unfolding(crate::specs::Parts::imported_global))]
fn split_global(bytes: &[u8]) -> Option<(ImportDesc, &[u8])>
    ensures { GivesOption (λ p. (p.0, p.1.now)) result (imported_global.read bytes.now) }
{
    let (ty, rest) = split_value_type(bytes)?;
    let (mutable, rest) = split_mutability(rest)?;
    Some((ImportDesc::Global(ty, mutable), rest))
}

/// What an import asks for, and the bytes after it.
#[tactic(auto, unfolding(crate::specs::Parts::import_desc))]
fn split_desc(bytes: &[u8]) -> Option<(ImportDesc, &[u8])>
    ensures { GivesOption (λ p. (p.0, p.1.now)) result (import_desc.read bytes.now) }
{
    match read_byte(bytes)? {
        (0x00, rest) => {
            let (index, rest) = split_u32(rest)?;
            Some((ImportDesc::Func(index), rest))
        }
        (0x01, rest) => split_table(rest),
        (0x02, rest) => {
            let (limits, rest) = split_limits(rest)?;
            Some((ImportDesc::Memory(limits), rest))
        }
        (0x03, rest) => split_global(rest),
        (0x04, rest) => {
            let (index, rest) = split_tag(rest)?;
            Some((ImportDesc::Tag(index), rest))
        }
        _ => None,
    }
}

/// An entry of the import section.
pub struct ImportEntry;

impl Entry for ImportEntry {
    type Value = Import;

    ghost form = { import };

    #[tactic(auto, unfolding(crate::specs::Parts::import))]
    fn entry(alloc: Global, bytes: &[u8]) -> Result<(Import, &[u8]), FormError> {
        let (module, rest) = split_name(bytes).ok_or(FormError::Malformed)?;
        let (name, rest) = split_name(rest).ok_or(FormError::Malformed)?;
        let (desc, rest) = split_desc(rest).ok_or(FormError::Malformed)?;
        let module = Text::new(alloc, module)?;
        let name = Text::new(alloc, name)?;
        Ok((Import { module, name, desc }, rest))
    }
}

/// How many functions an import adds: one or none.
fn func_count(desc: ImportDesc) -> u32
    ensures { result ≡ func_count desc }
{
    match desc {
        ImportDesc::Func(_) => 1,
        _ => 0,
    }
}

/// Which imports are functions: those of size 1.
pub struct FunctionImports;

impl Measure for FunctionImports {
    type Value = Import;

    ghost form = { import };

    ghost size = { λ i. func_count i.desc };

    #[tactic(auto, unfolding(crate::specs::Parts::import))]
    fn measure(_alloc: Global, bytes: &[u8]) -> Result<(u32, &[u8]), FormError> {
        let (_, rest) = split_name(bytes).ok_or(FormError::Malformed)?;
        let (_, rest) = split_name(rest).ok_or(FormError::Malformed)?;
        let (desc, rest) = split_desc(rest).ok_or(FormError::Malformed)?;
        Ok((func_count(desc), rest))
    }
}
