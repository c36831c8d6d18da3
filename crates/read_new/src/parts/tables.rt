ghost use Rattle.std.specs.Prelude.{Some, None, Bool, ℕ};
ghost use Rattle.grammar_kit.specs.Gives.{Gives, GivesOption};
ghost use Rattle.grammar_kit.specs.Measures.{through};
ghost use Rattle.read_new.specs.Types.{limits, from_min, from_min_to_max, tag};
ghost use Rattle.read_new.specs.Parts.{table};
ghost use Rattle.read_new.specs.Limits.{table_depth};

use code_new::code::{measure_expr, read_expr};
use code_new::types::{ref_type_at, split_ref_type};
use grammar_kit::{Entry, FormError, Measure, read_byte};
use std::alloc::Global;
use wasm_ast::module::{Limits, Table};
use wasm_frame::leb128::{split_u32, split_u64};

/// Limits of a least size alone, and the bytes after them.
#[tactic(auto, unfolding(crate::specs::Types::from_min))]
fn split_min(wide: bool, bytes: &[u8]) -> Option<(Limits, &[u8])>
    ensures { GivesOption (λ p. (p.0, p.1.now)) result ((from_min wide).read bytes.now) }
{
    let (min, rest) = split_u64(bytes)?;
    let max = None;
    Some((Limits { min, max, wide }, rest))
}

/// Limits of a least and a greatest size, and the bytes after them.
#[tactic(auto, unfolding(crate::specs::Types::from_min_to_max))]
fn split_min_to_max(wide: bool, bytes: &[u8]) -> Option<(Limits, &[u8])>
    ensures { GivesOption (λ p. (p.0, p.1.now)) result ((from_min_to_max wide).read bytes.now) }
{
    let (min, rest) = split_u64(bytes)?;
    let (max, rest) = split_u64(rest)?;
    let max = Some(max);
    Some((Limits { min, max, wide }, rest))
}

/// The limits at the front, and the bytes after them ("Limits" of the standard).
#[tactic(auto, unfolding(crate::specs::Types::limits))]
pub fn split_limits(bytes: &[u8]) -> Option<(Limits, &[u8])>
    ensures { GivesOption (λ p. (p.0, p.1.now)) result (limits.read bytes.now) }
{
    match read_byte(bytes)? {
        (0x00, rest) => split_min(false, rest),
        (0x01, rest) => split_min_to_max(false, rest),
        (0x04, rest) => split_min(true, rest),
        (0x05, rest) => split_min_to_max(true, rest),
        _ => None,
    }
}

/// The index of a tag's type, and the bytes after it ("Tag Types" of the standard).
#[tactic(auto, unfolding(crate::specs::Types::tag))]
pub fn split_tag(bytes: &[u8]) -> Option<(u32, &[u8])>
    ensures { GivesOption (λ p. (p.0, p.1.now)) result (tag.read bytes.now) }
{
    match read_byte(bytes)? {
        (0x00, rest) => split_u32(rest),
        _ => None,
    }
}

/// An entry of the memory section: the limits of a memory.
pub struct LimitsEntry;

impl Entry for LimitsEntry {
    type Value = Limits;

    ghost form = { limits };

    fn entry(_alloc: Global, bytes: &[u8]) -> Result<(Limits, &[u8]), FormError> {
        split_limits(bytes).ok_or(FormError::Malformed)
    }
}

/// An entry of the tag section: the index of a tag's type.
pub struct TagEntry;

impl Entry for TagEntry {
    type Value = u32;

    ghost form = { tag };

    fn entry(_alloc: Global, bytes: &[u8]) -> Result<(u32, &[u8]), FormError> {
        split_tag(bytes).ok_or(FormError::Malformed)
    }
}

/// An entry of the table section.
pub struct TableEntry;

impl Entry for TableEntry {
    type Value = Table;

    ghost form = { table };

    #[tactic(auto, unfolding(crate::specs::Parts::table))]
    fn entry(alloc: Global, bytes: &[u8]) -> Result<(Table, &[u8]), FormError> {
        let (first, rest) = read_byte(bytes).ok_or(FormError::Malformed)?;
        if first != 0x40 {
            let (ty, rest) = ref_type_at(first, rest).ok_or(FormError::Malformed)?;
            let (limits, rest) = split_limits(rest).ok_or(FormError::Malformed)?;
            let init = None;
            return Ok((Table { ty, limits, init }, rest));
        }
        let Some((0x00, rest)) = read_byte(rest) else {
            return Err(FormError::Malformed);
        };
        let (ty, rest) = split_ref_type(rest).ok_or(FormError::Malformed)?;
        let (limits, rest) = split_limits(rest).ok_or(FormError::Malformed)?;
        let (code, rest) = read_expr(alloc, rest)?;
        let init = Some(code);
        Ok((Table { ty, limits, init }, rest))
    }
}

/// How deeply instructions nest in the expressions of tables.
pub struct TableMeasure;

impl Measure for TableMeasure {
    type Value = Table;

    ghost form = { table };

    ghost size = { table_depth };

    #[tactic(auto, unfolding(crate::specs::Parts::table))]
    fn measure(alloc: Global, bytes: &[u8]) -> Result<(u32, &[u8]), FormError> {
        let (first, rest) = read_byte(bytes).ok_or(FormError::Malformed)?;
        if first != 0x40 {
            let (_, rest) = ref_type_at(first, rest).ok_or(FormError::Malformed)?;
            let (_, rest) = split_limits(rest).ok_or(FormError::Malformed)?;
            return Ok((0, rest));
        }
        let Some((0x00, rest)) = read_byte(rest) else {
            return Err(FormError::Malformed);
        };
        let (_, rest) = split_ref_type(rest).ok_or(FormError::Malformed)?;
        let (_, rest) = split_limits(rest).ok_or(FormError::Malformed)?;
        let (sizes, rest) = measure_expr(alloc, rest)?;
        Ok((sizes.nesting, rest))
    }
}
