// Immediates of instructions, as the binary format spells them.

ghost use Rattle.std.specs.Prelude.{◌≡◌};
ghost use Rattle.grammar_kit.specs.Form.{raw, many, vector};
ghost use Rattle.grammar_kit.specs.Gives.{Gives, GivesOption};
ghost use Rattle.wasm_frame.specs.Leb128.{u32};
ghost use Rattle.code_new.specs.Types.{value_type};
ghost use Rattle.code_new.specs.Immediates.{offset_at, mem_arg, tag_clause_of, all_clause_of, clause};

use crate::types::split_value_type;
use grammar_kit::{Entry, FormError, read_byte, read_many};
use sqlite_items::Items;
use std::alloc::Global;
use wasm_ast::lists::Types;
use wasm_ast::module::{Catch, MemArg};
use wasm_frame::leb128::{split_u32, split_u64};

/// The first `N` bytes, and the bytes after them. `None` exactly where there are fewer.
pub fn read_array<const N: usize>(bytes: &[u8]) -> Option<([u8; N], &[u8])>
    ensures { GivesOption (λ p. (p.0, p.1.now)) result ((raw N).read bytes.now) }
{
    let (front, rest) = bytes.split_first_chunk::<N>()?;
    Some((*front, rest))
}

/// The offset at the front, in an access to this memory with this alignment, and the bytes after it.
#[tactic(auto, unfolding(crate::specs::Immediates::offset_at))]
fn offset_at(memory: u32, align: u32, bytes: &[u8]) -> Option<(MemArg, &[u8])>
    ensures { GivesOption (λ p. (p.0, p.1.now)) result ((offset_at memory align).read bytes.now) }
{
    let (offset, rest) = split_u64(bytes)?;
    let at = MemArg {
        memory,
        align,
        offset,
    };
    Some((at, rest))
}

/// The memory argument at the front, and the bytes after it.
#[tactic(auto, unfolding(crate::specs::Immediates::mem_arg))]
pub fn split_mem_arg(bytes: &[u8]) -> Option<(MemArg, &[u8])>
    ensures { GivesOption (λ p. (p.0, p.1.now)) result (mem_arg.read bytes.now) }
{
    let (field, rest) = split_u32(bytes)?;
    if field < 64 {
        offset_at(0, field, rest)
    } else if field < 128 {
        let (memory, rest) = split_u32(rest)?;
        offset_at(memory, field - 64, rest)
    } else {
        None
    }
}

/// The catch clause of this kind for a tag, with its index and a label.
#[tactic(auto, unfolding(crate::specs::Immediates::tag_clause_of))]
fn tag_clause_of(kind: u8, tag: u32, label: u32) -> Option<Catch>
    ensures { result ≡ tag_clause_of kind tag label }
{
    match kind {
        0x00 => Some(Catch::Tag(tag, label)),
        0x01 => Some(Catch::TagRef(tag, label)),
        _ => None,
    }
}

/// The catch clause of this kind for all tags, with a label.
#[tactic(auto, unfolding(crate::specs::Immediates::all_clause_of))]
fn all_clause_of(kind: u8, label: u32) -> Option<Catch>
    ensures { result ≡ all_clause_of kind label }
{
    match kind {
        0x02 => Some(Catch::All(label)),
        0x03 => Some(Catch::AllRef(label)),
        _ => None,
    }
}

/// The catch clause at the front, and the bytes after it.
#[tactic(auto, unfolding(crate::specs::Immediates::clause))]
fn split_clause(bytes: &[u8]) -> Option<(Catch, &[u8])>
    ensures { GivesOption (λ p. (p.0, p.1.now)) result (clause.read bytes.now) }
{
    let (kind, rest) = read_byte(bytes)?;
    let (first, rest) = split_u32(rest)?;
    if kind < 0x02 {
        let (label, rest) = split_u32(rest)?;
        let clause = tag_clause_of(kind, first, label)?;
        return Some((clause, rest));
    }
    let clause = all_clause_of(kind, first)?;
    Some((clause, rest))
}

/// A catch clause in a list.
struct ClauseEntry;

impl Entry for ClauseEntry {
    type Value = Catch;

    ghost form = { clause };

    fn entry(_alloc: Global, bytes: &[u8]) -> Result<(Catch, &[u8]), FormError> {
        split_clause(bytes).ok_or(FormError::Malformed)
    }
}

/// The list of catch clauses at the front, and the bytes after it.
pub fn read_clauses(alloc: Global, bytes: &[u8]) -> Result<(Items<Catch>, &[u8]), FormError>
    ensures { Gives (λ p. (p.0, p.1.now)) result ((vector u32 clause).read bytes.now) }
{
    let (count, rest) = split_u32(bytes).ok_or(FormError::Malformed)?;
    read_many::<ClauseEntry>(alloc, count, rest)
}

/// An index in a list.
struct IndexEntry;

impl Entry for IndexEntry {
    type Value = u32;

    ghost form = { u32 };

    fn entry(_alloc: Global, bytes: &[u8]) -> Result<(u32, &[u8]), FormError> {
        split_u32(bytes).ok_or(FormError::Malformed)
    }
}

/// The list of indices at the front, and the bytes after it.
pub fn read_indices(alloc: Global, bytes: &[u8]) -> Result<(Items<u32>, &[u8]), FormError>
    ensures { Gives (λ p. (p.0, p.1.now)) result ((vector u32 u32).read bytes.now) }
{
    let (count, rest) = split_u32(bytes).ok_or(FormError::Malformed)?;
    read_many::<IndexEntry>(alloc, count, rest)
}

/// The first `count` value types, and the bytes after them. Room is taken for one type at a time.
fn read_many_types(alloc: Global, count: u32, bytes: &[u8]) -> Result<(Types, &[u8]), FormError>
    ensures { Gives (λ p. (p.0, p.1.now)) result ((many value_type count).read bytes.now) }
{
    let mut types = Types::new(alloc);
    let mut rest = bytes;
    for _ in 0..count {
        let (ty, after) = split_value_type(rest).ok_or(FormError::Malformed)?;
        types.push(ty)?;
        rest = after;
    }
    Ok((types, rest))
}

/// The list of value types at the front, and the bytes after it ("Vectors" and "Value Types" of the standard).
pub fn read_value_types(alloc: Global, bytes: &[u8]) -> Result<(Types, &[u8]), FormError>
    ensures { Gives (λ p. (p.0, p.1.now)) result ((vector u32 value_type).read bytes.now) }
{
    let (count, rest) = split_u32(bytes).ok_or(FormError::Malformed)?;
    read_many_types(alloc, count, rest)
}
