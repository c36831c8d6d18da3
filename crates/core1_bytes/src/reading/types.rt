// Types, as the binary format spells them.

ghost use Rattle.std.specs.Prelude.{◌≡◌};
ghost use Rattle.grammar_kit.specs.Form.{vector};
ghost use Rattle.grammar_kit.specs.Gives.{Gives, GivesOption};
ghost use Rattle.wasm_frame.specs.Leb128.{u32};
ghost use Rattle.core1_bytes.specs.Types.{type_of, value_type, block_type, func_type, limits, table_type, mutability, global_type};

use core1_ast::module::{BlockType1, FuncType1, Limits1, Ty1};
use grammar_kit::{Entry, FormError, read_byte, read_many};
use sqlite_items::Items;
use std::alloc::Global;
use wasm_frame::leb128::split_u32;

/// The value type with this byte, if there is one.
fn type_of(byte: u8) -> Option<Ty1>
    ensures { result ≡ type_of byte }
{
    match byte {
        0x7F => Some(Ty1::I32),
        0x7E => Some(Ty1::I64),
        0x7D => Some(Ty1::F32),
        0x7C => Some(Ty1::F64),
        _ => None,
    }
}

/// The value type at the front, and the bytes after it.
#[tactic(auto, unfolding(crate::specs::Types::value_type))]
pub fn split_value_type(bytes: &[u8]) -> Option<(Ty1, &[u8])>
    ensures { GivesOption (λ p. (p.0, p.1.now)) result (value_type.read bytes.now) }
{
    let (byte, rest) = read_byte(bytes)?;
    let ty = type_of(byte)?;
    Some((ty, rest))
}

/// The type of a block at the front, and the bytes after it.
#[tactic(auto, unfolding(crate::specs::Types::block_type))]
pub fn split_block_type(bytes: &[u8]) -> Option<(BlockType1, &[u8])>
    ensures { GivesOption (λ p. (p.0, p.1.now)) result (block_type.read bytes.now) }
{
    let (byte, rest) = read_byte(bytes)?;
    if byte == 0x40 {
        return Some((BlockType1::Empty, rest));
    }
    let ty = type_of(byte)?;
    Some((BlockType1::One(ty), rest))
}

/// A value type in a list.
pub struct ValueTypeEntry;

impl Entry for ValueTypeEntry {
    type Value = Ty1;

    ghost form = { value_type };

    fn entry(_alloc: Global, bytes: &[u8]) -> Result<(Ty1, &[u8]), FormError> {
        split_value_type(bytes).ok_or(FormError::Malformed)
    }
}

/// The vector at the front, and the bytes after it.
pub fn read_list<E: Entry>(
    alloc: Global,
    bytes: &[u8],
) -> Result<(Items<E::Value>, &[u8]), FormError>
    ensures { Gives (λ p. (p.0, p.1.now)) result ((vector u32 E.form).read bytes.now) }
{
    let (count, rest) = split_u32(bytes).ok_or(FormError::Malformed)?;
    read_many::<E>(alloc, count, rest)
}

/// An entry of the type section.
pub struct TypeEntry;

impl Entry for TypeEntry {
    type Value = FuncType1;

    ghost form = { func_type };

    #[tactic(auto, unfolding(crate::specs::Types::func_type))]
    fn entry(alloc: Global, bytes: &[u8]) -> Result<(FuncType1, &[u8]), FormError> {
        match read_byte(bytes) {
            Some((0x60, rest)) => {
                let (params, rest) = read_list::<ValueTypeEntry>(alloc, rest)?;
                let (results, rest) = read_list::<ValueTypeEntry>(alloc, rest)?;
                Ok((FuncType1 { params, results }, rest))
            }
            _ => Err(FormError::Malformed),
        }
    }
}

/// The limits at the front, and the bytes after them.
#[tactic(auto, unfolding(crate::specs::Types::limits))]
pub fn split_limits(bytes: &[u8]) -> Option<(Limits1, &[u8])>
    ensures { GivesOption (λ p. (p.0, p.1.now)) result (limits.read bytes.now) }
{
    let (flag, rest) = read_byte(bytes)?;
    match flag {
        0x00 => {
            let (min, rest) = split_u32(rest)?;
            Some((Limits1 { min, max: None }, rest))
        }
        0x01 => {
            let (min, rest) = split_u32(rest)?;
            let (max, rest) = split_u32(rest)?;
            let max = Some(max);
            Some((Limits1 { min, max }, rest))
        }
        _ => None,
    }
}

/// The type of a table at the front, and the bytes after it.
#[tactic(auto, unfolding(crate::specs::Types::table_type))]
pub fn split_table_type(bytes: &[u8]) -> Option<(Limits1, &[u8])>
    ensures { GivesOption (λ p. (p.0, p.1.now)) result (table_type.read bytes.now) }
{
    match read_byte(bytes)? {
        (0x70, rest) => split_limits(rest),
        _ => None,
    }
}

/// Whether a global is mutable, by the byte at the front, and the bytes after it.
#[tactic(auto, unfolding(crate::specs::Types::mutability))]
fn split_mutability(bytes: &[u8]) -> Option<(bool, &[u8])>
    ensures { GivesOption (λ p. (p.0, p.1.now)) result (mutability.read bytes.now) }
{
    match read_byte(bytes)? {
        (0x00, rest) => Some((false, rest)),
        (0x01, rest) => Some((true, rest)),
        _ => None,
    }
}

/// The type of a global at the front, whether it is mutable, and the bytes after them.
#[tactic(auto, unfolding(crate::specs::Types::global_type))]
pub fn split_global_type(bytes: &[u8]) -> Option<(Ty1, bool, &[u8])>
    ensures { GivesOption (λ p. (record { type = p.0; mutable = p.1 }, p.2.now)) result (global_type.read bytes.now) }
{
    let (ty, rest) = split_value_type(bytes)?;
    let (mutable, rest) = split_mutability(rest)?;
    Some((ty, mutable, rest))
}
