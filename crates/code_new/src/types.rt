// Types, as the binary format spells them.

ghost use Rattle.std.specs.Prelude.{◌≡◌, ℕ, List, ◌∷◌};
ghost use Rattle.grammar_kit.specs.Gives.{GivesOption};
ghost use Rattle.code_new.specs.Types.{heap_type_at, heap_type, ref_type_at, ref_type, value_type_at, value_type, type_index_at, block_type};

use grammar_kit::read_byte;
use wasm_ast::module::{BlockType, Ty};
use wasm_frame::leb128::split_s33;

/// The type of references with this byte ("Heap Types" of the standard).
#[tactic(auto, unfolding(crate::specs::Types::heap_type_at))]
fn heap_type_at(byte: u8, rest: &[u8]) -> Option<(Ty, &[u8])>
    ensures { GivesOption (λ p. (p.0, p.1.now)) result ((heap_type_at byte).read rest.now) }
{
    match byte {
        0x70 => Some((Ty::Func, rest)),
        0x6F => Some((Ty::Extern, rest)),
        0x69 => Some((Ty::Exn, rest)),
        _ => None,
    }
}

/// The heap type at the front, as the type of the references to it, and the bytes after it ("Heap Types" of the
/// standard). `None` exactly where none stands there.
#[tactic(auto, unfolding(crate::specs::Types::heap_type))]
pub fn split_heap_type(bytes: &[u8]) -> Option<(Ty, &[u8])>
    ensures { GivesOption (λ p. (p.0, p.1.now)) result (heap_type.read bytes.now) }
{
    let (byte, rest) = read_byte(bytes)?;
    heap_type_at(byte, rest)
}

/// The reference type whose first byte was read, and the bytes after it. `None` exactly where none stands there.
#[tactic(auto, unfolding(crate::specs::Types::ref_type_at))]
pub fn ref_type_at(byte: u8, rest: &[u8]) -> Option<(Ty, &[u8])>
    ensures { GivesOption (λ p. (p.0, p.1.now)) result ((ref_type_at byte).read rest.now) }
{
    if byte == 0x63 {
        split_heap_type(rest)
    } else {
        heap_type_at(byte, rest)
    }
}

/// The reference type at the front, and the bytes after it ("Reference Types" of the standard). `None` exactly where
/// none stands there.
#[tactic(auto, unfolding(crate::specs::Types::ref_type))]
pub fn split_ref_type(bytes: &[u8]) -> Option<(Ty, &[u8])>
    ensures { GivesOption (λ p. (p.0, p.1.now)) result (ref_type.read bytes.now) }
{
    let (byte, rest) = read_byte(bytes)?;
    ref_type_at(byte, rest)
}

/// The value type whose first byte was read.
#[tactic(auto, unfolding(crate::specs::Types::value_type_at))]
fn value_type_at(byte: u8, rest: &[u8]) -> Option<(Ty, &[u8])>
    ensures { GivesOption (λ p. (p.0, p.1.now)) result ((value_type_at byte).read rest.now) }
{
    match byte {
        0x7F => Some((Ty::I32, rest)),
        0x7E => Some((Ty::I64, rest)),
        0x7D => Some((Ty::F32, rest)),
        0x7C => Some((Ty::F64, rest)),
        0x7B => Some((Ty::V128, rest)),
        _ => ref_type_at(byte, rest),
    }
}

/// The value type at the front, and the bytes after it ("Value Types" of the standard). `None` exactly where none
/// stands there.
#[tactic(auto, unfolding(crate::specs::Types::value_type))]
pub fn split_value_type(bytes: &[u8]) -> Option<(Ty, &[u8])>
    ensures { GivesOption (λ p. (p.0, p.1.now)) result (value_type.read bytes.now) }
{
    let (byte, rest) = read_byte(bytes)?;
    value_type_at(byte, rest)
}

/// The type index at the front, and the bytes after it.
#[tactic(auto, unfolding(crate::specs::Types::type_index_at))]
fn split_type_index(bytes: &[u8]) -> Option<(BlockType, &[u8])>
    ensures { (b : ℕ) (rest : List ℕ) → bytes.now ≡ b ∷ rest → GivesOption (λ p. (p.0, p.1.now)) result ((type_index_at b).read rest) }
{
    let (index, rest) = split_s33(bytes)?;
    if index < 1 << 32 {
        Some((BlockType::Index(index as u32), rest))
    } else {
        None
    }
}

/// The block type at the front, and the bytes after it ("Block Types" of the standard). `None` exactly where none
/// stands there.
#[tactic(auto, unfolding(crate::specs::Types::block_type, crate::specs::Types::block_type_at))]
pub fn split_block_type(bytes: &[u8]) -> Option<(BlockType, &[u8])>
    ensures { GivesOption (λ p. (p.0, p.1.now)) result (block_type.read bytes.now) }
{
    let (byte, rest) = read_byte(bytes)?;
    if byte == 0x40 {
        return Some((BlockType::Empty, rest));
    }
    if 0x40 <= byte && byte < 0x80 {
        let (ty, rest) = value_type_at(byte, rest)?;
        return Some((BlockType::One(ty), rest));
    }
    split_type_index(bytes)
}
