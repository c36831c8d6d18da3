ghost use Rattle.std.specs.Prelude.{length, IfOk, MatchOption};
ghost use Rattle.grammar_kit.specs.Form.{vector, many};
ghost use Rattle.grammar_kit.specs.Gives.{Gives};
ghost use Rattle.grammar_kit.specs.Measures.{through};
ghost use Rattle.wasm_frame.specs.Leb128.{u32};
ghost use Rattle.code_new.specs.Types.{value_type};
ghost use Rattle.wasm_frame.specs.Payloads.{IsRead};
ghost use Rattle.read_new.specs.Types.{func_type, counts, most_counts};
ghost use Rattle.read_new.specs.Parts.{type_section};
ghost use Rattle.read_new.specs.Sizes.{AreTypeSizes, Measured};

use code_new::read_value_types;
use code_new::types::split_value_type;
use grammar_kit::{Dropped, Entry, FormError, measure_many, read_byte};
use module_reading::Sizes;
use std::alloc::{AllocError, Global};
use wasm_ast::module::{FuncType, Ty};
use wasm_frame::leb128::split_u32;

/// A value type as an entry.
struct ValueTypeEntry;

impl Entry for ValueTypeEntry {
    type Value = Ty;

    ghost form = { value_type };

    fn entry(_alloc: Global, bytes: &[u8]) -> Result<(Ty, &[u8]), FormError> {
        split_value_type(bytes).ok_or(FormError::Malformed)
    }
}

/// The bytes behind the first `count` value types, none of which is kept.
fn skip_types(alloc: Global, count: u32, bytes: &[u8]) -> Result<&[u8], FormError>
    ensures { Gives (λ r. (count, r.now)) result (through length ((many value_type count).read bytes.now)) }
{
    let (_, rest) = measure_many::<Dropped<ValueTypeEntry>>(alloc, count, bytes)?;
    Ok(rest)
}

/// How many value types the vector at the front has, and the bytes after it.
fn count_value_types(alloc: Global, bytes: &[u8]) -> Result<(u32, &[u8]), FormError>
    ensures { Gives (λ p. (p.0, p.1.now)) result (through length ((vector u32 value_type).read bytes.now)) }
{
    let (count, rest) = split_u32(bytes).ok_or(FormError::Malformed)?;
    let rest = skip_types(alloc, count, rest)?;
    Ok((count, rest))
}

/// An entry of the type section ("Function Types" of the standard).
pub struct TypeEntry;

impl Entry for TypeEntry {
    type Value = FuncType;

    ghost form = { func_type };

    #[tactic(auto, unfolding(crate::specs::Types::func_type))]
    fn entry(alloc: Global, bytes: &[u8]) -> Result<(FuncType, &[u8]), FormError> {
        match read_byte(bytes) {
            Some((0x60, rest)) => {
                let (params, rest) = read_value_types(alloc, rest)?;
                let (results, rest) = read_value_types(alloc, rest)?;
                Ok((FuncType { params, results }, rest))
            }
            _ => Err(FormError::Malformed),
        }
    }
}

/// How many parameters and results a function type has, and the bytes after it. None of them is kept.
#[tactic(auto, unfolding(crate::specs::Types::func_type))]
fn count_func_type(alloc: Global, bytes: &[u8]) -> Result<(u32, u32, &[u8]), FormError>
    ensures { Gives (λ p. ((p.0, p.1), p.2.now)) result (through counts (func_type.read bytes.now)) }
{
    match read_byte(bytes) {
        Some((0x60, rest)) => {
            let (params, rest) = count_value_types(alloc, rest)?;
            let (results, rest) = count_value_types(alloc, rest)?;
            Ok((params, results, rest))
        }
        _ => Err(FormError::Malformed),
    }
}

/// The most parameters and results of the first `count` function types, and the bytes after them. None of them is kept.
fn measure_types(alloc: Global, count: u32, bytes: &[u8]) -> Result<(u32, u32, &[u8]), FormError>
    ensures { Gives (λ p. ((p.0, p.1), p.2.now)) result (through most_counts ((many func_type count).read bytes.now)) }
{
    let mut parameters = 0;
    let mut results = 0;
    let mut rest = bytes;
    for _ in 0..count {
        let (params, gives, after) = count_func_type(alloc, rest)?;
        parameters = params.max(parameters);
        results = gives.max(results);
        rest = after;
    }
    Ok((parameters, results, rest))
}

/// How large a payload is that is a vector of function types.
fn measure_type_section(alloc: Global, payload: &[u8]) -> Result<Sizes, FormError>
    ensures { Measured result payload.now }
{
    let (count, rest) = split_u32(payload).ok_or(FormError::Malformed)?;
    let (parameters, results, rest) = measure_types(alloc, count, rest)?;
    if !rest.is_empty() {
        return Err(FormError::Malformed);
    }
    Ok(Sizes {
        count,
        greatest: parameters,
        second: results,
        ..Sizes::NONE
    })
}

/// How large a payload is that is a vector of function types. `None` where it is none.
pub fn type_sizes(alloc: Global, payload: &[u8]) -> Result<Option<Sizes>, AllocError>
    ensures { IfOk result (λ sizes. MatchOption sizes (¬ (IsRead type_section payload.now)) (AreTypeSizes payload.now)) }
{
    match measure_type_section(alloc, payload) {
        Ok(sizes) => Ok(Some(sizes)),
        Err(FormError::Malformed) => Ok(None),
        Err(FormError::Memory(error)) => Err(error),
    }
}
