// The payloads of sections: where they are, and what their vectors hold.

ghost use Rattle.std.specs.Prelude.{◌≡◌, [], All, IfOk, None, option_map};
ghost use Rattle.grammar_kit.specs.Form.{vector};
ghost use Rattle.grammar_kit.specs.Gives.{Gives};
ghost use Rattle.grammar_kit.specs.Sequences.{whole};
ghost use Rattle.wasm_frame.specs.Frame.{IsWithin, parts_of};
ghost use Rattle.wasm_frame.specs.Leb128.{u32};
ghost use Rattle.wasm_frame.specs.Payloads.{payload_of, value, optional, counted};

use crate::leb128::split_u32;
use crate::sections::Section;
use grammar_kit::{Entry, Extent, FormError, Measure, measure_many, read_many};
use sqlite_items::Items;
use std::alloc::{AllocError, Global};

/// The payload of the section of an id. `None` exactly where the file has no such section.
pub fn payload_of<'a>(b: &'a [u8], found: &[Section], id: u8) -> Option<&'a [u8]>
    requires { All (IsWithin b.now) found.now }
    ensures { option_map (λ p. p.now) result ≡ payload_of id (parts_of b.now found.now) }
{
    for section in found {
        if section.id == id {
            return Some(&b[section.start..section.end]);
        }
    }
    None
}

/// The entries of a payload that is one vector.
pub fn read_vector<E: Entry>(alloc: Global, payload: &[u8]) -> Result<Items<E::Value>, FormError>
    ensures { Gives (λ entries. entries) result (whole ((vector u32 E.form).read payload.now)) }
{
    let (count, rest) = split_u32(payload).ok_or(FormError::Malformed)?;
    let (entries, rest) = read_many::<E>(alloc, count, rest)?;
    if rest.is_empty() {
        Ok(entries)
    } else {
        Err(FormError::Malformed)
    }
}

/// How many entries a payload that is one vector has, and their extent. No entry is kept.
pub fn measure_vector<M: Measure>(alloc: Global, payload: &[u8]) -> Result<(u32, Extent), FormError>
    ensures { Gives (λ p. (p.0, p.1.greatest, p.1.total)) result (option_map (counted M.size) (whole ((vector u32 M.form).read payload.now))) }
{
    let (count, rest) = split_u32(payload).ok_or(FormError::Malformed)?;
    let (extent, rest) = measure_many::<M>(alloc, count, rest)?;
    if rest.is_empty() {
        Ok((count, extent))
    } else {
        Err(FormError::Malformed)
    }
}

/// The entries of the payload of a vector, if there is one. A payload that is no vector has none.
pub fn vector_of<E: Entry>(
    alloc: Global,
    payload: Option<&[u8]>,
) -> Result<Items<E::Value>, AllocError>
    ensures { IfOk result (λ entries. entries ≡ value (vector u32 E.form) [] (option_map (λ p. p.now) payload.entry)) }
{
    let Some(payload) = payload else {
        return Ok(Items::new(alloc));
    };
    match read_vector::<E>(alloc, payload) {
        Ok(entries) => Ok(entries),
        Err(FormError::Malformed) => Ok(Items::new(alloc)),
        Err(FormError::Memory(error)) => Err(error),
    }
}

/// The number that a payload is, if there is one. A payload that is no number gives none.
pub fn number_of(payload: Option<&[u8]>) -> Option<u32>
    ensures { result ≡ value optional None (option_map (λ p. p.now) payload.entry) }
{
    let (number, rest) = split_u32(payload?)?;
    if rest.is_empty() { Some(number) } else { None }
}
