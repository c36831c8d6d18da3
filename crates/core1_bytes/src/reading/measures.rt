// How large the entries of sections are, found without keeping them.

ghost use Rattle.std.specs.Prelude.{◌≡◌, length};
ghost use Rattle.grammar_kit.specs.Form.{vector, many};
ghost use Rattle.grammar_kit.specs.Gives.{Gives};
ghost use Rattle.grammar_kit.specs.Measures.{through, greatest};
ghost use Rattle.wasm_frame.specs.Leb128.{u32};
ghost use Rattle.core1_bytes.specs.Types.{value_type, func_type};
ghost use Rattle.core1_bytes.specs.Nesting.{depth};
ghost use Rattle.core1_bytes.specs.Limits.{func_count};
ghost use Rattle.core1_bytes.specs.Parts.{import, global, element, segment};

use super::code::measure_expr;
use super::instructions::IndexEntry;
use super::parts::split_import_desc;
use super::types::{ValueTypeEntry, split_global_type};
use core1_ast::module::{Element1, FuncType1, Global1, Import1, ImportDesc1, Segment1};
use grammar_kit::{Dropped, FormError, Measure, measure_many, read_byte};
use std::alloc::Global;
use wasm_frame::leb128::split_u32;
use wasm_frame::names::{split_byte_vector, split_name};

/// The bytes behind the first `count` value types, none of which is kept.
fn skip_types(alloc: Global, count: u32, bytes: &[u8]) -> Result<&[u8], FormError>
    ensures { Gives (λ r. (count, r.now)) result (through length ((many value_type count).read bytes.now)) }
{
    let (_, rest) = measure_many::<Dropped<ValueTypeEntry>>(alloc, count, bytes)?;
    Ok(rest)
}

/// How many value types the vector at the front has, and the bytes after it.
fn count_types(alloc: Global, bytes: &[u8]) -> Result<(u32, &[u8]), FormError>
    ensures { Gives (λ p. (p.0, p.1.now)) result (through length ((vector u32 value_type).read bytes.now)) }
{
    let (count, rest) = split_u32(bytes).ok_or(FormError::Malformed)?;
    let rest = skip_types(alloc, count, rest)?;
    Ok((count, rest))
}

/// How many parameters the function types have.
pub struct ParameterCounts;

impl Measure for ParameterCounts {
    type Value = FuncType1;

    ghost form = { func_type };

    ghost size = { λ t. length t.params };

    #[tactic(auto, unfolding(crate::specs::Types::func_type))]
    fn measure(alloc: Global, bytes: &[u8]) -> Result<(u32, &[u8]), FormError> {
        match read_byte(bytes) {
            Some((0x60, rest)) => {
                let (params, rest) = count_types(alloc, rest)?;
                let (_, rest) = count_types(alloc, rest)?;
                Ok((params, rest))
            }
            _ => Err(FormError::Malformed),
        }
    }
}

/// How many functions an import adds.
fn func_count(desc: ImportDesc1) -> u32
    ensures { result ≡ func_count desc }
{
    match desc {
        ImportDesc1::Func(_) => 1,
        ImportDesc1::Table(_) | ImportDesc1::Memory(_) | ImportDesc1::Global(_, _) => 0,
    }
}

/// How many functions the imports add.
pub struct FunctionImports;

impl Measure for FunctionImports {
    type Value = Import1;

    ghost form = { import };

    ghost size = { λ i. func_count i.desc };

    #[tactic(auto, unfolding(crate::specs::Parts::import))]
    fn measure(_alloc: Global, bytes: &[u8]) -> Result<(u32, &[u8]), FormError> {
        let (_, rest) = split_name(bytes).ok_or(FormError::Malformed)?;
        let (_, rest) = split_name(rest).ok_or(FormError::Malformed)?;
        let (desc, rest) = split_import_desc(rest).ok_or(FormError::Malformed)?;
        Ok((func_count(desc), rest))
    }
}

/// How deeply instructions nest in the initial values of globals.
pub struct GlobalMeasure;

impl Measure for GlobalMeasure {
    type Value = Global1;

    ghost form = { global };

    ghost size = { λ g. greatest depth g.init };

    #[tactic(auto, unfolding(crate::specs::Parts::global))]
    fn measure(alloc: Global, bytes: &[u8]) -> Result<(u32, &[u8]), FormError> {
        let (_, _, rest) = split_global_type(bytes).ok_or(FormError::Malformed)?;
        measure_expr(alloc, rest)
    }
}

/// The bytes behind a vector of indices, none of which is kept.
fn skip_indices(alloc: Global, bytes: &[u8]) -> Result<(u32, &[u8]), FormError>
    ensures { Gives (λ p. (p.0, p.1.now)) result (through length ((vector u32 u32).read bytes.now)) }
{
    let (count, rest) = split_u32(bytes).ok_or(FormError::Malformed)?;
    let rest = skip_many_indices(alloc, count, rest)?;
    Ok((count, rest))
}

fn skip_many_indices(alloc: Global, count: u32, bytes: &[u8]) -> Result<&[u8], FormError>
    ensures { Gives (λ r. (count, r.now)) result (through length ((many u32 count).read bytes.now)) }
{
    let (_, rest) = measure_many::<Dropped<IndexEntry>>(alloc, count, bytes)?;
    Ok(rest)
}

/// How deeply instructions nest in the offsets of element segments.
pub struct ElementMeasure;

impl Measure for ElementMeasure {
    type Value = Element1;

    ghost form = { element };

    ghost size = { λ e. greatest depth e.offset };

    #[tactic(auto, unfolding(crate::specs::Parts::element))]
    fn measure(alloc: Global, bytes: &[u8]) -> Result<(u32, &[u8]), FormError> {
        let (_, rest) = split_u32(bytes).ok_or(FormError::Malformed)?;
        let (nesting, rest) = measure_expr(alloc, rest)?;
        let (_, rest) = skip_indices(alloc, rest)?;
        Ok((nesting, rest))
    }
}

/// How deeply instructions nest in the offsets of data segments.
pub struct SegmentMeasure;

impl Measure for SegmentMeasure {
    type Value = Segment1;

    ghost form = { segment };

    ghost size = { λ s. greatest depth s.offset };

    #[tactic(auto, unfolding(crate::specs::Parts::segment))]
    fn measure(alloc: Global, bytes: &[u8]) -> Result<(u32, &[u8]), FormError> {
        let (_, rest) = split_u32(bytes).ok_or(FormError::Malformed)?;
        let (nesting, rest) = measure_expr(alloc, rest)?;
        let (_, rest) = split_byte_vector(rest).ok_or(FormError::Malformed)?;
        Ok((nesting, rest))
    }
}
