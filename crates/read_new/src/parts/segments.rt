ghost use Rattle.std.specs.Prelude.{◌≡◌, max};
ghost use Rattle.grammar_kit.specs.Form.{vector};
ghost use Rattle.grammar_kit.specs.Gives.{Gives, GivesOption};
ghost use Rattle.grammar_kit.specs.Measures.{through, greatest};
ghost use Rattle.wasm_frame.specs.Leb128.{u32};
ghost use Rattle.code_new.specs.Code.{expr, depths};
ghost use Rattle.read_new.specs.Limits.{mode_depth, element_depth};
ghost use Rattle.read_new.specs.Segments.{mode, index, items_type, entries, element, segment};

use code_new::code::{measure_expr, read_expr};
use code_new::types::split_ref_type;
use grammar_kit::{Entry, FormError, Measure, measure_many, read_byte, read_many};
use num_core::lists::Bytes;
use sqlite_items::Items;
use std::alloc::Global;
use wasm_ast::module::{Code, Element, Instr, Mode, Op, Segment, Ty};
use wasm_frame::leb128::split_u32;
use wasm_frame::names::split_byte_vector;

/// A function index as an entry: the expression that refers to the function.
struct IndexEntry;

impl Entry for IndexEntry {
    type Value = Code;

    ghost form = { index };

    #[tactic(auto, unfolding(crate::specs::Segments::index))]
    fn entry(alloc: Global, bytes: &[u8]) -> Result<(Code, &[u8]), FormError> {
        let (function, rest) = split_u32(bytes).ok_or(FormError::Malformed)?;
        let mut code = Items::new(alloc);
        code.push(Instr::Pure(Op::RefFunc(function)))?;
        Ok((code, rest))
    }
}

/// How deeply instructions nest in the expression of a function index: not at all.
struct IndexMeasure;

impl Measure for IndexMeasure {
    type Value = Code;

    ghost form = { index };

    ghost size = { depths };

    #[tactic(auto, unfolding(crate::specs::Segments::index))]
    fn measure(_alloc: Global, bytes: &[u8]) -> Result<(u32, &[u8]), FormError> {
        let (_, rest) = split_u32(bytes).ok_or(FormError::Malformed)?;
        Ok((0, rest))
    }
}

/// An expression as an entry.
struct ExprEntry;

impl Entry for ExprEntry {
    type Value = Code;

    ghost form = { expr };

    fn entry(alloc: Global, bytes: &[u8]) -> Result<(Code, &[u8]), FormError> {
        read_expr(alloc, bytes)
    }
}

/// How deeply instructions nest in an expression.
struct ExprMeasure;

impl Measure for ExprMeasure {
    type Value = Code;

    ghost form = { expr };

    ghost size = { depths };

    fn measure(alloc: Global, bytes: &[u8]) -> Result<(u32, &[u8]), FormError> {
        let (sizes, rest) = measure_expr(alloc, bytes)?;
        Ok((sizes.nesting, rest))
    }
}

/// How the segment with this flag is used, and the bytes after it.
#[tactic(auto, unfolding(crate::specs::Segments::mode))]
fn read_mode(alloc: Global, flag: u32, bytes: &[u8]) -> Result<(Mode, &[u8]), FormError>
    ensures { Gives (λ p. (p.0, p.1.now)) result ((mode flag).read bytes.now) }
{
    match flag {
        0 | 4 => {
            let (offset, rest) = read_expr(alloc, bytes)?;
            Ok((Mode::Active(0, offset), rest))
        }
        2 | 6 => {
            let (target, rest) = split_u32(bytes).ok_or(FormError::Malformed)?;
            let (offset, rest) = read_expr(alloc, rest)?;
            Ok((Mode::Active(target, offset), rest))
        }
        1 | 5 => Ok((Mode::Passive, bytes)),
        3 | 7 => Ok((Mode::Declarative, bytes)),
        _ => Err(FormError::Malformed),
    }
}

/// How deeply instructions nest in the offset of the segment with this flag, and the bytes after it.
#[tactic(auto, unfolding(crate::specs::Segments::mode))]
fn measure_mode(alloc: Global, flag: u32, bytes: &[u8]) -> Result<(u32, &[u8]), FormError>
    ensures { Gives (λ p. (p.0, p.1.now)) result (through mode_depth ((mode flag).read bytes.now)) }
{
    match flag {
        0 | 4 => {
            let (sizes, rest) = measure_expr(alloc, bytes)?;
            Ok((sizes.nesting, rest))
        }
        2 | 6 => {
            let (_, rest) = split_u32(bytes).ok_or(FormError::Malformed)?;
            let (sizes, rest) = measure_expr(alloc, rest)?;
            Ok((sizes.nesting, rest))
        }
        1 | 3 | 5 | 7 => Ok((0, bytes)),
        _ => Err(FormError::Malformed),
    }
}

/// The vector of entries at the front, and the bytes after it.
fn read_entries<E: Entry>(
    alloc: Global,
    bytes: &[u8],
) -> Result<(Items<E::Value>, &[u8]), FormError>
    ensures { Gives (λ p. (p.0, p.1.now)) result ((vector u32 E.form).read bytes.now) }
{
    let (count, rest) = split_u32(bytes).ok_or(FormError::Malformed)?;
    read_many::<E>(alloc, count, rest)
}

/// The greatest size of an entry of the vector at the front, and the bytes after it.
fn measure_entries<M: Measure>(alloc: Global, bytes: &[u8]) -> Result<(u32, &[u8]), FormError>
    ensures { Gives (λ p. (p.0, p.1.now)) result (through (greatest M.size) ((vector u32 M.form).read bytes.now)) }
{
    let (count, rest) = split_u32(bytes).ok_or(FormError::Malformed)?;
    let (extent, rest) = measure_many::<M>(alloc, count, rest)?;
    Ok((extent.greatest, rest))
}

/// The type of the entries behind the flag of an element segment, and the bytes after it.
#[tactic(auto, unfolding(crate::specs::Segments::items_type))]
fn split_items_type(flag: u32, bytes: &[u8]) -> Option<(Ty, &[u8])>
    ensures { GivesOption (λ p. (p.0, p.1.now)) result ((items_type flag).read bytes.now) }
{
    match flag {
        0 | 4 => Some((Ty::Func, bytes)),
        1 | 2 | 3 => match read_byte(bytes)? {
            (0x00, rest) => Some((Ty::Func, rest)),
            _ => None,
        },
        _ => split_ref_type(bytes),
    }
}

/// An entry of the element section.
pub struct ElementEntry;

impl Entry for ElementEntry {
    type Value = Element;

    ghost form = { element };

    #[tactic(auto, unfolding(crate::specs::Segments::element))]
    fn entry(alloc: Global, bytes: &[u8]) -> Result<(Element, &[u8]), FormError> {
        let (flag, rest) = split_u32(bytes).ok_or(FormError::Malformed)?;
        let (mode, rest) = read_mode(alloc, flag, rest)?;
        let (ty, rest) = split_items_type(flag, rest).ok_or(FormError::Malformed)?;
        let (items, rest) = read_items(alloc, flag, rest)?;
        Ok((Element { mode, ty, items }, rest))
    }
}

/// The entries of the element segment with this flag, and the bytes after them.
#[tactic(auto, unfolding(crate::specs::Segments::entries))]
fn read_items(alloc: Global, flag: u32, bytes: &[u8]) -> Result<(Items<Code>, &[u8]), FormError>
    ensures { Gives (λ p. (p.0, p.1.now)) result ((entries flag).read bytes.now) }
{
    if flag < 4 {
        read_entries::<IndexEntry>(alloc, bytes)
    } else {
        read_entries::<ExprEntry>(alloc, bytes)
    }
}

/// How deeply instructions nest in the entries of the element segment with this flag, and the bytes after them.
#[tactic(auto, unfolding(crate::specs::Segments::entries))]
fn measure_items(alloc: Global, flag: u32, bytes: &[u8]) -> Result<(u32, &[u8]), FormError>
    ensures { Gives (λ p. (p.0, p.1.now)) result (through (greatest depths) ((entries flag).read bytes.now)) }
{
    if flag < 4 {
        measure_entries::<IndexMeasure>(alloc, bytes)
    } else {
        measure_entries::<ExprMeasure>(alloc, bytes)
    }
}

fn larger(a: u32, b: u32) -> u32
    ensures { result ≡ max a b }
{
    if a < b { b } else { a }
}

/// How deeply instructions nest in the expressions of element segments.
pub struct ElementMeasure;

impl Measure for ElementMeasure {
    type Value = Element;

    ghost form = { element };

    ghost size = { element_depth };

    #[tactic(auto, unfolding(crate::specs::Segments::element))]
    fn measure(alloc: Global, bytes: &[u8]) -> Result<(u32, &[u8]), FormError> {
        let (flag, rest) = split_u32(bytes).ok_or(FormError::Malformed)?;
        let (offset, rest) = measure_mode(alloc, flag, rest)?;
        let (_, rest) = split_items_type(flag, rest).ok_or(FormError::Malformed)?;
        let (items, rest) = measure_items(alloc, flag, rest)?;
        Ok((larger(offset, items), rest))
    }
}

/// An entry of the data section.
pub struct SegmentEntry;

impl Entry for SegmentEntry {
    type Value = Segment;

    ghost form = { segment };

    #[tactic(auto, unfolding(crate::specs::Segments::segment))]
    fn entry(alloc: Global, bytes: &[u8]) -> Result<(Segment, &[u8]), FormError> {
        let (flag, rest) = split_u32(bytes).ok_or(FormError::Malformed)?;
        if flag > 2 {
            return Err(FormError::Malformed);
        }
        let (mode, rest) = read_mode(alloc, flag, rest)?;
        let (bytes, rest) = split_byte_vector(rest).ok_or(FormError::Malformed)?;
        let bytes = Bytes::from_slice(alloc, bytes)?;
        Ok((Segment { mode, bytes }, rest))
    }
}

/// How deeply instructions nest in the offsets of data segments.
pub struct SegmentMeasure;

impl Measure for SegmentMeasure {
    type Value = Segment;

    ghost form = { segment };

    ghost size = { λ s. mode_depth s.mode };

    #[tactic(auto, unfolding(crate::specs::Segments::segment))]
    fn measure(alloc: Global, bytes: &[u8]) -> Result<(u32, &[u8]), FormError> {
        let (flag, rest) = split_u32(bytes).ok_or(FormError::Malformed)?;
        if flag > 2 {
            return Err(FormError::Malformed);
        }
        let (nesting, rest) = measure_mode(alloc, flag, rest)?;
        let (_, rest) = split_byte_vector(rest).ok_or(FormError::Malformed)?;
        Ok((nesting, rest))
    }
}
