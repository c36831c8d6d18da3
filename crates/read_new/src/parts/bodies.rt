// The bodies of functions, as the binary format has them.

ghost use Rattle.std.specs.Prelude.{◌≡◌, ◌<◌, ◌^◌, ◌++◌, ◌↔◌, IsTrue, IfOk, OnOk, option_map, replicate};
ghost use Rattle.grammar_kit.specs.Form.{vector};
ghost use Rattle.grammar_kit.specs.Gives.{Gives};
ghost use Rattle.grammar_kit.specs.Sequences.{sized, whole};
ghost use Rattle.wasm_frame.specs.Leb128.{u32};
ghost use Rattle.read_new.specs.Bodies.{local_group, locals_count, locals_of, body, sizes_of};

use code_new::code::{measure_expr, read_expr};
use code_new::types::split_value_type;
use grammar_kit::{Entry, FormError, Measure, measure_many, read_many};
use module_reading::BodySizes;
use std::alloc::{AllocError, Global};
use wasm_ast::lists::Types;
use wasm_ast::module::{Body, Ty};
use wasm_frame::leb128::split_u32;
use wasm_frame::names::split_byte_vector;

/// Locals of one type ("Code Section" of the standard).
#[derive(Clone, Copy)]
pub struct LocalGroup {
    /// How many.
    pub count: u32,
    /// Their type.
    pub ty: Ty,
}

/// A group of locals as an entry.
struct GroupEntry;

impl Entry for GroupEntry {
    type Value = LocalGroup;

    ghost form = { local_group };

    #[tactic(auto, unfolding(crate::specs::Bodies::local_group))]
    fn entry(_alloc: Global, bytes: &[u8]) -> Result<(LocalGroup, &[u8]), FormError> {
        let (count, rest) = split_u32(bytes).ok_or(FormError::Malformed)?;
        let (ty, rest) = split_value_type(rest).ok_or(FormError::Malformed)?;
        Ok((LocalGroup { count, ty }, rest))
    }
}

/// How many locals a group declares.
struct GroupMeasure;

impl Measure for GroupMeasure {
    type Value = LocalGroup;

    ghost form = { local_group };

    ghost size = { λ g. g.count };

    fn measure(alloc: Global, bytes: &[u8]) -> Result<(u32, &[u8]), FormError> {
        let (group, rest) = GroupEntry::entry(alloc, bytes)?;
        Ok((group.count, rest))
    }
}

/// How large the body is that all of the bytes spell. Neither locals nor instructions are kept.
#[tactic(auto, unfolding(crate::specs::Bodies::body, crate::specs::Bodies::body_with))]
pub fn measure_body(alloc: Global, text: &[u8]) -> Result<BodySizes, FormError>
    ensures { Gives (λ s. (s.locals, s.nesting, s.names_data)) result (option_map sizes_of (whole (body.read text.now))) }
{
    let (count, rest) = split_u32(text).ok_or(FormError::Malformed)?;
    let (extent, rest) = measure_many::<GroupMeasure>(alloc, count, rest)?;
    if extent.total > u64::from(u32::MAX) {
        return Err(FormError::Malformed);
    }
    let (sizes, rest) = measure_expr(alloc, rest)?;
    if !rest.is_empty() {
        return Err(FormError::Malformed);
    }
    Ok(BodySizes {
        locals: extent.total,
        nesting: sizes.nesting,
        names_data: sizes.names_data,
    })
}

/// Appends the locals of a group.
fn push_locals(locals: &mut Types, group: LocalGroup) -> Result<(), AllocError>
    ensures { OnOk result (locals.new ≡ locals.old ++ replicate group.count group.ty) }
{
    for _ in 0..group.count {
        locals.push(group.ty)?;
    }
    Ok(())
}

/// Each local of the groups.
fn locals_of(alloc: Global, groups: &[LocalGroup]) -> Result<Types, AllocError>
    ensures { IfOk result (λ locals. locals ≡ locals_of groups.now) }
{
    let mut locals = Types::new(alloc);
    for group in groups {
        push_locals(&mut locals, *group)?;
    }
    Ok(locals)
}

/// Whether the groups declare fewer than 2^32 locals in all.
fn are_countable(groups: &[LocalGroup]) -> bool
    ensures { IsTrue result ↔ (locals_count groups.now < 2 ^ 32) }
{
    let mut total: u32 = 0;
    for group in groups {
        match total.checked_add(group.count) {
            Some(sum) => total = sum,
            None => return false,
        }
    }
    true
}

/// The body that all of the bytes spell.
#[tactic(auto, unfolding(crate::specs::Bodies::body, crate::specs::Bodies::body_with))]
fn read_body(alloc: Global, text: &[u8]) -> Result<Body, FormError>
    ensures { Gives (λ b. b) result (whole (body.read text.now)) }
{
    let (count, rest) = split_u32(text).ok_or(FormError::Malformed)?;
    let (groups, rest) = read_many::<GroupEntry>(alloc, count, rest)?;
    if !are_countable(groups.as_slice()) {
        return Err(FormError::Malformed);
    }
    let (code, rest) = read_expr(alloc, rest)?;
    if !rest.is_empty() {
        return Err(FormError::Malformed);
    }
    let locals = locals_of(alloc, groups.as_slice())?;
    Ok(Body { locals, code })
}

/// An entry of the code section: a body behind its size.
pub struct BodyEntry;

impl Entry for BodyEntry {
    type Value = Body;

    ghost form = { sized u32 body };

    fn entry(alloc: Global, bytes: &[u8]) -> Result<(Body, &[u8]), FormError> {
        let (text, rest) = split_byte_vector(bytes).ok_or(FormError::Malformed)?;
        let body = read_body(alloc, text)?;
        Ok((body, rest))
    }
}
