// The bodies of a file: whether each is in its grammar, and how large they are, before any of them is built.

ghost use Rattle.std.specs.Prelude.{◌≡◌, ℕ, max, ◌||◌, List, Some, None, IfOk, MatchOption, option_map};
ghost use Rattle.grammar_kit.specs.Form.{many};
ghost use Rattle.grammar_kit.specs.Sequences.{whole};
ghost use Rattle.wasm_frame.specs.Name.{byte_vector};
ghost use Rattle.wasm_frame.specs.Payloads.{IsRead};
ghost use Rattle.module_reading.specs.Bodies.{GoesOn, Walks, IsWalked};
ghost use Rattle.module_reading.specs.Spells.{code_section};

use crate::format::ModuleFormat;
use grammar_kit::FormError;
use std::alloc::{AllocError, Global};
use wasm_frame::leb128::split_u32;
use wasm_frame::names::split_byte_vector;

/// How large a body is.
#[derive(Clone, Copy)]
pub struct BodySizes {
    /// How many locals it declares.
    pub locals: u64,
    /// How deeply instructions nest in it.
    pub nesting: u32,
    /// Whether one of its instructions names a data segment.
    pub names_data: bool,
}

/// How large the bodies of a file are.
#[derive(Clone, Copy)]
pub struct BodyExtent {
    /// How many there are.
    pub count: u32,
    /// The most locals that one declares.
    pub locals: u64,
    /// How deeply instructions nest in them.
    pub nesting: u32,
    /// Whether an instruction of one names a data segment.
    pub names_data: bool,
}

impl BodyExtent {
    /// The extent of no bodies.
    pub const NONE: BodyExtent = BodyExtent {
        count: 0,
        locals: 0,
        nesting: 0,
        names_data: false,
    };
}

/// What a walk over the bodies of a file comes to.
#[derive(Clone, Copy)]
pub enum Walk {
    /// Each is in its grammar.
    Measured(BodyExtent),
    /// The one at this place, counted from 0, is the first that is not.
    Misfit(u32),
}

fn joined(extent: BodyExtent, body: BodySizes) -> BodyExtent
    ensures count { result.count ≡ extent.count }
    ensures locals { result.locals ≡ max extent.locals body.locals }
    ensures nesting { result.nesting ≡ max extent.nesting body.nesting }
    ensures names_data { result.names_data ≡ (extent.names_data || body.names_data) }
{
    BodyExtent {
        count: extent.count,
        locals: extent.locals.max(body.locals),
        nesting: extent.nesting.max(body.nesting),
        names_data: extent.names_data || body.names_data,
    }
}

/// One body further. Behind the first that is not in its grammar no body is looked into.
fn walk_body<F: ModuleFormat>(
    alloc: Global,
    walk: Walk,
    place: u32,
    text: &[u8],
) -> Result<Walk, AllocError>
    ensures { IfOk result (GoesOn walk place (option_map F.means.body_sizes (whole (F.format.body.read text.now)))) }
{
    let Walk::Measured(extent) = walk else {
        return Ok(walk);
    };
    match F::measure_body(alloc, text) {
        Ok(body) => Ok(Walk::Measured(joined(extent, body))),
        Err(FormError::Malformed) => Ok(Walk::Misfit(place)),
        Err(FormError::Memory(error)) => Err(error),
    }
}

/// Over the first `count` bodies, each behind its size, which fill the bytes. `None` where they do not.
fn walk_bodies<F: ModuleFormat>(
    alloc: Global,
    count: u32,
    bytes: &[u8],
) -> Result<Option<Walk>, AllocError>
    ensures { IfOk result (λ walk. MatchOption walk
        (whole ((many byte_vector count).read bytes.now) ≡ None)
        (λ w. (texts : List (List ℕ)) × (whole ((many byte_vector count).read bytes.now) ≡ Some texts) × Walks F.format F.means texts w)) }
{
    let mut walk = Walk::Measured(BodyExtent {
        count,
        ..BodyExtent::NONE
    });
    let mut rest = bytes;
    for place in 0..count {
        let Some((text, after)) = split_byte_vector(rest) else {
            return Ok(None);
        };
        walk = walk_body::<F>(alloc, walk, place, text)?;
        rest = after;
    }
    Ok(rest.is_empty().then_some(walk))
}

/// Over the payload of a code section. `None` where it is not cut into bodies.
pub fn walk_code<F: ModuleFormat>(alloc: Global, payload: &[u8]) -> Result<Option<Walk>, AllocError>
    ensures { IfOk result (λ walk. MatchOption walk (¬ (IsRead code_section payload.now)) (IsWalked F.format F.means payload.now)) }
{
    match split_u32(payload) {
        Some((count, rest)) => walk_bodies::<F>(alloc, count, rest),
        None => Ok(None),
    }
}
