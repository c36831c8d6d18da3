// Types, as 1.0 writes them.

ghost use Rattle.std.specs.Prelude.{◌≡◌, map, IfOk};
ghost use Rattle.crossing.specs.Code.{cross_type, cross_block};
ghost use Rattle.crossing.specs.Modules.{cross_limits};

use crate::lists::room_for;
use core1_ast::module::{BlockType1, Limits1, Ty1};
use sqlite_items::Items;
use std::alloc::{AllocError, Global};
use wasm_ast::module::{BlockType, Limits, Ty};

/// A value type. Of typed modules that cross it is an integer.
pub(crate) fn cross_type(ty: Ty) -> Ty1
    ensures { result ≡ cross_type ty }
{
    match ty {
        Ty::I32 | Ty::Func | Ty::Extern | Ty::Exn => Ty1::I32,
        Ty::I64 | Ty::V128 => Ty1::I64,
        Ty::F32 => Ty1::F32,
        Ty::F64 => Ty1::F64,
    }
}

/// Value types in order.
pub(crate) fn cross_types(alloc: Global, types: &[Ty]) -> Result<Items<Ty1>, AllocError>
    ensures { IfOk result (λ out. out ≡ map cross_type types.now) }
{
    let mut out = room_for(alloc, types.len())?;
    for ty in types {
        out.push(cross_type(*ty))?;
    }
    Ok(out)
}

/// The type of a block.
pub(crate) fn cross_block(ty: BlockType) -> BlockType1
    ensures { result ≡ cross_block ty }
{
    match ty {
        BlockType::Empty | BlockType::Index(_) => BlockType1::Empty,
        BlockType::One(one) => BlockType1::One(cross_type(one)),
    }
}

/// A size or an offset. Each that a typed module has whose addresses have 32 bits is below 2^32; there is no room for one
/// that is not.
pub(crate) fn narrow(size: u64) -> Result<u32, AllocError>
    ensures { IfOk result (λ out. out ≡ size) }
{
    if size > u32::MAX as u64 {
        return Err(AllocError);
    }
    Ok(size as u32)
}

/// The limits of a table or of a memory.
pub(crate) fn cross_limits(limits: Limits) -> Result<Limits1, AllocError>
    ensures { IfOk result (λ out. out ≡ cross_limits limits) }
{
    let min = narrow(limits.min)?;
    let max = match limits.max {
        Some(max) => Some(narrow(max)?),
        None => None,
    };
    Ok(Limits1 { min, max })
}
