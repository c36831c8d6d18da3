// Function types and their lowered types as bytes, by which they are compared.

ghost use Rattle.std.specs.Prelude.{◌≡◌, ◌∷◌, ◌++◌, map, take, IfOk, OnOk};
ghost use Rattle.wasm_ast.specs.Types.{type_code, type_key};
ghost use Rattle.wasm_ast.specs.Kept.{lowered_and_own};
ghost use Rattle.wasm_ast.specs.Marking.{marked_items};
ghost use Rattle.wasm_ast.specs.Flattening.{flattened, flat, lowered};

use crate::marking::is_marked;
use crate::module::{FuncType, Ty, type_code};
use std::alloc::{AllocError, Global};

/// The types of 1.0 that carry a value of this type.
fn flattened(ty: Ty) -> &'static [Ty]
    ensures { result.now ≡ flattened ty }
{
    match ty {
        Ty::I32 | Ty::Func | Ty::Extern | Ty::Exn => &[Ty::I32],
        Ty::I64 => &[Ty::I64],
        Ty::F32 => &[Ty::F32],
        Ty::F64 => &[Ty::F64],
        Ty::V128 => &[Ty::I64, Ty::I64],
    }
}

/// The types of 1.0 that carry values of these types.
fn flat(alloc: Global, types: &[Ty]) -> Result<Vec<Ty>, AllocError>
    ensures { IfOk result (λ all. all.items ≡ flat types.now) }
{
    let mut all = Vec::new(alloc);
    for ty in types {
        all.extend_from_slice(flattened(*ty))?;
    }
    Ok(all)
}

/// The bytes of the types, appended to the key.
fn push_codes(types: &[Ty], key: &mut Vec<u8>) -> Result<(), AllocError>
    ensures { OnOk result (key.new.items ≡ key.old.items ++ map type_code types.now) }
{
    for ty in types {
        key.push(type_code(*ty))?;
    }
    Ok(())
}

/// A function type of these parameters and results as bytes.
fn key_of(alloc: Global, params: &[Ty], results: &[Ty]) -> Result<Vec<u8>, AllocError>
    ensures { IfOk result (λ key. key.items ≡ map type_code params.now ++ 0 ∷ map type_code results.now) }
{
    let mut key = Vec::new(alloc);
    push_codes(params, &mut key)?;
    key.push(0)?;
    push_codes(results, &mut key)?;
    Ok(key)
}

/// A function type as bytes. It fails for want of memory alone.
fn type_key(alloc: Global, ty: &FuncType) -> Result<Vec<u8>, AllocError>
    ensures { IfOk result (λ key. key.items ≡ type_key ty.now) }
{
    key_of(alloc, ty.params.as_slice(), ty.results.as_slice())
}

/// The lowered type of a function type as bytes. It fails for want of memory alone.
fn lowered_key(alloc: Global, ty: &FuncType) -> Result<Vec<u8>, AllocError>
    ensures { IfOk result (λ key. key.items ≡ type_key (lowered ty.now)) }
{
    let params = flat(alloc, ty.params.as_slice())?;
    let results = flat(alloc, ty.results.as_slice())?;
    let first = first_of(results.as_slice());
    key_of(alloc, params.as_slice(), first)
}

/// The first type alone, if there is one.
fn first_of(types: &[Ty]) -> &[Ty]
    ensures { result.now ≡ take 1 types.now }
{
    if types.is_empty() { types } else { &types[..1] }
}

/// Of each type that is marked, its lowered type and itself as bytes. It fails for want of memory alone.
pub fn marked_keys(
    alloc: Global,
    marks: &[bool],
    types: &[FuncType],
) -> Result<Vec<(Vec<u8>, Vec<u8>)>, AllocError>
    ensures { IfOk result (λ pairs. map (λ p. (p.0.items, p.1.items)) pairs.items ≡ map lowered_and_own (marked_items marks.now 0 types.now)) }
{
    let mut pairs = Vec::new(alloc);
    for (i, ty) in types.iter().enumerate() {
        if is_marked(marks, i) {
            pairs.push((lowered_key(alloc, ty)?, type_key(alloc, ty)?))?;
        }
    }
    Ok(pairs)
}
