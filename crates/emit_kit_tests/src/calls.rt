// What each call answers, and what it makes of the parts and bodies.

use crate::fixture::begun;
use emit_kit::Emit;
use lane_core::vector::V;
use sqlite_items::Items;
use std::alloc::{AllocError, Global};
use std::test::Fail;
use typed_trees::TypedFn;
use wasm_ast::lists::Types;
use wasm_ast::module;
use wasm_ast::module::Ty::{Exn, Extern, F32, F64, Func, I32, I64, V128};
use wasm_ast::module::{FloatCode, FloatImmediates, FuncType, Instr, Module, Op, Ty};

/// A list of these types.
pub fn types_of(alloc: Global, types: &[Ty]) -> Result<Types, AllocError> {
    let mut list = Types::new(alloc);
    for ty in types {
        list.push(*ty)?;
    }
    Ok(list)
}

fn func_type(alloc: Global, params: &[Ty], results: &[Ty]) -> Result<FuncType, AllocError> {
    let params = types_of(alloc, params)?;
    let results = types_of(alloc, results)?;
    Ok(FuncType { params, results })
}

/// The index that is answered for the type.
fn add_type(alloc: Global, emit: &mut Emit, params: &[Ty], results: &[Ty]) -> Option<u32> {
    match func_type(alloc, params, results) {
        Ok(ty) => emit.add_type(ty).ok(),
        Err(_) => None,
    }
}

/// Parameters, results, and the index of the type.
type TypeRow = (&'static [Ty], &'static [Ty], u32);

/// The module has the first type twice, and none of the last four.
static TYPES: [TypeRow; 12] = [
    (&[I32], &[], 0),
    (&[], &[], 2),
    (&[], &[I64], 3),
    (&[], &[I32], 4),
    (&[I64], &[], 5),
    (
        &[I32, I64, F32, F64, V128, Func, Extern, Exn],
        &[I32, I32],
        6,
    ),
    (
        &[I32, I64, F32, F64, V128, Func, Extern],
        &[Exn, I32, I32],
        7,
    ),
    (&[I32], &[], 0),
    (&[], &[I32], 4),
    (&[I64], &[], 5),
    (
        &[I32, I64, F32, F64, V128, Func, Extern, Exn],
        &[I32, I32],
        6,
    ),
    (
        &[I32, I64, F32, F64, V128, Func, Extern],
        &[Exn, I32, I32],
        7,
    ),
];

fn is_type(found: Option<&FuncType>, params: &[Ty], results: &[Ty]) -> bool {
    match found {
        Some(ty) => ty.params.as_slice() == params && ty.results.as_slice() == results,
        None => false,
    }
}

/// Whether each type gets the first index at which it stands, and a new one is put last once.
fn are_types_interned(alloc: Global, emit: &mut Emit) -> bool {
    let mut right = true;
    for (params, results, index) in &TYPES {
        right &= add_type(alloc, emit, params, results) == Some(*index);
        right &= is_type(emit.part().types.get(*index as usize), params, results);
    }
    right
}

/// Whether the expression is zero, or null, of the type.
fn is_default(init: &[Instr], ty: Ty) -> bool {
    match init {
        [Instr::Pure(Op::I32Const(0))] => ty == I32,
        [Instr::Pure(Op::I64Const(0))] => ty == I64,
        [Instr::Pure(Op::V128Const(V(0)))] => ty == V128,
        [Instr::Pure(Op::RefNull(null))] => ty == *null,
        [Instr::Float(FloatCode::Plain(0x43), FloatImmediates::Bits32(0))] => ty == F32,
        [Instr::Float(FloatCode::Plain(0x44), FloatImmediates::Bits64(0))] => ty == F64,
        _ => false,
    }
}

fn is_global(found: Option<&module::Global>, ty: Ty) -> bool {
    match found {
        Some(global) => global.ty == ty && global.mutable && is_default(global.init.as_slice(), ty),
        None => false,
    }
}

/// The types of the globals that are added. The module has two imported ones and one of its own.
static GLOBALS: [Ty; 8] = [I32, I64, F32, F64, V128, Func, Extern, Exn];

/// Whether globals of each type stand last, each with its default value.
fn are_globals_added(emit: &mut Emit) -> bool {
    let mut right = true;
    let mut index: u32 = 3;
    for ty in &GLOBALS {
        right &= emit.add_global(*ty, None).ok() == Some(index);
        right &= is_global(emit.part().globals.as_slice().last(), *ty);
        index = index.wrapping_add(1);
    }
    right
}

/// A function with one local of the type, and without code.
pub fn function(alloc: Global, local: Ty) -> Result<TypedFn, AllocError> {
    let locals = types_of(alloc, &[local])?;
    Ok(TypedFn {
        locals,
        body: Items::new(alloc),
    })
}

/// The index that is answered for a function of the type with this local.
pub fn add_function(alloc: Global, emit: &mut Emit, ty: u32, local: Ty) -> Option<u32> {
    if ty as usize >= emit.part().types.len() {
        return None;
    }
    match function(alloc, local) {
        Ok(f) => emit.add_function(ty, f).ok(),
        Err(_) => None,
    }
}

/// Whether the function has this one local.
fn is_function(found: Option<&TypedFn>, local: Ty) -> bool {
    match found {
        Some(f) => f.locals.as_slice() == [local].as_slice(),
        None => false,
    }
}

/// Whether functions stand last, each with its body. The module has one imported one and two of its own.
fn are_functions_added(alloc: Global, emit: &mut Emit) -> bool {
    let mut right = true;
    for (ty, local) in [(0u32, V128), (1, Func), (2, Extern)] {
        right &= add_function(alloc, emit, ty, local) == Some(ty + 3);
        right &= is_function(emit.functions().last(), local);
        right &= emit.part().funcs.as_slice().last() == Some(&ty);
    }
    right
}

/// Puts a function with this local at a place, where there is one.
fn replace(alloc: Global, emit: &mut Emit, place: u32, local: Ty) -> bool {
    if place as usize >= emit.functions().len() {
        return false;
    }
    match function(alloc, local) {
        Ok(f) => {
            emit.replace(place, f);
            true
        }
        Err(_) => false,
    }
}

/// Whether a body stands at its place in place of another, and no other body is touched.
fn is_body_replaced(alloc: Global, emit: &mut Emit) -> bool {
    let replaced = replace(alloc, emit, 0, I64) & replace(alloc, emit, 3, Exn);
    let mut right = replaced & (emit.functions().len() == 5);
    for (place, local) in [(0usize, I64), (1, F64), (2, V128), (3, Exn), (4, Extern)] {
        right &= is_function(emit.functions().get(place), local);
    }
    right
}

/// How many parts of each kind there are.
pub fn counts(part: &Module) -> [usize; 12] {
    [
        part.types.len(),
        part.imports.len(),
        part.funcs.len(),
        part.tables.len(),
        part.memories.len(),
        part.tags.len(),
        part.globals.len(),
        part.exports.len(),
        part.elems.len(),
        part.codes.len(),
        part.datas.len(),
        usize::from(part.start.is_some()),
    ]
}

/// Whether the calls, one after another, answer what is built, and the other parts stay.
fn are_calls_right(alloc: Global, emit: &mut Emit) -> bool {
    are_types_interned(alloc, emit)
        & are_globals_added(emit)
        & are_functions_added(alloc, emit)
        & is_body_replaced(alloc, emit)
        & (counts(emit.part()) == [8, 3, 5, 1, 1, 1, 9, 2, 1, 2, 1, 1])
}

fn is_built(alloc: Global) -> bool {
    let Some(mut emit) = begun(alloc) else {
        return false;
    };
    are_calls_right(alloc, &mut emit)
}

#[test]
fn each_call_answers_what_is_built(rt: HostRuntime) -> Result<(), Fail> {
    assert!(rt; is_built(rt.alloc()));
    Ok(())
}
