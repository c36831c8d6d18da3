// Many parts, on which anything but about linear time would show.

use crate::calls::add_function;
use crate::whole::nothing;
use emit_kit::Emit;
use sqlite_items::Items;
use std::alloc::{AllocError, Global};
use std::test::Fail;
use wasm_ast::lists::Types;
use wasm_ast::module::Ty::{Exn, Extern, F32, F64, Func, I32, I64, V128};
use wasm_ast::module::{FuncType, Ty};

/// How many parts there are of each kind.
const MANY: u32 = 100_000;

static TYPES: [Ty; 8] = [I32, I64, F32, F64, V128, Func, Extern, Exn];

/// Three types for a number below 512.
fn numbered_types(alloc: Global, number: u32) -> Result<Types, AllocError> {
    let mut types = Types::new(alloc);
    let mut rest = number;
    for _ in 0u32..3 {
        types.push(TYPES[(rest % 8) as usize])?;
        rest /= 8;
    }
    Ok(types)
}

/// A type of its own for each number.
fn numbered_type(alloc: Global, number: u32) -> Result<FuncType, AllocError> {
    let params = numbered_types(alloc, number % 512)?;
    let results = numbered_types(alloc, number / 512)?;
    Ok(FuncType { params, results })
}

/// The index that is answered for the type of the number.
fn add_type(alloc: Global, emit: &mut Emit, number: u32) -> Option<u32> {
    match numbered_type(alloc, number) {
        Ok(ty) => emit.add_type(ty).ok(),
        Err(_) => None,
    }
}

/// Whether each number's type has that number as its index.
fn are_types_numbered(alloc: Global, emit: &mut Emit) -> bool {
    let mut right = true;
    for number in 0..MANY {
        right &= add_type(alloc, emit, number) == Some(number);
    }
    right
}

/// Whether a global and a function are added for each number, with that number as their index.
fn are_parts_numbered(alloc: Global, emit: &mut Emit) -> bool {
    let mut right = true;
    for number in 0..MANY {
        right &= emit.add_global(I64, None).ok() == Some(number);
        right &= add_function(alloc, emit, number, I64) == Some(number);
    }
    right
}

/// Whether many parts are added, and the types are found again.
fn are_many(alloc: Global, emit: &mut Emit) -> bool {
    are_types_numbered(alloc, emit)
        & are_types_numbered(alloc, emit)
        & are_parts_numbered(alloc, emit)
}

fn is_built_soon(alloc: Global) -> bool {
    let Ok(mut emit) = Emit::new(alloc, nothing(alloc), Items::new(alloc)) else {
        return false;
    };
    are_many(alloc, &mut emit)
}

#[test]
fn many_parts_are_added_soon(rt: HostRuntime) -> Result<(), Fail> {
    assert!(rt; is_built_soon(rt.alloc()));
    Ok(())
}
