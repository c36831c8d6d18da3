// What `validate` gives with its verdict.

use crate::build::{put_func, put_type, typed_module};
use crate::code::{Expr, Step};
use std::alloc::{AllocError, Global};
use std::test::Fail;
use valid_mod::{Invalid, validate};
use wasm_ast::module::{Module, Ty};

/// How many parts of some kinds, and how many bodies, the typed module has, and how many instructions the last body.
fn counts_of(alloc: Global, m: &Module) -> Result<[usize; 5], Invalid> {
    if m.funcs.len() != m.codes.len() || m.data_count != Some(0) || !m.datas.is_empty() {
        return Ok([0; 5]);
    }
    let typed = validate(alloc, m)?;
    let part = typed.part();
    let last = match typed.functions().last() {
        Some(f) => f.body.len(),
        None => 0,
    };
    Ok([
        part.types.len(),
        part.imports.len(),
        part.codes.len(),
        typed.functions().len(),
        last,
    ])
}

/// The typed module with a body behind whose second instruction nothing is reached.
fn cut_module(alloc: Global) -> Result<Module, AllocError> {
    let mut m = typed_module(alloc)?;
    put_type(alloc, &[], &[Ty::I64], &mut m)?;
    put_func(
        alloc,
        3,
        &[],
        Expr::Three(Step::Nop, Step::Unreachable, Step::Drop),
        &mut m,
    )?;
    Ok(m)
}

#[test]
fn the_parts_and_the_reachable_code_are_kept(rt: HostRuntime) -> Result<(), Fail> {
    let alloc = rt.alloc();
    let m = cut_module(alloc)?;
    let found = counts_of(alloc, &m).unwrap_or([0; 5]);
    assert_eq!(rt; found, [4, 3, 0, 2, 2]);
    Ok(())
}
