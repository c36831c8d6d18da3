// The table of bodies, each in a module that has one part of each kind.

use crate::build::{Verdict, nothing, put_func, put_global, put_import, put_type, verdict_on};
use crate::rules::{
    C32, C64, I32, NONE, Row, accesses, blocks, calls, dead, jumps, operators, selections,
    variables,
};
use crate::steps::Step;
use core1_ast::module::{BlockType1, ImportDesc1, Limits1, Module1, Ty1};
use num_core::operators::{Load, Store};
use std::alloc::{AllocError, Global};
use std::test::Fail;

/// Limits from one up.
const ONE: Limits1 = Limits1 { min: 1, max: None };

/// The types of a module whose type 0 gives these results.
fn put_types(alloc: Global, results: BlockType1, m: &mut Module1) -> Result<(), AllocError> {
    let params = [Ty1::I32, Ty1::I64];
    match results {
        BlockType1::Empty => put_type(alloc, &params, &[], m)?,
        BlockType1::One(ty) => put_type(alloc, &params, &[ty], m)?,
    }
    put_type(alloc, &[], &[], m)?;
    put_type(alloc, &params, &[Ty1::I32], m)
}

/// A module whose own function has this code, with imports and globals.
fn module_of(alloc: Global, results: BlockType1, code: &[Step]) -> Result<Module1, AllocError> {
    let mut m = nothing(alloc);
    put_types(alloc, results, &mut m)?;
    put_import(alloc, ImportDesc1::Func(2), &mut m)?;
    put_import(alloc, ImportDesc1::Global(Ty1::I64, false), &mut m)?;
    put_global(alloc, Ty1::I32, true, &[C32], &mut m)?;
    put_func(alloc, 0, &[Ty1::I64], code, &mut m)?;
    Ok(m)
}

/// The verdict on a body in a module with a table and a memory.
fn verdict_of(alloc: Global, results: BlockType1, code: &[Step]) -> Result<Verdict, AllocError> {
    let mut m = module_of(alloc, results, code)?;
    m.tables.push(ONE)?;
    m.memories.push(ONE)?;
    Ok(verdict_on(alloc, &m))
}

/// The number of the first row on which the verdict is another one.
fn first_wrong(alloc: Global, rows: &[Row]) -> Result<Option<usize>, AllocError> {
    for (i, (results, code, typed)) in rows.iter().enumerate() {
        let wanted = if *typed {
            Verdict::Typed
        } else {
            Verdict::Body(0)
        };
        if verdict_of(alloc, *results, code)? != wanted {
            return Ok(Some(i));
        }
    }
    Ok(None)
}

#[test]
fn each_rule_of_code_has_a_body_that_breaks_it(rt: HostRuntime) -> Result<(), Fail> {
    let alloc = rt.alloc();
    let tables = [
        operators(),
        selections(),
        variables(),
        accesses(),
        blocks(),
        jumps(),
        calls(),
        dead(),
    ];
    for (i, rows) in tables.iter().enumerate() {
        assert_eq!(rt; first_wrong(alloc, rows)?, None, "in table {i}");
    }
    Ok(())
}

/// Bodies that are typed with a table and a memory, and not without.
fn needy() -> &'static [Row] {
    &[
        (I32, &[C32, Step::Load(Load::I32, 0)], true),
        (NONE, &[C32, C32, Step::Store(Store::I32, 0)], true),
        (I32, &[Step::MemorySize], true),
        (I32, &[C32, Step::MemoryGrow], true),
        (NONE, &[C32, Step::CallIndirect(1)], true),
    ]
}

#[test]
fn memories_and_tables_are_asked_for(rt: HostRuntime) -> Result<(), Fail> {
    let alloc = rt.alloc();
    for (results, code, _) in needy() {
        assert_eq!(rt; verdict_of(alloc, *results, code)?, Verdict::Typed);
        let without = module_of(alloc, *results, code)?;
        assert_eq!(rt; verdict_on(alloc, &without), Verdict::Body(0));
    }
    let plain = module_of(alloc, NONE, &[C64, Step::Drop])?;
    assert_eq!(rt; verdict_on(alloc, &plain), Verdict::Typed);
    Ok(())
}
