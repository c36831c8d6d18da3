// The tables of parts: each kind refused at its place, and the order of two faults.

mod cases;
mod faults;

use crate::build::{Verdict, nothing, put_func, put_global, put_import, put_type, verdict_on};
use crate::rules::C32;
use cases::{Case, put_case};
use core1_ast::module::{ImportDesc1, Limits1, Module1, Ty1};
use faults::{Fault, put_fault};
use std::alloc::{AllocError, Global};
use std::test::Fail;

/// Limits from one up.
pub const ONE: Limits1 = Limits1 { min: 1, max: None };

/// A module that is typed. It imports function 0, which takes and gives nothing, and the globals 0, an i64 that cannot be
/// changed, and 1, an i32 that can. Function 1 and global 2, an i32 that cannot be changed, are its own.
fn typed_module(alloc: Global) -> Result<Module1, AllocError> {
    let mut m = nothing(alloc);
    put_type(alloc, &[], &[], &mut m)?;
    put_type(alloc, &[Ty1::I32], &[], &mut m)?;
    put_type(alloc, &[], &[Ty1::I32], &mut m)?;
    put_import(alloc, ImportDesc1::Func(0), &mut m)?;
    put_import(alloc, ImportDesc1::Global(Ty1::I64, false), &mut m)?;
    put_import(alloc, ImportDesc1::Global(Ty1::I32, true), &mut m)?;
    put_global(alloc, Ty1::I32, false, &[C32], &mut m)?;
    put_func(alloc, 0, &[], &[], &mut m)?;
    Ok(m)
}

/// The verdict on the module with this put into it.
fn verdict_of(alloc: Global, case: Case) -> Result<Verdict, AllocError> {
    let mut m = typed_module(alloc)?;
    put_case(alloc, case, &mut m)?;
    Ok(verdict_on(alloc, &m))
}

/// The verdict on the module with these faults.
fn verdict_of_both(alloc: Global, first: Fault, second: Fault) -> Result<Verdict, AllocError> {
    let mut m = typed_module(alloc)?;
    put_fault(alloc, first, &mut m)?;
    put_fault(alloc, second, &mut m)?;
    Ok(verdict_on(alloc, &m))
}

/// The number of the first row on which the verdict is another one.
fn first_wrong(alloc: Global, rows: &[(Case, Verdict)]) -> Result<Option<usize>, AllocError> {
    for (i, (case, wanted)) in rows.iter().enumerate() {
        if verdict_of(alloc, *case)? != *wanted {
            return Ok(Some(i));
        }
    }
    Ok(None)
}

#[test]
fn each_kind_of_part_is_refused_at_its_place(rt: HostRuntime) -> Result<(), Fail> {
    let alloc = rt.alloc();
    let tables = [
        cases::types(),
        cases::imports(),
        cases::sizes(),
        cases::globals(),
        cases::exports(),
        cases::segments(),
    ];
    for (i, rows) in tables.iter().enumerate() {
        assert_eq!(rt; first_wrong(alloc, rows)?, None, "in table {i}");
    }
    Ok(())
}

#[test]
fn the_first_of_two_faults_is_named(rt: HostRuntime) -> Result<(), Fail> {
    let alloc = rt.alloc();
    let faults = faults::all();
    for (i, (first, wanted)) in faults.iter().enumerate() {
        for (second, _) in &faults[i.min(faults.len())..] {
            assert_eq!(rt;
                verdict_of_both(alloc, *first, *second)?,
                *wanted,
                "at fault {i}"
            );
        }
    }
    Ok(())
}
