// Modules of many parts, on which anything but about linear time would show.

use crate::build::{
    Place, Verdict, nothing, put_element, put_export, put_global, put_type, verdict_on,
};
use crate::code::{Expr, Step};
use std::alloc::{AllocError, Global};
use std::test::Fail;
use wasm_ast::module::{ExportDesc, Module, Ty};

/// How many parts there are of each kind.
const MANY: u32 = 100_000;

/// Types, globals of which each but the first names the one before it, and element segments.
fn many_parts(alloc: Global) -> Result<Module, AllocError> {
    let mut m = nothing(alloc);
    put_global(alloc, Ty::I32, false, Expr::One(Step::C32), &mut m)?;
    for k in 0..MANY {
        put_type(alloc, &[Ty::I32], &[Ty::I64], &mut m)?;
        put_global(alloc, Ty::I32, false, Expr::One(Step::Get(k)), &mut m)?;
        put_element(
            alloc,
            Place::Passive,
            Ty::Extern,
            Expr::One(Step::Null(Ty::Extern)),
            &mut m,
        )?;
    }
    Ok(m)
}

/// Exports of a global by names that differ in their last bytes, the first name again at the end.
fn many_names(alloc: Global) -> Result<Module, AllocError> {
    let mut m = nothing(alloc);
    put_global(alloc, Ty::I32, false, Expr::One(Step::C32), &mut m)?;
    for k in 0..MANY {
        let name = format!(in alloc; "global {k}")?;
        put_export(alloc, name.as_str(), ExportDesc::Global(0), &mut m)?;
    }
    put_export(alloc, "global 0", ExportDesc::Global(0), &mut m)?;
    Ok(m)
}

#[test]
fn many_parts_are_typed_soon(rt: HostRuntime) -> Result<(), Fail> {
    let alloc = rt.alloc();
    let m = many_parts(alloc)?;
    assert_eq!(rt; verdict_on(alloc, &m), Verdict::Typed);
    Ok(())
}

#[test]
fn many_names_are_compared_soon(rt: HostRuntime) -> Result<(), Fail> {
    let alloc = rt.alloc();
    let m = many_names(alloc)?;
    assert_eq!(rt; verdict_on(alloc, &m), Verdict::Part(7, MANY));
    Ok(())
}
