// Which features small modules have: a module with one part has the features of that part and no others.

mod cases;
mod code;
mod listing;
mod tables;

use crate::fixtures::{nothing, put_instr};
use cases::{Case, put_case};
use code::instrs;
use listing::features_of;
use std::alloc::{AllocError, Global};
use std::test::Fail;
use wasm_ast::features::Feature;
use wasm_ast::module::Instr;

/// The features of a module with this part alone.
fn features_with(alloc: Global, case: Case) -> Result<Vec<Feature>, AllocError> {
    let mut m = nothing(alloc);
    put_case(alloc, case, &mut m)?;
    features_of(alloc, &m)
}

/// The features of a module whose one body is this instruction.
fn features_with_instr(alloc: Global, instr: Instr) -> Result<Vec<Feature>, AllocError> {
    let mut m = nothing(alloc);
    put_instr(alloc, instr, &mut m)?;
    features_of(alloc, &m)
}

/// The number of the first row that tells other features of its part than a module with this part alone has.
fn first_wrong(
    alloc: Global,
    rows: &[(Case, &'static [Feature])],
) -> Result<Option<usize>, AllocError> {
    for (i, (case, shown)) in rows.iter().enumerate() {
        let found = features_with(alloc, *case)?;
        if found.as_slice() != *shown {
            return Ok(Some(i));
        }
    }
    Ok(None)
}

#[test]
fn parts_show_their_features_and_no_others(rt: HostRuntime) -> Result<(), Fail> {
    let alloc = rt.alloc();
    for table in tables::all() {
        assert_eq!(rt; first_wrong(alloc, table)?, None);
    }
    Ok(())
}

#[test]
fn types_of_values_show_features_in_each_place(rt: HostRuntime) -> Result<(), Fail> {
    let alloc = rt.alloc();
    for place in tables::quiet_places() {
        for (ty, shown) in tables::value_types() {
            let found = features_with(alloc, Case::Type(*place, *ty))?;
            assert_eq!(rt; found.as_slice(), *shown);
        }
    }
    Ok(())
}

#[test]
fn instructions_show_their_features_and_no_others(rt: HostRuntime) -> Result<(), Fail> {
    let alloc = rt.alloc();
    for (instr, shown) in instrs() {
        let found = features_with_instr(alloc, instr)?;
        assert_eq!(rt; found.as_slice(), shown);
    }
    Ok(())
}
