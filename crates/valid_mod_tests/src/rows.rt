// The tables of parts: each kind refused at its place.

use crate::build::{typed_module, verdict_on, verdict_on_owned};
use crate::cases::{
    Case, Row, exports, expressions, globals, imports, memories, put_case, tables, types,
};
use crate::segments::{datas, elements, offsets, references};
use std::alloc::{AllocError, Global};
use std::test::Fail;
use wasm_ast::module::Module;

/// The typed module with this put into it.
fn module_with(alloc: Global, case: Case) -> Result<Module, AllocError> {
    let mut m = typed_module(alloc)?;
    put_case(alloc, case, &mut m)?;
    Ok(m)
}

/// The number of the first row on which a verdict is another one.
fn first_wrong(alloc: Global, rows: &[Row]) -> Result<Option<usize>, AllocError> {
    for (i, (case, wanted)) in rows.iter().enumerate() {
        let m = module_with(alloc, *case)?;
        if verdict_on(alloc, &m) != *wanted || verdict_on_owned(alloc, m) != *wanted {
            return Ok(Some(i));
        }
    }
    Ok(None)
}

#[test]
fn each_kind_of_part_is_refused_at_its_place(rt: HostRuntime) -> Result<(), Fail> {
    let alloc = rt.alloc();
    let all = [
        types(),
        imports(),
        tables(),
        memories(),
        globals(),
        expressions(),
        exports(),
        elements(),
        offsets(),
        datas(),
        references(),
    ];
    for (i, rows) in all.iter().enumerate() {
        assert_eq!(rt; first_wrong(alloc, rows)?, None, "in table {i}");
    }
    Ok(())
}
