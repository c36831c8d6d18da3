// Which tables are kept: a module whose table is kept, and others that differ from it in one place.

use crate::fixtures::{
    NARROW, nothing, one, put_body, put_element, put_export, put_import, put_table, put_type,
};
use num_core::operators::{Bin, Width};
use sqlite_items::Items;
use std::alloc::{AllocError, Global};
use std::test::Fail;
use wasm_ast::kept::keeps_table;
use wasm_ast::lists::Types;
use wasm_ast::module::{Code, ExportDesc, ImportDesc, Instr, Mode, Module, Op, Ty};

/// The code of an operator on two constants.
fn computed(alloc: Global, op: Bin) -> Result<Code, AllocError> {
    let mut code = Items::new(alloc);
    code.push(Instr::Pure(Op::I32Const(3)))?;
    code.push(Instr::Pure(Op::I32Const(4)))?;
    code.push(Instr::Pure(Op::Binary(Width::W32, op)))?;
    Ok(code)
}

/// Puts two calls through the table into the module, by a type that takes v128 and by one that takes these.
fn put_calls(alloc: Global, second: &[Ty], m: &mut Module) -> Result<(), AllocError> {
    put_type(alloc, [Ty::V128].as_slice(), [].as_slice(), m)?;
    put_type(alloc, second, [].as_slice(), m)?;
    m.funcs.push(0)?;
    let mut code = one(alloc, Instr::CallIndirect(0, 0))?;
    code.push(Instr::ReturnCallIndirect(1, 0))?;
    put_body(Types::new(alloc), code, m)
}

/// Puts an active segment of one entry into the module.
fn put_entry(alloc: Global, offset: Code, entry: Op, m: &mut Module) -> Result<(), AllocError> {
    let entry = one(alloc, Instr::Pure(entry))?;
    put_element(Mode::Active(0, offset), Ty::Func, one(alloc, entry)?, m)
}

/// A change of the module that is kept.
#[derive(Clone, Copy)]
enum Change {
    Nothing,
    Offset(Bin),
    ImportedOffset(Ty),
    Entry(Op),
    Use(u32),
    Export(u32),
    TableType(Ty),
    SecondTable,
    ImportedTable,
}

/// Puts a table into the module as the change wants it.
fn put_changed_table(alloc: Global, change: Change, m: &mut Module) -> Result<(), AllocError> {
    match change {
        Change::TableType(ty) => put_table(ty, NARROW, None, m),
        Change::ImportedTable => put_import(alloc, ImportDesc::Table(Ty::Func, NARROW), m),
        Change::SecondTable => {
            put_table(Ty::Func, NARROW, None, m)?;
            put_table(Ty::Func, NARROW, None, m)
        }
        _ => put_table(Ty::Func, NARROW, None, m),
    }
}

/// Puts an active segment into the module as the change wants it, and what else the change adds.
fn put_change(alloc: Global, change: Change, m: &mut Module) -> Result<(), AllocError> {
    let func = Op::RefFunc(0);
    match change {
        Change::Offset(op) => put_entry(alloc, computed(alloc, op)?, func, m),
        Change::Entry(op) => put_entry(alloc, computed(alloc, Bin::Mul)?, op, m),
        Change::ImportedOffset(ty) => {
            put_import(alloc, ImportDesc::Global(ty, false), m)?;
            put_entry(alloc, one(alloc, Instr::GlobalGet(0))?, func, m)
        }
        Change::Use(table) => {
            put_body(Types::new(alloc), one(alloc, Instr::TableGet(table))?, m)
        }
        Change::Export(table) => put_export(alloc, ExportDesc::Table(table), m),
        _ => put_entry(alloc, computed(alloc, Bin::Mul)?, func, m),
    }
}

/// Whether the table of the changed module is kept.
fn is_kept(alloc: Global, change: Change) -> Result<bool, AllocError> {
    let mut m = nothing(alloc);
    put_changed_table(alloc, change, &mut m)?;
    put_calls(alloc, [Ty::I64].as_slice(), &mut m)?;
    put_change(alloc, change, &mut m)?;
    keeps_table(alloc, &m)
}

/// Whether the table of a module with these calls is kept.
fn is_kept_beside(alloc: Global, second: &[Ty]) -> Result<bool, AllocError> {
    let mut m = nothing(alloc);
    put_changed_table(alloc, Change::Nothing, &mut m)?;
    put_calls(alloc, second, &mut m)?;
    keeps_table(alloc, &m)
}

/// Changes, and whether the table is still kept.
fn changes() -> &'static [(Change, bool)] {
    &[
        (Change::Nothing, true),
        (Change::Offset(Bin::Add), true),
        (Change::Offset(Bin::Sub), true),
        (Change::Offset(Bin::Or), false),
        (Change::ImportedOffset(Ty::I32), true),
        (Change::ImportedOffset(Ty::I64), false),
        (Change::Entry(Op::RefNull(Ty::Func)), false),
        (Change::Use(0), false),
        (Change::Use(1), true),
        (Change::Export(0), false),
        (Change::Export(1), true),
        (Change::TableType(Ty::Extern), false),
        (Change::SecondTable, false),
        (Change::ImportedTable, true),
    ]
}

/// A second type beside one that takes v128, and whether the two are told apart when lowered.
fn second_types() -> &'static [(&'static [Ty], bool)] {
    &[
        (&[Ty::V128], true),
        (&[Ty::I64], true),
        (&[Ty::I64, Ty::I64], false),
        (&[Ty::I64, Ty::I64, Ty::I64], true),
    ]
}

#[test]
fn tables_are_kept_or_moved(rt: HostRuntime) -> Result<(), Fail> {
    let alloc = rt.alloc();
    for (change, kept) in changes() {
        assert_eq!(rt; is_kept(alloc, *change)?, *kept);
    }
    for (second, kept) in second_types() {
        assert_eq!(rt; is_kept_beside(alloc, second)?, *kept);
    }
    Ok(())
}
