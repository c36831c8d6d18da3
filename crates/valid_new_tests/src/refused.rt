// Instructions that no rule types, whatever stands on the operand stack.

use crate::steps::Index::{
    Br, BrIf, Call, DataDrop, ElemDrop, GlobalGet, GlobalSet, LocalGet, LocalSet, LocalTee,
    MemoryFill, MemoryGrow, MemorySize, ReturnCall, TableFill, TableGet, TableGrow, TableSet,
    TableSize, Throw,
};
use crate::steps::Pair::{
    CallIndirect, MemoryCopy, MemoryInit, ReturnCallIndirect, TableCopy, TableInit,
};
use crate::steps::Step::{
    Block, BrTable, Float, If, Loop, Named, NamedTwice, Pure, SelectTyped, Try,
};
use crate::steps::{Step, UNREACHABLE};
use crate::trial::{Trial, holds};
use crate::world::is_typed_body;
use sqlite_items::Items;
use std::alloc::{AllocError, Global};
use std::test::Fail;
use valid_new::Spaces;
use wasm_ast::module::BlockType::{Index, One};
use wasm_ast::module::{FloatCode, FloatImmediates, Op, Ty};

/// Each index at the size of its index space.
static OUT_OF_RANGE: [Step; 44] = [
    Named(Br, 1),
    Named(BrIf, 1),
    BrTable(&[1], 0),
    BrTable(&[0], 1),
    Named(Call, 7),
    NamedTwice(CallIndirect, 6, 0),
    NamedTwice(CallIndirect, 0, 4),
    Named(ReturnCall, 7),
    NamedTwice(ReturnCallIndirect, 6, 0),
    NamedTwice(ReturnCallIndirect, 0, 4),
    Named(Throw, 2),
    Named(LocalGet, 2),
    Named(LocalSet, 2),
    Named(LocalTee, 2),
    Named(GlobalGet, 3),
    Named(GlobalSet, 3),
    Named(TableGet, 4),
    Named(TableSet, 4),
    Named(TableSize, 4),
    Named(TableGrow, 4),
    Named(TableFill, 4),
    NamedTwice(TableCopy, 4, 0),
    NamedTwice(TableCopy, 0, 4),
    NamedTwice(TableInit, 5, 0),
    NamedTwice(TableInit, 0, 4),
    Named(ElemDrop, 5),
    Named(MemorySize, 2),
    Named(MemoryGrow, 2),
    Named(MemoryFill, 2),
    NamedTwice(MemoryCopy, 2, 0),
    NamedTwice(MemoryCopy, 0, 2),
    NamedTwice(MemoryInit, 1, 0),
    NamedTwice(MemoryInit, 0, 2),
    Named(DataDrop, 1),
    Pure(Op::RefFunc(7)),
    Block(Index(6), &[UNREACHABLE]),
    Loop(Index(6), &[UNREACHABLE]),
    If(Index(6), &[UNREACHABLE], &[UNREACHABLE]),
    Try(Index(6), &[], &[UNREACHABLE]),
    Named(Call, 0xFFFF_FFFF),
    Named(LocalGet, 0xFFFF_FFFF),
    Named(Br, 0xFFFF_FFFF),
    Pure(Op::RefFunc(0xFFFF_FFFF)),
    Named(Throw, 0xFFFF_FFFF),
];

/// Tables of other references, constants that are set, functions that are not declared, results that differ.
static OF_ANOTHER_KIND: [Step; 25] = [
    NamedTwice(CallIndirect, 0, 3),
    NamedTwice(ReturnCallIndirect, 0, 3),
    NamedTwice(TableCopy, 0, 3),
    NamedTwice(TableCopy, 3, 0),
    NamedTwice(TableCopy, 3, 1),
    NamedTwice(TableInit, 2, 0),
    NamedTwice(TableInit, 2, 1),
    NamedTwice(CallIndirect, 0, 1),
    NamedTwice(ReturnCallIndirect, 0, 1),
    Named(ReturnCall, 0),
    Named(ReturnCall, 1),
    NamedTwice(ReturnCallIndirect, 1, 0),
    NamedTwice(ReturnCallIndirect, 2, 2),
    Named(GlobalSet, 0),
    Named(GlobalSet, 2),
    NamedTwice(TableCopy, 0, 1),
    NamedTwice(TableCopy, 1, 2),
    NamedTwice(TableInit, 0, 1),
    NamedTwice(TableInit, 1, 0),
    // the start function occurs nowhere else
    Pure(Op::RefFunc(4)),
    Pure(Op::RefNull(Ty::I32)),
    Pure(Op::RefNull(Ty::I64)),
    Pure(Op::RefNull(Ty::V128)),
    SelectTyped(&[]),
    SelectTyped(&[Ty::I32, Ty::I32]),
];

/// Floats, as types and as instructions.
static FLOATS: [Step; 13] = [
    Pure(Op::RefNull(Ty::F32)),
    Pure(Op::RefNull(Ty::F64)),
    SelectTyped(&[Ty::F32]),
    SelectTyped(&[Ty::F64]),
    Block(One(Ty::F32), &[UNREACHABLE]),
    Block(One(Ty::F64), &[UNREACHABLE]),
    Loop(One(Ty::F32), &[UNREACHABLE]),
    If(One(Ty::F64), &[UNREACHABLE], &[UNREACHABLE]),
    Try(One(Ty::F32), &[], &[UNREACHABLE]),
    Float(FloatCode::Plain(0x92), FloatImmediates::None),
    Float(FloatCode::Plain(0x43), FloatImmediates::Bits32(0)),
    Float(FloatCode::Saturating(0), FloatImmediates::None),
    Float(FloatCode::Vector(31), FloatImmediates::Lane(0)),
];

#[test]
fn indices_out_of_range_other_kinds_and_floats_have_no_type(rt: HostRuntime) -> Result<(), Fail> {
    let tables: [&[Step]; 3] = [&OUT_OF_RANGE, &OF_ANOTHER_KIND, &FLOATS];
    assert!(rt; holds(rt.alloc(), Trial::Somewhere(&tables, false))?);
    Ok(())
}

/// Types of declared locals, and whether a body may have such a local.
static LOCALS: [(Ty, bool); 8] = [
    (Ty::I32, true),
    (Ty::I64, true),
    (Ty::F32, false),
    (Ty::F64, false),
    (Ty::V128, true),
    (Ty::Func, true),
    (Ty::Extern, true),
    (Ty::Exn, true),
];

/// Whether a body may have the locals that the rows say, and no others.
pub fn are_locals_told(alloc: Global, spaces: &Spaces<'_>) -> Result<bool, AllocError> {
    for (ty, typed) in &LOCALS {
        let code = Items::new(alloc);
        if is_typed_body(alloc, spaces, &[Ty::I32, *ty], code, &[])? != *typed {
            return Ok(false);
        }
    }
    Ok(true)
}

#[test]
fn a_local_is_of_any_type_but_a_float(rt: HostRuntime) -> Result<(), Fail> {
    assert!(rt; holds(rt.alloc(), Trial::Locals)?);
    Ok(())
}
