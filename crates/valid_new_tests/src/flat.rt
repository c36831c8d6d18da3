// Instructions with what they take and give, and those that no rule types.

use crate::exactly::Row;
use crate::steps::Index::{
    BrIf, Call, DataDrop, ElemDrop, GlobalGet, GlobalSet, LocalGet, LocalSet, LocalTee, MemoryFill,
    MemoryGrow, MemorySize, TableFill, TableGet, TableGrow, TableSet, TableSize,
};
use crate::steps::Pair::{CallIndirect, MemoryCopy, MemoryInit, TableCopy, TableInit};
use crate::steps::Plain::Nop;
use crate::steps::Step;
use crate::steps::Step::{Named, NamedTwice, Plain, Pure, SelectTyped};
use crate::trial::{Trial, holds};
use std::test::Fail;
use wasm_ast::module::Op;
use wasm_ast::module::Ty::{Exn, Extern, Func, I32, I64, V128};

static PARAMETRIC: [Row; 11] = [
    (Plain(Nop), &[], &[]),
    (SelectTyped(&[I32]), &[I32, I32, I32], &[I32]),
    (SelectTyped(&[I64]), &[I64, I64, I32], &[I64]),
    (SelectTyped(&[V128]), &[V128, V128, I32], &[V128]),
    (SelectTyped(&[Func]), &[Func, Func, I32], &[Func]),
    (SelectTyped(&[Extern]), &[Extern, Extern, I32], &[Extern]),
    (SelectTyped(&[Exn]), &[Exn, Exn, I32], &[Exn]),
    (Named(LocalGet, 0), &[], &[I64]),
    (Named(LocalGet, 1), &[], &[V128]),
    (Named(LocalSet, 0), &[I64], &[]),
    (Named(LocalTee, 1), &[V128], &[V128]),
];

static CONTROL: [Row; 7] = [
    (Named(BrIf, 0), &[I64, Extern, I32], &[I64, Extern]),
    (Named(BrIf, 0), &[I32], &[]),
    (Named(Call, 0), &[I32, I64], &[V128]),
    (Named(Call, 1), &[Extern], &[I64, Extern]),
    (Named(Call, 4), &[], &[]),
    (NamedTwice(CallIndirect, 1, 0), &[I32, I64, I32], &[V128]),
    (
        NamedTwice(CallIndirect, 2, 2),
        &[Extern, I32],
        &[I64, Extern],
    ),
];

static TABLES: [Row; 24] = [
    (Named(TableGet, 3), &[I32], &[Exn]),
    (Named(TableSet, 3), &[I32, Exn], &[]),
    (Named(TableGrow, 3), &[Exn, I32], &[I32]),
    (Named(TableFill, 3), &[I32, Exn, I32], &[]),
    (NamedTwice(TableInit, 2, 3), &[I32, I32, I32], &[]),
    (Named(GlobalGet, 0), &[], &[V128]),
    (Named(GlobalGet, 1), &[], &[I64]),
    (Named(GlobalGet, 2), &[], &[Func]),
    (Named(GlobalSet, 1), &[I64], &[]),
    (Named(TableGet, 0), &[I32], &[Func]),
    (Named(TableGet, 1), &[I32], &[Extern]),
    (Named(TableSet, 1), &[I32, Extern], &[]),
    (Named(TableSet, 2), &[I32, Func], &[]),
    (Named(TableSize, 2), &[], &[I32]),
    (Named(TableGrow, 0), &[Func, I32], &[I32]),
    (Named(TableGrow, 1), &[Extern, I32], &[I32]),
    (Named(TableFill, 1), &[I32, Extern, I32], &[]),
    (Named(TableFill, 2), &[I32, Func, I32], &[]),
    (NamedTwice(TableCopy, 0, 2), &[I32, I32, I32], &[]),
    (NamedTwice(TableCopy, 1, 1), &[I32, I32, I32], &[]),
    (NamedTwice(TableInit, 0, 2), &[I32, I32, I32], &[]),
    (NamedTwice(TableInit, 1, 1), &[I32, I32, I32], &[]),
    (Named(ElemDrop, 0), &[], &[]),
    (Named(ElemDrop, 1), &[], &[]),
];

static MEMORIES: [Row; 13] = [
    (Named(MemorySize, 0), &[], &[I32]),
    (Named(MemorySize, 1), &[], &[I64]),
    (Named(MemoryGrow, 0), &[I32], &[I32]),
    (Named(MemoryGrow, 1), &[I64], &[I64]),
    (Named(MemoryFill, 0), &[I32, I32, I32], &[]),
    (Named(MemoryFill, 1), &[I64, I32, I64], &[]),
    (NamedTwice(MemoryCopy, 0, 0), &[I32, I32, I32], &[]),
    (NamedTwice(MemoryCopy, 0, 1), &[I32, I64, I32], &[]),
    (NamedTwice(MemoryCopy, 1, 0), &[I64, I32, I32], &[]),
    (NamedTwice(MemoryCopy, 1, 1), &[I64, I64, I64], &[]),
    (NamedTwice(MemoryInit, 0, 0), &[I32, I32, I32], &[]),
    (NamedTwice(MemoryInit, 0, 1), &[I64, I32, I32], &[]),
    (Named(DataDrop, 0), &[], &[]),
];

/// Null, and functions that an export, a global, a passive segment, a table, an active and a declarative segment name.
static REFERENCES: [Row; 9] = [
    (Pure(Op::RefNull(Func)), &[], &[Func]),
    (Pure(Op::RefNull(Extern)), &[], &[Extern]),
    (Pure(Op::RefNull(Exn)), &[], &[Exn]),
    (Pure(Op::RefFunc(0)), &[], &[Func]),
    (Pure(Op::RefFunc(1)), &[], &[Func]),
    (Pure(Op::RefFunc(2)), &[], &[Func]),
    (Pure(Op::RefFunc(3)), &[], &[Func]),
    (Pure(Op::RefFunc(5)), &[], &[Func]),
    (Pure(Op::RefFunc(6)), &[], &[Func]),
];

/// The start function, which nothing else names, and a function that is not there.
static UNDECLARED: [Step; 2] = [Pure(Op::RefFunc(4)), Pure(Op::RefFunc(7))];

#[test]
fn instructions_take_and_give_their_types_and_no_others(rt: HostRuntime) -> Result<(), Fail> {
    assert!(rt;
        holds(
            rt.alloc(),
            Trial::Exact(&[&PARAMETRIC, &CONTROL, &TABLES, &MEMORIES])
        )?
    );
    Ok(())
}

#[test]
fn a_function_is_referred_to_where_it_occurs_outside_bodies(rt: HostRuntime) -> Result<(), Fail> {
    assert!(rt; holds(rt.alloc(), Trial::Exact(&[&REFERENCES]))?);
    assert!(rt; holds(rt.alloc(), Trial::Somewhere(&[&UNDECLARED], false))?);
    Ok(())
}
