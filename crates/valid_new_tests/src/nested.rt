// Blocks, loops, ifs and try_tables: their types, their labels, their clauses.

use crate::exactly::Row;
use crate::steps::Index::Br;
use crate::steps::Plain::Drop;
use crate::steps::Step::{Block, If, Loop, Named, Plain, Try};
use crate::steps::{I32_CONST, I64_CONST, NULL_EXN, NULL_EXTERN, Step, UNREACHABLE, V128_CONST};
use crate::trial::{Trial, holds};
use std::test::Fail;
use wasm_ast::module::BlockType::{Empty, Index, One};
use wasm_ast::module::Catch::{All, AllRef, Tag, TagRef};
use wasm_ast::module::Ty::{Exn, Extern, Func, I32, I64, V128};

/// Code from an externref to an i64 and an externref.
const CODE: &[Step] = &[Plain(Drop), I64_CONST, NULL_EXTERN];

/// The same, ending in a branch to its own label.
const BRANCHED: &[Step] = &[Plain(Drop), I64_CONST, NULL_EXTERN, Named(Br, 0)];

static ROWS: [Row; 18] = [
    (Block(Index(2), CODE), &[Extern], &[I64, Extern]),
    (Block(Index(2), BRANCHED), &[Extern], &[I64, Extern]),
    (Block(Empty, &[]), &[], &[]),
    (Block(One(I32), &[I32_CONST]), &[], &[I32]),
    (Block(One(V128), &[V128_CONST]), &[], &[V128]),
    (Block(One(Func), &[UNREACHABLE]), &[], &[Func]),
    (Block(One(Exn), &[NULL_EXN]), &[], &[Exn]),
    (Loop(Index(2), CODE), &[Extern], &[I64, Extern]),
    // the label of a loop takes what the loop takes
    (Loop(Index(2), &[Named(Br, 0)]), &[Extern], &[I64, Extern]),
    (Loop(One(I64), &[I64_CONST]), &[], &[I64]),
    (If(Index(2), CODE, BRANCHED), &[Extern, I32], &[I64, Extern]),
    (If(Index(2), BRANCHED, CODE), &[Extern, I32], &[I64, Extern]),
    (If(Empty, &[], &[]), &[I32], &[]),
    (If(One(I64), &[I64_CONST], &[UNREACHABLE]), &[I32], &[I64]),
    (Try(Index(2), &[], CODE), &[Extern], &[I64, Extern]),
    (Try(Index(2), &[], BRANCHED), &[Extern], &[I64, Extern]),
    (Try(One(Extern), &[], &[NULL_EXTERN]), &[], &[Extern]),
    // the innermost label is 0, and the next one 1
    (
        Block(
            One(I64),
            &[Block(One(I32), &[I64_CONST, Named(Br, 1)]), UNREACHABLE],
        ),
        &[],
        &[I64],
    ),
];

/// Labels of clauses are counted from outside the try_table.
static CLAUSES: [Row; 6] = [
    (
        Block(
            Index(4),
            &[Try(Empty, &[Tag(0, 0)], &[]), I64_CONST, V128_CONST],
        ),
        &[],
        &[I64, V128],
    ),
    (
        Block(Index(5), &[Try(Empty, &[TagRef(0, 0)], &[]), UNREACHABLE]),
        &[],
        &[I64, V128, Exn],
    ),
    (
        Block(
            Empty,
            &[Try(One(I32), &[All(0)], &[I32_CONST]), Plain(Drop)],
        ),
        &[],
        &[],
    ),
    (
        Block(One(Exn), &[Try(Empty, &[AllRef(0)], &[]), NULL_EXN]),
        &[],
        &[Exn],
    ),
    (
        Block(One(Exn), &[Try(Empty, &[TagRef(1, 0)], &[]), NULL_EXN]),
        &[],
        &[Exn],
    ),
    (
        Block(
            One(Exn),
            &[
                Block(Empty, &[Try(Empty, &[Tag(1, 0), AllRef(1), All(0)], &[])]),
                NULL_EXN,
            ],
        ),
        &[],
        &[Exn],
    ),
];

#[test]
fn nested_code_has_its_type_and_label(rt: HostRuntime) -> Result<(), Fail> {
    assert!(rt; holds(rt.alloc(), Trial::Exact(&[&ROWS, &CLAUSES]))?);
    Ok(())
}

/// Code that does not leave what the type says, or takes what lies outside.
static WRONG_CODE: [Step; 13] = [
    Block(One(I32), &[I64_CONST]),
    Block(One(I32), &[]),
    Block(Empty, &[I32_CONST]),
    Block(Empty, &[Plain(Drop)]),
    Block(Index(2), &[I64_CONST, NULL_EXTERN]),
    Loop(One(I32), &[I64_CONST]),
    Loop(One(I32), &[I32_CONST, I32_CONST]),
    If(One(I32), &[I32_CONST], &[]),
    If(One(I32), &[], &[I32_CONST]),
    If(Empty, &[I32_CONST], &[]),
    If(One(I32), &[I32_CONST], &[I64_CONST]),
    Try(Empty, &[], &[I32_CONST]),
    Try(One(I32), &[], &[]),
];

/// Clauses whose tag or label is not there, or whose label takes something else than the clause hands on.
static WRONG_CLAUSES: [Step; 12] = [
    Block(Index(5), &[Try(Empty, &[Tag(0, 0)], &[]), UNREACHABLE]),
    Block(Index(4), &[Try(Empty, &[TagRef(0, 0)], &[]), UNREACHABLE]),
    Block(One(Exn), &[Try(Empty, &[All(0)], &[]), UNREACHABLE]),
    Block(Empty, &[Try(Empty, &[AllRef(0)], &[])]),
    Try(Empty, &[Tag(2, 0)], &[]),
    Block(One(Exn), &[Try(Empty, &[TagRef(2, 0)], &[]), UNREACHABLE]),
    Try(Empty, &[Tag(1, 1)], &[]),
    Try(Empty, &[TagRef(1, 1)], &[]),
    Try(Empty, &[All(1)], &[]),
    Try(Empty, &[AllRef(1)], &[]),
    Try(Empty, &[All(0), AllRef(0)], &[]),
    Try(Empty, &[AllRef(0), All(0)], &[]),
];

#[test]
fn wrong_code_and_wrong_clauses_have_no_type(rt: HostRuntime) -> Result<(), Fail> {
    assert!(rt;
        holds(
            rt.alloc(),
            Trial::Somewhere(&[&WRONG_CODE, &WRONG_CLAUSES], false)
        )?
    );
    Ok(())
}
