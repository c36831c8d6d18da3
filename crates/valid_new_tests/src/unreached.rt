// Whole bodies: what may lie on the operand stack, in code that can be reached and in code that cannot.

use crate::steps::Index::{Br, BrIf, Call, ReturnCall, Throw};
use crate::steps::Pair::ReturnCallIndirect;
use crate::steps::Plain::{Drop, Return, Select, ThrowRef};
use crate::steps::Step::{Block, BrTable, If, Loop, Named, NamedTwice, Plain, Pure};
use crate::steps::{
    I32_CONST, I64_CONST, NULL_EXN, NULL_EXTERN, NULL_FUNC, Step, UNREACHABLE, V128_CONST,
};
use crate::trial::{Trial, holds};
use crate::world::is_typed;
use lane_core::operators::Lane1;
use num_core::operators::{Bin, Width};
use std::alloc::{AllocError, Global};
use std::test::Fail;
use valid_new::Spaces;
use wasm_ast::module::BlockType::{Empty, Index, One};
use wasm_ast::module::Ty::{Extern, Func, I32, I64, V128};
use wasm_ast::module::{Op, Ty};

const ADD: Step = Pure(Op::Binary(Width::W32, Bin::Add));

const ADD64: Step = Pure(Op::Binary(Width::W64, Bin::Add));

const EQZ64: Step = Pure(Op::Eqz(Width::W64));

const IS_NULL: Step = Pure(Op::RefIsNull);

const NOT: Step = Pure(Op::Lanes1(Lane1::V128Not));

const DROP: Step = Plain(Drop);

const SELECT: Step = Plain(Select);

/// A body, the results of its function, and whether it is typed.
pub type BodyRow = (&'static [Step], &'static [Ty], bool);

/// drop, ref.is_null and select without types.
static KINDS: [BodyRow; 27] = [
    (&[I32_CONST, DROP], &[], true),
    (&[I64_CONST, DROP], &[], true),
    (&[V128_CONST, DROP], &[], true),
    (&[NULL_FUNC, DROP], &[], true),
    (&[NULL_EXTERN, DROP], &[], true),
    (&[NULL_EXN, DROP], &[], true),
    (&[DROP], &[], false),
    (&[NULL_FUNC, IS_NULL], &[I32], true),
    (&[NULL_EXTERN, IS_NULL], &[I32], true),
    (&[NULL_EXN, IS_NULL], &[I32], true),
    (&[NULL_EXN, IS_NULL], &[I64], false),
    (&[I32_CONST, IS_NULL], &[I32], false),
    (&[I64_CONST, IS_NULL], &[I32], false),
    (&[V128_CONST, IS_NULL], &[I32], false),
    (&[IS_NULL], &[I32], false),
    (&[I32_CONST, I32_CONST, I32_CONST, SELECT], &[I32], true),
    (&[I64_CONST, I64_CONST, I32_CONST, SELECT], &[I64], true),
    (&[V128_CONST, V128_CONST, I32_CONST, SELECT], &[V128], true),
    (&[NULL_FUNC, NULL_FUNC, I32_CONST, SELECT], &[Func], false),
    (
        &[NULL_EXTERN, NULL_EXTERN, I32_CONST, SELECT],
        &[Extern],
        false,
    ),
    (&[NULL_EXN, NULL_EXN, I32_CONST, SELECT, DROP], &[], false),
    (&[I64_CONST, I32_CONST, I32_CONST, SELECT, DROP], &[], false),
    (&[I32_CONST, I64_CONST, I32_CONST, SELECT, DROP], &[], false),
    (&[I64_CONST, I64_CONST, I64_CONST, SELECT, DROP], &[], false),
    (&[I64_CONST, I64_CONST, I32_CONST, SELECT], &[I32], false),
    (&[I32_CONST, I32_CONST, SELECT, DROP], &[], false),
    (&[I32_CONST, SELECT, DROP], &[], false),
];

/// Operands of any type behind what leaves.
static BEHIND: [BodyRow; 30] = [
    // the results of a tail call are those of the function
    (&[UNREACHABLE, Named(ReturnCall, 0)], &[V128], true),
    (&[UNREACHABLE, Named(ReturnCall, 0)], &[I64], false),
    (&[UNREACHABLE, Named(ReturnCall, 0)], &[V128, V128], false),
    (
        &[UNREACHABLE, NamedTwice(ReturnCallIndirect, 1, 0)],
        &[V128],
        true,
    ),
    (
        &[UNREACHABLE, NamedTwice(ReturnCallIndirect, 1, 0)],
        &[I64],
        false,
    ),
    (
        &[UNREACHABLE, NamedTwice(ReturnCallIndirect, 1, 0)],
        &[V128, V128],
        false,
    ),
    (&[UNREACHABLE, ADD], &[I32], true),
    (&[UNREACHABLE, I32_CONST, ADD], &[I32], true),
    (&[UNREACHABLE, I64_CONST, I32_CONST, ADD], &[I32], false),
    (&[UNREACHABLE, I64_CONST, ADD], &[I32], false),
    (&[UNREACHABLE, ADD], &[I64], false),
    (&[Named(Br, 0), ADD64, DROP], &[], true),
    (&[Plain(Return), NOT, DROP], &[], true),
    (&[Named(Throw, 1), IS_NULL, DROP], &[], true),
    (&[NULL_EXN, Plain(ThrowRef), ADD, DROP], &[], true),
    (&[I32_CONST, BrTable(&[], 0), ADD, DROP], &[], true),
    (&[Named(ReturnCall, 4), ADD, DROP], &[], true),
    (
        &[I32_CONST, NamedTwice(ReturnCallIndirect, 0, 0), ADD, DROP],
        &[],
        true,
    ),
    (&[UNREACHABLE, Named(Call, 0)], &[V128], true),
    (&[UNREACHABLE, Named(BrIf, 0)], &[I64], true),
    (&[UNREACHABLE, Named(BrIf, 0), EQZ64, DROP], &[I64], true),
    (&[UNREACHABLE, Named(BrIf, 0), IS_NULL, DROP], &[I64], false),
    // a branch that may not be taken is gone past
    (&[I32_CONST, Named(BrIf, 0), ADD, DROP], &[], false),
    (&[Named(Call, 4), ADD, DROP], &[], false),
    // what was there before is not there behind
    (&[I64_CONST, UNREACHABLE, ADD], &[I32], true),
    (&[UNREACHABLE, IS_NULL], &[I32], true),
    (&[UNREACHABLE, DROP, DROP, DROP], &[], true),
    (&[UNREACHABLE, I64_CONST, IS_NULL], &[I32], false),
    (&[UNREACHABLE, DROP, I64_CONST, ADD], &[I32], false),
    (&[UNREACHABLE, UNREACHABLE, ADD], &[I32], true),
];

/// Values that are missing or left in excess.
static LEFT: [BodyRow; 14] = [
    (&[], &[], true),
    (&[], &[I64], false),
    (&[I64_CONST], &[I64], true),
    (&[I64_CONST], &[], false),
    (&[I64_CONST, I64_CONST], &[I64], false),
    (&[I64_CONST], &[I64, I64], false),
    (&[UNREACHABLE], &[], true),
    (&[UNREACHABLE], &[I64, Extern], true),
    (&[UNREACHABLE, I64_CONST], &[I64], true),
    (&[UNREACHABLE, I64_CONST], &[V128, I64], true),
    (&[UNREACHABLE, I64_CONST], &[I64, V128], false),
    (&[UNREACHABLE, I64_CONST], &[], false),
    (&[UNREACHABLE, I32_CONST, I64_CONST], &[I64], false),
    (&[UNREACHABLE, NULL_EXTERN], &[Func], false),
];

/// br_table, to labels of equal and of different types.
static BRANCHES: [BodyRow; 9] = [
    (
        &[Block(One(I64), &[I64_CONST, I32_CONST, BrTable(&[0], 1)])],
        &[I64],
        true,
    ),
    (
        &[
            Block(One(I64), &[I64_CONST, I32_CONST, BrTable(&[0], 1)]),
            DROP,
            I32_CONST,
        ],
        &[I32],
        false,
    ),
    (
        &[
            Block(One(I64), &[I64_CONST, I32_CONST, BrTable(&[1], 0)]),
            DROP,
            I32_CONST,
        ],
        &[I32],
        false,
    ),
    (
        &[
            Block(One(I64), &[UNREACHABLE, BrTable(&[0], 1)]),
            DROP,
            I32_CONST,
        ],
        &[I32],
        true,
    ),
    (
        &[
            Block(One(I64), &[UNREACHABLE, I32_CONST, BrTable(&[0, 1], 0)]),
            DROP,
            I32_CONST,
        ],
        &[I32],
        true,
    ),
    (
        &[
            Block(
                One(I64),
                &[UNREACHABLE, I64_CONST, I32_CONST, BrTable(&[0], 1)],
            ),
            DROP,
            I32_CONST,
        ],
        &[I32],
        false,
    ),
    (
        &[
            Block(One(I64), &[UNREACHABLE, I64_CONST, BrTable(&[0], 1)]),
            DROP,
            I32_CONST,
        ],
        &[I32],
        false,
    ),
    // labels of different numbers of types
    (
        &[Block(Empty, &[UNREACHABLE, BrTable(&[0], 1)]), I32_CONST],
        &[I32],
        false,
    ),
    (
        &[Block(Empty, &[UNREACHABLE, BrTable(&[1], 0)]), I32_CONST],
        &[I32],
        false,
    ),
];

/// A select of operands that are not known, and what may follow it.
static SELECTS: [BodyRow; 12] = [
    (&[UNREACHABLE, SELECT, IS_NULL], &[I32], true),
    (&[UNREACHABLE, SELECT, EQZ64], &[I32], true),
    (&[UNREACHABLE, SELECT], &[Extern], true),
    (&[UNREACHABLE, I32_CONST, SELECT, IS_NULL], &[I32], true),
    (&[UNREACHABLE, I64_CONST, I32_CONST, SELECT], &[I64], true),
    (&[UNREACHABLE, I64_CONST, I32_CONST, SELECT], &[I32], false),
    (
        &[UNREACHABLE, I64_CONST, I32_CONST, SELECT, IS_NULL],
        &[I32],
        false,
    ),
    (
        &[UNREACHABLE, I64_CONST, I32_CONST, I32_CONST, SELECT, DROP],
        &[],
        false,
    ),
    (
        &[UNREACHABLE, NULL_EXTERN, I32_CONST, SELECT],
        &[Extern],
        false,
    ),
    (
        &[UNREACHABLE, NULL_EXTERN, NULL_EXTERN, I32_CONST, SELECT],
        &[Extern],
        false,
    ),
    (&[UNREACHABLE, I64_CONST, SELECT, DROP], &[], false),
    (&[UNREACHABLE, SELECT, SELECT, SELECT], &[Func], true),
];

/// Blocks in code that cannot be reached, and such code in blocks.
static BLOCKS: [BodyRow; 19] = [
    (&[UNREACHABLE, Block(Empty, &[])], &[], true),
    (&[UNREACHABLE, Block(Empty, &[ADD, DROP])], &[], false),
    (&[UNREACHABLE, Block(Empty, &[I32_CONST])], &[], false),
    (
        &[UNREACHABLE, Block(One(I64), &[I32_CONST]), DROP],
        &[],
        false,
    ),
    (
        &[
            UNREACHABLE,
            Block(Index(2), &[DROP, I64_CONST, NULL_EXTERN]),
        ],
        &[I64, Extern],
        true,
    ),
    (
        &[
            UNREACHABLE,
            I64_CONST,
            Block(Index(2), &[DROP, I64_CONST, NULL_EXTERN]),
        ],
        &[I64, Extern],
        false,
    ),
    (&[UNREACHABLE, Block(Empty, &[]), ADD], &[I32], true),
    (
        &[UNREACHABLE, Block(One(I64), &[I64_CONST]), ADD],
        &[I32],
        false,
    ),
    (&[Block(Empty, &[UNREACHABLE]), ADD], &[I32], false),
    (
        &[Block(One(I32), &[UNREACHABLE]), I32_CONST, ADD],
        &[I32],
        true,
    ),
    (&[Block(Empty, &[UNREACHABLE, I32_CONST])], &[], false),
    (&[Block(Empty, &[UNREACHABLE, ADD, DROP])], &[], true),
    (&[Loop(Empty, &[Named(Br, 0)])], &[I32], false),
    (
        &[I32_CONST, If(One(I64), &[UNREACHABLE], &[I64_CONST])],
        &[I64],
        true,
    ),
    (
        &[I32_CONST, If(Empty, &[UNREACHABLE], &[UNREACHABLE]), ADD],
        &[I32],
        false,
    ),
    // code in a block does not take what lies below it
    (&[I32_CONST, Block(Empty, &[DROP])], &[], false),
    (&[I32_CONST, Block(Empty, &[UNREACHABLE])], &[I32], true),
    // a return takes the results of the function, not those of a block, and so do the results of a tail call
    (
        &[Block(Empty, &[I64_CONST, Plain(Return)]), I64_CONST],
        &[I64],
        true,
    ),
    (&[Block(One(I32), &[Named(ReturnCall, 4)]), DROP], &[], true),
];

/// Whether each row tells whether its body is typed.
fn are_rows_told(alloc: Global, spaces: &Spaces<'_>, rows: &[BodyRow]) -> Result<bool, AllocError> {
    for (code, results, typed) in rows {
        if is_typed(alloc, spaces, code, results)? != *typed {
            return Ok(false);
        }
    }
    Ok(true)
}

/// The same of each table.
pub fn are_told(
    alloc: Global,
    spaces: &Spaces<'_>,
    tables: &[&[BodyRow]],
) -> Result<bool, AllocError> {
    for rows in tables {
        if !are_rows_told(alloc, spaces, rows)? {
            return Ok(false);
        }
    }
    Ok(true)
}

#[test]
fn bodies_leave_their_results_and_nothing_else(rt: HostRuntime) -> Result<(), Fail> {
    assert!(rt; holds(rt.alloc(), Trial::Bodies(&[&KINDS, &LEFT, &BLOCKS]))?);
    Ok(())
}

#[test]
fn code_that_cannot_be_reached_takes_operands_of_any_type(rt: HostRuntime) -> Result<(), Fail> {
    assert!(rt; holds(rt.alloc(), Trial::Bodies(&[&BEHIND, &BRANCHES, &SELECTS]))?);
    Ok(())
}
