// Control instructions, and code that cannot be reached.

use super::{ADD, C32, C64, I32, I64, NONE, Row};
use crate::steps::Step;
use core1_ast::module::{BlockType1, Ty1};

/// Blocks, loops and ifs.
pub fn blocks() -> &'static [Row] {
    &[
        (NONE, &[Step::Block(NONE), Step::Nop, Step::End], true),
        (I32, &[Step::Block(I32), C32, Step::End], true),
        (I32, &[Step::Block(I32), C64, Step::End], false),
        (I64, &[Step::Block(I32), C32, Step::End], false),
        (I32, &[Step::Block(I32), Step::End], false),
        (NONE, &[Step::Block(NONE), C32, Step::End], false),
        (I32, &[Step::Block(I32), C32, C32, Step::End], false),
        (I32, &[Step::Block(NONE), Step::End], false),
        (I32, &[C32, Step::Block(NONE), Step::End], true),
        (
            NONE,
            &[C32, Step::Block(NONE), Step::Drop, Step::End],
            false,
        ),
        (I32, &[C32, Step::Block(I32), Step::End, Step::Drop], false),
        (I32, &[C32, Step::Block(I32), C32, Step::End, ADD], true),
        (
            NONE,
            &[
                Step::Unreachable,
                Step::Block(BlockType1::One(Ty1::F32)),
                Step::Unreachable,
                Step::End,
                Step::Unreachable,
            ],
            false,
        ),
        (
            NONE,
            &[
                Step::Unreachable,
                Step::Loop(BlockType1::One(Ty1::F64)),
                Step::Unreachable,
                Step::End,
                Step::Unreachable,
            ],
            false,
        ),
        (
            NONE,
            &[
                Step::Unreachable,
                Step::If(BlockType1::One(Ty1::F32)),
                Step::Unreachable,
                Step::Else,
                Step::Unreachable,
                Step::End,
                Step::Unreachable,
            ],
            false,
        ),
        (
            NONE,
            &[
                Step::Unreachable,
                Step::Block(I32),
                Step::Unreachable,
                Step::End,
                Step::Unreachable,
            ],
            true,
        ),
        (NONE, &[Step::Loop(NONE), Step::End], true),
        (I32, &[Step::Loop(I32), C32, Step::End], true),
        (I32, &[Step::Loop(I32), Step::End], false),
        (I32, &[Step::Loop(I32), C64, Step::End], false),
        (NONE, &[Step::Loop(NONE), C32, Step::End], false),
        (NONE, &[C32, Step::Loop(NONE), Step::Drop, Step::End], false),
        (I32, &[Step::Loop(I32), Step::Br(0), Step::End], true),
        (
            I32,
            &[Step::Loop(I32), C32, Step::BrIf(0), Step::End],
            false,
        ),
        (
            I32,
            &[Step::Loop(I32), C32, Step::BrIf(0), C32, Step::End],
            true,
        ),
        (
            I32,
            &[Step::Block(I32), C32, Step::BrIf(0), Step::End],
            false,
        ),
        (
            I32,
            &[C32, Step::If(I32), C32, Step::Else, C32, Step::End],
            true,
        ),
        (
            I32,
            &[C64, Step::If(I32), C32, Step::Else, C32, Step::End],
            false,
        ),
        (
            I32,
            &[Step::If(I32), C32, Step::Else, C32, Step::End],
            false,
        ),
        (
            I32,
            &[C32, Step::If(I32), C32, Step::Else, Step::End],
            false,
        ),
        (
            I32,
            &[C32, Step::If(I32), Step::Else, C32, Step::End],
            false,
        ),
        (
            I32,
            &[C32, Step::If(I32), C64, Step::Else, C32, Step::End],
            false,
        ),
        (
            I32,
            &[C32, Step::If(I32), C32, Step::Else, C64, Step::End],
            false,
        ),
        (NONE, &[C32, Step::If(NONE), Step::Else, Step::End], true),
        (
            NONE,
            &[C32, Step::If(NONE), C32, Step::Else, Step::End],
            false,
        ),
        (
            NONE,
            &[C32, Step::If(NONE), Step::Else, C32, Step::End],
            false,
        ),
        (
            I64,
            &[C32, Step::If(I32), C32, Step::Else, C32, Step::End],
            false,
        ),
        (
            I32,
            &[C32, C32, Step::If(NONE), Step::Else, Step::End],
            true,
        ),
        (
            NONE,
            &[
                C32,
                C32,
                Step::If(NONE),
                Step::Drop,
                Step::Else,
                Step::Drop,
                Step::End,
            ],
            false,
        ),
        (
            I32,
            &[
                C32,
                Step::If(I32),
                C32,
                Step::Br(0),
                Step::Else,
                C32,
                Step::Br(0),
                Step::End,
            ],
            true,
        ),
        (
            I32,
            &[C32, Step::If(I32), Step::Br(0), Step::Else, C32, Step::End],
            false,
        ),
        (
            I32,
            &[C32, Step::If(I32), C32, Step::Else, Step::Br(0), Step::End],
            false,
        ),
    ]
}

/// Branches and returns.
pub fn jumps() -> &'static [Row] {
    &[
        (NONE, &[Step::Br(0)], true),
        (NONE, &[Step::Br(1)], false),
        (NONE, &[Step::Block(NONE), Step::Br(1), Step::End], true),
        (NONE, &[Step::Block(NONE), Step::Br(2), Step::End], false),
        (I32, &[C32, Step::Br(0)], true),
        (I32, &[Step::Br(0)], false),
        (I32, &[C64, Step::Br(0)], false),
        (I32, &[C64, C32, Step::Br(0)], true),
        (
            I32,
            &[Step::Block(NONE), C32, Step::Br(1), Step::End, C32],
            true,
        ),
        (
            I32,
            &[Step::Block(NONE), Step::Br(1), Step::End, C32],
            false,
        ),
        (
            I32,
            &[
                Step::Block(I64),
                C32,
                Step::Br(1),
                Step::End,
                Step::Drop,
                C32,
            ],
            true,
        ),
        (
            I32,
            &[
                Step::Block(I64),
                C32,
                Step::Br(0),
                Step::End,
                Step::Drop,
                C32,
            ],
            false,
        ),
        (
            I32,
            &[C32, Step::Block(NONE), Step::Br(1), Step::End],
            false,
        ),
        (NONE, &[C32, Step::BrIf(0)], true),
        (NONE, &[C64, Step::BrIf(0)], false),
        (NONE, &[Step::BrIf(0)], false),
        (NONE, &[C32, Step::BrIf(1)], false),
        (I32, &[C32, C32, Step::BrIf(0)], true),
        (I32, &[C32, Step::BrIf(0)], false),
        (I32, &[C64, C32, Step::BrIf(0), Step::Drop, C32], false),
        (I32, &[C32, C32, Step::BrIf(0), C32, ADD], true),
        (NONE, &[C32, C32, Step::BrIf(0)], false),
        (NONE, &[C32, Step::Table(0)], true),
        (NONE, &[C64, Step::Table(0)], false),
        (NONE, &[Step::Table(0)], false),
        (NONE, &[C32, Step::Table2(0, 0, 0)], true),
        (NONE, &[C32, Step::Table2(0, 1, 0)], false),
        (NONE, &[C32, Step::Table(1)], false),
        (I32, &[C32, C32, Step::Table1(0, 0)], true),
        (I32, &[C32, Step::Table1(0, 0)], false),
        (I32, &[C64, C32, Step::Table1(0, 0)], false),
        (
            I32,
            &[Step::Block(I32), C32, C32, Step::Table1(0, 1), Step::End],
            true,
        ),
        (
            I32,
            &[
                Step::Block(NONE),
                C32,
                C32,
                Step::Table1(0, 1),
                Step::End,
                C32,
            ],
            false,
        ),
        (
            I32,
            &[
                Step::Block(I64),
                C32,
                C32,
                Step::Table1(0, 1),
                Step::End,
                Step::Drop,
                C32,
            ],
            false,
        ),
        (
            I32,
            &[
                Step::Block(NONE),
                C32,
                C32,
                Step::Table1(1, 0),
                Step::End,
                C32,
            ],
            false,
        ),
        (NONE, &[Step::Return], true),
        (I32, &[C32, Step::Return], true),
        (I32, &[Step::Return], false),
        (I32, &[C64, Step::Return], false),
        (I32, &[C64, C32, Step::Return], true),
        (
            I32,
            &[Step::Block(NONE), C32, Step::Return, Step::End, C32],
            true,
        ),
        (
            I32,
            &[C32, Step::Block(NONE), Step::Return, Step::End],
            false,
        ),
    ]
}

/// Calls. Function 0 is imported, of type 2; type 2 takes an i32 and an i64 and gives an i32, type 1 nothing.
pub fn calls() -> &'static [Row] {
    &[
        (I32, &[C32, C64, Step::Call(0)], true),
        (I32, &[C64, C32, Step::Call(0)], false),
        (I32, &[C64, Step::Call(0)], false),
        (I64, &[C32, C64, Step::Call(0)], false),
        (NONE, &[C32, C64, Step::Call(0)], false),
        (NONE, &[C32, C64, Step::Call(2)], false),
        (NONE, &[C32, C64, Step::Call(1)], true),
        (I32, &[C32, C64, Step::Call(1), C32], false),
        (I32, &[C32, C64, C32, Step::CallIndirect(2)], true),
        (I32, &[C32, C64, C64, Step::CallIndirect(2)], false),
        (I32, &[C32, C64, Step::CallIndirect(2)], false),
        (I32, &[C64, C32, C32, Step::CallIndirect(2)], false),
        (I64, &[C32, C64, C32, Step::CallIndirect(2)], false),
        (NONE, &[C32, Step::CallIndirect(3)], false),
        (NONE, &[C32, Step::CallIndirect(1)], true),
        (NONE, &[Step::CallIndirect(1)], false),
    ]
}

/// Code that cannot be reached.
pub fn dead() -> &'static [Row] {
    &[
        (I32, &[Step::Unreachable], true),
        (NONE, &[Step::Unreachable, Step::Drop], true),
        (I32, &[Step::Unreachable, ADD], true),
        (I32, &[Step::Unreachable, C64, ADD], false),
        (I32, &[Step::Unreachable, C32, ADD], true),
        (I64, &[Step::Unreachable, ADD], false),
        (NONE, &[Step::Unreachable, C32], false),
        (I32, &[Step::Unreachable, C64], false),
        (I32, &[Step::Unreachable, Step::Select], true),
        (I64, &[Step::Unreachable, C64, C32, Step::Select], true),
        (I32, &[Step::Unreachable, C64, C32, Step::Select], false),
        (
            I32,
            &[Step::Unreachable, C32, C64, C32, Step::Select],
            false,
        ),
        (NONE, &[Step::Unreachable, Step::Select, Step::Drop], true),
        (
            NONE,
            &[Step::Unreachable, C64, Step::Select, Step::Drop],
            false,
        ),
        (I32, &[Step::Br(0)], false),
        (NONE, &[Step::Br(0), ADD, Step::Drop], true),
        (NONE, &[Step::Return, ADD, Step::Drop], true),
        (NONE, &[C32, Step::Table(0), ADD, Step::Drop], true),
        (NONE, &[Step::Return, Step::Br(1)], false),
        (
            NONE,
            &[Step::Unreachable, Step::LocalGet(3), Step::Drop],
            false,
        ),
        (
            NONE,
            &[Step::Unreachable, Step::Block(NONE), Step::Drop, Step::End],
            false,
        ),
        (
            NONE,
            &[Step::Unreachable, Step::Block(NONE), Step::End, Step::Drop],
            true,
        ),
        (
            NONE,
            &[Step::Block(NONE), Step::Unreachable, Step::End, Step::Drop],
            false,
        ),
        (
            NONE,
            &[
                C32,
                Step::Block(NONE),
                Step::Unreachable,
                Step::End,
                Step::Drop,
            ],
            true,
        ),
        (
            NONE,
            &[
                C32,
                Step::Block(NONE),
                Step::Unreachable,
                Step::End,
                Step::Drop,
                Step::Drop,
            ],
            false,
        ),
        (
            I32,
            &[
                C32,
                Step::If(I32),
                Step::Unreachable,
                Step::Else,
                C32,
                Step::End,
            ],
            true,
        ),
        (
            I32,
            &[
                C32,
                Step::If(NONE),
                Step::Unreachable,
                Step::Else,
                Step::End,
            ],
            false,
        ),
        (
            I32,
            &[
                Step::Unreachable,
                Step::If(I32),
                C32,
                Step::Else,
                C32,
                Step::End,
            ],
            true,
        ),
        (I64, &[Step::Unreachable, Step::BrIf(0)], true),
        (
            NONE,
            &[
                Step::Block(I64),
                Step::Unreachable,
                Step::BrIf(0),
                ADD,
                Step::Unreachable,
                Step::End,
                Step::Drop,
            ],
            false,
        ),
    ]
}
