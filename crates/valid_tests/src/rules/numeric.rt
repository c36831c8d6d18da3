// Numeric and parametric instructions.

use super::{C32, C64, I32, I64, NONE, Row};
use crate::steps::Step;
use core1_ast::module::{Conv1, Op1};
use num_core::operators::{Bin, Cmp, Un, Width};

/// Operators: what they take, and what they give.
pub fn operators() -> &'static [Row] {
    &[
        (I32, &[C32], true),
        (I64, &[C32], false),
        (I32, &[C32, Step::Op(Op1::Eqz(Width::W32))], true),
        (I32, &[C64, Step::Op(Op1::Eqz(Width::W32))], false),
        (I64, &[C32, Step::Op(Op1::Eqz(Width::W32))], false),
        (I32, &[Step::Op(Op1::Eqz(Width::W32))], false),
        (
            I32,
            &[C32, C32, Step::Op(Op1::Compare(Width::W32, Cmp::LtU))],
            true,
        ),
        (
            I32,
            &[C32, C64, Step::Op(Op1::Compare(Width::W32, Cmp::LtU))],
            false,
        ),
        (
            I32,
            &[C64, C32, Step::Op(Op1::Compare(Width::W32, Cmp::LtU))],
            false,
        ),
        (
            I32,
            &[C32, Step::Op(Op1::Compare(Width::W32, Cmp::LtU))],
            false,
        ),
        (
            I64,
            &[C32, C32, Step::Op(Op1::Compare(Width::W32, Cmp::LtU))],
            false,
        ),
        (I32, &[C32, Step::Op(Op1::Unary(Width::W32, Un::Clz))], true),
        (
            I32,
            &[C64, Step::Op(Op1::Unary(Width::W32, Un::Clz))],
            false,
        ),
        (
            I64,
            &[C32, Step::Op(Op1::Unary(Width::W32, Un::Clz))],
            false,
        ),
        (
            I32,
            &[C32, C32, Step::Op(Op1::Binary(Width::W32, Bin::Shl))],
            true,
        ),
        (
            I32,
            &[C32, C64, Step::Op(Op1::Binary(Width::W32, Bin::Shl))],
            false,
        ),
        (
            I32,
            &[C64, C32, Step::Op(Op1::Binary(Width::W32, Bin::Shl))],
            false,
        ),
        (
            I64,
            &[C32, C32, Step::Op(Op1::Binary(Width::W32, Bin::Shl))],
            false,
        ),
        (
            I32,
            &[C32, Step::Op(Op1::Binary(Width::W32, Bin::Shl))],
            false,
        ),
        (I64, &[C64], true),
        (I32, &[C64], false),
        (I32, &[C64, Step::Op(Op1::Eqz(Width::W64))], true),
        (I32, &[C32, Step::Op(Op1::Eqz(Width::W64))], false),
        (I64, &[C64, Step::Op(Op1::Eqz(Width::W64))], false),
        (I32, &[Step::Op(Op1::Eqz(Width::W64))], false),
        (
            I32,
            &[C64, C64, Step::Op(Op1::Compare(Width::W64, Cmp::LtU))],
            true,
        ),
        (
            I32,
            &[C64, C32, Step::Op(Op1::Compare(Width::W64, Cmp::LtU))],
            false,
        ),
        (
            I32,
            &[C32, C64, Step::Op(Op1::Compare(Width::W64, Cmp::LtU))],
            false,
        ),
        (
            I32,
            &[C64, Step::Op(Op1::Compare(Width::W64, Cmp::LtU))],
            false,
        ),
        (
            I64,
            &[C64, C64, Step::Op(Op1::Compare(Width::W64, Cmp::LtU))],
            false,
        ),
        (I64, &[C64, Step::Op(Op1::Unary(Width::W64, Un::Clz))], true),
        (
            I64,
            &[C32, Step::Op(Op1::Unary(Width::W64, Un::Clz))],
            false,
        ),
        (
            I32,
            &[C64, Step::Op(Op1::Unary(Width::W64, Un::Clz))],
            false,
        ),
        (
            I64,
            &[C64, C64, Step::Op(Op1::Binary(Width::W64, Bin::Shl))],
            true,
        ),
        (
            I64,
            &[C64, C32, Step::Op(Op1::Binary(Width::W64, Bin::Shl))],
            false,
        ),
        (
            I64,
            &[C32, C64, Step::Op(Op1::Binary(Width::W64, Bin::Shl))],
            false,
        ),
        (
            I32,
            &[C64, C64, Step::Op(Op1::Binary(Width::W64, Bin::Shl))],
            false,
        ),
        (
            I64,
            &[C64, Step::Op(Op1::Binary(Width::W64, Bin::Shl))],
            false,
        ),
        (I32, &[C64, Step::Op(Op1::Convert(Conv1::Wrap))], true),
        (I32, &[C32, Step::Op(Op1::Convert(Conv1::Wrap))], false),
        (I64, &[C64, Step::Op(Op1::Convert(Conv1::Wrap))], false),
        (I64, &[C32, Step::Op(Op1::Convert(Conv1::Ext32S))], true),
        (I64, &[C64, Step::Op(Op1::Convert(Conv1::Ext32S))], false),
        (I32, &[C32, Step::Op(Op1::Convert(Conv1::Ext32S))], false),
        (I64, &[C32, Step::Op(Op1::Convert(Conv1::Ext32U))], true),
        (I64, &[C64, Step::Op(Op1::Convert(Conv1::Ext32U))], false),
        (I32, &[C32, Step::Op(Op1::Convert(Conv1::Ext32U))], false),
        (NONE, &[Step::Float, Step::Drop], false),
        (NONE, &[C32, Step::Drop], true),
        (NONE, &[Step::Unreachable, Step::Float], false),
        (NONE, &[Step::Unreachable], true),
    ]
}

/// drop, select, nop, and the end of a body.
pub fn selections() -> &'static [Row] {
    &[
        (NONE, &[C64, Step::Drop], true),
        (NONE, &[Step::Drop], false),
        (NONE, &[C32, C32, Step::Drop], false),
        (I32, &[C32, C32, C32, Step::Select], true),
        (I64, &[C64, C64, C32, Step::Select], true),
        (I32, &[C32, C64, C32, Step::Select], false),
        (I64, &[C64, C32, C32, Step::Select], false),
        (I32, &[C32, C32, C64, Step::Select], false),
        (I32, &[C32, C32, Step::Select], false),
        (I64, &[C32, C32, C32, Step::Select], false),
        (NONE, &[C32, C32, C32, Step::Select], false),
        (NONE, &[Step::Nop], true),
        (I32, &[Step::Nop], false),
        (I32, &[C32, Step::Nop], true),
        (NONE, &[], true),
        (I32, &[], false),
        (NONE, &[C32], false),
        (I32, &[C32], true),
        (I32, &[C32, C32], false),
        (I64, &[C32], false),
    ]
}
