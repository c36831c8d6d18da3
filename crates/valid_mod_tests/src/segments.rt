// Element and data segments, and functions that bodies may refer to.

use crate::build::{Place, Verdict};
use crate::cases::{Case, Row};
use crate::code::{ADD, ADD64, Expr, Step};
use wasm_ast::module::Ty;

/// Element segments in each mode.
pub fn elements() -> &'static [Row] {
    &[
        (
            Case::Element(
                Place::Active(0, Expr::One(Step::C32)),
                Ty::Func,
                Expr::One(Step::Func(1)),
            ),
            Verdict::Typed,
        ),
        (
            Case::Element(
                Place::Active(1, Expr::One(Step::C32)),
                Ty::Extern,
                Expr::One(Step::Null(Ty::Extern)),
            ),
            Verdict::Typed,
        ),
        (
            Case::Element(
                Place::Active(1, Expr::One(Step::C32)),
                Ty::Func,
                Expr::One(Step::Func(1)),
            ),
            Verdict::Part(9, 0),
        ),
        (
            Case::Element(
                Place::Active(2, Expr::One(Step::C32)),
                Ty::Func,
                Expr::One(Step::Func(1)),
            ),
            Verdict::Part(9, 0),
        ),
        (
            Case::Element(
                Place::Active(0, Expr::One(Step::C32)),
                Ty::Extern,
                Expr::One(Step::Null(Ty::Extern)),
            ),
            Verdict::Part(9, 0),
        ),
        (
            Case::Element(
                Place::Active(0, Expr::One(Step::C64)),
                Ty::Func,
                Expr::One(Step::Func(1)),
            ),
            Verdict::Part(9, 0),
        ),
        (
            Case::Element(
                Place::Active(0, Expr::One(Step::C32)),
                Ty::Func,
                Expr::One(Step::Func(2)),
            ),
            Verdict::Part(9, 0),
        ),
        (
            Case::Element(Place::Passive, Ty::Exn, Expr::One(Step::Null(Ty::Exn))),
            Verdict::Typed,
        ),
        (
            Case::Element(Place::Passive, Ty::Func, Expr::One(Step::Null(Ty::Extern))),
            Verdict::Part(9, 0),
        ),
        (
            Case::Element(Place::Passive, Ty::I32, Expr::One(Step::C32)),
            Verdict::Part(9, 0),
        ),
        (
            Case::Element(Place::Declarative, Ty::Func, Expr::One(Step::Func(0))),
            Verdict::Typed,
        ),
        (
            Case::Element(Place::Declarative, Ty::Func, Expr::One(Step::C32)),
            Verdict::Part(9, 0),
        ),
        (
            Case::Element(Place::Declarative, Ty::Func, Expr::Nothing),
            Verdict::Part(9, 0),
        ),
    ]
}

/// Offsets of element segments: any global that cannot be changed may be named.
pub fn offsets() -> &'static [Row] {
    &[
        (
            Case::Element(
                Place::Active(0, Expr::One(Step::Get(2))),
                Ty::Func,
                Expr::One(Step::Func(1)),
            ),
            Verdict::Typed,
        ),
        (
            Case::Element(
                Place::Active(0, Expr::Three(Step::C32, Step::Get(2), ADD)),
                Ty::Func,
                Expr::One(Step::Func(1)),
            ),
            Verdict::Typed,
        ),
        (
            Case::Element(
                Place::Active(0, Expr::One(Step::Get(0))),
                Ty::Func,
                Expr::One(Step::Func(1)),
            ),
            Verdict::Part(9, 0),
        ),
        (
            Case::Element(
                Place::Active(0, Expr::One(Step::Get(1))),
                Ty::Func,
                Expr::One(Step::Func(1)),
            ),
            Verdict::Part(9, 0),
        ),
        (
            Case::Element(
                Place::Active(0, Expr::Nothing),
                Ty::Func,
                Expr::One(Step::Func(1)),
            ),
            Verdict::Part(9, 0),
        ),
    ]
}

/// Data segments: the offset is an address of the memory.
pub fn datas() -> &'static [Row] {
    &[
        (
            Case::Data(Place::Active(0, Expr::One(Step::C32))),
            Verdict::Typed,
        ),
        (
            Case::Data(Place::Active(1, Expr::One(Step::C64))),
            Verdict::Typed,
        ),
        (
            Case::Data(Place::Active(1, Expr::One(Step::C32))),
            Verdict::Part(11, 0),
        ),
        (
            Case::Data(Place::Active(0, Expr::One(Step::C64))),
            Verdict::Part(11, 0),
        ),
        (
            Case::Data(Place::Active(2, Expr::One(Step::C32))),
            Verdict::Part(11, 0),
        ),
        (Case::Data(Place::Passive), Verdict::Typed),
        (Case::Data(Place::Declarative), Verdict::Part(11, 0)),
        (
            Case::Data(Place::Active(1, Expr::Three(Step::C64, Step::Get(0), ADD64))),
            Verdict::Typed,
        ),
        (
            Case::Data(Place::Active(0, Expr::One(Step::Get(2)))),
            Verdict::Typed,
        ),
        (
            Case::Data(Place::Active(0, Expr::One(Step::Get(1)))),
            Verdict::Part(11, 0),
        ),
        (
            Case::Data(Place::Active(0, Expr::Two(Step::Nop, Step::C32))),
            Verdict::Part(11, 0),
        ),
    ]
}

/// Bodies that refer to a function: it occurs outside bodies, or they are not typed.
pub fn references() -> &'static [Row] {
    &[
        (
            Case::Exported(Expr::Two(Step::Func(1), Step::Drop)),
            Verdict::Typed,
        ),
        (
            Case::Exported(Expr::Two(Step::Func(0), Step::Drop)),
            Verdict::Body(1),
        ),
        (
            Case::Body(Expr::Two(Step::Func(1), Step::Drop)),
            Verdict::Body(1),
        ),
        (
            Case::Body(Expr::Two(Step::Func(9), Step::Drop)),
            Verdict::Body(1),
        ),
        (Case::Body(Expr::One(Step::Drop)), Verdict::Body(1)),
        (Case::Body(Expr::Nothing), Verdict::Typed),
    ]
}
