// What is put into the typed module of `build`, and the verdict on it then: types, imports, sizes, globals, exports.

use crate::build::{
    Place, Verdict, put_data, put_element, put_export, put_filled, put_func, put_global,
    put_import, put_table, put_type,
};
use crate::code::{ADD, ADD64, AND, Expr, SUB, Step};
use std::alloc::{AllocError, Global};
use wasm_ast::module::{ExportDesc, ImportDesc, Limits, Module, Ty};

/// What is put into a module.
#[derive(Clone, Copy)]
pub enum Case {
    /// A function type with a parameter of this type.
    Param(Ty),
    /// A function type with these two results.
    Results(Ty, Ty),
    Import(ImportDesc),
    /// A function of this type with no code.
    Func(u32),
    /// A function that takes and gives nothing, with a local of this type.
    Local(Ty),
    Table(Ty, Limits),
    /// A table with an expression.
    Filled(Ty, Expr),
    Memory(Limits),
    Tag(u32),
    Global(Ty, Expr),
    /// Two globals of type i32.
    Globals(Expr, Expr),
    Export(ExportDesc),
    /// Two exports of these names.
    Names(Name, Name),
    Start(u32),
    Element(Place, Ty, Expr),
    Data(Place),
    /// A function that takes and gives nothing, with this code.
    Body(Expr),
    /// The same, where function 1 is exported.
    Exported(Expr),
}

/// A name of an export.
#[derive(Clone, Copy)]
pub enum Name {
    Empty,
    A,
    Aa,
    B,
}

fn text_of(name: Name) -> &'static str {
    match name {
        Name::Empty => "",
        Name::A => "a",
        Name::Aa => "aa",
        Name::B => "b",
    }
}

/// A row of a table.
pub type Row = (Case, Verdict);

/// Function types, and the types of functions and of locals.
pub fn types() -> &'static [Row] {
    &[
        (Case::Param(Ty::I64), Verdict::Typed),
        (Case::Param(Ty::V128), Verdict::Typed),
        (Case::Param(Ty::Exn), Verdict::Typed),
        (Case::Param(Ty::F32), Verdict::Part(1, 3)),
        (Case::Param(Ty::F64), Verdict::Part(1, 3)),
        (Case::Results(Ty::I32, Ty::Func), Verdict::Typed),
        (Case::Results(Ty::I32, Ty::F32), Verdict::Part(1, 3)),
        (Case::Results(Ty::F64, Ty::I32), Verdict::Part(1, 3)),
        (Case::Func(1), Verdict::Typed),
        (Case::Func(2), Verdict::Body(1)),
        (Case::Func(3), Verdict::Part(3, 1)),
        (Case::Local(Ty::Extern), Verdict::Typed),
        (Case::Local(Ty::F32), Verdict::Body(1)),
    ]
}

/// Imports.
pub fn imports() -> &'static [Row] {
    &[
        (Case::Import(ImportDesc::Func(2)), Verdict::Typed),
        (Case::Import(ImportDesc::Func(3)), Verdict::Part(2, 3)),
        (
            Case::Import(ImportDesc::Global(Ty::Exn, true)),
            Verdict::Typed,
        ),
        (
            Case::Import(ImportDesc::Global(Ty::F32, false)),
            Verdict::Part(2, 3),
        ),
        (
            Case::Import(ImportDesc::Table(
                Ty::Func,
                Limits {
                    min: 2,
                    max: Some(2),
                    wide: false,
                },
            )),
            Verdict::Typed,
        ),
        (
            Case::Import(ImportDesc::Table(
                Ty::Func,
                Limits {
                    min: 2,
                    max: Some(1),
                    wide: false,
                },
            )),
            Verdict::Part(2, 3),
        ),
        (
            Case::Import(ImportDesc::Table(
                Ty::I32,
                Limits {
                    min: 1,
                    max: None,
                    wide: false,
                },
            )),
            Verdict::Part(2, 3),
        ),
        (
            Case::Import(ImportDesc::Table(
                Ty::Func,
                Limits {
                    min: 1,
                    max: None,
                    wide: true,
                },
            )),
            Verdict::Part(2, 3),
        ),
        (
            Case::Import(ImportDesc::Memory(Limits {
                min: 65536,
                max: None,
                wide: false,
            })),
            Verdict::Typed,
        ),
        (
            Case::Import(ImportDesc::Memory(Limits {
                min: 65537,
                max: None,
                wide: false,
            })),
            Verdict::Part(2, 3),
        ),
        (Case::Import(ImportDesc::Tag(0)), Verdict::Typed),
        (Case::Import(ImportDesc::Tag(2)), Verdict::Part(2, 3)),
        (Case::Import(ImportDesc::Tag(3)), Verdict::Part(2, 3)),
    ]
}

/// Tables and their expressions.
pub fn tables() -> &'static [Row] {
    &[
        (
            Case::Table(
                Ty::Exn,
                Limits {
                    min: 4294967295,
                    max: Some(4294967295),
                    wide: false,
                },
            ),
            Verdict::Typed,
        ),
        (
            Case::Table(
                Ty::Func,
                Limits {
                    min: 4294967296,
                    max: None,
                    wide: false,
                },
            ),
            Verdict::Part(4, 2),
        ),
        (
            Case::Table(
                Ty::Func,
                Limits {
                    min: 0,
                    max: Some(4294967296),
                    wide: false,
                },
            ),
            Verdict::Part(4, 2),
        ),
        (
            Case::Table(
                Ty::Func,
                Limits {
                    min: 2,
                    max: Some(1),
                    wide: false,
                },
            ),
            Verdict::Part(4, 2),
        ),
        (
            Case::Table(
                Ty::Func,
                Limits {
                    min: 1,
                    max: None,
                    wide: true,
                },
            ),
            Verdict::Part(4, 2),
        ),
        (
            Case::Table(
                Ty::V128,
                Limits {
                    min: 1,
                    max: None,
                    wide: false,
                },
            ),
            Verdict::Part(4, 2),
        ),
        (
            Case::Filled(Ty::Func, Expr::One(Step::Func(1))),
            Verdict::Typed,
        ),
        (
            Case::Filled(Ty::Extern, Expr::One(Step::Null(Ty::Extern))),
            Verdict::Typed,
        ),
        (
            Case::Filled(Ty::Func, Expr::One(Step::Func(2))),
            Verdict::Part(4, 2),
        ),
        (
            Case::Filled(Ty::Func, Expr::One(Step::Null(Ty::Extern))),
            Verdict::Part(4, 2),
        ),
        (Case::Filled(Ty::Func, Expr::Nothing), Verdict::Part(4, 2)),
        (
            Case::Filled(Ty::Func, Expr::Two(Step::Func(0), Step::Func(0))),
            Verdict::Part(4, 2),
        ),
    ]
}

/// Memories of 32 and of 64 bits, and tags.
pub fn memories() -> &'static [Row] {
    &[
        (
            Case::Memory(Limits {
                min: 65536,
                max: Some(65536),
                wide: false,
            }),
            Verdict::Typed,
        ),
        (
            Case::Memory(Limits {
                min: 65537,
                max: None,
                wide: false,
            }),
            Verdict::Part(5, 2),
        ),
        (
            Case::Memory(Limits {
                min: 0,
                max: Some(65537),
                wide: false,
            }),
            Verdict::Part(5, 2),
        ),
        (
            Case::Memory(Limits {
                min: 2,
                max: Some(1),
                wide: false,
            }),
            Verdict::Part(5, 2),
        ),
        (
            Case::Memory(Limits {
                min: 281474976710656,
                max: Some(281474976710656),
                wide: true,
            }),
            Verdict::Typed,
        ),
        (
            Case::Memory(Limits {
                min: 281474976710657,
                max: None,
                wide: true,
            }),
            Verdict::Part(5, 2),
        ),
        (
            Case::Memory(Limits {
                min: 0,
                max: Some(281474976710657),
                wide: true,
            }),
            Verdict::Part(5, 2),
        ),
        (
            Case::Memory(Limits {
                min: 2,
                max: Some(1),
                wide: true,
            }),
            Verdict::Part(5, 2),
        ),
        (Case::Tag(0), Verdict::Typed),
        (Case::Tag(2), Verdict::Part(13, 1)),
        (Case::Tag(3), Verdict::Part(13, 1)),
    ]
}

/// Globals, whose initial values may name those before them that cannot be changed.
pub fn globals() -> &'static [Row] {
    &[
        (Case::Global(Ty::I32, Expr::One(Step::C32)), Verdict::Typed),
        (Case::Global(Ty::I64, Expr::One(Step::C64)), Verdict::Typed),
        (
            Case::Global(Ty::V128, Expr::One(Step::Vector)),
            Verdict::Typed,
        ),
        (
            Case::Global(Ty::Exn, Expr::One(Step::Null(Ty::Exn))),
            Verdict::Typed,
        ),
        (
            Case::Global(Ty::Func, Expr::One(Step::Func(1))),
            Verdict::Typed,
        ),
        (
            Case::Global(Ty::I64, Expr::One(Step::Get(0))),
            Verdict::Typed,
        ),
        (
            Case::Global(Ty::I32, Expr::One(Step::Get(2))),
            Verdict::Typed,
        ),
        (
            Case::Global(Ty::I32, Expr::One(Step::Get(0))),
            Verdict::Part(6, 1),
        ),
        (
            Case::Global(Ty::I32, Expr::One(Step::Get(1))),
            Verdict::Part(6, 1),
        ),
        (
            Case::Global(Ty::I32, Expr::One(Step::Get(3))),
            Verdict::Part(6, 1),
        ),
        (
            Case::Global(Ty::I32, Expr::One(Step::Get(9))),
            Verdict::Part(6, 1),
        ),
        (
            Case::Global(Ty::F32, Expr::One(Step::C32)),
            Verdict::Part(6, 1),
        ),
        (
            Case::Global(Ty::I32, Expr::One(Step::C64)),
            Verdict::Part(6, 1),
        ),
        (Case::Global(Ty::I32, Expr::Nothing), Verdict::Part(6, 1)),
        (
            Case::Globals(Expr::One(Step::C32), Expr::One(Step::Get(3))),
            Verdict::Typed,
        ),
        (
            Case::Globals(Expr::One(Step::C32), Expr::One(Step::Get(4))),
            Verdict::Part(6, 2),
        ),
        (
            Case::Globals(Expr::One(Step::Get(4)), Expr::One(Step::C32)),
            Verdict::Part(6, 1),
        ),
    ]
}

/// Expressions of more than one instruction.
pub fn expressions() -> &'static [Row] {
    &[
        (
            Case::Global(Ty::I32, Expr::Three(Step::C32, Step::Get(2), ADD)),
            Verdict::Typed,
        ),
        (
            Case::Global(Ty::I32, Expr::Three(Step::C32, Step::C32, SUB)),
            Verdict::Typed,
        ),
        (Case::Global(Ty::I32, Expr::Product), Verdict::Typed),
        (
            Case::Global(Ty::I64, Expr::Three(Step::C64, Step::Get(0), ADD64)),
            Verdict::Typed,
        ),
        (
            Case::Global(Ty::I32, Expr::Three(Step::C32, Step::C32, AND)),
            Verdict::Part(6, 1),
        ),
        (
            Case::Global(Ty::I32, Expr::Three(Step::C32, Step::C64, ADD)),
            Verdict::Part(6, 1),
        ),
        (
            Case::Global(Ty::I32, Expr::Two(Step::C32, ADD)),
            Verdict::Part(6, 1),
        ),
        (
            Case::Global(Ty::I32, Expr::Two(Step::C32, Step::C32)),
            Verdict::Part(6, 1),
        ),
        (
            Case::Global(Ty::I32, Expr::Two(Step::Nop, Step::C32)),
            Verdict::Part(6, 1),
        ),
        (
            Case::Global(Ty::I32, Expr::Three(Step::C32, Step::C32, Step::Drop)),
            Verdict::Part(6, 1),
        ),
        (
            Case::Global(Ty::I32, Expr::One(Step::Unreachable)),
            Verdict::Part(6, 1),
        ),
        (
            Case::Global(Ty::I32, Expr::Three(Step::C32, Step::Get(1), ADD)),
            Verdict::Part(6, 1),
        ),
    ]
}

/// Exports and the start.
pub fn exports() -> &'static [Row] {
    &[
        (Case::Export(ExportDesc::Func(1)), Verdict::Typed),
        (Case::Export(ExportDesc::Func(2)), Verdict::Part(7, 0)),
        (Case::Export(ExportDesc::Table(1)), Verdict::Typed),
        (Case::Export(ExportDesc::Table(2)), Verdict::Part(7, 0)),
        (Case::Export(ExportDesc::Memory(1)), Verdict::Typed),
        (Case::Export(ExportDesc::Memory(2)), Verdict::Part(7, 0)),
        (Case::Export(ExportDesc::Global(2)), Verdict::Typed),
        (Case::Export(ExportDesc::Global(3)), Verdict::Part(7, 0)),
        (Case::Export(ExportDesc::Tag(0)), Verdict::Typed),
        (Case::Export(ExportDesc::Tag(1)), Verdict::Part(7, 0)),
        (Case::Names(Name::A, Name::B), Verdict::Typed),
        (Case::Names(Name::A, Name::Aa), Verdict::Typed),
        (Case::Names(Name::Empty, Name::A), Verdict::Typed),
        (Case::Names(Name::A, Name::A), Verdict::Part(7, 1)),
        (Case::Names(Name::Empty, Name::Empty), Verdict::Part(7, 1)),
        (Case::Start(0), Verdict::Typed),
        (Case::Start(1), Verdict::Part(8, 0)),
        (Case::Start(2), Verdict::Typed),
        (Case::Start(3), Verdict::Part(8, 0)),
        (Case::Start(4), Verdict::Part(8, 0)),
    ]
}

/// Puts the case into a module.
pub fn put_case(alloc: Global, case: Case, m: &mut Module) -> Result<(), AllocError> {
    match case {
        Case::Param(ty) => put_type(alloc, &[ty], &[], m),
        Case::Results(first, second) => put_type(alloc, &[], &[first, second], m),
        Case::Import(desc) => put_import(alloc, desc, m),
        Case::Func(ty) => put_func(alloc, ty, &[], Expr::Nothing, m),
        Case::Local(ty) => put_func(alloc, 0, &[ty], Expr::Nothing, m),
        Case::Table(ty, limits) => put_table(ty, limits, m),
        Case::Filled(ty, init) => put_filled(alloc, ty, init, m),
        Case::Memory(limits) => m.memories.push(limits),
        Case::Tag(ty) => m.tags.push(ty),
        _ => put_other(alloc, case, m),
    }
}

/// Puts globals, exports, segments and bodies into a module.
fn put_other(alloc: Global, case: Case, m: &mut Module) -> Result<(), AllocError> {
    match case {
        Case::Global(ty, init) => put_global(alloc, ty, false, init, m),
        Case::Globals(first, second) => {
            put_global(alloc, Ty::I32, false, first, m)?;
            put_global(alloc, Ty::I32, false, second, m)
        }
        Case::Export(desc) => put_export(alloc, "a", desc, m),
        Case::Names(first, second) => {
            put_export(alloc, text_of(first), ExportDesc::Func(0), m)?;
            put_export(alloc, text_of(second), ExportDesc::Func(1), m)
        }
        Case::Start(func) => {
            m.start = Some(func);
            put_import(alloc, ImportDesc::Func(1), m)?;
            put_func(alloc, 2, &[], Expr::One(Step::C32), m)
        }
        Case::Element(place, ty, item) => put_element(alloc, place, ty, item, m),
        Case::Data(place) => put_data(alloc, place, m),
        Case::Exported(code) => {
            put_export(alloc, "a", ExportDesc::Func(1), m)?;
            put_func(alloc, 0, &[], code, m)
        }
        Case::Body(code) => put_func(alloc, 0, &[], code, m),
        _ => Ok(()),
    }
}
