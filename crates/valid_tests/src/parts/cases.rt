// What is put into a typed module, and the verdict on it then.

use super::ONE;
use crate::build::{
    Verdict, put_data, put_element, put_export, put_func, put_global, put_import, put_type,
};
use crate::rules::{ADD, C32, C64, I32, I64, NONE};
use crate::steps::Step;
use core1_ast::module::{BlockType1, ExportDesc1, ImportDesc1, Limits1, Module1, Ty1};
use std::alloc::{AllocError, Global};

/// An initial value or an offset.
#[derive(Clone, Copy)]
pub enum Value {
    Nothing,
    Const32,
    Const64,
    Two,
    Get(u32),
    /// i32.const twice, and i32.add.
    Sum,
    /// nop, and then i32.const.
    Late,
}

/// What is put into a module.
#[derive(Clone, Copy)]
pub enum Case {
    Type(Ty1, BlockType1),
    TwoResults,
    Import(ImportDesc1),
    Imports(ImportDesc1, ImportDesc1),
    Func(u32),
    /// A function of type 0 with a local of this type.
    Local(Ty1),
    Table(Limits1),
    Tables,
    ImportedTable,
    Memory(Limits1),
    Memories,
    ImportedMemory,
    Global(Ty1, Value),
    /// A global behind another one, which is its initial value.
    Globals,
    Export(ExportDesc1),
    /// An export of each of these, beside a table and a memory.
    Exports(ExportDesc1, ExportDesc1),
    /// Two exports, with one name or two.
    Names(bool),
    Start(u32),
    /// An element segment for a table, with this item.
    Element(Value, u32),
    ElementAlone,
    Data(Value),
    DataAlone,
}

/// Function types, and the types of functions and of locals.
pub fn types() -> &'static [(Case, Verdict)] {
    &[
        (Case::Type(Ty1::I64, I64), Verdict::Typed),
        (Case::Type(Ty1::F32, NONE), Verdict::Part(1, 3)),
        (Case::Type(Ty1::F64, NONE), Verdict::Part(1, 3)),
        (
            Case::Type(Ty1::I32, BlockType1::One(Ty1::F32)),
            Verdict::Part(1, 3),
        ),
        (
            Case::Type(Ty1::I32, BlockType1::One(Ty1::F64)),
            Verdict::Part(1, 3),
        ),
        (Case::TwoResults, Verdict::Part(1, 3)),
        (Case::Func(0), Verdict::Typed),
        (Case::Func(1), Verdict::Typed),
        (Case::Func(2), Verdict::Body(1)),
        (Case::Func(3), Verdict::Part(3, 1)),
        (Case::Local(Ty1::I64), Verdict::Typed),
        (Case::Local(Ty1::F32), Verdict::Body(1)),
        (Case::Local(Ty1::F64), Verdict::Body(1)),
    ]
}

/// Imports.
pub fn imports() -> &'static [(Case, Verdict)] {
    &[
        (Case::Import(ImportDesc1::Func(2)), Verdict::Typed),
        (Case::Import(ImportDesc1::Func(3)), Verdict::Part(2, 3)),
        (
            Case::Import(ImportDesc1::Global(Ty1::I32, false)),
            Verdict::Typed,
        ),
        (
            Case::Import(ImportDesc1::Global(Ty1::F32, false)),
            Verdict::Part(2, 3),
        ),
        (
            Case::Import(ImportDesc1::Global(Ty1::F64, true)),
            Verdict::Part(2, 3),
        ),
        (Case::Import(ImportDesc1::Table(ONE)), Verdict::Typed),
        (
            Case::Import(ImportDesc1::Table(Limits1 {
                min: 2,
                max: Some(2),
            })),
            Verdict::Typed,
        ),
        (
            Case::Import(ImportDesc1::Table(Limits1 {
                min: 2,
                max: Some(1),
            })),
            Verdict::Part(2, 3),
        ),
        (
            Case::Import(ImportDesc1::Memory(Limits1 {
                min: 65536,
                max: Some(65536),
            })),
            Verdict::Typed,
        ),
        (
            Case::Import(ImportDesc1::Memory(Limits1 {
                min: 65537,
                max: None,
            })),
            Verdict::Part(2, 3),
        ),
        (
            Case::Import(ImportDesc1::Memory(Limits1 {
                min: 0,
                max: Some(65537),
            })),
            Verdict::Part(2, 3),
        ),
        (
            Case::Import(ImportDesc1::Memory(Limits1 {
                min: 1,
                max: Some(0),
            })),
            Verdict::Part(2, 3),
        ),
        (
            Case::Imports(ImportDesc1::Table(ONE), ImportDesc1::Memory(ONE)),
            Verdict::Typed,
        ),
        (
            Case::Imports(ImportDesc1::Memory(ONE), ImportDesc1::Table(ONE)),
            Verdict::Typed,
        ),
        (
            Case::Imports(ImportDesc1::Table(ONE), ImportDesc1::Table(ONE)),
            Verdict::Part(2, 4),
        ),
        (
            Case::Imports(ImportDesc1::Memory(ONE), ImportDesc1::Memory(ONE)),
            Verdict::Part(2, 4),
        ),
        (
            Case::Imports(ImportDesc1::Func(3), ImportDesc1::Func(3)),
            Verdict::Part(2, 3),
        ),
    ]
}

/// Tables and memories.
pub fn sizes() -> &'static [(Case, Verdict)] {
    &[
        (
            Case::Table(Limits1 {
                min: 4294967295,
                max: Some(4294967295),
            }),
            Verdict::Typed,
        ),
        (
            Case::Table(Limits1 {
                min: 1,
                max: Some(0),
            }),
            Verdict::Part(4, 0),
        ),
        (Case::Tables, Verdict::Part(4, 1)),
        (Case::ImportedTable, Verdict::Part(4, 0)),
        (
            Case::Memory(Limits1 {
                min: 65536,
                max: None,
            }),
            Verdict::Typed,
        ),
        (
            Case::Memory(Limits1 {
                min: 65536,
                max: Some(65536),
            }),
            Verdict::Typed,
        ),
        (
            Case::Memory(Limits1 {
                min: 65537,
                max: None,
            }),
            Verdict::Part(5, 0),
        ),
        (
            Case::Memory(Limits1 {
                min: 0,
                max: Some(65537),
            }),
            Verdict::Part(5, 0),
        ),
        (
            Case::Memory(Limits1 {
                min: 2,
                max: Some(1),
            }),
            Verdict::Part(5, 0),
        ),
        (Case::Memories, Verdict::Part(5, 1)),
        (Case::ImportedMemory, Verdict::Part(5, 0)),
    ]
}

/// Globals, whose initial values may name imported globals alone.
pub fn globals() -> &'static [(Case, Verdict)] {
    &[
        (Case::Global(Ty1::I32, Value::Const32), Verdict::Typed),
        (Case::Global(Ty1::I64, Value::Const64), Verdict::Typed),
        (Case::Global(Ty1::I64, Value::Get(0)), Verdict::Typed),
        (Case::Global(Ty1::I32, Value::Const64), Verdict::Part(6, 1)),
        (Case::Global(Ty1::I64, Value::Const32), Verdict::Part(6, 1)),
        (Case::Global(Ty1::F32, Value::Const32), Verdict::Part(6, 1)),
        (Case::Global(Ty1::I32, Value::Get(0)), Verdict::Part(6, 1)),
        (Case::Global(Ty1::I32, Value::Get(1)), Verdict::Part(6, 1)),
        (Case::Global(Ty1::I32, Value::Get(2)), Verdict::Part(6, 1)),
        (Case::Global(Ty1::I32, Value::Get(9)), Verdict::Part(6, 1)),
        (Case::Global(Ty1::I32, Value::Nothing), Verdict::Part(6, 1)),
        (Case::Global(Ty1::I32, Value::Two), Verdict::Part(6, 1)),
        (Case::Global(Ty1::I32, Value::Sum), Verdict::Part(6, 1)),
        (Case::Global(Ty1::I32, Value::Late), Verdict::Part(6, 1)),
        (Case::Globals, Verdict::Part(6, 2)),
    ]
}

/// Exports and the start.
pub fn exports() -> &'static [(Case, Verdict)] {
    &[
        (Case::Export(ExportDesc1::Func(1)), Verdict::Typed),
        (Case::Export(ExportDesc1::Func(2)), Verdict::Part(7, 0)),
        (Case::Export(ExportDesc1::Global(2)), Verdict::Typed),
        (Case::Export(ExportDesc1::Global(3)), Verdict::Part(7, 0)),
        (Case::Export(ExportDesc1::Table(0)), Verdict::Part(7, 0)),
        (Case::Export(ExportDesc1::Memory(0)), Verdict::Part(7, 0)),
        (
            Case::Exports(ExportDesc1::Table(0), ExportDesc1::Memory(0)),
            Verdict::Typed,
        ),
        (
            Case::Exports(ExportDesc1::Table(1), ExportDesc1::Memory(0)),
            Verdict::Part(7, 0),
        ),
        (
            Case::Exports(ExportDesc1::Table(0), ExportDesc1::Memory(1)),
            Verdict::Part(7, 1),
        ),
        (Case::Names(false), Verdict::Typed),
        (Case::Names(true), Verdict::Part(7, 1)),
        (Case::Start(0), Verdict::Typed),
        (Case::Start(1), Verdict::Part(8, 0)),
        (Case::Start(2), Verdict::Typed),
        (Case::Start(3), Verdict::Part(8, 0)),
        (Case::Start(4), Verdict::Part(8, 0)),
    ]
}

/// Element and data segments.
pub fn segments() -> &'static [(Case, Verdict)] {
    &[
        (Case::Element(Value::Const32, 1), Verdict::Typed),
        (Case::Element(Value::Get(2), 1), Verdict::Typed),
        (Case::Element(Value::Const64, 1), Verdict::Part(9, 0)),
        (Case::Element(Value::Get(0), 1), Verdict::Part(9, 0)),
        (Case::Element(Value::Get(1), 1), Verdict::Part(9, 0)),
        (Case::Element(Value::Sum, 1), Verdict::Part(9, 0)),
        (Case::Element(Value::Nothing, 1), Verdict::Part(9, 0)),
        (Case::Element(Value::Two, 1), Verdict::Part(9, 0)),
        (Case::Element(Value::Const32, 2), Verdict::Part(9, 0)),
        (Case::ElementAlone, Verdict::Part(9, 0)),
        (Case::Data(Value::Const32), Verdict::Typed),
        (Case::Data(Value::Get(2)), Verdict::Typed),
        (Case::Data(Value::Const64), Verdict::Part(11, 0)),
        (Case::Data(Value::Get(1)), Verdict::Part(11, 0)),
        (Case::Data(Value::Late), Verdict::Part(11, 0)),
        (Case::DataAlone, Verdict::Part(11, 0)),
    ]
}

/// The code of an initial value or an offset.
fn steps_of(value: Value) -> (usize, [Step; 3]) {
    match value {
        Value::Nothing => (0, [C32, C32, ADD]),
        Value::Const32 => (1, [C32, C32, ADD]),
        Value::Two => (2, [C32, C32, ADD]),
        Value::Sum => (3, [C32, C32, ADD]),
        Value::Const64 => (1, [C64, C32, ADD]),
        Value::Get(global) => (1, [Step::GlobalGet(global), C32, ADD]),
        Value::Late => (2, [Step::Nop, C32, ADD]),
    }
}

/// So many steps at the front.
fn front(steps: &[Step], len: usize) -> &[Step] {
    &steps[..len.min(steps.len())]
}

/// Puts the case into a module.
pub fn put_case(alloc: Global, case: Case, m: &mut Module1) -> Result<(), AllocError> {
    match case {
        Case::Type(param, BlockType1::Empty) => put_type(alloc, &[param], &[], m),
        Case::Type(param, BlockType1::One(ty)) => put_type(alloc, &[param], &[ty], m),
        Case::TwoResults => put_type(alloc, &[], &[Ty1::I32, Ty1::I32], m),
        Case::Import(desc) => put_import(alloc, desc, m),
        Case::Imports(first, second) => {
            put_import(alloc, first, m)?;
            put_import(alloc, second, m)
        }
        Case::Func(ty) => put_func(alloc, ty, &[], &[], m),
        Case::Local(ty) => put_func(alloc, 0, &[ty], &[], m),
        Case::Start(func) => {
            m.start = Some(func);
            put_import(alloc, ImportDesc1::Func(1), m)?;
            put_func(alloc, 2, &[], &[C32], m)
        }
        _ => put_size(alloc, case, m),
    }
}

/// Puts tables and memories into a module.
fn put_size(alloc: Global, case: Case, m: &mut Module1) -> Result<(), AllocError> {
    match case {
        Case::Table(limits) => m.tables.push(limits),
        Case::Tables => {
            m.tables.push(ONE)?;
            m.tables.push(ONE)
        }
        Case::ImportedTable => {
            put_import(alloc, ImportDesc1::Table(ONE), m)?;
            m.tables.push(ONE)
        }
        Case::Memory(limits) => m.memories.push(limits),
        Case::Memories => {
            m.memories.push(ONE)?;
            m.memories.push(ONE)
        }
        Case::ImportedMemory => {
            put_import(alloc, ImportDesc1::Memory(ONE), m)?;
            m.memories.push(ONE)
        }
        _ => put_other(alloc, case, m),
    }
}

/// Puts globals, exports and segments into a module.
fn put_other(alloc: Global, case: Case, m: &mut Module1) -> Result<(), AllocError> {
    match case {
        Case::Global(ty, value) => {
            let (len, steps) = steps_of(value);
            put_global(alloc, ty, false, front(&steps, len), m)
        }
        Case::Globals => {
            put_global(alloc, Ty1::I32, false, &[C32], m)?;
            put_global(alloc, Ty1::I32, false, &[Step::GlobalGet(3)], m)
        }
        Case::Export(desc) => put_export(alloc, "a", desc, m),
        Case::Exports(first, second) => {
            m.tables.push(ONE)?;
            m.memories.push(ONE)?;
            put_export(alloc, "a", first, m)?;
            put_export(alloc, "b", second, m)
        }
        Case::Names(same) => {
            put_export(alloc, "a", ExportDesc1::Func(0), m)?;
            put_export(alloc, if same { "a" } else { "b" }, ExportDesc1::Func(1), m)
        }
        _ => put_segment(alloc, case, m),
    }
}

/// Puts segments into a module.
fn put_segment(alloc: Global, case: Case, m: &mut Module1) -> Result<(), AllocError> {
    match case {
        Case::Element(value, item) => {
            let (len, steps) = steps_of(value);
            m.tables.push(ONE)?;
            put_element(alloc, front(&steps, len), &[0, item], m)
        }
        Case::ElementAlone => put_element(alloc, &[C32], &[], m),
        Case::Data(value) => {
            let (len, steps) = steps_of(value);
            m.memories.push(ONE)?;
            put_data(alloc, front(&steps, len), m)
        }
        _ => put_data(alloc, &[C32], m),
    }
}
