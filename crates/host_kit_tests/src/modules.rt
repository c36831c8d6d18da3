// A module of 3.0 and one of 1.0 with a part of each kind that a script can ask for.

use core1_ast::module::{
    Export1, ExportDesc1, FuncType1, Global1, Import1, ImportDesc1, Limits1, Module1, Ty1,
};
use num_core::lists::Text;
use sqlite_items::Items;
use std::alloc::{AllocError, Global};
use wasm_ast::lists::Types;
use wasm_ast::module;
use wasm_ast::module::{Export, ExportDesc, FuncType, Import, ImportDesc, Limits, Module, Ty};

/// A module of 3.0 with nothing in it.
fn nothing(alloc: Global) -> Module {
    Module {
        types: Items::new(alloc),
        imports: Items::new(alloc),
        funcs: Items::new(alloc),
        tables: Items::new(alloc),
        memories: Items::new(alloc),
        tags: Items::new(alloc),
        globals: Items::new(alloc),
        exports: Items::new(alloc),
        start: None,
        elems: Items::new(alloc),
        data_count: None,
        codes: Items::new(alloc),
        datas: Items::new(alloc),
    }
}

/// A list of these types.
fn types_of(alloc: Global, types: &[Ty]) -> Result<Types, AllocError> {
    let mut list = Types::new(alloc);
    for ty in types {
        list.push(*ty)?;
    }
    Ok(list)
}

/// Appends a function type.
fn put_type(
    alloc: Global,
    params: &[Ty],
    results: &[Ty],
    m: &mut Module,
) -> Result<(), AllocError> {
    let params = types_of(alloc, params)?;
    let results = types_of(alloc, results)?;
    m.types.push(FuncType { params, results })
}

/// What the module of 3.0 imports: functions 0 and 1, globals 0 and 1, memory 0.
static IMPORTS: [ImportDesc; 5] = [
    ImportDesc::Func(0),
    ImportDesc::Global(Ty::I64, false),
    ImportDesc::Memory(LIMITS),
    ImportDesc::Func(1),
    ImportDesc::Global(Ty::Extern, false),
];

const LIMITS: Limits = Limits {
    min: 1,
    max: None,
    wide: false,
};

/// What the module of 3.0 exports. What begins with `no` names nothing.
static EXPORTS: [(&str, ExportDesc); 13] = [
    ("f", ExportDesc::Func(2)),
    ("j", ExportDesc::Func(0)),
    ("g", ExportDesc::Global(2)),
    ("fixed", ExportDesc::Global(3)),
    ("given", ExportDesc::Global(0)),
    ("m", ExportDesc::Memory(0)),
    ("n", ExportDesc::Memory(1)),
    ("t", ExportDesc::Table(0)),
    ("e", ExportDesc::Tag(0)),
    ("no function", ExportDesc::Func(3)),
    ("no type", ExportDesc::Func(4)),
    ("no global", ExportDesc::Global(4)),
    ("no memory", ExportDesc::Memory(2)),
];

/// The module of 3.0. Function 0 takes a value of each type and gives an i32 and an i64; functions 1 and 2 take and give
/// nothing; global 2 is a mutable i32 and global 3 an i32.
pub fn module(alloc: Global) -> Result<Module, AllocError> {
    let mut m = nothing(alloc);
    let params = [Ty::I32, Ty::I64, Ty::V128, Ty::Func, Ty::Extern];
    put_type(
        alloc,
        params.as_slice(),
        [Ty::I32, Ty::I64].as_slice(),
        &mut m,
    )?;
    put_type(alloc, &[], &[], &mut m)?;
    for desc in &IMPORTS {
        put_import(alloc, *desc, &mut m)?;
    }
    m.funcs.push(1)?;
    m.memories.push(LIMITS)?;
    put_globals(alloc, &mut m)?;
    for (name, desc) in &EXPORTS {
        let name = Text::new(alloc, name)?;
        m.exports.push(Export { name, desc: *desc })?;
    }
    Ok(m)
}

/// Appends an import.
fn put_import(alloc: Global, desc: ImportDesc, m: &mut Module) -> Result<(), AllocError> {
    let module = Text::new(alloc, "host")?;
    let name = Text::new(alloc, "part")?;
    m.imports.push(Import { module, name, desc })
}

/// Appends a mutable i32 and an i32.
fn put_globals(alloc: Global, m: &mut Module) -> Result<(), AllocError> {
    for mutable in [true, false] {
        let init = Items::new(alloc);
        let ty = Ty::I32;
        m.globals.push(module::Global { ty, mutable, init })?;
    }
    Ok(())
}

/// What the module of 1.0 imports: functions 0 and 1, global 0, memory 0.
static IMPORTS1: [ImportDesc1; 4] = [
    ImportDesc1::Func(0),
    ImportDesc1::Global(Ty1::I64, false),
    ImportDesc1::Memory(LIMITS1),
    ImportDesc1::Func(1),
];

const LIMITS1: Limits1 = Limits1 { min: 1, max: None };

/// What the module of 1.0 exports. What begins with `no` names nothing.
static EXPORTS1: [(&str, ExportDesc1); 10] = [
    ("f", ExportDesc1::Func(2)),
    ("j", ExportDesc1::Func(0)),
    ("g", ExportDesc1::Global(1)),
    ("fixed", ExportDesc1::Global(2)),
    ("given", ExportDesc1::Global(0)),
    ("m", ExportDesc1::Memory(0)),
    ("t", ExportDesc1::Table(0)),
    ("no function", ExportDesc1::Func(3)),
    ("no global", ExportDesc1::Global(3)),
    ("no memory", ExportDesc1::Memory(1)),
];

/// The module of 1.0. Function 0 takes an i32 and an i64 and gives an i32; functions 1 and 2 take and give nothing; global 1
/// is a mutable i32 and global 2 an i32.
pub fn module1(alloc: Global) -> Result<Module1, AllocError> {
    let mut m = nothing1(alloc);
    put_type1(
        alloc,
        [Ty1::I32, Ty1::I64].as_slice(),
        [Ty1::I32].as_slice(),
        &mut m,
    )?;
    put_type1(alloc, &[], &[], &mut m)?;
    for desc in &IMPORTS1 {
        put_import1(alloc, *desc, &mut m)?;
    }
    m.funcs.push(1)?;
    for mutable in [true, false] {
        let init = Items::new(alloc);
        let ty = Ty1::I32;
        m.globals.push(Global1 { ty, mutable, init })?;
    }
    for (name, desc) in &EXPORTS1 {
        let name = Text::new(alloc, name)?;
        m.exports.push(Export1 { name, desc: *desc })?;
    }
    Ok(m)
}

/// A module of 1.0 with nothing in it.
fn nothing1(alloc: Global) -> Module1 {
    Module1 {
        types: Items::new(alloc),
        imports: Items::new(alloc),
        funcs: Items::new(alloc),
        tables: Items::new(alloc),
        memories: Items::new(alloc),
        globals: Items::new(alloc),
        exports: Items::new(alloc),
        start: None,
        elems: Items::new(alloc),
        codes: Items::new(alloc),
        datas: Items::new(alloc),
    }
}

/// Appends a function type.
fn put_type1(
    alloc: Global,
    params: &[Ty1],
    results: &[Ty1],
    m: &mut Module1,
) -> Result<(), AllocError> {
    let params = Items::from_slice(alloc, params)?;
    let results = Items::from_slice(alloc, results)?;
    m.types.push(FuncType1 { params, results })
}

/// Appends an import.
fn put_import1(alloc: Global, desc: ImportDesc1, m: &mut Module1) -> Result<(), AllocError> {
    let module = Text::new(alloc, "host")?;
    let name = Text::new(alloc, "part")?;
    m.imports.push(Import1 { module, name, desc })
}
