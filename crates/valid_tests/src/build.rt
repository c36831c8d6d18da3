// Small modules, and the verdict on a module as plain data.

use crate::steps::{Step, code_of};
use core1_ast::module;
use core1_ast::module::{
    Body1, Element1, Export1, ExportDesc1, FuncType1, Import1, ImportDesc1, Module1, Segment1, Ty1,
};
use num_core::lists::{Bytes, Text};
use sqlite_items::Items;
use std::alloc::{AllocError, Global};
use valid_core1::{Invalid, validate1};

/// What is found of a module.
#[derive(Clone, Copy, Debug, PartialEq, Eq)]
pub enum Verdict {
    Typed,
    Part(u8, u32),
    Body(u32),
    /// Memory was not found, or there are not as many functions as bodies.
    Other,
}

/// The verdict on the module.
pub fn verdict_on(alloc: Global, m: &Module1) -> Verdict {
    if m.funcs.len() != m.codes.len() {
        return Verdict::Other;
    }
    match validate1(alloc, m) {
        Ok(_) => Verdict::Typed,
        Err(Invalid::Part { section, index }) => Verdict::Part(section, index),
        Err(Invalid::Body(index)) => Verdict::Body(index),
        Err(Invalid::Memory(_)) => Verdict::Other,
    }
}

/// A module with nothing in it.
pub fn nothing(alloc: Global) -> Module1 {
    Module1 {
        types: Items::new(alloc),
        imports: Items::new(alloc),
        funcs: Items::new(alloc),
        tables: Items::new(alloc),
        memories: Items::new(alloc),
        globals: Items::new(alloc),
        exports: Items::new(alloc),
        start: None,
        elems: Items::new(alloc),
        codes: Items::new(alloc),
        datas: Items::new(alloc),
    }
}

/// Puts a function type of these parameters and results into the module.
pub fn put_type(
    alloc: Global,
    params: &[Ty1],
    results: &[Ty1],
    m: &mut Module1,
) -> Result<(), AllocError> {
    let params = Items::from_slice(alloc, params)?;
    let results = Items::from_slice(alloc, results)?;
    m.types.push(FuncType1 { params, results })
}

/// Puts an import into the module.
pub fn put_import(alloc: Global, desc: ImportDesc1, m: &mut Module1) -> Result<(), AllocError> {
    let module = Text::new(alloc, "host")?;
    let name = Text::new(alloc, "part")?;
    m.imports.push(Import1 { module, name, desc })
}

/// Puts a function of the type into the module, with these locals and this code.
pub fn put_func(
    alloc: Global,
    ty: u32,
    locals: &[Ty1],
    steps: &[Step],
    m: &mut Module1,
) -> Result<(), AllocError> {
    let locals = Items::from_slice(alloc, locals)?;
    let code = code_of(alloc, steps)?;
    m.codes.push(Body1 { locals, code })?;
    m.funcs.push(ty)
}

/// Puts a global into the module.
pub fn put_global(
    alloc: Global,
    ty: Ty1,
    mutable: bool,
    init: &[Step],
    m: &mut Module1,
) -> Result<(), AllocError> {
    let init = code_of(alloc, init)?;
    m.globals.push(module::Global1 { ty, mutable, init })
}

/// Puts an export into the module.
pub fn put_export(
    alloc: Global,
    name: &str,
    desc: ExportDesc1,
    m: &mut Module1,
) -> Result<(), AllocError> {
    let name = Text::new(alloc, name)?;
    m.exports.push(Export1 { name, desc })
}

/// Puts an element segment for table 0 into the module.
pub fn put_element(
    alloc: Global,
    offset: &[Step],
    items: &[u32],
    m: &mut Module1,
) -> Result<(), AllocError> {
    let offset = code_of(alloc, offset)?;
    let items = Items::from_slice(alloc, items)?;
    m.elems.push(Element1 {
        table: 0,
        offset,
        items,
    })
}

/// Puts a data segment of no bytes for memory 0 into the module.
pub fn put_data(alloc: Global, offset: &[Step], m: &mut Module1) -> Result<(), AllocError> {
    let offset = code_of(alloc, offset)?;
    let bytes = Bytes::new(alloc);
    m.datas.push(Segment1 {
        memory: 0,
        offset,
        bytes,
    })
}
