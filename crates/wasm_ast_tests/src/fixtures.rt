// Small modules: nothing, and single parts put into it.

use num_core::lists::{Bytes, Text};
use sqlite_items::Items;
use std::alloc::{AllocError, Global};
use wasm_ast::lists::Types;
use wasm_ast::module;
use wasm_ast::module::{
    Body, Code, Element, Export, ExportDesc, FuncType, Import, ImportDesc, Instr, Limits, Mode,
    Module, Segment, Table, Ty,
};

/// Limits from one up.
pub const NARROW: Limits = Limits {
    min: 1,
    max: None,
    wide: false,
};

/// Limits from one up, with 64-bit addresses.
pub const WIDE: Limits = Limits {
    min: 1,
    max: None,
    wide: true,
};

/// A module with nothing in it.
pub fn nothing(alloc: Global) -> Module {
    Module {
        types: Items::new(alloc),
        imports: Items::new(alloc),
        funcs: Items::new(alloc),
        tables: Items::new(alloc),
        memories: Items::new(alloc),
        tags: Items::new(alloc),
        globals: Items::new(alloc),
        exports: Items::new(alloc),
        start: None,
        elems: Items::new(alloc),
        data_count: None,
        codes: Items::new(alloc),
        datas: Items::new(alloc),
    }
}

/// A list of this item alone.
pub fn one<T: Drop>(alloc: Global, item: T) -> Result<Items<T>, AllocError> {
    let mut items = Items::new(alloc);
    items.push(item)?;
    Ok(items)
}

/// A list of these types.
pub fn types_of(alloc: Global, types: &[Ty]) -> Result<Types, AllocError> {
    let mut list = Types::new(alloc);
    for ty in types {
        list.push(*ty)?;
    }
    Ok(list)
}

/// Puts a function type of these parameters and results into the module.
pub fn put_type(
    alloc: Global,
    params: &[Ty],
    results: &[Ty],
    m: &mut Module,
) -> Result<(), AllocError> {
    let params = types_of(alloc, params)?;
    let results = types_of(alloc, results)?;
    m.types.push(FuncType { params, results })
}

/// Puts an import into the module.
pub fn put_import(alloc: Global, desc: ImportDesc, m: &mut Module) -> Result<(), AllocError> {
    let module = Text::new(alloc, "host")?;
    let name = Text::new(alloc, "part")?;
    m.imports.push(Import { module, name, desc })
}

/// Puts a table into the module.
pub fn put_table(
    ty: Ty,
    limits: Limits,
    init: Option<Code>,
    m: &mut Module,
) -> Result<(), AllocError> {
    m.tables.push(Table { ty, limits, init })
}

/// Puts a global that cannot be changed into the module.
pub fn put_global(ty: Ty, init: Code, m: &mut Module) -> Result<(), AllocError> {
    m.globals.push(module::Global {
        ty,
        mutable: false,
        init,
    })
}

/// Puts an export into the module.
pub fn put_export(alloc: Global, desc: ExportDesc, m: &mut Module) -> Result<(), AllocError> {
    let name = Text::new(alloc, "part")?;
    m.exports.push(Export { name, desc })
}

/// Puts an element segment of these entries into the module.
pub fn put_element(
    mode: Mode,
    ty: Ty,
    items: Items<Code>,
    m: &mut Module,
) -> Result<(), AllocError> {
    m.elems.push(Element { mode, ty, items })
}

/// Puts a data segment of no bytes into the module.
pub fn put_data(alloc: Global, mode: Mode, m: &mut Module) -> Result<(), AllocError> {
    let bytes = Bytes::new(alloc);
    m.datas.push(Segment { mode, bytes })
}

/// Puts a body of this code with these locals into the module.
pub fn put_body(locals: Types, code: Code, m: &mut Module) -> Result<(), AllocError> {
    m.codes.push(Body { locals, code })
}

/// Puts a body of this instruction alone into the module.
pub fn put_instr(alloc: Global, instr: Instr, m: &mut Module) -> Result<(), AllocError> {
    let code = one(alloc, instr)?;
    put_body(Types::new(alloc), code, m)
}
