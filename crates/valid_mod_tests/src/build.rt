// Small modules, and the verdict on a module as plain data.

ghost use Rattle.std.specs.Prelude.{◌≡◌, true};
ghost use Rattle.wasm_ast.specs.Counts.{Agrees};

use crate::code::{Expr, Step, code_of};
use num_core::lists::{Bytes, Text};
use sqlite_items::Items;
use std::alloc::{AllocError, Global};
use valid_mod::{Invalid, check, validate_owned};
use wasm_ast::lists::Types;
use wasm_ast::module;
use wasm_ast::module::{
    Body, Element, Export, ExportDesc, FuncType, Import, ImportDesc, Limits, Mode, Module, Segment,
    Table, Ty,
};

/// What is found of a module.
#[derive(Clone, Copy, Debug, PartialEq, Eq)]
pub enum Verdict {
    Typed,
    Part(u8, u32),
    Body(u32),
    /// Memory was not found, or the counts of the module do not agree.
    Other,
}

/// Whether the counts of the module agree. Its data count is told.
fn counts_agree(m: &Module) -> bool
    ensures { result ≡ true → Agrees m.now }
{
    let Some(count) = m.data_count else {
        return false;
    };
    m.funcs.len() == m.codes.len() && count as usize == m.datas.len()
}

/// The verdict on the module.
pub fn verdict_on(alloc: Global, m: &Module) -> Verdict {
    if !counts_agree(m) {
        return Verdict::Other;
    }
    verdict_of(check(alloc, m))
}

/// The verdict on the module, which is taken apart.
pub fn verdict_on_owned(alloc: Global, m: Module) -> Verdict {
    if !counts_agree(&m) {
        return Verdict::Other;
    }
    verdict_of(validate_owned(alloc, m))
}

fn verdict_of<A: Drop>(found: Result<A, Invalid>) -> Verdict {
    match found {
        Ok(_) => Verdict::Typed,
        Err(Invalid::Part { section, index }) => Verdict::Part(section, index),
        Err(Invalid::Body(index)) => Verdict::Body(index),
        Err(Invalid::Memory(_)) => Verdict::Other,
    }
}

/// A module with nothing in it.
pub fn nothing(alloc: Global) -> Module {
    Module {
        types: Items::new(alloc),
        imports: Items::new(alloc),
        funcs: Items::new(alloc),
        tables: Items::new(alloc),
        memories: Items::new(alloc),
        tags: Items::new(alloc),
        globals: Items::new(alloc),
        exports: Items::new(alloc),
        start: None,
        elems: Items::new(alloc),
        data_count: Some(0),
        codes: Items::new(alloc),
        datas: Items::new(alloc),
    }
}

/// Limits of a 32-bit memory or of a table.
pub fn narrow(min: u64, max: Option<u64>) -> Limits {
    Limits {
        min,
        max,
        wide: false,
    }
}

/// Limits of a 64-bit memory.
pub fn wide(min: u64, max: Option<u64>) -> Limits {
    Limits {
        min,
        max,
        wide: true,
    }
}

fn types_of(alloc: Global, types: &[Ty]) -> Result<Types, AllocError> {
    let mut list = Types::new(alloc);
    for ty in types {
        list.push(*ty)?;
    }
    Ok(list)
}

/// Puts a function type of these parameters and results into the module.
pub fn put_type(
    alloc: Global,
    params: &[Ty],
    results: &[Ty],
    m: &mut Module,
) -> Result<(), AllocError> {
    let params = types_of(alloc, params)?;
    let results = types_of(alloc, results)?;
    m.types.push(FuncType { params, results })
}

/// Puts an import into the module.
pub fn put_import(alloc: Global, desc: ImportDesc, m: &mut Module) -> Result<(), AllocError> {
    let module = Text::new(alloc, "host")?;
    let name = Text::new(alloc, "part")?;
    m.imports.push(Import { module, name, desc })
}

/// Puts a function of the type into the module, with these locals and this code.
pub fn put_func(
    alloc: Global,
    ty: u32,
    locals: &[Ty],
    steps: Expr,
    m: &mut Module,
) -> Result<(), AllocError> {
    let locals = types_of(alloc, locals)?;
    let code = code_of(alloc, steps)?;
    m.codes.push(Body { locals, code })?;
    m.funcs.push(ty)
}

/// Puts a table without an expression into the module.
pub fn put_table(ty: Ty, limits: Limits, m: &mut Module) -> Result<(), AllocError> {
    m.tables.push(Table {
        ty,
        limits,
        init: None,
    })
}

/// Puts a table of one entry into the module, which the expression gives.
pub fn put_filled(alloc: Global, ty: Ty, init: Expr, m: &mut Module) -> Result<(), AllocError> {
    let init = code_of(alloc, init)?;
    m.tables.push(Table {
        ty,
        limits: narrow(1, None),
        init: Some(init),
    })
}

/// Puts a global into the module.
pub fn put_global(
    alloc: Global,
    ty: Ty,
    mutable: bool,
    init: Expr,
    m: &mut Module,
) -> Result<(), AllocError> {
    let init = code_of(alloc, init)?;
    m.globals.push(module::Global { ty, mutable, init })
}

/// Puts an export into the module.
pub fn put_export(
    alloc: Global,
    name: &str,
    desc: ExportDesc,
    m: &mut Module,
) -> Result<(), AllocError> {
    let name = Text::new(alloc, name)?;
    m.exports.push(Export { name, desc })
}

/// How a segment comes into its table or memory, as plain data.
#[derive(Clone, Copy)]
pub enum Place {
    Active(u32, Expr),
    Passive,
    Declarative,
}

fn mode_of(alloc: Global, place: Place) -> Result<Mode, AllocError> {
    match place {
        Place::Active(index, offset) => Ok(Mode::Active(index, code_of(alloc, offset)?)),
        Place::Passive => Ok(Mode::Passive),
        Place::Declarative => Ok(Mode::Declarative),
    }
}

/// Puts an element segment with one entry into the module.
pub fn put_element(
    alloc: Global,
    place: Place,
    ty: Ty,
    item: Expr,
    m: &mut Module,
) -> Result<(), AllocError> {
    let mode = mode_of(alloc, place)?;
    let mut items = Items::new(alloc);
    items.push(code_of(alloc, item)?)?;
    m.elems.push(Element { mode, ty, items })
}

/// Puts a data segment of no bytes into the module.
pub fn put_data(alloc: Global, place: Place, m: &mut Module) -> Result<(), AllocError> {
    let mode = mode_of(alloc, place)?;
    let bytes = Bytes::new(alloc);
    m.datas.push(Segment { mode, bytes })?;
    m.data_count = u32::try_from(m.datas.len()).ok();
    Ok(())
}

/// A module that is typed. It imports function 0, which takes and gives nothing, and the globals 0, an i64 that cannot be
/// changed, and 1, an i32 that can. Function 1, of the same type, and global 2, an i32 that cannot be changed, are its
/// own, and so are table 0 of functions, table 1 of externals, memory 0 of 32 bits, memory 1 of 64 bits, and a tag.
pub fn typed_module(alloc: Global) -> Result<Module, AllocError> {
    let mut m = nothing(alloc);
    put_type(alloc, &[], &[], &mut m)?;
    put_type(alloc, &[Ty::I32], &[], &mut m)?;
    put_type(alloc, &[], &[Ty::I32], &mut m)?;
    put_imports(alloc, &mut m)?;
    put_sizes(&mut m)?;
    put_global(alloc, Ty::I32, false, Expr::One(Step::C32), &mut m)?;
    put_func(alloc, 0, &[], Expr::Nothing, &mut m)?;
    Ok(m)
}

fn put_imports(alloc: Global, m: &mut Module) -> Result<(), AllocError> {
    put_import(alloc, ImportDesc::Func(0), m)?;
    put_import(alloc, ImportDesc::Global(Ty::I64, false), m)?;
    put_import(alloc, ImportDesc::Global(Ty::I32, true), m)
}

fn put_sizes(m: &mut Module) -> Result<(), AllocError> {
    put_table(Ty::Func, narrow(1, None), m)?;
    put_table(Ty::Extern, narrow(1, None), m)?;
    m.memories.push(narrow(1, None))?;
    m.memories.push(wide(1, None))?;
    m.tags.push(1)
}
