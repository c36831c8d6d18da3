// The module whose index spaces the rows name, and whether bodies are typed among them.

use crate::steps::{Step, code_of, instr_of, types_of};
use num_core::lists::{Bytes, Text};
use sqlite_items::Items;
use std::alloc::{AllocError, Global};
use typed_trees::TypedFn;
use valid_new::{Spaces, annotate_body};
use wasm_ast::module;
use wasm_ast::module::{
    Body, Code, Element, Export, ExportDesc, FuncType, Import, ImportDesc, Instr, Limits, Mode,
    Module, Op, Segment, Table, Ty,
};

/// The types of the parameters of each body, which are its first locals.
const PARAMS: [Ty; 2] = [Ty::I64, Ty::V128];

/// The function types, by their indices.
static TYPES: [(&[Ty], &[Ty]); 6] = [
    (&[], &[]),
    (&[Ty::I32, Ty::I64], &[Ty::V128]),
    (&[Ty::Extern], &[Ty::I64, Ty::Extern]),
    (&[Ty::I64, Ty::V128], &[]),
    (&[], &[Ty::I64, Ty::V128]),
    (&[], &[Ty::I64, Ty::V128, Ty::Exn]),
];

/// One of each kind is imported: a function, a table, a memory, a global and a tag.
static IMPORTS: [ImportDesc; 5] = [
    ImportDesc::Func(1),
    ImportDesc::Table(Ty::Func, NARROW),
    ImportDesc::Memory(NARROW),
    ImportDesc::Global(Ty::V128, false),
    ImportDesc::Tag(3),
];

/// The indices of the types of functions 1 to 6.
static FUNCS: [u32; 6] = [2, 0, 0, 0, 0, 0];

/// Tables 1 to 3, with the items that they begin with.
static TABLES: [(Ty, Option<Op>); 3] = [
    (Ty::Extern, None),
    (Ty::Func, Some(Op::RefFunc(3))),
    (Ty::Exn, None),
];

/// Globals 1 and 2.
static GLOBALS: [(Ty, bool, Op); 2] = [
    (Ty::I64, true, Op::I64Const(0)),
    (Ty::Func, false, Op::RefFunc(1)),
];

/// Where an element segment of a row goes.
#[derive(Clone, Copy)]
enum Place {
    Nowhere,
    Table,
    Declared,
}

/// The element segments, each of one item.
static ELEMENTS: [(Place, Ty, Op); 5] = [
    (Place::Nowhere, Ty::Func, Op::RefFunc(2)),
    (Place::Nowhere, Ty::Extern, Op::RefNull(Ty::Extern)),
    (Place::Nowhere, Ty::Exn, Op::RefNull(Ty::Exn)),
    (Place::Table, Ty::Func, Op::RefFunc(5)),
    (Place::Declared, Ty::Func, Op::RefFunc(6)),
];

/// Limits from one up.
const NARROW: Limits = Limits {
    min: 1,
    max: None,
    wide: false,
};

/// The same with 64-bit addresses.
const WIDE: Limits = Limits {
    min: 1,
    max: None,
    wide: true,
};

fn one<T: Drop>(alloc: Global, item: T) -> Result<Items<T>, AllocError> {
    let mut items = Items::new(alloc);
    items.push(item)?;
    Ok(items)
}

/// The expression of this operator.
fn expression(alloc: Global, op: Op) -> Result<Code, AllocError> {
    one(alloc, Instr::Pure(op))
}

/// A module with nothing in it.
fn nothing(alloc: Global) -> Module {
    Module {
        types: Items::new(alloc),
        imports: Items::new(alloc),
        funcs: Items::new(alloc),
        tables: Items::new(alloc),
        memories: Items::new(alloc),
        tags: Items::new(alloc),
        globals: Items::new(alloc),
        exports: Items::new(alloc),
        start: None,
        elems: Items::new(alloc),
        data_count: None,
        codes: Items::new(alloc),
        datas: Items::new(alloc),
    }
}

/// Puts the function types and the imports into the module.
fn put_types(alloc: Global, m: &mut Module) -> Result<(), AllocError> {
    for (params, results) in &TYPES {
        let params = types_of(alloc, params)?;
        let results = types_of(alloc, results)?;
        m.types.push(FuncType { params, results })?;
    }
    for desc in &IMPORTS {
        let module = Text::new(alloc, "host")?;
        let name = Text::new(alloc, "part")?;
        m.imports.push(Import {
            module,
            name,
            desc: *desc,
        })?;
    }
    Ok(())
}

fn initialiser(alloc: Global, op: Option<Op>) -> Result<Option<Code>, AllocError> {
    match op {
        Some(op) => Ok(Some(expression(alloc, op)?)),
        None => Ok(None),
    }
}

fn put_tables(alloc: Global, m: &mut Module) -> Result<(), AllocError> {
    for (ty, op) in &TABLES {
        let init = initialiser(alloc, *op)?;
        m.tables.push(Table {
            ty: *ty,
            limits: NARROW,
            init,
        })?;
    }
    Ok(())
}

fn put_globals(alloc: Global, m: &mut Module) -> Result<(), AllocError> {
    for (ty, mutable, op) in &GLOBALS {
        let init = expression(alloc, *op)?;
        m.globals.push(module::Global {
            ty: *ty,
            mutable: *mutable,
            init,
        })?;
    }
    Ok(())
}

fn mode_of(alloc: Global, place: Place) -> Result<Mode, AllocError> {
    match place {
        Place::Nowhere => Ok(Mode::Passive),
        Place::Table => Ok(Mode::Active(0, expression(alloc, Op::I32Const(0))?)),
        Place::Declared => Ok(Mode::Declarative),
    }
}

fn put_elements(alloc: Global, m: &mut Module) -> Result<(), AllocError> {
    for (place, ty, op) in &ELEMENTS {
        let items = one(alloc, expression(alloc, *op)?)?;
        let mode = mode_of(alloc, *place)?;
        m.elems.push(Element {
            mode,
            ty: *ty,
            items,
        })?;
    }
    Ok(())
}

fn put_export(alloc: Global, m: &mut Module) -> Result<(), AllocError> {
    m.exports.push(Export {
        name: Text::new(alloc, "part")?,
        desc: ExportDesc::Func(0),
    })
}

/// Puts what the module has of its own: an export names function 0, a global 1, element segments 2, 5 and 6, a table 3,
/// and 4 is the start function alone.
fn put_parts(alloc: Global, m: &mut Module) -> Result<(), AllocError> {
    m.funcs = Items::from_slice(alloc, &FUNCS)?;
    put_tables(alloc, m)?;
    m.memories.push(WIDE)?;
    m.tags.push(0)?;
    put_globals(alloc, m)?;
    put_export(alloc, m)?;
    m.start = Some(4);
    put_elements(alloc, m)?;
    m.datas.push(Segment {
        mode: Mode::Passive,
        bytes: Bytes::new(alloc),
    })
}

/// The module: functions 0 to 6, tables 0 and 2 of functions, 1 of externrefs and 3 of exnrefs, memory 0 with addresses of
/// 32 bits and 1 with 64, globals 0 to 2 of which 1 is mutable, tags 0 and 1, element segments 0, 3 and 4 of functions, 1
/// of externrefs and 2 of exnrefs, and data segment 0.
pub fn world(alloc: Global) -> Result<Module, AllocError> {
    let mut m = nothing(alloc);
    put_types(alloc, &mut m)?;
    put_parts(alloc, &mut m)?;
    Ok(m)
}

/// The type of a function with these results.
fn type_of(alloc: Global, results: &[Ty]) -> Result<FuncType, AllocError> {
    Ok(FuncType {
        params: types_of(alloc, &PARAMS)?,
        results: types_of(alloc, results)?,
    })
}

/// The nodes of a body with these declared locals and this code, where it is typed and leaves values of these types.
pub fn annotated(
    alloc: Global,
    spaces: &Spaces<'_>,
    locals: &[Ty],
    code: Code,
    results: &[Ty],
) -> Result<Option<TypedFn>, AllocError> {
    let locals = types_of(alloc, locals)?;
    let ty = type_of(alloc, results)?;
    annotate_body(alloc, spaces, &ty, &Body { locals, code })
}

/// Whether such a body is typed.
pub fn is_typed_body(
    alloc: Global,
    spaces: &Spaces<'_>,
    locals: &[Ty],
    code: Code,
    results: &[Ty],
) -> Result<bool, AllocError> {
    Ok(annotated(alloc, spaces, locals, code, results)?.is_some())
}

/// Whether the code is typed in a function without locals of its own that gives these results.
pub fn is_typed(
    alloc: Global,
    spaces: &Spaces<'_>,
    code: &[Step],
    results: &[Ty],
) -> Result<bool, AllocError> {
    is_typed_body(alloc, spaces, &[], code_of(alloc, code)?, results)
}

/// Puts into the code what gets the declared locals of these types in order.
fn put_operands(operands: &[Ty], code: &mut Code) -> Result<(), AllocError> {
    let mut local: u32 = 2;
    for _ in operands {
        code.push(Instr::LocalGet(local))?;
        local = local.wrapping_add(1);
    }
    Ok(())
}

/// The instruction behind what gets the declared locals of these types in order.
fn code_over(alloc: Global, operands: &[Ty], step: &Step) -> Result<Code, AllocError> {
    let mut code = Items::new(alloc);
    put_operands(operands, &mut code)?;
    code.push(instr_of(alloc, *step)?)?;
    Ok(code)
}

/// Whether the instruction, over operands of the first types alone, leaves values of the second types and no others.
pub fn is_typed_over(
    alloc: Global,
    spaces: &Spaces<'_>,
    operands: &[Ty],
    step: &Step,
    results: &[Ty],
) -> Result<bool, AllocError> {
    is_typed_body(
        alloc,
        spaces,
        operands,
        code_over(alloc, operands, step)?,
        results,
    )
}
