// The parts of a module, each in its place: indices stay.

ghost use Rattle.std.specs.Prelude.{◌≡◌, [], ◌∷◌, ◌++◌, map, flat_map, IfOk, OnOk};
ghost use Rattle.typed_trees.specs.Typed.{body_of};
ghost use Rattle.wasm_ast.specs.declared.module.code.Instr.{out-Instr};
ghost use Rattle.crossing.specs.Modules.{cross_func_type, cross_limits, cross_import_desc, cross_import, cross_global, cross_export_desc, cross_export, referred, cross_item, cross_active, cross_element, cross_segment, cross_body};

use crate::code::{cross_code, cross_nodes};
use crate::lists::room_for;
use crate::types::{cross_limits, cross_type, cross_types};
use core1_ast::module::{
    Body1, Element1, Export1, ExportDesc1, FuncType1, Global1, Import1, ImportDesc1, Limits1,
    Segment1, Ty1,
};
use num_core::lists::{Bytes, TryCopy};
use owned_lists::Drain;
use sqlite_items::Items;
use std::alloc::{AllocError, Global};
use typed_trees::TypedFn;
use wasm_ast::module;
use wasm_ast::module::{
    Code, Element, Export, ExportDesc, FuncType, Import, ImportDesc, Instr, Limits, Mode, Op,
    Segment, Table,
};

/// The function types.
pub(crate) fn cross_func_types(
    alloc: Global,
    types: &[FuncType],
) -> Result<Items<FuncType1>, AllocError>
    ensures { IfOk result (λ out. out ≡ map cross_func_type types.now) }
{
    let mut out = room_for(alloc, types.len())?;
    for ty in types {
        let params = cross_types(alloc, ty.params.as_slice())?;
        let results = cross_types(alloc, ty.results.as_slice())?;
        out.push(FuncType1 { params, results })?;
    }
    Ok(out)
}

/// What an import asks of the host. There is no tag, which is written as a global.
fn cross_import_desc(desc: ImportDesc) -> Result<ImportDesc1, AllocError>
    ensures { IfOk result (λ out. out ≡ cross_import_desc desc) }
{
    Ok(match desc {
        ImportDesc::Func(ty) => ImportDesc1::Func(ty),
        ImportDesc::Table(_, limits) => ImportDesc1::Table(cross_limits(limits)?),
        ImportDesc::Memory(limits) => ImportDesc1::Memory(cross_limits(limits)?),
        ImportDesc::Global(ty, mutable) => ImportDesc1::Global(cross_type(ty), mutable),
        ImportDesc::Tag(_) => ImportDesc1::Global(Ty1::I32, false),
    })
}

/// The imports.
pub(crate) fn cross_imports(alloc: Global, imports: &[Import]) -> Result<Items<Import1>, AllocError>
    ensures { IfOk result (λ out. out ≡ map cross_import imports.now) }
{
    let mut out = room_for(alloc, imports.len())?;
    for import in imports {
        let desc = cross_import_desc(import.desc)?;
        let module = import.module.copy(alloc)?;
        let name = import.name.copy(alloc)?;
        out.push(Import1 { module, name, desc })?;
    }
    Ok(out)
}

/// The limits of the tables.
pub(crate) fn cross_tables(alloc: Global, tables: &[Table]) -> Result<Items<Limits1>, AllocError>
    ensures { IfOk result (λ out. out ≡ map (λ t. cross_limits t.limits) tables.now) }
{
    let mut out = room_for(alloc, tables.len())?;
    for table in tables {
        out.push(cross_limits(table.limits)?)?;
    }
    Ok(out)
}

/// The limits of the memories.
pub(crate) fn cross_memories(
    alloc: Global,
    memories: &[Limits],
) -> Result<Items<Limits1>, AllocError>
    ensures { IfOk result (λ out. out ≡ map cross_limits memories.now) }
{
    let mut out = room_for(alloc, memories.len())?;
    for memory in memories {
        out.push(cross_limits(*memory)?)?;
    }
    Ok(out)
}

/// The globals.
pub(crate) fn cross_globals(
    alloc: Global,
    globals: &[module::Global],
) -> Result<Items<Global1>, AllocError>
    ensures { IfOk result (λ out. out ≡ map cross_global globals.now) }
{
    let mut out = room_for(alloc, globals.len())?;
    for global in globals {
        let init = cross_code(alloc, global.init.as_slice())?;
        out.push(Global1 {
            ty: cross_type(global.ty),
            mutable: global.mutable,
            init,
        })?;
    }
    Ok(out)
}

/// What an export names. There is no tag, which is written as a table.
fn cross_export_desc(desc: ExportDesc) -> ExportDesc1
    ensures { result ≡ cross_export_desc desc }
{
    match desc {
        ExportDesc::Func(index) => ExportDesc1::Func(index),
        ExportDesc::Table(index) | ExportDesc::Tag(index) => ExportDesc1::Table(index),
        ExportDesc::Memory(index) => ExportDesc1::Memory(index),
        ExportDesc::Global(index) => ExportDesc1::Global(index),
    }
}

/// The exports.
pub(crate) fn cross_exports(alloc: Global, exports: &[Export]) -> Result<Items<Export1>, AllocError>
    ensures { IfOk result (λ out. out ≡ map cross_export exports.now) }
{
    let mut out = room_for(alloc, exports.len())?;
    for export in exports {
        let name = export.name.copy(alloc)?;
        out.push(Export1 {
            name,
            desc: cross_export_desc(export.desc),
        })?;
    }
    Ok(out)
}

/// The function to which an item of an element segment refers; one that refers to none does not occur.
fn cross_item(code: &[Instr]) -> u32
    ensures { result ≡ cross_item code.now }
{
    match code.first() {
        Some(Instr::Pure(Op::RefFunc(func))) => *func,
        _ => 0,
    }
}

/// The functions of the items of an element segment.
fn cross_items(alloc: Global, codes: &[Code]) -> Result<Items<u32>, AllocError>
    ensures { IfOk result (λ out. out ≡ map cross_item codes.now) }
{
    let mut out = room_for(alloc, codes.len())?;
    for code in codes {
        out.push(cross_item(code.as_slice()))?;
    }
    Ok(out)
}

/// Puts an element segment behind others, if it is active.
fn cross_element(
    alloc: Global,
    element: &Element,
    out: &mut Items<Element1>,
) -> Result<(), AllocError>
    ensures { OnOk result (out.new ≡ out.old ++ cross_element element.now) }
{
    if let Mode::Active(table, offset) = &element.mode {
        let offset = cross_code(alloc, offset.as_slice())?;
        let items = cross_items(alloc, element.items.as_slice())?;
        out.push(Element1 {
            table: *table,
            offset,
            items,
        })?;
    }
    Ok(())
}

/// The element segments.
pub(crate) fn cross_elements(
    alloc: Global,
    elements: &[Element],
) -> Result<Items<Element1>, AllocError>
    ensures { IfOk result (λ out. out ≡ flat_map cross_element elements.now) }
{
    let mut out = Items::new(alloc);
    for element in elements {
        cross_element(alloc, element, &mut out)?;
    }
    Ok(out)
}

/// A data segment with these bytes. Each is active.
fn cross_segment(alloc: Global, mode: &Mode, bytes: Bytes) -> Result<Segment1, AllocError>
    ensures { IfOk result (λ out. out ≡ cross_segment (record { mode = mode.now; bytes = bytes })) }
{
    match mode {
        Mode::Active(memory, offset) => {
            let offset = cross_code(alloc, offset.as_slice())?;
            Ok(Segment1 {
                memory: *memory,
                offset,
                bytes,
            })
        }
        Mode::Passive | Mode::Declarative => Ok(Segment1 {
            memory: 0,
            offset: Items::new(alloc),
            bytes,
        }),
    }
}

/// The data segments.
pub(crate) fn cross_segments(
    alloc: Global,
    segments: &[Segment],
) -> Result<Items<Segment1>, AllocError>
    ensures { IfOk result (λ out. out ≡ map cross_segment segments.now) }
{
    let mut out = room_for(alloc, segments.len())?;
    for segment in segments {
        let bytes = segment.bytes.copy(alloc)?;
        out.push(cross_segment(alloc, &segment.mode, bytes)?)?;
    }
    Ok(out)
}

/// The data segments, whose bytes are moved.
pub(crate) fn cross_owned_segments(
    alloc: Global,
    segments: Items<Segment>,
) -> Result<Items<Segment1>, AllocError>
    ensures { IfOk result (λ out. out ≡ map cross_segment segments) }
{
    let mut out = room_for(alloc, segments.len())?;
    let mut rest = Drain::new(alloc, segments)?;
    while let Some(segment) = rest.next() {
        let Segment { mode, bytes } = segment;
        out.push(cross_segment(alloc, &mode, bytes)?)?;
    }
    Ok(out)
}

/// The body of a function.
fn cross_body(alloc: Global, f: &TypedFn) -> Result<Body1, AllocError>
    ensures { IfOk result (λ out. out ≡ cross_body (body_of f.now)) }
{
    let locals = cross_types(alloc, f.locals.as_slice())?;
    let code = cross_nodes(alloc, f.body.as_slice())?;
    Ok(Body1 { locals, code })
}

/// The bodies of the functions.
pub(crate) fn cross_bodies(alloc: Global, fns: &[TypedFn]) -> Result<Items<Body1>, AllocError>
    ensures { IfOk result (λ out. out ≡ map (λ f. cross_body (body_of f)) fns.now) }
{
    let mut out = room_for(alloc, fns.len())?;
    for f in fns {
        out.push(cross_body(alloc, f)?)?;
    }
    Ok(out)
}

/// The bodies of the functions, each of which is dropped as soon as its body of 1.0 is written.
pub(crate) fn cross_owned_bodies(
    alloc: Global,
    fns: Items<TypedFn>,
) -> Result<Items<Body1>, AllocError>
    ensures { IfOk result (λ out. out ≡ map (λ f. cross_body (body_of f)) fns) }
{
    let mut out = room_for(alloc, fns.len())?;
    let mut rest = Drain::new(alloc, fns)?;
    while let Some(f) = rest.next() {
        out.push(cross_body(alloc, &f)?)?;
    }
    Ok(out)
}
