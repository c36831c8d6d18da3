// The index spaces of a module, imports first.

ghost use Rattle.std.specs.Prelude.{◌≡◌, [], ◌++◌, map, filter_map, length, replicate, false, unwrap_or, IfOk, OnOk};
ghost use Rattle.std.specs.List.{flat_map};
ghost use Rattle.wasm_ast.specs.Marking.{marked};
ghost use Rattle.wasm_ast.specs.Occurrence.{head_of};
ghost use Rattle.typed_trees.specs.Modules.{all_globals, all_memories, all_tables, all_tags, context, func_exported, func_named, global_import, memory_import, named_in, named_in_element, named_in_offset, refs_of, table_import, tag_import};
ghost use Rattle.wasm_ast.specs.Spaces.{func_indices};
ghost use Rattle.valid_new.specs.Scopes.{spaces_context};

use crate::scope::Spaces;
use sqlite_items::Items;
use std::alloc::{AllocError, Global};
use typed_trees::GlobalType;
use wasm_ast::marking::mark;
use wasm_ast::module;
use wasm_ast::module::{
    Code, Element, Export, ExportDesc, Import, ImportDesc, Instr, Limits, Mode, Module, Op,
    Segment, Table, Ty,
};
use wasm_ast::spaces::func_indices;

/// The index spaces of the module. It fails for want of memory alone.
pub fn spaces_of(alloc: Global, m: &Module) -> Result<Spaces<'_>, AllocError>
    ensures { IfOk result (λ spaces. spaces_context spaces ≡ context m.now) }
{
    let funcs = func_indices(alloc, m)?;
    let refs = refs_of(alloc, m, funcs.len())?;
    Ok(Spaces {
        types: m.types.as_slice(),
        funcs,
        tags: all_tags(alloc, m)?,
        tables: all_tables(alloc, m)?,
        elems: element_types(alloc, m)?,
        memories: all_memories(alloc, m)?,
        datas: m.datas.len(),
        globals: all_globals(alloc, m)?,
        refs,
    })
}

/// The reference type of each table.
fn all_tables(alloc: Global, m: &Module) -> Result<Items<Ty>, AllocError>
    ensures { IfOk result (λ types. types ≡ all_tables m.now) }
{
    let mut types = imported_tables(alloc, m.imports.as_slice())?;
    for table in m.tables.as_slice() {
        types.push(table.ty)?;
    }
    Ok(Items::from_vec(types))
}

fn imported_tables(alloc: Global, imports: &[Import]) -> Result<Vec<Ty>, AllocError>
    ensures { IfOk result (λ found. found.items ≡ filter_map (λ i. table_import i.desc) imports.now) }
{
    imports
        .iter()
        .filter_map(|import| table_import(import.desc))
        .collect(alloc)
}

fn table_import(desc: ImportDesc) -> Option<Ty>
    ensures { result ≡ table_import desc }
{
    match desc {
        ImportDesc::Table(ty, _) => Some(ty),
        _ => None,
    }
}

/// The limits of each memory.
fn all_memories(alloc: Global, m: &Module) -> Result<Items<Limits>, AllocError>
    ensures { IfOk result (λ limits. limits ≡ all_memories m.now) }
{
    let mut limits = imported_memories(alloc, m.imports.as_slice())?;
    limits.extend_from_slice(m.memories.as_slice())?;
    Ok(Items::from_vec(limits))
}

fn imported_memories(alloc: Global, imports: &[Import]) -> Result<Vec<Limits>, AllocError>
    ensures { IfOk result (λ found. found.items ≡ filter_map (λ i. memory_import i.desc) imports.now) }
{
    imports
        .iter()
        .filter_map(|import| memory_import(import.desc))
        .collect(alloc)
}

fn memory_import(desc: ImportDesc) -> Option<Limits>
    ensures { result ≡ memory_import desc }
{
    match desc {
        ImportDesc::Memory(limits) => Some(limits),
        _ => None,
    }
}

/// The index of the type of each tag.
fn all_tags(alloc: Global, m: &Module) -> Result<Items<u32>, AllocError>
    ensures { IfOk result (λ tags. tags ≡ all_tags m.now) }
{
    let mut tags = imported_tags(alloc, m.imports.as_slice())?;
    tags.extend_from_slice(m.tags.as_slice())?;
    Ok(Items::from_vec(tags))
}

fn imported_tags(alloc: Global, imports: &[Import]) -> Result<Vec<u32>, AllocError>
    ensures { IfOk result (λ found. found.items ≡ filter_map (λ i. tag_import i.desc) imports.now) }
{
    imports
        .iter()
        .filter_map(|import| tag_import(import.desc))
        .collect(alloc)
}

fn tag_import(desc: ImportDesc) -> Option<u32>
    ensures { result ≡ tag_import desc }
{
    match desc {
        ImportDesc::Tag(ty) => Some(ty),
        _ => None,
    }
}

/// The type of each global.
fn all_globals(alloc: Global, m: &Module) -> Result<Items<GlobalType>, AllocError>
    ensures { IfOk result (λ globals. globals ≡ all_globals m.now) }
{
    let mut globals = imported_globals(alloc, m.imports.as_slice())?;
    for global in m.globals.as_slice() {
        globals.push(GlobalType {
            ty: global.ty,
            mutable: global.mutable,
        })?;
    }
    Ok(Items::from_vec(globals))
}

fn imported_globals(alloc: Global, imports: &[Import]) -> Result<Vec<GlobalType>, AllocError>
    ensures { IfOk result (λ found. found.items ≡ filter_map (λ i. global_import i.desc) imports.now) }
{
    imports
        .iter()
        .filter_map(|import| global_import(import.desc))
        .collect(alloc)
}

fn global_import(desc: ImportDesc) -> Option<GlobalType>
    ensures { result ≡ global_import desc }
{
    match desc {
        ImportDesc::Global(ty, mutable) => Some(GlobalType { ty, mutable }),
        _ => None,
    }
}

/// The reference type of each element segment.
fn element_types(alloc: Global, m: &Module) -> Result<Items<Ty>, AllocError>
    ensures { IfOk result (λ types. types ≡ map (λ e. e.ty) m.now.elems) }
{
    let mut types = Items::new(alloc);
    for element in m.elems.as_slice() {
        types.push(element.ty)?;
    }
    Ok(types)
}

/// Of each function, of which there are so many, whether it occurs outside the bodies of functions and the start
/// function.
#[tactic(auto, using(std::proofs::lemmas::Grind::common_steps, crate::proofs::Marks::marked_append))]
fn refs_of(alloc: Global, m: &Module, count: usize) -> Result<Items<bool>, AllocError>
    requires { count ≡ length (func_indices m.now) }
    ensures { IfOk result (λ refs. refs ≡ refs_of m.now) }
{
    let mut refs = vec![in alloc; false; count]?;
    mark_tables(m.tables.as_slice(), &mut refs);
    mark_globals(m.globals.as_slice(), &mut refs);
    mark_exports(m.exports.as_slice(), &mut refs);
    mark_elements(m.elems.as_slice(), &mut refs);
    mark_datas(m.datas.as_slice(), &mut refs);
    Ok(Items::from_vec(refs))
}

/// Marks the function that the instruction names.
fn mark_instr(instr: &Instr, refs: &mut [bool])
    ensures { refs.new ≡ marked (func_named (head_of instr.now)) refs.old }
{
    if let Instr::Pure(Op::RefFunc(func)) = instr {
        mark(refs, *func);
    }
}

/// Marks the functions that the expression names.
#[tactic(auto, using(std::proofs::lemmas::Grind::common_steps, crate::proofs::Marks::marked_append))]
fn mark_code(code: &[Instr], refs: &mut [bool])
    ensures { refs.new ≡ marked (named_in code.now) refs.old }
{
    for instr in code {
        mark_instr(instr, refs);
    }
}

/// Marks the functions that the offset of an active segment names.
fn mark_offset(mode: &Mode, refs: &mut [bool])
    ensures { refs.new ≡ marked (named_in_offset mode.now) refs.old }
{
    if let Mode::Active(_, offset) = mode {
        mark_code(offset.as_slice(), refs);
    }
}

/// Marks the functions that the expressions of tables name.
#[tactic(auto, using(std::proofs::lemmas::Grind::common_steps, crate::proofs::Marks::marked_append))]
fn mark_tables(tables: &[Table], refs: &mut [bool])
    ensures { refs.new ≡ marked (flat_map (λ t. named_in (unwrap_or t.init [])) tables.now) refs.old }
{
    for table in tables {
        mark_table(table, refs);
    }
}

fn mark_table(table: &Table, refs: &mut [bool])
    ensures { refs.new ≡ marked (named_in (unwrap_or table.now.init [])) refs.old }
{
    if let Some(code) = &table.init {
        mark_code(code.as_slice(), refs);
    }
}

/// Marks the functions that initial values name.
#[tactic(auto, using(std::proofs::lemmas::Grind::common_steps, crate::proofs::Marks::marked_append))]
fn mark_globals(globals: &[module::Global], refs: &mut [bool])
    ensures { refs.new ≡ marked (flat_map (λ g. named_in g.init) globals.now) refs.old }
{
    for global in globals {
        mark_code(global.init.as_slice(), refs);
    }
}

/// Marks the exported functions.
#[tactic(auto, using(std::proofs::lemmas::Grind::common_steps, crate::proofs::Marks::marked_append))]
fn mark_exports(exports: &[Export], refs: &mut [bool])
    ensures { refs.new ≡ marked (flat_map (λ e. func_exported e.desc) exports.now) refs.old }
{
    for export in exports {
        mark_export(export.desc, refs);
    }
}

fn mark_export(desc: ExportDesc, refs: &mut [bool])
    ensures { refs.new ≡ marked (func_exported desc) refs.old }
{
    if let ExportDesc::Func(func) = desc {
        mark(refs, func);
    }
}

/// Marks the functions that element segments name.
#[tactic(auto, using(std::proofs::lemmas::Grind::common_steps, crate::proofs::Marks::marked_append))]
fn mark_elements(elements: &[Element], refs: &mut [bool])
    ensures { refs.new ≡ marked (flat_map named_in_element elements.now) refs.old }
{
    for element in elements {
        mark_element(element, refs);
    }
}

#[tactic(auto, using(std::proofs::lemmas::Grind::common_steps, crate::proofs::Marks::marked_append))]
fn mark_element(element: &Element, refs: &mut [bool])
    ensures { refs.new ≡ marked (named_in_element element.now) refs.old }
{
    mark_offset(&element.mode, refs);
    mark_codes(element.items.as_slice(), refs);
}

#[tactic(auto, using(std::proofs::lemmas::Grind::common_steps, crate::proofs::Marks::marked_append))]
fn mark_codes(codes: &[Code], refs: &mut [bool])
    ensures { refs.new ≡ marked (flat_map named_in codes.now) refs.old }
{
    for code in codes {
        mark_code(code.as_slice(), refs);
    }
}

/// Marks the functions that the offsets of data segments name.
#[tactic(auto, using(std::proofs::lemmas::Grind::common_steps, crate::proofs::Marks::marked_append))]
fn mark_datas(datas: &[Segment], refs: &mut [bool])
    ensures { refs.new ≡ marked (flat_map (λ s. named_in_offset s.mode) datas.now) refs.old }
{
    for segment in datas {
        mark_offset(&segment.mode, refs);
    }
}
