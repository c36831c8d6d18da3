// What a module of 1.0 offers to a host. Nothing here takes memory, so a name costs a scan of the exports, and the place of
// an import one of the imports.
ghost use Rattle.std.specs.Prelude.{◌≡◌, length, slice_get, filter_map, option_map};
ghost use Rattle.core1_ast.specs.Spaces.{func_indices, func_import, memory_import, all_memories};
ghost use Rattle.host_kit.specs.Offered1.{ImportsFuncs1, exported1, func_type1, imported_global1, all_globals1};
ghost use Rattle.std.specs.Prelude.{map, nat_lt};

use super::offered::passed;
use core1_ast::module::{
    ExportDesc1, FuncType1, Global1, Import1, ImportDesc1, Limits1, Module1, Ty1,
};
use num_core::lists::Text;

/// The type of a global (the standard's "Global Types").
#[derive(Clone, Copy)]
pub(crate) struct GlobalType1 {
    /// The type of its value.
    pub ty: Ty1,
    /// Whether it can be changed.
    pub mutable: bool,
}

/// What is exported under a name.
pub(crate) fn exported(m: &Module1, name: &Text) -> Option<ExportDesc1>
    ensures { result ≡ exported1 m.now name.now }
{
    m.exports
        .as_slice()
        .iter()
        .find(|export| export.name.as_str() == name.as_str())
        .map(|export| export.desc)
}

/// The type index of a function that is imported.
pub(crate) fn func_import(desc: ImportDesc1) -> Option<u32>
    ensures { result ≡ func_import desc }
{
    match desc {
        ImportDesc1::Func(ty) => Some(ty),
        _ => None,
    }
}

/// How many of the imports are functions.
pub(crate) fn imported_funcs(imports: &[Import1]) -> usize
    ensures { result ≡ length (filter_map (λ i. func_import i.desc) imports.now) }
{
    imports
        .iter()
        .filter_map(|import| func_import(import.desc))
        .count()
}

/// The type index of the imported function with this place.
fn imported_func(imports: &[Import1], place: usize) -> Option<u32>
    ensures { result ≡ slice_get (filter_map (λ i. func_import i.desc) imports.now) place }
{
    let mut left = place;
    for import in imports {
        let found = func_import(import.desc);
        let Some(rest) = passed(found.is_some(), left) else {
            return found;
        };
        left = rest;
    }
    None
}

/// The type index of a function.
fn type_index(m: &Module1, imported: usize, func: u32) -> Option<u32>
    requires { ImportsFuncs1 m.now imported }
    ensures { result ≡ slice_get (func_indices m.now) func }
{
    let func = func as usize;
    if func < imported {
        imported_func(m.imports.as_slice(), func)
    } else {
        m.funcs.as_slice().get(func - imported).copied()
    }
}

/// The type of a function, where so many functions are imported.
pub(crate) fn func_type(m: &Module1, imported: usize, func: u32) -> Option<&FuncType1>
    requires { ImportsFuncs1 m.now imported }
    ensures { option_map (λ t. t.now) result ≡ func_type1 m.now func }
{
    match type_index(m, imported, func) {
        Some(index) => m.types.as_slice().get(index as usize),
        None => None,
    }
}

/// The type of a global that is imported, and whether it can be changed.
fn imported_global(desc: ImportDesc1) -> Option<GlobalType1>
    ensures { result ≡ imported_global1 desc }
{
    match desc {
        ImportDesc1::Global(ty, mutable) => Some(GlobalType1 { ty, mutable }),
        _ => None,
    }
}

/// How many of the imports are globals.
fn imported_globals(imports: &[Import1]) -> usize
    ensures { result ≡ length (filter_map (λ i. imported_global1 i.desc) imports.now) }
{
    imports
        .iter()
        .filter_map(|import| imported_global(import.desc))
        .count()
}

/// The type of the imported global with this place.
fn imported_global_at(imports: &[Import1], place: usize) -> Option<GlobalType1>
    ensures { result ≡ slice_get (filter_map (λ i. imported_global1 i.desc) imports.now) place }
{
    let mut left = place;
    for import in imports {
        let found = imported_global(import.desc);
        let Some(rest) = passed(found.is_some(), left) else {
            return found;
        };
        left = rest;
    }
    None
}

/// The type of the global of the module with this place.
fn own_global(globals: &[Global1], place: usize) -> Option<GlobalType1>
    ensures { result ≡ slice_get (map (λ g. record { ty = g.ty; mutable = g.mutable }) globals.now) place }
{
    let global = globals.get(place)?;
    Some(GlobalType1 {
        ty: global.ty,
        mutable: global.mutable,
    })
}

/// The type of a global.
pub(crate) fn global_type(m: &Module1, global: u32) -> Option<GlobalType1>
    ensures { result ≡ slice_get (all_globals1 m.now) global }
{
    let global = global as usize;
    let imported = imported_globals(m.imports.as_slice());
    if global < imported {
        imported_global_at(m.imports.as_slice(), global)
    } else {
        own_global(m.globals.as_slice(), global - imported)
    }
}

/// The size of a memory that is imported.
fn memory_import(desc: ImportDesc1) -> Option<Limits1>
    ensures { result ≡ memory_import desc }
{
    match desc {
        ImportDesc1::Memory(limits) => Some(limits),
        _ => None,
    }
}

/// How many of the imports are memories.
fn imported_memories(imports: &[Import1]) -> usize
    ensures { result ≡ length (filter_map (λ i. memory_import i.desc) imports.now) }
{
    imports
        .iter()
        .filter_map(|import| memory_import(import.desc))
        .count()
}

/// Whether there is a memory with this index.
pub(crate) fn has_memory(m: &Module1, memory: u32) -> bool
    ensures { result ≡ nat_lt memory (length (all_memories m.now)) }
{
    let memory = memory as usize;
    let imported = imported_memories(m.imports.as_slice());
    memory < imported || memory - imported < m.memories.len()
}
