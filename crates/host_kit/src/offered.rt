// What a module of 3.0 offers to a host. Nothing here takes memory, so a name costs a scan of the exports, and the place of
// an import one of the imports.
ghost use Rattle.std.specs.Prelude.{◌≡◌, length, slice_get, filter_map, option_map};
ghost use Rattle.wasm_ast.specs.Spaces.{func_indices, func_import, global_import, memory_count};
ghost use Rattle.host_kit.specs.FitTests.{passed};
ghost use Rattle.host_kit.specs.Offered.{ImportsFuncs, exported, func_type, imported_global, all_globals};
ghost use Rattle.std.specs.Prelude.{map, nat_lt};

use num_core::lists::Text;
use wasm_ast::module::{ExportDesc, FuncType, Global, Import, ImportDesc, Module, Ty};
use wasm_ast::spaces::imported_memories;

/// The type of a global (the standard's "Global Types").
#[derive(Clone, Copy)]
pub(crate) struct GlobalType {
    /// The type of its value.
    pub ty: Ty,
    /// Whether it can be changed.
    pub mutable: bool,
}

/// What is exported under a name.
pub(crate) fn exported(m: &Module, name: &Text) -> Option<ExportDesc>
    ensures { result ≡ exported m.now name.now }
{
    m.exports
        .as_slice()
        .iter()
        .find(|export| export.name.as_str() == name.as_str())
        .map(|export| export.desc)
}

/// The type index of a function that is imported.
pub(crate) fn func_import(desc: ImportDesc) -> Option<u32>
    ensures { result ≡ func_import desc }
{
    match desc {
        ImportDesc::Func(ty) => Some(ty),
        _ => None,
    }
}

/// How many of the imports are functions.
pub(crate) fn imported_funcs(imports: &[Import]) -> usize
    ensures { result ≡ length (filter_map (λ i. func_import i.desc) imports.now) }
{
    imports
        .iter()
        .filter_map(|import| func_import(import.desc))
        .count()
}

/// How many are still to be passed after an import that is or is not one of them; `None` where it is the one that is
/// looked for.
pub(crate) fn passed(is_one: bool, left: usize) -> Option<usize>
    ensures { result ≡ passed is_one left }
{
    if is_one {
        left.checked_sub(1)
    } else {
        Some(left)
    }
}

/// The type index of the imported function with this place.
fn imported_func(imports: &[Import], place: usize) -> Option<u32>
    ensures { result ≡ slice_get (filter_map (λ i. func_import i.desc) imports.now) place }
{
    let mut left = place;
    for import in imports {
        let found = func_import(import.desc);
        let Some(rest) = passed(found.is_some(), left) else {
            return found;
        };
        left = rest;
    }
    None
}

/// The type index of a function.
fn type_index(m: &Module, imported: usize, func: u32) -> Option<u32>
    requires { ImportsFuncs m.now imported }
    ensures { result ≡ slice_get (func_indices m.now) func }
{
    let func = func as usize;
    if func < imported {
        imported_func(m.imports.as_slice(), func)
    } else {
        m.funcs.as_slice().get(func - imported).copied()
    }
}

/// Whether there is a function with this index, where so many functions are imported.
pub(crate) fn has_func(m: &Module, imported: usize, func: u32) -> bool
    requires { ImportsFuncs m.now imported }
    ensures { result ≡ nat_lt func (length (func_indices m.now)) }
{
    let func = func as usize;
    func < imported || func - imported < m.funcs.len()
}

/// The type of a function, where so many functions are imported.
pub(crate) fn func_type(m: &Module, imported: usize, func: u32) -> Option<&FuncType>
    requires { ImportsFuncs m.now imported }
    ensures { option_map (λ t. t.now) result ≡ func_type m.now func }
{
    match type_index(m, imported, func) {
        Some(index) => m.types.as_slice().get(index as usize),
        None => None,
    }
}

/// The type of a global that is imported, and whether it can be changed.
fn imported_global(desc: ImportDesc) -> Option<GlobalType>
    ensures { result ≡ imported_global desc }
{
    match desc {
        ImportDesc::Global(ty, mutable) => Some(GlobalType { ty, mutable }),
        _ => None,
    }
}

/// How many of the imports are globals.
fn imported_globals(imports: &[Import]) -> usize
    ensures { result ≡ length (filter_map (λ i. imported_global i.desc) imports.now) }
{
    imports
        .iter()
        .filter_map(|import| imported_global(import.desc))
        .count()
}

/// The type of the imported global with this place.
fn imported_global_at(imports: &[Import], place: usize) -> Option<GlobalType>
    ensures { result ≡ slice_get (filter_map (λ i. imported_global i.desc) imports.now) place }
{
    let mut left = place;
    for import in imports {
        let found = imported_global(import.desc);
        let Some(rest) = passed(found.is_some(), left) else {
            return found;
        };
        left = rest;
    }
    None
}

/// The type of the global of the module with this place.
fn own_global(globals: &[Global], place: usize) -> Option<GlobalType>
    ensures { result ≡ slice_get (map (λ g. record { ty = g.ty; mutable = g.mutable }) globals.now) place }
{
    let global = globals.get(place)?;
    Some(GlobalType {
        ty: global.ty,
        mutable: global.mutable,
    })
}

/// The type of a global.
pub(crate) fn global_type(m: &Module, global: u32) -> Option<GlobalType>
    ensures { result ≡ slice_get (all_globals m.now) global }
{
    let global = global as usize;
    let imported = imported_globals(m.imports.as_slice());
    if global < imported {
        imported_global_at(m.imports.as_slice(), global)
    } else {
        own_global(m.globals.as_slice(), global - imported)
    }
}

/// Whether there is a memory with this index.
pub(crate) fn has_memory(m: &Module, memory: u32) -> bool
    ensures { result ≡ nat_lt memory (memory_count m.now) }
{
    let memory = memory as usize;
    let imported = imported_memories(m);
    memory < imported || memory - imported < m.memories.len()
}
