// The index spaces of a module: the imports of a kind come first (the standard's "Modules", indices).

ghost use Rattle.std.specs.Prelude.{◌≡◌, filter_map, count_by, IfOk};
ghost use Rattle.wasm_ast.specs.Spaces.{func_import, global_import, func_indices, global_types, imported, is_func, is_table, is_memory, is_global};

use crate::module::{Import, ImportDesc, Module, Ty};
use sqlite_items::Items;
use std::alloc::{AllocError, Global};

/// The type index of a function that is imported.
fn func_import(desc: ImportDesc) -> Option<u32>
    ensures { result ≡ func_import desc }
{
    match desc {
        ImportDesc::Func(ty) => Some(ty),
        _ => None,
    }
}

/// The type of a global that is imported.
fn global_import(desc: ImportDesc) -> Option<Ty>
    ensures { result ≡ global_import desc }
{
    match desc {
        ImportDesc::Global(ty, _) => Some(ty),
        _ => None,
    }
}

/// The type index of each imported function.
pub fn imported_funcs(alloc: Global, imports: &[Import]) -> Result<Vec<u32>, AllocError>
    ensures { IfOk result (λ indices. indices.items ≡ filter_map (λ i. func_import i.desc) imports.now) }
{
    imports
        .iter()
        .filter_map(|import| func_import(import.desc))
        .collect(alloc)
}

/// The type of each imported global.
pub fn imported_global_types(alloc: Global, imports: &[Import]) -> Result<Vec<Ty>, AllocError>
    ensures { IfOk result (λ types. types.items ≡ filter_map (λ i. global_import i.desc) imports.now) }
{
    imports
        .iter()
        .filter_map(|import| global_import(import.desc))
        .collect(alloc)
}

/// The type index of each function, imports first. It fails for want of memory alone.
pub fn func_indices(alloc: Global, m: &Module) -> Result<Items<u32>, AllocError>
    ensures { IfOk result (λ indices. indices ≡ func_indices m.now) }
{
    let mut indices = imported_funcs(alloc, m.imports.as_slice())?;
    indices.extend_from_slice(m.funcs.as_slice())?;
    Ok(Items::from_vec(indices))
}

/// The type of each global, imports first. It fails for want of memory alone.
pub fn global_types(alloc: Global, m: &Module) -> Result<Items<Ty>, AllocError>
    ensures { IfOk result (λ types. types ≡ global_types m.now) }
{
    let mut types = imported_global_types(alloc, m.imports.as_slice())?;
    for global in m.globals.as_slice() {
        types.push(global.ty)?;
    }
    Ok(Items::from_vec(types))
}

/// How many functions are imported.
pub fn imported_func_count(m: &Module) -> usize
    ensures { result ≡ imported is_func m.now }
{
    m.imports
        .as_slice()
        .iter()
        .filter(|i| matches!(i.desc, ImportDesc::Func(_)))
        .count()
}

/// How many tables are imported.
pub fn imported_tables(m: &Module) -> usize
    ensures { result ≡ imported is_table m.now }
{
    m.imports
        .as_slice()
        .iter()
        .filter(|i| matches!(i.desc, ImportDesc::Table(_, _)))
        .count()
}

/// How many memories are imported.
pub fn imported_memories(m: &Module) -> usize
    ensures { result ≡ imported is_memory m.now }
{
    m.imports
        .as_slice()
        .iter()
        .filter(|i| matches!(i.desc, ImportDesc::Memory(_)))
        .count()
}

/// How many globals are imported.
pub fn imported_globals(m: &Module) -> usize
    ensures { result ≡ imported is_global m.now }
{
    m.imports
        .as_slice()
        .iter()
        .filter(|i| matches!(i.desc, ImportDesc::Global(_, _)))
        .count()
}
