// Tests of what an import asks for.

ghost use Rattle.std.specs.Prelude.{◌≡◌, ◌||◌};
ghost use Rattle.std.specs.List.{list_any};
ghost use Rattle.wasm_ast.specs.declared.module.parts.ImportDesc.TheVariants as imports;
ghost use Rattle.wasm_ast.specs.Has.{is_wide_type, import_passes};

use super::kind::Feature;
use super::types::{is_reference, type_shows};
use crate::module::{Import, ImportDesc, Limits, Ty};

/// What is asked of an import.
#[derive(Clone, Copy)]
pub enum ImportTest {
    /// That it is a table.
    Table,
    /// That it is a memory.
    Memory,
    /// That it is a tag.
    Tag,
    /// That it is a mutable global.
    MutableGlobal,
    /// That it is a table with 64-bit addresses.
    WideTable,
    /// That it is a memory with 64-bit addresses.
    WideMemory,
    /// That it is a global that is v128 or a reference.
    WideGlobal,
    /// That it is a global of a type that shows this feature.
    GlobalShows(Feature),
    /// That it is a table of a type that shows this feature.
    TableShows(Feature),
}

/// Whether one of the imports passes the test.
pub fn some_import(imports: &[Import], test: ImportTest) -> bool
    ensures { result ≡ list_any (λ i. import_passes test i.desc) imports.now }
{
    imports.iter().any(|import| passes(test, import.desc))
}

fn passes(test: ImportTest, desc: ImportDesc) -> bool
    ensures { result ≡ import_passes test desc }
{
    match desc {
        ImportDesc::Func(_) => false,
        ImportDesc::Table(ty, limits) => table_passes(test, ty, limits),
        ImportDesc::Memory(limits) => memory_passes(test, limits),
        ImportDesc::Global(ty, mutable) => global_passes(test, ty, mutable),
        ImportDesc::Tag(_) => matches!(test, ImportTest::Tag),
    }
}

fn table_passes(test: ImportTest, ty: Ty, limits: Limits) -> bool
    ensures { result ≡ import_passes test (imports.Table ty limits) }
{
    match test {
        ImportTest::Table => true,
        ImportTest::WideTable => limits.wide,
        ImportTest::TableShows(feature) => type_shows(ty, feature),
        _ => false,
    }
}

fn memory_passes(test: ImportTest, limits: Limits) -> bool
    ensures { result ≡ import_passes test (imports.Memory limits) }
{
    match test {
        ImportTest::Memory => true,
        ImportTest::WideMemory => limits.wide,
        _ => false,
    }
}

fn global_passes(test: ImportTest, ty: Ty, mutable: bool) -> bool
    ensures { result ≡ import_passes test (imports.Global ty mutable) }
{
    match test {
        ImportTest::MutableGlobal => mutable,
        ImportTest::WideGlobal => is_wide_type(ty),
        ImportTest::GlobalShows(feature) => type_shows(ty, feature),
        _ => false,
    }
}

/// Whether the type is v128 or a reference.
pub fn is_wide_type(ty: Ty) -> bool
    ensures { result ≡ is_wide_type ty }
{
    matches!(ty, Ty::V128) || is_reference(ty)
}
