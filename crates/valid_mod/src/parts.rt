// The parts of a module in the order of its sections.

mod constants;
mod exports;
mod globals;
mod limits;
mod segments;
mod types;

ghost use Rattle.std.specs.Prelude.{◌≡◌, ◌+◌, None, length, IfOk, OnOk};
ghost use Rattle.wasm_ast.specs.declared.module.parts.Module.{Module as Source};
ghost use Rattle.typed_trees.specs.Modules.{all_globals, context, early_context, global_import, imported_of};
ghost use Rattle.valid_new.specs.Scopes.{spaces_context};
ghost use Rattle.valid_mod.specs.Parts.{Section, id, order, count, PartTyped, Types, Imports, Functions, Tables, Memories, Tags, Globals, Exports, Start, Elements, Segments};
ghost use Rattle.valid_mod.specs.Searches.{Finds};
ghost use Rattle.valid_mod.specs.Verdict.{SectionsTyped, TellsOfSections, verdict_of};

use crate::invalid::Invalid;
use crate::parts::exports::{first_export, start_is_typed};
use crate::parts::globals::first_global;
use crate::parts::limits::{MemoryTest, TableTest};
use crate::parts::segments::{ElementTest, SegmentTest};
use crate::parts::types::{FuncTest, ImportTest, TagTest, TypeTest};
use crate::search::first_untyped;
use crate::spaces::{hide, show};
use std::alloc::{AllocError, Global};
use valid_new::{Spaces, spaces_of};
use wasm_ast::module::Module;

/// The verdict on the section with this id, by the first of its parts that is not typed.
fn settle(section: u8, found: Option<usize>) -> Result<(), Invalid>
    ensures none { OnOk result (found ≡ None) }
    ensures tells { (m : Source) (s : Section) → section ≡ id s → SectionsTyped m (order s) → Finds (PartTyped m s) (count m s) found → TellsOfSections m (order s + 1) result }
{
    let Some(place) = found else {
        return Ok(());
    };
    match u32::try_from(place) {
        Ok(index) => Err(Invalid::Part { section, index }),
        Err(_) => Err(Invalid::Memory(AllocError)),
    }
}

fn check_types(m: &Module) -> Result<(), Invalid>
    ensures { TellsOfSections m.now 1 result }
{
    let found = first_untyped(&TypeTest, m.types.as_slice())?;
    settle(1, found)
}

fn check_imports(m: &Module) -> Result<(), Invalid>
    requires { SectionsTyped m.now 1 }
    ensures { TellsOfSections m.now 2 result }
{
    let found = first_untyped(&ImportTest { module: m }, m.imports.as_slice())?;
    settle(2, found)
}

fn check_functions(m: &Module) -> Result<(), Invalid>
    requires { SectionsTyped m.now 2 }
    ensures { TellsOfSections m.now 3 result }
{
    let test = FuncTest {
        types: m.types.len(),
    };
    let found = first_untyped(&test, m.funcs.as_slice())?;
    settle(3, found)
}

fn check_tables(alloc: Global, m: &Module, spaces: &Spaces<'_>) -> Result<(), Invalid>
    requires before { SectionsTyped m.now 3 }
    requires spaces { spaces_context spaces.now ≡ early_context m.now (imported_of global_import m.now) }
    ensures { TellsOfSections m.now 4 result }
{
    let test = TableTest {
        alloc,
        module: m,
        spaces,
    };
    let found = first_untyped(&test, m.tables.as_slice())?;
    settle(4, found)
}

fn check_memories(m: &Module) -> Result<(), Invalid>
    requires { SectionsTyped m.now 4 }
    ensures { TellsOfSections m.now 5 result }
{
    let found = first_untyped(&MemoryTest, m.memories.as_slice())?;
    settle(5, found)
}

fn check_tags(m: &Module) -> Result<(), Invalid>
    requires { SectionsTyped m.now 5 }
    ensures { TellsOfSections m.now 6 result }
{
    let found = first_untyped(&TagTest { module: m }, m.tags.as_slice())?;
    settle(13, found)
}

/// The verdict on the globals. Where they are typed they are put to the index spaces.
fn check_globals(alloc: Global, m: &Module, spaces: &mut Spaces<'_>) -> Result<(), Invalid>
    requires before { SectionsTyped m.now 6 }
    requires spaces { spaces_context spaces.old ≡ early_context m.now (imported_of global_import m.now) }
    ensures tells { TellsOfSections m.now 7 result }
    ensures spaces { OnOk result (spaces_context spaces.new ≡ early_context m.now (all_globals m.now)) }
{
    let found = first_global(alloc, m, spaces)?;
    settle(6, found)
}

fn check_exports(alloc: Global, m: &Module, spaces: &Spaces<'_>) -> Result<(), Invalid>
    requires before { SectionsTyped m.now 7 }
    requires spaces { spaces_context spaces.now ≡ context m.now }
    ensures { TellsOfSections m.now 8 result }
{
    let found = first_export(alloc, m, spaces)?;
    settle(7, found)
}

/// The first start function that is not typed, of which there is one at most.
fn first_start(m: &Module, spaces: &Spaces<'_>) -> Option<usize>
    requires { spaces_context spaces.now ≡ context m.now }
    ensures { Finds (PartTyped m.now Start) 1 result }
{
    if start_is_typed(m, spaces) {
        None
    } else {
        Some(0)
    }
}

fn check_start(m: &Module, spaces: &Spaces<'_>) -> Result<(), Invalid>
    requires before { SectionsTyped m.now 8 }
    requires spaces { spaces_context spaces.now ≡ context m.now }
    ensures { TellsOfSections m.now 9 result }
{
    let found = first_start(m, spaces);
    settle(8, found)
}

fn check_elements(alloc: Global, m: &Module, spaces: &Spaces<'_>) -> Result<(), Invalid>
    requires before { SectionsTyped m.now 9 }
    requires spaces { spaces_context spaces.now ≡ context m.now }
    ensures { TellsOfSections m.now 10 result }
{
    let test = ElementTest {
        alloc,
        module: m,
        spaces,
    };
    let found = first_untyped(&test, m.elems.as_slice())?;
    settle(9, found)
}

fn check_segments(alloc: Global, m: &Module, spaces: &Spaces<'_>) -> Result<(), Invalid>
    requires before { SectionsTyped m.now 10 }
    requires spaces { spaces_context spaces.now ≡ context m.now }
    ensures { TellsOfSections m.now 11 result }
{
    let test = SegmentTest {
        alloc,
        module: m,
        spaces,
    };
    let found = first_untyped(&test, m.datas.as_slice())?;
    settle(11, found)
}

/// The verdict on the sections for which no index space is asked.
fn check_types_to_functions(m: &Module) -> Result<(), Invalid>
    ensures { TellsOfSections m.now 3 result }
{
    check_types(m)?;
    check_imports(m)?;
    check_functions(m)
}

/// The verdict on tables, memories, tags and globals.
fn check_tables_to_globals(
    alloc: Global,
    m: &Module,
    spaces: &mut Spaces<'_>,
) -> Result<(), Invalid>
    requires before { SectionsTyped m.now 3 }
    requires spaces { spaces_context spaces.old ≡ early_context m.now (imported_of global_import m.now) }
    ensures tells { TellsOfSections m.now 7 result }
    ensures spaces { OnOk result (spaces_context spaces.new ≡ early_context m.now (all_globals m.now)) }
{
    check_tables(alloc, m, spaces)?;
    check_memories(m)?;
    check_tags(m)?;
    check_globals(alloc, m, spaces)
}

/// The verdict on the sections behind, for which all index spaces are asked.
fn check_exports_to_segments(alloc: Global, m: &Module, spaces: &Spaces<'_>) -> Result<(), Invalid>
    requires before { SectionsTyped m.now 7 }
    requires spaces { spaces_context spaces.now ≡ context m.now }
    ensures { TellsOfSections m.now 11 result }
{
    check_exports(alloc, m, spaces)?;
    check_start(m, spaces)?;
    check_elements(alloc, m, spaces)?;
    check_segments(alloc, m, spaces)
}

/// The index spaces of the module, where all of its parts are typed, or the first part that is not.
pub fn type_parts<'m>(alloc: Global, m: &'m Module) -> Result<Spaces<'m>, Invalid>
    ensures tells { TellsOfSections m.now 11 (verdict_of result) }
    ensures spaces { IfOk result (λ spaces. spaces_context spaces ≡ context m.now) }
{
    check_types_to_functions(m)?;
    let spaces = spaces_of(alloc, m)?;
    let (mut seen, hidden) = hide(alloc, m, spaces)?;
    check_tables_to_globals(alloc, m, &mut seen)?;
    let spaces = show(m, seen, hidden);
    check_exports_to_segments(alloc, m, &spaces)?;
    Ok(spaces)
}
