// What lies outside the profile: the modules that are lowered are those of which nothing in one list holds.

ghost use Rattle.std.specs.Prelude.{◌≡◌, ◌+◌, IfOk};
ghost use Rattle.wasm_ast.specs.Facts.{facts_of};
ghost use Rattle.wasm_ast.specs.Outside.{outside, outside_by_size, outside_features, first_feature, first_reserved, is_reserved, is_exported_memory, exports_memory};
ghost use Rattle.wasm_ast.specs.Region.{needs_region};

mod obstacle;
mod pages;
mod region;

use crate::facts::Facts;
use crate::features::{Feature, has_given};
use crate::module::{Export, ExportDesc, Module};
use crate::spaces::imported_memories;
pub use obstacle::Obstacle;
use pages::has_too_many_pages;
use region::{moves_tables, needs_region_given};
use std::alloc::{AllocError, Global};

/// The first of the profile's list that keeps the module outside, if one does; code that cannot be reached is included.
/// It needs to know what the bodies of the module show, and walks them no more than once itself. It fails for want of
/// memory alone.
pub fn outside(alloc: Global, m: &Module, facts: &Facts) -> Result<Option<Obstacle>, AllocError>
    requires { facts.now ≡ facts_of m.now }
    ensures { IfOk result (λ found. found ≡ outside m.now) }
{
    if let Some(feature) = outside_feature(alloc, m, facts)? {
        return Ok(Some(Obstacle::Feature(feature)));
    }
    if let Some(place) = first_reserved(m.exports.as_slice()) {
        return Ok(Some(reserved_name(place)?));
    }
    outside_by_size(alloc, m, facts)
}

/// The first feature of the module that lies outside the profile, if it has one.
fn outside_feature(alloc: Global, m: &Module, facts: &Facts) -> Result<Option<Feature>, AllocError>
    requires { facts.now ≡ facts_of m.now }
    ensures { IfOk result (λ found. found ≡ first_feature outside_features m.now) }
{
    let features = [
        Feature::Floats,
        Feature::WideTable,
        Feature::TableInitialiser,
        Feature::ImportedTable,
        Feature::ImportedTag,
        Feature::ImportedMutableGlobal,
        Feature::ImportedMemory,
        Feature::ExportedTable,
        Feature::WideGlobal,
        Feature::ExnrefTable,
        Feature::HostExnref,
    ];
    first_feature(alloc, m, facts, &features)
}

/// The first of these features that the module has, if it has one, where it is known what the bodies of the module
/// show. It fails for want of memory alone.
pub fn first_feature(
    alloc: Global,
    m: &Module,
    facts: &Facts,
    features: &[Feature],
) -> Result<Option<Feature>, AllocError>
    requires { facts.now ≡ facts_of m.now }
    ensures { IfOk result (λ found. found ≡ first_feature features.now m.now) }
{
    for feature in features {
        if has_given(alloc, m, facts, *feature)? {
            return Ok(Some(*feature));
        }
    }
    Ok(None)
}

/// The place of the first export whose name begins with `lower.`, if there is one.
fn first_reserved(exports: &[Export]) -> Option<usize>
    ensures { result ≡ first_reserved exports.now }
{
    exports.iter().position(|export| is_reserved(export))
}

/// That the export at this place has a reserved name. No memory is found for a place of 2^32 or more.
fn reserved_name(place: usize) -> Result<Obstacle, AllocError>
    ensures { IfOk result (λ obstacle. obstacle ≡ Obstacle.ReservedName place) }
{
    if place <= u32::MAX as usize {
        Ok(Obstacle::ReservedName(place as u32))
    } else {
        Err(AllocError)
    }
}

fn is_reserved(export: &Export) -> bool
    ensures { result ≡ is_reserved export.now }
{
    export.name.as_str().as_bytes().starts_with(b"lower.")
}

/// What keeps the module outside by its memories and tables, if something does.
fn outside_by_size(alloc: Global, m: &Module, facts: &Facts) -> Result<Option<Obstacle>, AllocError>
    requires { facts.now ≡ facts_of m.now }
    ensures { IfOk result (λ found. found ≡ outside_by_size m.now) }
{
    let moved = moves_tables(alloc, m, facts)?;
    let region = needs_region_given(alloc, m, facts, moved)?;
    if exports_memory(m) && region {
        Ok(Some(Obstacle::MemoryMoved))
    } else if has_too_many_pages(m, moved, region) {
        Ok(Some(Obstacle::TooManyPages))
    } else {
        Ok(None)
    }
}

/// Whether the lowered module keeps tables and memories in one memory of its own, the region, where it is known what the
/// bodies of the module show. It fails for want of memory alone.
pub fn needs_region(alloc: Global, m: &Module, facts: &Facts) -> Result<bool, AllocError>
    requires { facts.now ≡ facts_of m.now }
    ensures { IfOk result (λ yes. yes ≡ needs_region m.now) }
{
    let moved = moves_tables(alloc, m, facts)?;
    needs_region_given(alloc, m, facts, moved)
}

/// Whether a memory of the module is exported. An index out of range names none.
fn exports_memory(m: &Module) -> bool
    ensures { result ≡ exports_memory m.now }
{
    let imported = imported_memories(m);
    let own = m.memories.len();
    m.exports
        .as_slice()
        .iter()
        .any(|export| is_exported_memory(imported, own, export.desc))
}

/// Whether it is one of so many memories, the imported ones first.
fn is_exported_memory(imported: usize, own: usize, desc: ExportDesc) -> bool
    ensures { result ≡ is_exported_memory (imported + own) desc }
{
    match desc {
        ExportDesc::Memory(memory) => {
            let memory = memory as usize;
            memory < imported || memory - imported < own
        }
        _ => false,
    }
}
