// Exports and the start function.

ghost use Rattle.std.specs.Prelude.{◌≡◌, [], length, option_map, IfOk};
ghost use Rattle.typed_trees.specs.Contexts.{func_type};
ghost use Rattle.typed_trees.specs.Modules.{context, TypedDesc, TypedStart, TypedStartFunc};
ghost use Rattle.valid_new.specs.Scopes.{spaces_context};
ghost use Rattle.valid_mod.specs.Parts.{Exports, PartTyped};
ghost use Rattle.valid_new.specs.Judged.{Decided};
ghost use Rattle.valid_mod.specs.Searches.{Finds};

use crate::parts::types::is_nothing;
use std::alloc::{AllocError, Global};
use std::collections::BTreeSet;
use valid_new::Spaces;
use wasm_ast::module::{ExportDesc, FuncType, Module};

/// Whether the index of an export is in range.
fn is_in_range(m: &Module, spaces: &Spaces<'_>, desc: ExportDesc) -> bool
    requires { spaces_context spaces.now ≡ context m.now }
    ensures { Decided result (TypedDesc m.now desc) }
{
    match desc {
        ExportDesc::Func(index) => (index as usize) < spaces.funcs.len(),
        ExportDesc::Table(index) => (index as usize) < spaces.tables.len(),
        ExportDesc::Memory(index) => (index as usize) < spaces.memories.len(),
        ExportDesc::Global(index) => (index as usize) < spaces.globals.len(),
        ExportDesc::Tag(index) => (index as usize) < spaces.tags.len(),
    }
}

/// The first export whose index is out of range, or whose name an earlier one has.
pub fn first_export(
    alloc: Global,
    m: &Module,
    spaces: &Spaces<'_>,
) -> Result<Option<usize>, AllocError>
    requires { spaces_context spaces.now ≡ context m.now }
    ensures { IfOk result (Finds (PartTyped m.now Exports) (length m.now.exports)) }
{
    let mut names = BTreeSet::new(alloc);
    for (place, export) in m.exports.as_slice().iter().enumerate() {
        if !is_in_range(m, spaces, export.desc) {
            return Ok(Some(place));
        }
        if !names.insert(export.name.as_str())? {
            return Ok(Some(place));
        }
    }
    Ok(None)
}

/// The type of a function.
fn func_type<'a>(spaces: &'a Spaces<'a>, func: u32) -> Option<&'a FuncType>
    ensures { option_map (λ t. t.now) result ≡ func_type (spaces_context spaces.now) func }
{
    match spaces.funcs.as_slice().get(func as usize) {
        Some(index) => spaces.types.get(*index as usize),
        None => None,
    }
}

/// Whether a function of the type takes nothing and gives nothing.
fn takes_and_gives_nothing(ty: &FuncType) -> bool
    ensures { Decided result ((ty.now.params ≡ []) × (ty.now.results ≡ [])) }
{
    is_nothing(ty.params.as_slice()) && is_nothing(ty.results.as_slice())
}

/// Whether there is the function, and it takes nothing and gives nothing.
fn start_func_is_typed(m: &Module, spaces: &Spaces<'_>, func: u32) -> bool
    requires { spaces_context spaces.now ≡ context m.now }
    ensures { Decided result (TypedStartFunc m.now func) }
{
    match func_type(spaces, func) {
        Some(ty) => takes_and_gives_nothing(ty),
        None => false,
    }
}

/// Whether the start function, if there is one, takes nothing and gives nothing.
pub fn start_is_typed(m: &Module, spaces: &Spaces<'_>) -> bool
    requires { spaces_context spaces.now ≡ context m.now }
    ensures { Decided result (TypedStart m.now m.now.start) }
{
    match m.start {
        Some(func) => start_func_is_typed(m, spaces, func),
        None => true,
    }
}
