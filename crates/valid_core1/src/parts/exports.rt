ghost use Rattle.std.specs.Prelude.{◌≡◌, length, IfOk};
ghost use Rattle.core1_ast.specs.Typing.{TypedDesc, TypedStart};
ghost use Rattle.valid_core1.specs.Checks.{Decided};
ghost use Rattle.valid_core1.specs.Parts.{PartTyped, Exports};
ghost use Rattle.valid_core1.specs.Scopes.{AreSpaces};
ghost use Rattle.valid_core1.specs.Sections.{Finds};

use crate::spaces::Spaces;
use core1_ast::module::{ExportDesc1, Module1};
use std::alloc::{AllocError, Global};
use std::collections::BTreeSet;

/// Whether the index of an export is in range.
pub fn is_in_range(source: &Module1, spaces: &Spaces, desc: ExportDesc1) -> bool
    requires { AreSpaces source.now spaces.now }
    ensures { Decided result (TypedDesc source.now desc) }
{
    match desc {
        ExportDesc1::Func(index) => (index as usize) < spaces.funcs.len(),
        ExportDesc1::Table(index) => (index as usize) < spaces.tables,
        ExportDesc1::Memory(index) => (index as usize) < spaces.memories,
        ExportDesc1::Global(index) => (index as usize) < spaces.globals.len(),
    }
}

/// The first export whose index is out of range, or whose name an earlier one has.
pub fn first_export(
    alloc: Global,
    source: &Module1,
    spaces: &Spaces,
) -> Result<Option<usize>, AllocError>
    requires { AreSpaces source.now spaces.now }
    ensures { IfOk result (Finds (PartTyped source.now Exports) (length source.now.exports)) }
{
    let mut names = BTreeSet::new(alloc);
    for (place, export) in source.exports.as_slice().iter().enumerate() {
        if !is_in_range(source, spaces, export.desc) {
            return Ok(Some(place));
        }
        if !names.insert(export.name.as_str())? {
            return Ok(Some(place));
        }
    }
    Ok(None)
}

/// Whether the start function, if there is one, takes nothing and gives nothing.
pub fn start_is_typed(source: &Module1, spaces: &Spaces) -> bool
    requires { AreSpaces source.now spaces.now }
    ensures { Decided result (TypedStart source.now source.now.start) }
{
    let Some(index) = source.start else {
        return true;
    };
    let Some(ty) = spaces.funcs.get(index as usize) else {
        return false;
    };
    match source.types.get(*ty as usize) {
        Some(ty) => ty.params.is_empty() && ty.results.is_empty(),
        None => false,
    }
}
