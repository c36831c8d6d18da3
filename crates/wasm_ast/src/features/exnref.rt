// exnref in the types of functions and tags that a host would meet.

ghost use Rattle.std.specs.Prelude.{◌≡◌, map, IfOk};
ghost use Rattle.std.specs.List.{list_any};
ghost use Rattle.wasm_ast.specs.Marking.{is_marked};
ghost use Rattle.wasm_ast.specs.Places.{func_type_shows};
ghost use Rattle.wasm_ast.specs.Spaces.{func_indices};
ghost use Rattle.wasm_ast.specs.Has.{has_of, imports_some, imports_type, exports_type, meets_type};

use super::declared::func_type_shows;
use super::kind::Feature;
use crate::marking::is_marked;
use crate::module::{Export, ExportDesc, FuncType, Import, ImportDesc, Module};
use crate::spaces::func_indices;
use std::alloc::{AllocError, Global};

/// Whether the type of an imported or exported function, of an imported tag or of a tag of the module names exnref.
/// It fails for want of memory alone.
#[tactic(auto, using(crate::proofs::Exnref::marked_exnref))]
pub fn names_exnref(alloc: Global, m: &Module) -> Result<bool, AllocError>
    ensures { IfOk result (λ yes. yes ≡ has_of m.now Feature.HostExnref) }
{
    let marks = exnref_types(alloc, m.types.as_slice())?;
    meets_type(alloc, marks.as_slice(), m)
}

/// Of each function type, whether it names exnref.
fn exnref_types(alloc: Global, types: &[FuncType]) -> Result<Vec<bool>, AllocError>
    ensures { IfOk result (λ marks. marks.items ≡ map (func_type_shows Feature.Exceptions) types.now) }
{
    let mut marks = Vec::new(alloc);
    for ty in types {
        marks.push(func_type_shows(ty, Feature::Exceptions))?;
    }
    Ok(marks)
}

/// Whether the type of an imported or exported function, of an imported tag or of a tag of the module is marked.
fn meets_type(alloc: Global, marks: &[bool], m: &Module) -> Result<bool, AllocError>
    ensures { IfOk result (λ yes. yes ≡ meets_type (is_marked marks.now) m.now) }
{
    if imports_marked(marks, m.imports.as_slice()) || holds_marked(marks, m.tags.as_slice()) {
        return Ok(true);
    }
    let indices = func_indices(alloc, m)?;
    Ok(exports_marked(marks, indices.as_slice(), m.exports.as_slice()))
}

/// Whether the type of an imported function or tag is marked.
fn imports_marked(marks: &[bool], imports: &[Import]) -> bool
    ensures { result ≡ list_any (λ i. imports_type (is_marked marks.now) i.desc) imports.now }
{
    imports
        .iter()
        .any(|import| is_import_marked(marks, import.desc))
}

fn is_import_marked(marks: &[bool], desc: ImportDesc) -> bool
    ensures { result ≡ imports_type (is_marked marks.now) desc }
{
    match desc {
        ImportDesc::Func(ty) | ImportDesc::Tag(ty) => is_marked(marks, ty as usize),
        _ => false,
    }
}

/// Whether one of the types is marked.
fn holds_marked(marks: &[bool], types: &[u32]) -> bool
    ensures { result ≡ list_any (is_marked marks.now) types.now }
{
    types.iter().any(|ty| is_marked(marks, *ty as usize))
}

/// Whether the type of an exported function is marked, by the type index of each function.
fn exports_marked(marks: &[bool], indices: &[u32], exports: &[Export]) -> bool
    ensures { result ≡ list_any (λ e. exports_type (is_marked marks.now) indices.now e.desc) exports.now }
{
    exports
        .iter()
        .any(|export| is_export_marked(marks, indices, export.desc))
}

fn is_export_marked(marks: &[bool], indices: &[u32], desc: ExportDesc) -> bool
    ensures { result ≡ exports_type (is_marked marks.now) indices.now desc }
{
    match desc {
        ExportDesc::Func(func) => match indices.get(func as usize) {
            Some(ty) => is_marked(marks, *ty as usize),
            None => false,
        },
        _ => false,
    }
}
