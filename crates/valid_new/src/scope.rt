// What code may name: the index spaces of its module, and the types of its function.

ghost use Rattle.std.specs.Prelude.{◌≡◌, map, option_map, slice_get, IfOk};
ghost use Rattle.wasm_ast.specs.Marking.{is_marked};
ghost use Rattle.typed_trees.specs.Contexts.{func_type, tag_type};
ghost use Rattle.typed_trees.specs.Forms.{labels_at};
ghost use Rattle.valid_new.specs.Scopes.{context_of, labels_of};

use sqlite_items::Items;
use std::alloc::{AllocError, Global};
use typed_trees::GlobalType;
use wasm_ast::marking::is_marked;
use wasm_ast::module::{FuncType, Limits, Ty};

/// The index spaces of a module, imports first, as code sees them ("Contexts" of chapter 3).
#[derive(Drop)]
pub struct Spaces<'m> {
    /// The function types.
    pub types: &'m [FuncType],
    /// The index of the type of each function.
    pub funcs: Items<u32>,
    /// The index of the type of each tag.
    pub tags: Items<u32>,
    /// The reference type of each table.
    pub tables: Items<Ty>,
    /// The reference type of each element segment.
    pub elems: Items<Ty>,
    /// The limits of each memory.
    pub memories: Items<Limits>,
    /// How many data segments there are.
    pub datas: usize,
    /// The type of each global.
    pub globals: Items<GlobalType>,
    /// Of each function, whether it occurs outside the bodies of functions and the start function.
    pub refs: Items<bool>,
}

/// What the code of one function may name.
#[derive(Clone, Copy)]
pub struct Scope<'a> {
    /// The index spaces of its module.
    pub spaces: &'a Spaces<'a>,
    /// The types of the parameters.
    pub params: &'a [Ty],
    /// The types of the declared locals.
    pub locals: &'a [Ty],
    /// The types of the results; in an expression outside functions there are none.
    pub returns: Option<&'a [Ty]>,
}

/// The function type with an index.
pub fn type_at<'a>(scope: Scope<'a>, index: u32) -> Option<&'a FuncType>
    ensures { option_map (λ t. t.now) result ≡ slice_get (context_of scope.entry).types index }
{
    scope.spaces.types.get(index as usize)
}

/// The type of a function.
pub fn func_type<'a>(scope: Scope<'a>, func: u32) -> Option<&'a FuncType>
    ensures { option_map (λ t. t.now) result ≡ func_type (context_of scope.entry) func }
{
    match scope.spaces.funcs.as_slice().get(func as usize) {
        Some(index) => type_at(scope, *index),
        None => None,
    }
}

/// The type of a tag.
pub fn tag_type<'a>(scope: Scope<'a>, tag: u32) -> Option<&'a FuncType>
    ensures { option_map (λ t. t.now) result ≡ tag_type (context_of scope.entry) tag }
{
    match scope.spaces.tags.as_slice().get(tag as usize) {
        Some(index) => type_at(scope, *index),
        None => None,
    }
}

/// The type of a local, the parameters first.
pub fn local_type(scope: Scope<'_>, local: u32) -> Option<Ty>
    ensures { result ≡ slice_get (context_of scope.entry).locals local }
{
    let place = local as usize;
    if place < scope.params.len() {
        return Some(scope.params[place]);
    }
    scope.locals.get(place - scope.params.len()).copied()
}

/// The type of a global.
pub fn global_type(scope: Scope<'_>, global: u32) -> Option<GlobalType>
    ensures { result ≡ slice_get (context_of scope.entry).globals global }
{
    scope
        .spaces
        .globals
        .as_slice()
        .get(global as usize)
        .copied()
}

/// The reference type of a table.
pub fn table_type(scope: Scope<'_>, table: u32) -> Option<Ty>
    ensures { result ≡ slice_get (context_of scope.entry).tables table }
{
    scope.spaces.tables.as_slice().get(table as usize).copied()
}

/// The reference type of an element segment.
pub fn element_type(scope: Scope<'_>, segment: u32) -> Option<Ty>
    ensures { result ≡ slice_get (context_of scope.entry).elems segment }
{
    scope.spaces.elems.as_slice().get(segment as usize).copied()
}

/// The limits of a memory.
pub fn memory_limits(scope: Scope<'_>, memory: u32) -> Option<Limits>
    ensures { result ≡ slice_get (context_of scope.entry).memories memory }
{
    scope
        .spaces
        .memories
        .as_slice()
        .get(memory as usize)
        .copied()
}

/// What a branch to the label takes: 0 is the innermost label, which is the last one.
pub fn label_types<'a>(labels: &[&'a [Ty]], label: u32) -> Option<&'a [Ty]>
    ensures { option_map (λ ts. ts.now) result ≡ slice_get (labels_of labels.now) label }
{
    let place = label as usize;
    if place < labels.len() {
        Some(labels[labels.len() - 1 - place])
    } else {
        None
    }
}

/// Whether there is the function, and it occurs outside bodies.
pub fn is_declared(scope: Scope<'_>, func: u32) -> bool
    ensures { result ≡ is_marked (context_of scope.entry).refs func }
{
    is_marked(scope.spaces.refs.as_slice(), func as usize)
}

/// What branches to the labels take, where each label is there.
pub fn labels_at<'a>(
    alloc: Global,
    labels: &[&'a [Ty]],
    numbers: &[u32],
) -> Result<Option<Vec<&'a [Ty]>>, AllocError>
    ensures { IfOk result (λ found. option_map (λ v. map (λ ts. ts.now) v.items) found ≡ labels_at (labels_of labels.now) numbers.now) }
{
    let mut found = Vec::new(alloc);
    for k in 0..numbers.len() {
        let Some(types) = label_types(labels, numbers[k]) else {
            return Ok(None);
        };
        found.push(types)?;
    }
    Ok(Some(found))
}
