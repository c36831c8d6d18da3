// The search through the bodies.

ghost use Rattle.std.specs.Prelude.{◌≡◌, ◌<◌, List, Some, length, slice_get};
ghost use Rattle.wasm_ast.specs.Counts.{Agrees};
ghost use Rattle.wasm_ast.specs.declared.module.code.Body.{Body as Code};
ghost use Rattle.typed_trees.specs.Modules.{context};
ghost use Rattle.valid_new.specs.Scopes.{spaces_context};
ghost use Rattle.valid_mod.specs.Bodies.{filled, TellsOfBodies, TellsOfBody};
ghost use Rattle.valid_mod.specs.Parts.{Section};
ghost use Rattle.valid_mod.specs.Verdict.{SectionTyped, Tells};

use crate::invalid::Invalid;
use owned_lists::Drain;
use sqlite_items::Items;
use std::alloc::{AllocError, Global};
use typed_trees::TypedFn;
use valid_new::{Spaces, annotate_body, is_func_typed};
use wasm_ast::module::{Body, Module};

/// The body at this place of a module with these parts, with its types.
fn type_body(
    alloc: Global,
    spaces: &Spaces<'_>,
    parts: &Module,
    place: usize,
    body: &Body,
) -> Result<TypedFn, Invalid>
    requires spaces { spaces_context spaces.now ≡ context parts.now }
    requires range { place < length parts.now.funcs }
    ensures { (bodies : List Code) → slice_get bodies place ≡ Some body.now → TellsOfBody (filled parts.now bodies) place result }
{
    let Ok(f) = u32::try_from(place) else {
        return Err(Invalid::Memory(AllocError));
    };
    let index = parts.funcs.as_slice()[place];
    let Some(ty) = parts.types.as_slice().get(index as usize) else {
        return Err(Invalid::Body(f));
    };
    match annotate_body(alloc, spaces, ty, body)? {
        Some(typed) => Ok(typed),
        None => Err(Invalid::Body(f)),
    }
}

/// The bodies with their types, or the first that is not typed.
pub fn type_bodies(
    alloc: Global,
    spaces: &Spaces<'_>,
    m: &Module,
) -> Result<Items<TypedFn>, Invalid>
    requires spaces { spaces_context spaces.now ≡ context m.now }
    requires counts { Agrees m.now }
    requires parts { (s : Section) → SectionTyped m.now s }
    ensures { TellsOfBodies m.now result }
{
    let mut fns = Items::new(alloc);
    for (place, body) in m.codes.as_slice().iter().enumerate() {
        let typed = type_body(alloc, spaces, m, place, body)?;
        fns.push(typed)?;
    }
    Ok(fns)
}

/// The same of bodies beside the parts of their module. Each is dropped once it is typed.
pub fn type_owned_bodies(
    alloc: Global,
    spaces: &Spaces<'_>,
    parts: &Module,
    bodies: Items<Body>,
) -> Result<Items<TypedFn>, Invalid>
    requires spaces { spaces_context spaces.now ≡ context parts.now }
    requires counts { Agrees (filled parts.now bodies) }
    requires parts { (s : Section) → SectionTyped (filled parts.now bodies) s }
    ensures { TellsOfBodies (filled parts.now bodies) result }
{
    let mut fns = Items::new(alloc);
    let mut rest = Drain::new(alloc, bodies)?;
    while let Some(body) = rest.next() {
        let typed = type_body(alloc, spaces, parts, fns.len(), &body)?;
        fns.push(typed)?;
    }
    Ok(fns)
}

/// The first body that is not typed is the fault. Nothing of a body is kept.
pub fn check_bodies(alloc: Global, spaces: &Spaces<'_>, m: &Module) -> Result<(), Invalid>
    requires spaces { spaces_context spaces.now ≡ context m.now }
    requires counts { Agrees m.now }
    requires parts { (s : Section) → SectionTyped m.now s }
    ensures { Tells m.now result }
{
    for place in 0..m.codes.len() {
        let Ok(f) = u32::try_from(place) else {
            return Err(Invalid::Memory(AllocError));
        };
        if !is_func_typed(alloc, spaces, m, f)? {
            return Err(Invalid::Body(f));
        }
    }
    Ok(())
}
