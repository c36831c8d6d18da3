// Whether the bodies of a module are typed. Nothing of them is kept.

ghost use Rattle.std.specs.Prelude.{◌≡◌, ◌<◌, [], ◌∷◌, length, IfOk};
ghost use Rattle.wasm_ast.specs.declared.module.parts.Module.{Module};
ghost use Rattle.typed_trees.specs.Modules.{context, TypedBody};
ghost use Rattle.valid_new.specs.Judged.{CodeTyped, Decided, FuncOr};
ghost use Rattle.valid_new.specs.Scopes.{inside, spaces_context};

use crate::annotating::are_value_types;
use crate::deciding::is_code_typed;
use crate::scope::{Scope, Spaces};
use std::alloc::{AllocError, Global};
use typing_kit::Operands;
use wasm_ast::module::{Body, FuncType, Instr, Module, Ty};

/// Whether the body of the function with this place among the module's own is typed ("Functions" of chapter 3), by the
/// index spaces of the module, which serve for all of its bodies.
pub fn is_func_typed(
    alloc: Global,
    spaces: &Spaces<'_>,
    m: &Module,
    f: u32,
) -> Result<bool, AllocError>
    requires spaces { spaces_context spaces.now ≡ context m.now }
    requires bodies { length m.now.funcs ≡ length m.now.codes }
    requires range { f < length m.now.codes }
    ensures { IfOk result (FuncOr m.now f) }
{
    let body = &m.codes.as_slice()[f as usize];
    let index = m.funcs.as_slice()[f as usize];
    match m.types.as_slice().get(index as usize) {
        Some(ty) => is_body_typed(alloc, spaces, ty, body),
        None => Ok(false),
    }
}

/// Whether a body of this type is typed among these index spaces.
fn is_body_typed(
    alloc: Global,
    spaces: &Spaces<'_>,
    ty: &FuncType,
    body: &Body,
) -> Result<bool, AllocError>
    ensures { (m : Module) → spaces_context spaces.now ≡ context m → IfOk result (λ typed. Decided typed (TypedBody m ty.now body.now)) }
{
    if !are_value_types(body.locals.as_slice()) {
        return Ok(false);
    }
    let locals = body.locals.as_slice();
    is_typed_as(alloc, spaces, ty, locals, body.code.as_slice())
}

/// Whether the code is that of a function of this type with these declared locals.
fn is_typed_as(
    alloc: Global,
    spaces: &Spaces<'_>,
    ty: &FuncType,
    locals: &[Ty],
    code: &[Instr],
) -> Result<bool, AllocError>
    ensures { IfOk result (λ typed. Decided typed (CodeTyped (inside (spaces_context spaces.now) ty.now locals.now) (ty.now.results ∷ []) code.now [] ty.now.results)) }
{
    let results = ty.results.as_slice();
    let scope = Scope {
        spaces,
        params: ty.params.as_slice(),
        locals,
        returns: Some(results),
    };
    let mut labels = Vec::new(alloc);
    labels.push(results)?;
    let mut operands = Operands::new(alloc);
    is_code_typed(alloc, scope, &mut labels, &mut operands, &[], results, code)
}
