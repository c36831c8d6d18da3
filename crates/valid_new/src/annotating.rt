// The bodies of a module, typed.

ghost use Rattle.std.specs.Prelude.{◌≡◌, ◌<◌, [], ◌∷◌, length, IfOk};
ghost use Rattle.std.specs.List.{list_all};
ghost use Rattle.wasm_ast.specs.declared.module.parts.Module.{Module};
ghost use Rattle.wasm_ast.specs.Counts.{Agrees};
ghost use Rattle.typed_trees.specs.Contexts.{is_value_type};
ghost use Rattle.typed_trees.specs.Modules.{context, TypedParts};
ghost use Rattle.valid_new.specs.Annotated.{AnnotatedOr, FoundOr, Tells};
ghost use Rattle.valid_new.specs.Bodies.{BodyOr};
ghost use Rattle.valid_new.specs.Scopes.{inside, spaces_context};
ghost use Rattle.valid_new.specs.declared.annotating.Fault.TheVariants.{Memory};

use crate::body::type_code;
use crate::scope::{Scope, Spaces};
use crate::spaces::spaces_of;
use crate::types::is_value_type;
use num_core::lists::TryCopy;
use std::alloc::{AllocError, Global};
use thiserror::Error;
use typed_trees::{Nodes, TypedFn};
use typing_kit::Operands;
use wasm_ast::module::{Body, FuncType, Instr, Module, Ty};

/// Why a body was not annotated.
#[derive(Debug, Drop, Error)]
pub enum Fault {
    /// No rule types the body.
    #[error("untyped")]
    Untyped,
    /// Memory was not found.
    #[error("out of memory")]
    Memory(AllocError),
}

impl From<AllocError> for Fault {
    ghost from_gives = { λ error fault. fault ≡ Memory error };

    fn from(error: AllocError) -> Fault {
        Fault::Memory(error)
    }
}

/// The body of the function with this place among the module's own, with its types and without code that cannot be
/// reached. It is untyped exactly where the rules of 3.0 do not type it ("Functions" of chapter 3).
pub fn annotate(alloc: Global, m: &Module, f: u32) -> Result<TypedFn, Fault>
    requires counts { Agrees m.now }
    requires parts { TypedParts m.now }
    requires range { f < length m.now.codes }
    ensures { Tells m.now f result }
{
    let spaces = spaces_of(alloc, m)?;
    let found = annotate_func(alloc, &spaces, m, f)?;
    match found {
        Some(typed) => Ok(typed),
        None => Err(Fault::Untyped),
    }
}

/// The same by the index spaces of the module, which serve for all of its bodies.
pub fn annotate_func(
    alloc: Global,
    spaces: &Spaces<'_>,
    m: &Module,
    f: u32,
) -> Result<Option<TypedFn>, AllocError>
    requires spaces { spaces_context spaces.now ≡ context m.now }
    requires bodies { length m.now.funcs ≡ length m.now.codes }
    requires range { f < length m.now.codes }
    ensures { IfOk result (FoundOr m.now f) }
{
    let body = &m.codes.as_slice()[f as usize];
    let index = m.funcs.as_slice()[f as usize];
    match m.types.as_slice().get(index as usize) {
        Some(ty) => annotate_body(alloc, spaces, ty, body),
        None => Ok(None),
    }
}

/// A body of this type, with its types, where the rules type it among these index spaces.
pub fn annotate_body(
    alloc: Global,
    spaces: &Spaces<'_>,
    ty: &FuncType,
    body: &Body,
) -> Result<Option<TypedFn>, AllocError>
    ensures { (m : Module) → spaces_context spaces.now ≡ context m → IfOk result (AnnotatedOr m ty.now body.now) }
{
    if !are_value_types(body.locals.as_slice()) {
        return Ok(None);
    }
    let found = annotate_code(
        alloc,
        spaces,
        ty,
        body.locals.as_slice(),
        body.code.as_slice(),
    )?;
    match found {
        Some(nodes) => {
            let locals = body.locals.copy(alloc)?;
            Ok(Some(TypedFn {
                locals,
                body: nodes,
            }))
        }
        None => Ok(None),
    }
}

/// The code of a function of this type with these declared locals.
fn annotate_code(
    alloc: Global,
    spaces: &Spaces<'_>,
    ty: &FuncType,
    locals: &[Ty],
    code: &[Instr],
) -> Result<Option<Nodes>, AllocError>
    ensures { IfOk result (BodyOr (inside (spaces_context spaces.now) ty.now locals.now) (ty.now.results ∷ []) code.now [] ty.now.results) }
{
    let results = ty.results.as_slice();
    let scope = Scope {
        spaces,
        params: ty.params.as_slice(),
        locals,
        returns: Some(results),
    };
    let mut labels = Vec::new(alloc);
    labels.push(results)?;
    let mut operands = Operands::new(alloc);
    type_code(alloc, scope, &mut labels, &mut operands, &[], results, code)
}

/// Whether each is the type of values.
pub fn are_value_types(types: &[Ty]) -> bool
    ensures { result ≡ list_all is_value_type types.now }
{
    types.iter().all(|ty| is_value_type(*ty))
}
