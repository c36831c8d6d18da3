// Globals, each over those before it.

ghost use Rattle.std.specs.Prelude.{◌≡◌, List, None, length, IfOk};
ghost use Rattle.wasm_ast.specs.declared.module.parts.Module.{Module as Source};
ghost use Rattle.typed_trees.specs.declared.global_type.GlobalType.{GlobalType as GlobalTypeOf};
ghost use Rattle.typed_trees.specs.Modules.{all_globals, early_context, global_import, imported_of, TypedGlobal};
ghost use Rattle.valid_new.specs.Scopes.{spaces_context};
ghost use Rattle.valid_mod.specs.Parts.{Globals, PartTyped};
ghost use Rattle.valid_new.specs.Judged.{Decided};
ghost use Rattle.valid_mod.specs.Searches.{Finds};

use crate::parts::constants::is_typed_constant;
use std::alloc::{AllocError, Global};
use typed_trees::GlobalType;
use valid_new::{Spaces, is_value_type};
use wasm_ast::module;
use wasm_ast::module::Module;

/// Whether a global is typed over the globals of these index spaces.
fn global_is_typed(
    alloc: Global,
    spaces: &Spaces<'_>,
    global: &module::Global,
) -> Result<bool, AllocError>
    ensures { (m : Source) (before : List GlobalTypeOf) → spaces_context spaces.now ≡ early_context m before → IfOk result (λ yes. Decided yes (TypedGlobal m before global.now)) }
{
    if !is_value_type(global.ty) {
        return Ok(false);
    }
    is_typed_constant(alloc, spaces, &global.init, global.ty)
}

/// The first global that is not typed. Each is put to the index spaces once it is typed.
pub fn first_global(
    alloc: Global,
    m: &Module,
    spaces: &mut Spaces<'_>,
) -> Result<Option<usize>, AllocError>
    requires { spaces_context spaces.old ≡ early_context m.now (imported_of global_import m.now) }
    ensures found { IfOk result (Finds (PartTyped m.now Globals) (length m.now.globals)) }
    ensures spaces { IfOk result (λ found. found ≡ None → spaces_context spaces.new ≡ early_context m.now (all_globals m.now)) }
{
    for (place, global) in m.globals.as_slice().iter().enumerate() {
        if !global_is_typed(alloc, spaces, global)? {
            return Ok(Some(place));
        }
        spaces.globals.push(GlobalType {
            ty: global.ty,
            mutable: global.mutable,
        })?;
    }
    Ok(None)
}
