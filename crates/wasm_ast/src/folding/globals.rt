ghost use Rattle.std.specs.Prelude.{◌≡◌, IfOk};
ghost use Rattle.wasm_ast.specs.Fold.{of_type, known_imports, known_globals};

use super::expressions::fold_of;
use super::folded::{Folded, folded_type};
use crate::module::{Module, Ty};
use crate::spaces::imported_global_types;
use sqlite_items::Items;
use std::alloc::{AllocError, Global};

/// What each global folds to, if it does, imports first. It fails for want of memory alone.
pub fn known_globals(alloc: Global, m: &Module) -> Result<Items<Option<Folded>>, AllocError>
    ensures { IfOk result (λ known. known ≡ known_globals m.now) }
{
    let types = imported_global_types(alloc, m.imports.as_slice())?;
    let mut known = known_imports(alloc, types.as_slice())?;
    for global in m.globals.as_slice() {
        let folded = fold_of(alloc, known.as_slice(), global.init.as_slice())?;
        known.push(of_type(global.ty, folded))?;
    }
    Ok(Items::from_vec(known))
}

/// What imported globals of these types fold to: each to itself.
fn known_imports(alloc: Global, types: &[Ty]) -> Result<Vec<Option<Folded>>, AllocError>
    ensures { IfOk result (λ known. known.items ≡ known_imports types.now) }
{
    types
        .iter()
        .enumerate()
        .map(|(j, ty)| Some(Folded::Imported(j, *ty)))
        .collect(alloc)
}

/// What a global of this type folds to, whose initial value folds to this.
fn of_type(ty: Ty, folded: Option<Folded>) -> Option<Folded>
    ensures { result ≡ of_type ty folded }
{
    match folded {
        Some(value) if ty == folded_type(value) => Some(value),
        _ => None,
    }
}
