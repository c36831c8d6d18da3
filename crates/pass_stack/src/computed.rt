// Exported globals that 1.0 cannot say.

ghost use Rattle.std.specs.Prelude.{◌≡◌, ◌&&◌, is_some, IfOk, slice_get};
ghost use Rattle.std.specs.List.{list_any};
ghost use Rattle.wasm_ast.specs.Fold.{known_at, known_globals};
ghost use Rattle.wasm_ast.specs.Spaces.{is_global, imported};
ghost use Rattle.pass_law.specs.Needs.{is_fixed_global, is_computed_export, exports_computed};

use std::alloc::{AllocError, Global as Allocator};
use wasm_ast::folding::{Folded, known_globals};
use wasm_ast::module::{Export, ExportDesc, Global, Module};
use wasm_ast::spaces::imported_globals;

/// Whether the module exports an immutable global of its own whose initial value does not fold. It fails for want of
/// memory alone.
pub fn exports_computed(alloc: Allocator, m: &Module) -> Result<bool, AllocError>
    ensures { IfOk result (λ yes. yes ≡ exports_computed m.now) }
{
    let known = known_globals(alloc, m)?;
    Ok(some_computed(
        m,
        imported_globals(m),
        known.as_slice(),
        m.exports.as_slice(),
    ))
}

fn some_computed(m: &Module, others: usize, known: &[Option<Folded>], exports: &[Export]) -> bool
    requires others { others ≡ imported is_global m.now }
    requires known { known.now ≡ known_globals m.now }
    ensures { result ≡ list_any (λ e. is_computed_export m.now e.desc) exports.now }
{
    exports
        .iter()
        .any(|export| is_computed_export(m, others, known, export.desc))
}

/// Whether it is such a global, where so many other globals are imported and it is known what each folds to, if it does.
fn is_computed_export(m: &Module, others: usize, known: &[Option<Folded>], desc: ExportDesc) -> bool
    requires others { others ≡ imported is_global m.now }
    requires known { known.now ≡ known_globals m.now }
    ensures { result ≡ is_computed_export m.now desc }
{
    match desc {
        ExportDesc::Global(global) => {
            let global = global as usize;
            is_fixed_at(m.globals.as_slice(), global.saturating_sub(others))
                && !folds(known, global)
        }
        _ => false,
    }
}

/// Whether there is a global of the module at this place that cannot be changed.
fn is_fixed_at(globals: &[Global], place: usize) -> bool
    ensures { result ≡ is_fixed_global (slice_get globals.now place) }
{
    match globals.get(place) {
        Some(global) => !global.mutable,
        None => false,
    }
}

/// Whether it is known to what a global folds.
fn folds(known: &[Option<Folded>], global: usize) -> bool
    ensures { result ≡ is_some (known_at known.now global) }
{
    matches!(known.get(global), Some(Some(_)))
}
