// What exports show of the tables and globals that a host would meet.

ghost use Rattle.std.specs.Prelude.{◌≡◌, ◌+◌, IfOk};
ghost use Rattle.std.specs.List.{list_any};
ghost use Rattle.wasm_ast.specs.Spaces.{global_types, table_count};
ghost use Rattle.wasm_ast.specs.Has.{exports_wide_global, is_exported_table};

use super::imports::is_wide_type;
use crate::module::{Export, ExportDesc, Module, Ty};
use crate::spaces::{global_types, imported_tables};
use std::alloc::{AllocError, Global};

/// Whether a table of the module is exported. An index out of range names none.
pub fn exports_table(m: &Module) -> bool
    ensures { result ≡ list_any (λ e. is_exported_table (table_count m.now) e.desc) m.now.exports }
{
    let imported = imported_tables(m);
    let own = m.tables.len();
    m.exports
        .as_slice()
        .iter()
        .any(|export| is_exported_table(imported, own, export.desc))
}

/// Whether it is one of so many tables, the imported ones first.
fn is_exported_table(imported: usize, own: usize, desc: ExportDesc) -> bool
    ensures { result ≡ is_exported_table (imported + own) desc }
{
    match desc {
        ExportDesc::Table(table) => {
            let table = table as usize;
            table < imported || table - imported < own
        }
        _ => false,
    }
}

/// Whether a global that is v128 or a reference is exported. It fails for want of memory alone.
pub fn exports_wide_global(alloc: Global, m: &Module) -> Result<bool, AllocError>
    ensures { IfOk result (λ yes. yes ≡ list_any (λ e. exports_wide_global (global_types m.now) e.desc) m.now.exports) }
{
    let types = global_types(alloc, m)?;
    Ok(export_wide_global(types.as_slice(), m.exports.as_slice()))
}

/// Whether one of the exports is a global that is v128 or a reference, by the type of each global.
fn export_wide_global(types: &[Ty], exports: &[Export]) -> bool
    ensures { result ≡ list_any (λ e. exports_wide_global types.now e.desc) exports.now }
{
    exports
        .iter()
        .any(|export| is_exported_wide(types, export.desc))
}

fn is_exported_wide(types: &[Ty], desc: ExportDesc) -> bool
    ensures { result ≡ exports_wide_global types.now desc }
{
    match desc {
        ExportDesc::Global(global) => match types.get(global as usize) {
            Some(ty) => is_wide_type(*ty),
            None => false,
        },
        _ => false,
    }
}
