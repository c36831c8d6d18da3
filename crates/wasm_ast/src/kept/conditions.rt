// What must hold of the table, of its uses and of its segments.

ghost use Rattle.std.specs.Prelude.{◌≡◌, ◌&&◌, not, nat_eq, IfOk, is_some};
ghost use Rattle.std.specs.List.{list_any, list_all};
ghost use Rattle.wasm_ast.specs.Occurrence.{head_of};
ghost use Rattle.wasm_ast.specs.Kept.{is_plain_import, is_plain_table, has_one_plain_table, uses_table, exports_table, is_plain_offset, func_named, entry_func, fits_mode, is_plain_element};

use crate::folding::{Folded, fold_of};
use crate::module::{
    Code, Element, Export, ExportDesc, Import, ImportDesc, Instr, Mode, Module, Op, Table, Ty,
};
use crate::occurrence::InstrTest;
use crate::spaces::imported_tables;
use std::alloc::{AllocError, Global};

/// Whether the module has one table, imported or its own, which is funcref without an expression of its own.
pub fn has_one_plain_table(m: &Module) -> bool
    ensures { result ≡ has_one_plain_table m.now }
{
    imported_tables(m).saturating_add(m.tables.len()) == 1
        && are_plain_imports(m.imports.as_slice())
        && are_plain_tables(m.tables.as_slice())
}

/// Whether each imported table is funcref.
fn are_plain_imports(imports: &[Import]) -> bool
    ensures { result ≡ list_all (λ i. is_plain_import i.desc) imports.now }
{
    imports.iter().all(|import| is_plain_import(import.desc))
}

/// Whether it is a funcref table or no table.
fn is_plain_import(desc: ImportDesc) -> bool
    ensures { result ≡ is_plain_import desc }
{
    match desc {
        ImportDesc::Table(ty, _) => matches!(ty, Ty::Func),
        _ => true,
    }
}

/// Whether each table is funcref without an expression of its own.
fn are_plain_tables(tables: &[Table]) -> bool
    ensures { result ≡ list_all is_plain_table tables.now }
{
    tables.iter().all(|table| is_plain_table(table))
}

/// Whether the table is funcref without an expression of its own.
fn is_plain_table(table: &Table) -> bool
    ensures { result ≡ is_plain_table table.now }
{
    matches!(table.ty, Ty::Func) && table.init.is_none()
}

/// The test of instructions other than indirect calls that use table 0.
#[derive(Clone, Copy)]
pub struct UsesTable;

impl InstrTest for UsesTable {
    ghost test = { λ s. uses_table };

    fn passes(&self, instr: &Instr) -> bool {
        match instr {
            Instr::TableGet(x)
            | Instr::TableSet(x)
            | Instr::TableInit(_, x)
            | Instr::TableGrow(x)
            | Instr::TableSize(x)
            | Instr::TableFill(x) => *x == 0,
            Instr::TableCopy(to, from) => *to == 0 || *from == 0,
            _ => false,
        }
    }
}

/// Whether one of the exports gives table 0 to the host.
pub fn export_table(exports: &[Export]) -> bool
    ensures { result ≡ list_any (λ e. exports_table e.desc) exports.now }
{
    exports.iter().any(|export| exports_table(export.desc))
}

/// Whether it is table 0.
fn exports_table(desc: ExportDesc) -> bool
    ensures { result ≡ exports_table desc }
{
    match desc {
        ExportDesc::Table(x) => x == 0,
        _ => false,
    }
}

/// Whether each active segment of table 0 has a plain offset and entries that are ref.func alone.
pub fn are_plain_elements(
    alloc: Global,
    known: &[Option<Folded>],
    elements: &[Element],
) -> Result<bool, AllocError>
    ensures { IfOk result (λ yes. yes ≡ list_all (is_plain_element known.now) elements.now) }
{
    for element in elements {
        if !is_plain_element(alloc, known, element)? {
            return Ok(false);
        }
    }
    Ok(true)
}

/// Whether the segment is not active in table 0, or has a plain offset and entries that are ref.func alone.
fn is_plain_element(
    alloc: Global,
    known: &[Option<Folded>],
    element: &Element,
) -> Result<bool, AllocError>
    ensures { IfOk result (λ yes. yes ≡ is_plain_element known.now element.now) }
{
    match &element.mode {
        Mode::Active(0, offset) => {
            let folded = fold_of(alloc, known, offset.as_slice())?;
            Ok(is_plain_offset(folded) && are_funcs(element.items.as_slice()))
        }
        _ => Ok(true),
    }
}

/// Whether the offset is an i32 constant or an imported i32 global.
fn is_plain_offset(folded: Option<Folded>) -> bool
    ensures { result ≡ is_plain_offset folded }
{
    matches!(folded, Some(Folded::I32(_) | Folded::Imported(_, Ty::I32)))
}

/// Whether each entry is one ref.func.
fn are_funcs(entries: &[Code]) -> bool
    ensures { result ≡ list_all (λ e. is_some (entry_func e)) entries.now }
{
    entries
        .iter()
        .all(|entry| entry_func(entry.as_slice()).is_some())
}

/// The function of an entry that is one ref.func.
pub fn entry_func(entry: &[Instr]) -> Option<u32>
    ensures { result ≡ entry_func entry.now }
{
    match entry {
        [instr] => func_named(instr),
        _ => None,
    }
}

/// The function of a ref.func.
fn func_named(instr: &Instr) -> Option<u32>
    ensures { result ≡ func_named (head_of instr.now) }
{
    match instr {
        Instr::Pure(Op::RefFunc(func)) => Some(*func),
        _ => None,
    }
}
