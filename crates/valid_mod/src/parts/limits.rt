// Sizes of tables and memories, and tables with what they begin with.

ghost use Rattle.std.specs.Prelude.{◌≡◌, IfOk};
ghost use Rattle.typed_trees.specs.Modules.{early_context, global_import, imported_of, page_bound, TypedInitialiser, TypedLimits, TypedMemory, TypedTable, TypedTableType};
ghost use Rattle.valid_new.specs.Scopes.{spaces_context};
ghost use Rattle.wasm_ast.specs.declared.module.parts.Module.{Module as Source};
ghost use Rattle.valid_new.specs.Judged.{Decided};

use crate::parts::constants::is_typed_constant;
use crate::search::PartTest;
use std::alloc::{AllocError, Global};
use valid_new::{Spaces, is_reference_type};
use wasm_ast::module::{Code, Limits, Module, Table, Ty};

/// The greatest number of entries of a table.
const ENTRY_BOUND: u64 = 0xFFFF_FFFF;

/// The greatest number of pages of a memory with addresses of 32 bits, and of one with addresses of 64 bits.
const PAGE_BOUND: u64 = 0x1_0000;

const WIDE_PAGE_BOUND: u64 = 0x1_0000_0000_0000;

/// Whether no size is beyond the bound, and the greatest is not below the least.
fn limits_are_typed(bound: u64, limits: Limits) -> bool
    ensures { Decided result (TypedLimits bound limits) }
{
    match limits.max {
        Some(max) => limits.min <= bound && max <= bound && limits.min <= max,
        None => limits.min <= bound,
    }
}

/// The greatest number of pages.
fn page_bound(wide: bool) -> u64
    ensures { result ≡ page_bound wide }
{
    if wide { WIDE_PAGE_BOUND } else { PAGE_BOUND }
}

/// Whether a memory is typed.
pub fn memory_is_typed(limits: Limits) -> bool
    ensures { Decided result (TypedMemory limits) }
{
    limits_are_typed(page_bound(limits.wide), limits)
}

/// Whether the type of a table is typed.
pub fn table_type_is_typed(ty: Ty, limits: Limits) -> bool
    ensures { Decided result (TypedTableType ty limits) }
{
    !limits.wide && limits_are_typed(ENTRY_BOUND, limits) && is_reference_type(ty)
}

/// Whether the expression of a table, if it has one, is typed.
fn init_is_typed(
    alloc: Global,
    spaces: &Spaces<'_>,
    ty: Ty,
    init: &Option<Code>,
) -> Result<bool, AllocError>
    ensures { (m : Source) → spaces_context spaces.now ≡ early_context m (imported_of global_import m) → IfOk result (λ yes. Decided yes (TypedInitialiser m ty init.now)) }
{
    match init {
        Some(code) => is_typed_constant(alloc, spaces, code, ty),
        None => Ok(true),
    }
}

/// The test of tables.
#[derive(Drop)]
pub struct TableTest<'a> {
    /// The memory from which room is taken.
    pub alloc: Global,
    /// The module.
    pub module: &'a Module,
    /// The index spaces that its tables see.
    pub spaces: &'a Spaces<'a>,
}

impl<'a> PartTest for TableTest<'a> {
    ghost use Rattle.std.specs.Prelude.{◌≡◌};
    ghost use Rattle.typed_trees.specs.Modules.{early_context, global_import, imported_of, TypedTable};
    ghost use Rattle.valid_new.specs.Scopes.{spaces_context};

    type Part = Table;

    ghost may = { λ self. spaces_context self.spaces.now ≡ early_context self.module.now (imported_of global_import self.module.now) };

    ghost typed = { λ self t. TypedTable self.module.now t };

    fn is_typed(&self, table: &Table) -> Result<bool, AllocError>
        requires { spaces_context self.now.spaces.now ≡ early_context self.now.module.now (imported_of global_import self.now.module.now) }
        ensures { IfOk result (λ yes. Decided yes (TypedTable self.now.module.now table.now)) }
    {
        if !table_type_is_typed(table.ty, table.limits) {
            return Ok(false);
        }
        init_is_typed(self.alloc, self.spaces, table.ty, &table.init)
    }
}

/// The test of memories.
#[derive(Drop)]
pub struct MemoryTest;

impl PartTest for MemoryTest {
    ghost use Rattle.typed_trees.specs.Modules.{TypedMemory};

    type Part = Limits;

    ghost may = { λ _. Unit {0} };

    ghost typed = { λ _ l. TypedMemory l };

    fn is_typed(&self, limits: &Limits) -> Result<bool, AllocError>
        ensures { IfOk result (λ yes. Decided yes (TypedMemory limits.now)) }
    {
        Ok(memory_is_typed(*limits))
    }
}
