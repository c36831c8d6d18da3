// How large the payload of a section is, where it is in the grammar of its id.

ghost use Rattle.std.specs.Prelude.{◌≡◌, ◌≤◌, ◌⊎◌, IfOk};
ghost use Rattle.core1_bytes.specs.Made.{Checks};

use super::instructions::IndexEntry;
use super::measures::{
    ElementMeasure, FunctionImports, GlobalMeasure, ParameterCounts, SegmentMeasure,
};
use super::parts::{ExportEntry, MemoryEntry, TableEntry};
use grammar_kit::Dropped;
use module_reading::{Sizes, number_sizes, vector_sizes};
use std::alloc::{AllocError, Global};

/// How large the payload is of a section of this id, but of a custom section and the code section. `None` where the
/// payload is not in the grammar of the id.
pub fn check(alloc: Global, id: u8, payload: &[u8]) -> Result<Option<Sizes>, AllocError>
    ensures { IfOk result (Checks id payload.now) }
{
    if 1 <= id && id <= 6 {
        check_up_to_globals(alloc, id, payload)
    } else {
        check_from_exports(alloc, id, payload)
    }
}

fn check_up_to_globals(alloc: Global, id: u8, payload: &[u8]) -> Result<Option<Sizes>, AllocError>
    requires low { 1 ≤ id }
    requires high { id ≤ 6 }
    ensures { IfOk result (Checks id payload.now) }
{
    match id {
        1 => vector_sizes::<ParameterCounts>(alloc, payload),
        2 => vector_sizes::<FunctionImports>(alloc, payload),
        3 => vector_sizes::<Dropped<IndexEntry>>(alloc, payload),
        4 => vector_sizes::<Dropped<TableEntry>>(alloc, payload),
        5 => vector_sizes::<Dropped<MemoryEntry>>(alloc, payload),
        _ => vector_sizes::<GlobalMeasure>(alloc, payload),
    }
}

fn check_from_exports(alloc: Global, id: u8, payload: &[u8]) -> Result<Option<Sizes>, AllocError>
    requires { (id ≡ 0) ⊎ (7 ≤ id) }
    ensures { IfOk result (Checks id payload.now) }
{
    match id {
        7 => vector_sizes::<Dropped<ExportEntry>>(alloc, payload),
        8 => Ok(number_sizes(payload)),
        9 => vector_sizes::<ElementMeasure>(alloc, payload),
        11 => vector_sizes::<SegmentMeasure>(alloc, payload),
        _ => Ok(None),
    }
}
