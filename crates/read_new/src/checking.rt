// Whether the payload of a section is in the grammar of its id, and how large it is.

ghost use Rattle.std.specs.Prelude.{◌<◌, ◌≤◌, IfOk, MatchOption};
ghost use Rattle.read_new.specs.Sizes.{HasSizes};
ghost use Rattle.read_new.specs.Spells.{InGrammar};

use crate::parts::{
    ElementMeasure, ExportEntry, FuncEntry, FunctionImports, GlobalMeasure, LimitsEntry,
    SegmentMeasure, TableMeasure, TagEntry, type_sizes,
};
use grammar_kit::Dropped;
use module_reading::{Sizes, number_sizes, vector_sizes};
use std::alloc::{AllocError, Global};

/// How large a payload is that is in the grammar of its id, and `None` where it is not. It is asked neither for custom
/// sections nor for the code section.
pub fn check(alloc: Global, id: u8, payload: &[u8]) -> Result<Option<Sizes>, AllocError>
    ensures { IfOk result (λ sizes. MatchOption sizes (¬ (InGrammar id payload.now)) (λ s. InGrammar id payload.now × HasSizes id payload.now s)) }
{
    if id < 7 {
        check_before_exports(alloc, id, payload)
    } else {
        check_from_exports(alloc, id, payload)
    }
}

/// Of sections with an id below 7.
fn check_before_exports(alloc: Global, id: u8, payload: &[u8]) -> Result<Option<Sizes>, AllocError>
    requires { id < 7 }
    ensures { IfOk result (λ sizes. MatchOption sizes (¬ (InGrammar id payload.now)) (λ s. InGrammar id payload.now × HasSizes id payload.now s)) }
{
    match id {
        1 => type_sizes(alloc, payload),
        2 => vector_sizes::<FunctionImports>(alloc, payload),
        3 => vector_sizes::<Dropped<FuncEntry>>(alloc, payload),
        4 => vector_sizes::<TableMeasure>(alloc, payload),
        5 => vector_sizes::<Dropped<LimitsEntry>>(alloc, payload),
        6 => vector_sizes::<GlobalMeasure>(alloc, payload),
        _ => Ok(None),
    }
}

/// Of sections with an id from 7 on.
fn check_from_exports(alloc: Global, id: u8, payload: &[u8]) -> Result<Option<Sizes>, AllocError>
    requires { 7 ≤ id }
    ensures { IfOk result (λ sizes. MatchOption sizes (¬ (InGrammar id payload.now)) (λ s. InGrammar id payload.now × HasSizes id payload.now s)) }
{
    match id {
        7 => vector_sizes::<Dropped<ExportEntry>>(alloc, payload),
        8 | 12 => Ok(number_sizes(payload)),
        9 => vector_sizes::<ElementMeasure>(alloc, payload),
        11 => vector_sizes::<SegmentMeasure>(alloc, payload),
        13 => vector_sizes::<Dropped<TagEntry>>(alloc, payload),
        _ => Ok(None),
    }
}
