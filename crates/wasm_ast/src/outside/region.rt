// Whether a module needs a region: one memory in which its lowered module keeps tables and memories.

ghost use Rattle.std.specs.Prelude.{◌≡◌, not, IfOk};
ghost use Rattle.std.specs.List.{list_any};
ghost use Rattle.wasm_ast.specs.Facts.{facts_of, is_memory_init};
ghost use Rattle.wasm_ast.specs.Places.{anywhere};
ghost use Rattle.wasm_ast.specs.Region.{moves_tables, is_known_offset, has_known_offset, copies_passive, has_computed_offset, needs_region};

use crate::facts::{Facts, IsMemoryInit};
use crate::features::{anywhere_given, has_passive, has_table, has_two_memories};
use crate::folding::{Folded, fold_of, known_globals};
use crate::kept::keeps_table_given;
use crate::module::{Mode, Module, Segment, Ty};
use std::alloc::{AllocError, Global};

/// Whether the tables of the module are moved into memory. It fails for want of memory alone.
pub fn moves_tables(alloc: Global, m: &Module, facts: &Facts) -> Result<bool, AllocError>
    requires { facts.now ≡ facts_of m.now }
    ensures { IfOk result (λ yes. yes ≡ moves_tables m.now) }
{
    Ok(has_table(m) && !keeps_table_given(alloc, m, facts)?)
}

/// Whether the module needs a region, where it is known whether its tables are moved. It fails for want of memory
/// alone.
pub fn needs_region_given(
    alloc: Global,
    m: &Module,
    facts: &Facts,
    moved: bool,
) -> Result<bool, AllocError>
    requires facts { facts.now ≡ facts_of m.now }
    requires moved { moved ≡ moves_tables m.now }
    ensures { IfOk result (λ yes. yes ≡ needs_region m.now) }
{
    if has_two_memories(m) || copies_passive(m, facts) || moved {
        return Ok(true);
    }
    has_computed_offset(alloc, m)
}

/// Whether there is a passive data segment and an instruction that copies from one.
fn copies_passive(m: &Module, facts: &Facts) -> bool
    requires { facts.now ≡ facts_of m.now }
    ensures { result ≡ copies_passive m.now }
{
    has_passive(m.datas.as_slice()) && anywhere_given(facts.memory_init, &IsMemoryInit, m)
}

/// Whether the offset of an active data segment folds neither to a constant nor to an imported i32 global.
fn has_computed_offset(alloc: Global, m: &Module) -> Result<bool, AllocError>
    ensures { IfOk result (λ yes. yes ≡ has_computed_offset m.now) }
{
    let known = known_globals(alloc, m)?;
    some_computed(alloc, known.as_slice(), m.datas.as_slice())
}

fn some_computed(
    alloc: Global,
    known: &[Option<Folded>],
    segments: &[Segment],
) -> Result<bool, AllocError>
    ensures { IfOk result (λ yes. yes ≡ list_any (λ s. not (has_known_offset known.now s.mode)) segments.now) }
{
    for segment in segments {
        if !has_known_offset(alloc, known, &segment.mode)? {
            return Ok(true);
        }
    }
    Ok(false)
}

fn has_known_offset(
    alloc: Global,
    known: &[Option<Folded>],
    mode: &Mode,
) -> Result<bool, AllocError>
    ensures { IfOk result (λ yes. yes ≡ has_known_offset known.now mode.now) }
{
    match mode {
        Mode::Active(_, offset) => Ok(is_known_offset(fold_of(alloc, known, offset.as_slice())?)),
        _ => Ok(true),
    }
}

fn is_known_offset(folded: Option<Folded>) -> bool
    ensures { result ≡ is_known_offset folded }
{
    matches!(
        folded,
        Some(Folded::I32(_) | Folded::I64(_) | Folded::Imported(_, Ty::I32))
    )
}
