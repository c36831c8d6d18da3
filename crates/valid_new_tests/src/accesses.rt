// Loads and stores at each alignment, and at offsets of 32 and 64 bits.

use crate::exactly::{Tried, is_exact, is_typed_somewhere};
use crate::steps::Access::{Load, LoadLane, LoadVector, Store, StoreLane, StoreVector};
use crate::steps::{self, Step};
use crate::trial::{Trial, holds};
use lane_core::operators::LaneLoad;
use lane_core::vector::Shape::{I8x16, I16x8, I32x4, I64x2};
use std::alloc::{AllocError, Global};
use std::test::Fail;
use valid_new::Spaces;
use wasm_ast::module::Ty::{I32, I64, V128};
use wasm_ast::module::{MemArg, Ty};

/// A load or a store, the exponent of its natural alignment, what it takes above the address, and what it gives.
type AccessRow = (steps::Access, u32, &'static [Ty], &'static [Ty]);

static INTEGERS: [AccessRow; 19] = [
    (Load(num_core::operators::Load::I32), 2, &[], &[I32]),
    (Load(num_core::operators::Load::I64), 3, &[], &[I64]),
    (Load(num_core::operators::Load::I32From8S), 0, &[], &[I32]),
    (Load(num_core::operators::Load::I32From8U), 0, &[], &[I32]),
    (Load(num_core::operators::Load::I32From16S), 1, &[], &[I32]),
    (Load(num_core::operators::Load::I32From16U), 1, &[], &[I32]),
    (Load(num_core::operators::Load::I64From8S), 0, &[], &[I64]),
    (Load(num_core::operators::Load::I64From8U), 0, &[], &[I64]),
    (Load(num_core::operators::Load::I64From16S), 1, &[], &[I64]),
    (Load(num_core::operators::Load::I64From16U), 1, &[], &[I64]),
    (Load(num_core::operators::Load::I64From32S), 2, &[], &[I64]),
    (Load(num_core::operators::Load::I64From32U), 2, &[], &[I64]),
    (Store(num_core::operators::Store::I32), 2, &[I32], &[]),
    (Store(num_core::operators::Store::I64), 3, &[I64], &[]),
    (Store(num_core::operators::Store::I32To8), 0, &[I32], &[]),
    (Store(num_core::operators::Store::I32To16), 1, &[I32], &[]),
    (Store(num_core::operators::Store::I64To8), 0, &[I64], &[]),
    (Store(num_core::operators::Store::I64To16), 1, &[I64], &[]),
    (Store(num_core::operators::Store::I64To32), 2, &[I64], &[]),
];

static LANES: [AccessRow; 22] = [
    (LoadVector(LaneLoad::Whole), 4, &[], &[V128]),
    (LoadVector(LaneLoad::Load8x8S), 3, &[], &[V128]),
    (LoadVector(LaneLoad::Load8x8U), 3, &[], &[V128]),
    (LoadVector(LaneLoad::Load16x4S), 3, &[], &[V128]),
    (LoadVector(LaneLoad::Load16x4U), 3, &[], &[V128]),
    (LoadVector(LaneLoad::Load32x2S), 3, &[], &[V128]),
    (LoadVector(LaneLoad::Load32x2U), 3, &[], &[V128]),
    (LoadVector(LaneLoad::Load8Splat), 0, &[], &[V128]),
    (LoadVector(LaneLoad::Load16Splat), 1, &[], &[V128]),
    (LoadVector(LaneLoad::Load32Splat), 2, &[], &[V128]),
    (LoadVector(LaneLoad::Load64Splat), 3, &[], &[V128]),
    (LoadVector(LaneLoad::Load32Zero), 2, &[], &[V128]),
    (LoadVector(LaneLoad::Load64Zero), 3, &[], &[V128]),
    (StoreVector, 4, &[V128], &[]),
    (LoadLane(I8x16, 15), 0, &[V128], &[V128]),
    (LoadLane(I16x8, 7), 1, &[V128], &[V128]),
    (LoadLane(I32x4, 3), 2, &[V128], &[V128]),
    (LoadLane(I64x2, 1), 3, &[V128], &[V128]),
    (StoreLane(I8x16, 15), 0, &[V128], &[]),
    (StoreLane(I16x8, 7), 1, &[V128], &[]),
    (StoreLane(I32x4, 3), 2, &[V128], &[]),
    (StoreLane(I64x2, 1), 3, &[V128], &[]),
];

/// Accesses to the lane at the count of the shape.
static PAST_LANE_ACCESSES: [steps::Access; 8] = [
    LoadLane(I8x16, 16),
    LoadLane(I16x8, 8),
    LoadLane(I32x4, 4),
    LoadLane(I64x2, 2),
    StoreLane(I8x16, 16),
    StoreLane(I16x8, 8),
    StoreLane(I32x4, 4),
    StoreLane(I64x2, 2),
];

/// The access at this memory, alignment and offset.
fn at(access: steps::Access, memory: u32, align: u32, offset: u64) -> Step {
    Step::Access(
        access,
        MemArg {
            memory,
            align,
            offset,
        },
    )
}

/// The type of an address, and these types above it.
fn above(alloc: Global, address: Ty, rest: &[Ty]) -> Result<Vec<Ty>, AllocError> {
    let mut takes = Vec::new(alloc);
    takes.push(address)?;
    for ty in rest {
        takes.push(*ty)?;
    }
    Ok(takes)
}

/// Whether the access to this memory takes these types, with alignments to the natural one.
fn is_exact_to_natural(
    alloc: Global,
    spaces: &Spaces<'_>,
    row: &AccessRow,
    memory: u32,
    takes: &[Ty],
) -> Result<bool, AllocError> {
    let (access, natural, _, gives) = row;
    for align in 0..natural.wrapping_add(1) {
        let step = at(*access, memory, align, 8);
        if !is_exact(alloc, spaces, &Tried { step, takes, gives })? {
            return Ok(false);
        }
    }
    Ok(true)
}

/// Whether the access to this memory takes an address of this type, with alignments to the natural one.
fn is_access_exact(
    alloc: Global,
    spaces: &Spaces<'_>,
    row: &AccessRow,
    memory: u32,
    address: Ty,
) -> Result<bool, AllocError> {
    let takes = above(alloc, address, row.2)?;
    is_exact_to_natural(alloc, spaces, row, memory, takes.as_slice())
}

/// Whether no alignment past the natural one is typed, and none that is no exponent.
fn is_alignment_bounded(
    alloc: Global,
    spaces: &Spaces<'_>,
    access: steps::Access,
    natural: u32,
) -> Result<bool, AllocError> {
    for align in &[natural.wrapping_add(1), 32, 63] {
        if is_typed_somewhere(alloc, spaces, at(access, 0, *align, 0))? {
            return Ok(false);
        }
    }
    Ok(true)
}

/// A memory, an offset, and whether an access there is typed.
static OFFSETS: [(u32, u64, bool); 5] = [
    (0, 0xFFFF_FFFF, true),
    (0, 0x1_0000_0000, false),
    (1, 0x1_0000_0000, true),
    (1, u64::MAX, true),
    (2, 0, false),
];

/// Whether the access is typed just where its memory is there and its offset an address of the memory.
fn is_offset_exact(
    alloc: Global,
    spaces: &Spaces<'_>,
    access: steps::Access,
) -> Result<bool, AllocError> {
    for (memory, offset, typed) in &OFFSETS {
        if is_typed_somewhere(alloc, spaces, at(access, *memory, 0, *offset))? != *typed {
            return Ok(false);
        }
    }
    Ok(true)
}

/// Whether an access is typed with its operands, alignments and offsets, and no others.
fn is_row_exact(alloc: Global, spaces: &Spaces<'_>, row: &AccessRow) -> Result<bool, AllocError> {
    Ok(
        is_access_exact(alloc, spaces, row, 0, I32)?
            && is_access_exact(alloc, spaces, row, 1, I64)?
            && is_alignment_bounded(alloc, spaces, row.0, row.1)?
            && is_offset_exact(alloc, spaces, row.0)?,
    )
}

/// The same of each access.
fn are_accesses_exact(
    alloc: Global,
    spaces: &Spaces<'_>,
    rows: &[AccessRow],
) -> Result<bool, AllocError> {
    for row in rows {
        if !is_row_exact(alloc, spaces, row)? {
            return Ok(false);
        }
    }
    Ok(true)
}

/// Whether none of the accesses is typed.
fn are_untyped(
    alloc: Global,
    spaces: &Spaces<'_>,
    accesses: &[steps::Access],
) -> Result<bool, AllocError> {
    for access in accesses {
        if is_typed_somewhere(alloc, spaces, at(*access, 0, 0, 0))? {
            return Ok(false);
        }
    }
    Ok(true)
}

/// Whether each access has its operands, alignments and offsets and no others, and none names a lane past the last.
pub fn are_accesses_told(alloc: Global, spaces: &Spaces<'_>) -> Result<bool, AllocError> {
    Ok(
        are_accesses_exact(alloc, spaces, &INTEGERS)?
            && are_accesses_exact(alloc, spaces, &LANES)?
            && are_untyped(alloc, spaces, &PAST_LANE_ACCESSES)?,
    )
}

#[test]
fn accesses_take_an_address_of_their_memory_and_alignments_to_the_natural_one(
    rt: HostRuntime,
) -> Result<(), Fail> {
    assert!(rt; holds(rt.alloc(), Trial::Accesses)?);
    Ok(())
}
