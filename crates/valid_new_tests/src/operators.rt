// Operators on numbers and vectors.

use crate::exactly::{Row, Tried, is_exact};
use crate::steps::Step;
use crate::steps::Step::Pure;
use crate::trial::{Trial, holds};
use lane_core::operators::{LaneExtract, LaneOp};
use lane_core::vector::Shape::{I8x16, I16x8, I32x4, I64x2};
use lane_core::vector::{Shape, V};
use num_core::operators::Width::{W32, W64};
use num_core::operators::{Bin, Cmp, Conv, Un};
use simd_table::name_of;
use std::alloc::{AllocError, Global};
use std::test::Fail;
use valid_new::Spaces;
use wasm_ast::module::Ty::{I32, I64, V128};
use wasm_ast::module::{Op, Ty};

static NUMBERS: [Row; 18] = [
    (Pure(Op::I32Const(5)), &[], &[I32]),
    (Pure(Op::I64Const(5)), &[], &[I64]),
    (Pure(Op::Eqz(W32)), &[I32], &[I32]),
    (Pure(Op::Eqz(W64)), &[I64], &[I32]),
    (Pure(Op::Compare(W32, Cmp::LtS)), &[I32, I32], &[I32]),
    (Pure(Op::Compare(W64, Cmp::GeU)), &[I64, I64], &[I32]),
    (Pure(Op::Unary(W32, Un::Clz)), &[I32], &[I32]),
    (Pure(Op::Unary(W64, Un::Popcnt)), &[I64], &[I64]),
    (Pure(Op::Binary(W32, Bin::Add)), &[I32, I32], &[I32]),
    (Pure(Op::Binary(W64, Bin::Rotr)), &[I64, I64], &[I64]),
    (Pure(Op::Convert(Conv::Wrap)), &[I64], &[I32]),
    (Pure(Op::Convert(Conv::Ext32S)), &[I32], &[I64]),
    (Pure(Op::Convert(Conv::Ext32U)), &[I32], &[I64]),
    (Pure(Op::Convert(Conv::S8of32)), &[I32], &[I32]),
    (Pure(Op::Convert(Conv::S16of32)), &[I32], &[I32]),
    (Pure(Op::Convert(Conv::S8of64)), &[I64], &[I64]),
    (Pure(Op::Convert(Conv::S16of64)), &[I64], &[I64]),
    (Pure(Op::Convert(Conv::S32of64)), &[I64], &[I64]),
];

#[test]
fn operators_on_numbers_take_and_give_their_types_and_no_others(
    rt: HostRuntime,
) -> Result<(), Fail> {
    assert!(rt; holds(rt.alloc(), Trial::Exact(&[&NUMBERS]))?);
    Ok(())
}

/// Places of a shuffle, with the greatest that there is at both ends.
const PLACES: [u8; 16] = [31, 0, 1, 2, 3, 4, 5, 6, 7, 8, 9, 10, 11, 12, 13, 31];

/// The same with one that is not there, first and last.
const PAST_FIRST: [u8; 16] = [32, 0, 1, 2, 3, 4, 5, 6, 7, 8, 9, 10, 11, 12, 13, 31];

const PAST_LAST: [u8; 16] = [31, 0, 1, 2, 3, 4, 5, 6, 7, 8, 9, 10, 11, 12, 13, 32];

/// The last lane of a shape.
fn last_lane(shape: Shape) -> u8 {
    match shape {
        I8x16 => 15,
        I16x8 => 7,
        I32x4 => 3,
        I64x2 => 1,
    }
}

/// The integer that stands for a lane.
fn lane(shape: Shape) -> &'static [Ty] {
    match shape {
        I8x16 | I16x8 | I32x4 => &[I32],
        I64x2 => &[I64],
    }
}

/// A vector and the integer that stands for a lane.
fn vector_and_lane(shape: Shape) -> &'static [Ty] {
    match shape {
        I8x16 | I16x8 | I32x4 => &[V128, I32],
        I64x2 => &[V128, I64],
    }
}

/// The shape of which a lane is taken.
fn extract_shape(op: LaneExtract) -> Shape {
    match op {
        LaneExtract::I8x16S | LaneExtract::I8x16U => I8x16,
        LaneExtract::I16x8S | LaneExtract::I16x8U => I16x8,
        LaneExtract::I32x4 => I32x4,
        LaneExtract::I64x2 => I64x2,
    }
}

fn splat_row(shape: Shape) -> Row {
    (Pure(Op::Splat(shape)), lane(shape), &[V128])
}

fn extract_row(op: LaneExtract) -> Row {
    let shape = extract_shape(op);
    (
        Pure(Op::Extract(op, last_lane(shape))),
        &[V128],
        lane(shape),
    )
}

fn replace_row(shape: Shape) -> Row {
    (
        Pure(Op::Replace(shape, last_lane(shape))),
        vector_and_lane(shape),
        &[V128],
    )
}

/// A vector instruction that touches no memory, with its greatest immediates, what it takes and what it gives.
fn row_of(op: LaneOp) -> Option<Row> {
    match op {
        LaneOp::Load(_) | LaneOp::Store | LaneOp::LoadLane(_) | LaneOp::StoreLane(_) => None,
        LaneOp::Const => Some((Pure(Op::V128Const(V(7))), &[], &[V128])),
        LaneOp::Shuffle => Some((Pure(Op::Shuffle(PLACES)), &[V128, V128], &[V128])),
        LaneOp::Splat(shape) => Some(splat_row(shape)),
        LaneOp::Extract(op) => Some(extract_row(op)),
        LaneOp::Replace(shape) => Some(replace_row(shape)),
        LaneOp::Bitselect => Some((Pure(Op::Bitselect), &[V128, V128, V128], &[V128])),
        LaneOp::One(op) => Some((Pure(Op::Lanes1(op)), &[V128], &[V128])),
        LaneOp::Two(op) => Some((Pure(Op::Lanes2(op)), &[V128, V128], &[V128])),
        LaneOp::Shift(op) => Some((Pure(Op::ShiftLanes(op)), &[V128, I32], &[V128])),
        LaneOp::Test(op) => Some((Pure(Op::TestLanes(op)), &[V128], &[I32])),
    }
}

/// Whether the vector instruction with this code, if there is one, has its type and no other.
fn is_code_exact(alloc: Global, spaces: &Spaces<'_>, code: u32) -> Result<bool, AllocError> {
    let Some(op) = name_of(code) else {
        return Ok(true);
    };
    let Some((step, takes, gives)) = row_of(op) else {
        return Ok(true);
    };
    is_exact(alloc, spaces, &Tried { step, takes, gives })
}

/// The same of each code.
pub fn are_codes_exact(alloc: Global, spaces: &Spaces<'_>) -> Result<bool, AllocError> {
    for code in 0..0x114 {
        if !is_code_exact(alloc, spaces, code)? {
            return Ok(false);
        }
    }
    Ok(true)
}

#[test]
fn operators_on_vectors_take_and_give_their_types_and_no_others(
    rt: HostRuntime,
) -> Result<(), Fail> {
    assert!(rt; holds(rt.alloc(), Trial::Vectors)?);
    Ok(())
}

/// Lanes at the count of the shape, and places of a shuffle past both vectors.
static PAST_LANES: [Step; 12] = [
    Pure(Op::Shuffle(PAST_FIRST)),
    Pure(Op::Shuffle(PAST_LAST)),
    Pure(Op::Extract(LaneExtract::I8x16S, 16)),
    Pure(Op::Extract(LaneExtract::I8x16U, 16)),
    Pure(Op::Extract(LaneExtract::I16x8S, 8)),
    Pure(Op::Extract(LaneExtract::I16x8U, 8)),
    Pure(Op::Extract(LaneExtract::I32x4, 4)),
    Pure(Op::Extract(LaneExtract::I64x2, 2)),
    Pure(Op::Replace(I8x16, 16)),
    Pure(Op::Replace(I16x8, 8)),
    Pure(Op::Replace(I32x4, 4)),
    Pure(Op::Replace(I64x2, 2)),
];

#[test]
fn lanes_and_places_past_the_last_have_no_type(rt: HostRuntime) -> Result<(), Fail> {
    assert!(rt; holds(rt.alloc(), Trial::Somewhere(&[&PAST_LANES], false))?);
    Ok(())
}
