// Instructions on vectors (the standard's "Vector Instructions").
ghost use Rattle.std.specs.Prelude.{◌≡◌, List, [], ◌∷◌};
ghost use Rattle.evaluation_kit.specs.Leaves.{on_operands};
ghost use Rattle.meaning_new.specs.Store.{State, number};
ghost use Rattle.meaning_new.specs.Numeric.{pure, lane_width};
ghost use Rattle.lane_core.specs.Shapes.{extract_shape};
ghost use Rattle.run_new.specs.Leaves.{Does, IsOnVectors};

use crate::slot::Slot;
use lane_core::operations::{
    bitselect, extract, lanes1, lanes2, replace, shift, shuffle, splat, test,
};
use lane_core::operators::LaneExtract;
use lane_core::vector::{Shape, V};
use num_core::operators::Width;
use run_kit::Change;
use wasm_ast::module::Op;

/// The vector that a value is.
pub(crate) fn vector(value: Slot) -> V
    ensures { result.0 ≡ number value }
{
    V(value.number())
}

/// The width of the integer that a lane of a shape is taken for.
fn lane_width(shape: Shape) -> Width
    ensures { result ≡ lane_width shape }
{
    match shape {
        Shape::I64x2 => Width::W64,
        Shape::I8x16 | Shape::I16x8 | Shape::I32x4 => Width::W32,
    }
}

/// The shape of which a lane is taken.
fn extract_shape(op: LaneExtract) -> Shape
    ensures { result ≡ extract_shape op }
{
    match op {
        LaneExtract::I8x16S | LaneExtract::I8x16U => Shape::I8x16,
        LaneExtract::I16x8S | LaneExtract::I16x8U => Shape::I16x8,
        LaneExtract::I32x4 => Shape::I32x4,
        LaneExtract::I64x2 => Shape::I64x2,
    }
}

/// What extract_lane does.
fn extract_lane(op: LaneExtract, lane: u8, top: Slot) -> Change<Slot>
    ensures { (s : State) → Does (on_operands (pure (Op.Extract op lane))) (top ∷ []) s result s }
{
    let i = extract(op, vector(top), lane);
    Change::Put(1, Slot::of_width(lane_width(extract_shape(op)), i))
}

/// What an instruction on vectors alone does to the topmost operands.
pub(crate) fn vector_operator(op: Op, top: Slot, next: Slot, third: Slot) -> Change<Slot>
    requires { IsOnVectors op }
    ensures { (s : State) → Does (on_operands (pure op)) (top ∷ next ∷ third ∷ []) s result s }
{
    match op {
        Op::V128Const(v) => Change::Put(0, Slot::v128(v.0)),
        Op::Bitselect => Change::Put(
            3,
            Slot::v128(bitselect(vector(third), vector(next), vector(top)).0),
        ),
        Op::Shuffle(places) => {
            Change::Put(2, Slot::v128(shuffle(vector(next), vector(top), places).0))
        }
        Op::Splat(shape) => {
            let i = top.integer(lane_width(shape));
            Change::Put(1, Slot::v128(splat(shape, i).0))
        }
        Op::Extract(op, lane) => extract_lane(op, lane, top),
        Op::Replace(shape, lane) => {
            let i = top.integer(lane_width(shape));
            Change::Put(2, Slot::v128(replace(shape, vector(next), lane, i).0))
        }
        Op::Lanes1(op) => Change::Put(1, Slot::v128(lanes1(op, vector(top)).0)),
        Op::Lanes2(op) => Change::Put(2, Slot::v128(lanes2(op, vector(next), vector(top)).0)),
        Op::ShiftLanes(op) => {
            let count = top.integer(Width::W32) as u32;
            Change::Put(2, Slot::v128(shift(op, vector(next), count).0))
        }
        Op::TestLanes(op) => Change::Put(1, Slot::i32(test(op, vector(top)))),
        _ => Change::Take(0),
    }
}
