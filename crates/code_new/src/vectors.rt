// Instructions behind the prefix FD.

ghost use Rattle.std.specs.Prelude.{◌≡◌};
ghost use Rattle.grammar_kit.specs.Gives.{GivesOption};
ghost use Rattle.lane_core.specs.declared.operators.named.LaneOp.TheVariants.{Load, Store, LoadLane, StoreLane, Const, Shuffle, Extract, Replace};
ghost use Rattle.code_new.specs.Vectors.{lane_instr, names_float_lane, is_float_lanes, float_lanes, behind_fd};

use crate::immediates::{read_array, split_mem_arg};
use grammar_kit::read_byte;
use lane_core::operators::{LaneExtract, LaneLoad, LaneOp};
use lane_core::vector::{Shape, V};
use simd_table::name_of;
use wasm_ast::module::{FloatCode, FloatImmediates, Instr, Op};
use wasm_frame::leb128::split_u32;

/// A load of a vector, with its memory argument at the front.
#[tactic(auto, unfolding(crate::specs::Vectors::lane_instr))]
fn load(op: LaneLoad, bytes: &[u8]) -> Option<(Instr, &[u8])>
    ensures { GivesOption (λ p. (p.0, p.1.now)) result ((lane_instr (Load op)).read bytes.now) }
{
    let (at, rest) = split_mem_arg(bytes)?;
    Some((Instr::LoadVector(op, at), rest))
}

/// v128.store, with its memory argument at the front.
#[tactic(auto, unfolding(crate::specs::Vectors::lane_instr))]
fn store(bytes: &[u8]) -> Option<(Instr, &[u8])>
    ensures { GivesOption (λ p. (p.0, p.1.now)) result ((lane_instr Store).read bytes.now) }
{
    let (at, rest) = split_mem_arg(bytes)?;
    Some((Instr::StoreVector(at), rest))
}

/// A load of one lane, with its memory argument and the number of the lane at the front.
#[tactic(auto, unfolding(crate::specs::Vectors::lane_instr))]
fn load_lane(shape: Shape, bytes: &[u8]) -> Option<(Instr, &[u8])>
    ensures { GivesOption (λ p. (p.0, p.1.now)) result ((lane_instr (LoadLane shape)).read bytes.now) }
{
    let (at, rest) = split_mem_arg(bytes)?;
    let (lane, rest) = read_byte(rest)?;
    Some((Instr::LoadLane(shape, at, lane), rest))
}

/// A store of one lane, with its memory argument and the number of the lane at the front.
#[tactic(auto, unfolding(crate::specs::Vectors::lane_instr))]
fn store_lane(shape: Shape, bytes: &[u8]) -> Option<(Instr, &[u8])>
    ensures { GivesOption (λ p. (p.0, p.1.now)) result ((lane_instr (StoreLane shape)).read bytes.now) }
{
    let (at, rest) = split_mem_arg(bytes)?;
    let (lane, rest) = read_byte(rest)?;
    Some((Instr::StoreLane(shape, at, lane), rest))
}

/// v128.const, with its 16 bytes at the front.
#[tactic(auto, unfolding(crate::specs::Vectors::lane_instr))]
fn constant(bytes: &[u8]) -> Option<(Instr, &[u8])>
    ensures { GivesOption (λ p. (p.0, p.1.now)) result ((lane_instr Const).read bytes.now) }
{
    let (bytes, rest) = read_array::<16>(bytes)?;
    let value = V(u128::from_le_bytes(bytes));
    Some((Instr::Pure(Op::V128Const(value)), rest))
}

/// i8x16.shuffle, with its 16 places at the front.
#[tactic(auto, unfolding(crate::specs::Vectors::lane_instr))]
fn shuffle(bytes: &[u8]) -> Option<(Instr, &[u8])>
    ensures { GivesOption (λ p. (p.0, p.1.now)) result ((lane_instr Shuffle).read bytes.now) }
{
    let (places, rest) = read_array::<16>(bytes)?;
    Some((Instr::Pure(Op::Shuffle(places)), rest))
}

/// An extract_lane, with the number of the lane at the front.
#[tactic(auto, unfolding(crate::specs::Vectors::lane_instr))]
fn extract(op: LaneExtract, bytes: &[u8]) -> Option<(Instr, &[u8])>
    ensures { GivesOption (λ p. (p.0, p.1.now)) result ((lane_instr (Extract op)).read bytes.now) }
{
    let (lane, rest) = read_byte(bytes)?;
    Some((Instr::Pure(Op::Extract(op, lane)), rest))
}

/// A replace_lane, with the number of the lane at the front.
#[tactic(auto, unfolding(crate::specs::Vectors::lane_instr))]
fn replace(shape: Shape, bytes: &[u8]) -> Option<(Instr, &[u8])>
    ensures { GivesOption (λ p. (p.0, p.1.now)) result ((lane_instr (Replace shape)).read bytes.now) }
{
    let (lane, rest) = read_byte(bytes)?;
    Some((Instr::Pure(Op::Replace(shape, lane)), rest))
}

/// The vector instruction, with its immediates at the front, and the bytes after them.
#[tactic(auto, unfolding(crate::specs::Vectors::lane_instr))]
fn lane_instr(op: LaneOp, bytes: &[u8]) -> Option<(Instr, &[u8])>
    ensures { GivesOption (λ p. (p.0, p.1.now)) result ((lane_instr op).read bytes.now) }
{
    match op {
        LaneOp::Load(op) => load(op, bytes),
        LaneOp::Store => store(bytes),
        LaneOp::LoadLane(shape) => load_lane(shape, bytes),
        LaneOp::StoreLane(shape) => store_lane(shape, bytes),
        LaneOp::Const => constant(bytes),
        LaneOp::Shuffle => shuffle(bytes),
        LaneOp::Extract(op) => extract(op, bytes),
        LaneOp::Replace(shape) => replace(shape, bytes),
        LaneOp::Splat(shape) => Some((Instr::Pure(Op::Splat(shape)), bytes)),
        LaneOp::Bitselect => Some((Instr::Pure(Op::Bitselect), bytes)),
        LaneOp::One(op) => Some((Instr::Pure(Op::Lanes1(op)), bytes)),
        LaneOp::Two(op) => Some((Instr::Pure(Op::Lanes2(op)), bytes)),
        LaneOp::Shift(op) => Some((Instr::Pure(Op::ShiftLanes(op)), bytes)),
        LaneOp::Test(op) => Some((Instr::Pure(Op::TestLanes(op)), bytes)),
    }
}

/// Whether the number behind FD is that of an instruction on one lane of floats.
#[tactic(auto, unfolding(crate::specs::Vectors::names_float_lane))]
fn names_float_lane(number: u32) -> bool
    ensures { result ≡ names_float_lane number }
{
    matches!(number, 31..=34)
}

/// Whether the number behind FD is that of an instruction on lanes of floats without immediates.
#[tactic(auto, unfolding(crate::specs::Vectors::is_float_lanes))]
fn is_float_lanes(number: u32) -> bool
    ensures { result ≡ is_float_lanes number }
{
    matches!(
        number,
        19..=20
            | 65..=76
            | 94..=95
            | 103..=106
            | 116..=117
            | 122
            | 148
            | 224..=225
            | 227..=237
            | 239..=255
    )
}

/// The instruction on lanes of floats of a number behind FD, with its immediates at the front, and the bytes after them.
#[tactic(auto, unfolding(crate::specs::Vectors::float_lanes))]
fn float_lanes(number: u32, bytes: &[u8]) -> Option<(Instr, &[u8])>
    ensures { GivesOption (λ p. (p.0, p.1.now)) result ((float_lanes number).read bytes.now) }
{
    let code = FloatCode::Vector(number);
    if names_float_lane(number) {
        let (lane, rest) = read_byte(bytes)?;
        Some((Instr::Float(code, FloatImmediates::Lane(lane)), rest))
    } else if is_float_lanes(number) {
        Some((Instr::Float(code, FloatImmediates::None), bytes))
    } else {
        None
    }
}

/// The rest of an instruction whose opcode is FD, and the bytes after it ("Vector Instructions" of the standard).
#[tactic(auto, unfolding(crate::specs::Vectors::behind_fd))]
pub fn behind_fd(bytes: &[u8]) -> Option<(Instr, &[u8])>
    ensures { GivesOption (λ p. (p.0, p.1.now)) result (behind_fd.read bytes.now) }
{
    let (number, rest) = split_u32(bytes)?;
    match name_of(number) {
        Some(op) => lane_instr(op, rest),
        None => float_lanes(number, rest),
    }
}
