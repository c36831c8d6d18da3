// Which instructions show which feature, whatever their bodies hold.

ghost use Rattle.std.specs.Prelude.{◌≡◌};
ghost use Rattle.std.specs.List.{list_any};
ghost use Rattle.wasm_ast.specs.Occurrence.{head_of};
ghost use Rattle.wasm_ast.specs.Features.{type_shows, types_named, block_types, is_sign, is_indexed, is_early_lanes, is_late_lanes, is_on_tables, is_bulk, shows_itself, shows};

use super::kind::Feature;
use super::lanes::{is_late_load, is_late1, is_late2};
use super::types::{type_shows, types_show};
use crate::module::{BlockType, Instr, Op};
use crate::occurrence::InstrTest;
use num_core::operators::Conv;

/// The test of instructions that show this feature.
#[derive(Clone, Copy)]
pub struct Shows {
    /// The feature.
    pub feature: Feature,
}

impl InstrTest for Shows {
    ghost test = { λ s. shows s.feature };

    fn passes(&self, instr: &Instr) -> bool {
        shows_itself(instr, self.feature) || names_type(instr, self.feature)
    }
}

/// Whether the instruction names a value type that shows the feature.
fn names_type(instr: &Instr, feature: Feature) -> bool
    ensures { result ≡ list_any (type_shows feature) (types_named (head_of instr.now)) }
{
    match instr {
        Instr::Block(ty, _)
        | Instr::Loop(ty, _)
        | Instr::If(ty, _, _)
        | Instr::TryTable(ty, _, _) => block_type_shows(*ty, feature),
        Instr::SelectTyped(types) => types_show(types.as_slice(), feature),
        Instr::Pure(Op::RefNull(ty)) => type_shows(*ty, feature),
        _ => false,
    }
}

/// Whether the block type is a value type that shows the feature.
fn block_type_shows(ty: BlockType, feature: Feature) -> bool
    ensures { result ≡ list_any (type_shows feature) (block_types ty) }
{
    match ty {
        BlockType::One(ty) => type_shows(ty, feature),
        BlockType::Empty | BlockType::Index(_) => false,
    }
}

/// Whether the instruction shows the feature, whatever types it names.
fn shows_itself(instr: &Instr, feature: Feature) -> bool
    ensures { result ≡ shows_itself feature (head_of instr.now) }
{
    match feature {
        Feature::Floats => matches!(instr, Instr::Float(_, _)),
        Feature::Sign => is_sign(instr),
        Feature::Multi => is_indexed(instr),
        Feature::TypedSelect => matches!(instr, Instr::SelectTyped(_)),
        Feature::Simd => is_early_lanes(instr),
        Feature::LateLanes => is_late_lanes(instr),
        Feature::Tail => matches!(
            instr,
            Instr::ReturnCall(_) | Instr::ReturnCallIndirect(_, _)
        ),
        Feature::Refs => matches!(instr, Instr::Pure(Op::RefFunc(_))),
        Feature::Tables => is_on_tables(instr),
        Feature::Exceptions => matches!(
            instr,
            Instr::Throw(_) | Instr::ThrowRef | Instr::TryTable(_, _, _)
        ),
        Feature::Bulk => is_bulk(instr),
        _ => false,
    }
}

/// Whether it extends the sign of the lowest bits of an integer.
fn is_sign(instr: &Instr) -> bool
    ensures { result ≡ is_sign (head_of instr.now) }
{
    matches!(
        instr,
        Instr::Pure(Op::Convert(
            Conv::S8of32 | Conv::S16of32 | Conv::S8of64 | Conv::S16of64 | Conv::S32of64
        ))
    )
}

/// Whether its block type is an index.
fn is_indexed(instr: &Instr) -> bool
    ensures { result ≡ is_indexed (head_of instr.now) }
{
    matches!(
        instr,
        Instr::Block(BlockType::Index(_), _)
            | Instr::Loop(BlockType::Index(_), _)
            | Instr::If(BlockType::Index(_), _, _)
            | Instr::TryTable(BlockType::Index(_), _, _)
    )
}

/// Whether it is a vector instruction that is not built late.
fn is_early_lanes(instr: &Instr) -> bool
    ensures { result ≡ is_early_lanes (head_of instr.now) }
{
    match instr {
        Instr::LoadVector(op, _) => !is_late_load(*op),
        Instr::StoreVector(_) => true,
        Instr::Pure(Op::Lanes1(op)) => !is_late1(*op),
        Instr::Pure(Op::Lanes2(op)) => !is_late2(*op),
        Instr::Pure(
            Op::V128Const(_)
            | Op::Shuffle(_)
            | Op::Splat(_)
            | Op::Extract(_, _)
            | Op::Replace(_, _)
            | Op::Bitselect
            | Op::ShiftLanes(_)
            | Op::TestLanes(_),
        ) => true,
        _ => false,
    }
}

/// Whether it is a vector instruction that is built late.
fn is_late_lanes(instr: &Instr) -> bool
    ensures { result ≡ is_late_lanes (head_of instr.now) }
{
    match instr {
        Instr::LoadVector(op, _) => is_late_load(*op),
        Instr::LoadLane(_, _, _) | Instr::StoreLane(_, _, _) => true,
        Instr::Pure(Op::Lanes1(op)) => is_late1(*op),
        Instr::Pure(Op::Lanes2(op)) => is_late2(*op),
        _ => false,
    }
}

/// Whether it reads, changes or asks for a table, or drops an element segment.
fn is_on_tables(instr: &Instr) -> bool
    ensures { result ≡ is_on_tables (head_of instr.now) }
{
    matches!(
        instr,
        Instr::TableGet(_)
            | Instr::TableSet(_)
            | Instr::TableInit(_, _)
            | Instr::ElemDrop(_)
            | Instr::TableCopy(_, _)
            | Instr::TableGrow(_)
            | Instr::TableSize(_)
            | Instr::TableFill(_)
    )
}

/// Whether it is a bulk instruction on memories.
fn is_bulk(instr: &Instr) -> bool
    ensures { result ≡ is_bulk (head_of instr.now) }
{
    matches!(
        instr,
        Instr::MemoryInit(_, _)
            | Instr::DataDrop(_)
            | Instr::MemoryCopy(_, _)
            | Instr::MemoryFill(_)
    )
}
