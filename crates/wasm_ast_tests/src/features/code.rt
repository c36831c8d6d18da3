use lane_core::operators::LaneLoad;
use lane_core::vector::Shape;
use num_core::operators::Load;
use wasm_ast::features::Feature;
use wasm_ast::module::{FloatCode, FloatImmediates, Instr, MemArg};

const AT: MemArg = MemArg {
    memory: 0,
    align: 0,
    offset: 0,
};

/// Instructions other than operators, and what they show in a body.
pub fn instrs() -> [(Instr, &'static [Feature]); 26] {
    let float = Instr::Float(FloatCode::Plain(0x92), FloatImmediates::None);
    [
        (Instr::Call(0), &[]),
        (Instr::CallIndirect(0, 0), &[]),
        (Instr::Select, &[]),
        (Instr::Load(Load::I32, AT), &[]),
        (Instr::MemoryGrow(0), &[]),
        (float, &[Feature::Floats]),
        (Instr::LoadVector(LaneLoad::Whole, AT), &[Feature::Simd]),
        (
            Instr::LoadVector(LaneLoad::Load8Splat, AT),
            &[Feature::Simd],
        ),
        (Instr::StoreVector(AT), &[Feature::Simd]),
        (
            Instr::LoadVector(LaneLoad::Load8x8S, AT),
            &[Feature::LateLanes],
        ),
        (Instr::LoadLane(Shape::I8x16, AT, 0), &[Feature::LateLanes]),
        (Instr::StoreLane(Shape::I8x16, AT, 0), &[Feature::LateLanes]),
        (Instr::ReturnCall(0), &[Feature::Tail]),
        (Instr::ReturnCallIndirect(0, 0), &[Feature::Tail]),
        (Instr::TableGet(0), &[Feature::Tables]),
        (Instr::TableSet(0), &[Feature::Tables]),
        (Instr::TableInit(0, 0), &[Feature::Tables]),
        (Instr::ElemDrop(0), &[Feature::Tables]),
        (Instr::TableCopy(0, 0), &[Feature::Tables]),
        (Instr::TableSize(0), &[Feature::Tables]),
        (Instr::Throw(0), &[Feature::Exceptions]),
        (Instr::ThrowRef, &[Feature::Exceptions]),
        (Instr::MemoryInit(0, 0), &[Feature::Bulk]),
        (Instr::DataDrop(0), &[Feature::Bulk]),
        (Instr::MemoryCopy(0, 0), &[Feature::Bulk]),
        (Instr::MemoryFill(0), &[Feature::Bulk]),
    ]
}
