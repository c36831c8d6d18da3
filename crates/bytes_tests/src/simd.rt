// `simd_table`: rows of each kind both ways, and codes without a row.

use lane_core::operators::{Lane1, Lane2, LaneExtract, LaneLoad, LaneOp, LaneShift};
use lane_core::vector::Shape;
use simd_table::{code_of, name_of};

static ROWS: [(u32, LaneOp); 10] = [
    (0, LaneOp::Load(LaneLoad::Whole)),
    (11, LaneOp::Store),
    (12, LaneOp::Const),
    (22, LaneOp::Extract(LaneExtract::I8x16U)),
    (30, LaneOp::Replace(Shape::I64x2)),
    (91, LaneOp::StoreLane(Shape::I64x2)),
    (160, LaneOp::One(Lane1::I32x4Abs)),
    (204, LaneOp::Shift(LaneShift::I64x2ShrS)),
    (214, LaneOp::Two(Lane2::I64x2Eq)),
    (223, LaneOp::Two(Lane2::I64x2ExtmulHighI32x4U)),
];

#[test]
fn codes_of_the_standard(rt: HostRuntime) {
    for (code, op) in &ROWS {
        assert!(rt;
            name_of(*code) == Some(*op) && code_of(*op) == *code,
            "{code}"
        );
    }
}

#[test]
fn codes_of_no_integer_instruction(rt: HostRuntime) {
    for code in [19, 65, 154, 224, 253, 256, 268, u32::MAX] {
        assert!(rt; name_of(code).is_none(), "{code}");
    }
}
