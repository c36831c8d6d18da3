// Which vector instructions are built late.

ghost use Rattle.std.specs.Prelude.{◌≡◌};
ghost use Rattle.wasm_ast.specs.LateLanes.{is_late1, is_late2, is_late_load, narrows, saturates, picks, multiplies_halves};

use lane_core::operators::{Lane1, Lane2, LaneLoad};

/// Whether a vector from one vector is built late.
#[tactic(auto, unfolding(crate::specs::LateLanes::is_late1))]
pub fn is_late1(op: Lane1) -> bool
    ensures { result ≡ is_late1 op }
{
    matches!(
        op,
        Lane1::I8x16Abs
            | Lane1::I8x16Popcnt
            | Lane1::I16x8Abs
            | Lane1::I16x8ExtaddPairwiseI8x16S
            | Lane1::I16x8ExtaddPairwiseI8x16U
            | Lane1::I16x8ExtendLowI8x16S
            | Lane1::I16x8ExtendHighI8x16S
            | Lane1::I16x8ExtendLowI8x16U
            | Lane1::I16x8ExtendHighI8x16U
            | Lane1::I32x4Abs
            | Lane1::I32x4ExtaddPairwiseI16x8S
            | Lane1::I32x4ExtaddPairwiseI16x8U
            | Lane1::I32x4ExtendLowI16x8S
            | Lane1::I32x4ExtendHighI16x8S
            | Lane1::I32x4ExtendLowI16x8U
            | Lane1::I32x4ExtendHighI16x8U
            | Lane1::I64x2Abs
            | Lane1::I64x2ExtendLowI32x4S
            | Lane1::I64x2ExtendHighI32x4S
            | Lane1::I64x2ExtendLowI32x4U
            | Lane1::I64x2ExtendHighI32x4U
    )
}

/// Whether a vector from two vectors is built late.
#[tactic(auto, unfolding(crate::specs::LateLanes::is_late2))]
pub fn is_late2(op: Lane2) -> bool
    ensures { result ≡ is_late2 op }
{
    narrows(op) || saturates(op) || picks(op) || multiplies_halves(op)
}

/// Whether a load of a vector is built late.
#[tactic(auto, unfolding(crate::specs::LateLanes::is_late_load))]
pub fn is_late_load(op: LaneLoad) -> bool
    ensures { result ≡ is_late_load op }
{
    matches!(
        op,
        LaneLoad::Load8x8S
            | LaneLoad::Load8x8U
            | LaneLoad::Load16x4S
            | LaneLoad::Load16x4U
            | LaneLoad::Load32x2S
            | LaneLoad::Load32x2U
            | LaneLoad::Load32Zero
            | LaneLoad::Load64Zero
    )
}

/// Whether it narrows lanes.
#[tactic(auto, unfolding(crate::specs::LateLanes::narrows))]
fn narrows(op: Lane2) -> bool
    ensures { result ≡ narrows op }
{
    matches!(
        op,
        Lane2::I8x16NarrowI16x8S
            | Lane2::I8x16NarrowI16x8U
            | Lane2::I16x8NarrowI32x4S
            | Lane2::I16x8NarrowI32x4U
    )
}

/// Whether its lanes are saturated sums, differences or fixed-point products.
#[tactic(auto, unfolding(crate::specs::LateLanes::saturates))]
fn saturates(op: Lane2) -> bool
    ensures { result ≡ saturates op }
{
    matches!(
        op,
        Lane2::I8x16AddSatS
            | Lane2::I8x16AddSatU
            | Lane2::I8x16SubSatS
            | Lane2::I8x16SubSatU
            | Lane2::I16x8AddSatS
            | Lane2::I16x8AddSatU
            | Lane2::I16x8SubSatS
            | Lane2::I16x8SubSatU
            | Lane2::I16x8Q15mulrSatS
    )
}

/// Whether its lanes are the lesser, the greater or the average of both.
#[tactic(auto, unfolding(crate::specs::LateLanes::picks))]
fn picks(op: Lane2) -> bool
    ensures { result ≡ picks op }
{
    matches!(
        op,
        Lane2::I8x16MinS
            | Lane2::I8x16MinU
            | Lane2::I8x16MaxS
            | Lane2::I8x16MaxU
            | Lane2::I8x16AvgrU
            | Lane2::I16x8MinS
            | Lane2::I16x8MinU
            | Lane2::I16x8MaxS
            | Lane2::I16x8MaxU
            | Lane2::I16x8AvgrU
            | Lane2::I32x4MinS
            | Lane2::I32x4MinU
            | Lane2::I32x4MaxS
            | Lane2::I32x4MaxU
    )
}

/// Whether its lanes are products of halves or sums of products.
#[tactic(auto, unfolding(crate::specs::LateLanes::multiplies_halves))]
fn multiplies_halves(op: Lane2) -> bool
    ensures { result ≡ multiplies_halves op }
{
    matches!(
        op,
        Lane2::I16x8ExtmulLowI8x16S
            | Lane2::I16x8ExtmulHighI8x16S
            | Lane2::I16x8ExtmulLowI8x16U
            | Lane2::I16x8ExtmulHighI8x16U
            | Lane2::I32x4DotI16x8S
            | Lane2::I32x4ExtmulLowI16x8S
            | Lane2::I32x4ExtmulHighI16x8S
            | Lane2::I32x4ExtmulLowI16x8U
            | Lane2::I32x4ExtmulHighI16x8U
            | Lane2::I64x2ExtmulLowI32x4S
            | Lane2::I64x2ExtmulHighI32x4S
            | Lane2::I64x2ExtmulLowI32x4U
            | Lane2::I64x2ExtmulHighI32x4U
    )
}
