ghost use Rattle.std.specs.Prelude.{◌≡◌, ℕ, Some};
ghost use Rattle.simd_table.specs.Codes.{name_of};
ghost use Rattle.lane_core.specs.declared.operators.named.LaneOp.TheVariants.{Load, LoadLane, StoreLane, Splat, Extract, Replace, One, Two, Shift, Test};

use lane_core::operators::{Lane1, Lane2, LaneExtract, LaneLoad, LaneOp, LaneShift, LaneTest};
use lane_core::vector::Shape;

/// The code of the instruction, which is the number after the byte FD (the standard's "Vector Instructions" of the
/// binary format). No other code stands for the instruction.
pub fn code_of(op: LaneOp) -> u32
    ensures row { name_of result ≡ Some op }
    ensures alone { (code : ℕ) → name_of code ≡ Some op → code ≡ result }
{
    u32::from(row_of(op))
}

/// The code of the instruction: none passes a byte.
#[tactic(auto, using(crate::proofs::Tables::single_rows))]
fn row_of(op: LaneOp) -> u8
    ensures { name_of result ≡ Some op }
{
    match op {
        LaneOp::Load(load) => load_code(load),
        LaneOp::Store => 11,
        LaneOp::LoadLane(shape) => load_lane_code(shape),
        LaneOp::StoreLane(shape) => store_lane_code(shape),
        LaneOp::Const => 12,
        LaneOp::Shuffle => 13,
        LaneOp::Splat(shape) => splat_code(shape),
        LaneOp::Extract(extract) => extract_code(extract),
        LaneOp::Replace(shape) => replace_code(shape),
        LaneOp::Bitselect => 82,
        LaneOp::One(one) => one_code(one),
        LaneOp::Two(two) => two_code(two),
        LaneOp::Shift(shift) => shift_code(shift),
        LaneOp::Test(test) => test_code(test),
    }
}

/// The codes, in the order of the variants.
static LOADS: [u8; 13] = [0, 1, 2, 3, 4, 5, 6, 7, 8, 9, 10, 92, 93];

/// The code of a load of a vector.
fn load_code(load: LaneLoad) -> u8
    ensures { name_of result ≡ Some (Load load) }
{
    LOADS[load as usize]
}

/// The codes, in the order of the variants.
static EXTRACTS: [u8; 6] = [21, 22, 24, 25, 27, 29];

/// The code of an extract_lane.
fn extract_code(extract: LaneExtract) -> u8
    ensures { name_of result ≡ Some (Extract extract) }
{
    EXTRACTS[extract as usize]
}

/// The codes, in the order of the variants.
static ONES: [u8; 26] = [
    77, 96, 97, 98, 128, 129, 124, 125, 135, 136, 137, 138, 160, 161, 126, 127, 167, 168, 169, 170,
    192, 193, 199, 200, 201, 202,
];

/// The code of a vector from one vector.
fn one_code(one: Lane1) -> u8
    ensures { name_of result ≡ Some (One one) }
{
    ONES[one as usize]
}

/// The codes, in the order of the variants.
static TWOS: [u8; 92] = [
    14, 35, 36, 37, 38, 39, 40, 41, 42, 43, 44, 45, 46, 47, 48, 49, 50, 51, 52, 53, 54, 55, 56, 57,
    58, 59, 60, 61, 62, 63, 64, 214, 215, 216, 217, 218, 219, 78, 79, 80, 81, 101, 102, 133, 134,
    110, 111, 112, 113, 114, 115, 118, 119, 120, 121, 123, 142, 143, 144, 145, 146, 147, 149, 150,
    151, 152, 153, 155, 130, 156, 157, 158, 159, 174, 177, 181, 182, 183, 184, 185, 186, 188, 189,
    190, 191, 206, 209, 213, 220, 221, 222, 223,
];

/// The code of a vector from two vectors.
fn two_code(two: Lane2) -> u8
    ensures { name_of result ≡ Some (Two two) }
{
    TWOS[two as usize]
}

/// The codes, in the order of the variants.
static SHIFTS: [u8; 12] = [107, 108, 109, 139, 140, 141, 171, 172, 173, 203, 204, 205];

/// The code of a shift.
fn shift_code(shift: LaneShift) -> u8
    ensures { name_of result ≡ Some (Shift shift) }
{
    SHIFTS[shift as usize]
}

/// The codes, in the order of the variants.
static TESTS: [u8; 9] = [83, 99, 100, 131, 132, 163, 164, 195, 196];

/// The code of a test or a bit mask.
fn test_code(test: LaneTest) -> u8
    ensures { name_of result ≡ Some (Test test) }
{
    TESTS[test as usize]
}

/// The codes, in the order of the shapes.
static LANE_LOADS: [u8; 4] = [84, 85, 86, 87];

/// The code of a load of one lane of this shape.
fn load_lane_code(shape: Shape) -> u8
    ensures { name_of result ≡ Some (LoadLane shape) }
{
    LANE_LOADS[shape as usize]
}

/// The codes, in the order of the shapes.
static LANE_STORES: [u8; 4] = [88, 89, 90, 91];

/// The code of a store of one lane of this shape.
fn store_lane_code(shape: Shape) -> u8
    ensures { name_of result ≡ Some (StoreLane shape) }
{
    LANE_STORES[shape as usize]
}

/// The codes, in the order of the shapes.
static SPLATS: [u8; 4] = [15, 16, 17, 18];

/// The code of a splat of this shape.
fn splat_code(shape: Shape) -> u8
    ensures { name_of result ≡ Some (Splat shape) }
{
    SPLATS[shape as usize]
}

/// The codes, in the order of the shapes.
static REPLACES: [u8; 4] = [23, 26, 28, 30];

/// The code of a replace_lane of this shape.
fn replace_code(shape: Shape) -> u8
    ensures { name_of result ≡ Some (Replace shape) }
{
    REPLACES[shape as usize]
}
