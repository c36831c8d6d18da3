// Widths and sizes of what operators move.

ghost use Rattle.std.specs.Prelude.{◌≡◌, ◌≤◌, ◌^◌, nat_lt, nat_le};
ghost use Rattle.std.specs.List.{list_all};
ghost use Rattle.num_core.specs.Accesses.{load_bytes, load_width, store_bytes, store_width};
ghost use Rattle.num_core.specs.Integers.{width_from, width_to};
ghost use Rattle.lane_core.specs.Shapes.{extract_shape, lane_bytes, lane_count, lane_load_bytes};

use lane_core::operators::{LaneExtract, LaneLoad};
use lane_core::vector::Shape;
use num_core::operators::{Conv, Load, Store, Width};

/// How many bytes a load reads.
pub fn load_bytes(op: Load) -> u32
    ensures { result ≡ load_bytes op }
{
    match op {
        Load::I32From8S | Load::I32From8U | Load::I64From8S | Load::I64From8U => 1,
        Load::I32From16S | Load::I32From16U | Load::I64From16S | Load::I64From16U => 2,
        Load::I32 | Load::I64From32S | Load::I64From32U => 4,
        Load::I64 => 8,
    }
}

/// The width of the value of a load.
pub fn load_width(op: Load) -> Width
    ensures { result ≡ load_width op }
{
    match op {
        Load::I32 | Load::I32From8S | Load::I32From8U | Load::I32From16S | Load::I32From16U =>
            Width::W32,
        _ => Width::W64,
    }
}

/// How many bytes a store writes.
pub fn store_bytes(op: Store) -> u32
    ensures { result ≡ store_bytes op }
{
    match op {
        Store::I32To8 | Store::I64To8 => 1,
        Store::I32To16 | Store::I64To16 => 2,
        Store::I32 | Store::I64To32 => 4,
        Store::I64 => 8,
    }
}

/// The width of the value of a store.
pub fn store_width(op: Store) -> Width
    ensures { result ≡ store_width op }
{
    match op {
        Store::I32 | Store::I32To8 | Store::I32To16 => Width::W32,
        _ => Width::W64,
    }
}

/// The width of the operand of a conversion.
pub fn width_from(op: Conv) -> Width
    ensures { result ≡ width_from op }
{
    match op {
        Conv::Ext32S | Conv::Ext32U | Conv::S8of32 | Conv::S16of32 => Width::W32,
        _ => Width::W64,
    }
}

/// The width of the result of a conversion.
pub fn width_to(op: Conv) -> Width
    ensures { result ≡ width_to op }
{
    match op {
        Conv::Wrap | Conv::S8of32 | Conv::S16of32 => Width::W32,
        _ => Width::W64,
    }
}

/// How many lanes a shape has.
pub fn lane_count(shape: Shape) -> u8
    ensures { result ≡ lane_count shape }
{
    match shape {
        Shape::I8x16 => 16,
        Shape::I16x8 => 8,
        Shape::I32x4 => 4,
        Shape::I64x2 => 2,
    }
}

/// How many bytes a lane of a shape has.
pub fn lane_bytes(shape: Shape) -> u32
    ensures { result ≡ lane_bytes shape }
{
    match shape {
        Shape::I8x16 => 1,
        Shape::I16x8 => 2,
        Shape::I32x4 => 4,
        Shape::I64x2 => 8,
    }
}

/// The shape of which a lane is taken.
pub fn extract_shape(op: LaneExtract) -> Shape
    ensures { result ≡ extract_shape op }
{
    match op {
        LaneExtract::I8x16S | LaneExtract::I8x16U => Shape::I8x16,
        LaneExtract::I16x8S | LaneExtract::I16x8U => Shape::I16x8,
        LaneExtract::I32x4 => Shape::I32x4,
        LaneExtract::I64x2 => Shape::I64x2,
    }
}

/// How many bytes a load of a vector reads.
pub fn lane_load_bytes(op: LaneLoad) -> u32
    ensures { result ≡ lane_load_bytes op }
{
    match op {
        LaneLoad::Whole => 16,
        LaneLoad::Load8Splat => 1,
        LaneLoad::Load16Splat => 2,
        LaneLoad::Load32Splat | LaneLoad::Load32Zero => 4,
        _ => 8,
    }
}

/// Whether each place of a shuffle names a byte of two vectors.
pub fn are_places(places: [u8; 16]) -> bool
    ensures { result ≡ list_all (λ place. nat_lt place 32) places }
{
    places.as_slice().iter().all(|place| *place < 32)
}

/// Whether the alignment, an exponent, is at most that of an access to so many bytes.
pub fn is_aligned(align: u32, bytes: u32) -> bool
    requires { bytes ≤ 16 }
    ensures { result ≡ nat_le (2 ^ align) bytes }
{
    if align >= 32 {
        return false;
    }
    1 << align <= bytes
}
