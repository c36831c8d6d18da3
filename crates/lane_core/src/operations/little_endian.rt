// Numbers as bytes, the lowest first.
ghost use Rattle.std.specs.Prelude.{◌≡◌, length};
ghost use Rattle.num_core.specs.Bytes.{from_bytes};
ghost use Rattle.lane_core.specs.Shapes.{lane_bytes};

use crate::vector::Shape;

/// The number that two bytes make.
pub(super) fn two(bytes: &[u8]) -> u16
    requires { length bytes.now ≡ 2 }
    ensures { result ≡ from_bytes bytes.now }
{
    u16::from_le_bytes([bytes[0], bytes[1]])
}

/// The number that four bytes make.
pub(super) fn four(bytes: &[u8]) -> u32
    requires { length bytes.now ≡ 4 }
    ensures { result ≡ from_bytes bytes.now }
{
    u32::from_le_bytes([bytes[0], bytes[1], bytes[2], bytes[3]])
}

/// The number that eight bytes make.
pub(super) fn eight(bytes: &[u8]) -> u64
    requires { length bytes.now ≡ 8 }
    ensures { result ≡ from_bytes bytes.now }
{
    u64::from_le_bytes([
        bytes[0], bytes[1], bytes[2], bytes[3], bytes[4], bytes[5], bytes[6], bytes[7],
    ])
}

/// The number that sixteen bytes make.
pub(super) fn sixteen(bytes: &[u8]) -> u128
    requires { length bytes.now ≡ 16 }
    ensures { result ≡ from_bytes bytes.now }
{
    u128::from(eight(&bytes[8..])) << 64 | u128::from(eight(&bytes[..8]))
}

/// The number that the bytes of one lane make.
pub(super) fn of_lane(shape: Shape, bytes: &[u8]) -> u64
    requires { length bytes.now ≡ lane_bytes shape }
    ensures { result ≡ from_bytes bytes.now }
{
    match shape {
        Shape::I8x16 => bytes[0].into(),
        Shape::I16x8 => two(bytes).into(),
        Shape::I32x4 => four(bytes).into(),
        Shape::I64x2 => eight(bytes),
    }
}
