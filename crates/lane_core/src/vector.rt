/// A vector of 128 bits. Lane 0 stands in the lowest bits.
#[derive(Clone, Copy, Debug, PartialEq, Eq)]
pub struct V(pub u128);

/// How a vector is cut into lanes (the standard's "Vector Instructions", integer shapes).
#[derive(Clone, Copy, Debug, PartialEq, Eq)]
pub enum Shape {
    /// 16 lanes of 8 bits.
    I8x16,
    /// 8 lanes of 16 bits.
    I16x8,
    /// 4 lanes of 32 bits.
    I32x4,
    /// 2 lanes of 64 bits.
    I64x2,
}
