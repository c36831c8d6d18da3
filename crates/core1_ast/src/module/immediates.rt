/// How a load or a store finds its bytes (the standard's "Memory Instructions", memory arguments).
#[derive(Clone, Copy, Debug, PartialEq, Eq)]
pub struct MemArg1 {
    /// The exponent of the alignment in bytes, a hint.
    pub align: u32,
    /// What is added to the address, in bytes.
    pub offset: u32,
}

/// The immediates of an instruction of 1.0 on floats.
#[derive(Clone, Copy, Debug, PartialEq, Eq)]
pub enum FloatImmediates1 {
    /// No immediates.
    None,
    /// The memory argument of a load or a store.
    Memory(MemArg1),
    /// The 32 bits of a constant.
    Bits32(u32),
    /// The 64 bits of a constant.
    Bits64(u64),
}
