/// Where a load or a store finds its memory (the standard's "Memory Instructions", memory arguments).
#[derive(Clone, Copy, Debug, PartialEq, Eq)]
pub struct MemArg {
    /// The index of the memory.
    pub memory: u32,
    /// The exponent of the alignment in bytes, a hint.
    pub align: u32,
    /// What is added to the address, in bytes.
    pub offset: u64,
}

/// A clause of a try_table. Its label is counted from outside the try_table
/// (the standard's "Control Instructions", catch clauses).
#[derive(Clone, Copy, PartialEq, Eq)]
pub enum Catch {
    /// catch: exceptions of this tag; their payload goes to the label.
    Tag(u32, u32),
    /// catch_ref: exceptions of this tag; their payload and the exception go to the label.
    TagRef(u32, u32),
    /// catch_all: any exception; nothing goes to the label.
    All(u32),
    /// catch_all_ref: any exception; the exception goes to the label.
    AllRef(u32),
}

/// The code of an instruction on floats, as the binary format numbers it.
#[derive(Clone, Copy, PartialEq, Eq)]
pub enum FloatCode {
    /// A code of one byte.
    Plain(u8),
    /// The number after the byte FC.
    Saturating(u32),
    /// The number after the byte FD.
    Vector(u32),
}

/// The immediates of an instruction on floats.
#[derive(Clone, Copy, PartialEq, Eq)]
pub enum FloatImmediates {
    /// No immediates.
    None,
    /// The memory argument of a load or a store.
    Memory(MemArg),
    /// The 32 bits of a constant.
    Bits32(u32),
    /// The 64 bits of a constant.
    Bits64(u64),
    /// The number of a lane.
    Lane(u8),
}
