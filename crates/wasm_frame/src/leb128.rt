// Integers in LEB128, whose spellings may be longer than they need be.
mod last_byte;
pub mod laws;
mod reading;
mod writing;

pub use reading::{
    read_s32, read_s33, read_s64, read_u32, read_u64, split_s32, split_s33, split_s64, split_u32,
    split_u64,
};
pub use writing::{put_s32, put_s33, put_s64, put_u32, put_u64};

/// Whether the bits of a number are read as a signed number, in two's complement.
#[derive(Clone, Copy, Debug, PartialEq, Eq)]
pub enum Sign {
    /// From 0 to 2^N - 1.
    Unsigned,
    /// From -2^(N-1) to 2^(N-1) - 1.
    Signed,
}
