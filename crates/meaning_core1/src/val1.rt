/// A value that code of 1.0 works on (the standard's "Values" of chapter 4), floats aside.
#[derive(Clone, Copy)]
pub enum Val1 {
    /// An i32, by its 32 bits.
    I32(u32),
    /// An i64, by its 64 bits.
    I64(u64),
}
