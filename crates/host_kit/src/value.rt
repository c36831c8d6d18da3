use sqlite_items::Items;

/// A value that a host and a module hand to each other.
#[derive(Clone, Copy)]
pub enum Value {
    /// An i32, by its 32 bits.
    I32(u32),
    /// An i64, by its 64 bits.
    I64(u64),
    /// A v128: its lower 64 bits, then the upper ones.
    V128(u64, u64),
    /// A reference to the function with this index.
    Func(u32),
    /// A reference to a value of the host's, by its number.
    Extern(u32),
    /// The null reference of type funcref.
    NullFunc,
    /// The null reference of type externref.
    NullExtern,
}

/// Values in order, as the arguments or the results of a call.
pub type Values = Items<Value>;
