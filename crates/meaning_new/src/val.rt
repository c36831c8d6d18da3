use wasm_ast::module::Ty;

/// A value that code works on (the standard's "Values" of chapter 4).
#[derive(Clone, Copy)]
pub enum Val {
    /// An i32, by its 32 bits.
    I32(u32),
    /// An i64, by its 64 bits.
    I64(u64),
    /// A v128, by its 128 bits.
    V128(u128),
    /// A reference to the function with this index.
    Func(u32),
    /// A reference to a value of the host's, by its number.
    Extern(u32),
    /// A reference to an exception, by its number among those made so far.
    Exn(u32),
    /// The null reference of this type.
    Null(Ty),
}
