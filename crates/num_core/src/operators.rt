/// The width of an integer type: how many bits an operand and a result have.
#[derive(Clone, Copy, Debug, PartialEq, Eq)]
pub enum Width {
    /// 32 bits, the type i32.
    W32,
    /// 64 bits, the type i64.
    W64,
}

/// A binary operator on integers of one width (the standard's "Integer Operations").
#[derive(Clone, Copy, Debug, PartialEq, Eq)]
pub enum Bin {
    /// iadd: the sum, modulo two to the width.
    Add,
    /// isub: the difference, modulo two to the width.
    Sub,
    /// imul: the product, modulo two to the width.
    Mul,
    /// idiv_s: the signed quotient, rounded toward zero. It traps by 0, and where the quotient is no signed number.
    DivS,
    /// idiv_u: the unsigned quotient, rounded down. It traps by 0.
    DivU,
    /// irem_s: the signed remainder, with the sign of the dividend. It traps by 0.
    RemS,
    /// irem_u: the unsigned remainder. It traps by 0.
    RemU,
    /// iand: the bits that both have.
    And,
    /// ior: the bits that either has.
    Or,
    /// ixor: the bits that one of both has.
    Xor,
    /// ishl: a shift to the left; the count is taken modulo the width.
    Shl,
    /// ishr_s: a shift to the right that copies the sign; the count is taken modulo the width.
    ShrS,
    /// ishr_u: a shift to the right that fills with zeros; the count is taken modulo the width.
    ShrU,
    /// irotl: a rotation to the left; the count is taken modulo the width.
    Rotl,
    /// irotr: a rotation to the right; the count is taken modulo the width.
    Rotr,
}

/// A unary operator on integers of one width (the standard's "Integer Operations").
#[derive(Clone, Copy, Debug, PartialEq, Eq)]
pub enum Un {
    /// iclz: how many zeros stand above the highest bit that is set.
    Clz,
    /// ictz: how many zeros stand below the lowest bit that is set.
    Ctz,
    /// ipopcnt: how many bits are set.
    Popcnt,
}

/// A comparison of two integers of one width, whose result is 1 or 0 (the standard's "Integer Operations").
#[derive(Clone, Copy, Debug, PartialEq, Eq)]
pub enum Cmp {
    /// ieq: equal.
    Eq,
    /// ine: not equal.
    Ne,
    /// ilt_s: less, as signed numbers.
    LtS,
    /// ilt_u: less, as unsigned numbers.
    LtU,
    /// igt_s: greater, as signed numbers.
    GtS,
    /// igt_u: greater, as unsigned numbers.
    GtU,
    /// ile_s: less or equal, as signed numbers.
    LeS,
    /// ile_u: less or equal, as unsigned numbers.
    LeU,
    /// ige_s: greater or equal, as signed numbers.
    GeS,
    /// ige_u: greater or equal, as unsigned numbers.
    GeU,
}

/// A conversion of one integer (the standard's "Conversions", and its sign extensions).
#[derive(Clone, Copy, Debug, PartialEq, Eq)]
pub enum Conv {
    /// i32.wrap_i64: the lowest 32 bits of an i64.
    Wrap,
    /// i64.extend_i32_s: an i32, read as a signed number.
    Ext32S,
    /// i64.extend_i32_u: an i32, read as an unsigned number.
    Ext32U,
    /// i32.extend8_s: the lowest 8 bits of an i32, read as a signed number.
    S8of32,
    /// i32.extend16_s: the lowest 16 bits of an i32, read as a signed number.
    S16of32,
    /// i64.extend8_s: the lowest 8 bits of an i64, read as a signed number.
    S8of64,
    /// i64.extend16_s: the lowest 16 bits of an i64, read as a signed number.
    S16of64,
    /// i64.extend32_s: the lowest 32 bits of an i64, read as a signed number.
    S32of64,
}

/// What a load makes of the bytes of a memory, the lowest first (the standard's "Memory Instructions").
#[derive(Clone, Copy, Debug, PartialEq, Eq)]
pub enum Load {
    /// i32.load: 4 bytes.
    I32,
    /// i64.load: 8 bytes.
    I64,
    /// i32.load8_s: 1 byte, signed.
    I32From8S,
    /// i32.load8_u: 1 byte, unsigned.
    I32From8U,
    /// i32.load16_s: 2 bytes, signed.
    I32From16S,
    /// i32.load16_u: 2 bytes, unsigned.
    I32From16U,
    /// i64.load8_s: 1 byte, signed.
    I64From8S,
    /// i64.load8_u: 1 byte, unsigned.
    I64From8U,
    /// i64.load16_s: 2 bytes, signed.
    I64From16S,
    /// i64.load16_u: 2 bytes, unsigned.
    I64From16U,
    /// i64.load32_s: 4 bytes, signed.
    I64From32S,
    /// i64.load32_u: 4 bytes, unsigned.
    I64From32U,
}

/// Which bytes a store puts into a memory, the lowest first (the standard's "Memory Instructions").
#[derive(Clone, Copy, Debug, PartialEq, Eq)]
pub enum Store {
    /// i32.store: 4 bytes.
    I32,
    /// i64.store: 8 bytes.
    I64,
    /// i32.store8: the lowest byte.
    I32To8,
    /// i32.store16: the lowest 2 bytes.
    I32To16,
    /// i64.store8: the lowest byte.
    I64To8,
    /// i64.store16: the lowest 2 bytes.
    I64To16,
    /// i64.store32: the lowest 4 bytes.
    I64To32,
}
