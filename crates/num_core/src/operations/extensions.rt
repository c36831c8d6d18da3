// The integers of more bits that have the signed value of fewer bits (the standard's extend_s).
ghost use Rattle.std.specs.Prelude.{◌≡◌};
ghost use Rattle.num_core.specs.Integers.{extend_signed};

/// 8 bits, extended to 32.
pub(super) fn narrow8(bits: u8) -> u32
    ensures { result ≡ extend_signed 8 32 bits }
{
    i32::from(bits.cast_signed()).cast_unsigned()
}

/// 16 bits, extended to 32.
pub(super) fn narrow16(bits: u16) -> u32
    ensures { result ≡ extend_signed 16 32 bits }
{
    i32::from(bits.cast_signed()).cast_unsigned()
}

/// 8 bits, extended to 64.
pub(super) fn extend8(bits: u8) -> u64
    ensures { result ≡ extend_signed 8 64 bits }
{
    i64::from(bits.cast_signed()).cast_unsigned()
}

/// 16 bits, extended to 64.
pub(super) fn extend16(bits: u16) -> u64
    ensures { result ≡ extend_signed 16 64 bits }
{
    i64::from(bits.cast_signed()).cast_unsigned()
}

/// 32 bits, extended to 64.
pub(super) fn extend32(bits: u32) -> u64
    ensures { result ≡ extend_signed 32 64 bits }
{
    i64::from(bits.cast_signed()).cast_unsigned()
}
