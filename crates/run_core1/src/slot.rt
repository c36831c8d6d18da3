ghost use Rattle.std.specs.Prelude.{◌≡◌, ◌<◌, ◌^◌};
ghost use Rattle.num_core.specs.Integers.{bits, wrap};
ghost use Rattle.meaning_core1.specs.Store.{number1, value_of, bool_value};

use meaning_core1::Val1;
use num_core::operators::Width;
use std::marker::Model;

/// What an operand, a local or a global that is not there reads as.
pub(crate) const ABSENT: Slot = Slot {
    wide: false,
    number: 0,
};

/// A value as the machine holds it: its bits, and whether they are those of an i64. So what an instruction reads is not
/// looked for by its type, and a value is copied in two parts.
#[derive(Clone, Copy)]
pub struct Slot {
    wide: bool,
    number: u64,
}

impl Model for Slot {
    ghost use Rattle.std.specs.Prelude.{◌≡◌, ◌<◌, ◌^◌, false};
    ghost use Rattle.meaning_core1.specs.declared.val1.Val1.{Val1};
    ghost use Rattle.run_core1.specs.Slots.{value_in, wide_of, number_in, wide_again, number_again};

    ghost Value = { Val1 };

    ghost view = { λ s. value_in s.wide s.number };

    ghost inverse = { λ v. record { wide = wide_of v; number = number_in v } };

    ghost inverse_ok = { λ a h i. record { wide = wide_again a.wide a.number i; number = number_again a.wide a.number i } };

    ghost invariant = { λ s. s.wide ≡ false → s.number < 2 ^ 32 };
}

impl Slot {
    /// The i32 with these bits.
    #[inline(always)]
    pub fn i32(i: u32) -> Slot
        ensures { result ≡ Val1.I32 i }
    {
        Slot {
            wide: false,
            number: i.into(),
        }
    }

    /// The i64 with these bits.
    #[inline(always)]
    pub fn i64(i: u64) -> Slot
        ensures { result ≡ Val1.I64 i }
    {
        Slot {
            wide: true,
            number: i,
        }
    }

    /// The value of a width that an integer is.
    #[inline(always)]
    pub fn of_width(width: Width, i: u64) -> Slot
        requires { i < 2 ^ bits width }
        ensures { result ≡ value_of width i }
    {
        match width {
            Width::W32 => Slot {
                wide: false,
                number: i,
            },
            Width::W64 => Slot {
                wide: true,
                number: i,
            },
        }
    }

    /// The value of a truth: 1 or 0.
    #[inline(always)]
    pub fn truth(holds: bool) -> Slot
        ensures { result ≡ bool_value holds }
    {
        Slot {
            wide: false,
            number: holds.into(),
        }
    }

    /// The integer that it is.
    #[inline(always)]
    pub fn number(self) -> u64
        ensures { result ≡ number1 self }
    {
        self.number
    }

    /// The integer of a width that it is, modulo two to the width.
    #[inline(always)]
    pub fn number_of(self, width: Width) -> u64
        ensures below { result < 2 ^ bits width }
        ensures same { result ≡ wrap (bits width) (number1 self) }
    {
        match width {
            Width::W32 => self.number % 0x1_0000_0000,
            Width::W64 => self.number,
        }
    }

    /// The value that it holds.
    pub fn value(self) -> Val1
        ensures { result ≡ self }
    {
        if self.wide {
            Val1::I64(self.number)
        } else {
            Val1::I32(self.number as u32)
        }
    }
}
