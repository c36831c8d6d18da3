ghost use Rattle.std.specs.Prelude.{◌≡◌, ◌<◌, ◌^◌, not, nat_eq};
ghost use Rattle.num_core.specs.Integers.{bits, wrap};
ghost use Rattle.meaning_new.specs.Store.{number, int, truth};
ghost use Rattle.run_new.specs.Slots.{null_kind};

use meaning_new::Val;
use num_core::operators::Width;
use std::marker::Model;
use wasm_ast::module::Ty;

/// What an operand, a local or a global that is not there reads as.
pub(crate) const MISSING: Slot = Slot {
    kind: Kind::I32,
    low: 0,
    high: 0,
};

/// Of which type a value is; each type has its null.
#[derive(Clone, Copy)]
pub enum Kind {
    /// An i32.
    I32,
    /// An i64.
    I64,
    /// A v128.
    V128,
    /// A reference to a function.
    Func,
    /// A reference to a value of the host's.
    Extern,
    /// A reference to an exception.
    Exn,
    /// The null of i32.
    NullI32,
    /// The null of i64.
    NullI64,
    /// The null of f32.
    NullF32,
    /// The null of f64.
    NullF64,
    /// The null of v128.
    NullV128,
    /// The null of funcref.
    NullFunc,
    /// The null of externref.
    NullExtern,
    /// The null of exnref.
    NullExn,
}

/// A value as the machine holds it: its kind, and its bits in two halves. What a reference refers to lies in the upper
/// half, so that the lower one is the lowest bits of the number that a value is, whatever its kind.
#[derive(Clone, Copy)]
pub struct Slot {
    kind: Kind,
    low: u64,
    high: u64,
}

impl Model for Slot {
    ghost use Rattle.std.specs.Prelude.{◌≡◌, ◌<◌, ◌^◌};
    ghost use Rattle.meaning_new.specs.declared.val.Val.{Val};
    ghost use Rattle.run_new.specs.Slots.{value_in, kind_of, low_of, high_of, IsSlot, kind_again, low_again, high_again};

    ghost Value = { Val };

    ghost view = { λ s. value_in s.kind s.low s.high };

    ghost inverse = { λ v. record { kind = kind_of v; low = low_of v; high = high_of v } };

    ghost inverse_ok = { λ a h i. record { kind = kind_again a.kind a.low a.high i; low = low_again a.kind a.low a.high h i; high = high_again a.kind a.low a.high h i } };

    ghost invariant = { λ s. IsSlot s.kind s.low s.high };
}

impl Slot {
    /// The i32 with these bits.
    #[inline(always)]
    pub fn i32(i: u32) -> Slot
        ensures { result ≡ Val.I32 i }
    {
        Slot {
            kind: Kind::I32,
            low: i.into(),
            high: 0,
        }
    }

    /// The i64 with these bits.
    #[inline(always)]
    pub fn i64(i: u64) -> Slot
        ensures { result ≡ Val.I64 i }
    {
        Slot {
            kind: Kind::I64,
            low: i,
            high: 0,
        }
    }

    /// The v128 with these bits.
    pub fn v128(v: u128) -> Slot
        ensures { result ≡ Val.V128 v }
    {
        Slot {
            kind: Kind::V128,
            low: (v % (1 << 64)) as u64,
            high: (v / (1 << 64)) as u64,
        }
    }

    /// The reference to the function with this index.
    pub fn func(func: u32) -> Slot
        ensures { result ≡ Val.Func func }
    {
        Slot {
            kind: Kind::Func,
            low: 0,
            high: func.into(),
        }
    }

    /// The reference to the host's value of this number.
    pub fn external(number: u32) -> Slot
        ensures { result ≡ Val.Extern number }
    {
        Slot {
            kind: Kind::Extern,
            low: 0,
            high: number.into(),
        }
    }

    /// The reference to the exception of this number.
    pub fn exn(number: u32) -> Slot
        ensures { result ≡ Val.Exn number }
    {
        Slot {
            kind: Kind::Exn,
            low: 0,
            high: number.into(),
        }
    }

    /// The null reference of this type.
    pub fn null(ty: Ty) -> Slot
        ensures { result ≡ Val.Null ty }
    {
        Slot {
            kind: null_kind(ty),
            low: 0,
            high: 0,
        }
    }

    /// The value of a width that an integer is.
    #[inline(always)]
    pub fn of_width(width: Width, i: u64) -> Slot
        requires { i < 2 ^ bits width }
        ensures { result ≡ int width i }
    {
        match width {
            Width::W32 => Slot {
                kind: Kind::I32,
                low: i,
                high: 0,
            },
            Width::W64 => Slot {
                kind: Kind::I64,
                low: i,
                high: 0,
            },
        }
    }

    /// The value of a truth: 1 or 0.
    #[inline(always)]
    pub fn truth(holds: bool) -> Slot
        ensures { result ≡ truth holds }
    {
        Slot {
            kind: Kind::I32,
            low: holds.into(),
            high: 0,
        }
    }

    /// The number that it is; a reference is none, and is taken for 0.
    #[inline(always)]
    pub fn number(self) -> u128
        ensures { result ≡ number self }
    {
        match self.kind {
            Kind::V128 => self.low as u128 + self.high as u128 * (1 << 64),
            _ => self.low.into(),
        }
    }

    /// The integer of a width that it is: the lowest bits of its number.
    #[inline(always)]
    pub fn integer(self, width: Width) -> u64
        ensures value { result ≡ wrap (bits width) (number self) }
        ensures below { result < 2 ^ bits width }
    {
        match width {
            Width::W32 => self.low % 0x1_0000_0000,
            Width::W64 => self.low,
        }
    }

    /// Whether the number that it is, is not 0.
    #[inline(always)]
    pub fn is_true(self) -> bool
        ensures { result ≡ not (nat_eq (number self) 0) }
    {
        self.low != 0 || self.number() != 0
    }

    /// The value that it holds.
    pub fn value(self) -> Val
        ensures { result ≡ self }
    {
        match self.kind {
            Kind::I32 => Val::I32(self.low as u32),
            Kind::I64 => Val::I64(self.low),
            Kind::V128 => Val::V128(self.number()),
            Kind::Func => Val::Func(self.high as u32),
            Kind::Extern => Val::Extern(self.high as u32),
            Kind::Exn => Val::Exn(self.high as u32),
            Kind::NullI32 => Val::Null(Ty::I32),
            Kind::NullI64 => Val::Null(Ty::I64),
            Kind::NullF32 => Val::Null(Ty::F32),
            Kind::NullF64 => Val::Null(Ty::F64),
            Kind::NullV128 => Val::Null(Ty::V128),
            Kind::NullFunc => Val::Null(Ty::Func),
            Kind::NullExtern => Val::Null(Ty::Extern),
            Kind::NullExn => Val::Null(Ty::Exn),
        }
    }
}

/// The kind of the null of a type.
fn null_kind(ty: Ty) -> Kind
    ensures { result ≡ null_kind ty }
{
    match ty {
        Ty::I32 => Kind::NullI32,
        Ty::I64 => Kind::NullI64,
        Ty::F32 => Kind::NullF32,
        Ty::F64 => Kind::NullF64,
        Ty::V128 => Kind::NullV128,
        Ty::Func => Kind::NullFunc,
        Ty::Extern => Kind::NullExtern,
        Ty::Exn => Kind::NullExn,
    }
}
