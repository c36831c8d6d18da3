ghost use Rattle.std.specs.Prelude.{◌≡◌};
ghost use Rattle.wasm_ast.specs.Fold.{combined, folded_value, folded_type};

use crate::module::Ty;
use num_core::operators::{Bin, Width};

/// What a constant expression folds to.
#[derive(Clone, Copy)]
pub enum Folded {
    /// i32.const with these 32 bits.
    I32(u32),
    /// i64.const with these 64 bits.
    I64(u64),
    /// global.get of the imported global with this index, which has this type.
    Imported(usize, Ty),
}

/// The type of the value.
pub fn folded_type(value: Folded) -> Ty
    ensures { result ≡ folded_type value }
{
    match value {
        Folded::I32(_) => Ty::I32,
        Folded::I64(_) => Ty::I64,
        Folded::Imported(_, ty) => ty,
    }
}

/// A binary operator on two values, where it folds: add, sub and mul on integers of its width.
pub fn combined(width: Width, op: Bin, x: Folded, y: Folded) -> Option<Folded>
    ensures { result ≡ combined width op x y }
{
    match (width, x, y) {
        (Width::W32, Folded::I32(x), Folded::I32(y)) => value32(op, x, y).map(Folded::I32),
        (Width::W64, Folded::I64(x), Folded::I64(y)) => value64(op, x, y).map(Folded::I64),
        _ => None,
    }
}

/// The operator on two i32, where it folds.
fn value32(op: Bin, x: u32, y: u32) -> Option<u32>
    ensures { result ≡ folded_value 32 op x y }
{
    match op {
        Bin::Add => Some(x.wrapping_add(y)),
        Bin::Sub => Some(x.wrapping_sub(y)),
        Bin::Mul => Some(x.wrapping_mul(y)),
        _ => None,
    }
}

/// The operator on two i64, where it folds.
fn value64(op: Bin, x: u64, y: u64) -> Option<u64>
    ensures { result ≡ folded_value 64 op x y }
{
    match op {
        Bin::Add => Some(x.wrapping_add(y)),
        Bin::Sub => Some(x.wrapping_sub(y)),
        Bin::Mul => Some(x.wrapping_mul(y)),
        _ => None,
    }
}
