// Lists of few types that instructions take and give.

ghost use Rattle.std.specs.Prelude.{◌≡◌, [], ◌∷◌};
ghost use Rattle.num_core.specs.declared.operators.Width.{Width};
ghost use Rattle.wasm_ast.specs.declared.module.ty.Ty.{Ty};
ghost use Rattle.wasm_ast.specs.declared.module.ty.Ty.TheVariants.{I32};
ghost use Rattle.typed_trees.specs.Contexts.{address_of, is_value_type, is_reference_type, is_plain_type};
ghost use Rattle.typed_trees.specs.Matching.{matches, all_match};
ghost use Rattle.typed_trees.specs.Operands.{int_type, lane_type};

use lane_core::vector::Shape;
use num_core::operators::Width;
use wasm_ast::module::Ty;

/// The one type.
pub fn one(ty: Ty) -> &'static [Ty]
    ensures { result.now ≡ ty ∷ [] }
{
    match ty {
        Ty::I32 => &[Ty::I32],
        Ty::I64 => &[Ty::I64],
        Ty::F32 => &[Ty::F32],
        Ty::F64 => &[Ty::F64],
        Ty::V128 => &[Ty::V128],
        Ty::Func => &[Ty::Func],
        Ty::Extern => &[Ty::Extern],
        Ty::Exn => &[Ty::Exn],
    }
}

/// The type twice.
pub fn two(ty: Ty) -> &'static [Ty]
    ensures { result.now ≡ ty ∷ (ty ∷ []) }
{
    match ty {
        Ty::I32 => &[Ty::I32, Ty::I32],
        Ty::I64 => &[Ty::I64, Ty::I64],
        Ty::F32 => &[Ty::F32, Ty::F32],
        Ty::F64 => &[Ty::F64, Ty::F64],
        Ty::V128 => &[Ty::V128, Ty::V128],
        Ty::Func => &[Ty::Func, Ty::Func],
        Ty::Extern => &[Ty::Extern, Ty::Extern],
        Ty::Exn => &[Ty::Exn, Ty::Exn],
    }
}

/// An i32 and the type.
pub fn index_and(ty: Ty) -> &'static [Ty]
    ensures { result.now ≡ Ty.I32 ∷ (ty ∷ []) }
{
    match ty {
        Ty::I32 => &[Ty::I32, Ty::I32],
        Ty::I64 => &[Ty::I32, Ty::I64],
        Ty::F32 => &[Ty::I32, Ty::F32],
        Ty::F64 => &[Ty::I32, Ty::F64],
        Ty::V128 => &[Ty::I32, Ty::V128],
        Ty::Func => &[Ty::I32, Ty::Func],
        Ty::Extern => &[Ty::I32, Ty::Extern],
        Ty::Exn => &[Ty::I32, Ty::Exn],
    }
}

/// Addresses of two memories.
pub fn addresses(first_wide: bool, second_wide: bool) -> &'static [Ty]
    ensures { result.now ≡ address_of first_wide ∷ (address_of second_wide ∷ []) }
{
    match (first_wide, second_wide) {
        (false, false) => &[Ty::I32, Ty::I32],
        (false, true) => &[Ty::I32, Ty::I64],
        (true, false) => &[Ty::I64, Ty::I32],
        (true, true) => &[Ty::I64, Ty::I64],
    }
}

/// The type of an address.
pub fn address_of(wide: bool) -> Ty
    ensures { result ≡ address_of wide }
{
    if wide { Ty::I64 } else { Ty::I32 }
}

/// The type of the integers of a width.
pub fn int_type(width: Width) -> Ty
    ensures { result ≡ int_type width }
{
    match width {
        Width::W32 => Ty::I32,
        Width::W64 => Ty::I64,
    }
}

/// The type of the integer that stands for a lane.
pub fn lane_type(shape: Shape) -> Ty
    ensures { result ≡ lane_type shape }
{
    match shape {
        Shape::I8x16 | Shape::I16x8 | Shape::I32x4 => Ty::I32,
        Shape::I64x2 => Ty::I64,
    }
}

/// Whether it is the type of values: no float is.
pub fn is_value_type(ty: Ty) -> bool
    ensures { result ≡ is_value_type ty }
{
    !matches!(ty, Ty::F32 | Ty::F64)
}

/// Whether it is a reference type.
pub fn is_reference_type(ty: Ty) -> bool
    ensures { result ≡ is_reference_type ty }
{
    matches!(ty, Ty::Func | Ty::Extern | Ty::Exn)
}

/// Whether it is the type of numbers or of vectors.
pub fn is_plain_type(ty: Ty) -> bool
    ensures { result ≡ is_plain_type ty }
{
    matches!(ty, Ty::I32 | Ty::I64 | Ty::V128)
}

/// Whether a value of the first type may stand where one of the second is asked for.
pub fn matches(given: Ty, wanted: Ty) -> bool
    ensures { result ≡ matches given wanted }
{
    match given {
        Ty::I32 => matches!(wanted, Ty::I32),
        Ty::I64 => matches!(wanted, Ty::I64),
        Ty::F32 => matches!(wanted, Ty::F32),
        Ty::F64 => matches!(wanted, Ty::F64),
        Ty::V128 => matches!(wanted, Ty::V128),
        Ty::Func => matches!(wanted, Ty::Func),
        Ty::Extern => matches!(wanted, Ty::Extern),
        Ty::Exn => matches!(wanted, Ty::Exn),
    }
}

/// The same of lists of types, one by one.
pub fn all_match(given: &[Ty], wanted: &[Ty]) -> bool
    ensures { result ≡ all_match given.now wanted.now }
{
    if given.len() != wanted.len() {
        return false;
    }
    for k in 0..given.len() {
        if !matches(given[k], wanted[k]) {
            return false;
        }
    }
    true
}
