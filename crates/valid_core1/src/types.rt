// The types of 1.0, as the typing kit asks for them, and lists of them that need no memory.

ghost use Rattle.std.specs.Prelude.{◌≡◌, [], ◌∷◌};
ghost use Rattle.core1_ast.specs.Operands.{int_type1, op_takes, op_gives, block_results};
ghost use Rattle.valid_core1.specs.Forms.{same_type};

use core1_ast::module::{BlockType1, Conv1, Op1, Ty1};
use num_core::operators::Width;
use typing_kit::{Kind, ValueTypes};

/// The value types of 1.0, among which a type matches itself alone.
pub struct Types1;

impl ValueTypes for Types1 {
    ghost use Rattle.core1_ast.specs.declared.module.ty.Ty1.TheVariants.{I32};
    ghost use Rattle.valid_core1.specs.Forms.{same_type, of_kind};

    type Type = Ty1;

    ghost sub = { same_type };

    ghost of_kind = { of_kind };

    ghost condition = { I32 };

    fn matches(given: Ty1, wanted: Ty1) -> bool {
        is_same(given, wanted)
    }

    fn is_of_kind(kind: Kind, _given: Ty1) -> bool {
        !matches!(kind, Kind::Reference)
    }

    fn condition() -> Ty1 {
        Ty1::I32
    }
}

/// Whether two types are one.
pub fn is_same(a: Ty1, b: Ty1) -> bool
    ensures { result ≡ same_type a b }
{
    a == b
}

/// A type as a list.
pub fn one(ty: Ty1) -> &'static [Ty1]
    ensures { result.now ≡ ty ∷ [] }
{
    match ty {
        Ty1::I32 => &[Ty1::I32],
        Ty1::I64 => &[Ty1::I64],
        Ty1::F32 => &[Ty1::F32],
        Ty1::F64 => &[Ty1::F64],
    }
}

/// The results of a block.
pub fn results(ty: BlockType1) -> &'static [Ty1]
    ensures { result.now ≡ block_results ty }
{
    match ty {
        BlockType1::Empty => &[],
        BlockType1::One(ty) => one(ty),
    }
}

/// The type of the integers of a width, twice.
fn two(width: Width) -> &'static [Ty1]
    ensures { result.now ≡ int_type1 width ∷ (int_type1 width ∷ []) }
{
    match width {
        Width::W32 => &[Ty1::I32, Ty1::I32],
        Width::W64 => &[Ty1::I64, Ty1::I64],
    }
}

/// The type of the integers of a width, as a list.
fn int_type(width: Width) -> &'static [Ty1]
    ensures { result.now ≡ int_type1 width ∷ [] }
{
    match width {
        Width::W32 => &[Ty1::I32],
        Width::W64 => &[Ty1::I64],
    }
}

/// What an instruction without context takes.
pub fn takes(op: Op1) -> &'static [Ty1]
    ensures { result.now ≡ op_takes op }
{
    match op {
        Op1::I32Const(_) | Op1::I64Const(_) => &[],
        Op1::Eqz(width) => int_type(width),
        Op1::Unary(width, _) => int_type(width),
        Op1::Compare(width, _) => two(width),
        Op1::Binary(width, _) => two(width),
        Op1::Convert(Conv1::Wrap) => &[Ty1::I64],
        Op1::Convert(Conv1::Ext32S | Conv1::Ext32U) => &[Ty1::I32],
    }
}

/// What an instruction without context gives.
pub fn gives(op: Op1) -> &'static [Ty1]
    ensures { result.now ≡ op_gives op }
{
    match op {
        Op1::I32Const(_) | Op1::Eqz(_) | Op1::Compare(_, _) | Op1::Convert(Conv1::Wrap) => {
            &[Ty1::I32]
        }
        Op1::I64Const(_) | Op1::Convert(Conv1::Ext32S | Conv1::Ext32U) => &[Ty1::I64],
        Op1::Unary(width, _) => int_type(width),
        Op1::Binary(width, _) => int_type(width),
    }
}
