// Instructions on operands alone (the standard's "Numeric Instructions" and "Reference Instructions").
ghost use Rattle.std.specs.Prelude.{◌≡◌, ◌<◌, ◌^◌, List, [], ◌∷◌};
ghost use Rattle.num_core.specs.Integers.{bits, wrap, width_from, width_to};
ghost use Rattle.evaluation_kit.specs.Leaves.{on_operands};
ghost use Rattle.meaning_new.specs.Store.{State, number};
ghost use Rattle.meaning_new.specs.Numeric.{pure};
ghost use Rattle.run_new.specs.Leaves.{Does};

use crate::slot::Slot;
use crate::values::is_null;
use crate::vectors::vector_operator;
use evaluation_kit::Jump;
use num_core::operations::{binary, compare, convert, eqz, unary};
use num_core::operators::{Bin, Cmp, Conv, Un, Width};
use run_kit::Change;
use wasm_ast::module::Op;

/// What a test does (t.testop).
#[inline(always)]
pub(crate) fn test_operator(width: Width, top: Slot) -> Change<Slot>
    ensures { (s : State) → Does (on_operands (pure (Op.Eqz width))) (top ∷ []) s result s }
{
    Change::Put(1, Slot::truth(eqz(width, top.integer(width))))
}

/// What a comparison does (t.relop).
#[inline(always)]
pub(crate) fn comparison(width: Width, op: Cmp, top: Slot, next: Slot) -> Change<Slot>
    ensures { (s : State) → Does (on_operands (pure (Op.Compare width op))) (top ∷ next ∷ []) s result s }
{
    let holds = compare(width, op, next.integer(width), top.integer(width));
    Change::Put(2, Slot::truth(holds))
}

/// What a binary operator does (t.binop).
#[inline(always)]
pub(crate) fn binary_operator(width: Width, op: Bin, top: Slot, next: Slot) -> Change<Slot>
    ensures { (s : State) → Does (on_operands (pure (Op.Binary width op))) (top ∷ next ∷ []) s result s }
{
    match binary(width, op, next.integer(width), top.integer(width)) {
        Some(i) => Change::Put(2, Slot::of_width(width, i)),
        None => Change::Exit(0, Jump::Trap),
    }
}

/// What a unary operator does (t.unop).
#[inline(always)]
pub(crate) fn unary_operator(width: Width, op: Un, top: Slot) -> Change<Slot>
    ensures { (s : State) → Does (on_operands (pure (Op.Unary width op))) (top ∷ []) s result s }
{
    Change::Put(
        1,
        Slot::of_width(width, unary(width, op, top.integer(width))),
    )
}

/// The widths of the operand and of the result of a conversion.
fn widths(op: Conv) -> (Width, Width)
    ensures from { result.0 ≡ width_from op }
    ensures to { result.1 ≡ width_to op }
{
    match op {
        Conv::Wrap => (Width::W64, Width::W32),
        Conv::Ext32S | Conv::Ext32U => (Width::W32, Width::W64),
        Conv::S8of32 | Conv::S16of32 => (Width::W32, Width::W32),
        Conv::S8of64 | Conv::S16of64 | Conv::S32of64 => (Width::W64, Width::W64),
    }
}

/// What a conversion does (t2.cvtop).
#[inline(always)]
pub(crate) fn conversion(op: Conv, top: Slot) -> Change<Slot>
    ensures { (s : State) → Does (on_operands (pure (Op.Convert op))) (top ∷ []) s result s }
{
    let (from, to) = widths(op);
    Change::Put(1, Slot::of_width(to, convert(op, top.integer(from))))
}

/// What an instruction on operands alone does to the topmost ones.
pub(crate) fn pure(op: Op, top: Slot, next: Slot, third: Slot) -> Change<Slot>
    ensures { (s : State) → Does (on_operands (pure op)) (top ∷ next ∷ third ∷ []) s result s }
{
    match op {
        Op::I32Const(i) => Change::Put(0, Slot::i32(i)),
        Op::I64Const(i) => Change::Put(0, Slot::i64(i)),
        Op::Eqz(width) => test_operator(width, top),
        Op::Compare(width, op) => comparison(width, op, top, next),
        Op::Unary(width, op) => unary_operator(width, op, top),
        Op::Binary(width, op) => binary_operator(width, op, top, next),
        Op::Convert(op) => conversion(op, top),
        Op::RefNull(ty) => Change::Put(0, Slot::null(ty)),
        Op::RefIsNull => Change::Put(1, Slot::truth(is_null(top))),
        Op::RefFunc(func) => Change::Put(0, Slot::func(func)),
        Op::V128Const(_)
        | Op::Shuffle(_)
        | Op::Splat(_)
        | Op::Extract(_, _)
        | Op::Replace(_, _)
        | Op::Bitselect
        | Op::Lanes1(_)
        | Op::Lanes2(_)
        | Op::ShiftLanes(_)
        | Op::TestLanes(_) => vector_operator(op, top, next, third),
    }
}
