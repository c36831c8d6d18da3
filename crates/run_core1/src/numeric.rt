// Instructions on operands alone.
ghost use Rattle.std.specs.Prelude.{◌≡◌, ℕ, ◌<◌, ◌^◌, List, [], ◌∷◌, not, nat_eq};
ghost use Rattle.num_core.specs.Integers.{bits, wrap};
ghost use Rattle.evaluation_kit.specs.Leaves.{on_operands, branch_if, branch_table};
ghost use Rattle.meaning_core1.specs.Store.{State1, number1, value_of, bool_value};
ghost use Rattle.meaning_core1.specs.Operators.{pure_op, selected, is_true, top1};
ghost use Rattle.run_core1.specs.Changes.{Does};

use crate::change::Change;
use crate::slot::Slot;
use core1_ast::module::{Conv1, Op1};
use evaluation_kit::Jump;
use num_core::operations::{binary, compare, convert, eqz, unary};
use num_core::operators::{Bin, Cmp, Conv, Un, Width};

/// What a test does (the standard's "Numeric Instructions", t.testop).
pub(crate) fn test_operator(width: Width, top: Slot) -> Change
    ensures { (s : State1) → Does (on_operands (pure_op (Op1.Eqz width))) (top ∷ []) s result s }
{
    Change::Put(1, Slot::truth(eqz(width, top.number_of(width))))
}

/// What a comparison does (t.relop).
pub(crate) fn comparison(width: Width, op: Cmp, top: Slot, next: Slot) -> Change
    ensures { (s : State1) → Does (on_operands (pure_op (Op1.Compare width op))) (top ∷ next ∷ []) s result s }
{
    let holds = compare(width, op, next.number_of(width), top.number_of(width));
    Change::Put(2, Slot::truth(holds))
}

/// What a binary operator does (t.binop).
pub(crate) fn binary_operator(width: Width, op: Bin, top: Slot, next: Slot) -> Change
    ensures { (s : State1) → Does (on_operands (pure_op (Op1.Binary width op))) (top ∷ next ∷ []) s result s }
{
    match binary(width, op, next.number_of(width), top.number_of(width)) {
        Some(i) => Change::Put(2, Slot::of_width(width, i)),
        None => Change::Exit(0, Jump::Trap),
    }
}

/// What a unary operator does (t.unop).
pub(crate) fn unary_operator(width: Width, op: Un, top: Slot) -> Change
    ensures { (s : State1) → Does (on_operands (pure_op (Op1.Unary width op))) (top ∷ []) s result s }
{
    Change::Put(
        1,
        Slot::of_width(width, unary(width, op, top.number_of(width))),
    )
}

/// What a conversion does (t2.cvtop).
pub(crate) fn conversion(op: Conv1, top: Slot) -> Change
    ensures { (s : State1) → Does (on_operands (pure_op (Op1.Convert op))) (top ∷ []) s result s }
{
    Change::Put(
        1,
        match op {
            Conv1::Wrap => Slot::of_width(
                Width::W32,
                convert(Conv::Wrap, top.number_of(Width::W64)),
            ),
            Conv1::Ext32S => Slot::of_width(
                Width::W64,
                convert(Conv::Ext32S, top.number_of(Width::W32)),
            ),
            Conv1::Ext32U => Slot::of_width(
                Width::W64,
                convert(Conv::Ext32U, top.number_of(Width::W32)),
            ),
        },
    )
}

/// Whether the condition on the top holds: it is not 0 (the standard's "Control Instructions", if).
pub(crate) fn is_true(top: Slot) -> bool
    ensures { result ≡ not (nat_eq (number1 top) 0) }
{
    top.number() != 0
}

/// What select does: the first of the lower two operands where the condition on the top holds, else the second (the
/// standard's "Parametric Instructions").
pub(crate) fn select(top: Slot, second: Slot, first: Slot) -> Change
    ensures { (s : State1) → Does (on_operands selected) (top ∷ second ∷ first ∷ []) s result s }
{
    Change::Put(3, if is_true(top) { first } else { second })
}

/// What br_if does: the branch to a label where the condition on the top holds (the standard's "Control Instructions").
pub(crate) fn branch_if(label: u32, top: Slot) -> Change
    ensures { (s : State1) → Does (branch_if is_true label) (top ∷ []) s result s }
{
    if is_true(top) {
        Change::Exit(1, Jump::Branch(label))
    } else {
        Change::Take(1)
    }
}

/// What br_table does: the branch to the label that the top numbers, or to the last one (the standard's "Control
/// Instructions").
pub(crate) fn branch_table(labels: &[u32], last: u32, top: Slot) -> Change
    ensures { (s : State1) → Does (branch_table top1 labels.now last) (top ∷ []) s result s }
{
    let label = match usize::try_from(top.number()) {
        Ok(place) => labels.get(place).copied().unwrap_or(last),
        Err(_) => last,
    };
    Change::Exit(1, Jump::Branch(label))
}
