ghost use Rattle.std.specs.Prelude.{◌≡◌, [], ◌∷◌, IfOk, reverse, drop, length, map};
ghost use Rattle.std.specs.List.{list_all};
ghost use Rattle.typing_kit.specs.Stack.{fit};
ghost use Rattle.typing_kit.specs.Steps.{with_top, is_of, agree, joined, IsLeaf, fit_label, flat_step, any_step, select_step, leave_step, table_step, stepped, topmost};

use crate::kind::Kind;
use crate::matching::meets;
use crate::operand::Operand;
use crate::operands::{Operands, fits};
use crate::plan::{Met, Plan};
use crate::value_types::ValueTypes;
use std::alloc::AllocError;

/// Whether the operand is of the kind.
fn is_of<V: ValueTypes>(kind: Kind, operand: Operand<V::Type>) -> bool
    ensures { result ≡ is_of V.sub V.of_kind V.condition kind operand }
{
    match operand {
        Operand::Known(given) => V::is_of_kind(kind, given),
        Operand::Bottom => true,
    }
}

/// Whether two plain operands may have one type.
fn agree<V: ValueTypes>(first: Operand<V::Type>, second: Operand<V::Type>) -> bool
    ensures { result ≡ agree V.sub V.of_kind V.condition first second }
{
    match (first, second) {
        (Operand::Known(given), Operand::Known(wanted)) => V::matches(given, wanted),
        _ => true,
    }
}

/// The operand in the place of two.
fn join<T: Copy>(first: Operand<T>, second: Operand<T>) -> Operand<T>
    ensures { result ≡ joined first second }
{
    match first {
        Operand::Known(given) => Operand::Known(given),
        Operand::Bottom => second,
    }
}

/// Whether the topmost operand may stand where the type is asked for.
fn fits_top<V: ValueTypes>(operands: &Operands<V::Type>, wanted: V::Type) -> bool
    ensures { result ≡ fit V.sub operands.now.dead operands.now.top (wanted ∷ []) }
{
    match operands.peek(0) {
        Some(operand) => meets::<V>(operand, wanted),
        None => false,
    }
}

/// Whether the operands may stand where the types are asked for, and above them the last one.
fn fits_under<V: ValueTypes>(
    operands: &Operands<V::Type>,
    wanted: &[V::Type],
    top: Option<V::Type>,
) -> bool
    ensures { result ≡ fit V.sub operands.now.dead operands.now.top (reverse (with_top wanted.now top)) }
{
    match top {
        Some(condition) => fits_top::<V>(operands, condition) && fits::<V>(operands, 1, wanted),
        None => fits::<V>(operands, 0, wanted),
    }
}

/// Takes the first types and leaves the last ones.
fn step_flat<V: ValueTypes>(
    operands: &mut Operands<V::Type>,
    takes: &[V::Type],
    top: Option<V::Type>,
    gives: &[V::Type],
) -> Result<Met<V::Type>, AllocError>
    ensures { IfOk result (λ met. (met, operands.new) ≡ flat_step V.sub V.of_kind V.condition (with_top takes.now top) gives.now operands.old) }
{
    if !fits_under::<V>(operands, takes, top) {
        return Ok(Met::Untyped);
    }
    if top.is_some() {
        operands.take(1);
    }
    operands.take(takes.len());
    operands.push_all(gives)?;
    Ok(Met::Planned)
}

/// Takes one operand of the kind, and leaves the types.
fn step_any<V: ValueTypes>(
    operands: &mut Operands<V::Type>,
    kind: Kind,
    gives: &[V::Type],
) -> Result<Met<V::Type>, AllocError>
    ensures { IfOk result (λ met. (met, operands.new) ≡ any_step V.sub V.of_kind V.condition kind gives.now operands.old (topmost operands.old.dead operands.old.top)) }
{
    match operands.peek(0) {
        Some(operand) if is_of::<V>(kind, operand) => {
            operands.take(1);
            operands.push_all(gives)?;
            Ok(Met::One(operand))
        }
        _ => Ok(Met::Untyped),
    }
}

/// Takes a condition and two plain operands of one type, and leaves one of them.
fn step_select<V: ValueTypes>(operands: &mut Operands<V::Type>) -> Result<Met<V::Type>, AllocError>
    ensures { IfOk result (λ met. (met, operands.new) ≡ select_step V.sub V.of_kind V.condition operands.old (topmost operands.old.dead (drop 2 operands.old.top)) (topmost operands.old.dead (drop 1 operands.old.top))) }
{
    let (Some(first), Some(second)) = (operands.peek(2), operands.peek(1)) else {
        return Ok(Met::Untyped);
    };
    let fits = fits_top::<V>(operands, V::condition())
        && is_of::<V>(Kind::Plain, first)
        && is_of::<V>(Kind::Plain, second)
        && agree::<V>(first, second);
    if !fits {
        return Ok(Met::Untyped);
    }
    let given = join(first, second);
    operands.take(3);
    operands.push(given)?;
    Ok(Met::One(given))
}

/// Takes the types, and nothing follows.
fn step_leave<V: ValueTypes>(
    operands: &mut Operands<V::Type>,
    takes: &[V::Type],
    top: Option<V::Type>,
) -> Met<V::Type>
    ensures { (result, operands.new) ≡ leave_step V.sub V.of_kind V.condition (with_top takes.now top) operands.old }
{
    if !fits_under::<V>(operands, takes, top) {
        return Met::Untyped;
    }
    operands.kill();
    Met::Planned
}

/// Whether the operands under the condition may stand where each label asks for its types, of which there are so many.
fn fits_labels<V: ValueTypes>(
    operands: &Operands<V::Type>,
    count: usize,
    labels: &[&[V::Type]],
) -> bool
    ensures { result ≡ list_all (fit_label V.sub V.of_kind V.condition operands.now.dead (drop 1 operands.now.top) count) (map (λ label. label.now) labels.now) }
{
    for label in labels {
        if label.len() != count || !fits::<V>(operands, 1, label) {
            return false;
        }
    }
    true
}

/// Takes a condition, and under it what each label takes; nothing follows.
fn step_table<V: ValueTypes>(
    operands: &mut Operands<V::Type>,
    last: &[V::Type],
    others: &[&[V::Type]],
) -> Met<V::Type>
    ensures { (result, operands.new) ≡ table_step V.sub V.of_kind V.condition last.now (map (λ label. label.now) others.now) operands.old }
{
    let fits = fits_top::<V>(operands, V::condition())
        && fits::<V>(operands, 1, last)
        && fits_labels::<V>(operands, last.len(), others);
    if !fits {
        return Met::Untyped;
    }
    operands.kill();
    Met::Planned
}

/// Takes and leaves what the plan says. Operands that the instruction is not typed over are left as they are. What a
/// failure for want of memory leaves is not said.
pub fn step<V: ValueTypes>(
    operands: &mut Operands<V::Type>,
    plan: Plan<V::Type>,
) -> Result<Met<V::Type>, AllocError>
    ensures { IfOk result (λ met. (met, operands.new) ≡ stepped V.sub V.of_kind V.condition plan.entry operands.old) }
{
    match plan {
        Plan::Flat(takes, top, gives) => step_flat::<V>(operands, takes, top, gives),
        Plan::Any(kind, gives) => step_any::<V>(operands, kind, gives),
        Plan::Select => step_select::<V>(operands),
        Plan::Leaves(takes, top) => Ok(step_leave::<V>(operands, takes, top)),
        Plan::Table(last, others) => Ok(step_table::<V>(operands, last, others)),
        Plan::Untyped | Plan::Nested => Ok(Met::Untyped),
    }
}
