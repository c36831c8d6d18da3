// Whether code is typed. Nothing of it is kept.

ghost use Rattle.std.specs.Prelude.{◌≡◌, true, false, List, IfOk};
ghost use Rattle.wasm_ast.specs.declared.module.ty.Ty.{Ty as ValueType};
ghost use Rattle.wasm_ast.specs.declared.module.code.Instr.{Instr as Instruction, out-Instr};
ghost use Rattle.wasm_ast.specs.declared.module.code.Instr.TheOpen.{Instr-F};
ghost use Rattle.typing_kit.specs.Steps.{IsLeaf, IsPlanOf};
ghost use Rattle.typed_trees.specs.Contexts.{Context};
ghost use Rattle.typed_trees.specs.Forms.{form};
ghost use Rattle.valid_new.specs.Judged.{ArmTyped, ArmsTyped, CodeTyped, Decided, Judged};
ghost use Rattle.valid_new.specs.Nested.{holds_code, nested_form};
ghost use Rattle.valid_new.specs.Scopes.{context_of, labels_of};

use crate::body::is_untyped;
use crate::nested::{Nested, holds_code, nested_of};
use crate::plans::plan_of;
use crate::scope::{Scope, label_types, labels_at};
use crate::values::Values;
use std::alloc::{AllocError, Global};
use typing_kit::{Operands, Plan, fits_whole, step};
use wasm_ast::module::{Instr, Ty};

/// Whether an instruction is typed over the operands, which it changes, by its plan.
fn decide_planned(operands: &mut Operands<Ty>, plan: Plan<'_, Ty>) -> Result<bool, AllocError>
    ensures { (c : Context) (labels : List (List ValueType)) (i : Instruction) → IsPlanOf plan.entry (form c labels i) → IsLeaf plan.entry → IfOk result (Judged c labels i operands.old operands.new) }
{
    let met = step::<Values>(operands, plan)?;
    Ok(!is_untyped(met))
}

/// Whether a br_table to these labels is typed over the operands, which it changes.
fn decide_table(
    alloc: Global,
    labels: &[&[Ty]],
    operands: &mut Operands<Ty>,
    others: &[u32],
    last: u32,
) -> Result<bool, AllocError>
    ensures { (c : Context) (i : Instruction) → out-Instr i ≡ Instr-F.BrTable others.now last → IfOk result (Judged c (labels_of labels.now) i operands.old operands.new) }
{
    let Some(last) = label_types(labels, last) else {
        return Ok(false);
    };
    let Some(others) = labels_at(alloc, labels, others)? else {
        return Ok(false);
    };
    decide_planned(operands, Plan::Table(last, others.as_slice()))
}

/// Whether an instruction that holds no code is typed over the operands, which it changes.
fn decide_leaf<'a>(
    alloc: Global,
    scope: Scope<'a>,
    labels: &[&'a [Ty]],
    operands: &mut Operands<Ty>,
    instr: &'a Instr,
) -> Result<bool, AllocError>
    requires { holds_code (out-Instr instr.now) ≡ false }
    ensures { IfOk result (Judged (context_of scope.entry) (labels_of labels.now) instr.now operands.old operands.new) }
{
    match instr {
        Instr::BrTable(others, last) => {
            decide_table(alloc, labels, operands, others.as_slice(), *last)
        }
        _ => decide_planned(operands, plan_of(scope, labels, instr)),
    }
}

/// Whether an instruction whose arms are typed is typed over the operands, which it changes.
fn decide_nested(
    operands: &mut Operands<Ty>,
    nested: Nested<'_>,
    top: Option<Ty>,
) -> Result<bool, AllocError>
    ensures { (c : Context) (labels : List (List ValueType)) (i : Instruction) → form c labels i ≡ nested_form nested.entry nested.entry.second → ArmsTyped c labels nested.entry nested.entry.second top → IfOk result (Judged c labels i operands.old operands.new) }
{
    let met = step::<Values>(operands, Plan::Flat(nested.takes, top, nested.gives))?;
    Ok(!is_untyped(met))
}

/// Whether the code takes values of the first types and leaves values of the second ones and no others. Where it does,
/// the operands and labels around it are as before.
#[cycle(deciding)]
pub fn is_code_typed<'a>(
    alloc: Global,
    scope: Scope<'a>,
    labels: &mut Vec<&'a [Ty]>,
    operands: &mut Operands<Ty>,
    takes: &[Ty],
    gives: &[Ty],
    code: &'a [Instr],
) -> Result<bool, AllocError>
    ensures typed { IfOk result (λ typed. Decided typed (CodeTyped (context_of scope.entry) (labels_of labels.old.items) code.now takes.now gives.now)) }
    ensures operands { IfOk result (λ typed. typed ≡ true → operands.new ≡ operands.old) }
    ensures labels { IfOk result (λ typed. typed ≡ true → labels.new.items ≡ labels.old.items) }
{
    let covered = operands.begin();
    operands.push_all(takes)?;
    for instr in code {
        if !is_instr_typed(alloc, scope, labels, operands, instr)? {
            return Ok(false);
        }
    }
    let typed = fits_whole::<Values>(operands, gives);
    operands.end(covered);
    Ok(typed)
}

/// Whether the code of an instruction that holds code is typed, behind its label.
#[cycle(deciding)]
fn is_arm_typed<'a>(
    alloc: Global,
    scope: Scope<'a>,
    labels: &mut Vec<&'a [Ty]>,
    operands: &mut Operands<Ty>,
    nested: Nested<'a>,
    code: &'a [Instr],
) -> Result<bool, AllocError>
    ensures typed { IfOk result (λ typed. Decided typed (ArmTyped (context_of scope.entry) (labels_of labels.old.items) nested.entry code.now)) }
    ensures operands { IfOk result (λ typed. typed ≡ true → operands.new ≡ operands.old) }
    ensures labels { IfOk result (λ typed. typed ≡ true → labels.new.items ≡ labels.old.items) }
{
    labels.push(nested.label)?;
    let typed = is_code_typed(
        alloc,
        scope,
        labels,
        operands,
        nested.takes,
        nested.gives,
        code,
    )?;
    labels.pop();
    Ok(typed)
}

/// Whether an instruction is typed over the operands, which it changes.
#[cycle(deciding)]
fn is_instr_typed<'a>(
    alloc: Global,
    scope: Scope<'a>,
    labels: &mut Vec<&'a [Ty]>,
    operands: &mut Operands<Ty>,
    instr: &'a Instr,
) -> Result<bool, AllocError>
    ensures judged { IfOk result (Judged (context_of scope.entry) (labels_of labels.old.items) instr.now operands.old operands.new) }
    ensures labels { IfOk result (λ typed. typed ≡ true → labels.new.items ≡ labels.old.items) }
{
    if !holds_code(instr) {
        return decide_leaf(alloc, scope, labels.as_slice(), operands, instr);
    }
    is_nested_typed(alloc, scope, labels, operands, instr)
}

/// Whether an instruction that holds code, with one arm or two, is typed over the operands, which it changes.
#[cycle(deciding)]
fn is_nested_typed<'a>(
    alloc: Global,
    scope: Scope<'a>,
    labels: &mut Vec<&'a [Ty]>,
    operands: &mut Operands<Ty>,
    instr: &'a Instr,
) -> Result<bool, AllocError>
    requires { holds_code (out-Instr instr.now) ≡ true }
    ensures judged { IfOk result (Judged (context_of scope.entry) (labels_of labels.old.items) instr.now operands.old operands.new) }
    ensures labels { IfOk result (λ typed. typed ≡ true → labels.new.items ≡ labels.old.items) }
{
    let Some(nested) = nested_of(scope, labels.as_slice(), instr) else {
        return Ok(false);
    };
    if !is_arm_typed(alloc, scope, labels, operands, nested, nested.first)? {
        return Ok(false);
    }
    let Some(second) = nested.second else {
        return decide_nested(operands, nested, None);
    };
    if !is_arm_typed(alloc, scope, labels, operands, nested, second)? {
        return Ok(false);
    }
    decide_nested(operands, nested, Some(Ty::I32))
}
