// Types code, and gives it as nodes without what cannot be reached.

ghost use Rattle.std.specs.Prelude.{◌≡◌, [], ◌∷◌, ◌++◌, List, true, false, IfOk, IfSome};
ghost use Rattle.wasm_ast.specs.declared.module.ty.Ty.{Ty as ValueType};
ghost use Rattle.wasm_ast.specs.declared.module.code.Instr.{out-Instr};
ghost use Rattle.wasm_ast.specs.declared.module.code.Instr.TheOpen.{Instr-F};
ghost use Rattle.typing_kit.specs.Steps.{IsLeaf, IsPlanOf};
ghost use Rattle.typed_trees.specs.Contexts.{Context};
ghost use Rattle.typed_trees.specs.Forms.{form};
ghost use Rattle.valid_new.specs.Bodies.{AreBodies, BodyOr, IsMet, WentOr};
ghost use Rattle.valid_new.specs.Nested.{holds_code, nested_form};
ghost use Rattle.valid_new.specs.Scopes.{context_of, labels_of};

use crate::nested::{Nested, emptied, holds_code, nested_of};
use crate::nodes::{leaf_of, node_of, room_for};
use crate::plans::plan_of;
use crate::scope::{Scope, label_types, labels_at};
use crate::values::Values;
use sqlite_items::Items;
use std::alloc::{AllocError, Global};
use typed_trees::Nodes;
use typing_kit::{Met, Operands, Plan, fits_whole, step};
use wasm_ast::module::{Instr, Ty};

/// Whether the instruction is not typed over the operands that it met.
pub fn is_untyped(met: Met<Ty>) -> bool
    ensures untyped { result ≡ true → met ≡ Met.Untyped }
    ensures typed { result ≡ false → IsMet met }
{
    match met {
        Met::Untyped => true,
        Met::Planned | Met::One(_) => false,
    }
}

/// Types an instruction by its plan. Where it is reached its node is put behind the nodes.
fn type_planned(
    alloc: Global,
    operands: &mut Operands<Ty>,
    instr: &Instr,
    plan: Plan<'_, Ty>,
    nodes: &mut Nodes,
) -> Result<bool, AllocError>
    ensures { (c : Context) (labels : List (List ValueType)) → IsPlanOf plan.entry (form c labels instr.now) → IsLeaf plan.entry → IfOk result (WentOr c labels instr.now operands.old operands.new nodes.old nodes.new) }
{
    let reached = !operands.is_dead();
    let met = step::<Values>(operands, plan)?;
    if is_untyped(met) {
        return Ok(false);
    }
    if reached {
        nodes.push(leaf_of(alloc, instr, plan, met)?)?;
    }
    Ok(true)
}

/// Types an instruction that holds no code.
fn type_leaf<'a>(
    alloc: Global,
    scope: Scope<'a>,
    labels: &[&'a [Ty]],
    operands: &mut Operands<Ty>,
    instr: &'a Instr,
    nodes: &mut Nodes,
) -> Result<bool, AllocError>
    requires { holds_code (out-Instr instr.now) ≡ false }
    ensures { IfOk result (WentOr (context_of scope.entry) (labels_of labels.now) instr.now operands.old operands.new nodes.old nodes.new) }
{
    match instr {
        Instr::BrTable(others, last) => {
            type_table(
                alloc,
                labels,
                operands,
                instr,
                others.as_slice(),
                *last,
                nodes,
            )
        }
        _ => {
            let plan = plan_of(scope, labels, instr);
            type_planned(alloc, operands, instr, plan, nodes)
        }
    }
}

/// Types a br_table to these labels.
fn type_table(
    alloc: Global,
    labels: &[&[Ty]],
    operands: &mut Operands<Ty>,
    instr: &Instr,
    others: &[u32],
    last: u32,
    nodes: &mut Nodes,
) -> Result<bool, AllocError>
    requires { out-Instr instr.now ≡ Instr-F.BrTable others.now last }
    ensures { (c : Context) → IfOk result (WentOr c (labels_of labels.now) instr.now operands.old operands.new nodes.old nodes.new) }
{
    let Some(last) = label_types(labels, last) else {
        return Ok(false);
    };
    let Some(others) = labels_at(alloc, labels, others)? else {
        return Ok(false);
    };
    type_planned(
        alloc,
        operands,
        instr,
        Plan::Table(last, others.as_slice()),
        nodes,
    )
}

/// Types code over values of the first types, and asks that it leaves values of the second ones and no others. The
/// operands and labels around it are as before.
#[cycle(bodies)]
pub fn type_code<'a>(
    alloc: Global,
    scope: Scope<'a>,
    labels: &mut Vec<&'a [Ty]>,
    operands: &mut Operands<Ty>,
    takes: &[Ty],
    gives: &[Ty],
    code: &'a [Instr],
) -> Result<Option<Nodes>, AllocError>
    ensures body { IfOk result (BodyOr (context_of scope.entry) (labels_of labels.old.items) code.now takes.now gives.now) }
    ensures operands { IfOk result (λ found. IfSome found (λ nodes. operands.new ≡ operands.old)) }
    ensures labels { IfOk result (λ found. IfSome found (λ nodes. labels.new.items ≡ labels.old.items)) }
{
    let mut nodes = room_for(alloc, code.len())?;
    let covered = operands.begin();
    operands.push_all(takes)?;
    for instr in code {
        if !type_instr(alloc, scope, labels, operands, instr, &mut nodes)? {
            return Ok(None);
        }
    }
    let fits = fits_whole::<Values>(operands, gives);
    operands.end(covered);
    if fits { Ok(Some(nodes)) } else { Ok(None) }
}

/// Types the code of an instruction that holds code, behind its label.
#[cycle(bodies)]
fn type_arm<'a>(
    alloc: Global,
    scope: Scope<'a>,
    labels: &mut Vec<&'a [Ty]>,
    operands: &mut Operands<Ty>,
    nested: Nested<'a>,
    code: &'a [Instr],
) -> Result<Option<Nodes>, AllocError>
    ensures body { IfOk result (BodyOr (context_of scope.entry) (nested.entry.label.now ∷ labels_of labels.old.items) code.now nested.entry.takes.now nested.entry.gives.now) }
    ensures operands { IfOk result (λ found. IfSome found (λ nodes. operands.new ≡ operands.old)) }
    ensures labels { IfOk result (λ found. IfSome found (λ nodes. labels.new.items ≡ labels.old.items)) }
{
    labels.push(nested.label)?;
    let found = type_code(
        alloc,
        scope,
        labels,
        operands,
        nested.takes,
        nested.gives,
        code,
    )?;
    labels.pop();
    Ok(found)
}

/// Types an instruction. Where it is reached its node is put behind the nodes.
#[cycle(bodies)]
fn type_instr<'a>(
    alloc: Global,
    scope: Scope<'a>,
    labels: &mut Vec<&'a [Ty]>,
    operands: &mut Operands<Ty>,
    instr: &'a Instr,
    nodes: &mut Nodes,
) -> Result<bool, AllocError>
    ensures went { IfOk result (WentOr (context_of scope.entry) (labels_of labels.old.items) instr.now operands.old operands.new nodes.old nodes.new) }
    ensures labels { IfOk result (λ yes. yes ≡ true → labels.new.items ≡ labels.old.items) }
{
    if !holds_code(instr) {
        return type_leaf(alloc, scope, labels.as_slice(), operands, instr, nodes);
    }
    match nested_of(scope, labels.as_slice(), instr) {
        Some(nested) => type_nested(alloc, scope, labels, operands, instr, nested, nodes),
        None => Ok(false),
    }
}

/// Types an instruction that holds code, with one arm or two.
#[cycle(bodies)]
fn type_nested<'a>(
    alloc: Global,
    scope: Scope<'a>,
    labels: &mut Vec<&'a [Ty]>,
    operands: &mut Operands<Ty>,
    instr: &'a Instr,
    nested: Nested<'a>,
    nodes: &mut Nodes,
) -> Result<bool, AllocError>
    requires code { holds_code (out-Instr instr.now) ≡ true }
    requires form { form (context_of scope) (labels_of labels.old.items) instr.now ≡ nested_form nested nested.second }
    ensures went { IfOk result (WentOr (context_of scope.entry) (labels_of labels.old.items) instr.now operands.old operands.new nodes.old nodes.new) }
    ensures labels { IfOk result (λ yes. yes ≡ true → labels.new.items ≡ labels.old.items) }
{
    let Some(first) = type_arm(alloc, scope, labels, operands, nested, nested.first)? else {
        return Ok(false);
    };
    let Some(second) = nested.second else {
        return put_nested(
            alloc,
            operands,
            instr,
            nested,
            None,
            first,
            Items::new(alloc),
            nodes,
        );
    };
    let Some(second) = type_arm(alloc, scope, labels, operands, nested, second)? else {
        return Ok(false);
    };
    put_nested(
        alloc,
        operands,
        instr,
        nested,
        Some(Ty::I32),
        first,
        second,
        nodes,
    )
}

/// Types an instruction that holds typed code. Where it is reached its node is put behind the nodes.
fn put_nested(
    alloc: Global,
    operands: &mut Operands<Ty>,
    instr: &Instr,
    nested: Nested<'_>,
    top: Option<Ty>,
    first: Nodes,
    second: Nodes,
    nodes: &mut Nodes,
) -> Result<bool, AllocError>
    requires { holds_code (out-Instr instr.now) ≡ true }
    ensures { (c : Context) (labels : List (List ValueType)) → form c labels instr.now ≡ nested_form nested.entry nested.entry.second → AreBodies c labels nested.entry top first second → IfOk result (WentOr c labels instr.now operands.old operands.new nodes.old nodes.new) }
{
    let reached = !operands.is_dead();
    let met = step::<Values>(operands, Plan::Flat(nested.takes, top, nested.gives))?;
    if is_untyped(met) {
        return Ok(false);
    }
    if reached {
        let head = emptied(alloc, instr)?;
        let node = node_of(alloc, head, nested.takes, top, nested.gives, first, second)?;
        nodes.push(node)?;
    }
    Ok(true)
}
