// The typing of code.

ghost use Rattle.std.specs.Prelude.{◌≡◌, true, false, List, IfOk};
ghost use Rattle.core1_ast.specs.declared.module.ty.BlockType1.{BlockType1};
ghost use Rattle.core1_ast.specs.declared.module.code.Instr1.{Instr1, out-Instr1};
ghost use Rattle.valid_core1.specs.Checks.{HoldsNone, Judged, IsInside, IsBlock, IsChoice, Opens, Decided};
ghost use Rattle.valid_core1.specs.declared.scope.Scope.{Scope};
ghost use Rattle.valid_core1.specs.Scopes.{AreSpaces};

use crate::labels::{is_block, is_short};
use crate::plan::plan_of;
use crate::scope::Scope;
use crate::types::{Types1, results};
use core1_ast::module::{BlockType1, Code1, Instr1, Ty1};
use sqlite_items::Items;
use std::alloc::AllocError;
use typing_kit::{Met, Operands, fits, fits_whole, step};

/// Whether an instruction that holds no code is typed over the operands, which it changes.
fn check_leaf(
    scope: &Scope<'_>,
    labels: &[BlockType1],
    operands: &mut Operands<Ty1>,
    instr: &Instr1,
) -> Result<bool, AllocError>
    requires spaces { AreSpaces scope.now.module.now scope.now.spaces.now }
    requires leaf { HoldsNone (out-Instr1 instr.now) }
    ensures { IfOk result (λ typed. Judged scope.now labels.now instr.now operands.old operands.new typed) }
{
    let plan = plan_of(scope, labels, instr);
    match step::<Types1>(operands, plan)? {
        Met::Untyped => Ok(false),
        Met::Planned => Ok(true),
        Met::One(_) => Ok(true),
    }
}

/// Whether a block, or a loop by the label that a branch to it takes, is typed over the operands, which it changes.
#[cycle(typing)]
fn check_block(
    scope: &Scope<'_>,
    labels: &mut Items<BlockType1>,
    operands: &mut Operands<Ty1>,
    label: BlockType1,
    ty: BlockType1,
    code: &Code1,
) -> Result<bool, AllocError>
    requires { AreSpaces scope.now.module.now scope.now.spaces.now }
    ensures judged { IfOk result (λ typed. (i : Instr1) → IsBlock scope.now labels.old label ty code.now i → Judged scope.now labels.old i operands.old operands.new typed) }
    ensures labels { IfOk result (λ typed. typed ≡ true → labels.new ≡ labels.old) }
{
    if !is_block(ty, code) {
        return Ok(false);
    }
    if !check_code(scope, labels, operands, label, ty, code)? {
        return Ok(false);
    }
    operands.push_all(results(ty))?;
    Ok(true)
}

/// Whether an if may have these results and arms here, over a condition, which it takes.
fn opens_choice(operands: &mut Operands<Ty1>, ty: BlockType1, first: &Code1, second: &Code1) -> bool
    ensures opened { result ≡ true → Opens ty first.now second.now operands.old operands.new }
    ensures refused { result ≡ false → (s : Scope) (labels : List BlockType1) (i : Instr1) → IsChoice s labels ty first.now second.now i → Judged s labels i operands.old operands.new false }
{
    if !is_block(ty, first) {
        return false;
    }
    if !is_short(second.len()) {
        return false;
    }
    if !fits::<Types1>(operands, 0, &[Ty1::I32]) {
        return false;
    }
    operands.take(1);
    true
}

/// Whether the instruction is typed over the operands, which it changes.
#[cycle(typing)]
fn check_instr(
    scope: &Scope<'_>,
    labels: &mut Items<BlockType1>,
    operands: &mut Operands<Ty1>,
    instr: &Instr1,
) -> Result<bool, AllocError>
    requires { AreSpaces scope.now.module.now scope.now.spaces.now }
    ensures judged { IfOk result (λ typed. Judged scope.now labels.old instr.now operands.old operands.new typed) }
    ensures labels { IfOk result (λ typed. typed ≡ true → labels.new ≡ labels.old) }
{
    match instr {
        Instr1::Block(ty, code) => check_block(scope, labels, operands, *ty, *ty, code),
        Instr1::Loop(ty, code) => {
            check_block(scope, labels, operands, BlockType1::Empty, *ty, code)
        }
        Instr1::If(ty, first, second) => {
            if !opens_choice(operands, *ty, first, second) {
                return Ok(false);
            }
            if !check_code(scope, labels, operands, *ty, *ty, first)? {
                return Ok(false);
            }
            if !check_code(scope, labels, operands, *ty, *ty, second)? {
                return Ok(false);
            }
            operands.push_all(results(*ty))?;
            Ok(true)
        }
        _ => check_leaf(scope, labels.as_slice(), operands, instr),
    }
}

/// Whether the code is typed under a label of its own, over no operands, with these results. Where it is, the labels and
/// the operands are as before.
#[cycle(typing)]
pub fn check_code(
    scope: &Scope<'_>,
    labels: &mut Items<BlockType1>,
    operands: &mut Operands<Ty1>,
    label: BlockType1,
    ty: BlockType1,
    code: &Code1,
) -> Result<bool, AllocError>
    requires { AreSpaces scope.now.module.now scope.now.spaces.now }
    ensures typed { IfOk result (λ typed. Decided typed (IsInside scope.now labels.old label ty code.now)) }
    ensures labels { IfOk result (λ typed. typed ≡ true → labels.new ≡ labels.old) }
    ensures operands { IfOk result (λ typed. typed ≡ true → operands.new ≡ operands.old) }
{
    labels.push(label)?;
    let covered = operands.begin();
    for instr in code.as_slice() {
        if !check_instr(scope, labels, operands, instr)? {
            return Ok(false);
        }
    }
    let typed = fits_whole::<Types1>(operands, results(ty));
    operands.end(covered);
    let _label = labels.pop();
    Ok(typed)
}
