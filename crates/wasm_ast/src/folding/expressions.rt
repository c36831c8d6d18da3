ghost use Rattle.std.specs.Prelude.{◌≡◌, ◌∷◌, reverse, IfOk};
ghost use Rattle.wasm_ast.specs.Occurrence.{head_of};
ghost use Rattle.wasm_ast.specs.Fold.{after_binary, after_instr, fold_of, known_at, only};
ghost use Rattle.wasm_ast.specs.Fold.{outcome};

use super::folded::{Folded, combined};
use crate::module::{Instr, Op};
use num_core::operators::{Bin, Width};
use std::alloc::{AllocError, Global};

/// What the expression folds to, if it does, where `known` says of each global what it folds to, if it does.
/// It fails for want of memory alone.
pub fn fold_of(
    alloc: Global,
    known: &[Option<Folded>],
    code: &[Instr],
) -> Result<Option<Folded>, AllocError>
    ensures { IfOk result (λ folded. folded ≡ fold_of known.now code.now) }
{
    let mut stack = Vec::new(alloc);
    for instr in code {
        if !fold_instr(known, instr, &mut stack)? {
            return Ok(None);
        }
    }
    Ok(only(stack.as_slice()))
}

/// The one value of the stack, if it holds exactly one.
fn only(stack: &[Folded]) -> Option<Folded>
    ensures { result ≡ only stack.now }
{
    match stack {
        [value] => Some(*value),
        _ => None,
    }
}

/// Folds one instruction over the stack; false where the expression does not fold.
fn fold_instr(
    known: &[Option<Folded>],
    instr: &Instr,
    stack: &mut Vec<Folded>,
) -> Result<bool, AllocError>
    ensures { IfOk result (λ folds. outcome folds (reverse stack.new.items) ≡ after_instr known.now (head_of instr.now) (reverse stack.old.items)) }
{
    match instr {
        Instr::Pure(Op::I32Const(n)) => push(Folded::I32(*n), stack),
        Instr::Pure(Op::I64Const(n)) => push(Folded::I64(*n), stack),
        Instr::Pure(Op::Binary(width, op)) => fold_binary(*width, *op, stack),
        Instr::GlobalGet(global) => match known_at(known, *global) {
            Some(value) => push(value, stack),
            None => Ok(false),
        },
        _ => Ok(false),
    }
}

/// What the global with this index is known to fold to, if it does.
fn known_at(known: &[Option<Folded>], global: u32) -> Option<Folded>
    ensures { result ≡ known_at known.now global }
{
    match known.get(global as usize) {
        Some(folded) => *folded,
        None => None,
    }
}

/// Pushes the value on the stack.
fn push(value: Folded, stack: &mut Vec<Folded>) -> Result<bool, AllocError>
    ensures { IfOk result (λ folds. outcome folds (reverse stack.new.items) ≡ Some (value ∷ reverse stack.old.items)) }
{
    stack.push(value)?;
    Ok(true)
}

/// Folds a binary operator over the stack; false where it does not fold.
fn fold_binary(width: Width, op: Bin, stack: &mut Vec<Folded>) -> Result<bool, AllocError>
    ensures { IfOk result (λ folds. outcome folds (reverse stack.new.items) ≡ after_binary width op (reverse stack.old.items)) }
{
    let Some(y) = stack.pop() else {
        return Ok(false);
    };
    let Some(x) = stack.pop() else {
        return Ok(false);
    };
    match combined(width, op, x, y) {
        Some(value) => push(value, stack),
        None => Ok(false),
    }
}
