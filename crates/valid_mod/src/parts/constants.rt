// Constant expressions.

ghost use Rattle.std.specs.Prelude.{◌≡◌, [], ◌∷◌, slice_get, IfOk};
ghost use Rattle.std.specs.List.{list_all, AllByRecursion};
ghost use Rattle.typing_kit.specs.Matching.{known};
ghost use Rattle.typing_kit.specs.Typing.{TypedCode};
ghost use Rattle.typed_trees.specs.Constants.{is_constant, is_constant_binary, is_constant_op, is_fixed, TypedConstant};
ghost use Rattle.typed_trees.specs.Forms.{language};
ghost use Rattle.valid_new.specs.Scopes.{spaces_context};
ghost use Rattle.valid_new.specs.Judged.{Decided};

use num_core::operators::Bin;
use std::alloc::{AllocError, Global};
use typing_kit::Operands;
use valid_new::{Scope, Spaces, is_code_typed};
use wasm_ast::module::{Code, Instr, Op, Ty};

/// Whether the operator may stand in a constant expression.
fn is_constant_binary(op: Bin) -> bool
    ensures { result ≡ is_constant_binary op }
{
    matches!(op, Bin::Add | Bin::Sub | Bin::Mul)
}

fn is_constant_op(op: Op) -> bool
    ensures { result ≡ is_constant_op op }
{
    match op {
        Op::I32Const(_) | Op::I64Const(_) | Op::V128Const(_) | Op::RefNull(_) | Op::RefFunc(_) =>
            true,
        Op::Binary(_, op) => is_constant_binary(op),
        _ => false,
    }
}

/// Whether there is the global among these index spaces, and it cannot be changed.
fn is_fixed(spaces: &Spaces<'_>, global: u32) -> bool
    ensures { result ≡ is_fixed (slice_get (spaces_context spaces.now).globals global) }
{
    match spaces.globals.as_slice().get(global as usize) {
        Some(found) => !found.mutable,
        None => false,
    }
}

/// Whether the instruction may stand in a constant expression.
fn is_constant(spaces: &Spaces<'_>, instr: &Instr) -> bool
    ensures { result ≡ is_constant (spaces_context spaces.now) instr.now }
{
    match instr {
        Instr::Pure(op) => is_constant_op(*op),
        Instr::GlobalGet(global) => is_fixed(spaces, *global),
        _ => false,
    }
}

fn are_constant(spaces: &Spaces<'_>, code: &[Instr]) -> bool
    ensures { result ≡ list_all (is_constant (spaces_context spaces.now)) code.now }
{
    for instr in code {
        if !is_constant(spaces, instr) {
            return false;
        }
    }
    true
}

/// Whether the code leaves one value of the type.
fn leaves_value(
    alloc: Global,
    spaces: &Spaces<'_>,
    code: &[Instr],
    ty: Ty,
) -> Result<bool, AllocError>
    ensures { IfOk result (λ yes. Decided yes (TypedCode (language (spaces_context spaces.now)) [] code.now [] (known (ty ∷ [])))) }
{
    let scope = Scope {
        spaces,
        params: &[],
        locals: &[],
        returns: None,
    };
    let mut labels = Vec::new(alloc);
    let mut operands = Operands::new(alloc);
    let gives = [ty];
    is_code_typed(alloc, scope, &mut labels, &mut operands, &[], &gives, code)
}

/// Whether the code is a constant expression of the type among these index spaces ("Constant Expressions" of chapter 3).
/// It fails for want of memory alone.
pub fn is_typed_constant(
    alloc: Global,
    spaces: &Spaces<'_>,
    code: &Code,
    ty: Ty,
) -> Result<bool, AllocError>
    ensures { IfOk result (λ yes. Decided yes (TypedConstant (spaces_context spaces.now) code.now ty)) }
{
    if !are_constant(spaces, code.as_slice()) {
        return Ok(false);
    }
    leaves_value(alloc, spaces, code.as_slice(), ty)
}

/// Whether each is a constant expression of the type.
pub fn are_typed_constants(
    alloc: Global,
    spaces: &Spaces<'_>,
    codes: &[Code],
    ty: Ty,
) -> Result<bool, AllocError>
    ensures { IfOk result (λ yes. Decided yes (AllByRecursion (λ code. TypedConstant (spaces_context spaces.now) code ty) codes.now)) }
{
    for code in codes {
        if !is_typed_constant(alloc, spaces, code, ty)? {
            return Ok(false);
        }
    }
    Ok(true)
}
