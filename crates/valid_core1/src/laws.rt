// What holds of every module, whatever decides its typing.

ghost use Rattle.std.specs.Prelude.{◌≡◌, ◌↔◌, ℕ, List, Result};
ghost use Rattle.core1_ast.specs.declared.module.ty.Ty1.{Ty1};
ghost use Rattle.core1_ast.specs.declared.module.code.Instr1.{Instr1};
ghost use Rattle.core1_ast.specs.declared.module.parts.Module1.{Module1};
ghost use Rattle.core1_ast.specs.Code.{Context, TypedCode};
ghost use Rattle.core1_ast.specs.Typing.{Typed1 as IsTyped};
ghost use Rattle.typing_kit.specs.Matching.{known};
ghost use Rattle.typing_kit.specs.declared.operand.Operand.{Operand};
ghost use Rattle.typing_kit.specs.Standard.{StandardCode};
ghost use Rattle.typing_kit.specs.Typing.{TypedCode as KitTypedCode};
ghost use Rattle.valid_core1.specs.declared.invalid.Invalid.{Invalid};
ghost use Rattle.valid_core1.specs.Forms.{language};
ghost use Rattle.valid_core1.specs.Verdict.{Settles};

/// Of any module one answer is right, want of memory aside.
pub fn one_answer()
    ensures { (m : Module1) (r s : Result Module1 Invalid) → Settles m r → Settles m s → r ≡ s }
{}

/// The rules of 1.0, one for each instruction, type the same code as the rules over the forms of 1.0, in which operands
/// of type bot stand for what code that cannot be reached takes from nowhere.
pub fn same_rules()
    ensures { (c : Context) (body : List Instr1) (stack after : List Ty1) → KitTypedCode (language c) c.labels body (known stack) (known after) ↔ TypedCode c body stack after }
{}

/// The rules over forms type the same code as the standard's rules in their own shape: code is empty, one instruction or
/// a sequence, over a frame of operands that it leaves as they are, and up to subsumption.
pub fn standard_shape()
    ensures { (c : Context) (ls : List (List Ty1)) (body : List Instr1) (stack after : List (Operand Ty1)) → KitTypedCode (language c) ls body stack after ↔ StandardCode (language c) ls body stack after }
{}
