ghost use Rattle.std.specs.Prelude.{◌≡◌, map};
ghost use Rattle.std.specs.Option.{option_map};
ghost use Rattle.core1_ast.specs.declared.module.code.Instr1.{out-Instr1};
ghost use Rattle.valid_core1.specs.Constants.{constant_type as constant_type_of, const_type as const_type_of, fixed_type, has_type, is_constant as is_constant_of};
ghost use Rattle.valid_core1.specs.Scopes.{global_type};

use crate::spaces::GlobalTy;
use crate::types::is_same;
use core1_ast::module::{Code1, Instr1, Op1, Ty1};
use sqlite_items::at;

/// The type of a constant.
fn const_type(op: Op1) -> Option<Ty1>
    ensures { result ≡ const_type_of op }
{
    match op {
        Op1::I32Const(_) => Some(Ty1::I32),
        Op1::I64Const(_) => Some(Ty1::I64),
        _ => None,
    }
}

/// The type of a global that cannot be changed.
fn fixed(global: Option<GlobalTy>) -> Option<Ty1>
    ensures { result ≡ fixed_type (option_map global_type global) }
{
    match global {
        Some(global) if !global.mutable => Some(global.ty),
        _ => None,
    }
}

/// The type of an instruction that is a constant expression by itself, which may name these globals.
fn constant_type(globals: &[GlobalTy], instr: &Instr1) -> Option<Ty1>
    ensures { result ≡ constant_type_of (map global_type globals.now) (out-Instr1 instr.now) }
{
    match instr {
        Instr1::Pure(op) => const_type(*op),
        Instr1::GlobalGet(index) => fixed(at(globals, *index as usize).copied()),
        _ => None,
    }
}

/// Whether this is the type.
fn has_type(found: Option<Ty1>, ty: Ty1) -> bool
    ensures { result ≡ has_type found ty }
{
    match found {
        Some(found) => is_same(found, ty),
        None => false,
    }
}

/// Whether the code is a constant expression of the type, which may name these globals.
pub fn is_constant(globals: &[GlobalTy], code: &Code1, ty: Ty1) -> bool
    ensures { result ≡ is_constant_of (map global_type globals.now) code.now ty }
{
    match code.as_slice() {
        [instr] => has_type(constant_type(globals, instr), ty),
        _ => false,
    }
}
