// Constant expressions (the standard's "Constant Expressions").
ghost use Rattle.std.specs.Prelude.{◌≡◌, ℕ, List, []};
ghost use Rattle.core1_ast.specs.declared.module.code.Instr1.{out-Instr1};
ghost use Rattle.evaluation_kit.specs.Leaves.{top};
ghost use Rattle.meaning_core1.specs.Store.{absent};
ghost use Rattle.meaning_core1.specs.Instances.{const_step, const_value, kept_or};
ghost use Rattle.meaning_core1.specs.Operators.{pure_op};
ghost use Rattle.run_core1.specs.Constants.{IsConstantOp, IsConstantInstr, IsConstantCode};

use crate::slot::{ABSENT, Slot};
use core1_ast::module::{Instr1, Op1};

/// The value of a constant expression, by the globals that are there.
pub(crate) fn constant(globals: &[Slot], code: &[Instr1]) -> Slot
    requires { IsConstantCode code.now }
    ensures { result ≡ const_value globals.now code.now }
{
    match code.last() {
        Some(instr) => constant_of(globals, instr),
        None => ABSENT,
    }
}

/// The value of an instruction that is a constant.
fn constant_of(globals: &[Slot], instr: &Instr1) -> Slot
    requires { IsConstantInstr (out-Instr1 instr.now) }
    ensures { result ≡ top absent (const_step globals.now (out-Instr1 instr.now) []) }
{
    match instr {
        Instr1::GlobalGet(global) => {
            let value = globals.get(*global as usize).copied();
            value.unwrap_or(ABSENT)
        }
        Instr1::Pure(op) => constant_operator(*op),
        _ => ABSENT,
    }
}

/// The value of an operator that is a constant.
fn constant_operator(op: Op1) -> Slot
    requires { IsConstantOp op }
    ensures { result ≡ top absent (kept_or [] (pure_op op [])) }
{
    match op {
        Op1::I32Const(i) => Slot::i32(i),
        Op1::I64Const(i) => Slot::i64(i),
        _ => ABSENT,
    }
}
