// Constant expressions (the standard's "Constant Expressions").
ghost use Rattle.std.specs.Prelude.{◌≡◌, List, [], IfOk, OnOk};
ghost use Rattle.wasm_ast.specs.declared.module.code.Instr.{out-Instr};
ghost use Rattle.evaluation_kit.specs.Leaves.{top};
ghost use Rattle.meaning_new.specs.Store.{missing};
ghost use Rattle.meaning_new.specs.Numeric.{pure};
ghost use Rattle.meaning_new.specs.Instances.{or_same, constant_step, constant_steps, constant};

use crate::leaves::{next, third, top};
use crate::numeric::pure;
use crate::slot::{MISSING, Slot};
use machine_kit::Operands;
use run_kit::Change;
use std::alloc::{AllocError, Global};
use wasm_ast::module::{Instr, Op};

/// The value of a constant expression, by the globals that are there. It fails for want of memory alone.
pub(crate) fn constant(alloc: Global, globals: &[Slot], code: &[Instr]) -> Result<Slot, AllocError>
    ensures { IfOk result (λ value. value ≡ constant globals.now code.now) }
{
    let mut operands = Operands::new(alloc);
    for instr in code {
        step(globals, instr, &mut operands)?;
    }
    Ok(top(&operands))
}

/// Does an instruction of a constant expression.
fn step(globals: &[Slot], instr: &Instr, operands: &mut Operands<Slot>) -> Result<(), AllocError>
    ensures { OnOk result (operands.new ≡ record operands.old { used = constant_step globals.now (out-Instr instr.now) operands.old.used }) }
{
    match instr {
        Instr::GlobalGet(global) => {
            let value = globals.get(*global as usize).copied();
            operands.push(value.unwrap_or(MISSING))
        }
        Instr::Pure(op) => pure_step(*op, operands),
        _ => Ok(()),
    }
}

/// Does an operator of a constant expression, which changes nothing where it traps.
fn pure_step(op: Op, operands: &mut Operands<Slot>) -> Result<(), AllocError>
    ensures { OnOk result (operands.new ≡ record operands.old { used = or_same operands.old.used (pure op operands.old.used) }) }
{
    match pure(op, top(operands), next(operands), third(operands)) {
        Change::Take(count) => {
            operands.drop_top(count);
            Ok(())
        }
        Change::Put(count, value) => {
            operands.drop_top(count);
            operands.push(value)?;
            Ok(())
        }
        Change::Exit(_, _) => Ok(()),
    }
}
