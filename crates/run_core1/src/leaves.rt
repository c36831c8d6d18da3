// Plain instructions on the stacks of a machine.
ghost use Rattle.meaning_core1.specs.declared.val1.Val1.{Val1};
ghost use Rattle.std.specs.Prelude.{◌≡◌, ℕ, List, set, slice_index_or, IfOk};
ghost use Rattle.core1_ast.specs.declared.module.code.Instr1.{out-Instr1};
ghost use Rattle.core1_ast.specs.declared.module.parts.Module1.{Module1};
ghost use Rattle.evaluation_kit.specs.Leaves.{top, below, on_operands};
ghost use Rattle.machine_kit.specs.Heads.{StepIs};
ghost use Rattle.meaning_core1.specs.Language.{layer1};
ghost use Rattle.meaning_core1.specs.Store.{State1, absent};
ghost use Rattle.meaning_core1.specs.Operators.{pure_op};
ghost use Rattle.run_core1.specs.Leaves.{act1, Settles, Ends, IsOnLocals, IsParametric, IsOnStore, IsJump};

use crate::change::Change;
use crate::numeric::{
    binary_operator, branch_if, branch_table, comparison, conversion, select, test_operator,
    unary_operator,
};
use crate::slot::{ABSENT, Slot};
use crate::state::State;
use core1_ast::module::{Instr1, Op1};
use evaluation_kit::Jump;
use machine_kit::{Locals, Operands, Step};
use std::alloc::AllocError;

/// The operand on the top.
pub(crate) fn top(operands: &Operands<Slot>) -> Slot
    ensures { result ≡ top absent operands.now.used }
{
    operands.peek(0).unwrap_or(ABSENT)
}

/// The operand below the top.
fn next(operands: &Operands<Slot>) -> Slot
    ensures { result ≡ top absent (below operands.now.used) }
{
    operands.peek(1).unwrap_or(ABSENT)
}

/// The operand below the two on the top.
fn third(operands: &Operands<Slot>) -> Slot
    ensures { result ≡ top absent (below (below operands.now.used)) }
{
    operands.peek(2).unwrap_or(ABSENT)
}

/// Makes a change to the operands. The answer is the jump by which the instruction ends, if it does not end at its end.
#[inline(always)]
pub(crate) fn settle(
    change: Change,
    operands: &mut Operands<Slot>,
) -> Result<Option<Jump>, AllocError>
    ensures { IfOk result (λ jump. Settles change operands.old operands.new jump) }
{
    match change {
        Change::Take(count) => {
            operands.drop_top(count);
            Ok(None)
        }
        Change::Put(count, value) => {
            operands.put(count, value)?;
            Ok(None)
        }
        Change::Exit(count, jump) => {
            operands.drop_top(count);
            Ok(Some(jump))
        }
    }
}

/// Does an instruction, where it neither holds code nor calls a function.
#[inline(always)]
pub(crate) fn plain(
    instr: &Instr1,
    operands: &mut Operands<Slot>,
    locals: &mut Locals<Slot>,
    state: &mut State,
) -> Result<Step, AllocError>
    ensures { (m : Module1) → IfOk result (λ step. StepIs (layer1 m Instr1 (out-Instr1 instr.now)) step operands.old locals.old state.old operands.new locals.new state.new) }
{
    match instr {
        Instr1::Pure(op) => Ok(Step::done(numeric_leaf(*op, operands)?)),
        Instr1::LocalGet(_) | Instr1::LocalSet(_) | Instr1::LocalTee(_) => {
            Ok(Step::done(local_leaf(instr, operands, locals)?))
        }
        Instr1::Drop | Instr1::Select | Instr1::Nop => {
            Ok(Step::done(parametric_leaf(instr, operands)?))
        }
        Instr1::GlobalGet(_)
        | Instr1::GlobalSet(_)
        | Instr1::Load(_, _)
        | Instr1::Store(_, _)
        | Instr1::MemorySize
        | Instr1::MemoryGrow => Ok(Step::done(store_leaf(instr, operands, state)?)),
        Instr1::Unreachable
        | Instr1::Br(_)
        | Instr1::BrIf(_)
        | Instr1::BrTable(_, _)
        | Instr1::Return
        | Instr1::Float(_, _) => Ok(Step::done(jump_leaf(instr, operands)?)),
        Instr1::Block(_, _)
        | Instr1::Loop(_, _)
        | Instr1::If(_, _, _)
        | Instr1::Call(_)
        | Instr1::CallIndirect(_) => Ok(Step::Form),
    }
}

/// Does drop, select or nop.
#[inline(always)]
fn parametric_leaf(
    instr: &Instr1,
    operands: &mut Operands<Slot>,
) -> Result<Option<Jump>, AllocError>
    requires { IsParametric (out-Instr1 instr.now) }
    ensures { (m : Module1) (l : List Val1) (s : State1) → IfOk result (λ jump. Ends (act1 m instr.now) operands.old l s operands.new l s jump) }
{
    match instr {
        Instr1::Drop => settle(Change::Take(1), operands),
        Instr1::Select => {
            let change = select(top(operands), next(operands), third(operands));
            settle(change, operands)
        }
        _ => Ok(None),
    }
}

/// Does a numeric instruction.
#[inline(always)]
fn numeric_leaf(op: Op1, operands: &mut Operands<Slot>) -> Result<Option<Jump>, AllocError>
    ensures { (l : List Val1) (s : State1) → IfOk result (λ jump. Ends (on_operands (pure_op op)) operands.old l s operands.new l s jump) }
{
    match op {
        Op1::I32Const(i) => settle(Change::Put(0, Slot::i32(i)), operands),
        Op1::I64Const(i) => settle(Change::Put(0, Slot::i64(i)), operands),
        Op1::Eqz(width) => {
            let change = test_operator(width, top(operands));
            settle(change, operands)
        }
        Op1::Compare(width, op) => {
            let change = comparison(width, op, top(operands), next(operands));
            settle(change, operands)
        }
        Op1::Unary(width, op) => {
            let change = unary_operator(width, op, top(operands));
            settle(change, operands)
        }
        Op1::Binary(width, op) => {
            let change = binary_operator(width, op, top(operands), next(operands));
            settle(change, operands)
        }
        Op1::Convert(op) => {
            let change = conversion(op, top(operands));
            settle(change, operands)
        }
    }
}

/// Does an instruction on locals.
#[inline(always)]
fn local_leaf(
    instr: &Instr1,
    operands: &mut Operands<Slot>,
    locals: &mut Locals<Slot>,
) -> Result<Option<Jump>, AllocError>
    requires { IsOnLocals (out-Instr1 instr.now) }
    ensures act { (m : Module1) (s : State1) → IfOk result (λ jump. Ends (act1 m instr.now) operands.old locals.old.used s operands.new locals.new.used s jump) }
    ensures aside { locals.new.aside ≡ locals.old.aside }
{
    match instr {
        Instr1::LocalGet(index) => settle(Change::Put(0, local(locals, *index)), operands),
        Instr1::LocalSet(index) => {
            locals.set(*index as usize, top(operands));
            settle(Change::Take(1), operands)
        }
        Instr1::LocalTee(index) => {
            locals.set(*index as usize, top(operands));
            Ok(None)
        }
        _ => Ok(None),
    }
}

/// The local with this index.
fn local(locals: &Locals<Slot>, index: u32) -> Slot
    ensures { result ≡ slice_index_or locals.now.used index absent }
{
    match locals.get(index as usize) {
        Some(value) => value,
        None => ABSENT,
    }
}

/// Does an instruction on globals or memory.
fn store_leaf(
    instr: &Instr1,
    operands: &mut Operands<Slot>,
    state: &mut State,
) -> Result<Option<Jump>, AllocError>
    requires { IsOnStore (out-Instr1 instr.now) }
    ensures { (m : Module1) (l : List Val1) → IfOk result (λ jump. Ends (act1 m instr.now) operands.old l state.old operands.new l state.new jump) }
{
    match instr {
        Instr1::GlobalGet(global) => settle(state.global_get(*global), operands),
        Instr1::GlobalSet(global) => {
            let change = state.global_set(*global, top(operands));
            settle(change, operands)
        }
        Instr1::Load(op, at) => {
            let change = state.load(*op, *at, top(operands));
            settle(change, operands)
        }
        Instr1::Store(op, at) => {
            let change = state.store(*op, *at, top(operands), next(operands));
            settle(change, operands)
        }
        Instr1::MemorySize => settle(state.memory_size(), operands),
        Instr1::MemoryGrow => {
            let change = state.memory_grow(top(operands))?;
            settle(change, operands)
        }
        _ => Ok(None),
    }
}

/// Does a plain instruction of control.
#[inline(always)]
fn jump_leaf(instr: &Instr1, operands: &mut Operands<Slot>) -> Result<Option<Jump>, AllocError>
    requires { IsJump (out-Instr1 instr.now) }
    ensures { (m : Module1) (l : List Val1) (s : State1) → IfOk result (λ jump. Ends (act1 m instr.now) operands.old l s operands.new l s jump) }
{
    match instr {
        Instr1::Br(label) => Ok(Some(Jump::Branch(*label))),
        Instr1::BrIf(label) => {
            let change = branch_if(*label, top(operands));
            settle(change, operands)
        }
        Instr1::BrTable(labels, last) => {
            let change = branch_table(labels.as_slice(), *last, top(operands));
            settle(change, operands)
        }
        Instr1::Return => Ok(Some(Jump::Return)),
        _ => Ok(Some(Jump::Trap)),
    }
}
