ghost use Rattle.std.specs.Prelude.{◌≡◌, ◌++◌, replicate, slice_index_or, refl, IfOk, OnOk, ℕ};
ghost use Rattle.evaluation_kit.specs.Leaves.{on_operands};
ghost use Rattle.machine_kit.specs.Heads.{Acted};
ghost use Rattle.machine_kit.specs.Stacks.{Stack};
ghost use Rattle.machine_kit.specs.Whole.{acts_of};
ghost use Rattle.machine_kit.proofs.Laws.{laws_of};
ghost use Rattle.machine_tests.specs.declared.op.Op.{out-Op, roll-out-Op};
ghost use Rattle.machine_tests.specs.Small.{small, down};

use crate::op::{Op, Program};
use evaluation_kit::Jump;
use machine_kit::{Body, Head, Locals, Operands, Step, Target, Version};
use std::alloc::AllocError;

impl Version<Op, u64, u64> for Program {
    ghost acts = { λ p. acts_of (small p) out-Op };

    fn head<'a>(&self, instr: &'a Op) -> Head<'a, Op> {
        match instr {
            Op::Const(_) | Op::Get(_) | Op::Set(_) | Op::Down | Op::Trap => Head::Flat,
            Op::Br(_) | Op::BrIf(_) | Op::Return | Op::Throw(_) | Op::Tail(_) => Head::Flat,
            Op::Block(takes, gives, code) => Head::Enclose(*takes, *gives, code.as_slice()),
            Op::Loop(takes, gives, code) => Head::Repeat(*takes, *gives, code.as_slice()),
            Op::If(takes, gives, first, second) => {
                Head::Choose(*takes, *gives, first.as_slice(), second.as_slice())
            }
            Op::Try(takes, gives, _, code) => Head::Guard(*takes, *gives, code.as_slice()),
            Op::Call(takes, func) => Head::Invoke(*takes, *func),
            Op::CallBy(takes) => Head::InvokeBy(*takes),
        }
    }

    fn leaf(
        &self,
        instr: &Op,
        operands: &mut Operands<u64>,
        locals: &mut Locals<u64>,
        _state: &mut u64,
    ) -> Result<Step, AllocError> {
        match instr {
            Op::Const(value) => {
                operands.push(*value)?;
                Ok(Step::Next)
            }
            Op::Get(index) => {
                operands.push(local(locals, *index))?;
                Ok(Step::Next)
            }
            Op::Set(index) => {
                let value = operands.peek(0).unwrap_or(0);
                operands.drop_top(1);
                locals.set(*index as usize, value);
                Ok(Step::Next)
            }
            Op::Down => Ok(Step::done(down(operands)?)),
            Op::Trap => Ok(Step::Jump(Jump::Trap)),
            Op::Br(label) => Ok(Step::Jump(Jump::Branch(*label))),
            Op::BrIf(label) => {
                let holds = operands.peek(0).unwrap_or(0) > 0;
                operands.drop_top(1);
                Ok(if holds {
                    Step::Jump(Jump::Branch(*label))
                } else {
                    Step::Next
                })
            }
            Op::Return => Ok(Step::Jump(Jump::Return)),
            Op::Throw(exception) => Ok(Step::Jump(Jump::Throw(*exception))),
            Op::Tail(func) => Ok(Step::Jump(Jump::TailCall(*func))),
            Op::Block(_, _, _) | Op::Loop(_, _, _) | Op::If(_, _, _, _) => Ok(Step::Form),
            Op::Try(_, _, _, _) | Op::Call(_, _) | Op::CallBy(_) => Ok(Step::Form),
        }
    }

    fn test(&self, instr: &Op, operands: &Operands<u64>) -> bool {
        match instr {
            Op::If(_, _, _, _) => operands.peek(0).unwrap_or(0) > 0,
            _ => false,
        }
    }

    fn pick(
        &self,
        instr: &Op,
        operands: &Operands<u64>,
        _locals: &Locals<u64>,
        _state: &u64,
    ) -> Option<u32> {
        match instr {
            Op::CallBy(_) => u32::try_from(operands.peek(0).unwrap_or(0)).ok(),
            _ => None,
        }
    }

    fn catch(
        &self,
        instr: &Op,
        exception: u32,
        operands: &mut Operands<u64>,
        _state: &mut u64,
    ) -> Result<Option<Jump>, AllocError> {
        match instr {
            Op::Try(_, _, caught, _) if *caught == exception => {
                operands.clear();
                operands.push(u64::from(exception))?;
                Ok(Some(Jump::Branch(0)))
            }
            _ => Ok(None),
        }
    }

    fn callee<'a>(&'a self, func: u32) -> Target<'a, Op> {
        match self.funcs.get(func as usize) {
            Some(f) => Target::Own(Body {
                params: f.params,
                results: f.results,
                code: f.code.as_slice(),
            }),
            None if func as usize == self.funcs.len() => Target::Host(1),
            None => Target::Missing,
        }
    }

    fn zeros(&self, func: u32, locals: &mut Locals<u64>) -> Result<(), AllocError> {
        if let Some(f) = self.funcs.get(func as usize) {
            push_zeros(locals, f.zeros)?;
        }
        Ok(())
    }

    fn host(
        &self,
        func: u32,
        operands: &mut Operands<u64>,
        state: &mut u64,
    ) -> Result<Option<Jump>, AllocError> {
        if func as usize == self.funcs.len() {
            let given = operands.peek(0).unwrap_or(0);
            operands.clear();
            operands.push(*state)?;
            *state = given;
        }
        Ok(None)
    }

    ghost laws = { λ p. laws_of (small p) out-Op roll-out-Op (λ X l q. refl) };
}

/// One less than the top, or a trap where it is 0.
fn down(operands: &mut Operands<u64>) -> Result<Option<Jump>, AllocError>
    ensures { IfOk result (λ jump. (l : Stack ℕ) → (s : ℕ) → Acted (on_operands down) operands.old l s operands.new l s jump) }
{
    let value = operands.peek(0).unwrap_or(0);
    if value == 0 {
        return Ok(Some(Jump::Trap));
    }
    operands.drop_top(1);
    operands.push(value - 1)?;
    Ok(None)
}

/// More locals that are 0.
fn push_zeros(locals: &mut Locals<u64>, count: usize) -> Result<(), AllocError>
    ensures { OnOk result (locals.new ≡ record locals.old { used = locals.old.used ++ replicate count 0 }) }
{
    for done in 0..count {
        locals.push(0)?;
    }
    Ok(())
}

/// The local with this index, or 0.
fn local(locals: &Locals<u64>, index: u32) -> u64
    ensures { result ≡ slice_index_or locals.now.used index 0 }
{
    locals.get(index as usize).unwrap_or(0)
}
