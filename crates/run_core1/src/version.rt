// A module of 1.0 as the machine runs it.
ghost use Rattle.std.specs.Prelude.{◌≡◌, ◌++◌, List, [], ◌∷◌, map, refl, IfOk, OnOk};
ghost use Rattle.core1_ast.specs.declared.module.code.Instr1.{out-Instr1, roll-out-Instr1};
ghost use Rattle.machine_kit.specs.Whole.{acts_of};
ghost use Rattle.machine_kit.specs.Acts.{act_of, test_of, handler_of, pick_of, zeros_of, host_of};
ghost use Rattle.machine_kit.specs.Heads.{HeadIs, TargetIs, StepIs, Hosted, Handled};
ghost use Rattle.core1_ast.specs.declared.module.code.Instr1.{Instr1};
ghost use Rattle.machine_kit.proofs.Laws.{laws_of};
ghost use Rattle.meaning_core1.specs.Store.{zero_of_type};
ghost use Rattle.meaning_core1.specs.Language.{language1, layer1, callee1, block_results};

use crate::leaves::{plain, top};
use crate::numeric::is_true;
use crate::program::{Callee1, Program, zero};
use crate::slot::Slot;
use crate::state::State;
use core1_ast::module::{BlockType1, Instr1, Ty1};
use evaluation_kit::Jump;
use machine_kit::{Body, Head, Locals, Operands, Step, Target, Version};
use std::alloc::AllocError;

impl<'p, 's> Version<Instr1, Slot, State<'s>> for Program<'p> {
    ghost acts = { λ m. acts_of (language1 m) out-Instr1 };

    fn head<'a>(&self, instr: &'a Instr1) -> Head<'a, Instr1>
        ensures { HeadIs (layer1 self.now Instr1 (out-Instr1 instr.now)) result }
    {
        match instr {
            Instr1::Block(ty, code) => Head::Enclose(0, results(*ty), code.as_slice()),
            Instr1::Loop(ty, code) => Head::Repeat(0, results(*ty), code.as_slice()),
            Instr1::If(ty, first, second) => {
                Head::Choose(0, results(*ty), first.as_slice(), second.as_slice())
            }
            Instr1::Call(func) => Head::Invoke(self.parameters(*func), *func),
            Instr1::CallIndirect(ty) => Head::InvokeBy(self.type_parameters(*ty)),
            _ => Head::Flat,
        }
    }

    #[inline(always)]
    fn leaf(
        &self,
        instr: &Instr1,
        operands: &mut Operands<Slot>,
        locals: &mut Locals<Slot>,
        state: &mut State<'s>,
    ) -> Result<Step, AllocError>
        ensures { IfOk result (λ step. StepIs (layer1 self.now Instr1 (out-Instr1 instr.now)) step operands.old locals.old state.old operands.new locals.new state.new) }
    {
        plain(instr, operands, locals, state)
    }

    fn test(&self, instr: &Instr1, operands: &Operands<Slot>) -> bool
        ensures { result ≡ test_of (layer1 self.now Instr1 (out-Instr1 instr.now)) operands.now.used }
    {
        match instr {
            Instr1::If(_, _, _) => is_true(top(operands)),
            _ => false,
        }
    }

    fn pick(
        &self,
        instr: &Instr1,
        operands: &Operands<Slot>,
        _locals: &Locals<Slot>,
        state: &State<'s>,
    ) -> Option<u32>
        ensures { result ≡ pick_of (layer1 self.now Instr1 (out-Instr1 instr.now)) (record { operands = operands.now.used; locals = _locals.now.used; state = state.now }) }
    {
        match instr {
            Instr1::CallIndirect(ty) => self.find_in_table(*ty, state, top(operands)),
            _ => None,
        }
    }

    fn catch(
        &self,
        _instr: &Instr1,
        _exception: u32,
        _operands: &mut Operands<Slot>,
        _state: &mut State<'s>,
    ) -> Result<Option<Jump>, AllocError>
        ensures { IfOk result (λ jump. Handled (handler_of (layer1 self.now Instr1 (out-Instr1 _instr.now))) _exception _operands.old _state.old _operands.new _state.new jump) }
    {
        Ok(None)
    }

    fn callee<'a>(&'a self, func: u32) -> Target<'a, Instr1>
        ensures { TargetIs (callee1 self.now func) result }
    {
        match self.find(func) {
            Callee1::Missing => Target::Missing,
            Callee1::Own(ty, body) => Target::Own(Body {
                params: ty.params.len(),
                results: ty.results.len(),
                code: body.code.as_slice(),
            }),
            Callee1::Host(ty) => Target::Host(ty.params.len()),
        }
    }

    fn zeros(&self, func: u32, locals: &mut Locals<Slot>) -> Result<(), AllocError>
        ensures { OnOk result (locals.new ≡ record locals.old { used = locals.old.used ++ zeros_of (callee1 self.now func) }) }
    {
        match self.find(func) {
            Callee1::Own(_, body) => push_zeros(locals, body.locals.as_slice()),
            _ => Ok(()),
        }
    }

    fn host(
        &self,
        func: u32,
        operands: &mut Operands<Slot>,
        state: &mut State<'s>,
    ) -> Result<Option<Jump>, AllocError>
        ensures { IfOk result (λ jump. Hosted (host_of (callee1 self.now func)) operands.old state.old operands.new state.new jump) }
    {
        match self.find(func) {
            Callee1::Host(_) => self.answer(func, operands, state),
            _ => Ok(None),
        }
    }

    ghost laws = { λ m. laws_of (language1 m) out-Instr1 roll-out-Instr1 (λ X l q. refl) };
}

/// How many operands a block gives.
fn results(ty: BlockType1) -> usize
    ensures { result ≡ block_results ty }
{
    match ty {
        BlockType1::Empty => 0,
        BlockType1::One(_) => 1,
    }
}

/// More locals, which are zeros of these types.
fn push_zeros(locals: &mut Locals<Slot>, types: &[Ty1]) -> Result<(), AllocError>
    ensures { OnOk result (locals.new ≡ record locals.old { used = locals.old.used ++ map zero_of_type types.now }) }
{
    for ty in types {
        locals.push(zero(*ty))?;
    }
    Ok(())
}
