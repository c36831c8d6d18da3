// A module of 3.0 as the machine runs it.
ghost use Rattle.std.specs.Prelude.{◌≡◌, ◌++◌, List, map, IfOk, OnOk};
ghost use Rattle.typed_trees.specs.Typed.{module_of};
ghost use Rattle.machine_kit.specs.Acts.{test_of, handler_of, pick_of, zeros_of, host_of};
ghost use Rattle.machine_kit.specs.Heads.{HeadIs, TargetIs, StepIs, Hosted, Handled};
ghost use Rattle.meaning_new.specs.Store.{default};
ghost use Rattle.run_new.specs.Nodes.{node_form, node_callee, node_acts};
ghost use Rattle.run_new.specs.NodeLaws.{node_laws};

use crate::leaves::{plain, top};
use crate::program::{Callee, Program, param_count};
use crate::slot::Slot;
use crate::state::State;
use crate::values::default;
use evaluation_kit::Jump;
use machine_kit::{Body, Head, Locals, Operands, Step, Target, Version};
use std::alloc::AllocError;
use typed_trees::Node;
use wasm_ast::module::{Instr, Ty};

impl<'p, 's> Version<Node, Slot, State<'s>> for Program<'p> {
    ghost acts = { λ p. node_acts p };

    fn head<'a>(&self, instr: &'a Node) -> Head<'a, Node>
        ensures { HeadIs (node_form (module_of self.now) instr.now) result }
    {
        match &instr.head {
            Instr::Block(ty, _) => {
                Head::Enclose(self.takes(*ty), self.gives(*ty), instr.first())
            }
            Instr::Loop(ty, _) => Head::Repeat(self.takes(*ty), self.gives(*ty), instr.first()),
            Instr::If(ty, _, _) => Head::Choose(
                self.takes(*ty),
                self.gives(*ty),
                instr.first(),
                instr.second(),
            ),
            Instr::TryTable(ty, _, _) => {
                Head::Guard(self.takes(*ty), self.gives(*ty), instr.first())
            }
            Instr::Call(func) => Head::Invoke(param_count(self.func_type(*func)), *func),
            Instr::CallIndirect(ty, _) => Head::InvokeBy(param_count(self.ty(*ty))),
            _ => Head::Flat,
        }
    }

    #[inline(always)]
    fn leaf(
        &self,
        instr: &Node,
        operands: &mut Operands<Slot>,
        locals: &mut Locals<Slot>,
        state: &mut State<'s>,
    ) -> Result<Step, AllocError>
        ensures { IfOk result (λ step. StepIs (node_form (module_of self.now) instr.now) step operands.old locals.old state.old operands.new locals.new state.new) }
    {
        let step = plain(self, &instr.head, operands, locals, state)?;
        Ok(step)
    }

    fn test(&self, instr: &Node, operands: &Operands<Slot>) -> bool
        ensures { result ≡ test_of (node_form (module_of self.now) instr.now) operands.now.used }
    {
        match &instr.head {
            Instr::If(_, _, _) => top(operands).is_true(),
            _ => false,
        }
    }

    fn pick(
        &self,
        instr: &Node,
        operands: &Operands<Slot>,
        _locals: &Locals<Slot>,
        state: &State<'s>,
    ) -> Option<u32>
        ensures { result ≡ pick_of (node_form (module_of self.now) instr.now) (record { operands = operands.now.used; locals = _locals.now.used; state = state.now }) }
    {
        match &instr.head {
            Instr::CallIndirect(ty, table) => {
                self.find_in_table(*ty, *table, state, top(operands))
            }
            _ => None,
        }
    }

    fn catch(
        &self,
        instr: &Node,
        exception: u32,
        operands: &mut Operands<Slot>,
        state: &mut State<'s>,
    ) -> Result<Option<Jump>, AllocError>
        ensures { IfOk result (λ jump. Handled (handler_of (node_form (module_of self.now) instr.now)) exception operands.old state.old operands.new state.new jump) }
    {
        match &instr.head {
            Instr::TryTable(_, clauses, _) => {
                state.catch(clauses.as_slice(), exception, operands)
            }
            _ => Ok(None),
        }
    }

    fn callee<'a>(&'a self, func: u32) -> Target<'a, Node>
        ensures { TargetIs (node_callee self.now func) result }
    {
        match self.find(func) {
            Callee::Missing => Target::Missing,
            Callee::Own(ty, body) => Target::Own(Body {
                params: ty.params.as_slice().len(),
                results: ty.results.as_slice().len(),
                code: body.body.as_slice(),
            }),
            Callee::Host(ty) => Target::Host(ty.params.as_slice().len()),
        }
    }

    fn zeros(&self, func: u32, locals: &mut Locals<Slot>) -> Result<(), AllocError>
        ensures { OnOk result (locals.new ≡ record locals.old { used = locals.old.used ++ zeros_of (node_callee self.now func) }) }
    {
        match self.find(func) {
            Callee::Own(_, body) => push_zeros(locals, body.locals.as_slice()),
            _ => Ok(()),
        }
    }

    fn host(
        &self,
        func: u32,
        operands: &mut Operands<Slot>,
        state: &mut State<'s>,
    ) -> Result<Option<Jump>, AllocError>
        ensures { IfOk result (λ jump. Hosted (host_of (node_callee self.now func)) operands.old state.old operands.new state.new jump) }
    {
        match self.find(func) {
            Callee::Host(_) => self.answer(func, operands, state),
            _ => Ok(None),
        }
    }

    ghost laws = { λ p. node_laws p };
}

/// More locals, each with what a local of its type begins with.
fn push_zeros(locals: &mut Locals<Slot>, types: &[Ty]) -> Result<(), AllocError>
    ensures { OnOk result (locals.new ≡ record locals.old { used = locals.old.used ++ map default types.now }) }
{
    for ty in types {
        locals.push(default(*ty))?;
    }
    Ok(())
}
