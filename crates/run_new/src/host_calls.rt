// Calls of imported functions.
ghost use Rattle.meaning_new.specs.declared.val.Val.{Val};
ghost use Rattle.std.specs.Prelude.{◌≡◌, ◌++◌, ℕ, List, [], map, reverse, slice_get, filter_map, IfOk, OnOk, option_map, Some};
ghost use Rattle.std.specs.Option.{option_copied};
ghost use Rattle.host_kit.specs.declared.event.Event.TheVariants as events;
ghost use Rattle.typed_trees.specs.Typed.{module_of};
ghost use Rattle.meaning_new.specs.Store.{to_host, from_host, tell};
ghost use Rattle.meaning_new.specs.Host.{host_call, global_values};
ghost use Rattle.machine_kit.specs.Heads.{Hosted};
ghost use Rattle.run_kit.specs.Replies.{first_left, without_first};
ghost use Rattle.run_kit.specs.Narrowing.{part_act};
ghost use Rattle.run_new.specs.Answers.{answered};
ghost use Rattle.run_new.specs.States.{whole, unbounded};

use crate::program::Program;
use crate::slot::Slot;
use crate::state::State;
use crate::values::{from_host, to_host};
use evaluation_kit::Jump;
use host_kit::{Event, Reply, Value, Values};
use machine_kit::Operands;
use run_kit::take_reply;
use sqlite_items::Items;
use std::alloc::{AllocError, Global};
use wasm_ast::module::ExportDesc;

impl<'a> Program<'a> {
    /// Calls an imported function with these arguments, first to last: the host sees the call, takes its next reply and
    /// does the acts. The answer is the values of the reply, first to last, or none where the host has no reply left. It
    /// fails for want of memory alone.
    pub fn call_host<'s>(
        &self,
        import: u32,
        arguments: &[Slot],
        state: &mut State<'s>,
    ) -> Result<Option<&'s [Value]>, AllocError>
        ensures { IfOk result (λ values. (locals : List Val) → host_call (module_of self.now) import (record { operands = reverse arguments.now; locals = locals; state = whole state.old }) ≡ answered import (option_map (λ v. v.now) values) (whole state.new)) }
    {
        self.show_call(import, arguments, state)?;
        let Some(reply) = state.next_reply(import) else {
            return Ok(None);
        };
        self.acts(reply.acts.as_slice(), state)?;
        Ok(Some(reply.values.as_slice()))
    }

    /// Calls an imported function with all operands in use, in whose place come the values of the reply.
    pub(crate) fn answer(
        &self,
        import: u32,
        operands: &mut Operands<Slot>,
        state: &mut State,
    ) -> Result<Option<Jump>, AllocError>
        ensures { IfOk result (λ jump. Hosted (part_act unbounded (host_call (module_of self.now) import)) operands.old state.old operands.new state.new jump) }
    {
        match self.call_host(import, in_order(operands), state)? {
            None => {
                operands.clear();
                Ok(Some(Jump::NoReply(import)))
            }
            Some(values) => {
                operands.clear();
                push_values(operands, values)?;
                Ok(None)
            }
        }
    }

    /// Shows the host a call of its function.
    fn show_call(
        &self,
        import: u32,
        arguments: &[Slot],
        state: &mut State,
    ) -> Result<(), AllocError>
        ensures { OnOk result (whole state.new ≡ tell (events.HostCall import (map to_host arguments.now) (global_values (module_of self.now) (whole state.old))) (whole state.old)) }
    {
        let arguments = host_values(state.alloc(), arguments)?;
        let globals = self.exported_values(state)?;
        state.show(Event::HostCall(import, arguments, globals))
    }

    /// The values of the exported globals, in export order. It fails for want of memory alone.
    pub fn exported_values(&self, state: &State) -> Result<Values, AllocError>
        ensures { IfOk result (λ values. values ≡ global_values (module_of self.now) (whole state.now)) }
    {
        let mut values = Items::new(state.alloc());
        for export in self.part().exports.as_slice() {
            if let ExportDesc::Global(global) = export.desc {
                values.push(to_host(state.store.global(global)))?;
            }
        }
        Ok(values)
    }
}

impl<'s> State<'s> {
    /// Takes the next reply that is left to an imported function.
    fn next_reply(&mut self, import: u32) -> Option<&'s Reply>
        ensures reply { option_copied result ≡ first_left (slice_get self.old.replies import) }
        ensures rest { self.new ≡ record self.old { replies = without_first import self.old.replies } }
    {
        take_reply(self.replies.as_mut_slice(), import as usize)
    }
}

/// Values as their host sees them, in the same order.
pub fn host_values(alloc: Global, values: &[Slot]) -> Result<Values, AllocError>
    ensures { IfOk result (λ shown. shown ≡ map to_host values.now) }
{
    let mut shown = Items::new(alloc);
    for value in values {
        shown.push(to_host(*value))?;
    }
    Ok(shown)
}

/// All operands in use, the top last.
pub(crate) fn in_order(operands: &Operands<Slot>) -> &[Slot]
    ensures list { result.now ≡ reverse operands.now.used }
    ensures back { reverse result.now ≡ operands.now.used }
{
    operands.top(operands.count())
}

/// Puts values of the host's on top, the last one topmost.
pub(crate) fn push_values(operands: &mut Operands<Slot>, values: &[Value]) -> Result<(), AllocError>
    ensures { OnOk result (operands.new ≡ record operands.old { used = reverse (map from_host values.now) ++ operands.old.used }) }
{
    for value in values {
        operands.push(from_host(*value))?;
    }
    Ok(())
}
