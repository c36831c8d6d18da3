// Calls of imported functions.
ghost use Rattle.meaning_core1.specs.declared.val1.Val1.{Val1};
ghost use Rattle.std.specs.Prelude.{◌≡◌, ℕ, List, [], ◌++◌, map, reverse, slice_get, IfOk, OnOk, option_map};
ghost use Rattle.std.specs.Option.{option_copied};
ghost use Rattle.host_kit.specs.declared.event.Event.TheVariants as events;
ghost use Rattle.meaning_core1.specs.Store.{host_value, value_from, show};
ghost use Rattle.meaning_core1.specs.Hosting.{call_host, exported_values};
ghost use Rattle.machine_kit.specs.Heads.{Hosted};
ghost use Rattle.run_core1.specs.Answers.{answered, first_left, without_first};

use crate::exports::{host_value, value_from};
use crate::program::Program;
use crate::slot::Slot;
use crate::state::State;
use evaluation_kit::Jump;
use host_kit::{Event, Reply, Value, Values};
use machine_kit::Operands;
use sqlite_items::Items;
use std::alloc::{AllocError, Global};

impl<'a> Program<'a> {
    /// Calls an imported function with these arguments, first to last: the host sees the call, takes its next reply and
    /// does the acts. The answer is the values of the reply, first to last, or none where the host has no reply left. It
    /// fails for want of memory alone.
    pub fn call_host<'s>(
        &self,
        import: u32,
        arguments: &[Slot],
        state: &mut State<'s>,
    ) -> Result<Option<&'s [Value]>, AllocError>
        ensures { IfOk result (λ values. (locals : List Val1) → call_host self.now import (record { operands = reverse arguments.now; locals = locals; state = state.old }) ≡ answered import (option_map (λ v. v.now) values) state.new) }
    {
        self.show_call(import, arguments, state)?;
        let Some(reply) = state.next_reply(import) else {
            return Ok(None);
        };
        self.acts(reply.acts.as_slice(), state)?;
        Ok(Some(reply.values.as_slice()))
    }

    /// Calls an imported function with all operands in use, in whose place come the values of the reply.
    pub(crate) fn answer(
        &self,
        import: u32,
        operands: &mut Operands<Slot>,
        state: &mut State,
    ) -> Result<Option<Jump>, AllocError>
        ensures { IfOk result (λ jump. Hosted (call_host self.now import) operands.old state.old operands.new state.new jump) }
    {
        match self.call_host(import, in_order(operands), state)? {
            None => {
                operands.clear();
                Ok(Some(Jump::NoReply(import)))
            }
            Some(values) => {
                operands.clear();
                push_values(operands, values)?;
                Ok(None)
            }
        }
    }

    /// Shows the host a call of its function.
    fn show_call(
        &self,
        import: u32,
        arguments: &[Slot],
        state: &mut State,
    ) -> Result<(), AllocError>
        ensures { OnOk result (state.new ≡ show (events.HostCall import (map host_value arguments.now) (exported_values self.now state.old)) state.old) }
    {
        let arguments = host_values(state.alloc, arguments)?;
        let globals = self.exported_values(state.alloc, state)?;
        state.show(Event::HostCall(import, arguments, globals))
    }
}

impl<'s> State<'s> {
    /// Takes the next reply that is left to an imported function.
    fn next_reply(&mut self, import: u32) -> Option<&'s Reply>
        ensures reply { option_copied result ≡ first_left (slice_get self.old.replies import) }
        ensures rest { self.new ≡ record self.old { replies = without_first import self.old.replies } }
    {
        take_first(self.replies.as_mut_slice(), import as usize)
    }
}

/// The replies that are left at a place.
fn left_at<'s>(left: &[&'s [Reply]], place: usize) -> Option<&'s [Reply]>
    ensures { option_map (λ r. r.now) result ≡ slice_get (map (λ r. r.now) left.now) place }
{
    left.get(place).copied()
}

/// Takes the first reply of the list at a place.
fn take_first<'s>(left: &mut [&'s [Reply]], place: usize) -> Option<&'s Reply>
    ensures reply { option_copied result ≡ first_left (slice_get (map (λ r. r.now) left.old) place) }
    ensures rest { map (λ r. r.now) left.new ≡ without_first place (map (λ r. r.now) left.old) }
{
    let (first, rest) = left_at(left, place)?.split_first()?;
    left[place] = rest;
    Some(first)
}

/// Values as their host sees them, in the same order.
pub fn host_values(alloc: Global, values: &[Slot]) -> Result<Values, AllocError>
    ensures { IfOk result (λ shown. shown ≡ map host_value values.now) }
{
    let mut shown = Items::new(alloc);
    for value in values {
        shown.push(host_value(*value))?;
    }
    Ok(shown)
}

/// All operands in use, the top last.
pub(crate) fn in_order(operands: &Operands<Slot>) -> &[Slot]
    ensures list { result.now ≡ reverse operands.now.used }
    ensures back { reverse result.now ≡ operands.now.used }
{
    operands.top(operands.count())
}

/// Puts values of the host's on top, the last one topmost.
pub(crate) fn push_values(operands: &mut Operands<Slot>, values: &[Value]) -> Result<(), AllocError>
    ensures { OnOk result (operands.new ≡ record operands.old { used = reverse (map value_from values.now) ++ operands.old.used }) }
{
    for value in values {
        operands.push(value_from(*value))?;
    }
    Ok(())
}
