// The items of a script, and how calls from the host end.
ghost use Rattle.meaning_core1.specs.declared.val1.Val1.{Val1};
ghost use Rattle.std.specs.Prelude.{◌≡◌, ℕ, List, map, reverse, Some, None, IfOk, OnOk};
ghost use Rattle.host_kit.specs.declared.event.Event.TheVariants as events;
ghost use Rattle.meaning_core1.specs.Store.{show, host_value};
ghost use Rattle.meaning_core1.specs.Hosting.{exported_values};
ghost use Rattle.meaning_core1.specs.Runs.{item1, call_status, start_status, show_trap};
ghost use Rattle.machine_kit.specs.Acts.{ended_by};
ghost use Rattle.run_core1.specs.Items.{NextIs};

use crate::host_calls::{host_values, in_order};
use crate::program::Program;
use crate::slot::Slot;
use crate::state::State;
use core1_ast::module::ExportDesc1;
use evaluation_kit::Jump;
use host_kit::{Act, Event, Item, Value};
use machine_kit::Operands;
use std::alloc::AllocError;

/// What an item of a script asks for.
#[derive(Drop)]
pub enum Next1<'a> {
    /// A call of this function with these arguments, first to last.
    Call(u32, &'a [Value]),
    /// An act on the state.
    Host(&'a Act),
    /// A call of what is no exported function: it traps.
    Missing,
}

impl<'a> Program<'a> {
    /// What an item asks for.
    pub fn next<'s>(&self, item: &'s Item) -> Next1<'s>
        ensures { (place : ℕ) → NextIs self.now place (item1 self.now place item.now) result }
    {
        match item {
            Item::Call(name, arguments) => match self.export(name.as_str()) {
                Some(ExportDesc1::Func(func)) => Next1::Call(func, arguments.as_slice()),
                _ => Next1::Missing,
            },
            Item::Host(act) => Next1::Host(act),
        }
    }

    /// Shows the host how the call of the item at a place ended: at its end with these operands, or by a
    /// jump. The answer is the jump that ends the run, if one does. It fails for want of memory alone.
    pub fn call_ended(
        &self,
        place: u32,
        jump: Option<Jump>,
        operands: &Operands<Slot>,
        state: &mut State,
    ) -> Result<Option<Jump>, AllocError>
        ensures { IfOk result (λ over. (locals : List Val1) → call_status self.now place (ended_by jump (record { operands = operands.now.used; locals = locals; state = state.old })) ≡ ended_by over state.new) }
    {
        match jump {
            None => {
                self.show_return(place, in_order(operands), state)?;
                Ok(None)
            }
            Some(Jump::NoReply(import)) => {
                state.show(Event::NoReply(import))?;
                Ok(Some(Jump::NoReply(import)))
            }
            Some(_) => {
                self.show_trap(place, state)?;
                Ok(None)
            }
        }
    }

    /// Shows the host that the call of the item at a place trapped. It fails for want of memory alone.
    pub fn show_trap(&self, place: u32, state: &mut State) -> Result<(), AllocError>
        ensures { OnOk result (state.new ≡ show_trap self.now place state.old) }
    {
        let globals = self.exported_values(state.alloc, state)?;
        state.show(Event::Trapped(place, globals))
    }

    /// Shows the host what the call of the item at a place returned.
    fn show_return(&self, place: u32, results: &[Slot], state: &mut State) -> Result<(), AllocError>
        ensures { OnOk result (state.new ≡ show (events.Returned place (map host_value results.now) (exported_values self.now state.old)) state.old) }
    {
        let results = host_values(state.alloc, results)?;
        let globals = self.exported_values(state.alloc, state)?;
        state.show(Event::Returned(place, results, globals))
    }
}

impl<'a> State<'a> {
    /// Shows the host how the start function ended, where that ends the run. The answer is the jump that ends the run, if
    /// one does. It fails for want of memory alone.
    pub fn start_ended(&mut self, jump: Option<Jump>) -> Result<Option<Jump>, AllocError>
        ensures { IfOk result (λ over. (operands locals : List Val1) → start_status (ended_by jump (record { operands = operands; locals = locals; state = self.old })) ≡ ended_by over self.new) }
    {
        match jump {
            None => Ok(None),
            Some(Jump::NoReply(import)) => {
                self.show(Event::NoReply(import))?;
                Ok(Some(Jump::NoReply(import)))
            }
            Some(_) => {
                self.show(Event::Failed)?;
                Ok(Some(Jump::Trap))
            }
        }
    }
}
