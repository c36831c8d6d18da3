// The items of a script, and how calls from the host end.
ghost use Rattle.meaning_new.specs.declared.val.Val.{Val};
ghost use Rattle.std.specs.Prelude.{◌≡◌, ℕ, List, map, reverse, Some, None, slice_get, IfOk, OnOk};
ghost use Rattle.host_kit.specs.declared.event.Event.TheVariants as events;
ghost use Rattle.typed_trees.specs.Typed.{module_of};
ghost use Rattle.meaning_new.specs.Store.{tell, to_host};
ghost use Rattle.meaning_new.specs.Host.{global_values};
ghost use Rattle.meaning_new.specs.Runs.{item_task, answered, started, trapped, uncaught};
ghost use Rattle.machine_kit.specs.Acts.{ended_by};
ghost use Rattle.run_new.specs.States.{whole};
ghost use Rattle.run_new.specs.Items.{NextIs};

use crate::host_calls::{host_values, in_order};
use crate::program::Program;
use crate::slot::Slot;
use crate::state::State;
use evaluation_kit::Jump;
use host_kit::{Act, Event, Item, Value};
use machine_kit::Operands;
use std::alloc::AllocError;
use wasm_ast::module::ExportDesc;

/// What an item of a script asks for.
#[derive(Drop)]
pub enum Next<'a> {
    /// A call of this function with these arguments, first to last.
    Call(u32, &'a [Value]),
    /// An act on the state.
    Host(&'a Act),
    /// A call of what is no exported function: it traps.
    Missing,
}

impl<'a> Program<'a> {
    /// What an item asks for.
    pub fn next<'s>(&self, item: &'s Item) -> Next<'s>
        ensures { (place : ℕ) → NextIs (module_of self.now) place (item_task (module_of self.now) place item.now) result }
    {
        match item {
            Item::Call(name, arguments) => match self.export(name.as_str()) {
                Some(ExportDesc::Func(func)) => Next::Call(func, arguments.as_slice()),
                _ => Next::Missing,
            },
            Item::Host(act) => Next::Host(act),
        }
    }

    /// Shows the host how the call of the item at a place ended: at its end with these operands, or by a jump. The answer
    /// is the jump that ends the run, if one does. It fails for want of memory alone.
    pub fn call_ended(
        &self,
        place: u32,
        jump: Option<Jump>,
        operands: &Operands<Slot>,
        state: &mut State,
    ) -> Result<Option<Jump>, AllocError>
        ensures { IfOk result (λ over. (locals : List Val) → answered (module_of self.now) place (ended_by jump (record { operands = operands.now.used; locals = locals; state = whole state.old })) ≡ ended_by over (whole state.new)) }
    {
        match jump {
            None => {
                self.show_return(place, in_order(operands), state)?;
                Ok(None)
            }
            Some(Jump::Throw(exception)) => {
                self.show_uncaught(place, exception, state)?;
                Ok(None)
            }
            Some(Jump::NoReply(import)) => {
                state.show(Event::NoReply(import))?;
                Ok(jump)
            }
            Some(Jump::Full) => {
                state.show(Event::Full)?;
                Ok(jump)
            }
            Some(Jump::Stuck) => Ok(jump),
            Some(Jump::Branch(_) | Jump::Return | Jump::TailCall(_) | Jump::Trap) => {
                self.show_trap(place, state)?;
                Ok(None)
            }
        }
    }

    /// Shows the host that the call of the item at a place trapped. It fails for want of memory alone.
    pub fn show_trap(&self, place: u32, state: &mut State) -> Result<(), AllocError>
        ensures { OnOk result (whole state.new ≡ trapped (module_of self.now) place (whole state.old)) }
    {
        let globals = self.exported_values(state)?;
        state.show(Event::Trapped(place, globals))
    }

    /// Shows the host what the call of the item at a place returned.
    fn show_return(&self, place: u32, results: &[Slot], state: &mut State) -> Result<(), AllocError>
        ensures { OnOk result (whole state.new ≡ tell (events.Returned place (map to_host results.now) (global_values (module_of self.now) (whole state.old))) (whole state.old)) }
    {
        let results = host_values(state.alloc(), results)?;
        let globals = self.exported_values(state)?;
        state.show(Event::Returned(place, results, globals))
    }

    /// Shows the host the exception that left the call of the item at a place.
    fn show_uncaught(&self, place: u32, exception: u32, state: &mut State) -> Result<(), AllocError>
        ensures { OnOk result (whole state.new ≡ uncaught (module_of self.now) place (slice_get state.old.store.exceptions exception) (whole state.old)) }
    {
        let Some(thrown) = state.store.exception(exception) else {
            return self.show_trap(place, state);
        };
        let tag = thrown.tag();
        let values = host_values(state.alloc(), thrown.values())?;
        let globals = self.exported_values(state)?;
        state.show(Event::Uncaught(place, tag, values, globals))
    }
}

impl<'a> State<'a> {
    /// Shows the host how the start function ended, where that ends the run. The answer is the jump that ends the run, if
    /// one does. It fails for want of memory alone.
    pub fn start_ended(&mut self, jump: Option<Jump>) -> Result<Option<Jump>, AllocError>
        ensures { IfOk result (λ over. (operands locals : List Val) → started (ended_by jump (record { operands = operands; locals = locals; state = whole self.old })) ≡ ended_by over (whole self.new)) }
    {
        match jump {
            None => Ok(None),
            Some(Jump::NoReply(import)) => {
                self.show(Event::NoReply(import))?;
                Ok(jump)
            }
            Some(Jump::Full) => {
                self.show(Event::Full)?;
                Ok(jump)
            }
            Some(Jump::Stuck) => Ok(jump),
            Some(
                Jump::Branch(_) | Jump::Return | Jump::Throw(_) | Jump::TailCall(_) | Jump::Trap,
            ) => {
                self.show(Event::Failed)?;
                Ok(Some(Jump::Trap))
            }
        }
    }
}
