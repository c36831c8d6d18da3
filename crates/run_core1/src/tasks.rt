// What a host does with a module.
ghost use Rattle.meaning_core1.specs.declared.val1.Val1.{Val1};
ghost use Rattle.std.specs.Prelude.{◌≡◌, ◌+◌, List, [], ◌∷◌, ◌++◌, map, IfOk, OnOk};
ghost use Rattle.machine_kit.specs.Acts.{ended_by};
ghost use Rattle.machine_kit.specs.Calls.{BegunAs, EndedAs};
ghost use Rattle.host_kit.specs.declared.event.Event.TheVariants as events;
ghost use Rattle.outcome_kit.specs.Code.{Go};
ghost use Rattle.evaluation_kit.specs.Tasks.{Change};
ghost use Rattle.meaning_core1.specs.Store.{show};
ghost use Rattle.meaning_core1.specs.Runs.{start1, item1, items1, tasks1};
ghost use Rattle.run_core1.specs.Tasks.{task_of};
ghost use Rattle.core1_ast.specs.declared.module.parts.Module1.{Module1};

use crate::host_calls::push_values;
use crate::items::Next1;
use crate::program::Program;
use crate::slot::Slot;
use crate::state::State;
use core1_ast::module::Module1;
use evaluation_kit::Jump;
use host_kit::{Event, Item, Script};
use machine_kit::{Begun, Host, Locals, Operands};
use std::alloc::{AllocError, Global};

/// One thing that a host does with a module, of those that it does in order.
#[derive(Drop)]
pub enum Task1<'s> {
    /// It writes the active segments.
    Segments,
    /// It calls the start function, which has this index.
    Start(u32),
    /// It sees that the module is instantiated.
    Started,
    /// It does the item at this place of the script.
    Item(u32, &'s Item),
    /// It sees that the items are done.
    Done,
}

impl<'p, 's> Host<Slot, State<'s>> for Program<'p> {
    type Item = Task1<'s>;

    ghost task = { λ m t. task_of m t };

    fn begin(
        &self,
        alloc: Global,
        item: &Task1<'s>,
        state: &mut State<'s>,
    ) -> Result<Begun<Slot>, AllocError>
        ensures { IfOk result (λ begun. BegunAs (task_of self.now item.now) state.old begun state.new) }
    {
        match item {
            Task1::Segments => {
                let fit = state.write_all_segments(self.module())?;
                Ok(Begun::Changed(if fit { None } else { Some(Jump::Trap) }))
            }
            Task1::Start(func) => Ok(Begun::Call(*func, Operands::new(alloc))),
            Task1::Started => {
                state.show(Event::Started)?;
                Ok(Begun::Changed(None))
            }
            Task1::Item(place, item) => Ok(self.begin_item(alloc, *place, item, state)?),
            Task1::Done => {
                state.show(Event::Done)?;
                Ok(Begun::Changed(None))
            }
        }
    }

    fn end(
        &self,
        item: &Task1<'s>,
        jump: Option<Jump>,
        operands: &Operands<Slot>,
        locals: &Locals<Slot>,
        state: &mut State<'s>,
    ) -> Result<Option<Jump>, AllocError>
        ensures { IfOk result (λ over. EndedAs (task_of self.now item.now) (ended_by jump (record { operands = operands.now.used; locals = locals.now.used; state = state.old })) over state.new) }
    {
        match item {
            Task1::Start(_) => Ok(state.start_ended(jump)?),
            Task1::Item(place, item) => Ok(self.end_item(*place, item, jump, operands, state)?),
            Task1::Segments | Task1::Started | Task1::Done => Ok(None),
        }
    }
}

impl<'p> Program<'p> {
    /// Begins an item at its place.
    fn begin_item(
        &self,
        alloc: Global,
        place: u32,
        item: &Item,
        state: &mut State,
    ) -> Result<Begun<Slot>, AllocError>
        ensures { IfOk result (λ begun. BegunAs (item1 self.now place item.now) state.old begun state.new) }
    {
        match self.next(item) {
            Next1::Call(func, arguments) => {
                let mut operands = Operands::new(alloc);
                push_values(&mut operands, arguments)?;
                Ok(Begun::Call(func, operands))
            }
            Next1::Host(act) => {
                self.act(act, state)?;
                Ok(Begun::Changed(None))
            }
            Next1::Missing => {
                self.show_trap(place, state)?;
                Ok(Begun::Changed(None))
            }
        }
    }

    /// Ends the call of an item at its place, where it is a call.
    fn end_item(
        &self,
        place: u32,
        item: &Item,
        jump: Option<Jump>,
        operands: &Operands<Slot>,
        state: &mut State,
    ) -> Result<Option<Jump>, AllocError>
        ensures { IfOk result (λ over. (locals : List Val1) → EndedAs (item1 self.now place item.now) (ended_by jump (record { operands = operands.now.used; locals = locals; state = state.old })) over state.new) }
    {
        match self.next(item) {
            Next1::Call(_, _) => Ok(self.call_ended(place, jump, operands, state)?),
            Next1::Host(_) => Ok(None),
            Next1::Missing => Ok(None),
        }
    }
}

/// All that a host does, in order. It fails for want of memory, and so it does where a script has more than 2^32 items.
pub(crate) fn tasks_of<'s>(
    alloc: Global,
    source: &Module1,
    script: &'s Script,
) -> Result<Vec<Task1<'s>>, AllocError>
    ensures { IfOk result (λ tasks. map (task_of source.now) tasks.items ≡ tasks1 source.now script.now) }
{
    let mut tasks = Vec::new(alloc);
    tasks.push(Task1::Segments)?;
    if let Some(func) = source.start {
        tasks.push(Task1::Start(func))?;
    }
    tasks.push(Task1::Started)?;
    push_items(&mut tasks, script.items.as_slice())?;
    tasks.push(Task1::Done)?;
    Ok(tasks)
}

/// Puts the items behind other tasks.
fn push_items<'s>(tasks: &mut Vec<Task1<'s>>, items: &'s [Item]) -> Result<(), AllocError>
    ensures { OnOk result ((m : Module1) → map (task_of m) tasks.new.items ++ Change (λ s. Go (show events.Done s)) ∷ [] ≡ map (task_of m) tasks.old.items ++ items1 m 0 items.now) }
{
    for (place, item) in items.iter().enumerate() {
        let place = u32::try_from(place).map_err(|_| AllocError)?;
        tasks.push(Task1::Item(place, item))?;
    }
    Ok(())
}
