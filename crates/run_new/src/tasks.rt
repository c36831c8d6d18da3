// What a host does with a module behind its segments.
ghost use Rattle.meaning_new.specs.declared.val.Val.{Val};
ghost use Rattle.std.specs.Prelude.{◌≡◌, ◌+◌, List, [], ◌∷◌, ◌++◌, map, IfOk, OnOk};
ghost use Rattle.machine_kit.specs.Acts.{ended_by};
ghost use Rattle.machine_kit.specs.Calls.{BegunAs, EndedAs};
ghost use Rattle.host_kit.specs.declared.event.Event.TheVariants as events;
ghost use Rattle.outcome_kit.specs.Code.{Go};
ghost use Rattle.evaluation_kit.specs.Tasks.{Change};
ghost use Rattle.typed_trees.specs.Typed.{module_of};
ghost use Rattle.wasm_ast.specs.declared.module.parts.Module.{Module};
ghost use Rattle.meaning_new.specs.Store.{tell};
ghost use Rattle.meaning_new.specs.Runs.{start_task, item_task, item_tasks};
ghost use Rattle.run_kit.specs.Narrowing.{part_task};
ghost use Rattle.run_new.specs.States.{unbounded};
ghost use Rattle.run_new.specs.Tasks.{state_task, task_of};

use crate::host_calls::push_values;
use crate::items::Next;
use crate::program::Program;
use crate::slot::Slot;
use crate::state::State;
use evaluation_kit::Jump;
use host_kit::{Event, Item};
use machine_kit::{Begun, Host, Locals, Operands};
use std::alloc::{AllocError, Global};

/// One thing that a host does with a module, of those that it does in order once the segments are written.
#[derive(Drop)]
pub enum Task<'s> {
    /// It calls the start function, which has this index.
    Start(u32),
    /// It sees that the module is instantiated.
    Started,
    /// It does the item at this place of the script.
    Item(u32, &'s Item),
    /// It sees that the items are done.
    Done,
}

impl<'p, 's> Host<Slot, State<'s>> for Program<'p> {
    type Item = Task<'s>;

    ghost task = { λ p t. task_of p t };

    fn begin(
        &self,
        alloc: Global,
        item: &Task<'s>,
        state: &mut State<'s>,
    ) -> Result<Begun<Slot>, AllocError>
        ensures { IfOk result (λ begun. BegunAs (task_of self.now item.now) state.old begun state.new) }
    {
        match item {
            Task::Start(func) => Ok(Begun::Call(*func, Operands::new(alloc))),
            Task::Started => {
                state.show(Event::Started)?;
                Ok(Begun::Changed(None))
            }
            Task::Item(place, item) => Ok(self.begin_item(alloc, *place, item, state)?),
            Task::Done => {
                state.show(Event::Done)?;
                Ok(Begun::Changed(None))
            }
        }
    }

    fn end(
        &self,
        item: &Task<'s>,
        jump: Option<Jump>,
        operands: &Operands<Slot>,
        locals: &Locals<Slot>,
        state: &mut State<'s>,
    ) -> Result<Option<Jump>, AllocError>
        ensures { IfOk result (λ over. EndedAs (task_of self.now item.now) (ended_by jump (record { operands = operands.now.used; locals = locals.now.used; state = state.old })) over state.new) }
    {
        match item {
            Task::Start(_) => Ok(state.start_ended(jump)?),
            Task::Item(place, item) => Ok(self.end_item(*place, item, jump, operands, state)?),
            Task::Started | Task::Done => Ok(None),
        }
    }
}

impl<'p> Program<'p> {
    /// Begins an item at its place.
    fn begin_item(
        &self,
        alloc: Global,
        place: u32,
        item: &Item,
        state: &mut State,
    ) -> Result<Begun<Slot>, AllocError>
        ensures { IfOk result (λ begun. BegunAs (part_task unbounded (item_task (module_of self.now) place item.now)) state.old begun state.new) }
    {
        match self.next(item) {
            Next::Call(func, arguments) => {
                let mut operands = Operands::new(alloc);
                push_values(&mut operands, arguments)?;
                Ok(Begun::Call(func, operands))
            }
            Next::Host(act) => {
                self.act(act, state)?;
                Ok(Begun::Changed(None))
            }
            Next::Missing => {
                self.show_trap(place, state)?;
                Ok(Begun::Changed(None))
            }
        }
    }

    /// Ends the call of an item at its place, where it is a call.
    fn end_item(
        &self,
        place: u32,
        item: &Item,
        jump: Option<Jump>,
        operands: &Operands<Slot>,
        state: &mut State,
    ) -> Result<Option<Jump>, AllocError>
        ensures { IfOk result (λ over. (locals : List Val) → EndedAs (part_task unbounded (item_task (module_of self.now) place item.now)) (ended_by jump (record { operands = operands.now.used; locals = locals; state = state.old })) over state.new) }
    {
        match self.next(item) {
            Next::Call(_, _) => Ok(self.call_ended(place, jump, operands, state)?),
            Next::Host(_) => Ok(None),
            Next::Missing => Ok(None),
        }
    }
}

/// All that a host does behind the segments, in order. It fails for want of memory, and so it does where a script has more
/// than 2^32 items.
pub(crate) fn tasks_of<'s>(
    alloc: Global,
    start: Option<u32>,
    items: &'s [Item],
) -> Result<Vec<Task<'s>>, AllocError>
    ensures { (m : Module) → IfOk result (λ tasks. map (state_task m) tasks.items ≡ start_task start ++ Change (λ s. Go (tell events.Started s)) ∷ item_tasks m 0 items.now) }
{
    let mut tasks = Vec::new(alloc);
    if let Some(func) = start {
        tasks.push(Task::Start(func))?;
    }
    tasks.push(Task::Started)?;
    push_items(&mut tasks, items)?;
    tasks.push(Task::Done)?;
    Ok(tasks)
}

/// Puts the items behind other tasks.
fn push_items<'s>(tasks: &mut Vec<Task<'s>>, items: &'s [Item]) -> Result<(), AllocError>
    ensures { OnOk result ((m : Module) → map (state_task m) tasks.new.items ++ Change (λ s. Go (tell events.Done s)) ∷ [] ≡ map (state_task m) tasks.old.items ++ item_tasks m 0 items.now) }
{
    for (place, item) in items.iter().enumerate() {
        let place = u32::try_from(place).map_err(|_| AllocError)?;
        tasks.push(Task::Item(place, item))?;
    }
    Ok(())
}
