ghost use Rattle.std.specs.Prelude.{IfOk};
ghost use Rattle.evaluation_kit.specs.Tasks.{Task};
ghost use Rattle.machine_kit.specs.Acts.{ended_by};
ghost use Rattle.machine_kit.specs.Calls.{BegunAs, EndedAs};

use crate::locals::Locals;
use crate::operands::Operands;
use evaluation_kit::Jump;
use std::alloc::{AllocError, Global};

/// How a task begins.
#[derive(Drop)]
pub enum Begun<V> {
    /// It was a change of the state, which ends the run by the jump where there is one.
    Changed(Option<Jump>),
    /// It wants a call of the function with this index on these operands.
    Call(u32, Operands<V>),
}

/// What a host does with a module of values V and a state S, a task after another. `AllocError` comes for want of memory
/// alone.
pub trait Host<V, S> {
    /// A task.
    type Item;

    /// What a task is.
    ghost task: { Self → Self.Item → Task V S };

    /// Begins a task: makes its change, or says which call it wants and leaves the state as it is.
    fn begin(&self, alloc: Global, item: &Self::Item, state: &mut S) -> Result<Begun<V>, AllocError>
        ensures { IfOk result (λ begun. BegunAs (task self.now item.now) state.old begun state.new) };

    /// Ends a task whose call came to its end or to the jump with these operands and locals. The answer is the jump by
    /// which the run is over, or none where it goes on.
    fn end(
        &self,
        item: &Self::Item,
        jump: Option<Jump>,
        operands: &Operands<V>,
        locals: &Locals<V>,
        state: &mut S,
    ) -> Result<Option<Jump>, AllocError>
        ensures { IfOk result (λ over. EndedAs (task self.now item.now) (ended_by jump (record { operands = operands.now.used; locals = locals.now.used; state = state.old })) over state.new) };
}
