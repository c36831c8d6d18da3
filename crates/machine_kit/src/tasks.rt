// Calls from the host, and tasks.

ghost use Rattle.std.specs.Prelude.{◌≡◌, ◌+◌, ◌<◌, ◌^◌, map, IfOk, OnOk};
ghost use Rattle.evaluation_kit.specs.Tasks.{world_after};
ghost use Rattle.machine_kit.specs.Calls.{CallComes, TaskComes, TasksCome, CallEnds, goes_on, later, turns_of};

use crate::frame::Flow;
use crate::host::{Begun, Host};
use crate::locals::Locals;
use crate::machine::Machine;
use crate::operands::Operands;
use crate::turns::{Outcome, run};
use crate::version::Version;
use std::alloc::{AllocError, Global};

/// What a call has come to.
#[derive(Drop)]
pub struct Called<V> {
    /// Whether it is over, and how.
    pub outcome: Outcome,
    /// The operands in which it ended.
    pub operands: Operands<V>,
    /// The locals in which it ended.
    pub locals: Locals<V>,
}

/// The code of a machine that begins with a call.
fn no_code<'a, I>() -> &'a [I] {
    &[]
}

/// Calls the function with this index on operands, within so many turns: exactly what the definition gives.
/// `AllocError` comes for want of memory.
pub fn call<'a, I: Drop, V: Copy, S, P: Version<I, V, S>>(
    alloc: Global,
    version: &'a P,
    func: u32,
    operands: Operands<V>,
    state: &mut S,
    turns: u64,
) -> Result<Called<V>, AllocError>
    ensures { IfOk result (λ called. CallComes (P.acts version.now) func operands.used state.old turns called.outcome called.operands.used called.locals.used state.new) }
{
    let mut machine = Machine {
        code: no_code(),
        operands,
        locals: Locals::new(alloc),
        frames: Vec::new(alloc),
    };
    let outcome = run(version, Flow::Enter(func), &mut machine, state, turns)?;
    let Machine {
        operands,
        locals,
        ..
    } = machine;
    Ok(Called {
        outcome,
        operands,
        locals,
    })
}

/// Ends a task whose call came to this.
fn end_task<V: Copy, S, H: Host<V, S>>(
    host: &H,
    item: &H::Item,
    called: &Called<V>,
    state: &mut S,
) -> Result<Outcome, AllocError>
    ensures { IfOk result (λ outcome. CallEnds (H.task host.now item.now) called.now.outcome called.now.operands.used called.now.locals.used state.old outcome state.new) }
{
    match called.outcome {
        Outcome::Done(used, jump) => {
            let over = host.end(item, jump, &called.operands, &called.locals, state)?;
            Ok(Outcome::Done(used, over))
        }
        Outcome::Halted => Ok(Outcome::Halted),
    }
}

/// Does a task: what its definition gives, within so many turns.
fn run_task<'a, I: Drop, V: Copy, S, P: Version<I, V, S>, H: Host<V, S>>(
    alloc: Global,
    version: &'a P,
    host: &H,
    item: &H::Item,
    state: &mut S,
    turns: u64,
) -> Result<Outcome, AllocError>
    ensures { IfOk result (λ outcome. TaskComes (P.acts version.now) (H.task host.now item.now) state.old turns outcome state.new) }
{
    match host.begin(alloc, item, state)? {
        Begun::Changed(over) => Ok(Outcome::Done(0, over)),
        Begun::Call(func, operands) => {
            let called = call(alloc, version, func, operands, state, turns)?;
            let outcome = end_task(host, item, &called, state)?;
            Ok(outcome)
        }
    }
}

/// After so many turns the run goes on; none where it is over or halted.
fn goes_on(outcome: Outcome) -> Option<u64>
    ensures { result ≡ goes_on outcome }
{
    match outcome {
        Outcome::Done(used, None) => Some(used),
        _ => None,
    }
}

/// The outcome with the turns that were used before it.
fn later(used: u64, outcome: Outcome) -> Outcome
    requires { used + turns_of outcome < 2 ^ 64 }
    ensures { result ≡ later used outcome }
{
    match outcome {
        Outcome::Done(more, jump) => Outcome::Done(used + more, jump),
        Outcome::Halted => Outcome::Halted,
    }
}

/// Does tasks in order within so many turns: exactly what the definition gives. `AllocError` comes for want of memory.
pub fn run_tasks<'a, I: Drop, V: Copy, S, P: Version<I, V, S>, H: Host<V, S>>(
    alloc: Global,
    version: &'a P,
    host: &H,
    items: &[H::Item],
    state: &mut S,
    turns: u64,
) -> Result<Outcome, AllocError>
    ensures comes { IfOk result (λ outcome. TasksCome (P.acts version.now) (map (H.task host.now) items.now) state.old turns outcome state.new) }
    ensures leaves { OnOk result ((world_after (P.acts version.now).func (map (H.task host.now) items.now) state.old turns).state ≡ state.new) }
{
    let mut used = 0;
    for item in items {
        let outcome = run_task(alloc, version, host, item, state, turns - used)?;
        let Some(more) = goes_on(outcome) else {
            return Ok(later(used, outcome));
        };
        used += more;
    }
    Ok(Outcome::Done(used, None))
}
