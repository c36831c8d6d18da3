// A machine on its way to the next turn.

ghost use Rattle.std.specs.Prelude.{◌≡◌, true, false, IfOk};
ghost use Rattle.machine_kit.specs.Machines.{Moves, Reaches, place_of, moving};

use crate::close::close;
use crate::exec::exec;
use crate::frame::{Flow, moving};
use crate::head::Target;
use crate::machine::Machine;
use crate::version::Version;
use evaluation_kit::Jump;
use std::alloc::AllocError;

/// Calls the function with this index: one of the host's at once, one of the module's with the next turn.
fn enter<'a, I: Drop, V: Copy, S, P: Version<I, V, S>>(
    version: &'a P,
    func: u32,
    machine: &mut Machine<'a, I, V>,
    state: &mut S,
) -> Result<Flow<'a, I>, AllocError>
    ensures { IfOk result (λ flow. Moves (P.acts version.now) (Flow.Enter func) (place_of machine.old) state.old flow (place_of machine.new) state.new) }
{
    match version.callee(func) {
        Target::Missing => Ok(Flow::Close(Some(Jump::Trap))),
        Target::Own(body) => Ok(Flow::Open(func, body)),
        Target::Host(takes) => {
            machine.operands.keep(takes);
            machine.locals.clear();
            let jump = version.host(func, &mut machine.operands, state)?;
            Ok(Flow::Close(jump))
        }
    }
}

/// Does one step.
fn step<'a, I: Drop, V: Copy, S, P: Version<I, V, S>>(
    version: &'a P,
    flow: Flow<'a, I>,
    machine: &mut Machine<'a, I, V>,
    state: &mut S,
) -> Result<Flow<'a, I>, AllocError>
    requires { moving flow (place_of machine.old).frames ≡ true }
    ensures { IfOk result (λ next. Moves (P.acts version.now) flow.entry (place_of machine.old) state.old next (place_of machine.new) state.new) }
{
    match flow {
        Flow::Run => {
            let next = exec(version, machine, state)?;
            Ok(next)
        }
        Flow::Close(jump) => {
            let next = close(version, jump, machine, state)?;
            Ok(next)
        }
        Flow::Enter(func) => {
            let next = enter(version, func, machine, state)?;
            Ok(next)
        }
        Flow::Again | Flow::Open(_, _) => unreachable!(),
    }
}

/// Goes on until a turn is wanted or the run is over.
pub(crate) fn advance<'a, I: Drop, V: Copy, S, P: Version<I, V, S>>(
    version: &'a P,
    start: Flow<'a, I>,
    machine: &mut Machine<'a, I, V>,
    state: &mut S,
) -> Result<Flow<'a, I>, AllocError>
    ensures same { IfOk result (λ next. Reaches (P.acts version.now) start.entry (place_of machine.old) state.old next (place_of machine.new) state.new) }
    ensures rests { IfOk result (λ next. moving next (place_of machine.new).frames ≡ false) }
{
    let mut flow = start;
    while moving(&flow, &machine.frames) {
        flow = step(version, flow, machine, state)?;
    }
    Ok(flow)
}
