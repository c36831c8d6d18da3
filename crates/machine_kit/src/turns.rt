// A machine that takes turns.

ghost use Rattle.std.specs.Prelude.{◌≡◌, ◌<◌, ◌≤◌, [], ◌∷◌, ◌++◌, true, false, take, reverse, option_map, Some, None, IfOk, OnOk, MatchOption};
ghost use Rattle.machine_kit.specs.Acts.{zeros_of};
ghost use Rattle.machine_kit.specs.Machines.{place_of, moving, flow_after};
ghost use Rattle.machine_kit.specs.Turning.{Turned, Spent, Came, IsPass, over, loop_code, passed_flow, passed_place, entered_place};

use crate::exec::after;
use crate::frame::{Flow, Frame, open};
use crate::head::Body;
use crate::machine::Machine;
use crate::plain::glide;
use crate::steps::advance;
use crate::version::Version;
use evaluation_kit::Jump;
use std::alloc::AllocError;

/// What a run has come to.
#[derive(Clone, Copy)]
pub enum Outcome {
    /// It is over after so many turns, at its end or by a jump.
    Done(u64, Option<Jump>),
    /// It wants one more turn than it was given.
    Halted,
}

/// The end of a run that is over, where no form or call is open.
fn over<'a, I>(flow: &Flow<'a, I>) -> Option<Option<Jump>>
    ensures { result ≡ over flow.now }
{
    match flow {
        Flow::Close(jump) => Some(*jump),
        _ => None,
    }
}

/// The code of a pass through the loop that is innermost.
fn loop_code<'a, I>(frames: &Vec<Frame<'a, I>>) -> Option<&'a [I]>
    ensures { option_map (λ code. code.now) result ≡ loop_code (reverse frames.now.items) }
{
    match frames.last() {
        Some(Frame::Loop(_, _, _, body, _)) => Some(body),
        _ => None,
    }
}

/// Passes through the loop that is innermost.
fn pass<'a, I: Drop, V: Copy>(machine: &mut Machine<'a, I, V>) -> Flow<'a, I>
    ensures flow { result ≡ passed_flow (loop_code (place_of machine.old).frames) }
    ensures place { place_of machine.new ≡ passed_place (loop_code (place_of machine.old).frames) (place_of machine.old) }
{
    match loop_code(&machine.frames) {
        Some(code) => {
            machine.code = code;
            Flow::Run
        }
        None => Flow::Close(None),
    }
}

/// Enters a function: the topmost operands become its first locals.
fn enter_body<'a, I: Drop, V: Copy, S, P: Version<I, V, S>>(
    version: &P,
    func: u32,
    body: Body<'a, I>,
    machine: &mut Machine<'a, I, V>,
) -> Result<(), AllocError>
    ensures { OnOk result (place_of machine.new ≡ entered_place (zeros_of ((P.acts version.now).callee func)) body.entry (place_of machine.old)) }
{
    machine.locals.clear();
    machine.locals.extend(machine.operands.top(body.params))?;
    version.zeros(func, &mut machine.locals)?;
    machine.operands.clear();
    open(&mut machine.frames, Frame::Body(body.results))?;
    machine.code = body.code;
    Ok(())
}

/// Takes a turn.
fn take_turn<'a, I: Drop, V: Copy, S, P: Version<I, V, S>>(
    version: &P,
    flow: Flow<'a, I>,
    machine: &mut Machine<'a, I, V>,
) -> Result<Flow<'a, I>, AllocError>
    requires rests { moving flow (place_of machine.old).frames ≡ false }
    requires wants { over flow ≡ None }
    ensures { IfOk result (λ next. (s : S) → Turned (P.acts version.now) flow.entry (place_of machine.old) s next (place_of machine.new) s) }
{
    match flow {
        Flow::Again => Ok(pass(machine)),
        Flow::Open(func, body) => {
            enter_body(version, func, body, machine)?;
            Ok(Flow::Run)
        }
        Flow::Run | Flow::Close(_) | Flow::Enter(_) => unreachable!(),
    }
}

/// Where a run stands: how many turns it used, and what it is about to do.
#[derive(Drop)]
struct Standing<'a, I> {
    used: u64,
    flow: Flow<'a, I>,
}

/// Goes on until a turn is wanted that is not there, or that no pass of the innermost loop wants, or the run is over.
fn go_on<'a, I: Drop, V: Copy, S, P: Version<I, V, S>>(
    version: &'a P,
    flow: Flow<'a, I>,
    machine: &mut Machine<'a, I, V>,
    state: &mut S,
    turns: u64,
) -> Result<Standing<'a, I>, AllocError>
    ensures spent { IfOk result (λ standing. (standing.used ≤ turns) × Spent (P.acts version.now) flow.entry (place_of machine.old) state.old turns standing.used standing.flow (place_of machine.new) state.new) }
    ensures rests { IfOk result (λ standing. moving standing.flow (place_of machine.new).frames ≡ false) }
{
    match flow {
        Flow::Run => {
            let glided = glide(
                version,
                machine.code,
                &mut machine.operands,
                &mut machine.locals,
                &machine.frames,
                state,
                turns,
            )?;
            machine.code = glided.code;
            let flow = advance(version, after(glided.jump), machine, state)?;
            Ok(Standing {
                used: glided.used,
                flow,
            })
        }
        other => {
            let flow = advance(version, other, machine, state)?;
            Ok(Standing { used: 0, flow })
        }
    }
}

/// Takes a turn, and goes on.
fn next_turn<'a, I: Drop, V: Copy, S, P: Version<I, V, S>>(
    version: &'a P,
    flow: Flow<'a, I>,
    machine: &mut Machine<'a, I, V>,
    state: &mut S,
    turns: u64,
) -> Result<Standing<'a, I>, AllocError>
    requires rests { moving flow (place_of machine.old).frames ≡ false }
    requires wants { over flow ≡ None }
    requires some { 0 < turns }
    ensures spent { IfOk result (λ standing. (0 < standing.used) × (standing.used ≤ turns) × Spent (P.acts version.now) flow.entry (place_of machine.old) state.old turns standing.used standing.flow (place_of machine.new) state.new) }
    ensures rests { IfOk result (λ standing. moving standing.flow (place_of machine.new).frames ≡ false) }
{
    let next = take_turn(version, flow, machine)?;
    let standing = go_on(version, next, machine, state, turns - 1)?;
    Ok(Standing {
        used: standing.used + 1,
        flow: standing.flow,
    })
}

/// Takes turns until the run is over, and so many at most.
fn spend<'a, I: Drop, V: Copy, S, P: Version<I, V, S>>(
    version: &'a P,
    start: Flow<'a, I>,
    machine: &mut Machine<'a, I, V>,
    state: &mut S,
    turns: u64,
) -> Result<Outcome, AllocError>
    requires { moving start (place_of machine.old).frames ≡ false }
    ensures { IfOk result (λ outcome. Came (P.acts version.now) start.entry (place_of machine.old) state.old turns outcome (place_of machine.new) state.new) }
{
    let mut flow = start;
    let mut used = 0;
    while used < turns {
        if let Some(jump) = over(&flow) {
            return Ok(Outcome::Done(used, jump));
        }
        let standing = next_turn(version, flow, machine, state, turns - used)?;
        used += standing.used;
        flow = standing.flow;
    }
    match over(&flow) {
        Some(jump) => Ok(Outcome::Done(turns, jump)),
        None => Ok(Outcome::Halted),
    }
}

/// Runs a machine from where it is, within so many turns.
pub(crate) fn run<'a, I: Drop, V: Copy, S, P: Version<I, V, S>>(
    version: &'a P,
    start: Flow<'a, I>,
    machine: &mut Machine<'a, I, V>,
    state: &mut S,
    turns: u64,
) -> Result<Outcome, AllocError>
    ensures { IfOk result (λ outcome. Came (P.acts version.now) start.entry (place_of machine.old) state.old turns outcome (place_of machine.new) state.new) }
{
    let flow = advance(version, start, machine, state)?;
    let outcome = spend(version, flow, machine, state, turns)?;
    Ok(outcome)
}
