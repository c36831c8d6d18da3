// What the end of the code inside a form, or a jump out of it, does to a machine.

ghost use Rattle.std.specs.Prelude.{◌≡◌, ◌∷◌, true, IfOk, OnOk};
ghost use Rattle.machine_kit.specs.Exits.{past_label, thrown, leaving};
ghost use Rattle.machine_kit.specs.Closings.{finished_at, block_place, block_flow, loop_place, loop_flow, body_place, body_flow, call_place, call_flow, caught_flow};
ghost use Rattle.machine_kit.specs.Machines.{Moves, place_of, moving};

use crate::frame::{Flow, Frame, open, take_frame};
use crate::machine::Machine;
use crate::version::Version;
use evaluation_kit::Jump;
use std::alloc::AllocError;

/// How code leaves the body of a function.
#[derive(Clone, Copy)]
pub(crate) enum Leaving {
    /// The function ends.
    Ends,
    /// It calls another one in its place.
    Calls(u32),
    /// The jump goes on to the caller.
    Passes,
}

/// The jump outside a form with a label, or none where it goes to that label.
fn past_label(jump: Jump) -> Option<Jump>
    ensures { result ≡ past_label jump }
{
    match jump {
        Jump::Branch(0) => None,
        Jump::Branch(k) => Some(Jump::Branch(k - 1)),
        other => Some(other),
    }
}

/// The number of the exception that is thrown.
fn thrown(jump: Jump) -> Option<u32>
    ensures { result ≡ thrown jump }
{
    match jump {
        Jump::Throw(exception) => Some(exception),
        _ => None,
    }
}

/// How a jump leaves the body of a function.
fn leaves_by(jump: Jump) -> Leaving
    ensures { result ≡ leaving jump }
{
    match jump {
        Jump::Branch(_) | Jump::Return => Leaving::Ends,
        Jump::TailCall(func) => Leaving::Calls(func),
        _ => Leaving::Passes,
    }
}

/// Goes on behind a form: its results lie on the operands that were set aside for it.
fn finish<'a, I: Drop, V: Copy>(
    gives: usize,
    aside: usize,
    rest: &'a [I],
    machine: &mut Machine<'a, I, V>,
)
    ensures { place_of machine.new ≡ finished_at gives aside rest.now (place_of machine.old) }
{
    machine.operands.keep(gives);
    machine.operands.restore(aside);
    machine.code = rest;
}

/// Closes a block.
fn close_block<'a, I: Drop, V: Copy>(
    jump: Option<Jump>,
    gives: usize,
    aside: usize,
    rest: &'a [I],
    machine: &mut Machine<'a, I, V>,
) -> Flow<'a, I>
    ensures flow { result ≡ block_flow jump }
    ensures place { place_of machine.new ≡ block_place gives aside rest.now jump (place_of machine.old) }
{
    let Some(out) = jump else {
        finish(gives, aside, rest, machine);
        return Flow::Run;
    };
    let Some(past) = past_label(out) else {
        finish(gives, aside, rest, machine);
        return Flow::Run;
    };
    machine.operands.forget(aside);
    Flow::Close(Some(past))
}

/// Closes a loop, or goes on to its next pass, for which it stays open.
fn close_loop<'a, I: Drop, V: Copy>(
    jump: Option<Jump>,
    takes: usize,
    gives: usize,
    aside: usize,
    body: &'a [I],
    rest: &'a [I],
    machine: &mut Machine<'a, I, V>,
) -> Result<Flow<'a, I>, AllocError>
    ensures flow { IfOk result (λ flow. flow ≡ loop_flow jump) }
    ensures place { OnOk result (place_of machine.new ≡ loop_place takes gives aside body.entry rest.entry jump (place_of machine.old)) }
{
    let Some(out) = jump else {
        finish(gives, aside, rest, machine);
        return Ok(Flow::Run);
    };
    let Some(past) = past_label(out) else {
        machine.operands.keep(takes);
        open(
            &mut machine.frames,
            Frame::Loop(takes, gives, aside, body, rest),
        )?;
        return Ok(Flow::Again);
    };
    machine.operands.forget(aside);
    Ok(Flow::Close(Some(past)))
}

/// Closes the body of a function.
fn close_body<'a, I: Drop, V: Copy>(
    jump: Option<Jump>,
    gives: usize,
    machine: &mut Machine<'a, I, V>,
) -> Flow<'a, I>
    ensures flow { result ≡ body_flow jump }
    ensures place { place_of machine.new ≡ body_place gives jump (place_of machine.old) }
{
    let Some(out) = jump else {
        machine.operands.keep(gives);
        return Flow::Close(None);
    };
    match leaves_by(out) {
        Leaving::Ends => {
            machine.operands.keep(gives);
            Flow::Close(None)
        }
        Leaving::Calls(func) => Flow::Enter(func),
        Leaving::Passes => Flow::Close(jump),
    }
}

/// Closes a call: the locals are the caller's again.
fn close_call<'a, I: Drop, V: Copy>(
    jump: Option<Jump>,
    own: usize,
    aside: usize,
    rest: &'a [I],
    machine: &mut Machine<'a, I, V>,
) -> Flow<'a, I>
    ensures flow { result ≡ call_flow jump }
    ensures place { place_of machine.new ≡ call_place own aside rest.now jump (place_of machine.old) }
{
    machine.locals.restore(own);
    let Some(out) = jump else {
        machine.operands.restore(aside);
        machine.code = rest;
        return Flow::Run;
    };
    machine.operands.forget(aside);
    Flow::Close(Some(out))
}

/// What comes of an exception that a handler was asked about.
fn caught_flow<'a, I>(caught: Option<Jump>, thrown: Jump) -> Flow<'a, I>
    ensures { result ≡ caught_flow caught thrown }
{
    match caught {
        Some(jump) => Flow::Close(Some(jump)),
        None => Flow::Close(Some(thrown)),
    }
}

/// Closes code with a handler, which is asked about an exception.
fn close_guard<'a, I: Drop, V: Copy, S, P: Version<I, V, S>>(
    version: &P,
    jump: Option<Jump>,
    gives: usize,
    aside: usize,
    instr: &'a I,
    rest: &'a [I],
    machine: &mut Machine<'a, I, V>,
    state: &mut S,
) -> Result<Flow<'a, I>, AllocError>
    ensures { IfOk result (λ flow. Moves (P.acts version.now) (Flow.Close jump) (record (place_of machine.old) { frames = Frame.Guard gives aside instr.entry rest.entry ∷ (place_of machine.old).frames }) state.old flow (place_of machine.new) state.new) }
{
    let Some(out) = jump else {
        return Ok(close_block(jump, gives, aside, rest, machine));
    };
    let Some(exception) = thrown(out) else {
        return Ok(close_block(jump, gives, aside, rest, machine));
    };
    machine.operands.forget(aside);
    let caught = version.catch(instr, exception, &mut machine.operands, state)?;
    Ok(caught_flow(caught, out))
}

/// Closes the innermost form or call.
pub(crate) fn close<'a, I: Drop, V: Copy, S, P: Version<I, V, S>>(
    version: &P,
    jump: Option<Jump>,
    machine: &mut Machine<'a, I, V>,
    state: &mut S,
) -> Result<Flow<'a, I>, AllocError>
    requires { moving (Flow.Close jump) (place_of machine.old).frames ≡ true }
    ensures { IfOk result (λ flow. Moves (P.acts version.now) (Flow.Close jump) (place_of machine.old) state.old flow (place_of machine.new) state.new) }
{
    match take_frame(&mut machine.frames) {
        Some(Frame::Block(gives, aside, rest)) => Ok(close_block(
            jump, gives, aside, rest, machine,
        )),
        Some(Frame::Loop(takes, gives, aside, body, rest)) => {
            let flow = close_loop(jump, takes, gives, aside, body, rest, machine)?;
            Ok(flow)
        }
        Some(Frame::Guard(gives, aside, instr, rest)) => {
            close_guard(version, jump, gives, aside, instr, rest, machine, state)
        }
        Some(Frame::Body(gives)) => Ok(close_body(jump, gives, machine)),
        Some(Frame::Call(own, aside, rest)) => Ok(close_call(jump, own, aside, rest, machine)),
        None => unreachable!(),
    }
}
