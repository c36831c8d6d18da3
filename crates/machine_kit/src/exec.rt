// What each form of an instruction does to a machine.

ghost use Rattle.std.specs.Prelude.{◌≡◌, List, ◌∷◌, cond, IfOk, OnOk};
ghost use Rattle.machine_kit.specs.declared.frame.Frame.{Frame};
ghost use Rattle.machine_kit.specs.Machines.{Moves, place_of, flow_after};
ghost use Rattle.machine_kit.specs.Stretches.{Stops};
ghost use Rattle.machine_kit.specs.Heads.{HeadIs};

use crate::frame::{Flow, Frame, open};
use crate::head::Head;
use crate::machine::Machine;
use crate::plain::glide;
use crate::version::Version;
use evaluation_kit::Jump;
use std::alloc::AllocError;

/// What comes behind a plain instruction.
pub(crate) fn after<'a, I>(jump: Option<Jump>) -> Flow<'a, I>
    ensures { result ≡ flow_after jump }
{
    match jump {
        None => Flow::Run,
        Some(_) => Flow::Close(jump),
    }
}

fn run_block<'a, I: Drop, V: Copy, S, P: Version<I, V, S>>(
    version: &P,
    instr: &'a I,
    takes: usize,
    gives: usize,
    body: &'a [I],
    rest: &'a [I],
    machine: &mut Machine<'a, I, V>,
) -> Result<(), AllocError>
    requires { HeadIs ((P.acts version.now).form instr.now) (Head.Enclose takes gives body) }
    ensures { OnOk result ((s : S) → Moves (P.acts version.now) Flow.Run (record (place_of machine.old) { code = instr.now ∷ rest.now }) s Flow.Run (place_of machine.new) s) }
{
    let aside = machine.operands.set_aside(takes);
    open(&mut machine.frames, Frame::Block(gives, aside, rest))?;
    machine.code = body;
    Ok(())
}

fn run_loop<'a, I: Drop, V: Copy, S, P: Version<I, V, S>>(
    version: &P,
    instr: &'a I,
    takes: usize,
    gives: usize,
    body: &'a [I],
    rest: &'a [I],
    machine: &mut Machine<'a, I, V>,
) -> Result<(), AllocError>
    requires { HeadIs ((P.acts version.now).form instr.now) (Head.Repeat takes gives body) }
    ensures { OnOk result ((s : S) → Moves (P.acts version.now) Flow.Run (record (place_of machine.old) { code = instr.now ∷ rest.now }) s Flow.Again (place_of machine.new) s) }
{
    let aside = machine.operands.set_aside(takes);
    open(
        &mut machine.frames,
        Frame::Loop(takes, gives, aside, body, rest),
    )?;
    machine.code = rest;
    Ok(())
}

/// The code that a condition chooses.
fn either<'a, I>(holds: bool, first: &'a [I], second: &'a [I]) -> &'a [I]
    ensures { result.now ≡ cond holds first.now second.now }
{
    if holds { first } else { second }
}

fn run_choice<'a, I: Drop, V: Copy, S, P: Version<I, V, S>>(
    version: &P,
    instr: &'a I,
    takes: usize,
    gives: usize,
    first: &'a [I],
    second: &'a [I],
    rest: &'a [I],
    machine: &mut Machine<'a, I, V>,
) -> Result<(), AllocError>
    requires { HeadIs ((P.acts version.now).form instr.now) (Head.Choose takes gives first second) }
    ensures { OnOk result ((s : S) → Moves (P.acts version.now) Flow.Run (record (place_of machine.old) { code = instr.now ∷ rest.now }) s Flow.Run (place_of machine.new) s) }
{
    let holds = version.test(instr, &machine.operands);
    machine.operands.drop_top(1);
    let aside = machine.operands.set_aside(takes);
    open(&mut machine.frames, Frame::Block(gives, aside, rest))?;
    machine.code = either(holds, first, second);
    Ok(())
}

fn run_guard<'a, I: Drop, V: Copy, S, P: Version<I, V, S>>(
    version: &P,
    instr: &'a I,
    takes: usize,
    gives: usize,
    body: &'a [I],
    rest: &'a [I],
    machine: &mut Machine<'a, I, V>,
) -> Result<(), AllocError>
    requires { HeadIs ((P.acts version.now).form instr.now) (Head.Guard takes gives body) }
    ensures { OnOk result ((s : S) → Moves (P.acts version.now) Flow.Run (record (place_of machine.old) { code = instr.now ∷ rest.now }) s Flow.Run (place_of machine.new) s) }
{
    let aside = machine.operands.set_aside(takes);
    open(&mut machine.frames, Frame::Guard(gives, aside, instr, rest))?;
    machine.code = body;
    Ok(())
}

fn run_call<'a, I: Drop, V: Copy, S, P: Version<I, V, S>>(
    version: &P,
    instr: &'a I,
    takes: usize,
    func: u32,
    rest: &'a [I],
    machine: &mut Machine<'a, I, V>,
) -> Result<(), AllocError>
    requires { HeadIs ((P.acts version.now).form instr.now) (Head.Invoke takes func) }
    ensures { OnOk result ((s : S) → Moves (P.acts version.now) Flow.Run (record (place_of machine.old) { code = instr.now ∷ rest.now }) s (Flow.Enter func) (place_of machine.new) s) }
{
    let aside = machine.operands.set_aside(takes);
    let own = machine.locals.set_aside();
    open(&mut machine.frames, Frame::Call(own, aside, rest))?;
    machine.code = rest;
    Ok(())
}

fn run_picked_call<'a, I: Drop, V: Copy, S, P: Version<I, V, S>>(
    version: &P,
    instr: &'a I,
    takes: usize,
    rest: &'a [I],
    machine: &mut Machine<'a, I, V>,
    state: &S,
) -> Result<Flow<'a, I>, AllocError>
    requires { HeadIs ((P.acts version.now).form instr.now) (Head.InvokeBy takes) }
    ensures { IfOk result (λ flow. Moves (P.acts version.now) Flow.Run (record (place_of machine.old) { code = instr.now ∷ rest.now }) state.now flow (place_of machine.new) state.now) }
{
    let picked = version.pick(instr, &machine.operands, &machine.locals, state);
    machine.operands.drop_top(1);
    machine.code = rest;
    let Some(func) = picked else {
        return Ok(Flow::Close(Some(Jump::Trap)));
    };
    let aside = machine.operands.set_aside(takes);
    let own = machine.locals.set_aside();
    open(&mut machine.frames, Frame::Call(own, aside, rest))?;
    Ok(Flow::Enter(func))
}

/// Opens the form or the call in front of the code, or comes to its end.
fn open_next<'a, I: Drop, V: Copy, S, P: Version<I, V, S>>(
    version: &P,
    machine: &mut Machine<'a, I, V>,
    state: &mut S,
) -> Result<Flow<'a, I>, AllocError>
    requires { Stops (P.acts version.now) (place_of machine.old).code }
    ensures { IfOk result (λ flow. Moves (P.acts version.now) Flow.Run (place_of machine.old) state.old flow (place_of machine.new) state.new) }
{
    let Some((instr, rest)) = machine.code.split_first() else {
        return Ok(Flow::Close(None));
    };
    match version.head(instr) {
        Head::Flat => unreachable!(),
        Head::InvokeBy(takes) => {
            let flow = run_picked_call(version, instr, takes, rest, machine, state)?;
            Ok(flow)
        }
        Head::Enclose(takes, gives, body) => {
            run_block(version, instr, takes, gives, body, rest, machine)?;
            Ok(Flow::Run)
        }
        Head::Repeat(takes, gives, body) => {
            run_loop(version, instr, takes, gives, body, rest, machine)?;
            Ok(Flow::Again)
        }
        Head::Choose(takes, gives, first, second) => {
            run_choice(version, instr, takes, gives, first, second, rest, machine)?;
            Ok(Flow::Run)
        }
        Head::Guard(takes, gives, body) => {
            run_guard(version, instr, takes, gives, body, rest, machine)?;
            Ok(Flow::Run)
        }
        Head::Invoke(takes, func) => {
            run_call(version, instr, takes, func, rest, machine)?;
            Ok(Flow::Enter(func))
        }
    }
}

/// Runs the plain instructions in front of the code, and then opens the form or the call behind them, or comes to the end.
pub(crate) fn exec<'a, I: Drop, V: Copy, S, P: Version<I, V, S>>(
    version: &P,
    machine: &mut Machine<'a, I, V>,
    state: &mut S,
) -> Result<Flow<'a, I>, AllocError>
    ensures { IfOk result (λ flow. Moves (P.acts version.now) Flow.Run (place_of machine.old) state.old flow (place_of machine.new) state.new) }
{
    let ran = glide(
        version,
        machine.code,
        &mut machine.operands,
        &mut machine.locals,
        &machine.frames,
        state,
        0,
    )?;
    machine.code = ran.code;
    match ran.jump {
        None => {
            let flow = open_next(version, machine, state)?;
            Ok(flow)
        }
        jump => Ok(Flow::Close(jump)),
    }
}
