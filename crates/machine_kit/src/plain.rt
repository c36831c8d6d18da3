// Plain instructions, and passes of a loop that has no others.

ghost use Rattle.std.specs.Prelude.{◌≡◌, ◌≤◌, List, true, reverse, Some, IfOk, MatchOption};
ghost use Rattle.machine_kit.specs.declared.frame.Frame.{Frame};
ghost use Rattle.machine_kit.specs.Machines.{flow_after};
ghost use Rattle.machine_kit.specs.Stretches.{Stretch};
ghost use Rattle.machine_kit.specs.Turning.{Spent, IsPass};

use crate::frame::{Flow, Frame};
use crate::head::Step;
use crate::locals::Locals;
use crate::operands::Operands;
use crate::version::Version;
use evaluation_kit::Jump;
use std::alloc::AllocError;

/// Where plain instructions came to: the code behind them, and the jump by which the last one ended, if it did not end at
/// its end.
#[derive(Drop)]
struct Ran<'a, I> {
    code: &'a [I],
    jump: Option<Jump>,
}

/// Does the plain instructions in front of code, up to one that jumps. It is called in one place, so that it is compiled
/// into that, and what an instruction does into it.
fn run_plain<'a, I: Drop, V: Copy, S, P: Version<I, V, S>>(
    version: &P,
    start: &'a [I],
    operands: &mut Operands<V>,
    locals: &mut Locals<V>,
    state: &mut S,
) -> Result<Ran<'a, I>, AllocError>
    ensures { IfOk result (λ ran. (frames : List (Frame I)) → Stretch (P.acts version.now) (record { code = start.now; operands = operands.old; locals = locals.old; frames = frames }) state.old ran.jump (record { code = ran.code.now; operands = operands.new; locals = locals.new; frames = frames }) state.new) }
{
    let mut code = start;
    while let Some((instr, rest)) = code.split_first() {
        match version.leaf(instr, operands, locals, state)? {
            Step::Next => code = rest,
            Step::Jump(jump) => {
                return Ok(Ran {
                    code: rest,
                    jump: Some(jump),
                });
            }
            Step::Form => return Ok(Ran { code, jump: None }),
        }
    }
    Ok(Ran { code, jump: None })
}

/// A pass of the innermost loop: how many operands it takes, and its code.
#[derive(Drop)]
struct NextPass<'a, I> {
    takes: usize,
    code: &'a [I],
}

/// The pass to which a jump leads, where it goes to the innermost form, that is a loop, and there is a turn for it.
#[inline(always)]
fn next_pass<'a, I>(
    is_turn: bool,
    jump: Option<Jump>,
    frames: &Vec<Frame<'a, I>>,
) -> Option<NextPass<'a, I>>
    ensures { MatchOption result (Unit {0}) (λ pass. (is_turn ≡ true) × (jump ≡ Some (Jump.Branch 0)) × IsPass pass.takes pass.code.now (reverse frames.now.items)) }
{
    match jump {
        Some(Jump::Branch(0)) if is_turn => match frames.last() {
            Some(Frame::Loop(takes, _, _, body, _)) => Some(NextPass {
                takes: *takes,
                code: body,
            }),
            _ => None,
        },
        _ => None,
    }
}

/// How far a run went: how many turns it used, the code behind its last instruction, and the jump by which that ended, if
/// it did not end at its end.
#[derive(Drop)]
pub(crate) struct Glided<'a, I> {
    pub(crate) used: u64,
    pub(crate) code: &'a [I],
    pub(crate) jump: Option<Jump>,
}

/// Runs plain instructions, and passes of the innermost loop within so many turns. Here most of the time of a run goes, so
/// the parts of the machine are lent apart: what is written to one is known to leave the others alone.
#[inline(never)]
pub(crate) fn glide<'a, I: Drop, V: Copy, S, P: Version<I, V, S>>(
    version: &P,
    start: &'a [I],
    operands: &mut Operands<V>,
    locals: &mut Locals<V>,
    frames: &Vec<Frame<'a, I>>,
    state: &mut S,
    turns: u64,
) -> Result<Glided<'a, I>, AllocError>
    ensures spent { IfOk result (λ glided. (glided.used ≤ turns) × Spent (P.acts version.now) Flow.Run (record { code = start.now; operands = operands.old; locals = locals.old; frames = reverse frames.now.items }) state.old turns glided.used (flow_after glided.jump) (record { code = glided.code.now; operands = operands.new; locals = locals.new; frames = reverse frames.now.items }) state.new) }
    ensures stretch { IfOk result (λ glided. glided.used ≡ 0 → (frames : List (Frame I)) → Stretch (P.acts version.now) (record { code = start.now; operands = operands.old; locals = locals.old; frames = frames }) state.old glided.jump (record { code = glided.code.now; operands = operands.new; locals = locals.new; frames = frames }) state.new) }
{
    let mut code = start;
    let mut used = 0;
    loop {
        let ran = run_plain(version, code, operands, locals, state)?;
        let Some(pass) = next_pass(used < turns, ran.jump, frames) else {
            return Ok(Glided {
                used,
                code: ran.code,
                jump: ran.jump,
            });
        };
        operands.keep(pass.takes);
        code = pass.code;
        used += 1;
    }
}
