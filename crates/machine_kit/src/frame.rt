ghost use Rattle.std.specs.Prelude.{◌≡◌, [], ◌∷◌, reverse, OnOk, MatchOption};
ghost use Rattle.machine_kit.specs.Machines.{moving};

use crate::head::Body;
use evaluation_kit::Jump;
use std::alloc::AllocError;

/// A form or a call that is open: what the standard keeps as labels, handlers and frames on its stack ("Stack" of chapter
/// 4). The number before the code behind it is how many operands are set aside for it.
#[derive(Drop)]
pub(crate) enum Frame<'a, I> {
    /// A block: how many operands it gives.
    Block(usize, usize, &'a [I]),
    /// A loop: how many operands a pass takes, how many the loop gives, and the code of a pass.
    Loop(usize, usize, usize, &'a [I], &'a [I]),
    /// Code with a handler: how many operands it gives, and the instruction that it is inside.
    Guard(usize, usize, &'a I, &'a [I]),
    /// The body of a function: how many operands it gives.
    Body(usize),
    /// A call: how many locals of the caller are set aside.
    Call(usize, usize, &'a [I]),
}

/// What a machine is about to do.
#[derive(Drop)]
pub(crate) enum Flow<'a, I> {
    /// Run its code.
    Run,
    /// Go on at the end of the code, or jump.
    Close(Option<Jump>),
    /// Call the function with this index.
    Enter(u32),
    /// Take a turn and pass through the loop that is innermost.
    Again,
    /// Take a turn and enter the function with this index and body.
    Open(u32, Body<'a, I>),
}

/// Opens a form or a call inside the others.
pub(crate) fn open<'a, I: Drop>(
    frames: &mut Vec<Frame<'a, I>>,
    frame: Frame<'a, I>,
) -> Result<(), AllocError>
    ensures { OnOk result (reverse frames.new.items ≡ frame.entry ∷ reverse frames.old.items) }
{
    frames.push(frame)?;
    Ok(())
}

/// Takes the innermost form or call away.
pub(crate) fn take_frame<'a, I: Drop>(frames: &mut Vec<Frame<'a, I>>) -> Option<Frame<'a, I>>
    ensures { MatchOption result (reverse frames.old.items ≡ []) (λ frame. reverse frames.old.items ≡ frame ∷ reverse frames.new.items) }
{
    frames.pop()
}

/// Whether the machine goes on without a turn.
pub(crate) fn moving<'a, I>(flow: &Flow<'a, I>, frames: &Vec<Frame<'a, I>>) -> bool
    ensures { result ≡ moving flow.now (reverse frames.now.items) }
{
    match flow {
        Flow::Run | Flow::Enter(_) => true,
        Flow::Close(_) => !frames.is_empty(),
        Flow::Again | Flow::Open(_, _) => false,
    }
}
