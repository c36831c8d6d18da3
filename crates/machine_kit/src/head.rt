ghost use Rattle.std.specs.Prelude.{◌≡◌};
ghost use Rattle.machine_kit.specs.Heads.{step_done};

use evaluation_kit::Jump;

/// The form of an instruction, with the code inside it. The first number is how many operands the code inside takes, the
/// second how many it gives.
#[derive(Drop)]
pub enum Head<'a, I> {
    /// A plain instruction.
    Flat,
    /// A block.
    Enclose(usize, usize, &'a [I]),
    /// A loop.
    Repeat(usize, usize, &'a [I]),
    /// A choice: the code where the condition holds, and the code where it does not.
    Choose(usize, usize, &'a [I], &'a [I]),
    /// Code with a handler of exceptions.
    Guard(usize, usize, &'a [I]),
    /// A call of the function with this index, which takes so many operands.
    Invoke(usize, u32),
    /// A call of a function that the operands pick, which takes so many operands.
    InvokeBy(usize),
}

/// The body of a function of the module: how many operands it takes and gives, and its code.
#[derive(Drop)]
pub struct Body<'a, I> {
    /// How many operands it takes.
    pub params: usize,
    /// How many operands it gives.
    pub results: usize,
    /// Its code.
    pub code: &'a [I],
}

/// What a function index names.
#[derive(Drop)]
pub enum Target<'a, I> {
    /// No function.
    Missing,
    /// A function of the module.
    Own(Body<'a, I>),
    /// A function of the host's, which takes so many operands.
    Host(usize),
}

/// What became of an instruction that was to be done by itself.
#[derive(Clone, Copy)]
pub enum Step {
    /// It is done, and ended at its end.
    Next,
    /// It is done, and ended by this jump.
    Jump(Jump),
    /// It holds code or calls a function, and nothing is done.
    Form,
}

impl Step {
    /// What became of an instruction that is done, and ended so.
    #[inline(always)]
    pub fn done(jump: Option<Jump>) -> Step
        ensures { result ≡ step_done jump }
    {
        match jump {
            None => Step::Next,
            Some(jump) => Step::Jump(jump),
        }
    }
}
