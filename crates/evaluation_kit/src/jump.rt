/// How code ends other than at its end (the standard's "Instructions" of chapter 4, branches, returns, exceptions and
/// traps).
#[derive(Clone, Copy)]
pub enum Jump {
    /// A branch to the label with this index, 0 the innermost.
    Branch(u32),
    /// A return from the function.
    Return,
    /// An exception, by its number among those made so far.
    Throw(u32),
    /// A call of the function with this index in the place of the function that runs.
    TailCall(u32),
    /// A trap.
    Trap,
    /// The host has no reply left to a call of this imported function.
    NoReply(u32),
    /// There is no room for one more exception that is caught by reference.
    Full,
    /// The operands lack the types that the instruction takes.
    Stuck,
}
