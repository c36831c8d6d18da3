/// What code is made of in the binary format, from left to right ("Control Instructions" of the standard).
#[derive(Drop)]
pub enum Token<I, H> {
    /// An instruction that holds no code.
    Plain(I),
    /// The opcode and the immediates of an instruction that holds code. Its code follows.
    Open(H),
    /// The byte between the two arms of an instruction.
    Else,
    /// The byte that closes an instruction that holds code, or the whole expression.
    End,
}
