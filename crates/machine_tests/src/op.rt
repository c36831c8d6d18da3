use sqlite_items::Items;

/// An instruction of the small language. Values are numbers of 64 bits, and so is the state.
#[derive(Drop)]
pub enum Op {
    /// Puts the number on top.
    Const(u64),
    /// Puts a local on top.
    Get(u32),
    /// Takes the top into a local.
    Set(u32),
    /// One less than the top, or a trap where it is 0.
    Down,
    /// A trap.
    Trap,
    /// A branch to this label.
    Br(u32),
    /// A branch to this label where the top is not 0.
    BrIf(u32),
    /// A return.
    Return,
    /// Throws this exception.
    Throw(u32),
    /// A call of this function in the place of the function that runs.
    Tail(u32),
    /// A block that takes and gives so many operands.
    Block(usize, usize, Items<Op>),
    /// A loop that takes and gives so many operands.
    Loop(usize, usize, Items<Op>),
    /// The first code where the top is not 0, else the second.
    If(usize, usize, Items<Op>, Items<Op>),
    /// Code in which this exception is caught; the number of the exception is then on top.
    Try(usize, usize, u32, Items<Op>),
    /// A call of this function, which takes so many operands.
    Call(usize, u32),
    /// A call of the function whose index is on top.
    CallBy(usize),
}

/// A function: how many operands it takes and gives, how many further locals it has, and its code.
#[derive(Drop)]
pub struct Func {
    /// How many operands it takes.
    pub params: usize,
    /// How many operands it gives.
    pub results: usize,
    /// How many further locals it has.
    pub zeros: usize,
    /// Its code.
    pub code: Items<Op>,
}

/// Functions by their indices. The index behind the last names a function of the host's: it takes one operand, makes it
/// the state, and gives the state that was there.
#[derive(Drop)]
pub struct Program {
    /// The functions.
    pub funcs: Items<Func>,
}
