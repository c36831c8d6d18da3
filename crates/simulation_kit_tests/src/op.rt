use sqlite_items::Items;

/// An instruction of the small language. Values are numbers.
#[derive(Drop)]
pub enum Op {
    /// Puts the number on top.
    Const(u64),
    /// Puts a local on top.
    Get(u32),
    /// Takes the top into a local.
    Set(u32),
    /// One less than the top, if it is not 0.
    Down,
    /// 0 in the place of the top. The output has no such instruction.
    Zero,
    /// Takes the top and tells it.
    Tell,
    /// Takes the top into the global that the output alone has.
    Keep,
    /// A branch to this label where the top is not 0.
    BrIf(u32),
    /// A block.
    Block(Items<Op>),
    /// A loop.
    Loop(Items<Op>),
    /// A call of this function, which takes one operand and gives one.
    Call(u32),
}
