use core1_ast::module::BlockType1;

/// The opcode and the immediates of an instruction of 1.0 that holds code (the standard's "Control Instructions").
#[derive(Clone, Copy, Debug, PartialEq, Eq)]
pub enum Head1 {
    /// block with this type.
    Block(BlockType1),
    /// loop with this type.
    Loop(BlockType1),
    /// if with this type.
    If(BlockType1),
}
