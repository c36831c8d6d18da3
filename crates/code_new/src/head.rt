use sqlite_items::Items;
use wasm_ast::module::{BlockType, Catch};

/// The opcode and the immediates of an instruction that holds code ("Control Instructions" of the standard).
#[derive(Drop)]
pub enum Head {
    /// block of this type.
    Block(BlockType),
    /// loop of this type.
    Loop(BlockType),
    /// if of this type.
    If(BlockType),
    /// try_table of this type, with its catch clauses.
    TryTable(BlockType, Items<Catch>),
}
