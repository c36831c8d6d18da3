use super::immediates::{FloatImmediates1, MemArg1};
use super::op::Op1;
use super::ty::{BlockType1, Ty1};
use num_core::operators::{Load, Store};
use sqlite_items::Items;

/// An instruction of 1.0 (the standard's "Instructions"), with its immediates. Those that differ in an operator alone
/// are one variant, and so are all instructions on floats.
#[derive(Drop)]
pub enum Instr1 {
    /// unreachable: a trap.
    Unreachable,
    /// nop.
    Nop,
    /// block: code whose label is behind it.
    Block(BlockType1, Code1),
    /// loop: code whose label is before it.
    Loop(BlockType1, Code1),
    /// if: the first code where the operand is not 0, else the second.
    If(BlockType1, Code1, Code1),
    /// br to this label.
    Br(u32),
    /// br_if to this label.
    BrIf(u32),
    /// br_table: the label that the operand numbers, or the last one.
    BrTable(Items<u32>, u32),
    /// return.
    Return,
    /// call of this function.
    Call(u32),
    /// call_indirect: a function of this type from the table.
    CallIndirect(u32),
    /// drop.
    Drop,
    /// select.
    Select,
    /// local.get of this local: the parameters first, then the declared locals.
    LocalGet(u32),
    /// local.set of this local.
    LocalSet(u32),
    /// local.tee of this local.
    LocalTee(u32),
    /// global.get of this global.
    GlobalGet(u32),
    /// global.set of this global.
    GlobalSet(u32),
    /// A load of an integer.
    Load(Load, MemArg1),
    /// A store of an integer.
    Store(Store, MemArg1),
    /// memory.size.
    MemorySize,
    /// memory.grow.
    MemoryGrow,
    /// An instruction that touches no state.
    Pure(Op1),
    /// An instruction on floats, by its code in the binary format. It is read, and no module that has it is typed.
    Float(u8, FloatImmediates1),
}

/// Instructions in order, without the end that closes them in the binary format.
pub type Code1 = Items<Instr1>;

/// The body of a function of the module (the standard's "Functions").
#[derive(Drop)]
pub struct Body1 {
    /// The types of the locals that it declares, the parameters not among them.
    pub locals: Items<Ty1>,
    /// Its code.
    pub code: Code1,
}
