use super::immediates::{Catch, FloatCode, FloatImmediates, MemArg};
use super::op::Op;
use super::ty::BlockType;
use crate::lists::Types;
use lane_core::operators::LaneLoad;
use lane_core::vector::Shape;
use num_core::operators::{Load, Store};
use sqlite_items::Items;

/// An instruction of 3.0 (the standard's "Instructions"), with its immediates. Those that differ in an operator alone
/// are one variant, and so are all instructions on floats.
#[derive(Drop)]
pub enum Instr {
    /// unreachable: a trap.
    Unreachable,
    /// nop.
    Nop,
    /// block: code whose label is behind it.
    Block(BlockType, Code),
    /// loop: code whose label is before it.
    Loop(BlockType, Code),
    /// if: the first code where the operand is not 0, else the second.
    If(BlockType, Code, Code),
    /// throw of an exception with this tag.
    Throw(u32),
    /// throw_ref: the exception that the operand refers to.
    ThrowRef,
    /// br to this label.
    Br(u32),
    /// br_if to this label.
    BrIf(u32),
    /// br_table: the label that the operand numbers, or the last one.
    BrTable(Items<u32>, u32),
    /// return.
    Return,
    /// call of this function.
    Call(u32),
    /// call_indirect: a function of this type from this table.
    CallIndirect(u32, u32),
    /// return_call of this function.
    ReturnCall(u32),
    /// return_call_indirect: a function of this type from this table.
    ReturnCallIndirect(u32, u32),
    /// try_table: code whose exceptions these clauses take.
    TryTable(BlockType, Items<Catch>, Code),
    /// drop.
    Drop,
    /// select without types.
    Select,
    /// select with types.
    SelectTyped(Types),
    /// local.get of this local: the parameters first, then the declared locals.
    LocalGet(u32),
    /// local.set of this local.
    LocalSet(u32),
    /// local.tee of this local.
    LocalTee(u32),
    /// global.get of this global.
    GlobalGet(u32),
    /// global.set of this global.
    GlobalSet(u32),
    /// table.get from this table.
    TableGet(u32),
    /// table.set in this table.
    TableSet(u32),
    /// table.init: from this element segment into this table.
    TableInit(u32, u32),
    /// elem.drop of this element segment.
    ElemDrop(u32),
    /// table.copy: to this table from this table.
    TableCopy(u32, u32),
    /// table.grow of this table.
    TableGrow(u32),
    /// table.size of this table.
    TableSize(u32),
    /// table.fill of this table.
    TableFill(u32),
    /// A load of an integer.
    Load(Load, MemArg),
    /// A store of an integer.
    Store(Store, MemArg),
    /// A load of a vector.
    LoadVector(LaneLoad, MemArg),
    /// v128.store.
    StoreVector(MemArg),
    /// A load of one lane of this shape, by the number of the lane.
    LoadLane(Shape, MemArg, u8),
    /// A store of one lane of this shape, by the number of the lane.
    StoreLane(Shape, MemArg, u8),
    /// memory.size of this memory.
    MemorySize(u32),
    /// memory.grow of this memory.
    MemoryGrow(u32),
    /// memory.init: from this data segment into this memory.
    MemoryInit(u32, u32),
    /// data.drop of this data segment.
    DataDrop(u32),
    /// memory.copy: to this memory from this memory.
    MemoryCopy(u32, u32),
    /// memory.fill of this memory.
    MemoryFill(u32),
    /// An instruction that touches no state.
    Pure(Op),
    /// An instruction on floats. It is read and then refused.
    Float(FloatCode, FloatImmediates),
}

/// Instructions in order, without the end that closes them in the binary format.
pub type Code = Items<Instr>;

/// The body of a function of the module.
#[derive(Drop)]
pub struct Body {
    /// The types of the locals that it declares, the parameters not among them.
    pub locals: Types,
    /// Its code.
    pub code: Code,
}
