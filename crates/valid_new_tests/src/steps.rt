// Code of rows: instructions over static lists.

use lane_core::operators::LaneLoad;
use lane_core::vector::{Shape, V};
use num_core::operators::{Load, Store};
use sqlite_items::Items;
use std::alloc::{AllocError, Global};
use wasm_ast::lists::Types;
use wasm_ast::module::{BlockType, Catch, Code, FloatCode, FloatImmediates, Instr, MemArg, Op, Ty};

/// An instruction, with its immediates and the code in it.
#[derive(Clone, Copy)]
pub enum Step {
    Plain(Plain),
    Named(Index, u32),
    NamedTwice(Pair, u32, u32),
    Access(Access, MemArg),
    Pure(Op),
    Float(FloatCode, FloatImmediates),
    SelectTyped(&'static [Ty]),
    BrTable(&'static [u32], u32),
    Block(BlockType, &'static [Step]),
    Loop(BlockType, &'static [Step]),
    If(BlockType, &'static [Step], &'static [Step]),
    Try(BlockType, &'static [Catch], &'static [Step]),
}

/// An instruction without immediates.
#[derive(Clone, Copy)]
pub enum Plain {
    Unreachable,
    Nop,
    Drop,
    Select,
    Return,
    ThrowRef,
}

/// An instruction with one index.
#[derive(Clone, Copy)]
pub enum Index {
    Br,
    BrIf,
    Call,
    ReturnCall,
    Throw,
    LocalGet,
    LocalSet,
    LocalTee,
    GlobalGet,
    GlobalSet,
    TableGet,
    TableSet,
    TableSize,
    TableGrow,
    TableFill,
    ElemDrop,
    MemorySize,
    MemoryGrow,
    MemoryFill,
    DataDrop,
}

/// An instruction with two indices, in the order that `Instr` has them.
#[derive(Clone, Copy)]
pub enum Pair {
    CallIndirect,
    ReturnCallIndirect,
    TableCopy,
    TableInit,
    MemoryCopy,
    MemoryInit,
}

/// A load or a store.
#[derive(Clone, Copy)]
pub enum Access {
    Load(Load),
    Store(Store),
    LoadVector(LaneLoad),
    StoreVector,
    LoadLane(Shape, u8),
    StoreLane(Shape, u8),
}

fn plain_of(step: Plain) -> Instr {
    match step {
        Plain::Unreachable => Instr::Unreachable,
        Plain::Nop => Instr::Nop,
        Plain::Drop => Instr::Drop,
        Plain::Select => Instr::Select,
        Plain::Return => Instr::Return,
        Plain::ThrowRef => Instr::ThrowRef,
    }
}

fn named_of(step: Index, x: u32) -> Instr {
    match step {
        Index::Br => Instr::Br(x),
        Index::BrIf => Instr::BrIf(x),
        Index::Call => Instr::Call(x),
        Index::ReturnCall => Instr::ReturnCall(x),
        Index::Throw => Instr::Throw(x),
        Index::LocalGet => Instr::LocalGet(x),
        Index::LocalSet => Instr::LocalSet(x),
        Index::LocalTee => Instr::LocalTee(x),
        Index::GlobalGet => Instr::GlobalGet(x),
        Index::GlobalSet => Instr::GlobalSet(x),
        Index::TableGet => Instr::TableGet(x),
        Index::TableSet => Instr::TableSet(x),
        Index::TableSize => Instr::TableSize(x),
        Index::TableGrow => Instr::TableGrow(x),
        Index::TableFill => Instr::TableFill(x),
        Index::ElemDrop => Instr::ElemDrop(x),
        Index::MemorySize => Instr::MemorySize(x),
        Index::MemoryGrow => Instr::MemoryGrow(x),
        Index::MemoryFill => Instr::MemoryFill(x),
        Index::DataDrop => Instr::DataDrop(x),
    }
}

fn pair_of(step: Pair, x: u32, y: u32) -> Instr {
    match step {
        Pair::CallIndirect => Instr::CallIndirect(x, y),
        Pair::ReturnCallIndirect => Instr::ReturnCallIndirect(x, y),
        Pair::TableCopy => Instr::TableCopy(x, y),
        Pair::TableInit => Instr::TableInit(x, y),
        Pair::MemoryCopy => Instr::MemoryCopy(x, y),
        Pair::MemoryInit => Instr::MemoryInit(x, y),
    }
}

fn access_of(step: Access, at: MemArg) -> Instr {
    match step {
        Access::Load(op) => Instr::Load(op, at),
        Access::Store(op) => Instr::Store(op, at),
        Access::LoadVector(op) => Instr::LoadVector(op, at),
        Access::StoreVector => Instr::StoreVector(at),
        Access::LoadLane(shape, lane) => Instr::LoadLane(shape, at, lane),
        Access::StoreLane(shape, lane) => Instr::StoreLane(shape, at, lane),
    }
}

/// A list of these types.
pub fn types_of(alloc: Global, types: &[Ty]) -> Result<Types, AllocError> {
    let mut list = Types::new(alloc);
    for ty in types {
        list.push(*ty)?;
    }
    Ok(list)
}

fn select_of(alloc: Global, types: &[Ty]) -> Result<Instr, AllocError> {
    Ok(Instr::SelectTyped(types_of(alloc, types)?))
}

fn table_of(alloc: Global, labels: &[u32], last: u32) -> Result<Instr, AllocError> {
    Ok(Instr::BrTable(Items::from_slice(alloc, labels)?, last))
}

#[cycle(steps)]
fn block_of(alloc: Global, ty: BlockType, code: &[Step]) -> Result<Instr, AllocError> {
    Ok(Instr::Block(ty, code_of(alloc, code)?))
}

#[cycle(steps)]
fn loop_of(alloc: Global, ty: BlockType, code: &[Step]) -> Result<Instr, AllocError> {
    Ok(Instr::Loop(ty, code_of(alloc, code)?))
}

#[cycle(steps)]
fn try_of(
    alloc: Global,
    ty: BlockType,
    clauses: &[Catch],
    code: &[Step],
) -> Result<Instr, AllocError> {
    let clauses = Items::from_slice(alloc, clauses)?;
    Ok(Instr::TryTable(ty, clauses, code_of(alloc, code)?))
}

/// The instruction.
#[cycle(steps)]
pub fn instr_of(alloc: Global, step: Step) -> Result<Instr, AllocError> {
    match step {
        Step::Plain(step) => Ok(plain_of(step)),
        Step::Named(step, x) => Ok(named_of(step, x)),
        Step::NamedTwice(step, x, y) => Ok(pair_of(step, x, y)),
        Step::Access(step, at) => Ok(access_of(step, at)),
        Step::Pure(op) => Ok(Instr::Pure(op)),
        Step::Float(code, immediates) => Ok(Instr::Float(code, immediates)),
        Step::SelectTyped(types) => select_of(alloc, types),
        Step::BrTable(labels, last) => table_of(alloc, labels, last),
        Step::Block(ty, code) => block_of(alloc, ty, code),
        Step::Loop(ty, code) => loop_of(alloc, ty, code),
        Step::If(ty, first, second) => {
            let first = code_of(alloc, first)?;
            Ok(Instr::If(ty, first, code_of(alloc, second)?))
        }
        Step::Try(ty, clauses, code) => try_of(alloc, ty, clauses, code),
    }
}

/// Code of these instructions.
#[cycle(steps)]
pub fn code_of(alloc: Global, steps: &[Step]) -> Result<Code, AllocError> {
    let mut code = Items::new(alloc);
    for step in steps {
        code.push(instr_of(alloc, *step)?)?;
    }
    Ok(code)
}

/// unreachable. This and the next ones take no operands, and rows are made of them.
pub const UNREACHABLE: Step = Step::Plain(Plain::Unreachable);

/// An i32.
pub const I32_CONST: Step = Step::Pure(Op::I32Const(5));

/// An i64.
pub const I64_CONST: Step = Step::Pure(Op::I64Const(5));

/// A vector.
pub const V128_CONST: Step = Step::Pure(Op::V128Const(V(5)));

/// The null reference to functions.
pub const NULL_FUNC: Step = Step::Pure(Op::RefNull(Ty::Func));

/// The null reference to what a host has.
pub const NULL_EXTERN: Step = Step::Pure(Op::RefNull(Ty::Extern));

/// The null reference to exceptions.
pub const NULL_EXN: Step = Step::Pure(Op::RefNull(Ty::Exn));
