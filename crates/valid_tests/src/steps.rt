// Code as plain data, for tables.

use core1_ast::module::{BlockType1, Code1, FloatImmediates1, Instr1, MemArg1, Op1};
use num_core::operators::{Load, Store};
use sqlite_items::Items;
use std::alloc::{AllocError, Global};

/// An instruction as plain data. Code that an instruction holds stands behind it, up to its end.
#[derive(Clone, Copy)]
pub enum Step {
    Unreachable,
    Nop,
    Return,
    Drop,
    Select,
    MemorySize,
    MemoryGrow,
    /// f32.const.
    Float,
    Op(Op1),
    Br(u32),
    BrIf(u32),
    /// br_table with its last label alone.
    Table(u32),
    /// br_table with one label before the last.
    Table1(u32, u32),
    /// br_table with two labels before the last.
    Table2(u32, u32, u32),
    Call(u32),
    CallIndirect(u32),
    LocalGet(u32),
    LocalSet(u32),
    LocalTee(u32),
    GlobalGet(u32),
    GlobalSet(u32),
    /// A load, and the exponent of its alignment.
    Load(Load, u32),
    /// A store, and the exponent of its alignment.
    Store(Store, u32),
    Block(BlockType1),
    Loop(BlockType1),
    If(BlockType1),
    Else,
    End,
}

/// An instruction that holds code, while that is put together.
#[derive(Drop)]
struct Open {
    step: Step,
    before: Code1,
    first: Code1,
}

/// The instructions as code.
pub fn code_of(alloc: Global, steps: &[Step]) -> Result<Code1, AllocError> {
    let mut code = Items::new(alloc);
    let mut opened: Vec<Open> = Vec::new(alloc);
    for step in steps {
        match step {
            Step::Block(_) => code = open_step(alloc, *step, code, &mut opened)?,
            Step::Loop(_) => code = open_step(alloc, *step, code, &mut opened)?,
            Step::If(_) => code = open_step(alloc, *step, code, &mut opened)?,
            Step::Else => code = turn_to_second(alloc, code, &mut opened)?,
            Step::End => code = close_step(alloc, code, &mut opened)?,
            _ => code.push(leaf_of(alloc, *step)?)?,
        }
    }
    Ok(code)
}

/// Begins the code of an instruction.
fn open_step(
    alloc: Global,
    step: Step,
    before: Code1,
    opened: &mut Vec<Open>,
) -> Result<Code1, AllocError> {
    let first = Items::new(alloc);
    opened.push(Open {
        step,
        before,
        first,
    })?;
    Ok(Items::new(alloc))
}

/// Begins the second arm of an if.
fn turn_to_second(alloc: Global, code: Code1, opened: &mut Vec<Open>) -> Result<Code1, AllocError> {
    if let Some(Open { step, before, .. }) = opened.pop() {
        opened.push(Open {
            step,
            before,
            first: code,
        })?;
    }
    Ok(Items::new(alloc))
}

/// The code around an instruction that ends, with the instruction.
fn close_step(alloc: Global, code: Code1, opened: &mut Vec<Open>) -> Result<Code1, AllocError> {
    let Some(
        Open {
            step,
            mut before,
            first,
        },
    ) = opened.pop()
    else {
        return Ok(code);
    };
    before.push(match step {
        Step::Loop(ty) => Instr1::Loop(ty, code),
        Step::If(ty) => Instr1::If(ty, first, code),
        Step::Block(ty) => Instr1::Block(ty, code),
        _ => leaf_of(alloc, step)?,
    })?;
    Ok(before)
}

/// An instruction that holds no code.
fn leaf_of(alloc: Global, step: Step) -> Result<Instr1, AllocError> {
    Ok(match step {
        Step::Table(last) => Instr1::BrTable(Items::new(alloc), last),
        Step::Table1(label, last) => Instr1::BrTable(Items::from_slice(alloc, &[label])?, last),
        Step::Table2(first, second, last) => {
            Instr1::BrTable(Items::from_slice(alloc, &[first, second])?, last)
        }
        _ => plain_of(step),
    })
}

/// An instruction without lists.
fn plain_of(step: Step) -> Instr1 {
    match step {
        Step::Unreachable => Instr1::Unreachable,
        Step::Return => Instr1::Return,
        Step::Drop => Instr1::Drop,
        Step::Select => Instr1::Select,
        Step::MemorySize => Instr1::MemorySize,
        Step::MemoryGrow => Instr1::MemoryGrow,
        Step::Float => Instr1::Float(0x43, FloatImmediates1::Bits32(0)),
        Step::Op(op) => Instr1::Pure(op),
        Step::Br(label) => Instr1::Br(label),
        Step::BrIf(label) => Instr1::BrIf(label),
        Step::Call(func) => Instr1::Call(func),
        Step::CallIndirect(ty) => Instr1::CallIndirect(ty),
        Step::Load(op, align) => Instr1::Load(op, MemArg1 { align, offset: 0 }),
        Step::Store(op, align) => Instr1::Store(op, MemArg1 { align, offset: 0 }),
        _ => variable_of(step),
    }
}

/// An access of a variable, or else nop.
fn variable_of(step: Step) -> Instr1 {
    match step {
        Step::LocalGet(local) => Instr1::LocalGet(local),
        Step::LocalSet(local) => Instr1::LocalSet(local),
        Step::LocalTee(local) => Instr1::LocalTee(local),
        Step::GlobalGet(global) => Instr1::GlobalGet(global),
        Step::GlobalSet(global) => Instr1::GlobalSet(global),
        _ => Instr1::Nop,
    }
}
