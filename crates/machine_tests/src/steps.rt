// Programs as plain data, for tables.

use crate::op::{Func, Op, Program};
use sqlite_items::Items;
use std::alloc::{AllocError, Global};

/// An instruction as plain data. Code that an instruction holds stands behind it, up to its end.
#[derive(Clone, Copy)]
pub enum Step {
    Const(u64),
    Get(u32),
    Set(u32),
    Down,
    Trap,
    Br(u32),
    BrIf(u32),
    Return,
    Throw(u32),
    Tail(u32),
    Call(usize, u32),
    CallBy(usize),
    Block(usize, usize),
    Loop(usize, usize),
    If(usize, usize),
    Else,
    Try(usize, usize, u32),
    End,
}

/// How many operands a function takes and gives, how many further locals it has, and its code.
pub type Row = (usize, usize, usize, &'static [Step]);

/// An instruction that holds code, while that is put together.
#[derive(Drop)]
struct Open {
    step: Step,
    before: Items<Op>,
    first: Items<Op>,
}

/// The functions as a program.
pub fn program_of(alloc: Global, rows: &[Row]) -> Result<Program, AllocError> {
    let mut funcs = Items::new(alloc);
    for (params, results, zeros, steps) in rows {
        let code = code_of(alloc, steps)?;
        funcs.push(Func {
            params: *params,
            results: *results,
            zeros: *zeros,
            code,
        })?;
    }
    Ok(Program { funcs })
}

/// The instructions as code.
fn code_of(alloc: Global, steps: &[Step]) -> Result<Items<Op>, AllocError> {
    let mut code = Items::new(alloc);
    let mut opened: Vec<Open> = Vec::new(alloc);
    for step in steps {
        match step {
            Step::Block(_, _) => code = open_step(alloc, *step, code, &mut opened)?,
            Step::Loop(_, _) => code = open_step(alloc, *step, code, &mut opened)?,
            Step::If(_, _) => code = open_step(alloc, *step, code, &mut opened)?,
            Step::Try(_, _, _) => code = open_step(alloc, *step, code, &mut opened)?,
            Step::Else => code = turn_to_second(alloc, code, &mut opened)?,
            Step::End => code = close_step(code, &mut opened)?,
            _ => code.push(plain_of(*step))?,
        }
    }
    Ok(code)
}

/// Begins the code of an instruction.
fn open_step(
    alloc: Global,
    step: Step,
    before: Items<Op>,
    opened: &mut Vec<Open>,
) -> Result<Items<Op>, AllocError> {
    let first = Items::new(alloc);
    opened.push(Open {
        step,
        before,
        first,
    })?;
    Ok(Items::new(alloc))
}

/// Begins the second code of a choice.
fn turn_to_second(
    alloc: Global,
    code: Items<Op>,
    opened: &mut Vec<Open>,
) -> Result<Items<Op>, AllocError> {
    if let Some(Open { step, before, .. }) = opened.pop() {
        opened.push(Open {
            step,
            before,
            first: code,
        })?;
    }
    Ok(Items::new(alloc))
}

/// The code around an instruction that ends, with the instruction.
fn close_step(code: Items<Op>, opened: &mut Vec<Open>) -> Result<Items<Op>, AllocError> {
    let Some(
        Open {
            step,
            mut before,
            first,
        },
    ) = opened.pop()
    else {
        return Ok(code);
    };
    before.push(match step {
        Step::Loop(takes, gives) => Op::Loop(takes, gives, code),
        Step::If(takes, gives) => Op::If(takes, gives, first, code),
        Step::Try(takes, gives, exception) => Op::Try(takes, gives, exception, code),
        Step::Block(takes, gives) => Op::Block(takes, gives, code),
        _ => plain_of(step),
    })?;
    Ok(before)
}

/// An instruction that holds no code.
fn plain_of(step: Step) -> Op {
    match step {
        Step::Const(value) => Op::Const(value),
        Step::Get(index) => Op::Get(index),
        Step::Set(index) => Op::Set(index),
        Step::Down => Op::Down,
        Step::Br(label) => Op::Br(label),
        Step::BrIf(label) => Op::BrIf(label),
        Step::Return => Op::Return,
        Step::Throw(exception) => Op::Throw(exception),
        Step::Tail(func) => Op::Tail(func),
        Step::Call(takes, func) => Op::Call(takes, func),
        Step::CallBy(takes) => Op::CallBy(takes),
        _ => Op::Trap,
    }
}
