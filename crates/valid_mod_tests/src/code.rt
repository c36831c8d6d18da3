// Expressions as plain data, for tables.

use lane_core::vector::V;
use num_core::operators::{Bin, Width};
use sqlite_items::Items;
use std::alloc::{AllocError, Global};
use wasm_ast::module::{Code, Instr, Op, Ty};

/// An instruction as plain data.
#[derive(Clone, Copy)]
pub enum Step {
    Nop,
    Drop,
    Unreachable,
    /// i32.const.
    C32,
    /// i64.const.
    C64,
    /// v128.const.
    Vector,
    Null(Ty),
    Func(u32),
    Get(u32),
    Binary(Width, Bin),
}

/// i32.add.
pub const ADD: Step = Step::Binary(Width::W32, Bin::Add);

/// i32.sub.
pub const SUB: Step = Step::Binary(Width::W32, Bin::Sub);

const MUL: Step = Step::Binary(Width::W32, Bin::Mul);

/// i64.add.
pub const ADD64: Step = Step::Binary(Width::W64, Bin::Add);

/// i32.and, which stands in no constant expression.
pub const AND: Step = Step::Binary(Width::W32, Bin::And);

/// The instruction of a step.
fn instr_of(step: Step) -> Instr {
    match step {
        Step::Nop => Instr::Nop,
        Step::Drop => Instr::Drop,
        Step::Unreachable => Instr::Unreachable,
        Step::Get(global) => Instr::GlobalGet(global),
        _ => Instr::Pure(op_of(step)),
    }
}

/// The operator of a step.
fn op_of(step: Step) -> Op {
    match step {
        Step::C64 => Op::I64Const(1),
        Step::Vector => Op::V128Const(V(1)),
        Step::Null(ty) => Op::RefNull(ty),
        Step::Func(func) => Op::RefFunc(func),
        Step::Binary(width, op) => Op::Binary(width, op),
        _ => Op::I32Const(1),
    }
}

/// An expression as plain data.
#[derive(Clone, Copy)]
pub enum Expr {
    Nothing,
    One(Step),
    Two(Step, Step),
    Three(Step, Step, Step),
    /// i32.const three times, and i32.mul twice.
    Product,
}

/// The expression as code.
pub fn code_of(alloc: Global, expr: Expr) -> Result<Code, AllocError> {
    match expr {
        Expr::Nothing => Ok(Items::new(alloc)),
        Expr::One(first) => code_of_steps(alloc, &[first]),
        Expr::Two(first, second) => code_of_steps(alloc, &[first, second]),
        Expr::Three(first, second, third) => code_of_steps(alloc, &[first, second, third]),
        Expr::Product => code_of_steps(alloc, &[Step::C32, Step::C32, Step::C32, MUL, MUL]),
    }
}

fn code_of_steps(alloc: Global, steps: &[Step]) -> Result<Code, AllocError> {
    let mut code = Items::new(alloc);
    for step in steps {
        code.push(instr_of(*step))?;
    }
    Ok(code)
}
