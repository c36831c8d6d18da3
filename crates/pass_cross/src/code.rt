// Code, instruction by instruction: of typed trees, and of constant expressions.

ghost use Rattle.std.specs.Prelude.{◌≡◌, IfOk};
ghost use Rattle.wasm_ast.specs.declared.module.code.Instr.{out-Instr};
ghost use Rattle.core1_ast.specs.declared.module.code.Instr1.{roll-Instr1};
ghost use Rattle.core1_ast.specs.declared.module.code.Instr1.TheVariants as instrs1;
ghost use Rattle.typed_trees.specs.Trees.{erased};
ghost use Rattle.crossing.specs.Code.{cross_argument, cross_conversion, cross_op, cross_code};
ghost use Rattle.pass_cross.specs.Code.{cross_leaf, crossed_instr, crossed_node};

use crate::lists::room_for;
use crate::types::{cross_block, narrow};
use core1_ast::module::{Code1, Conv1, Instr1, MemArg1, Op1};
use num_core::operators::Conv;
use sqlite_items::Items;
use std::alloc::{AllocError, Global};
use typed_trees::Node;
use wasm_ast::module::{Instr, MemArg, Op};

/// A conversion.
fn cross_conversion(op: Conv) -> Conv1
    ensures { result ≡ cross_conversion op }
{
    match op {
        Conv::Ext32S => Conv1::Ext32S,
        Conv::Ext32U => Conv1::Ext32U,
        Conv::Wrap | Conv::S8of32 | Conv::S16of32 | Conv::S8of64 | Conv::S16of64 | Conv::S32of64 =>
            Conv1::Wrap,
    }
}

/// An operator. One on vectors or references does not occur, and is written as a constant.
fn cross_op(op: Op) -> Op1
    ensures { result ≡ cross_op op }
{
    match op {
        Op::I32Const(bits) => Op1::I32Const(bits),
        Op::I64Const(bits) => Op1::I64Const(bits),
        Op::Eqz(width) => Op1::Eqz(width),
        Op::Compare(width, op) => Op1::Compare(width, op),
        Op::Unary(width, op) => Op1::Unary(width, op),
        Op::Binary(width, op) => Op1::Binary(width, op),
        Op::Convert(op) => Op1::Convert(cross_conversion(op)),
        _ => Op1::I32Const(0),
    }
}

/// How a load or a store finds its bytes.
fn cross_argument(arg: MemArg) -> Result<MemArg1, AllocError>
    ensures { IfOk result (λ out. out ≡ cross_argument arg) }
{
    let offset = narrow(arg.offset)?;
    Ok(MemArg1 {
        align: arg.align,
        offset,
    })
}

/// An instruction that holds no code and no list. One that 1.0 lacks does not occur, and is written as a trap.
fn cross_leaf(head: &Instr) -> Result<Instr1, AllocError>
    ensures { IfOk result (λ out. out ≡ roll-Instr1 (cross_leaf (out-Instr head.now))) }
{
    Ok(match head {
        Instr::Nop => Instr1::Nop,
        Instr::Br(label) => Instr1::Br(*label),
        Instr::BrIf(label) => Instr1::BrIf(*label),
        Instr::Return => Instr1::Return,
        Instr::Call(func) => Instr1::Call(*func),
        Instr::CallIndirect(ty, _) => Instr1::CallIndirect(*ty),
        Instr::Drop => Instr1::Drop,
        Instr::Select | Instr::SelectTyped(_) => Instr1::Select,
        Instr::LocalGet(local) => Instr1::LocalGet(*local),
        Instr::LocalSet(local) => Instr1::LocalSet(*local),
        Instr::LocalTee(local) => Instr1::LocalTee(*local),
        Instr::GlobalGet(global) => Instr1::GlobalGet(*global),
        Instr::GlobalSet(global) => Instr1::GlobalSet(*global),
        Instr::Load(op, arg) => Instr1::Load(*op, cross_argument(*arg)?),
        Instr::Store(op, arg) => Instr1::Store(*op, cross_argument(*arg)?),
        Instr::MemorySize(_) => Instr1::MemorySize,
        Instr::MemoryGrow(_) => Instr1::MemoryGrow,
        Instr::Pure(op) => Instr1::Pure(cross_op(*op)),
        _ => Instr1::Unreachable,
    })
}

/// The nodes of a body. It fails for want of memory alone. The recursion goes as deep as blocks nest.
#[cycle(nodes)]
pub(crate) fn cross_nodes(alloc: Global, nodes: &[Node]) -> Result<Code1, AllocError>
    ensures { IfOk result (λ out. out ≡ cross_code (erased nodes.now)) }
{
    let mut out = room_for(alloc, nodes.len())?;
    for node in nodes {
        out.push(cross_node(alloc, node)?)?;
    }
    Ok(out)
}

#[cycle(nodes)]
fn cross_node(alloc: Global, node: &Node) -> Result<Instr1, AllocError>
    ensures { IfOk result (λ out. out ≡ crossed_node node.now) }
{
    Ok(match &node.head {
        Instr::Block(ty, _) => Instr1::Block(cross_block(*ty), cross_nodes(alloc, node.first())?),
        Instr::Loop(ty, _) => Instr1::Loop(cross_block(*ty), cross_nodes(alloc, node.first())?),
        Instr::If(ty, _, _) => {
            let first = cross_nodes(alloc, node.first())?;
            let second = cross_nodes(alloc, node.second())?;
            Instr1::If(cross_block(*ty), first, second)
        }
        Instr::BrTable(labels, last) => {
            Instr1::BrTable(Items::from_slice(alloc, labels.as_slice())?, *last)
        }
        head => cross_leaf(head)?,
    })
}

/// A constant expression. It fails for want of memory alone. The recursion goes as deep as blocks nest; where the
/// expression is constant there are none.
#[cycle(instructions)]
pub(crate) fn cross_code(alloc: Global, code: &[Instr]) -> Result<Code1, AllocError>
    ensures { IfOk result (λ out. out ≡ cross_code code.now) }
{
    let mut out = room_for(alloc, code.len())?;
    for instr in code {
        out.push(cross_instr(alloc, instr)?)?;
    }
    Ok(out)
}

#[cycle(instructions)]
fn cross_instr(alloc: Global, instr: &Instr) -> Result<Instr1, AllocError>
    ensures { IfOk result (λ out. out ≡ crossed_instr instr.now) }
{
    Ok(match instr {
        Instr::Block(ty, code) => Instr1::Block(
            cross_block(*ty),
            cross_code(alloc, code.as_slice())?,
        ),
        Instr::Loop(ty, code) => Instr1::Loop(
            cross_block(*ty),
            cross_code(alloc, code.as_slice())?,
        ),
        Instr::If(ty, first, second) => {
            let first = cross_code(alloc, first.as_slice())?;
            let second = cross_code(alloc, second.as_slice())?;
            Instr1::If(cross_block(*ty), first, second)
        }
        Instr::BrTable(labels, last) => {
            Instr1::BrTable(Items::from_slice(alloc, labels.as_slice())?, *last)
        }
        head => cross_leaf(head)?,
    })
}
