// Instructions by their opcodes, and code.

ghost use Rattle.std.specs.Prelude.{◌≡◌, OnOk};
ghost use Rattle.core1_ast.specs.declared.module.code.Instr1.TheVariants.{Pure};
ghost use Rattle.nested_code.specs.declared.token.Token.TheVariants.{Open, Plain};
ghost use Rattle.wasm_frame.specs.Leb128.{s32, s64};
ghost use Rattle.core1_bytes.specs.Bodies.{expr};
ghost use Rattle.core1_bytes.specs.Instructions.{mem_arg};
ghost use Rattle.core1_bytes.specs.Tokens.{token};
ghost use Rattle.core1_bytes.specs.Appends.{AppendsBy, Appends, IsPlain, block_type_of, Constant, Immediates, AppendsInstr, AppendsCode, IsTypedInstr, IsTypedCode};

use super::entry::{write_byte, write_u32, write_vector};
use super::opcodes::{head_opcode, opcode};
use super::types::write_block_type;
use crate::head::Head1;
use crate::reading::IndexEntry;
use core1_ast::module::{BlockType1, Code1, Instr1, MemArg1, Op1};
use num_core::lists::Bytes;
use std::alloc::{AllocError, Global};
use wasm_frame::leb128::{put_s32, put_s64};

/// The byte between the two arms of an if.
const ELSE: u8 = 0x05;

/// The byte that closes an expression, and what holds code.
const END: u8 = 0x0B;

/// Appends an expression: code and the byte that closes it.
pub fn write_expr(alloc: Global, out: &mut Bytes, code: &Code1) -> Result<(), AllocError>
    requires { IsTypedCode code.now }
    ensures { OnOk result (Appends expr out.old out.new code.now) }
{
    write_code(alloc, out, code)?;
    write_byte(out, END)
}

/// Appends code, instruction by instruction. The recursion goes as deep as the code is nested.
#[cycle(writes)]
fn write_code(alloc: Global, out: &mut Bytes, code: &Code1) -> Result<(), AllocError>
    requires { IsTypedCode code.now }
    ensures { OnOk result (AppendsCode out.old out.new code.now) }
{
    for instr in code.as_slice() {
        write_instr(alloc, out, instr)?;
    }
    Ok(())
}

#[cycle(writes)]
#[tactic(auto, using(crate::proofs::Typed::inside_typed))]
fn write_instr(alloc: Global, out: &mut Bytes, instr: &Instr1) -> Result<(), AllocError>
    requires { IsTypedInstr instr.now }
    ensures { OnOk result (AppendsInstr out.old out.new instr.now) }
{
    match instr {
        Instr1::Block(ty, code) => {
            write_head(out, Head1::Block(*ty))?;
            write_code(alloc, out, code)?;
            write_byte(out, END)
        }
        Instr1::Loop(ty, code) => {
            write_head(out, Head1::Loop(*ty))?;
            write_code(alloc, out, code)?;
            write_byte(out, END)
        }
        Instr1::If(ty, first, second) => {
            write_head(out, Head1::If(*ty))?;
            write_code(alloc, out, first)?;
            if second.is_empty() {
                return write_byte(out, END);
            }
            write_byte(out, ELSE)?;
            write_code(alloc, out, second)?;
            write_byte(out, END)
        }
        _ => write_plain(alloc, out, instr),
    }
}

/// Appends the opcode and the type of an instruction that holds code.
fn write_head(out: &mut Bytes, head: Head1) -> Result<(), AllocError>
    ensures { OnOk result (Appends token out.old out.new (Open head)) }
{
    write_byte(out, head_opcode(head))?;
    write_block_type(out, block_type_of(head))
}

/// The type of an instruction that holds code.
fn block_type_of(head: Head1) -> BlockType1
    ensures { result ≡ block_type_of head }
{
    match head {
        Head1::Block(ty) | Head1::Loop(ty) | Head1::If(ty) => ty,
    }
}

/// Appends an instruction that holds no code.
fn write_plain(alloc: Global, out: &mut Bytes, instr: &Instr1) -> Result<(), AllocError>
    requires { IsPlain instr.now }
    ensures { OnOk result (Appends token out.old out.new (Plain instr.now)) }
{
    write_byte(out, opcode(instr))?;
    write_immediates(alloc, out, instr)
}

/// Appends what follows the opcode of an instruction that holds no code.
fn write_immediates(alloc: Global, out: &mut Bytes, instr: &Instr1) -> Result<(), AllocError>
    requires { IsPlain instr.now }
    ensures { OnOk result (AppendsBy (Immediates instr.now) out.old out.new) }
{
    match instr {
        Instr1::Br(index) => write_u32(out, *index),
        Instr1::BrIf(index) => write_u32(out, *index),
        Instr1::Call(index) => write_u32(out, *index),
        Instr1::LocalGet(index) => write_u32(out, *index),
        Instr1::LocalSet(index) => write_u32(out, *index),
        Instr1::LocalTee(index) => write_u32(out, *index),
        Instr1::GlobalGet(index) => write_u32(out, *index),
        Instr1::GlobalSet(index) => write_u32(out, *index),
        Instr1::BrTable(labels, last) => {
            write_vector::<IndexEntry>(alloc, out, labels.as_slice())?;
            write_u32(out, *last)
        }
        Instr1::CallIndirect(ty) => {
            write_u32(out, *ty)?;
            write_byte(out, 0x00)
        }
        Instr1::Load(_, at) => write_mem_arg(out, *at),
        Instr1::Store(_, at) => write_mem_arg(out, *at),
        Instr1::MemorySize => write_byte(out, 0x00),
        Instr1::MemoryGrow => write_byte(out, 0x00),
        Instr1::Pure(op) => write_constant(out, *op),
        _ => Ok(()),
    }
}

/// Appends what follows the opcode of an instruction that touches no state: the number of a constant.
fn write_constant(out: &mut Bytes, op: Op1) -> Result<(), AllocError>
    ensures { OnOk result (AppendsBy (Constant op) out.old out.new) }
{
    match op {
        Op1::I32Const(bits) => write_i32(out, bits),
        Op1::I64Const(bits) => write_i64(out, bits),
        _ => Ok(()),
    }
}

/// Appends the signed number with these 32 bits.
fn write_i32(out: &mut Bytes, bits: u32) -> Result<(), AllocError>
    ensures { OnOk result (Appends s32 out.old out.new bits) }
{
    put_s32(out, bits.cast_signed())
}

/// Appends the signed number with these 64 bits.
fn write_i64(out: &mut Bytes, bits: u64) -> Result<(), AllocError>
    ensures { OnOk result (Appends s64 out.old out.new bits) }
{
    put_s64(out, bits.cast_signed())
}

/// Appends a memory argument.
fn write_mem_arg(out: &mut Bytes, at: MemArg1) -> Result<(), AllocError>
    ensures { OnOk result (Appends mem_arg out.old out.new at) }
{
    write_u32(out, at.align)?;
    write_u32(out, at.offset)
}
