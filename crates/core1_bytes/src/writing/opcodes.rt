// The byte with which a type or an instruction begins.

ghost use Rattle.std.specs.Prelude.{◌≡◌, Some};
ghost use Rattle.core1_ast.specs.declared.module.code.Instr1.TheVariants.{Pure};
ghost use Rattle.core1_ast.specs.declared.module.op.Op1.TheVariants as ops;
ghost use Rattle.opcode_table.specs.declared.int_op.IntOp.TheVariants as rows;
ghost use Rattle.core1_bytes.specs.Types.{type_of};
ghost use Rattle.core1_bytes.specs.Operators.{op_of};
ghost use Rattle.core1_bytes.specs.Appends.{IsPlain, Begins, Opens};

use crate::head::Head1;
use core1_ast::module::{Conv1, Instr1, Op1, Ty1};
use num_core::operators::Conv;
use opcode_table::{IntOp, load_opcode, opcode_of, store_opcode};

/// The byte of a value type.
pub fn type_byte(ty: Ty1) -> u8
    ensures { type_of result ≡ Some ty }
{
    match ty {
        Ty1::I32 => 0x7F,
        Ty1::I64 => 0x7E,
        Ty1::F32 => 0x7D,
        Ty1::F64 => 0x7C,
    }
}

/// A conversion of 1.0 in the table of opcodes.
fn conversion(op: Conv1) -> Conv
    ensures { op_of (rows.Convert result) ≡ Some (ops.Convert op) }
{
    match op {
        Conv1::Wrap => Conv::Wrap,
        Conv1::Ext32S => Conv::Ext32S,
        Conv1::Ext32U => Conv::Ext32U,
    }
}

/// The opcode of an instruction that touches no state.
#[tactic(auto, using(crate::proofs::Instructions::op_rules))]
fn op_opcode(op: Op1) -> u8
    ensures { Begins (Pure op) result }
{
    match op {
        Op1::I32Const(_) => 0x41,
        Op1::I64Const(_) => 0x42,
        Op1::Eqz(width) => opcode_of(IntOp::Eqz(width)),
        Op1::Compare(width, op) => opcode_of(IntOp::Compare(width, op)),
        Op1::Unary(width, op) => opcode_of(IntOp::Unary(width, op)),
        Op1::Binary(width, op) => opcode_of(IntOp::Binary(width, op)),
        Op1::Convert(op) => opcode_of(IntOp::Convert(conversion(op))),
    }
}

/// The opcode of an instruction that holds code.
#[tactic(auto, using(crate::proofs::Instructions::head_rules))]
pub fn head_opcode(head: Head1) -> u8
    ensures { Opens head result }
{
    match head {
        Head1::Block(_) => 0x02,
        Head1::Loop(_) => 0x03,
        Head1::If(_) => 0x04,
    }
}

/// The opcode of an instruction that holds no code.
#[tactic(auto, using(crate::proofs::Instructions::plain_rules))]
pub fn opcode(instr: &Instr1) -> u8
    requires { IsPlain instr.now }
    ensures { Begins instr.now result }
{
    match instr {
        Instr1::Unreachable => 0x00,
        Instr1::Nop => 0x01,
        Instr1::Br(_) => 0x0C,
        Instr1::BrIf(_) => 0x0D,
        Instr1::BrTable(_, _) => 0x0E,
        Instr1::Return => 0x0F,
        Instr1::Call(_) => 0x10,
        Instr1::CallIndirect(_) => 0x11,
        Instr1::Drop => 0x1A,
        Instr1::Select => 0x1B,
        Instr1::LocalGet(_) => 0x20,
        Instr1::LocalSet(_) => 0x21,
        Instr1::LocalTee(_) => 0x22,
        Instr1::GlobalGet(_) => 0x23,
        Instr1::GlobalSet(_) => 0x24,
        Instr1::Load(op, _) => load_opcode(*op),
        Instr1::Store(op, _) => store_opcode(*op),
        Instr1::MemorySize => 0x3F,
        Instr1::MemoryGrow => 0x40,
        Instr1::Pure(op) => op_opcode(*op),
        Instr1::Block(_, _) | Instr1::Loop(_, _) | Instr1::If(_, _, _) | Instr1::Float(_, _) => {
            unreachable!()
        }
    }
}
