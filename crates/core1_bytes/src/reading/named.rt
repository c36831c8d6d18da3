// The instruction of an opcode and its immediates, where these are numbers.

ghost use Rattle.std.specs.Prelude.{◌≡◌};
ghost use Rattle.core1_bytes.specs.Operators.{op_of, operator_of};
ghost use Rattle.core1_bytes.specs.Instructions.{plain_of, numeric_of, jump_of, variable_of, access_of, size_of};
ghost use Rattle.core1_bytes.specs.Tokens.{head_of};

use crate::head::Head1;
use core1_ast::module::{BlockType1, Conv1, FloatImmediates1, Instr1, MemArg1, Op1};
use num_core::operators::Conv;
use opcode_table::{IntOp, is_float_access, is_float_operator, load_of, store_of};

/// The operator as 1.0 has it. `None` exactly where it is of later versions.
fn op_of(op: IntOp) -> Option<Op1>
    ensures { result ≡ op_of op }
{
    match op {
        IntOp::Eqz(width) => Some(Op1::Eqz(width)),
        IntOp::Compare(width, op) => Some(Op1::Compare(width, op)),
        IntOp::Unary(width, op) => Some(Op1::Unary(width, op)),
        IntOp::Binary(width, op) => Some(Op1::Binary(width, op)),
        IntOp::Convert(Conv::Wrap) => Some(Op1::Convert(Conv1::Wrap)),
        IntOp::Convert(Conv::Ext32S) => Some(Op1::Convert(Conv1::Ext32S)),
        IntOp::Convert(Conv::Ext32U) => Some(Op1::Convert(Conv1::Ext32U)),
        IntOp::Convert(_) => None,
    }
}

/// The operator on integers of 1.0 with this opcode, if there is one.
fn operator_of(opcode: u8) -> Option<Op1>
    ensures { result ≡ operator_of opcode }
{
    match opcode_table::operator_of(opcode) {
        Some(op) => op_of(op),
        None => None,
    }
}

/// The instruction without immediates of an opcode below 20 ("Control Instructions" and "Parametric Instructions" of the
/// standard).
#[tactic(auto, unfolding(crate::specs::Instructions::plain_of))]
pub fn plain_of(opcode: u8) -> Option<Instr1>
    ensures { result ≡ plain_of opcode }
{
    match opcode {
        0x00 => Some(Instr1::Unreachable),
        0x01 => Some(Instr1::Nop),
        0x0F => Some(Instr1::Return),
        0x1A => Some(Instr1::Drop),
        0x1B => Some(Instr1::Select),
        _ => None,
    }
}

/// The instruction without immediates of an opcode from 45 on ("Numeric Instructions" of the standard).
#[tactic(auto, unfolding(crate::specs::Instructions::numeric_of))]
pub fn numeric_of(opcode: u8) -> Option<Instr1>
    ensures { result ≡ numeric_of opcode }
{
    if let Some(op) = operator_of(opcode) {
        return Some(Instr1::Pure(op));
    }
    if is_float_operator(opcode) {
        Some(Instr1::Float(opcode, FloatImmediates1::None))
    } else {
        None
    }
}

/// The instruction of an opcode below 20 and an index ("Control Instructions" of the standard).
#[tactic(auto, unfolding(crate::specs::Instructions::jump_of))]
pub fn jump_of(opcode: u8, index: u32) -> Option<Instr1>
    ensures { result ≡ jump_of opcode index }
{
    match opcode {
        0x0C => Some(Instr1::Br(index)),
        0x0D => Some(Instr1::BrIf(index)),
        0x10 => Some(Instr1::Call(index)),
        _ => None,
    }
}

/// The instruction of an opcode from 20 on and an index ("Variable Instructions" of the standard).
#[tactic(auto, unfolding(crate::specs::Instructions::variable_of))]
pub fn variable_of(opcode: u8, index: u32) -> Option<Instr1>
    ensures { result ≡ variable_of opcode index }
{
    match opcode {
        0x20 => Some(Instr1::LocalGet(index)),
        0x21 => Some(Instr1::LocalSet(index)),
        0x22 => Some(Instr1::LocalTee(index)),
        0x23 => Some(Instr1::GlobalGet(index)),
        0x24 => Some(Instr1::GlobalSet(index)),
        _ => None,
    }
}

/// The load or the store of an opcode, with its memory argument ("Memory Instructions" of the standard).
#[tactic(auto, unfolding(crate::specs::Instructions::access_of))]
pub fn access_of(opcode: u8, at: MemArg1) -> Option<Instr1>
    ensures { result ≡ access_of opcode at }
{
    if let Some(op) = load_of(opcode) {
        return Some(Instr1::Load(op, at));
    }
    if let Some(op) = store_of(opcode) {
        return Some(Instr1::Store(op, at));
    }
    if is_float_access(opcode) {
        Some(Instr1::Float(opcode, FloatImmediates1::Memory(at)))
    } else {
        None
    }
}

/// The instruction of an opcode on the size of the memory ("Memory Instructions" of the standard).
#[tactic(auto, unfolding(crate::specs::Instructions::size_of))]
pub fn size_of(opcode: u8) -> Option<Instr1>
    ensures { result ≡ size_of opcode }
{
    match opcode {
        0x3F => Some(Instr1::MemorySize),
        0x40 => Some(Instr1::MemoryGrow),
        _ => None,
    }
}

/// The head of an opcode and a block type ("Control Instructions" of the standard).
#[tactic(auto, unfolding(crate::specs::Tokens::head_of))]
pub fn head_of(opcode: u8, ty: BlockType1) -> Option<Head1>
    ensures { result ≡ head_of opcode ty }
{
    match opcode {
        0x02 => Some(Head1::Block(ty)),
        0x03 => Some(Head1::Loop(ty)),
        0x04 => Some(Head1::If(ty)),
        _ => None,
    }
}
