// The instruction of an opcode and its immediates, for those whose immediates are numbers.

ghost use Rattle.std.specs.Prelude.{◌≡◌};
ghost use Rattle.code_new.specs.Operators.{op_of};
ghost use Rattle.code_new.specs.Tokens.{head_of};
ghost use Rattle.code_new.specs.Instructions.{plain_of, float_operator, numeric_of, jump_of, variable_of, bulk_of, indirect_of, transfer_of, access_of, size_of};

use crate::head::Head;
use opcode_table::{IntOp, is_float_access, is_float_operator, load_of, operator_of, store_of};
use wasm_ast::module::{BlockType, FloatCode, FloatImmediates, Instr, MemArg, Op};

/// The operator as 3.0 has it.
fn op_of(op: IntOp) -> Op
    ensures { result ≡ op_of op }
{
    match op {
        IntOp::Eqz(width) => Op::Eqz(width),
        IntOp::Compare(width, op) => Op::Compare(width, op),
        IntOp::Unary(width, op) => Op::Unary(width, op),
        IntOp::Binary(width, op) => Op::Binary(width, op),
        IntOp::Convert(op) => Op::Convert(op),
    }
}

/// The head of an opcode and a block type, but for try_table ("Control Instructions" of the standard).
#[tactic(auto, unfolding(crate::specs::Tokens::head_of))]
pub fn head_of(opcode: u8, ty: BlockType) -> Option<Head>
    ensures { result ≡ head_of opcode ty }
{
    match opcode {
        0x02 => Some(Head::Block(ty)),
        0x03 => Some(Head::Loop(ty)),
        0x04 => Some(Head::If(ty)),
        _ => None,
    }
}

/// The instruction without immediates of an opcode below 20 ("Control Instructions" and "Parametric Instructions" of the
/// standard).
#[tactic(auto, unfolding(crate::specs::Instructions::plain_of))]
pub fn plain_of(opcode: u8) -> Option<Instr>
    ensures { result ≡ plain_of opcode }
{
    match opcode {
        0x00 => Some(Instr::Unreachable),
        0x01 => Some(Instr::Nop),
        0x0A => Some(Instr::ThrowRef),
        0x0F => Some(Instr::Return),
        0x1A => Some(Instr::Drop),
        0x1B => Some(Instr::Select),
        _ => None,
    }
}

/// The instruction on floats without immediates of an opcode.
#[tactic(auto, unfolding(crate::specs::Instructions::float_operator))]
fn float_operator(opcode: u8) -> Option<Instr>
    ensures { result ≡ float_operator opcode }
{
    if is_float_operator(opcode) {
        let code = FloatCode::Plain(opcode);
        Some(Instr::Float(code, FloatImmediates::None))
    } else {
        None
    }
}

/// The instruction without immediates of an opcode from 45 on ("Numeric Instructions" of the standard).
#[tactic(auto, unfolding(crate::specs::Instructions::numeric_of))]
pub fn numeric_of(opcode: u8) -> Option<Instr>
    ensures { result ≡ numeric_of opcode }
{
    match operator_of(opcode) {
        Some(op) => Some(Instr::Pure(op_of(op))),
        None => float_operator(opcode),
    }
}

/// The instruction of an opcode below 20 and an index ("Control Instructions" of the standard).
#[tactic(auto, unfolding(crate::specs::Instructions::jump_of))]
pub fn jump_of(opcode: u8, index: u32) -> Option<Instr>
    ensures { result ≡ jump_of opcode index }
{
    match opcode {
        0x08 => Some(Instr::Throw(index)),
        0x0C => Some(Instr::Br(index)),
        0x0D => Some(Instr::BrIf(index)),
        0x10 => Some(Instr::Call(index)),
        0x12 => Some(Instr::ReturnCall(index)),
        _ => None,
    }
}

/// The instruction of an opcode and an index ("Variable Instructions" and "Table Instructions" of the standard).
#[tactic(auto, unfolding(crate::specs::Instructions::variable_of))]
pub fn variable_of(opcode: u8, index: u32) -> Option<Instr>
    ensures { result ≡ variable_of opcode index }
{
    match opcode {
        0x20 => Some(Instr::LocalGet(index)),
        0x21 => Some(Instr::LocalSet(index)),
        0x22 => Some(Instr::LocalTee(index)),
        0x23 => Some(Instr::GlobalGet(index)),
        0x24 => Some(Instr::GlobalSet(index)),
        0x25 => Some(Instr::TableGet(index)),
        0x26 => Some(Instr::TableSet(index)),
        _ => None,
    }
}

/// The instruction of a number behind FC and an index ("Table Instructions" and "Memory Instructions" of the standard).
#[tactic(auto, unfolding(crate::specs::Instructions::bulk_of))]
pub fn bulk_of(number: u32, index: u32) -> Option<Instr>
    ensures { result ≡ bulk_of number index }
{
    match number {
        9 => Some(Instr::DataDrop(index)),
        11 => Some(Instr::MemoryFill(index)),
        13 => Some(Instr::ElemDrop(index)),
        15 => Some(Instr::TableGrow(index)),
        16 => Some(Instr::TableSize(index)),
        17 => Some(Instr::TableFill(index)),
        _ => None,
    }
}

/// The call of an opcode, through a table, with its type ("Control Instructions" of the standard).
#[tactic(auto, unfolding(crate::specs::Instructions::indirect_of))]
pub fn indirect_of(opcode: u8, ty: u32, table: u32) -> Option<Instr>
    ensures { result ≡ indirect_of opcode ty table }
{
    match opcode {
        0x11 => Some(Instr::CallIndirect(ty, table)),
        0x13 => Some(Instr::ReturnCallIndirect(ty, table)),
        _ => None,
    }
}

/// The instruction of a number behind FC and two indices ("Table Instructions" and "Memory Instructions" of the
/// standard).
#[tactic(auto, unfolding(crate::specs::Instructions::transfer_of))]
pub fn transfer_of(number: u32, first: u32, second: u32) -> Option<Instr>
    ensures { result ≡ transfer_of number first second }
{
    match number {
        8 => Some(Instr::MemoryInit(first, second)),
        10 => Some(Instr::MemoryCopy(first, second)),
        12 => Some(Instr::TableInit(first, second)),
        14 => Some(Instr::TableCopy(first, second)),
        _ => None,
    }
}

/// The load or the store of an opcode, with its memory argument ("Memory Instructions" of the standard).
#[tactic(auto, unfolding(crate::specs::Instructions::access_of))]
pub fn access_of(opcode: u8, at: MemArg) -> Option<Instr>
    ensures { result ≡ access_of opcode at }
{
    if let Some(op) = load_of(opcode) {
        return Some(Instr::Load(op, at));
    }
    if let Some(op) = store_of(opcode) {
        return Some(Instr::Store(op, at));
    }
    if is_float_access(opcode) {
        let code = FloatCode::Plain(opcode);
        Some(Instr::Float(code, FloatImmediates::Memory(at)))
    } else {
        None
    }
}

/// The instruction of an opcode and a memory ("Memory Instructions" of the standard).
#[tactic(auto, unfolding(crate::specs::Instructions::size_of))]
pub fn size_of(opcode: u8, memory: u32) -> Option<Instr>
    ensures { result ≡ size_of opcode memory }
{
    match opcode {
        0x3F => Some(Instr::MemorySize(memory)),
        0x40 => Some(Instr::MemoryGrow(memory)),
        _ => None,
    }
}
