// Instructions behind their opcode, and the tokens of code.

ghost use Rattle.std.specs.Prelude.{◌≡◌};
ghost use Rattle.grammar_kit.specs.Form.{raw, vector};
ghost use Rattle.grammar_kit.specs.Gives.{Gives, GivesOption};
ghost use Rattle.wasm_frame.specs.Leb128.{u32};
ghost use Rattle.core1_bytes.specs.Instructions.{jump_of, variable_of, indexed, br_table, zero, indirect, size, mem_arg, access, constant, control, instr_at};
ghost use Rattle.core1_bytes.specs.Tokens.{opened, control_at, token};

use super::named::{access_of, head_of, jump_of, numeric_of, plain_of, size_of, variable_of};
use super::types::{read_list, split_block_type};
use crate::head::Head1;
use core1_ast::module::{FloatImmediates1, Instr1, MemArg1, Op1};
use grammar_kit::{Entry, FormError, read_byte};
use nested_code::Token;
use std::alloc::Global;
use wasm_frame::leb128::{split_s32, split_s64, split_u32};

/// What code is made of.
pub type Token1 = Token<Instr1, Head1>;

/// An index in a list.
pub struct IndexEntry;

impl Entry for IndexEntry {
    type Value = u32;

    ghost form = { u32 };

    fn entry(_alloc: Global, bytes: &[u8]) -> Result<(u32, &[u8]), FormError> {
        split_u32(bytes).ok_or(FormError::Malformed)
    }
}

/// The bytes behind a byte that 1.0 wants to be zero.
fn split_zero(bytes: &[u8]) -> Option<&[u8]>
    ensures { GivesOption (λ rest. (0, rest.now)) result (zero.read bytes.now) }
{
    match read_byte(bytes)? {
        (0x00, rest) => Some(rest),
        _ => None,
    }
}

/// br_table, with its labels at the front.
#[tactic(auto, unfolding(crate::specs::Instructions::br_table))]
fn read_br_table(alloc: Global, bytes: &[u8]) -> Result<(Instr1, &[u8]), FormError>
    ensures { Gives (λ p. (p.0, p.1.now)) result (br_table.read bytes.now) }
{
    let (labels, rest) = read_list::<IndexEntry>(alloc, bytes)?;
    let (last, rest) = split_u32(rest).ok_or(FormError::Malformed)?;
    Ok((Instr1::BrTable(labels, last), rest))
}

/// call_indirect, with its type and the byte for the table at the front.
#[tactic(auto, unfolding(crate::specs::Instructions::indirect))]
fn indirect(bytes: &[u8]) -> Option<(Instr1, &[u8])>
    ensures { GivesOption (λ p. (p.0, p.1.now)) result (indirect.read bytes.now) }
{
    let (ty, rest) = split_u32(bytes)?;
    let rest = split_zero(rest)?;
    Some((Instr1::CallIndirect(ty), rest))
}

/// The instruction with this opcode below 20 and an index at the front.
fn jump(opcode: u8, bytes: &[u8]) -> Option<(Instr1, &[u8])>
    ensures { GivesOption (λ p. (p.0, p.1.now)) result ((indexed (jump_of opcode)).read bytes.now) }
{
    let (index, rest) = split_u32(bytes)?;
    let instr = jump_of(opcode, index)?;
    Some((instr, rest))
}

/// The instruction with this opcode below 20 that holds no code, with its immediates at the front, and the bytes after
/// them ("Control Instructions" and "Parametric Instructions" of the standard).
#[tactic(auto, unfolding(crate::specs::Instructions::control))]
fn read_control(alloc: Global, opcode: u8, bytes: &[u8]) -> Result<(Instr1, &[u8]), FormError>
    ensures { Gives (λ p. (p.0, p.1.now)) result ((control opcode).read bytes.now) }
{
    if opcode == 0x0E {
        return read_br_table(alloc, bytes);
    }
    if opcode == 0x11 {
        return indirect(bytes).ok_or(FormError::Malformed);
    }
    if let Some(instr) = plain_of(opcode) {
        return Ok((instr, bytes));
    }
    jump(opcode, bytes).ok_or(FormError::Malformed)
}

/// The instruction on a variable with this opcode, with its index at the front.
fn variable(opcode: u8, bytes: &[u8]) -> Option<(Instr1, &[u8])>
    ensures { GivesOption (λ p. (p.0, p.1.now)) result ((indexed (variable_of opcode)).read bytes.now) }
{
    let (index, rest) = split_u32(bytes)?;
    let instr = variable_of(opcode, index)?;
    Some((instr, rest))
}

/// The memory argument at the front, and the bytes after it.
#[tactic(auto, unfolding(crate::specs::Instructions::mem_arg))]
fn split_mem_arg(bytes: &[u8]) -> Option<(MemArg1, &[u8])>
    ensures { GivesOption (λ p. (p.0, p.1.now)) result (mem_arg.read bytes.now) }
{
    let (align, rest) = split_u32(bytes)?;
    let (offset, rest) = split_u32(rest)?;
    Some((MemArg1 { align, offset }, rest))
}

/// The load or the store with this opcode, with its memory argument at the front.
#[tactic(auto, unfolding(crate::specs::Instructions::access))]
fn access(opcode: u8, bytes: &[u8]) -> Option<(Instr1, &[u8])>
    ensures { GivesOption (λ p. (p.0, p.1.now)) result ((access opcode).read bytes.now) }
{
    let (at, rest) = split_mem_arg(bytes)?;
    let instr = access_of(opcode, at)?;
    Some((instr, rest))
}

/// The instruction on the size of the memory with this opcode, with the byte for the memory at the front.
#[tactic(auto, unfolding(crate::specs::Instructions::size))]
fn size(opcode: u8, bytes: &[u8]) -> Option<(Instr1, &[u8])>
    ensures { GivesOption (λ p. (p.0, p.1.now)) result ((size opcode).read bytes.now) }
{
    let rest = split_zero(bytes)?;
    let instr = size_of(opcode)?;
    Some((instr, rest))
}

/// The first `N` bytes, and the bytes after them. `None` exactly where there are fewer.
fn split_array<const N: usize>(bytes: &[u8]) -> Option<([u8; N], &[u8])>
    ensures { GivesOption (λ p. (p.0, p.1.now)) result ((raw N).read bytes.now) }
{
    let (front, rest) = bytes.split_first_chunk::<N>()?;
    Some((*front, rest))
}

/// The constant with this opcode, with its value at the front.
#[tactic(auto, unfolding(crate::specs::Instructions::constant))]
fn constant(opcode: u8, bytes: &[u8]) -> Option<(Instr1, &[u8])>
    ensures { GivesOption (λ p. (p.0, p.1.now)) result ((constant opcode).read bytes.now) }
{
    match opcode {
        0x41 => {
            let (bits, rest) = split_s32(bytes)?;
            Some((Instr1::Pure(Op1::I32Const(bits)), rest))
        }
        0x42 => {
            let (bits, rest) = split_s64(bytes)?;
            Some((Instr1::Pure(Op1::I64Const(bits)), rest))
        }
        0x43 => {
            let (bytes, rest) = split_array::<4>(bytes)?;
            let bits = FloatImmediates1::Bits32(u32::from_le_bytes(bytes));
            Some((Instr1::Float(opcode, bits), rest))
        }
        0x44 => {
            let (bytes, rest) = split_array::<8>(bytes)?;
            let bits = FloatImmediates1::Bits64(u64::from_le_bytes(bytes));
            Some((Instr1::Float(opcode, bits), rest))
        }
        _ => None,
    }
}

/// The instruction with this opcode from 20 on, with its immediates at the front, and the bytes after them.
#[tactic(auto, unfolding(crate::specs::Instructions::instr_at))]
fn read_instr(opcode: u8, bytes: &[u8]) -> Option<(Instr1, &[u8])>
    ensures { GivesOption (λ p. (p.0, p.1.now)) result ((instr_at opcode).read bytes.now) }
{
    if opcode < 0x28 {
        return variable(opcode, bytes);
    }
    if opcode < 0x3F {
        return access(opcode, bytes);
    }
    if opcode < 0x41 {
        return size(opcode, bytes);
    }
    if opcode < 0x45 {
        return constant(opcode, bytes);
    }
    let instr = numeric_of(opcode)?;
    Some((instr, bytes))
}

/// The head with this opcode, with its type at the front.
#[tactic(auto, unfolding(crate::specs::Tokens::opened))]
fn opened(opcode: u8, bytes: &[u8]) -> Option<(Token1, &[u8])>
    ensures { GivesOption (λ p. (p.0, p.1.now)) result ((opened opcode).read bytes.now) }
{
    let (ty, rest) = split_block_type(bytes)?;
    let head = head_of(opcode, ty)?;
    Some((Token::Open(head), rest))
}

/// The token with this opcode below 20, with its immediates at the front, and the bytes after them.
#[tactic(auto, unfolding(crate::specs::Tokens::control_at))]
fn read_control_at(alloc: Global, opcode: u8, bytes: &[u8]) -> Result<(Token1, &[u8]), FormError>
    ensures { Gives (λ p. (p.0, p.1.now)) result ((control_at opcode).read bytes.now) }
{
    match opcode {
        0x02..=0x04 => opened(opcode, bytes).ok_or(FormError::Malformed),
        0x05 => Ok((Token::Else, bytes)),
        0x0B => Ok((Token::End, bytes)),
        _ => {
            let (instr, rest) = read_control(alloc, opcode, bytes)?;
            Ok((Token::Plain(instr), rest))
        }
    }
}

/// The token at the front, and the bytes after it ("Instructions" of the standard).
#[tactic(auto, unfolding(crate::specs::Tokens::token))]
pub fn read_token(alloc: Global, bytes: &[u8]) -> Result<(Token1, &[u8]), FormError>
    ensures { Gives (λ p. (p.0, p.1.now)) result (token.read bytes.now) }
{
    let (opcode, rest) = read_byte(bytes).ok_or(FormError::Malformed)?;
    if opcode < 0x20 {
        return read_control_at(alloc, opcode, rest);
    }
    let (instr, rest) = read_instr(opcode, rest).ok_or(FormError::Malformed)?;
    Ok((Token::Plain(instr), rest))
}
