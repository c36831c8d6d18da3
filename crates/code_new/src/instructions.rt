// Instructions that hold no code, behind their opcode.

ghost use Rattle.std.specs.Prelude.{◌≡◌};
ghost use Rattle.grammar_kit.specs.Gives.{Gives, GivesOption};
ghost use Rattle.code_new.specs.Instructions.{indexed, twice_indexed, jump_of, variable_of, bulk_of, indirect_of, transfer_of, size_of, br_table, select_typed, access, constant, reference, is_transfer, saturating_or_bulk, behind_fc};
ghost use Rattle.code_new.specs.Tokens.{control_at, instr_at};

use crate::immediates::{read_array, read_indices, read_value_types, split_mem_arg};
use crate::named::{
    access_of, bulk_of, indirect_of, jump_of, numeric_of, plain_of, size_of, transfer_of,
    variable_of,
};
use crate::types::split_heap_type;
use crate::vectors::behind_fd;
use grammar_kit::FormError;
use std::alloc::Global;
use wasm_ast::module::{FloatCode, FloatImmediates, Instr, Op};
use wasm_frame::leb128::{split_s32, split_s64, split_u32};

/// The call through a table with this opcode, with its two indices at the front.
fn indirect(opcode: u8, bytes: &[u8]) -> Option<(Instr, &[u8])>
    ensures { GivesOption (λ p. (p.0, p.1.now)) result ((twice_indexed (indirect_of opcode)).read bytes.now) }
{
    let (ty, rest) = split_u32(bytes)?;
    let (table, rest) = split_u32(rest)?;
    let instr = indirect_of(opcode, ty, table)?;
    Some((instr, rest))
}

/// The instruction with this opcode below 20 and an index at the front.
fn jump(opcode: u8, bytes: &[u8]) -> Option<(Instr, &[u8])>
    ensures { GivesOption (λ p. (p.0, p.1.now)) result ((indexed (jump_of opcode)).read bytes.now) }
{
    let (index, rest) = split_u32(bytes)?;
    let instr = jump_of(opcode, index)?;
    Some((instr, rest))
}

/// br_table, with its labels at the front.
#[tactic(auto, unfolding(crate::specs::Instructions::br_table))]
fn read_br_table(alloc: Global, bytes: &[u8]) -> Result<(Instr, &[u8]), FormError>
    ensures { Gives (λ p. (p.0, p.1.now)) result (br_table.read bytes.now) }
{
    let (labels, rest) = read_indices(alloc, bytes)?;
    let (last, rest) = split_u32(rest).ok_or(FormError::Malformed)?;
    Ok((Instr::BrTable(labels, last), rest))
}

/// select with types, with them at the front.
#[tactic(auto, unfolding(crate::specs::Instructions::select_typed))]
fn read_select(alloc: Global, bytes: &[u8]) -> Result<(Instr, &[u8]), FormError>
    ensures { Gives (λ p. (p.0, p.1.now)) result (select_typed.read bytes.now) }
{
    let (types, rest) = read_value_types(alloc, bytes)?;
    Ok((Instr::SelectTyped(types), rest))
}

/// The instruction with this opcode below 20 that holds no code, with its immediates at the front, and the bytes after
/// them ("Control Instructions" and "Parametric Instructions" of the standard).
#[tactic(auto, unfolding(crate::specs::Tokens::control_at))]
pub fn read_control(alloc: Global, opcode: u8, bytes: &[u8]) -> Result<(Instr, &[u8]), FormError>
    ensures { Gives (λ p. (p.0, p.1.now)) result ((control_at opcode).read bytes.now) }
{
    if opcode == 0x0E {
        return read_br_table(alloc, bytes);
    }
    if opcode == 0x1C {
        return read_select(alloc, bytes);
    }
    if opcode == 0x11 || opcode == 0x13 {
        return indirect(opcode, bytes).ok_or(FormError::Malformed);
    }
    if let Some(instr) = plain_of(opcode) {
        return Ok((instr, bytes));
    }
    jump(opcode, bytes).ok_or(FormError::Malformed)
}

/// The instruction on a variable or a table with this opcode, with its index at the front.
fn variable(opcode: u8, bytes: &[u8]) -> Option<(Instr, &[u8])>
    ensures { GivesOption (λ p. (p.0, p.1.now)) result ((indexed (variable_of opcode)).read bytes.now) }
{
    let (index, rest) = split_u32(bytes)?;
    let instr = variable_of(opcode, index)?;
    Some((instr, rest))
}

/// The load or the store with this opcode, with its memory argument at the front.
#[tactic(auto, unfolding(crate::specs::Instructions::access))]
fn access(opcode: u8, bytes: &[u8]) -> Option<(Instr, &[u8])>
    ensures { GivesOption (λ p. (p.0, p.1.now)) result ((access opcode).read bytes.now) }
{
    let (at, rest) = split_mem_arg(bytes)?;
    let instr = access_of(opcode, at)?;
    Some((instr, rest))
}

/// The instruction on a size with this opcode, with its memory at the front.
fn size(opcode: u8, bytes: &[u8]) -> Option<(Instr, &[u8])>
    ensures { GivesOption (λ p. (p.0, p.1.now)) result ((indexed (size_of opcode)).read bytes.now) }
{
    let (memory, rest) = split_u32(bytes)?;
    let instr = size_of(opcode, memory)?;
    Some((instr, rest))
}

/// The constant with this opcode, with its value at the front.
#[tactic(auto, unfolding(crate::specs::Instructions::constant))]
fn constant(opcode: u8, bytes: &[u8]) -> Option<(Instr, &[u8])>
    ensures { GivesOption (λ p. (p.0, p.1.now)) result ((constant opcode).read bytes.now) }
{
    match opcode {
        0x41 => {
            let (bits, rest) = split_s32(bytes)?;
            Some((Instr::Pure(Op::I32Const(bits)), rest))
        }
        0x42 => {
            let (bits, rest) = split_s64(bytes)?;
            Some((Instr::Pure(Op::I64Const(bits)), rest))
        }
        0x43 => {
            let (bytes, rest) = read_array::<4>(bytes)?;
            let bits = FloatImmediates::Bits32(u32::from_le_bytes(bytes));
            Some((Instr::Float(FloatCode::Plain(opcode), bits), rest))
        }
        0x44 => {
            let (bytes, rest) = read_array::<8>(bytes)?;
            let bits = FloatImmediates::Bits64(u64::from_le_bytes(bytes));
            Some((Instr::Float(FloatCode::Plain(opcode), bits), rest))
        }
        _ => None,
    }
}

/// The instruction on references with this opcode, with its immediates at the front.
#[tactic(auto, unfolding(crate::specs::Instructions::reference))]
fn reference(opcode: u8, bytes: &[u8]) -> Option<(Instr, &[u8])>
    ensures { GivesOption (λ p. (p.0, p.1.now)) result ((reference opcode).read bytes.now) }
{
    match opcode {
        0xD0 => {
            let (ty, rest) = split_heap_type(bytes)?;
            Some((Instr::Pure(Op::RefNull(ty)), rest))
        }
        0xD1 => Some((Instr::Pure(Op::RefIsNull), bytes)),
        0xD2 => {
            let (func, rest) = split_u32(bytes)?;
            Some((Instr::Pure(Op::RefFunc(func)), rest))
        }
        _ => None,
    }
}

/// Whether the number behind FC is that of an instruction with two indices.
#[tactic(auto, unfolding(crate::specs::Instructions::is_transfer))]
fn is_transfer(number: u32) -> bool
    ensures { result ≡ is_transfer number }
{
    matches!(number, 8 | 10 | 12 | 14)
}

/// The instruction with this number behind FC, with its immediates at the front.
#[tactic(auto, unfolding(crate::specs::Instructions::saturating_or_bulk))]
fn saturating_or_bulk(number: u32, bytes: &[u8]) -> Option<(Instr, &[u8])>
    ensures { GivesOption (λ p. (p.0, p.1.now)) result ((saturating_or_bulk number).read bytes.now) }
{
    if number <= 7 {
        let code = FloatCode::Saturating(number);
        return Some((Instr::Float(code, FloatImmediates::None), bytes));
    }
    let (first, rest) = split_u32(bytes)?;
    if is_transfer(number) {
        let (second, rest) = split_u32(rest)?;
        let instr = transfer_of(number, first, second)?;
        Some((instr, rest))
    } else {
        let instr = bulk_of(number, first)?;
        Some((instr, rest))
    }
}

/// The rest of an instruction whose opcode is FC, and the bytes after it ("Numeric Instructions", "Table Instructions" and
/// "Memory Instructions" of the standard).
#[tactic(auto, unfolding(crate::specs::Instructions::behind_fc))]
fn behind_fc(bytes: &[u8]) -> Option<(Instr, &[u8])>
    ensures { GivesOption (λ p. (p.0, p.1.now)) result (behind_fc.read bytes.now) }
{
    let (number, rest) = split_u32(bytes)?;
    saturating_or_bulk(number, rest)
}

/// The instruction with this opcode from 20 on, with its immediates at the front, and the bytes after them.
#[tactic(auto, unfolding(crate::specs::Tokens::instr_at))]
pub fn read_instr(opcode: u8, bytes: &[u8]) -> Option<(Instr, &[u8])>
    ensures { GivesOption (λ p. (p.0, p.1.now)) result ((instr_at opcode).read bytes.now) }
{
    if opcode < 0x28 {
        return variable(opcode, bytes);
    }
    if opcode < 0x3F {
        return access(opcode, bytes);
    }
    if opcode < 0x41 {
        return size(opcode, bytes);
    }
    if opcode < 0x45 {
        return constant(opcode, bytes);
    }
    if opcode < 0xD0 {
        let instr = numeric_of(opcode)?;
        return Some((instr, bytes));
    }
    match opcode {
        0xFC => behind_fc(bytes),
        0xFD => behind_fd(bytes),
        _ => reference(opcode, bytes),
    }
}
