ghost use Rattle.grammar_kit.specs.Gives.{Gives, GivesOption};
ghost use Rattle.code_new.specs.Tokens.{opened, try_table, head_at, token_at, token};

use crate::head::Head;
use crate::immediates::read_clauses;
use crate::instructions::{read_control, read_instr};
use crate::named::head_of;
use crate::types::split_block_type;
use grammar_kit::{FormError, read_byte};
use nested_code::Token;
use std::alloc::Global;
use wasm_ast::module::Instr;

/// The head with this opcode, but for try_table, with its type at the front.
#[tactic(auto, unfolding(crate::specs::Tokens::opened))]
fn opened(opcode: u8, bytes: &[u8]) -> Option<(Token<Instr, Head>, &[u8])>
    ensures { GivesOption (λ p. (p.0, p.1.now)) result ((opened opcode).read bytes.now) }
{
    let (ty, rest) = split_block_type(bytes)?;
    let head = head_of(opcode, ty)?;
    Some((Token::Open(head), rest))
}

/// try_table, with its type and its catch clauses at the front.
#[tactic(auto, unfolding(crate::specs::Tokens::try_table))]
fn read_try_table(alloc: Global, bytes: &[u8]) -> Result<(Token<Instr, Head>, &[u8]), FormError>
    ensures { Gives (λ p. (p.0, p.1.now)) result (try_table.read bytes.now) }
{
    let (ty, rest) = split_block_type(bytes).ok_or(FormError::Malformed)?;
    let (clauses, rest) = read_clauses(alloc, rest)?;
    Ok((Token::Open(Head::TryTable(ty, clauses)), rest))
}

/// The token with this opcode below 20, with its immediates at the front, and the bytes after them.
#[tactic(auto, unfolding(crate::specs::Tokens::head_at))]
fn read_head(
    alloc: Global,
    opcode: u8,
    bytes: &[u8],
) -> Result<(Token<Instr, Head>, &[u8]), FormError>
    ensures { Gives (λ p. (p.0, p.1.now)) result ((head_at opcode).read bytes.now) }
{
    match opcode {
        0x02..=0x04 => opened(opcode, bytes).ok_or(FormError::Malformed),
        0x05 => Ok((Token::Else, bytes)),
        0x0B => Ok((Token::End, bytes)),
        0x1F => read_try_table(alloc, bytes),
        _ => {
            let (instr, rest) = read_control(alloc, opcode, bytes)?;
            Ok((Token::Plain(instr), rest))
        }
    }
}

/// What stands behind this opcode, and the bytes after it.
#[tactic(auto, unfolding(crate::specs::Tokens::token_at))]
fn read_token_at(
    alloc: Global,
    opcode: u8,
    bytes: &[u8],
) -> Result<(Token<Instr, Head>, &[u8]), FormError>
    ensures { Gives (λ p. (p.0, p.1.now)) result ((token_at opcode).read bytes.now) }
{
    if opcode < 0x20 {
        return read_head(alloc, opcode, bytes);
    }
    let (instr, rest) = read_instr(opcode, bytes).ok_or(FormError::Malformed)?;
    Ok((Token::Plain(instr), rest))
}

/// The token at the front, and the bytes after it ("Instructions" of the standard).
#[tactic(auto, unfolding(crate::specs::Tokens::token))]
pub fn read_token(alloc: Global, bytes: &[u8]) -> Result<(Token<Instr, Head>, &[u8]), FormError>
    ensures { Gives (λ p. (p.0, p.1.now)) result (token.read bytes.now) }
{
    let (opcode, rest) = read_byte(bytes).ok_or(FormError::Malformed)?;
    read_token_at(alloc, opcode, rest)
}
