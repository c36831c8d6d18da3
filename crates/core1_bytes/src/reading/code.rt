// Expressions of 1.0.

ghost use Rattle.std.specs.Prelude.{◌≡◌, false};
ghost use Rattle.grammar_kit.specs.Gives.{Gives};
ghost use Rattle.grammar_kit.specs.Measures.{through, greatest};
ghost use Rattle.core1_bytes.specs.Tokens.{token, has_arms, build};
ghost use Rattle.core1_bytes.specs.Bodies.{expr};
ghost use Rattle.core1_bytes.specs.Nesting.{depth};

use super::instructions::{Token1, read_token};
use crate::head::Head1;
use core1_ast::module::{Code1, Instr1};
use grammar_kit::FormError;
use nested_code::Language;
use sqlite_items::Items;
use std::alloc::Global;

/// The instructions of WebAssembly 1.0.
struct Wasm1;

impl Language for Wasm1 {
    type Instr = Instr1;

    type Head = Head1;

    ghost token = { token };

    ghost has_arms = { has_arms };

    ghost marks = { λ i. false };

    ghost build = { build };

    fn token(alloc: Global, bytes: &[u8]) -> Result<(Token1, &[u8]), FormError> {
        read_token(alloc, bytes)
    }

    fn has_arms(head: &Head1) -> bool {
        matches!(head, Head1::If(_))
    }

    fn marks(_instr: &Instr1) -> bool {
        false
    }

    fn build(head: Head1, first: Items<Instr1>, second: Items<Instr1>) -> Instr1
        ensures { result ≡ build head first second }
    {
        match head {
            Head1::Block(ty) => Instr1::Block(ty, first),
            Head1::Loop(ty) => Instr1::Loop(ty, first),
            Head1::If(ty) => Instr1::If(ty, first, second),
        }
    }
}

/// The expression at the front, and the bytes after it. Room is taken for one instruction at a time, and blocks may
/// nest however deep.
#[tactic(auto, unfolding(crate::specs::Bodies::expr))]
pub fn read_expr(alloc: Global, bytes: &[u8]) -> Result<(Code1, &[u8]), FormError>
    ensures { Gives (λ p. (p.0, p.1.now)) result (expr.read bytes.now) }
{
    nested_code::read_expr::<Wasm1>(alloc, bytes)
}

/// How deeply instructions nest in the expression at the front, and the bytes after it. Nothing is built: an open block
/// takes one byte of room. A nesting past 2^32 - 1 is want of memory.
pub fn measure_expr(alloc: Global, bytes: &[u8]) -> Result<(u32, &[u8]), FormError>
    ensures { Gives (λ p. (p.0, p.1.now)) result (through (greatest depth) (expr.read bytes.now)) }
{
    let (sizes, rest) = nested_code::measure_expr::<Wasm1>(alloc, bytes)?;
    Ok((sizes.nesting, rest))
}
