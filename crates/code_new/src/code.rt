// Expressions of 3.0.

ghost use Rattle.std.specs.Prelude.{◌≡◌};
ghost use Rattle.grammar_kit.specs.Gives.{Gives};
ghost use Rattle.grammar_kit.specs.Measures.{through};
ghost use Rattle.code_new.specs.Tokens.{token, has_arms, build};
ghost use Rattle.code_new.specs.Code.{expr, sizes, uses_data};

use crate::head::Head;
use crate::token::read_token;
use grammar_kit::FormError;
use nested_code::{Language, Token};
use sqlite_items::Items;
use std::alloc::Global;
use wasm_ast::module::{Code, Instr};

/// The instructions of WebAssembly 3.0.
pub struct Wasm3;

impl Language for Wasm3 {
    type Instr = Instr;

    type Head = Head;

    ghost token = { token };

    ghost has_arms = { has_arms };

    ghost marks = { uses_data };

    ghost build = { build };

    fn token(alloc: Global, bytes: &[u8]) -> Result<(Token<Instr, Head>, &[u8]), FormError> {
        read_token(alloc, bytes)
    }

    fn has_arms(head: &Head) -> bool {
        matches!(head, Head::If(_))
    }

    fn marks(instr: &Instr) -> bool {
        matches!(instr, Instr::MemoryInit(_, _) | Instr::DataDrop(_))
    }

    fn build(head: Head, first: Items<Instr>, second: Items<Instr>) -> Instr
        ensures { result ≡ build head first second }
    {
        match head {
            Head::Block(ty) => Instr::Block(ty, first),
            Head::Loop(ty) => Instr::Loop(ty, first),
            Head::If(ty) => Instr::If(ty, first, second),
            Head::TryTable(ty, clauses) => Instr::TryTable(ty, clauses, first),
        }
    }
}

/// The expression at the front, and the bytes after it ("Expressions" of the standard). Room is taken for one
/// instruction at a time, and blocks may nest however deep.
#[tactic(auto, unfolding(crate::specs::Code::expr))]
pub fn read_expr(alloc: Global, bytes: &[u8]) -> Result<(Code, &[u8]), FormError>
    ensures { Gives (λ p. (p.0, p.1.now)) result (expr.read bytes.now) }
{
    nested_code::read_expr::<Wasm3>(alloc, bytes)
}

/// What is measured of an expression.
#[derive(Clone, Copy, Debug, PartialEq, Eq)]
pub struct ExprSizes {
    /// How many instructions that hold code stand in one another, at most.
    pub nesting: u32,
    /// Whether memory.init or data.drop occurs, at any depth.
    pub names_data: bool,
}

/// How deeply instructions nest in the expression at the front, whether one of them names a data segment, and the bytes
/// after it. Nothing is built: an open block takes one byte of room. A nesting past 2^32 - 1 is want of memory.
#[tactic(auto, unfolding(crate::specs::Code::expr))]
pub fn measure_expr(alloc: Global, bytes: &[u8]) -> Result<(ExprSizes, &[u8]), FormError>
    ensures { Gives (λ p. ((p.0.nesting, p.0.names_data), p.1.now)) result (through sizes (expr.read bytes.now)) }
{
    let (sizes, rest) = nested_code::measure_expr::<Wasm3>(alloc, bytes)?;
    let nesting = sizes.nesting;
    let names_data = sizes.marked;
    Ok((
        ExprSizes {
            nesting,
            names_data,
        },
        rest,
    ))
}
