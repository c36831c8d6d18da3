ghost use Rattle.std.specs.Prelude.{◌≡◌, ℕ, suc, max, Bool, ◌∷◌, length, reverse, OnOk};
ghost use Rattle.grammar_kit.specs.Gives.{Gives};
ghost use Rattle.grammar_kit.specs.Measures.{through};
ghost use Rattle.nested_code.specs.Nesting.{expr};
ghost use Rattle.nested_code.specs.Sizes.{IsDepth, IsOccurrence, sizes, count, Counted};

use crate::language::Language;
use crate::token::Token;
use crate::turns::Progress;
use grammar_kit::FormError;
use sqlite_items::Items;
use std::alloc::{AllocError, Global};

/// What is measured of an expression.
#[derive(Clone, Copy, Debug, PartialEq, Eq)]
pub struct ExprSizes {
    /// How many instructions that hold code stand in one another, at most.
    pub nesting: u32,
    /// Whether an instruction has the mark of the language, at any depth.
    pub marked: bool,
}

/// Begins the code of an instruction. More open blocks than 2^32 - 1 are want of memory.
fn count_open(split: bool, nesting: &mut u32, arms: &mut Items<bool>) -> Result<(), AllocError>
    ensures { OnOk result ((nesting.new ≡ max nesting.old (suc (length arms.old))) × (reverse arms.new ≡ split ∷ reverse arms.old)) }
{
    arms.push(split)?;
    let Ok(open) = u32::try_from(arms.len()) else {
        return Err(AllocError);
    };
    *nesting = (*nesting).max(open);
    Ok(())
}

/// Takes a token: what it makes of the sizes of what was read, and of the open blocks, of each of which `arms` says
/// whether an else may still stand in it.
fn count_token<L: Language>(
    token: Token<L::Instr, L::Head>,
    sizes: &mut ExprSizes,
    arms: &mut Items<bool>,
) -> Result<Progress, FormError>
    ensures { Counted result sizes.new.nesting sizes.new.marked (reverse arms.new) (count L.has_arms L.marks token sizes.old.nesting sizes.old.marked (reverse arms.old)) }
{
    match token {
        Token::Plain(instr) => sizes.marked = sizes.marked || L::marks(&instr),
        Token::Open(head) => count_open(L::has_arms(&head), &mut sizes.nesting, arms)?,
        Token::Else => match arms.pop() {
            Some(true) => arms.push(false)?,
            _ => return Err(FormError::Malformed),
        },
        Token::End => {
            if arms.pop().is_none() {
                return Ok(Progress::Closed);
            }
        }
    }
    Ok(Progress::Inside)
}

/// How deeply blocks nest in the expression at the front, whether an instruction in it has the mark, and the bytes after
/// it. Nothing is built: an open block takes one byte.
pub fn measure_expr<L: Language>(
    alloc: Global,
    bytes: &[u8],
) -> Result<(ExprSizes, &[u8]), FormError>
    ensures { (depth : L.Instr → ℕ) (occurs : L.Instr → Bool) → IsDepth L.token L.has_arms L.build depth → IsOccurrence L.token L.has_arms L.build L.marks occurs → Gives (λ p. ((p.0.nesting, p.0.marked), p.1.now)) result (through (sizes depth occurs) ((expr L.token L.has_arms L.build).read bytes.now)) }
{
    let mut sizes = ExprSizes {
        nesting: 0,
        marked: false,
    };
    let mut arms = Items::new(alloc);
    let mut rest = bytes;
    // a token takes a byte at least
    for _ in 0..bytes.len() {
        let (token, after) = L::token(alloc, rest)?;
        match count_token::<L>(token, &mut sizes, &mut arms)? {
            Progress::Inside => rest = after,
            Progress::Closed => return Ok((sizes, after)),
        }
    }
    Err(FormError::Malformed)
}
