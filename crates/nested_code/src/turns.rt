// What each token does to the code that is being read.

ghost use Rattle.std.specs.Prelude.{◌≡◌, ◌∷◌, [], ◌++◌, reverse, Some, None, IfOk, OnOk};
ghost use Rattle.nested_code.specs.declared.token.Token.TheVariants.{Plain, Open, Else, End};
ghost use Rattle.nested_code.specs.Nesting.{turn};
ghost use Rattle.nested_code.specs.Turned.{Turned};

use crate::language::Language;
use crate::open_block::OpenBlock;
use crate::token::Token;
use grammar_kit::FormError;
use sqlite_items::Items;
use std::alloc::{AllocError, Global};
use std::mem;

/// Whether an expression goes on behind a token that may stand where it does.
#[derive(Clone, Copy)]
pub enum Progress {
    /// The token was inside the expression.
    Inside,
    /// The token closed the expression.
    Closed,
}

/// Begins the code of an instruction.
fn open<I: Drop, H: Drop>(
    alloc: Global,
    head: H,
    code: &mut Items<I>,
    opened: &mut Items<OpenBlock<I, H>>,
) -> Result<(), AllocError>
    ensures code { code.new ≡ [] }
    ensures opened { OnOk result (opened.new ≡ opened.old ++ (record { head = head; before = code.old; first = None }) ∷ []) }
{
    let before = mem::replace(code, Items::new(alloc));
    opened.push(OpenBlock {
        head,
        before,
        first: None,
    })
}

/// Begins the second arm of the innermost block.
fn on_else<L: Language>(
    alloc: Global,
    code: &mut Items<L::Instr>,
    opened: &mut Items<OpenBlock<L::Instr, L::Head>>,
) -> Result<Progress, FormError>
    ensures { Turned result code.new (reverse opened.new) (turn L.has_arms L.build Else code.old (reverse opened.old)) }
{
    let Some(
        OpenBlock {
            head,
            before,
            first: None,
        },
    ) = opened.pop()
    else {
        return Err(FormError::Malformed);
    };
    if !L::has_arms(&head) {
        return Err(FormError::Malformed);
    }
    let first = Some(mem::replace(code, Items::new(alloc)));
    opened.push(OpenBlock {
        head,
        before,
        first,
    })?;
    Ok(Progress::Inside)
}

/// Closes the innermost block, or the expression where no block is open.
fn on_end<L: Language>(
    alloc: Global,
    code: &mut Items<L::Instr>,
    opened: &mut Items<OpenBlock<L::Instr, L::Head>>,
) -> Result<Progress, FormError>
    ensures { Turned result code.new (reverse opened.new) (turn L.has_arms L.build End code.old (reverse opened.old)) }
{
    let Some(
        OpenBlock {
            head,
            before,
            first,
        },
    ) = opened.pop()
    else {
        return Ok(Progress::Closed);
    };
    let inner = mem::replace(code, before);
    let instr = match first {
        None => L::build(head, inner, Items::new(alloc)),
        Some(first) => L::build(head, first, inner),
    };
    code.push(instr)?;
    Ok(Progress::Inside)
}

/// Takes a token: what it makes of the code read in the innermost block so far, and of the open blocks.
pub fn take_token<L: Language>(
    alloc: Global,
    token: Token<L::Instr, L::Head>,
    code: &mut Items<L::Instr>,
    opened: &mut Items<OpenBlock<L::Instr, L::Head>>,
) -> Result<Progress, FormError>
    ensures { Turned result code.new (reverse opened.new) (turn L.has_arms L.build token code.old (reverse opened.old)) }
{
    match token {
        Token::Plain(instr) => code.push(instr)?,
        Token::Open(head) => open(alloc, head, code, opened)?,
        Token::Else => return on_else::<L>(alloc, code, opened),
        Token::End => return on_end::<L>(alloc, code, opened),
    }
    Ok(Progress::Inside)
}
