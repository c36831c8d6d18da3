ghost use Rattle.grammar_kit.specs.Gives.{Gives};
ghost use Rattle.nested_code.specs.Nesting.{expr};

use crate::language::Language;
use crate::turns::{Progress, take_token};
use grammar_kit::FormError;
use sqlite_items::Items;
use std::alloc::Global;

/// The expression at the front, and the bytes after it ("Expressions" of the standard). Room is taken for one
/// instruction at a time, and open blocks stand on a stack of their own, however deep they nest. `Malformed` where
/// no front of the bytes is an expression.
pub fn read_expr<L: Language>(
    alloc: Global,
    bytes: &[u8],
) -> Result<(Items<L::Instr>, &[u8]), FormError>
    ensures { Gives (λ p. (p.0, p.1.now)) result ((expr L.token L.has_arms L.build).read bytes.now) }
{
    let mut code = Items::new(alloc);
    let mut opened = Items::new(alloc);
    let mut rest = bytes;
    // a token takes a byte at least
    for _ in 0..bytes.len() {
        let (token, after) = L::token(alloc, rest)?;
        match take_token::<L>(alloc, token, &mut code, &mut opened)? {
            Progress::Inside => rest = after,
            Progress::Closed => return Ok((code, after)),
        }
    }
    Err(FormError::Malformed)
}
