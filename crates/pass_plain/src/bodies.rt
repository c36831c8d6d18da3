// The functions of a module with rewritten bodies.

ghost use Rattle.std.specs.Prelude.{◌≡◌, IfOk};
ghost use Rattle.pass_plain.specs.Bodies.{rewritten_functions};

use owned_lists::Drain;
use rewriting_kit::{Rewriting, rewrite};
use sqlite_items::Items;
use std::alloc::{AllocError, Global};
use typed_trees::TypedFn;

/// The functions with their bodies rewritten. It fails for want of memory alone.
pub(crate) fn rewrite_functions<E: Copy, R: Rewriting<E>>(
    alloc: Global,
    rewriting: &R,
    fns: Items<TypedFn>,
) -> Result<Items<TypedFn>, AllocError>
    ensures { IfOk result (λ new. new ≡ rewritten_functions (R.entry rewriting.now) (R.layer rewriting.now) fns) }
{
    let mut new = Items::from_vec(Vec::with_capacity(alloc, fns.len())?);
    let mut rest = Drain::new(alloc, fns)?;
    while let Some(f) = rest.next() {
        let TypedFn { locals, body } = f;
        let body = rewrite(alloc, rewriting, body)?;
        new.push(TypedFn { locals, body })?;
    }
    Ok(new)
}
