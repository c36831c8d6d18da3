// Instructions behind which nothing is reached.

use crate::exactly::{Tried, takes_exactly};
use crate::steps::Index::{Br, ReturnCall, Throw};
use crate::steps::Pair::ReturnCallIndirect;
use crate::steps::Plain::{Return, ThrowRef};
use crate::steps::Step::{BrTable, Named, NamedTwice, Plain};
use crate::steps::{Step, UNREACHABLE};
use crate::trial::{Trial, holds};
use crate::world::is_typed_over;
use std::alloc::{AllocError, Global};
use std::test::Fail;
use valid_new::Spaces;
use wasm_ast::module::Ty;
use wasm_ast::module::Ty::{Exn, Extern, I32, I64, V128};

/// The results of the function, which its label takes too.
const RESULTS: [Ty; 2] = [I64, Extern];

/// The instruction with what it takes.
static ROWS: [(Step, &[Ty]); 10] = [
    (UNREACHABLE, &[]),
    (Named(Br, 0), &[I64, Extern]),
    (BrTable(&[], 0), &[I64, Extern, I32]),
    (BrTable(&[0, 0], 0), &[I64, Extern, I32]),
    (Plain(Return), &[I64, Extern]),
    (Named(ReturnCall, 1), &[Extern]),
    (NamedTwice(ReturnCallIndirect, 2, 0), &[Extern, I32]),
    (Named(Throw, 0), &[I64, V128]),
    (Named(Throw, 1), &[]),
    (Plain(ThrowRef), &[Exn]),
];

/// These types, and another one below them.
fn with_below(alloc: Global, takes: &[Ty]) -> Result<Vec<Ty>, AllocError> {
    let mut more = Vec::new(alloc);
    more.push(V128)?;
    for ty in takes {
        more.push(*ty)?;
    }
    Ok(more)
}

/// Whether the instruction lets operands lie below what it takes.
fn lets_lie(
    alloc: Global,
    spaces: &Spaces<'_>,
    step: Step,
    takes: &[Ty],
) -> Result<bool, AllocError> {
    let more = with_below(alloc, takes)?;
    is_typed_over(alloc, spaces, more.as_slice(), &step, &RESULTS)
}

/// Whether the instruction takes these types and no others, leaves what is asked of it, and lets operands lie below.
fn is_leaving(
    alloc: Global,
    spaces: &Spaces<'_>,
    step: Step,
    takes: &[Ty],
) -> Result<bool, AllocError> {
    let row = Tried {
        step,
        takes,
        gives: &RESULTS,
    };
    Ok(takes_exactly(alloc, spaces, &row)? && lets_lie(alloc, spaces, step, takes)?)
}

/// The same of each row.
pub fn are_leaving(alloc: Global, spaces: &Spaces<'_>) -> Result<bool, AllocError> {
    for (step, takes) in &ROWS {
        if !is_leaving(alloc, spaces, *step, takes)? {
            return Ok(false);
        }
    }
    Ok(true)
}

#[test]
fn what_leaves_takes_its_types_and_leaves_any(rt: HostRuntime) -> Result<(), Fail> {
    assert!(rt; holds(rt.alloc(), Trial::Leaving)?);
    Ok(())
}

/// The same where the function has no results, and no operand is known.
static SOMEWHERE: [Step; 8] = [
    UNREACHABLE,
    Named(Br, 0),
    BrTable(&[0], 0),
    Plain(Return),
    Named(ReturnCall, 4),
    NamedTwice(ReturnCallIndirect, 0, 2),
    Named(Throw, 0),
    Plain(ThrowRef),
];

#[test]
fn what_leaves_is_typed_where_no_operand_is_known(rt: HostRuntime) -> Result<(), Fail> {
    assert!(rt; holds(rt.alloc(), Trial::Somewhere(&[&SOMEWHERE], true))?);
    Ok(())
}
