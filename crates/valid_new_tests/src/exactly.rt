// That an instruction takes operands of its types and of no others.

use crate::steps::{Step, UNREACHABLE};
use crate::world::{is_typed, is_typed_over};
use std::alloc::{AllocError, Global};
use valid_new::Spaces;
use wasm_ast::module::Ty;

/// An instruction with the types that it takes and those that it gives.
pub type Row = (Step, &'static [Ty], &'static [Ty]);

/// The same, over lists that are made.
#[derive(Clone, Copy)]
pub struct Tried<'a> {
    pub step: Step,
    pub takes: &'a [Ty],
    pub gives: &'a [Ty],
}

static TYPES: [Ty; 8] = [
    Ty::I32,
    Ty::I64,
    Ty::F32,
    Ty::F64,
    Ty::V128,
    Ty::Func,
    Ty::Extern,
    Ty::Exn,
];

/// The types, with another one at this place.
fn changed(alloc: Global, types: &[Ty], place: usize, ty: Ty) -> Result<Vec<Ty>, AllocError> {
    let mut changed = Vec::new(alloc);
    for (k, kept) in types.iter().enumerate() {
        changed.push(if k == place { ty } else { *kept })?;
    }
    Ok(changed)
}

/// Whether the instruction is typed with another type at this place among the operands and then the results.
fn is_typed_with(
    alloc: Global,
    spaces: &Spaces<'_>,
    row: &Tried<'_>,
    place: usize,
    ty: Ty,
) -> Result<bool, AllocError> {
    let takes = changed(alloc, row.takes, place, ty)?;
    let gives = changed(alloc, row.gives, place.wrapping_sub(row.takes.len()), ty)?;
    is_typed_over(alloc, spaces, takes.as_slice(), &row.step, gives.as_slice())
}

/// Whether of all types that may stand at this place among the operands and then the results only the row's own will do.
fn is_place_exact(
    alloc: Global,
    spaces: &Spaces<'_>,
    row: &Tried<'_>,
    place: usize,
    own: Ty,
) -> Result<bool, AllocError> {
    for ty in &TYPES {
        if is_typed_with(alloc, spaces, row, place, *ty)? != (*ty == own) {
            return Ok(false);
        }
    }
    Ok(true)
}

/// Whether the instruction is typed over the operands that it takes, and not over one too few or one of another type.
pub fn takes_exactly(
    alloc: Global,
    spaces: &Spaces<'_>,
    row: &Tried<'_>,
) -> Result<bool, AllocError> {
    for (place, own) in row.takes.iter().enumerate() {
        if !is_place_exact(alloc, spaces, row, place, *own)? {
            return Ok(false);
        }
    }
    if let Some((_, fewer)) = row.takes.split_first() {
        if is_typed_over(alloc, spaces, fewer, &row.step, row.gives)? {
            return Ok(false);
        }
    }
    is_typed_over(alloc, spaces, row.takes, &row.step, row.gives)
}

/// Whether it leaves the results that it gives, and not one fewer or one of another type.
fn gives_exactly(alloc: Global, spaces: &Spaces<'_>, row: &Tried<'_>) -> Result<bool, AllocError> {
    for (k, own) in row.gives.iter().enumerate() {
        let place = row.takes.len().wrapping_add(k);
        if !is_place_exact(alloc, spaces, row, place, *own)? {
            return Ok(false);
        }
    }
    match row.gives.split_last() {
        Some((_, fewer)) => Ok(!is_typed_over(alloc, spaces, row.takes, &row.step, fewer)?),
        None => Ok(true),
    }
}

/// Whether it leaves one value more than it gives.
fn gives_more(alloc: Global, spaces: &Spaces<'_>, row: &Tried<'_>) -> Result<bool, AllocError> {
    let mut more = Vec::from_slice(alloc, row.gives)?;
    more.push(Ty::I32)?;
    is_typed_over(alloc, spaces, row.takes, &row.step, more.as_slice())
}

/// Whether the instruction has this type and no other.
pub fn is_exact(alloc: Global, spaces: &Spaces<'_>, row: &Tried<'_>) -> Result<bool, AllocError> {
    if !takes_exactly(alloc, spaces, row)? || !gives_exactly(alloc, spaces, row)? {
        return Ok(false);
    }
    Ok(!gives_more(alloc, spaces, row)? && is_typed_somewhere(alloc, spaces, row.step)?)
}

/// Whether any operands would do: it is typed where no operand is known.
pub fn is_typed_somewhere(
    alloc: Global,
    spaces: &Spaces<'_>,
    step: Step,
) -> Result<bool, AllocError> {
    is_typed(alloc, spaces, &[UNREACHABLE, step, UNREACHABLE], &[])
}

/// Whether each row has the type that it says and no other.
fn are_rows_exact(alloc: Global, spaces: &Spaces<'_>, rows: &[Row]) -> Result<bool, AllocError> {
    for (step, takes, gives) in rows {
        let row = Tried {
            step: *step,
            takes,
            gives,
        };
        if !is_exact(alloc, spaces, &row)? {
            return Ok(false);
        }
    }
    Ok(true)
}

/// Whether each row of the tables has the type that it says and no other.
pub fn are_exact(
    alloc: Global,
    spaces: &Spaces<'_>,
    tables: &[&[Row]],
) -> Result<bool, AllocError> {
    for rows in tables {
        if !are_rows_exact(alloc, spaces, rows)? {
            return Ok(false);
        }
    }
    Ok(true)
}

/// Whether each instruction is typed where no operand is known, or none is.
fn are_steps(
    alloc: Global,
    spaces: &Spaces<'_>,
    steps: &[Step],
    typed: bool,
) -> Result<bool, AllocError> {
    for step in steps {
        if is_typed_somewhere(alloc, spaces, *step)? != typed {
            return Ok(false);
        }
    }
    Ok(true)
}

/// Whether each instruction of the tables is typed where no operand is known, or none is.
pub fn are_typed(
    alloc: Global,
    spaces: &Spaces<'_>,
    tables: &[&[Step]],
    typed: bool,
) -> Result<bool, AllocError> {
    for steps in tables {
        if !are_steps(alloc, spaces, steps, typed)? {
            return Ok(false);
        }
    }
    Ok(true)
}
