// What is tried among the index spaces of the world. One function alone has the world, since each way out of such a
// function lets go of every part of it, and the check goes through all of them.

use crate::accesses::are_accesses_told;
use crate::exactly::{Row, are_exact, are_typed};
use crate::leaving::are_leaving;
use crate::operators::are_codes_exact;
use crate::refused::are_locals_told;
use crate::steps::Step;
use crate::trees::{TreeRow, are_locals_kept, are_trees};
use crate::unreached::{BodyRow, are_told};
use crate::world::world;
use std::alloc::{AllocError, Global};
use valid_new::{Spaces, spaces_of};

/// What is tried.
#[derive(Clone, Copy)]
pub enum Trial<'a> {
    /// Whether each row of the tables has the type that it says and no other.
    Exact(&'a [&'a [Row]]),
    /// Whether each instruction of the tables is typed where no operand is known, or none is.
    Somewhere(&'a [&'a [Step]], bool),
    /// Whether each row tells whether its body is typed.
    Bodies(&'a [&'a [BodyRow]]),
    /// Whether each body has the nodes that its row says.
    Trees(&'a [&'a [TreeRow]]),
    /// Whether what leaves takes its types and leaves any.
    Leaving,
    /// Whether a local is of any type but a float.
    Locals,
    /// Whether the declared locals are kept.
    KeptLocals,
    /// Whether the operators on vectors have their types and no others.
    Vectors,
    /// Whether loads and stores have their operands, alignments and offsets and no others.
    Accesses,
}

fn holds_among(alloc: Global, spaces: &Spaces<'_>, trial: Trial<'_>) -> Result<bool, AllocError> {
    match trial {
        Trial::Exact(tables) => are_exact(alloc, spaces, tables),
        Trial::Somewhere(tables, typed) => are_typed(alloc, spaces, tables, typed),
        Trial::Bodies(tables) => are_told(alloc, spaces, tables),
        Trial::Trees(tables) => are_trees(alloc, spaces, tables),
        Trial::Leaving => are_leaving(alloc, spaces),
        Trial::Locals => are_locals_told(alloc, spaces),
        Trial::KeptLocals => are_locals_kept(alloc, spaces),
        Trial::Vectors => are_codes_exact(alloc, spaces),
        Trial::Accesses => are_accesses_told(alloc, spaces),
    }
}

/// Whether it holds in the world.
pub fn holds(alloc: Global, trial: Trial<'_>) -> Result<bool, AllocError> {
    let m = world(alloc)?;
    let spaces = spaces_of(alloc, &m)?;
    holds_among(alloc, &spaces, trial)
}
