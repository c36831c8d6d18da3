//! From typed modules of 3.0 to modules of 1.0, for those that have nothing of 3.0 but typed selects.
//!
//! `cross` writes each part as 1.0 writes it, and `cross_owned` does so from a module by value. Which module that is, and that
//! it does the same, is said in `crossing`; here is shown that such a module crosses (`proofs/Whole.antt`) and that its crossed
//! module is typed (`proofs/Typing.antt`). What instructions owe for both is in `proofs/Heads.antt`, `proofs/Gives.antt` and
//! `proofs/Instructions.antt`, the induction over typed trees in `proofs/Trees.antt`.
#![tactic(auto)]

mod code;
mod lengths;
mod lists;
mod modules;
mod parts;
mod types;

ghost use Rattle.pass_cross.specs.Crossable.{CrossableCrosses, CrossableIsTyped};

pub use modules::{cross, cross_owned};

/// A module that has nothing of 3.0 but typed selects, and that may stand between two stages, crosses.
pub fn crossable_modules_cross()
    ensures { CrossableCrosses }
{}

/// Its crossed module is typed by the rules of 1.0, where no list has 2^32 items or more.
pub fn crossed_modules_are_typed()
    ensures { CrossableIsTyped }
{}
