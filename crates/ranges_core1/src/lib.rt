//! That the numbers which runs of a module of 1.0 show lie in the ranges of their types.
//!
//! `specs/Ranges.antt` says which numbers a module has and which an event shows. The proofs carry one invariant through a
//! run: operands, locals, globals, bytes, sizes, replies and what is told so far lie in their ranges. `proofs/Running.antt` and
//! `proofs/Tasks.antt` carry any such invariant through code and through what a host does.
#![tactic(auto)]

ghost use Rattle.ranges_core1.specs.Ranges.{RunsShowNumbersInRange};

/// Under a script that fits, a module whose numbers lie in the ranges of their types shows none that does not.
pub fn runs_show_numbers_in_range()
    ensures { RunsShowNumbersInRange }
{}
