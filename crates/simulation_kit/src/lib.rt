//! Forward simulations between any two languages of `evaluation_kit`: what a rewriting of code owes for one layer of it, so
//! that all code, all functions and all tasks of a host do in the output what they do in the input.
//!
//! `specs/Runs.antt` says when a run of the output meets a run of the input, `specs/Matches.antt` what a pass says of the
//! configurations that match. The proofs have a combinator for each form of code.
#![tactic(auto)]
