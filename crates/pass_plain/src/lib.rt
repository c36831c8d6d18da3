//! Stages of lowering that keep each body as a function: runs are as they were, or begin with code of the stage's own.
//!
//! `Sign` writes sign extension by shifts (`specs/Shifts.antt`), and `Trim` drops nops, exports of tags and a count of data
//! segments that no body asks for (`specs/Trimming.antt`). That a body is the same function needs one lemma for each
//! instruction that changes (`proofs/Readings.antt`); functions, runs and the law follow for any such stage
//! (`proofs/Runs.antt`, `proofs/Stages.antt`, `proofs/Same.antt`). Where operators take the place of one, that they do what
//! it does and are typed as it is gives the rest (`proofs/Operators.antt`, `proofs/Replaced.antt`).
//!
//! `Const` leaves no constant expressions that compute (`specs/Folding.antt`): those that fold become constants, and the
//! globals of the others are set by a function that runs first (`proofs/ConstantRuns.antt`, `proofs/LawfulConstants.antt`).
#![tactic(auto)]

mod bodies;
mod computed;
mod counts;
mod folding;
mod sign;
mod trim;

pub use computed::Const;
pub use sign::Sign;
pub use trim::Trim;
