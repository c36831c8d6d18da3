//! From a simulation over the language of 3.0 to the law of a stage.
//!
//! `specs/Adding.antt` says what a stage of lowering adds to a module and what it leaves alone. The proofs show that every
//! instruction, every act of the host and every task of a script stays, and lead from there to the law.
#![tactic(auto)]
