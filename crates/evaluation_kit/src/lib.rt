//! How structured code runs, for any language of instructions, values and states: blocks, loops, choices, handlers,
//! calls and tail calls, in a bounded number of turns.
//!
//! `specs/Control.antt` says what each form does, `specs/Languages.antt` what a language is and what its code and its
//! functions do. `proofs/Closure.antt` is the one induction over forms, code and functions; each law of runs is an
//! instance of it.
#![tactic(auto)]

mod jump;

pub use jump::Jump;
