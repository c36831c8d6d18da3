//! A small pass that is proved by the combinators of `simulation_kit`: an instruction becomes a call of a function that the
//! output alone has, which loops and writes a global that the output alone has.
#![tactic(auto)]

mod op;

pub use op::Op;
