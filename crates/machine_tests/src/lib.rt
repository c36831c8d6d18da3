// A small language that the machine runs, and tests of it, in a crate of their own.
#![tactic(auto)]

mod op;
mod script;
mod version;

pub use op::{Func, Op, Program};
pub use script::{Caller, Item};

#[cfg(test)]
mod rows;
#[cfg(test)]
mod runs;
#[cfg(test)]
mod scripts;
#[cfg(test)]
mod steps;
