// Small stages of lowering, and tests of a pipeline of them, in a crate of their own.
#![tactic(auto)]

mod loose;
mod same;

pub use loose::Loose;
pub use same::Same;

#[cfg(test)]
mod pipeline;
