//! Rewritings of typed trees: what every stage of lowering that works on code would write and prove again.
//!
//! A `Rewriting` says what becomes of one node, whose bodies are rewritten already (`specs/Rewrites.antt`); `rewrite` does
//! it for all nodes of a body. Rewritten code is typed because each layer is: what a layer owes is in
//! `specs/Fitting.antt`, and that it is enough is `code_typed` of `proofs/Typing`.
#![tactic(auto)]

mod keeping;
mod kept;
mod rewriting;

pub use keeping::keep;
pub use rewriting::{Rewriting, rewrite};
