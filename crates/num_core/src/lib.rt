// The integer operators of both versions of WebAssembly, what they give, and the lists that all crates share.
#![tactic(auto)]

pub mod lists;
pub mod operations;
pub mod operators;
