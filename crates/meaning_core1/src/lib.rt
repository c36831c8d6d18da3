// What a module of WebAssembly 1.0 does under a script, as definitions, and the laws that every run keeps.
#![tactic(auto)]

pub mod examples;
pub mod run_laws;
mod val1;

pub use val1::Val1;
