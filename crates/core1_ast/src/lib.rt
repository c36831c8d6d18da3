// Modules of WebAssembly 1.0 as data, and when they are typed.
#![tactic(auto)]

pub mod floats;
pub mod laws;
pub mod module;
