//! What both binary grammars of WebAssembly share: numbers in LEB128, names, and the frame of sections.
#![tactic(auto)]

pub mod leb128;
pub mod names;
pub mod payloads;
pub mod sections;
