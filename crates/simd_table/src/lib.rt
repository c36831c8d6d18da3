//! The codes of the vector instructions of WebAssembly 3.0, and the instructions of the codes.
//!
//! `specs/Codes.antt` has the table of the standard's "Vector Instructions" (chapter 5), a row for each instruction.
//! `name_of` finds the row of a code, and `code_of` the row of an instruction.
#![tactic(auto)]

mod codes;
mod names;

pub use codes::code_of;
pub use names::name_of;
