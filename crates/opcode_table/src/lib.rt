//! The opcodes that both versions of WebAssembly have alike, and what they stand for: operators on integers, loads and
//! stores of integers, and instructions on floats.
//!
//! `specs/Operators.antt` and `specs/Accesses.antt` have the rows of the standard's "Numeric Instructions" and "Memory
//! Instructions" (chapter 5): each fact stands there once. A look-up finds the row of an opcode, and its inverse the
//! opcode of a row. Which of the rows a version has, and what follows the opcode, its own grammar says.
#![tactic(auto)]

mod accesses;
mod floats;
mod int_op;
mod opcodes;
mod operators;

pub use accesses::{load_of, load_opcode, store_of, store_opcode};
pub use floats::{is_float_access, is_float_operator};
pub use int_op::IntOp;
pub use opcodes::opcode_of;
pub use operators::operator_of;
