//! Code of WebAssembly 3.0 from bytes: types, single instructions, and expressions.
//!
//! `specs/Code.antt` says which bytes spell an expression, and how deeply the instructions in it nest. An expression is
//! made of the tokens of `specs/Tokens.antt`, in which the instructions of `specs/Instructions.antt` and
//! `specs/Vectors.antt` stand by the values of their opcodes; those that differ in an operator alone are the rows of the
//! crates opcode_table and simd_table. `specs/Types.antt` and `specs/Immediates.antt` say what stands behind an opcode.
//! How instructions nest is the crate nested_code's. Instructions on floats are read like all others; who uses the code
//! refuses them. Each form is exact (`proofs/TypeForms.antt`, `proofs/CodeForms.antt`), and each reader gives what its
//! form reads.
#![tactic(auto)]

pub mod code;
mod head;
mod immediates;
mod instructions;
mod named;
mod token;
pub mod types;
mod vectors;

pub use head::Head;
pub use immediates::read_value_types;
pub use token::read_token;
