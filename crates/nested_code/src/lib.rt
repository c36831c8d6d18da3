//! Structured code of the binary format, for any version of the instruction set: instructions, closed by an end,
//! of which some hold code.
//!
//! A version says by a `Language` how single instructions are spelled, and this crate how they nest.
//! `specs/Nesting.antt` has the grammar, "Expressions" of the standard, and its reading over a stack of open blocks,
//! and `specs/Sizes.antt` how deeply code nests. `read_expr` builds the code, `measure_expr` only goes over it.
//! A version cites `proofs/Exactness.antt` for its forms, `proofs/Leaves.antt` for the depth of its instructions,
//! and `proofs/Appending.antt` for what it writes.
#![tactic(auto)]

mod language;
mod measuring;
mod open_block;
mod reading;
mod token;
mod turns;

pub use language::Language;
pub use measuring::{ExprSizes, measure_expr};
pub use open_block::OpenBlock;
pub use reading::read_expr;
pub use token::Token;
