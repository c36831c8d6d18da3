//! Typing of code, decided exactly, for any version of the instruction set.
//!
//! A version says by its `Language` which form each instruction has. `specs/Typing.antt` has the rules over forms,
//! with the type bot of 3.0 that stands for operands which code that cannot be reached takes from nowhere.
#![tactic(auto)]

mod kind;
mod matching;
mod operand;
mod operands;
mod plan;
mod steps;
mod value_types;

pub use kind::Kind;
pub use operand::Operand;
pub use operands::{Covered, Operands, fits, fits_whole};
pub use plan::{Met, Plan};
pub use steps::step;
pub use value_types::ValueTypes;
