//! Decides when code of WebAssembly 3.0 is typed, and gives it with its types.
//!
//! `plans` says what each instruction does to the operands, by the form that it has in its context (`scope`); `body` types
//! code, one instruction after another, and puts the nodes of what is reached behind one another; `annotating` types the
//! body of a function. `deciding` and `checking` say the same of code and of bodies, and keep nothing. `specs/Annotated.antt`
//! and `specs/Judged.antt` say what is answered.
#![tactic(auto)]

mod annotating;
mod body;
mod checking;
mod deciding;
mod groups;
mod nested;
mod nodes;
mod plans;
mod scope;
mod spaces;
mod types;
mod values;
mod widths;

pub use annotating::{Fault, annotate, annotate_body, annotate_func};
pub use checking::is_func_typed;
pub use deciding::is_code_typed;
pub use scope::{Scope, Spaces};
pub use spaces::spaces_of;
pub use types::{is_reference_type, is_value_type, matches};
