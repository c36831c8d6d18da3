//! The typing of modules of WebAssembly 1.0, decided exactly.
//!
//! `validate1` says whether a module is typed by the rules of `core1_ast`, and else which part or body is the first that
//! is not. `specs/Parts.antt` has the rule and the order of the parts, `specs/Verdict.antt` what each answer says.
//!
//! Code is typed by the typing kit. Its rules are over forms: `specs/Forms.antt` has the form of each instruction, and the
//! law `same_rules` says that they type the same code as the rules of `core1_ast`. A body is walked once, over one stack
//! of operands; `plan.rt` looks up what an instruction takes and gives, `code.rt` follows the blocks.
#![tactic(auto)]

mod accesses;
mod bodies;
mod code;
mod invalid;
mod labels;
pub mod laws;
mod parts;
mod plan;
mod scope;
mod search;
mod short;
mod spaces;
mod typed;
mod types;
mod validate;

pub use invalid::Invalid;
pub use typed::Typed1;
pub use validate::validate1;
