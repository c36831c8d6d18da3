//! When code and modules of WebAssembly 3.0 are typed, and modules whose code is kept with its types.
//!
//! `specs/Forms.antt` has the standard's table of instructions, over the rules of `typing_kit`; `specs/Modules.antt` has
//! a rule for each kind of part. `specs/Trees.antt` says when a tree of nodes is typed, and which code it stands for;
//! `specs/Typed.antt` says the same of modules.
#![tactic(auto)]

mod copies;
mod few_types;
mod global_type;
pub mod laws;
mod module;
mod node;
mod signature;

pub use global_type::GlobalType;
pub use module::{TypedFn, TypedModule};
pub use node::{Bodies, Node, Nodes};
pub use signature::Signature;
