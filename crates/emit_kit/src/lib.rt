//! The builder that a pass writes its output with: the parts and bodies of a module of WebAssembly 3.0, to which types,
//! globals and functions are added and whose bodies are replaced, until the whole is typed.
//!
//! `specs/Built.antt` says what each call makes of the parts and bodies. `first_types` finds the first index of a type,
//! by its key (`keys`); `default_values` makes the global that is added.
#![tactic(auto)]

mod default_values;
mod emit;
mod first_types;
mod keys;
mod next_index;

pub use emit::Emit;
