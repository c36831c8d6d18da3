//! The validation of modules of WebAssembly 3.0, decided exactly.
//!
//! `validate` says whether a module is typed by the rules of `typed_trees`, and gives it with its types, or says which
//! part or body is the first that is not typed; `validate_owned` does so by value, and `check` gives the same verdict and
//! keeps nothing. `specs/Parts.antt` has the rule and the order of the parts, `specs/Verdict.antt` what each verdict says,
//! `specs/Standing.antt` what the typed module has to do with the module, `specs/Meaning.antt` that both have the same
//! runs.
//!
//! `parts` goes through the sections in their order, by the index spaces that `spaces` lends; `bodies` goes through the
//! bodies. Code and constant expressions are typed by `valid_new`.
#![tactic(auto)]

mod bare;
mod bodies;
mod invalid;
pub mod laws;
mod parts;
mod search;
mod spaces;
mod validation;

pub use invalid::Invalid;
pub use validation::{check, validate, validate_owned};
