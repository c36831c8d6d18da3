//! The stack of passes: which modules it takes, and what it makes of them.
//!
//! `profile` names the first entry of the profile's list that keeps a module out, and last a feature that no pass takes yet;
//! `outside_profile` leaves that last entry out, for a module that is checked and not lowered. `lower_module` puts the stages
//! in a row (`specs/Pipeline.antt`) and writes their output as a module of 1.0: typed, linked as the module is, and showing
//! the same. `proofs/Taken.antt` has why each stage takes what it is given, `proofs/Cut.antt` that a module without the
//! code that cannot be reached is taken where the module is.
#![tactic(auto)]

mod computed;
mod entries;
mod outside;
mod pipeline;
mod words;

pub use entries::{outside_profile, profile};
pub use outside::Outside;
pub use pipeline::{lower_module, lower_module_owned, lower_stages};
