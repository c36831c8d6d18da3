// Modules of WebAssembly 3.0 as data, which features they have, and what keeps them out of the profile.
#![tactic(auto)]

pub mod facts;
pub mod features;
pub mod folding;
pub mod kept;
pub mod lists;
pub mod marking;
pub mod module;
pub mod occurrence;
pub mod outside;
pub mod spaces;
