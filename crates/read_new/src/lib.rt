//! Reads modules of WebAssembly 3.0.
//!
//! `specs/Spells.antt` says which bytes spell a module, by the forms of `specs/Parts.antt` and those of `specs/Bodies.antt`,
//! as a version of the format that `module_reading` reads. `specs/Limits.antt` has the limits, and `specs/Reads.antt` says
//! what each answer means. A reader in `parts` gives what its form reads.
#![tactic(auto)]

mod building;
mod checking;
mod counts;
pub mod laws;
mod parts;
mod payload;
mod reading;
mod three;

pub use module_reading::{Kind, ReadFault};
pub use reading::{read, read_file};
