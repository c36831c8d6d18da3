//! The binary format of WebAssembly 1.0, read and written.
//!
//! `specs/Spells.antt` says which bytes spell a module: the record `one` is what tells 1.0 from other versions, and the
//! crate module_reading says the rest, what each answer to reading means among it. Payloads are spelled by the forms of
//! `specs/Parts.antt`, bodies by those of `specs/Bodies.antt`, `specs/Tokens.antt` and `specs/Instructions.antt`;
//! `specs/Limits.antt` has the limits of a file. `read1` measures a file before it builds anything of it; `write1` takes
//! typed modules alone.
#![tactic(auto)]

mod body;
mod head;
pub mod laws;
mod reading;
mod writing;

pub use body::LocalGroup1;
pub use head::Head1;
pub use module_reading::{Kind, ReadFault};
pub use reading::read1;
pub use writing::write1;
