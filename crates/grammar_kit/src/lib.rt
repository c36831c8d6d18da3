//! Forms: binary formats whose grammar and reader are written together and agree.
//!
//! A form is a definition made of the combinators of `specs/Form.antt`. It has a grammar, `text`, and a reading,
//! `read`. That they agree is one search with the rules of `proofs/Combinators.antt`, and what follows of it for
//! each form stands in `proofs/Consequences.antt`. A reader is a function from a slice to a value and the bytes
//! after it, whose one clause is `Gives`: it gives what its form reads.
#![tactic(auto)]

mod bytes;
mod entry;
mod error;
mod measure;

pub use bytes::{read_byte, read_raw};
pub use entry::{Entry, read_many};
pub use error::FormError;
pub use measure::{Dropped, Extent, Measure, measure_many};
