//! Reading of modules, for any version of the binary format.
//!
//! A version says in a `Format` of `specs/Format.antt` which bytes spell its modules and how large a file may be, and by a
//! `ModuleFormat` how its payloads are checked, measured and built. `specs/Spells.antt`, `specs/Limits.antt` and
//! `specs/Reads.antt` say of any version what a file spells, which limit it passes first, and what each answer means. A file
//! whose sections are in place is a `File`. `read` answers with the module or with the first step that refuses the file,
//! and a file has one answer.
#![tactic(auto)]

mod bodies;
mod fault;
mod file;
mod format;
mod kind;
mod numbers;
mod reading;
mod sections;
mod sizes;

pub use bodies::{BodyExtent, BodySizes};
pub use fault::ReadFault;
pub use file::{FILE_LIMIT, File};
pub use format::ModuleFormat;
pub use kind::Kind;
pub use numbers::Numbers;
pub use reading::{read, read_file};
pub use sizes::{FileSizes, SectionSizes, Sizes, number_sizes, vector_sizes};
