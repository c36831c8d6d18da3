// From bytes to the parts of a module of 1.0.

mod bodies;
mod code;
mod instructions;
mod measures;
mod named;
mod one;
mod parts;
mod sections;
mod types;

pub use bodies::{BodyEntry, GroupEntry};
pub use instructions::IndexEntry;
pub use one::read1;
pub use parts::{
    ElementEntry, ExportEntry, GlobalEntry, ImportEntry, MemoryEntry, SegmentEntry, TableEntry,
};
pub use types::{TypeEntry, ValueTypeEntry};
