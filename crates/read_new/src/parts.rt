// The payloads of sections: what each entry of a section's vector is, by the form of its grammar, and how large it is.

mod bodies;
mod exports;
mod funcs;
mod globals;
mod imports;
mod segments;
mod tables;
mod types;

pub use bodies::{BodyEntry, LocalGroup, measure_body};
pub use exports::ExportEntry;
pub use funcs::FuncEntry;
pub use globals::{GlobalEntry, GlobalMeasure};
pub use imports::{FunctionImports, ImportEntry};
pub use segments::{ElementEntry, ElementMeasure, SegmentEntry, SegmentMeasure};
pub use tables::{LimitsEntry, TableEntry, TableMeasure, TagEntry};
pub use types::{TypeEntry, type_sizes};
