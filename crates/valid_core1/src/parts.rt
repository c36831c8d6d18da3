// The tests of the parts of each section.

mod constants;
mod exports;
mod globals;
mod imports;
mod limits;
mod segments;
mod types;

pub use exports::{first_export, start_is_typed};
pub use globals::GlobalTest;
pub use imports::{ImportTest, count_memories, count_tables};
pub use limits::{LimitsTest, MEMORY_BOUND, TABLE_BOUND};
pub use segments::{ElementTest, SegmentTest};
pub use types::{FuncTest, TypeTest, all_integers};
