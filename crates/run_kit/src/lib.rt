//! What runs of modules of 1.0 and of 3.0 share: ranges of memories and tables, integers as bytes, what an instruction
//! does to the operands, what a run leaves behind, and the replies that its host has left.
#![tactic(auto)]

mod change;
mod little_endian;
mod marks;
mod ranges;
mod replies;

pub use change::{Change, settle};
pub use little_endian::{load_bytes, load_width, loaded, store_bytes};
pub use marks::{Mark, events};
pub use ranges::{copy_range, fill_range, place, read_range, write_range};
pub use replies::{replies_left, take_reply};
