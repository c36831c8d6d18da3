// The vector instructions by name: each is exactly one value of `LaneOp`. Those of one signature are a type of their
// own, with a variant for each, and so is what a load from memory makes of its bytes.

mod lanes;
mod memory;
mod named;
mod pairs;

pub use lanes::{Lane1, LaneShift, LaneTest};
pub use memory::{LaneExtract, LaneLoad};
pub use named::LaneOp;
pub use pairs::Lane2;
