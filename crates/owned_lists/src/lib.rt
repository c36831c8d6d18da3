//! Lists that are taken apart by value: their items are moved out one by one from the front, so that what stays of a large
//! tree is moved and not copied.
#![tactic(auto)]

mod drain;

pub use drain::Drain;
