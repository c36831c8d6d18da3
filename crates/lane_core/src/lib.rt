// Vectors of 128 bits, and the operators of the standard's "Vector Instructions" on their lanes of integers.
#![tactic(auto)]

pub mod operations;
pub mod operators;
pub mod vector;
