// Results that the standard gives, three for each vector instruction. They come from its formulas on lanes, worked out
// apart from this repository, and another engine gives the same.
pub mod comparisons;
pub mod memory;
pub mod moved;
pub mod one_operand;
pub mod operands;
pub mod two_operands;
