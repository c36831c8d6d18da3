// Tests of the crates that read and write bytes, in a crate of their own, since a crate with tests is proved twice.
#![tactic(auto)]

#[cfg(test)]
mod code;
#[cfg(test)]
mod core1;
#[cfg(test)]
mod forms;
#[cfg(test)]
mod frame;
#[cfg(test)]
mod limits;
#[cfg(test)]
mod nested;
#[cfg(test)]
mod opcodes;
#[cfg(test)]
mod read;
#[cfg(test)]
mod rows;
#[cfg(test)]
mod simd;
