// Tests of `wasm_ast` and `core1_ast` with ample memory, in a crate of their own, since a crate with tests is proved twice.
#![tactic(auto)]

#[cfg(test)]
mod copies;
#[cfg(test)]
mod core1;
#[cfg(test)]
mod features;
#[cfg(test)]
mod fixtures;
#[cfg(test)]
mod kept;
