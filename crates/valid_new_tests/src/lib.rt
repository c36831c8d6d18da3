// Tests of `valid_new` and of the rules in `typed_trees`, in a crate of their own, since a crate with tests is proved twice.
//
// The rows of `flat` have an instruction, what it takes and what it gives; each is tried over operands of every type.
// `operators`, `accesses` and `nested` have more of them, `leaving` those behind which nothing is reached, and `refused`
// instructions that no rule types. `unreached` and `trees` try whole bodies, `whole` functions
// of whole modules.
#![tactic(auto)]

#[cfg(test)]
mod accesses;
#[cfg(test)]
mod exactly;
#[cfg(test)]
mod flat;
#[cfg(test)]
mod leaving;
#[cfg(test)]
mod nested;
#[cfg(test)]
mod operators;
#[cfg(test)]
mod refused;
#[cfg(test)]
mod steps;
#[cfg(test)]
mod trees;
#[cfg(test)]
mod trial;
#[cfg(test)]
mod unreached;
#[cfg(test)]
mod whole;
#[cfg(test)]
mod world;
