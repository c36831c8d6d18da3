// Tests of the validation of modules of 3.0, in a crate of their own: for each kind of part a module in which one is not
// typed, and one in which it just is. `validate` is proved to decide the rules, so a rule that is not the standard's shows
// as a wrong row.
#![tactic(auto)]

#[cfg(test)]
mod build;
#[cfg(test)]
mod cases;
#[cfg(test)]
mod code;
#[cfg(test)]
mod faults;
#[cfg(test)]
mod many;
#[cfg(test)]
mod rows;
#[cfg(test)]
mod segments;
#[cfg(test)]
mod trees;
