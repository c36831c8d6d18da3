// Tests of the validators, in a crate of their own: for each rule of typing a module that breaks it alone and one that
// just does not. `validate1` is proved to decide the rules, so a rule that is not the standard's shows as a wrong row.
#![tactic(auto)]

#[cfg(test)]
mod bodies;
#[cfg(test)]
mod build;
#[cfg(test)]
mod parts;
#[cfg(test)]
mod rules;
#[cfg(test)]
mod steps;
