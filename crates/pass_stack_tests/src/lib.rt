// Tests of `pass_stack` and of the profile's list in `wasm_ast`, in a crate of their own. What `outside_profile` answers
// is proved to be the definition's, so an entry that is not the profile's shows as a wrong row; and what stages make is
// proved to show what their input shows, so here it is found that they find memory.
#![tactic(auto)]

#[cfg(test)]
mod outside;
#[cfg(test)]
mod pairs;
#[cfg(test)]
mod rows;
#[cfg(test)]
mod stages;
