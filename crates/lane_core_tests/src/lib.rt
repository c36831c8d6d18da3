// Tests of lane_core, apart from it, since a crate with tests is proved twice. Each call is proved to give its lane
// definition, so a definition that is not the standard's shows as a wrong row.
#![tactic(auto)]

#[cfg(test)]
mod calls;
#[cfg(test)]
mod rows;
