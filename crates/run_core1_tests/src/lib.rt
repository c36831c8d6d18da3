// Tests of the runs of modules of 1.0, apart from them, since a crate with tests is proved twice. A run is proved to leave
// behind what the meaning says, so a rule of the meaning that is not the standard's shows as a wrong row.
#![tactic(auto)]

#[cfg(test)]
mod instructions;
#[cfg(test)]
mod rows;
#[cfg(test)]
mod runs;
