// Tests of the runs of modules of 3.0, apart from them, since a crate with tests is proved twice. A run is proved to show
// what the meaning says, so a rule of the meaning that is not the standard's shows as a wrong row.
#![tactic(auto)]

#[cfg(test)]
mod control;
#[cfg(test)]
mod exceptions;
#[cfg(test)]
mod host;
#[cfg(test)]
mod memories;
#[cfg(test)]
mod references;
#[cfg(test)]
mod row;
#[cfg(test)]
mod runs;
#[cfg(test)]
mod vectors;
